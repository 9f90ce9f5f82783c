//! That the laws are not said of nothing: a job succeeds.
ghost use Rattle.mr_world_laws.specs.Succeeds.{AWorldSucceeds};

use mr_jobs::WordCount;
use mr_world_files::jobs_have_their_laws;

/// In some world a job of at least one map succeeds, under the world's own limits. There are events, each of which is taken, whose results are those of the count of words. After
/// them the marker is there, success was told, a node was told the winner, and the part file has bytes.
///
/// It does nothing.
#[tactic(auto, using(crate::proofs::Success_words::words_succeed))]
pub fn a_world_succeeds()
    ensures succeeds { AWorldSucceeds }
{
    jobs_have_their_laws::<WordCount>();
}
