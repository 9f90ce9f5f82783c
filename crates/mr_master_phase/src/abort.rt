//! What is next after the abort of a job that failed.
ghost use Rattle.std.specs.Prelude.{◌≡◌};
ghost use Rattle.mr_master_phase.specs.WorkKinds.{passes_abort, aborted};

use crate::work::Work;
use mr_master_model::StoreAnswer;
use mr_names::{Answer, NameFault};

/// What is next after the abort: it passes, also where there is nothing to delete, and then the job ended.
pub fn aborted(answer: &StoreAnswer) -> Work
    ensures { result ≡ aborted answer.now }
{
    if passes_abort(answer) {
        Work::ends(false)
    } else {
        Work::stopped()
    }
}

// Whether the abort is done: its delete was made, or there was nothing to delete.
fn passes_abort(answer: &StoreAnswer) -> bool
    ensures { result ≡ passes_abort answer.now }
{
    match answer {
        StoreAnswer::Names(Ok(Answer::Done)) | StoreAnswer::Names(Err(NameFault::Missing)) => true,
        _ => false,
    }
}
