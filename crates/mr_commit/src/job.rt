//! The commit of a job (Hadoop's `commitJob`): the merge onto the destination, the cleanup, and the marker last; call by call, as a step value, and whole.
ghost use Rattle.std.specs.Prelude.{◌≡◌, [], ◌∷◌, IfOk};
ghost use Rattle.mr_commit.specs.CommitterEffect.{Commits, HasEffect};
ghost use Rattle.mr_commit.specs.Tables.{commit_job};

use crate::checks::heard_generation;
use crate::fault::CommitFault;
use crate::line::TableLine;
use crate::step::Step;
use mr_ids::AppAttempt;
use mr_names::{Caller, Namespace, Op};
use mr_paths::Layout;
use std::alloc::AllocError;
use std::collections::LinkedList;

impl Step {
    /// The commit of a job, of what the master's generation `k` holds. All committed output is merged onto the
    /// destination, then what was temporary is deleted, and the marker is created last.
    ///
    /// It is not to be made twice: a marker that is there already is `Names(Exists)`.
    pub fn commit_job(layout: &Layout, k: AppAttempt) -> Result<Step, AllocError>
        ensures { IfOk result (λ step. step ≡ commit_job layout.now.dest k) }
    {
        let alloc = layout.dest.allocator();
        let tasks = layout.job_attempt(k)?;
        let table = LinkedList::from_array(
            alloc,
            [
                TableLine::merges_tasks(tasks, layout.dest.copy()?)?,
                TableLine::clears(layout.temporary()?),
                TableLine::does(Op::Create {
                    path: layout.marker()?,
                    closed: true,
                }),
            ],
        )?;
        Ok(Step::of_table(table))
    }
}

/// Commits a job in the caller's generation: all calls of `Step::commit_job`.
///
/// A fault, `NoMemory` too, leaves what the earlier calls did.
/// `NoMemory` comes before the first call, or where the line that is next may allocate.
pub fn commit_job(names: &mut Namespace, caller: Caller, layout: &Layout) -> Result<(), CommitFault>
    ensures effect { HasEffect (commit_job layout.now.dest caller.app) names.old caller result names.new }
    ensures made { Commits (commit_job layout.now.dest caller.app) names.old caller result names.new }
{
    let k = heard_generation(names, &caller)?;
    let mut step = Step::commit_job(layout, k)?;
    step.finish(names, caller)
}
