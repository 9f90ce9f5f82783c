//! The commit of a task attempt (Hadoop's `commitTask`): its output takes the place of what the task had committed; call by call, as a step value, and whole.
ghost use Rattle.std.specs.Prelude.{◌≡◌, [], ◌∷◌, IfOk};
ghost use Rattle.mr_commit.specs.CommitterEffect.{Commits, HasEffect};
ghost use Rattle.mr_commit.specs.Tables.{commit_task};

use crate::checks::heard_generation;
use crate::fault::CommitFault;
use crate::line::TableLine;
use crate::step::Step;
use mr_ids::{AppAttempt, AttemptId};
use mr_names::{Caller, Namespace, Op};
use mr_paths::Layout;
use std::alloc::AllocError;
use std::collections::LinkedList;

impl Step {
    /// The commit of a task's attempt in the master's generation `k`: its output takes the place of what the task had
    /// committed.
    pub fn commit_task(
        layout: &Layout,
        k: AppAttempt,
        attempt: AttemptId,
    ) -> Result<Step, AllocError>
        ensures { IfOk result (λ step. step ≡ commit_task layout.now.dest k attempt) }
    {
        let alloc = layout.dest.allocator();
        let from = layout.task_attempt(k, attempt)?;
        let to = layout.committed(k, attempt.task())?;
        let table = LinkedList::from_array(
            alloc,
            [
                TableLine::needs(from.copy()?),
                TableLine::clears(to.copy()?),
                TableLine::does(Op::Rename { from, to }),
            ],
        )?;
        Ok(Step::of_table(table))
    }
}

/// Commits an attempt's output in the caller's generation: all calls of `Step::commit_task`.
///
/// A fault, `NoMemory` too, leaves what the earlier calls did.
/// `NoMemory` comes before the first call, or where the line that is next may allocate.
pub fn commit_task(
    names: &mut Namespace,
    caller: Caller,
    layout: &Layout,
    attempt: AttemptId,
) -> Result<(), CommitFault>
    ensures effect { HasEffect (commit_task layout.now.dest caller.app attempt) names.old caller result names.new }
    ensures made { Commits (commit_task layout.now.dest caller.app attempt) names.old caller result names.new }
{
    let k = heard_generation(names, &caller)?;
    let mut step = Step::commit_task(layout, k, attempt)?;
    step.finish(names, caller)
}
