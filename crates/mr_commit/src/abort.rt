//! The aborts of a task attempt and of a job (Hadoop's `abortTask` and `abortJob`): each call by call, as a step value, and whole.
ghost use Rattle.std.specs.Prelude.{◌≡◌, [], ◌∷◌, IfOk};
ghost use Rattle.mr_commit.specs.CommitterEffect.{Commits, HasEffect};
ghost use Rattle.mr_commit.specs.Tables.{abort_task, abort_job};

use crate::checks::heard_generation;
use crate::fault::CommitFault;
use crate::line::TableLine;
use crate::step::Step;
use mr_ids::{AppAttempt, AttemptId};
use mr_names::{Caller, Namespace};
use mr_paths::Layout;
use std::alloc::AllocError;
use std::collections::LinkedList;

impl Step {
    /// The abort of a task's attempt in the master's generation `k`: its output is deleted. A missing path is accepted.
    pub fn abort_task(
        layout: &Layout,
        k: AppAttempt,
        attempt: AttemptId,
    ) -> Result<Step, AllocError>
        ensures { IfOk result (λ step. step ≡ abort_task layout.now.dest k attempt) }
    {
        let alloc = layout.dest.allocator();
        let path = layout.task_attempt(k, attempt)?;
        let table = LinkedList::from_array(alloc, [TableLine::clears(path)])?;
        Ok(Step::of_table(table))
    }

    /// The abort of a job, whatever the generation: what was temporary is deleted. A missing path is accepted.
    pub fn abort_job(layout: &Layout) -> Result<Step, AllocError>
        ensures { IfOk result (λ step. step ≡ abort_job layout.now.dest) }
    {
        let alloc = layout.dest.allocator();
        let path = layout.temporary()?;
        let table = LinkedList::from_array(alloc, [TableLine::clears(path)])?;
        Ok(Step::of_table(table))
    }
}

/// Aborts an attempt in the caller's generation: all calls of `Step::abort_task`.
///
/// After a fault, `NoMemory` too, nothing has changed.
pub fn abort_task(
    names: &mut Namespace,
    caller: Caller,
    layout: &Layout,
    attempt: AttemptId,
) -> Result<(), CommitFault>
    ensures effect { HasEffect (abort_task layout.now.dest caller.app attempt) names.old caller result names.new }
    ensures made { Commits (abort_task layout.now.dest caller.app attempt) names.old caller result names.new }
{
    let k = heard_generation(names, &caller)?;
    let mut step = Step::abort_task(layout, k, attempt)?;
    step.finish(names, caller)
}

/// Aborts a job: all calls of `Step::abort_job`.
///
/// After a fault, `NoMemory` too, nothing has changed.
pub fn abort_job(names: &mut Namespace, caller: Caller, layout: &Layout) -> Result<(), CommitFault>
    ensures effect { HasEffect (abort_job layout.now.dest) names.old caller result names.new }
    ensures made { Commits (abort_job layout.now.dest) names.old caller result names.new }
{
    heard_generation(names, &caller)?;
    let mut step = Step::abort_job(layout)?;
    step.finish(names, caller)
}
