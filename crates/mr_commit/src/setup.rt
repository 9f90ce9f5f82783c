//! The setup of a job (Hadoop's `setupJob`): the job attempt path is made; call by call, as a step value, and whole.
ghost use Rattle.std.specs.Prelude.{◌≡◌, [], ◌∷◌, IfOk};
ghost use Rattle.mr_commit.specs.CommitterEffect.{Commits, HasEffect};
ghost use Rattle.mr_commit.specs.Tables.{setup_job};

use crate::checks::heard_generation;
use crate::fault::CommitFault;
use crate::line::TableLine;
use crate::step::Step;
use mr_ids::AppAttempt;
use mr_names::{Caller, Namespace, Op};
use mr_paths::Layout;
use std::alloc::AllocError;
use std::collections::LinkedList;

impl Step {
    /// The setup of a job by the master's generation `k`: the job attempt path is made.
    pub fn setup_job(layout: &Layout, k: AppAttempt) -> Result<Step, AllocError>
        ensures { IfOk result (λ step. step ≡ setup_job layout.now.dest k) }
    {
        let alloc = layout.dest.allocator();
        let path = layout.job_attempt(k)?;
        let table = LinkedList::from_array(alloc, [TableLine::does(Op::Mkdirs(path))])?;
        Ok(Step::of_table(table))
    }
}

/// Sets a job up in the caller's generation: all calls of `Step::setup_job`.
///
/// After `NoMemory` nothing has changed.
pub fn setup_job(names: &mut Namespace, caller: Caller, layout: &Layout) -> Result<(), CommitFault>
    ensures effect { HasEffect (setup_job layout.now.dest caller.app) names.old caller result names.new }
    ensures made { Commits (setup_job layout.now.dest caller.app) names.old caller result names.new }
{
    let k = heard_generation(names, &caller)?;
    let mut step = Step::setup_job(layout, k)?;
    step.finish(names, caller)
}
