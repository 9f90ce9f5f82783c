//! A task's next attempt is launched, of a machine that is built beside the one that is there.
ghost use Rattle.std.specs.Prelude.{◌≡◌, ◌<◌, None, Ok, IfOk, OnOk, length};
ghost use Rattle.mr_task.specs.Calls.{Launches};
ghost use Rattle.mr_task.specs.Readings.{seen, launch_refusal};
ghost use Rattle.mr_task.specs.State.{Answers, Stands, launch_answer};
ghost use Rattle.mr_master_tasks.specs.Tasks.{AnswersAt, IsTold};

use crate::memory::{copied, wants_memory};
use crate::tasks::Tasks;
use mr_ids::AttemptId;
use mr_task::TaskMachine;
use std::alloc::AllocError;

impl Tasks {
    /// The attempt of the task that is launched next, and a machine as the one at the place would be then. Nothing
    /// refuses the launch.
    pub fn launched(&self, place: usize) -> Result<(AttemptId, TaskMachine), AllocError>
        requires within { place < length self.now.machines }
        requires allowed { AnswersAt self.now.machines place (λ t k calls. launch_refusal (seen t k calls)) None }
        ensures attempt { IfOk result (λ p. AnswersAt self.now.machines place launch_answer (Ok p.0)) }
        ensures told { IfOk result (λ p. IsTold self.now.machines place Launches p.1) }
    {
        let task = &self.machines[place];
        launched(task)
    }
}

// An equal machine, of which the next attempt is launched, and that attempt.
fn launched(task: &TaskMachine) -> Result<(AttemptId, TaskMachine), AllocError>
    requires { Answers task.now (λ t k calls. launch_refusal (seen t k calls)) None }
    ensures attempt { IfOk result (λ p. Answers task.now launch_answer (Ok p.0)) }
    ensures told { IfOk result (λ p. Stands task.now Launches p.1) }
{
    let mut copy = copied(task)?;
    let attempt = launch_next(&mut copy)?;
    Ok((attempt, copy))
}

fn launch_next(task: &mut TaskMachine) -> Result<AttemptId, AllocError>
    requires { Answers task.old (λ t k calls. launch_refusal (seen t k calls)) None }
    ensures attempt { IfOk result (λ attempt. Answers task.old launch_answer (Ok attempt)) }
    ensures told { OnOk result (Stands task.old Launches task.new) }
{
    // For the prover: a task's machine stands for some calls.
    task.stands();
    match task.launch() {
        Ok(attempt) => Ok(attempt),
        Err(fault) => Err(wants_memory(fault)),
    }
}
