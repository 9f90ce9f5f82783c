//! An attempt asks for permission to commit, of a machine that is built beside the one that is there.
ghost use Rattle.std.specs.Prelude.{◌≡◌, ◌<◌, true, length, IfOk, OnOk};
ghost use Rattle.mr_grant.specs.Attempts.{has};
ghost use Rattle.mr_task.specs.Calls.{Asks};
ghost use Rattle.mr_task.specs.Readings.{seen};
ghost use Rattle.mr_task.specs.State.{Answers, Stands};
ghost use Rattle.mr_master_tasks.specs.Tasks.{AnswersAt, IsTold};

use crate::memory::{copied, wants_memory};
use crate::tasks::Tasks;
use mr_ids::AttemptId;
use mr_task::TaskMachine;
use std::alloc::AllocError;

impl Tasks {
    /// A machine as the one at the place would be once the attempt asked. The task has the attempt.
    pub fn asked(&self, place: usize, attempt: AttemptId) -> Result<TaskMachine, AllocError>
        requires within { place < length self.now.machines }
        requires arrived { AnswersAt self.now.machines place (λ t k calls. has (seen t k calls).arrived attempt) true }
        ensures { IfOk result (λ machine. IsTold self.now.machines place (Asks attempt) machine) }
    {
        let task = &self.machines[place];
        asked(task, attempt)
    }
}

// An equal machine, of which the attempt asks.
fn asked(task: &TaskMachine, attempt: AttemptId) -> Result<TaskMachine, AllocError>
    requires { Answers task.now (λ t k calls. has (seen t k calls).arrived attempt) true }
    ensures { IfOk result (λ machine. Stands task.now (Asks attempt) machine) }
{
    let mut copy = copied(task)?;
    ask(&mut copy, attempt)?;
    Ok(copy)
}

fn ask(task: &mut TaskMachine, attempt: AttemptId) -> Result<(), AllocError>
    requires { Answers task.old (λ t k calls. has (seen t k calls).arrived attempt) true }
    ensures { OnOk result (Stands task.old (Asks attempt) task.new) }
{
    // For the prover: a task's machine stands for some calls.
    task.stands();
    match task.pending(attempt) {
        Ok(()) => Ok(()),
        Err(fault) => Err(wants_memory(fault)),
    }
}
