//! What succeeded under earlier masters is taken over, into machines of the tasks that are built beside the ones that
//! are there. So nothing has changed where memory is refused.
ghost use Rattle.std.specs.Prelude.{◌≡◌, ◌<◌, true, length, [], ◌∷◌, ◌++◌, OnOk, OnErr, IfOk, vec_len};
ghost use Rattle.mr_task.specs.Calls.{Recovers};
ghost use Rattle.mr_task.specs.Readings.{seen, may_recover};
ghost use Rattle.mr_task.specs.State.{Answers, Stands};
ghost use Rattle.mr_master_tasks.specs.Tasks.{TakesAt, Takes, IsTold, Enters};

use crate::memory::{copied, wants_memory};
use crate::places::place_of;
use crate::tasks::{Tasks, follow};
use mr_ids::AttemptId;
use mr_master_model::Setting;
use mr_task::TaskMachine;
use std::alloc::{AllocError, Global};

impl Tasks {
    /// Equal machines.
    pub fn copy(&self, alloc: Global) -> Result<Tasks, AllocError>
        ensures { IfOk result (λ tasks. tasks ≡ self.now) }
    {
        let mut machines = Vec::new(alloc);
        for i in 0..self.machines.len() {
            push_copy(&mut machines, &self.machines[i])?;
        }
        let progress = self.progress.copy()?;
        Ok(Tasks { machines, progress })
    }

    /// The attempt succeeded under an earlier master: it is entered, if its task has none.
    pub fn recover(&mut self, place: usize, attempt: AttemptId) -> Result<(), AllocError>
        requires { place < length self.old.machines }
        ensures { OnOk result (Takes self.old place (Recovers attempt) self.new) }
    {
        recover_at(&mut self.machines, place, attempt)?;
        follow(&self.machines, &mut self.progress, place);
        Ok(())
    }

    /// A machine as the one at the place would be once the attempt is entered.
    pub fn recovered(&self, place: usize, attempt: AttemptId) -> Result<TaskMachine, AllocError>
        requires { place < length self.now.machines }
        ensures { IfOk result (λ machine. IsTold self.now.machines place (Recovers attempt) machine) }
    {
        let task = &self.machines[place];
        recovered(task, attempt)
    }

    // The same, at the place of its task; of a task that is not the job's nothing changes.
    fn recover_one(&mut self, setting: &Setting, attempt: AttemptId) -> Result<(), AllocError>
        ensures { OnOk result (Enters self.old setting.now (attempt ∷ []) self.new) }
    {
        let Some(place) = place_of(setting, attempt.task()) else {
            return Ok(());
        };
        if place >= self.machines.len() {
            return Ok(());
        }
        self.recover(place, attempt)?;
        Ok(())
    }

    /// Attempts are entered, one after another.
    pub fn recover_all(
        &mut self,
        setting: &Setting,
        attempts: &[AttemptId],
    ) -> Result<(), AllocError>
        ensures { OnOk result (Enters self.old setting.now attempts.now self.new) }
    {
        for i in 0..attempts.len() {
            self.recover_one(setting, attempts[i])?;
        }
        Ok(())
    }
}

fn push_copy(machines: &mut Vec<TaskMachine>, task: &TaskMachine) -> Result<(), AllocError>
    ensures { OnOk result (machines.new.items ≡ machines.old.items ++ task.now ∷ []) }
{
    let copy = copied(task)?;
    machines.push(copy)?;
    Ok(())
}

fn recover_at(
    tasks: &mut Vec<TaskMachine>,
    place: usize,
    attempt: AttemptId,
) -> Result<(), AllocError>
    requires { place < vec_len tasks.old }
    ensures takes { OnOk result (TakesAt tasks.old.items place (Recovers attempt) tasks.new.items) }
    ensures err { OnErr result (tasks.new.items ≡ tasks.old.items) }
{
    let task = &mut tasks[place];
    recover(task, attempt)
}

// A task that has an attempt, or that is not the attempt's, stays as it is.
fn recover(task: &mut TaskMachine, attempt: AttemptId) -> Result<(), AllocError>
    ensures stands { OnOk result (Stands task.old (Recovers attempt) task.new) }
    ensures err { OnErr result (task.new ≡ task.old) }
{
    if !may_recover(task, attempt) {
        return Ok(());
    }
    match task.recovered(attempt) {
        Ok(()) => Ok(()),
        Err(fault) => Err(wants_memory(fault)),
    }
}

// An equal machine, into which the attempt is entered.
fn recovered(task: &TaskMachine, attempt: AttemptId) -> Result<TaskMachine, AllocError>
    ensures { IfOk result (λ machine. Stands task.now (Recovers attempt) machine) }
{
    let mut copy = copied(task)?;
    recover(&mut copy, attempt)?;
    Ok(copy)
}

// Whether the attempt is the task's own, and the task has none.
fn may_recover(task: &TaskMachine, attempt: AttemptId) -> bool
    ensures answer { Answers task.now (λ t k calls. may_recover t (seen t k calls) attempt) result }
    ensures own { result ≡ true → attempt.task ≡ task.now.task }
    ensures first { result ≡ true → task.now.attempts ≡ [] }
{
    // For the prover: a task's machine stands for some calls.
    task.stands();
    if task.arrived().len() != 0 {
        return false;
    }
    attempt.task() == task.task()
}
