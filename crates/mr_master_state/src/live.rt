//! The live attempts of a task.
ghost use Rattle.std.specs.Prelude.{IfOk};
ghost use Rattle.mr_task.specs.Readings.{live};
ghost use Rattle.mr_master_model.specs.Readings.{of_task};
ghost use Rattle.mr_master_tables.specs.Gone.{of_job};
ghost use Rattle.mr_master_state.specs.State.{Reads};

use crate::machine::Machine;
use mr_ids::{AttemptId, TaskId};
use mr_master_tasks::{is_live, place_of};
use std::alloc::AllocError;

impl Machine {
    // A task's live attempts, in order of arrival: two at most, and none where the job has no such task.
    pub(crate) fn live_of(&self, task: TaskId) -> Result<Vec<AttemptId>, AllocError>
        ensures { IfOk result (λ attempts. Reads self.now (λ w s. of_job w task (live (of_task w s task))) attempts.items) }
    {
        let mut attempts = Vec::new(self.alloc);
        let Some(place) = place_of(&self.setting, task) else {
            return Ok(attempts);
        };
        let Some(machine) = self.tasks.at(place) else {
            return Ok(attempts);
        };
        let arrived = machine.arrived();
        for i in 0..arrived.len() {
            let attempt = arrived[i];
            if is_live(machine, attempt) {
                attempts.push(attempt)?;
            }
        }
        Ok(attempts)
    }
}
