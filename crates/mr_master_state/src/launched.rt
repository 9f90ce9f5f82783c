//! What a launch changes: the task's next attempt, its container, and the record of its start.
ghost use Rattle.mr_task.specs.Calls.{Launches};
ghost use Rattle.mr_master_model.specs.Readings.{tell};
ghost use Rattle.mr_master_model.specs.Hearing.{with_launch};
ghost use Rattle.mr_master_state.specs.Prepared.{LaunchesAt, HasLaunchRoom};
ghost use Rattle.mr_master_state.specs.State.{MovesOn};

use crate::boxed::Boxed;
use crate::machine::Machine;
use mr_history::Record;
use mr_ids::AttemptId;
use mr_master_model::Launch;
use mr_task::TaskMachine;

impl Machine {
    // An attempt was launched: this is the machine of its task from then on.
    pub(crate) fn has_launched(
        &mut self,
        place: usize,
        attempt: AttemptId,
        machine: Boxed<TaskMachine>,
        launch: Launch,
    )
        requires at { LaunchesAt self.old place attempt machine }
        requires room { HasLaunchRoom self.old }
        ensures { MovesOn self.old (λ w s. with_launch (tell s attempt.task Launches) attempt launch) self.new }
    {
        let node = launch.node;
        self.tasks.put(place, machine.into_inner());
        self.launches.push_reserved(attempt, launch);
        self.writing
            .push_reserved(Record::AttemptStarted { attempt, node });
    }
}
