//! Which task waits for a launch, and whether all tasks of a kind are Succeeded.
ghost use Rattle.std.specs.Prelude.{Some, None, if◌then◌else◌};
ghost use Rattle.mr_master_model.specs.Job.{first_tasks, count_of, all_maps};
ghost use Rattle.mr_master_model.specs.Readings.{all_succeeded, wanted};
ghost use Rattle.mr_master_state.specs.State.{Reads};

use crate::machine::Machine;
use mr_ids::{TaskId, TaskKind};

impl Machine {
    /// The first task that waits for a launch, maps first, a reduce only once every map is Succeeded.
    pub fn wanted(&self) -> Option<TaskId>
        ensures { Reads self.now wanted result }
    {
        if !self.work.is_running() {
            return None;
        }
        let Some(task) = self.tasks.first_waiting() else {
            return None;
        };
        match task.kind {
            TaskKind::Map => Some(task),
            TaskKind::Reduce => self.once_maps_succeeded(task),
        }
    }

    // The reduce, if every map is Succeeded.
    fn once_maps_succeeded(&self, reduce: TaskId) -> Option<TaskId>
        ensures { Reads self.now (λ w s. if all_succeeded w s (all_maps w) then Some reduce else None) result }
    {
        if self.all_succeeded(TaskKind::Map) {
            Some(reduce)
        } else {
            None
        }
    }

    /// Whether each task of a kind has a Succeeded attempt.
    pub fn all_succeeded(&self, kind: TaskKind) -> bool
        ensures { Reads self.now (λ w s. all_succeeded w s (first_tasks w kind (count_of w kind))) result }
    {
        self.tasks.all_succeeded(kind)
    }
}
