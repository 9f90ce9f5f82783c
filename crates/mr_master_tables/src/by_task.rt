//! The winners of a recovery plan, by task. This is the only place that knows the map in which they are kept.
ghost use Rattle.std.specs.Prelude.{◌≡◌, [], ◌∷◌, ◌++◌, List, IfOk, OnOk};
ghost use Rattle.std.specs.Map.{lookup};
ghost use Rattle.mr_ids.specs.Same.{same_task};
ghost use Rattle.mr_recover.specs.declared.winner.TaskWinner.{TaskWinner};
ghost use Rattle.mr_master_tables.specs.Earlier.{SaysListed};

use indexmap::IndexMap;
use mr_ids::TaskId;
use mr_recover::TaskWinner;
use std::alloc::{AllocError, Global};
use std::marker::Model;

/// The first winner of each task that a list has one of.
pub struct ByTask {
    map: IndexMap<TaskId, TaskWinner>,
}

// By hand: one is dropped by this call.
impl Drop for ByTask {
    fn drop(self) {
        let ByTask { map: _ } = self;
    }
}

impl Model for ByTask {
    ghost use Rattle.std.specs.Prelude.{List};
    ghost use Rattle.mr_ids.specs.declared.id.TaskId.{TaskId};
    ghost use Rattle.mr_recover.specs.declared.winner.TaskWinner.{TaskWinner};

    ghost Value = { List (TaskId × TaskWinner) };

    ghost view = { λ b. b.map.entries };
}

impl ByTask {
    fn new(alloc: Global) -> ByTask
        ensures { result ≡ [] }
    {
        ByTask {
            map: IndexMap::new(alloc),
        }
    }

    /// The first winners of a list.
    pub(crate) fn of_list(alloc: Global, winners: &[TaskWinner]) -> Result<ByTask, AllocError>
        ensures { IfOk result (λ by_task. SaysListed by_task winners.now) }
    {
        let mut by_task = ByTask::new(alloc);
        for winner in winners {
            by_task.note(winner)?;
        }
        Ok(by_task)
    }

    /// The task's first winner.
    pub fn of(&self, task: &TaskId) -> Option<TaskWinner>
        ensures { result ≡ lookup (same_task task.now) self.now }
    {
        self.map.get(task).copied()
    }

    // The list has one more winner.
    fn note(&mut self, winner: &TaskWinner) -> Result<(), AllocError>
        ensures { OnOk result ((ws : List TaskWinner) → SaysListed self.old ws → SaysListed self.new (ws ++ winner.now ∷ [])) }
    {
        if self.map.contains_key(&winner.task) {
            return Ok(());
        }
        self.map.insert(winner.task, *winner)?;
        Ok(())
    }
}
