//! The winners of the reduces that records tell of, by rising task: each record of a success is put into its place.
ghost use Rattle.std.specs.Prelude.{◌≡◌, true, length, OnOk, IfOk, IfErr};
ghost use Rattle.mr_recover.specs.Plan.{AreWinners, IsRising};
ghost use Rattle.mr_recover.specs.inner.Placing.{task_cmp, is_there, IsGapFor, put, put_record};

use mr_history::Record;
use mr_ids::{AttemptId, TaskId};
use std::alloc::{AllocError, Global};
use std::cmp::Ordering;
use std::marker::Model;

/// A reduce and its winner.
#[derive(Clone, Copy, Debug, PartialEq, Eq)]
pub struct TaskWinner {
    pub task: TaskId,
    /// The attempt of the reduce's first record of a success.
    pub attempt: AttemptId,
    /// The length of its part file in bytes, where that record tells it.
    pub bytes: Option<u32>,
}

/// Winners, by rising task.
#[derive(Drop)]
pub struct Winners {
    items: Vec<TaskWinner>,
}

impl Model for Winners {
    ghost use Rattle.std.specs.Prelude.{List};
    ghost use Rattle.mr_recover.specs.declared.winner.TaskWinner.{TaskWinner};

    ghost Value = { List TaskWinner };

    ghost view = { λ w. w.items.items };

    ghost use Rattle.mr_recover.specs.Plan.{IsRising};

    ghost invariant = { λ w. IsRising w.items.items };
}

impl Winners {
    // Exactly the winners of the records.
    pub(crate) fn of_records(alloc: Global, records: &[Record]) -> Result<Winners, AllocError>
        ensures { IfOk result (λ winners. AreWinners records.now winners) }
    {
        let mut winners = Winners {
            items: Vec::new(alloc),
        };
        for entry in records {
            winners.put_record(entry)?;
        }
        Ok(winners)
    }

    // Where the record tells a success of a task that is not there yet, it is put into its place.
    fn put_record(&mut self, told: &Record) -> Result<(), AllocError>
        ensures { OnOk result (self.new ≡ put_record self.old told.now) }
    {
        match *told {
            Record::ReduceSucceeded { attempt, bytes } => self.put(TaskWinner {
                task: attempt.task(),
                attempt,
                bytes,
            }),
            _ => Ok(()),
        }
    }

    // Where its task is not there yet, the winner is put into its place.
    fn put(&mut self, winner: TaskWinner) -> Result<(), AllocError>
        ensures { OnOk result (self.new ≡ put self.old winner) }
    {
        if let Err(place) = search(&self.items, &winner.task) {
            self.items.insert(place, winner)?;
        }
        Ok(())
    }

    /// The winners as a slice.
    pub fn as_slice(&self) -> &[TaskWinner]
        ensures { result.now ≡ self.now }
    {
        &self.items
    }

    /// The winners as a vector, without a copy.
    pub fn into_vec(self) -> Vec<TaskWinner>
        ensures { result.items ≡ self }
    {
        self.items
    }

    /// How many there are.
    pub fn len(&self) -> usize
        ensures { result ≡ length self.now }
    {
        self.items.len()
    }
}

// Where the task is among winners that rise, or else where it would go.
fn search(winners: &[TaskWinner], task: &TaskId) -> Result<usize, usize>
    requires { IsRising winners.now }
    ensures found { IfOk result (λ _. is_there winners.now task.now ≡ true) }
    ensures absent { IfErr result (λ place. IsGapFor winners.now task.now place) }
{
    winners.binary_search_by(
        |winner: &TaskWinner| -> Ordering
            ensures { result ≡ task_cmp winner.now.task task.entry.now }
        { winner.task.cmp(task) },
    )
}
