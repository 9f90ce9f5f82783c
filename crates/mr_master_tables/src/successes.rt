//! The successes of maps that records tell: where the output of each attempt lies, the newest of each map, and the maps by the nodes where
//! outputs of theirs lie. This is the only place that knows the maps in which the first two are kept.
ghost use Rattle.std.specs.Prelude.{◌≡◌, [], ◌∷◌, ◌++◌, List, IfOk, OnOk};
ghost use Rattle.std.specs.Map.{lookup};
ghost use Rattle.mr_grant.specs.Attempts.{same_attempt};
ghost use Rattle.mr_history.specs.declared.record.Record.{Record};
ghost use Rattle.mr_ids.specs.Same.{same_task};
ghost use Rattle.mr_master_tables.specs.Earlier.{success_told, TellsPlaces, TellsNewest, TellsSpots};

use crate::spots::Spread;
use indexmap::IndexMap;
use mr_history::Record;
use mr_ids::{AttemptId, TaskId};
use std::alloc::{AllocError, Global};
use std::marker::Model;

/// A map's success: the attempt, and the node and the incarnation where its output lies.
pub type Success = (AttemptId, u32, u32);

/// Where the outputs of attempts lie: the node and its incarnation.
pub struct Places {
    map: IndexMap<AttemptId, (u32, u32)>,
}

// By hand: one is dropped by this call.
impl Drop for Places {
    fn drop(self) {
        let Places { map: _ } = self;
    }
}

impl Model for Places {
    ghost use Rattle.std.specs.Prelude.{List, ℕ};
    ghost use Rattle.mr_ids.specs.Attempt.{Attempt};

    ghost Value = { List (Attempt × (ℕ × ℕ)) };

    ghost view = { λ p. p.map.entries };
}

impl Places {
    /// No place is told.
    pub fn new(alloc: Global) -> Places
        ensures { result ≡ [] }
    {
        Places {
            map: IndexMap::new(alloc),
        }
    }

    /// Those that the records tell.
    pub fn of_records(alloc: Global, records: &[Record]) -> Result<Places, AllocError>
        ensures { IfOk result (λ places. TellsPlaces places records.now) }
    {
        let mut places = Places::new(alloc);
        for told in records {
            places.note(told)?;
        }
        Ok(places)
    }

    /// The same places.
    pub fn copy(&self) -> Result<Places, AllocError>
        ensures { IfOk result (λ copy. copy ≡ self.now) }
    {
        Ok(Places {
            map: self.map.clone()?,
        })
    }

    /// Where the attempt's output lies: the node and its incarnation.
    pub fn of(&self, attempt: &AttemptId) -> Option<(u32, u32)>
        ensures { result ≡ lookup (same_attempt attempt.now) self.now }
    {
        self.map.get(attempt).copied()
    }

    // One more record is told.
    fn note(&mut self, told: &Record) -> Result<(), AllocError>
        ensures { OnOk result ((rs : List Record) → TellsPlaces self.old rs → TellsPlaces self.new (rs ++ told.now ∷ [])) }
    {
        let Some(success) = success_told(told) else {
            return Ok(());
        };
        self.map.insert(success.0, (success.1, success.2))?;
        Ok(())
    }
}

/// The newest success of each map that has one.
pub struct Newest {
    map: IndexMap<TaskId, Success>,
}

// By hand: one is dropped by this call.
impl Drop for Newest {
    fn drop(self) {
        let Newest { map: _ } = self;
    }
}

impl Model for Newest {
    ghost use Rattle.std.specs.Prelude.{List, ℕ};
    ghost use Rattle.mr_ids.specs.Attempt.{Attempt};
    ghost use Rattle.mr_ids.specs.declared.id.TaskId.{TaskId};

    ghost Value = { List (TaskId × (Attempt × ℕ × ℕ)) };

    ghost view = { λ n. n.map.entries };
}

impl Newest {
    /// No success is told.
    pub fn new(alloc: Global) -> Newest
        ensures { result ≡ [] }
    {
        Newest {
            map: IndexMap::new(alloc),
        }
    }

    /// Those that the records tell.
    pub fn of_records(alloc: Global, records: &[Record]) -> Result<Newest, AllocError>
        ensures { IfOk result (λ newest. TellsNewest newest records.now) }
    {
        let mut newest = Newest::new(alloc);
        for told in records {
            newest.note(told)?;
        }
        Ok(newest)
    }

    /// The same successes.
    pub fn copy(&self) -> Result<Newest, AllocError>
        ensures { IfOk result (λ copy. copy ≡ self.now) }
    {
        Ok(Newest {
            map: self.map.clone()?,
        })
    }

    /// The map's newest success.
    pub fn of(&self, task: &TaskId) -> Option<Success>
        ensures { result ≡ lookup (same_task task.now) self.now }
    {
        self.map.get(task).copied()
    }

    // One more record is told.
    fn note(&mut self, told: &Record) -> Result<(), AllocError>
        ensures { OnOk result ((rs : List Record) → TellsNewest self.old rs → TellsNewest self.new (rs ++ told.now ∷ [])) }
    {
        let Some(success) = success_told(told) else {
            return Ok(());
        };
        self.map.insert(success.0.task(), success)?;
        Ok(())
    }
}

/// The maps by the nodes where the records say that outputs of theirs lie.
pub(crate) fn spread_of(alloc: Global, records: &[Record]) -> Result<Spread, AllocError>
    ensures { IfOk result (λ spread. TellsSpots spread records.now) }
{
    let mut spread = Spread::new(alloc);
    for told in records {
        note_spot(&mut spread, told)?;
    }
    Ok(spread)
}

// One more record is told.
fn note_spot(spread: &mut Spread, told: &Record) -> Result<(), AllocError>
    ensures { OnOk result ((rs : List Record) → TellsSpots spread.old rs → TellsSpots spread.new (rs ++ told.now ∷ [])) }
{
    let Some(success) = success_told(told) else {
        return Ok(());
    };
    spread.add(success.1, success.0.task())
}

// The success of a map's attempt that a record tells.
fn success_told(told: &Record) -> Option<Success>
    ensures { result ≡ success_told told.now }
{
    match *told {
        Record::MapSucceeded {
            attempt,
            node,
            incarnation,
        } => Some((attempt, node, incarnation)),
        _ => None,
    }
}
