//! What the records of earlier masters say.
ghost use Rattle.std.specs.Prelude.{◌≡◌, ◌↔◌, ◌≤◌, [], ◌++◌, IfOk, IfSome, IfNone, IsTrue, OnOk};
ghost use Rattle.std.specs.Option.{option_map};
ghost use Rattle.std.specs.List.{list_any};
ghost use Rattle.mr_recover.specs.Plan.{AreWinners, winners_among, with_first};
ghost use Rattle.mr_master_model.specs.Job.{all_reduces};
ghost use Rattle.mr_master_model.specs.Readings.{newest_in, place_in};
ghost use Rattle.mr_master_model.specs.Answered.{is_unsuccessful};
ghost use Rattle.mr_master_tables.specs.Earlier.{told_place, where_told, AreUntold, UntoldFrom};

use crate::by_task::ByTask;
use crate::records::is_unsuccessful;
use crate::spots::Spread;
use crate::successes::{Newest, Places, Success, spread_of};
use mr_history::{Record, Records};
use mr_ids::{AttemptId, TaskId, TaskKind};
use mr_master_model::Setting;
use mr_recover::{RecoverFault, Recovery, Staging, TaskWinner, Winners};
use std::alloc::{AllocError, Global};
use std::collections::VecDeque;
use std::marker::Model;

/// What was read of the earlier segments: where the output of each map's attempt lies that they tell of, which is its
/// map's newest. Also the maps by the nodes where those outputs lie.
pub struct Earlier {
    records: Records,
    places: Places,
    newest: Newest,
    spread: Spread,
}

// By hand: one is dropped by this call.
impl Drop for Earlier {
    fn drop(self) {
        let Earlier {
            records: _,
            places: _,
            newest: _,
            spread: _,
        } = self;
    }
}

impl Model for Earlier {
    ghost use Rattle.std.specs.Prelude.{List};
    ghost use Rattle.mr_history.specs.declared.record.Record.{Record};

    ghost Value = { List Record };

    ghost view = { λ e. e.records };

    ghost use Rattle.mr_master_tables.specs.Earlier.{TellsPlaces, TellsNewest, TellsSpots};

    ghost invariant = { λ e. TellsPlaces e.places e.records × TellsNewest e.newest e.records × TellsSpots e.spread e.records };
}

impl Earlier {
    /// Nothing was read.
    pub fn new(alloc: Global) -> Earlier
        ensures { result ≡ [] }
    {
        Earlier {
            records: Records::new(alloc),
            places: Places::new(alloc),
            newest: Newest::new(alloc),
            spread: Spread::new(alloc),
        }
    }

    /// These records were read.
    pub fn of(alloc: Global, records: Records) -> Result<Earlier, AllocError>
        ensures { IfOk result (λ earlier. earlier ≡ records) }
    {
        let places = Places::of_records(alloc, records.as_slice())?;
        let newest = Newest::of_records(alloc, records.as_slice())?;
        let spread = spread_of(alloc, records.as_slice())?;
        Ok(Earlier {
            records,
            places,
            newest,
            spread,
        })
    }

    /// The same records.
    pub fn copy(&self, alloc: Global) -> Result<Earlier, AllocError>
        ensures { IfOk result (λ copy. copy ≡ self.now) }
    {
        let mut records = Records::new(alloc);
        records.extend(self.records.as_slice())?;
        Ok(Earlier {
            records,
            places: self.places.copy()?,
            newest: self.newest.copy()?,
            spread: self.spread.copy()?,
        })
    }

    /// Whether both are of the same records in the same order. All else that they keep follows from their records.
    #[tactic(auto, using(crate::proofs::Comparing::records_decide))]
    pub fn is_same(&self, other: &Earlier) -> bool
        ensures { IsTrue result ↔ (self.now ≡ other.now) }
    {
        self.records.as_slice() == other.records.as_slice()
    }

    /// The records, in order.
    pub fn as_slice(&self) -> &[Record]
        ensures { result.now ≡ self.now }
    {
        self.records.as_slice()
    }

    /// Where they say that the output of a map's attempt lies, by the last record of its success: the node and its incarnation.
    pub fn place(&self, attempt: &AttemptId) -> Option<(u32, u32)>
        ensures { result ≡ option_map where_told (place_in self.now attempt.now) }
    {
        self.places.of(attempt)
    }

    /// The newest success of a map: the last one that they tell.
    pub fn newest(&self, task: &TaskId) -> Option<Success>
        ensures { result ≡ option_map told_place (newest_in self.now task.now) }
    {
        self.newest.of(task)
    }

    /// Of the maps from this number on, the first of which an output may lie on the node, as they say.
    pub fn next_on(&self, node: u32, from: u32) -> Option<u32>
        ensures from { IfSome result (λ number. from ≤ number) }
        ensures first { IfSome result (λ number. AreUntold self.now node from number) }
        ensures none { IfNone result (UntoldFrom self.now node from) }
    {
        self.spread.next(TaskKind::Map, node, from)
    }
}

/// Whether an earlier master recorded that the job failed.
pub fn tells_failure(records: &[Record]) -> bool
    ensures { result ≡ list_any is_unsuccessful records.now }
{
    records.iter().any(|told| is_unsuccessful(told))
}

// The winners of the records.
fn planned(alloc: Global, records: &[Record]) -> Result<Winners, AllocError>
    ensures { IfOk result (λ winners. AreWinners records.now winners) }
{
    let staging = Staging {
        success: false,
        fail: false,
        started: false,
    };
    match Recovery::plan(alloc, records, staging) {
        Ok(Recovery::Resume(winners)) => Ok(winners),
        Ok(Recovery::Succeeded | Recovery::Failed) => unreachable!(),
        Err(RecoverFault::NoMemory) => Err(AllocError),
    }
}

/// The winners of the job's reduces, by rising number.
pub fn winners(
    alloc: Global,
    records: &[Record],
    setting: &Setting,
) -> Result<VecDeque<TaskWinner>, AllocError>
    ensures { IfOk result (λ winners. winners.items ≡ winners_among records.now (all_reduces setting.now)) }
{
    let plan = planned(alloc, records)?;
    let by_task = ByTask::of_list(alloc, plan.as_slice())?;
    let mut winners = VecDeque::new(alloc);
    for number in 0..setting.reduces {
        let task = TaskId {
            job: setting.job,
            kind: TaskKind::Reduce,
            number,
        };
        push(&mut winners, by_task.of(&task))?;
    }
    Ok(winners)
}

fn push(winners: &mut VecDeque<TaskWinner>, winner: Option<TaskWinner>) -> Result<(), AllocError>
    ensures { OnOk result (winners.new.items ≡ winners.old.items ++ with_first winner []) }
{
    if let Some(winner) = winner {
        winners.push_back(winner)?;
    }
    Ok(())
}
