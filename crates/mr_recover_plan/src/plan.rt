//! The plan for some segments.
ghost use Rattle.std.specs.Prelude.{◌≡◌, ◌++◌, IfOk, IfErr, OnOk, None, Some};
ghost use Rattle.std.specs.List.{list_any};
ghost use Rattle.mr_history.specs.Reading.{bad_line, records_of};
ghost use Rattle.mr_recover_plan.specs.Order.{AreInOrder, generation_told};
ghost use Rattle.mr_recover_plan.specs.Plans.{AreWhole, PlanFails, Plans, deciding, records_in, tells_failure};
ghost use Rattle.mr_recover_plan.specs.inner.Segments.{FailsAt, latest_behind};

use crate::fault::PlanFault;
use mr_history::{HistoryFault, Record, Records, replay};
use mr_ids::Bytes;
use mr_recover::{Recovery, Staging};
use std::alloc::Global;

/// What a master does that starts after the masters of these segments, the oldest first, where the staging folder has these marks.
/// Where a record tells that the job failed, and no mark that it succeeded, its failure is reported.
///
/// The first segment that is refused is named: `BadLine` by its first whole line that is no record, else `EarlierGeneration` where a
/// record of it is of an earlier generation than one before it. `NoMemory` may come at any segments.
#[tactic(auto, using(crate::proofs::Histories::plans))]
pub fn planned(alloc: Global, segments: &[Bytes], staging: Staging) -> Result<Recovery, PlanFault>
    ensures ok { IfOk result (λ plan. Plans segments.now staging plan) }
    ensures bad { IfErr result (PlanFails segments.now) }
{
    let records = records_in(alloc, segments)?;
    let marks = deciding(records.as_slice(), staging);
    Ok(Recovery::plan(alloc, records.as_slice(), marks)?)
}

// The marks that decide: a record of a failed job counts as COMMIT_FAIL.
fn deciding(records: &[Record], staging: Staging) -> Staging
    ensures { result ≡ deciding records.now staging }
{
    Staging {
        fail: staging.fail || has_failed(records),
        ..staging
    }
}

fn has_failed(records: &[Record]) -> bool
    ensures { result ≡ list_any tells_failure records.now }
{
    records.iter().any(|told| tells_failure(told))
}

fn tells_failure(told: &Record) -> bool
    ensures { result ≡ tells_failure told.now }
{
    match told {
        Record::JobUnsuccessful => true,
        _ => false,
    }
}

// The records of all segments, one after the other.
#[tactic(auto, using(crate::proofs::Histories::none_read, crate::proofs::Histories::fails, crate::proofs::Histories::all_read, crate::proofs::Histories::all_whole))]
fn records_in(alloc: Global, segments: &[Bytes]) -> Result<Records, PlanFault>
    ensures whole { IfOk result (λ _. AreWhole segments.now) }
    ensures order { IfOk result (λ records. AreInOrder records) }
    ensures ok { IfOk result (λ records. records ≡ records_in segments.now) }
    ensures bad { IfErr result (PlanFails segments.now) }
{
    let mut records = Records::new(alloc);
    let mut before = 0;
    let mut latest = 0;
    for bytes in segments {
        latest = put_records(alloc, &mut records, latest, before + 1, bytes.as_slice())?;
        before += 1;
    }
    Ok(records)
}

// Puts the records of a segment after those that are there, and answers the latest generation of all.
#[tactic(auto, using(crate::proofs::Orders::goes_on, crate::proofs::Orders::falls_back))]
fn put_records(
    alloc: Global,
    records: &mut Records,
    latest: u32,
    segment: usize,
    bytes: &[u8],
) -> Result<u32, PlanFault>
    requires latest { latest_behind 0 records.now ≡ Some latest }
    ensures latest { IfOk result (λ latest. latest_behind 0 records.new ≡ Some latest) }
    ensures whole { OnOk result (bad_line bytes.now ≡ None) }
    ensures ok { OnOk result (records.new ≡ records.old ++ records_of bytes.now) }
    ensures bad { IfErr result (FailsAt segment records.old bytes.now) }
{
    match replay(alloc, bytes) {
        Ok(replayed) => {
            let more = replayed.records.as_slice();
            let Some(latest) = latest_behind(latest, more) else {
                return Err(PlanFault::EarlierGeneration { segment });
            };
            records.extend(more)?;
            Ok(latest)
        }
        Err(HistoryFault::BadLine(line)) => Err(PlanFault::BadLine { segment, line }),
        Err(HistoryFault::NoMemory) => Err(PlanFault::NoMemory),
        Err(HistoryFault::Superseded(_) | HistoryFault::Sealed | HistoryFault::Full) =>
            unreachable!(),
    }
}

// The latest generation, 0 being none, after these records; none where a record is of an earlier one than `latest` or one before it.
fn latest_behind(latest: u32, records: &[Record]) -> Option<u32>
    ensures { result ≡ latest_behind latest records.now }
{
    let mut latest = latest;
    for told in records {
        if let Some(generation) = generation_told(told) {
            if generation < latest {
                return None;
            }
            latest = generation;
        }
    }
    Some(latest)
}

// The generation of the master that wrote the record; none where it names no attempt.
fn generation_told(told: &Record) -> Option<u32>
    ensures { result ≡ generation_told told.now }
{
    match told {
        Record::AttemptStarted { attempt, .. }
        | Record::MapSucceeded { attempt, .. }
        | Record::ReduceSucceeded { attempt, .. }
        | Record::AttemptFailed { attempt } => Some(attempt.generation().number()),
        Record::JobUnsuccessful => None,
    }
}
