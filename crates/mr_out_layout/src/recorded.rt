//! What is recorded of a directory, for whoever only reads: no lock is taken, and nothing is changed or synced.
ghost use Rattle.std.specs.Prelude.{◌≡◌, codes, IfOk, IfErr, IfSome};
ghost use Rattle.std.specs.List.{AllByRecursion};
ghost use Rattle.mr_history.specs.Line.{IsRecordOf};
ghost use Rattle.mr_out_layout.specs.Faults.{IsFailure};
ghost use Rattle.mr_out_layout.specs.Recorded.{IsSound, IsSegmentFault, IsHistoryFault, IsReadingFault};

use crate::calls::look;
use crate::fault::{Fault, Why};
use crate::job::Job;
use crate::layout::{HOME, JOB, KEPT, segment_path};
use crate::lengths::{Length, length_named};
use crate::segments::{Damage, MAX_SEGMENTS, refuse_gap, tell};
use mr_history::Records;
use std::{fs, io};

/// What is recorded of a directory.
#[derive(Drop)]
pub struct Recorded {
    /// Its job.
    pub job: Job,
    /// The records of its history.
    pub records: Records,
    /// How long the files are that were handed in.
    pub lengths: Vec<Length>,
}

/// What is recorded of a directory; nothing where it is none of `mrout`. Read permission is enough. A command that runs meanwhile may record
/// more; the last line that it has not written whole is passed over.
#[tactic(auto, using(crate::proofs::Fronts::memory_reading, crate::proofs::Fronts::look_reading, crate::proofs::Fronts::read_reading, crate::proofs::Fronts::job_reading, crate::proofs::Fronts::history_reading, crate::proofs::Fronts::list_reading))]
pub fn read_recorded(rt: &HostRuntime, dir: &str) -> Result<Option<Recorded>, Fault>
    ensures told { IfOk result (λ found. IfSome found IsSound) }
    ensures failed { IfErr result (IsReadingFault dir.now) }
{
    let home = format!(in rt.alloc(); "{dir}/{HOME}")?;
    match look(rt, &home)? {
        Some(found) if found.is_dir() => {}
        _ => return Ok(None),
    }
    let Some(bytes) = read_in(rt, dir, JOB)? else {
        return Ok(None);
    };
    let job = Job::read(rt.alloc(), &bytes)?;
    let records = records_in(rt, dir)?;
    let lengths = lengths_in(rt, dir)?;
    Ok(Some(Recorded {
        job,
        records,
        lengths,
    }))
}

// The bytes of a file beneath a directory, if it is there.
fn read_in(rt: &HostRuntime, dir: &str, name: &str) -> Result<Option<Vec<u8>>, Fault>
    ensures failed { IfErr result (IsFailure (codes "read") name.now) }
{
    let path = format!(in rt.alloc(); "{dir}/{name}")?;
    match fs::read(rt, path.as_str()) {
        Ok(bytes) => Ok(Some(bytes)),
        Err(error) if error.kind() == io::ErrorKind::NotFound => Ok(None),
        Err(error) => Err(Fault::of_call(rt.alloc(), "read", name, error)),
    }
}

// The records of all segments.
#[tactic(auto, using(crate::proofs::Fronts::memory_history, crate::proofs::Fronts::segment_history, crate::proofs::Fronts::gap_history))]
fn records_in(rt: &HostRuntime, dir: &str) -> Result<Records, Fault>
    ensures told { IfOk result (λ records. AllByRecursion (IsRecordOf 1) records) }
    ensures failed { IfErr result IsHistoryFault }
{
    let mut records = Records::new(rt.alloc());
    for number in 1..=MAX_SEGMENTS {
        if !read_segment(rt, dir, number, &mut records)? {
            let home = format!(in rt.alloc(); "{dir}/{HOME}")?;
            refuse_gap(rt, &home, number)?;
            break;
        }
    }
    Ok(records)
}

#[tactic(auto, using(crate::proofs::Fronts::all_joined, crate::proofs::Fronts::told_records, crate::proofs::Fronts::memory_segment, crate::proofs::Fronts::unread_segment, crate::proofs::Fronts::damaged_segment))]
fn read_segment(
    rt: &HostRuntime,
    dir: &str,
    number: u32,
    records: &mut Records,
) -> Result<bool, Fault>
    ensures told { AllByRecursion (IsRecordOf 1) records.old → IfOk result (λ there. AllByRecursion (IsRecordOf 1) records.new) }
    ensures failed { IfErr result (IsSegmentFault number) }
{
    let name = segment_path(rt.alloc(), number)?;
    let Some(bytes) = read_in(rt, dir, &name)? else {
        return Ok(false);
    };
    match tell(rt.alloc(), &bytes) {
        Ok(told) => {
            records.extend(told.records.as_slice())?;
            Ok(true)
        }
        Err(Damage::Line(line)) => Err(Fault::refused(rt.alloc(), &name, Why::Damaged(line))),
        Err(Damage::NoMemory) => Err(Fault::NoMemory),
    }
}

// The lengths that the names of the folder of what was handed in tell.
fn lengths_in(rt: &HostRuntime, dir: &str) -> Result<Vec<Length>, Fault>
    ensures failed { IfErr result (IsFailure (codes "list") (codes "_mrout/kept")) }
{
    let mut lengths = Vec::new(rt.alloc());
    let path = format!(in rt.alloc(); "{dir}/{KEPT}")?;
    let entries = match fs::read_dir(rt, path.as_str()) {
        Ok(entries) => entries,
        Err(error) if error.kind() == io::ErrorKind::NotFound => return Ok(lengths),
        Err(error) => return Err(Fault::of_call(rt.alloc(), "list", KEPT, error)),
    };
    for entry in entries {
        match entry {
            Ok(entry) => put_length(rt, &mut lengths, entry.file_name())?,
            Err(error) => return Err(Fault::of_call(rt.alloc(), "list", KEPT, error)),
        }
    }
    Ok(lengths)
}

fn put_length(rt: &HostRuntime, lengths: &mut Vec<Length>, name: &str) -> Result<(), Fault>
    ensures { IfErr result (λ fault. fault ≡ Fault.NoMemory) }
{
    if let Some(length) = length_named(rt.alloc(), name)? {
        lengths.push(length)?;
    }
    Ok(())
}
