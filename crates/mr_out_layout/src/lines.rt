//! The records of a segment's lines. A line of a job's attempt, as this program writes it, is read without memory: a command
//! reads all lines of a history.
ghost use Rattle.std.specs.Prelude.{◌≡◌, ℕ, List, [], ◌∷◌, ◌++◌, true, nat_eq, None, IsTrue, IfOk, IfSome, IfNone, if◌then◌else◌};
ghost use Rattle.std.specs.List.{slice_get, AllByRecursion};
ghost use Rattle.mr_history.specs.Line.{lines, IsRecordOf};
ghost use Rattle.mr_history.specs.Reading.{HasNoFeed, record_of};
ghost use Rattle.mr_out_layout.specs.Segments.{Splits};

use crate::names::Front;
use mr_history::{HistoryFault, Record, Records, Replayed, replay};
use mr_ids::AttemptId;
use std::alloc::{AllocError, Global};

/// The records of the lines that `bytes` begin with, up to the first that is no record of version 1, and the bytes from there on.
#[tactic(auto, using(crate::proofs::Ends::more_front, crate::proofs::Ends::ends_clean, crate::proofs::Ends::ends_bad))]
pub(crate) fn front(alloc: Global, bytes: &[u8]) -> Result<(Records, &[u8]), AllocError>
    ensures { IfOk result (λ p. Splits bytes.now p.0 p.1.now) }
{
    let (plain, left) = plain_lines(alloc, bytes)?;
    let mut records = plain;
    let mut rest = left;
    while let Some((line, after)) = split_line(rest) {
        let Some(record) = record_at(alloc, rest, line)? else {
            return Ok((records, rest));
        };
        records.push(record)?;
        rest = after;
    }
    Ok((records, rest))
}

// The records of the lines that `bytes` begin with, as far as this program writes them of attempts at one job, and the
// bytes from there on.
fn plain_lines(alloc: Global, bytes: &[u8]) -> Result<(Records, &[u8]), AllocError>
    ensures { IfOk result (λ p. (bytes.now ≡ lines p.0 ++ p.1.now) × AllByRecursion (IsRecordOf 1) p.0) }
{
    match front_of(alloc, bytes)? {
        Some(front) => lines_of(alloc, &front, bytes),
        None => Ok((Records::new(alloc), bytes)),
    }
}

// The same, of the job whose lines begin so.
#[tactic(auto, using(crate::proofs::Plain::one_more, crate::proofs::Plain::all_more))]
fn lines_of<'a>(
    alloc: Global,
    front: &Front,
    bytes: &'a [u8],
) -> Result<(Records, &'a [u8]), AllocError>
    ensures { IfOk result (λ p. (bytes.now ≡ lines p.0 ++ p.1.now) × AllByRecursion (IsRecordOf 1) p.0) }
{
    let mut records = Records::new(alloc);
    let mut rest = bytes;
    while let Some((record, behind)) = front.split(rest) {
        records.push(record)?;
        rest = behind;
    }
    Ok((records, rest))
}

// What the lines begin with that are of one job with the first.
fn front_of(alloc: Global, bytes: &[u8]) -> Result<Option<Front>, AllocError> {
    let Some((line, _after)) = split_line(bytes) else {
        return Ok(None);
    };
    let Some(record) = record_at(alloc, bytes, line)? else {
        return Ok(None);
    };
    match attempt_of(&record) {
        Some(a) => Ok(Some(Front::of(alloc, a.task().job)?)),
        None => Ok(None),
    }
}

// The attempt that a record is about.
fn attempt_of(record: &Record) -> Option<AttemptId> {
    match *record {
        Record::AttemptStarted { attempt, node: _ } => Some(attempt),
        Record::ReduceSucceeded { attempt, bytes: _ } => Some(attempt),
        Record::AttemptFailed { attempt } => Some(attempt),
        _ => None,
    }
}

// The bytes before the first line feed, and those after it.
pub(crate) fn split_line(bytes: &[u8]) -> Option<(&[u8], &[u8])>
    ensures some { IfSome result (λ p. HasNoFeed p.0.now × (bytes.now ≡ p.0.now ++ 10 ∷ p.1.now)) }
    ensures none { IfNone result (HasNoFeed bytes.now) }
{
    let at = bytes.iter().position(|byte| *byte == b'\n')?;
    Some((&bytes[..at], &bytes[at + 1..]))
}

// The record of the line with which bytes begin.
fn record_at(alloc: Global, bytes: &[u8], line: &[u8]) -> Result<Option<Record>, AllocError>
    requires clean { HasNoFeed line.now }
    requires front { (rest : List ℕ) × (bytes.now ≡ line.now ++ 10 ∷ rest) }
    ensures { IfOk result (λ o. o ≡ record_of 1 line.now) }
{
    replayed(alloc, &bytes[..line.len() + 1], line)
}

// The record of a line. `whole` has its line feed too.
fn replayed(alloc: Global, whole: &[u8], line: &[u8]) -> Result<Option<Record>, AllocError>
    requires clean { HasNoFeed line.now }
    requires whole { whole.now ≡ line.now ++ 10 ∷ [] }
    ensures { IfOk result (λ o. o ≡ record_of 1 line.now) }
{
    match replay(alloc, whole) {
        Ok(told) => Ok(first_of(&told)),
        Err(HistoryFault::BadLine(_)) => Ok(None),
        Err(_) => Err(AllocError),
    }
}

// The first record of what version 1 tells.
fn first_of(told: &Replayed) -> Option<Record>
    ensures { result ≡ (if nat_eq told.now.version 1 then slice_get told.now.records 0 else None) }
{
    if told.version == 1 {
        first(&told.records)
    } else {
        None
    }
}

fn first(records: &Records) -> Option<Record>
    ensures { result ≡ slice_get records.now 0 }
{
    match records.as_slice().first() {
        Some(record) => Some(*record),
        None => None,
    }
}

// Whether bytes are this text.
pub(crate) fn is_text(bytes: &[u8], text: &str) -> bool
    ensures yes { IsTrue result → bytes.now ≡ text.now }
    ensures no { bytes.now ≡ text.now → IsTrue result }
{
    bytes == text.as_bytes()
}
