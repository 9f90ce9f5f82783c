//! What the bytes of a segment tell, where its end may be torn.
ghost use Rattle.std.specs.Prelude.{◌≡◌, true, nat_lt, nat_eq, IfErr};
ghost use Rattle.mr_history.specs.Reading.{version_of};
ghost use Rattle.mr_out_layout.specs.Segments.{Tells, line_count, is_damage};
ghost use Rattle.mr_out_layout.specs.Recorded.{IsGap};
ghost use Rattle.mr_out_layout.specs.declared.segments.Damage.TheVariants.{NoMemory};

use crate::fault::{Fault, Why};
use crate::layout::{HOME, segment_named, segment_path};
use crate::lines::{front, is_text, split_line};
use mr_history::Records;
use std::alloc::{AllocError, Global};
use std::fs;

/// Most lines of an end that may be torn: a command appends no more between two syncs.
pub const MAX_TORN_LINES: usize = 64;

/// Most segments of a history.
pub const MAX_SEGMENTS: u32 = 1000;

/// What a segment tells.
#[derive(Drop)]
pub struct Told {
    /// Its records.
    pub records: Records,
    /// Whether its end is torn. Then nothing more is appended to it.
    pub is_torn: bool,
}

/// Why a segment tells nothing.
#[derive(Clone, Copy, Debug, PartialEq, Eq)]
pub enum Damage {
    /// The line with this number, from 1, is no record, and what it begins is no torn end.
    Line(usize),
    /// Memory was refused.
    NoMemory,
}

impl From<AllocError> for Damage {
    ghost from_gives = { λ _ e. e ≡ NoMemory };

    fn from(_error: AllocError) -> Damage {
        Damage::NoMemory
    }
}

/// The records of a segment, which is of version 1. An end that begins with a line that is no record is torn where it
/// has at most `MAX_TORN_LINES` lines, and so are bytes behind the last line feed.
pub fn tell(alloc: Global, bytes: &[u8]) -> Result<Told, Damage>
    ensures { Tells true bytes.now result }
{
    tell_behind(alloc, bytes, true)
}

/// The same of bytes at the head of a segment, or of those behind some of its lines. Lines are numbered from the first of
/// these.
pub fn tell_behind(alloc: Global, bytes: &[u8], is_head: bool) -> Result<Told, Damage>
    ensures { Tells is_head bytes.now result }
{
    let (records, end) = front(alloc, bytes)?;
    let is_head = is_head && records.as_slice().is_empty();
    if is_damage(is_head, end) {
        return Err(Damage::Line(records.len() + 1));
    }
    let is_torn = !end.is_empty();
    Ok(Told { records, is_torn })
}

// Whether an end is no torn one.
fn is_damage(is_head: bool, end: &[u8]) -> bool
    ensures { result ≡ is_damage is_head end.now }
{
    has_more_lines(end) || (is_head && is_of_other_version(end))
}

// Whether there are more lines than a torn end has.
fn has_more_lines(bytes: &[u8]) -> bool
    ensures { result ≡ nat_lt 64 (line_count bytes.now) }
{
    let mut rest = bytes;
    for _ in 0..MAX_TORN_LINES {
        let Some((_, after)) = split_line(rest) else {
            return false;
        };
        rest = after;
    }
    !rest.is_empty()
}

// Whether the first line tells version 2.
fn is_of_other_version(bytes: &[u8]) -> bool
    ensures { result ≡ nat_eq (version_of bytes.now) 2 }
{
    match split_line(bytes) {
        Some((line, _)) => is_text(line, "{\"version\":2}"),
        None => false,
    }
}

/// Refuses a history of which this segment is missing and a later one is there, in this folder of `mrout`.
#[tactic(auto, using(crate::proofs::Fronts::list_gap))]
pub fn refuse_gap(rt: &HostRuntime, home: &str, missing: u32) -> Result<(), Fault>
    ensures { IfErr result (IsGap missing) }
{
    let entries = match fs::read_dir(rt, home) {
        Ok(entries) => entries,
        Err(error) => return Err(Fault::of_call(rt.alloc(), "list", HOME, error)),
    };
    for entry in entries {
        match entry {
            Ok(entry) => refuse_behind(rt, entry.file_name(), missing)?,
            Err(error) => return Err(Fault::of_call(rt.alloc(), "list", HOME, error)),
        }
    }
    Ok(())
}

// Refuses the name of a segment behind the one that is missing.
#[tactic(auto, using(crate::proofs::Fronts::memory_gap, crate::proofs::Fronts::missing_gap))]
fn refuse_behind(rt: &HostRuntime, name: &str, missing: u32) -> Result<(), Fault>
    ensures { IfErr result (IsGap missing) }
{
    match segment_named(rt.alloc(), name)? {
        Some(number) if number > missing => {
            let path = segment_path(rt.alloc(), missing)?;
            Err(Fault::refused(rt.alloc(), &path, Why::NoFile))
        }
        _ => Ok(()),
    }
}
