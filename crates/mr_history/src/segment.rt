//! The segment of one generation: the bytes that are stable, the tail that a crash may cut, and whether it is sealed.
ghost use Rattle.std.specs.Prelude.{◌≡◌, ◌↔◌, ◌+◌, ◌≤◌, ℕ, [], length, take, drop, IfOk, IsOk, IsOkUnless, IsTrue, true, string_bytes, ◌++◌};
ghost use Rattle.mr_history.specs.Line.{fits, suits, whole_line, width, InRange, IsVersion};
ghost use Rattle.mr_history.specs.State.{SegmentState};
ghost use Rattle.mr_history.specs.Segment.{fresh, opening, appended, flushed, sealed, append_refusal, growth_refusal, flush_refusal, Changes, ChangesAlways};
ghost use Rattle.mr_history.specs.Reading.{records_of};

use crate::fault::HistoryFault;
use crate::line::{whole_line, width};
use crate::reading::replay;
use crate::record::{Record, Records};
use std::alloc::{AllocError, Global};
use std::marker::Model;

/// Most bytes of a segment.
pub const MAX_SEGMENT_LEN: usize = 16777216;

/// What one master wrote: stable bytes, and a tail that a crash may cut. A segment of version 2 begins with a line
/// that says so, and tells the length of each reduce's part file.
#[derive(Drop)]
pub struct Segment {
    version: u32,
    bytes: Vec<u8>,
    mark: usize,
    sealed: bool,
    alloc: Global,
}

impl Model for Segment {
    ghost use Rattle.std.specs.Prelude.{take, drop, length, ◌≤◌};
    ghost use Rattle.mr_history.specs.State.{SegmentState};

    ghost Value = { SegmentState };

    ghost view = { λ s. record { version = s.version; stable = take s.mark s.bytes.items; tail = drop s.mark s.bytes.items; is_sealed = s.sealed } };

    ghost use Rattle.mr_history.specs.Segment.{IsSound};

    ghost invariant = { λ s. (s.mark ≤ length s.bytes.items) × IsSound (record { version = s.version; stable = take s.mark s.bytes.items; tail = drop s.mark s.bytes.items; is_sealed = s.sealed }) };
}

impl Segment {
    /// A segment of this version, 1 or 2, in which nothing was written.
    pub fn new(alloc: Global, version: u32) -> Segment
        requires { IsVersion version }
        ensures { result ≡ fresh version }
    {
        Segment {
            version,
            bytes: Vec::new(alloc),
            mark: 0,
            sealed: false,
            alloc,
        }
    }

    /// An equal segment. Where nothing was written it takes no memory.
    pub fn copy(&self) -> Result<Segment, AllocError>
        ensures { IfOk result (λ segment. segment ≡ self.now) }
    {
        Ok(Segment {
            version: self.version,
            bytes: Vec::from_slice(self.alloc, &self.bytes)?,
            mark: self.mark,
            sealed: self.sealed,
            alloc: self.alloc,
        })
    }

    /// Whether both hold the same: the version, the stable bytes, the tail, and whether it is sealed. It takes no memory.
    pub fn is_same(&self, other: &Segment) -> bool
        ensures { IsTrue result ↔ (self.now ≡ other.now) }
    {
        if self.version != other.version {
            return false;
        }
        if self.mark != other.mark {
            return false;
        }
        if self.sealed != other.sealed {
            return false;
        }
        let bytes = self.bytes.as_slice();
        let beside = other.bytes.as_slice();
        bytes == beside
    }

    /// The version, 1 or 2.
    pub fn version(&self) -> u32
        ensures { result ≡ self.now.version }
    {
        self.version
    }

    /// Adds the line of a record to the tail, before the first record of a segment of version 2 its version line.
    /// A segment of version 1 does not tell the length of a reduce's file.
    ///
    /// Refusals in order: `Sealed`, `Full` where the segment would pass `MAX_SEGMENT_LEN`, `NoMemory`.
    pub fn append(&mut self, record: Record) -> Result<(), HistoryFault>
        requires fits { fits «record» ≡ true }
        requires suits { suits self.old.version «record» ≡ true }
        ensures { Changes (append_refusal «record» self.old) self.old (appended «record» self.old) result self.new }
    {
        let written = record.as_written(self.version);
        if let Some(fault) = self.append_refused(&written) {
            return Err(fault);
        }
        let text = self.addition(&written)?;
        self.bytes.extend_from_slice(text.as_bytes())?;
        Ok(())
    }

    /// Why `append` would refuse this record, memory aside: the first that applies of `Sealed` and `Full`.
    pub fn append_refusal(&self, record: &Record) -> Option<HistoryFault>
        ensures { result ≡ append_refusal «record».now self.now }
    {
        self.append_refused(&record.as_written(self.version))
    }

    /// Why `flush` would be refused: `Sealed`, or not at all.
    pub fn flush_refusal(&self) -> Option<HistoryFault>
        ensures { result ≡ flush_refusal self.now }
    {
        if self.sealed {
            Some(HistoryFault::Sealed)
        } else {
            None
        }
    }

    // Why the bytes of a record, as this segment tells it, are refused.
    fn append_refused(&self, record: &Record) -> Option<HistoryFault>
        ensures refusal { result ≡ growth_refusal (width «record».now) self.now }
        ensures ranges { InRange «record».now }
    {
        let more = self.opening().len() + width(record);
        if self.sealed {
            return Some(HistoryFault::Sealed);
        }
        let len = self.bytes.len();
        if MAX_SEGMENT_LEN - len < more {
            Some(HistoryFault::Full)
        } else {
            None
        }
    }

    // What comes before the next record's line.
    fn opening(&self) -> &'static str
        ensures value { result.now ≡ opening self.now }
        ensures small { length result.now ≤ 14 }
    {
        if self.version == 2 && self.bytes.is_empty() {
            "{\"version\":2}\n"
        } else {
            ""
        }
    }

    // All bytes that a record's append adds.
    fn addition(&self, record: &Record) -> Result<String, HistoryFault>
        ensures added { IfOk result (λ s. string_bytes s ≡ opening self.now ++ whole_line «record».now) }
        ensures memory { IsOkUnless result HistoryFault.NoMemory }
    {
        let line = whole_line(self.alloc, record)?;
        let opening = self.opening();
        if opening.is_empty() {
            return Ok(line);
        }
        let mut text = String::new(self.alloc);
        text.push_str(opening)?;
        text.push_str(&line)?;
        Ok(text)
    }

    /// Makes the tail stable. A sealed segment answers `Sealed`.
    pub fn flush(&mut self) -> Result<(), HistoryFault>
        ensures { ChangesAlways (flush_refusal self.old) self.old (flushed self.old) result self.new }
    {
        if self.sealed {
            return Err(HistoryFault::Sealed);
        }
        self.mark = self.bytes.len();
        Ok(())
    }

    /// Keeps the first `kept` bytes of the tail as stable ones, loses the rest, and takes nothing more.
    /// A sealed segment stays as it is.
    pub fn seal(&mut self, kept: usize)
        ensures { self.new ≡ sealed kept self.old }
    {
        if self.sealed {
            return;
        }
        let end = self.mark + kept.min(self.bytes.len() - self.mark);
        self.bytes.truncate(end);
        self.mark = end;
        self.sealed = true;
    }

    /// The stable bytes.
    pub fn stable(&self) -> &[u8]
        ensures { result.now ≡ self.now.stable }
    {
        &self.bytes[..self.mark]
    }

    /// The length of the tail.
    pub fn tail(&self) -> usize
        ensures { result ≡ length self.now.tail }
    {
        self.bytes.len() - self.mark
    }

    /// The records of the stable bytes. It answers no fault but `NoMemory`, and that only where there is a record.
    pub fn records(&self) -> Result<Records, HistoryFault>
        ensures told { IfOk result (λ records. records ≡ records_of self.now.stable) }
        ensures memory { IsOkUnless result HistoryFault.NoMemory }
        ensures nothing { records_of self.now.stable ≡ [] → IsOk result }
    {
        match replay(self.alloc, self.stable()) {
            Ok(replayed) => Ok(replayed.records),
            Err(fault) => Err(fault),
        }
    }
}
