//! The records of the job history: what a master writes down of attempts and of its job, each of them a line.
ghost use Rattle.std.specs.Prelude.{◌≡◌, ◌++◌, ◌∷◌, [], OnOk, OnErr, IfOk, IsOk, length};
ghost use Rattle.mr_history.specs.Line.{fits, is_length, suits, is_of, as_written};

use mr_ids::AttemptId;
use std::alloc::{AllocError, Global};
use std::marker::Model;

/// Most bytes of a part file.
pub const MAX_PART_LEN: u32 = 16777216;

/// What a master writes down: one line of the history.
#[derive(Clone, Copy, Debug, PartialEq, Eq)]
pub enum Record {
    /// The attempt was launched on a node.
    AttemptStarted {
        attempt: AttemptId,
        node: u32,
    },
    /// A map attempt has its output on a node of this incarnation, from 1.
    MapSucceeded {
        attempt: AttemptId,
        node: u32,
        incarnation: u32,
    },
    /// A reduce attempt has committed its output. A segment of version 2 tells the length of its part file, at most
    /// `MAX_PART_LEN`, and one of version 1 does not.
    ReduceSucceeded {
        attempt: AttemptId,
        bytes: Option<u32>,
    },
    /// The attempt failed.
    AttemptFailed {
        attempt: AttemptId,
    },
    /// The job failed.
    JobUnsuccessful,
}

impl Record {
    /// Whether the record has a line: the attempt is of the kind that the record speaks of, an incarnation is not 0,
    /// and a length is at most `MAX_PART_LEN`.
    pub fn fits(&self) -> bool
        ensures { result ≡ fits self.now }
    {
        match *self {
            Record::MapSucceeded {
                attempt,
                node: _,
                incarnation,
            } => attempt.task().kind.is_map() && 1 <= incarnation,
            Record::ReduceSucceeded { attempt, bytes } => {
                attempt.task().kind.is_reduce() && is_length(bytes)
            }
            _ => true,
        }
    }

    /// Whether a segment of this version can take the record: one of version 2 asks for the length of a reduce's
    /// part file.
    pub fn suits(&self, version: u32) -> bool
        ensures { result ≡ suits version self.now }
    {
        match *self {
            Record::ReduceSucceeded { attempt: _, bytes } => version != 2 || bytes.is_some(),
            _ => true,
        }
    }

    // The record as a segment of this version tells it.
    pub(crate) fn as_written(&self, version: u32) -> Record
        ensures { result ≡ as_written version self.now }
    {
        match *self {
            Record::ReduceSucceeded { attempt, bytes } => Record::ReduceSucceeded {
                attempt,
                bytes: if version == 2 { bytes } else { None },
            },
            other => other,
        }
    }

    // Whether a segment of this version can tell the record.
    pub(crate) fn is_of(&self, version: u32) -> bool
        ensures { result ≡ is_of version self.now }
    {
        match *self {
            Record::ReduceSucceeded { attempt: _, bytes } => bytes.is_some() == (version == 2),
            _ => true,
        }
    }
}

fn is_length(bytes: Option<u32>) -> bool
    ensures { result ≡ is_length bytes }
{
    match bytes {
        None => true,
        Some(bytes) => bytes <= MAX_PART_LEN,
    }
}

/// Records in the order in which they were written.
#[derive(Drop)]
pub struct Records {
    items: Vec<Record>,
}

impl Model for Records {
    ghost use Rattle.std.specs.Prelude.{List};
    ghost use Rattle.mr_history.specs.declared.record.Record.{Record};

    ghost Value = { List Record };

    ghost view = { λ r. r.items.items };
}

impl Records {
    /// No record.
    pub fn new(alloc: Global) -> Records
        ensures { result ≡ [] }
    {
        Records {
            items: Vec::new(alloc),
        }
    }

    /// These records, without a copy.
    pub fn from_vec(items: Vec<Record>) -> Records
        ensures { result ≡ items.items }
    {
        Records { items }
    }

    /// The records as a vector, without a copy.
    pub fn into_vec(self) -> Vec<Record>
        ensures { result.items ≡ self }
    {
        self.items
    }

    /// The records as a slice.
    pub fn as_slice(&self) -> &[Record]
        ensures { result.now ≡ self.now }
    {
        &self.items
    }

    /// How many records there are.
    pub fn len(&self) -> usize
        ensures { result ≡ length self.now }
    {
        self.items.len()
    }

    /// Adds a record at the end.
    pub fn push(&mut self, item: Record) -> Result<(), AllocError>
        ensures ok { OnOk result (self.new ≡ self.old ++ item ∷ []) }
        ensures err { OnErr result (self.new ≡ self.old) }
    {
        self.items.push(item)?;
        Ok(())
    }

    /// Adds records at the end. To add none takes no memory.
    pub fn extend(&mut self, more: &[Record]) -> Result<(), AllocError>
        ensures ok { OnOk result (self.new ≡ self.old ++ more.now) }
        ensures err { OnErr result (self.new ≡ self.old) }
        ensures nothing { more.now ≡ [] → IsOk result }
    {
        if more.is_empty() {
            return Ok(());
        }
        self.items.extend_from_slice(more)
    }
}
