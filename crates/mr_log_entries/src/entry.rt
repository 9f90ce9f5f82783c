//! An entry, and the entries of a log.
ghost use Rattle.std.specs.Prelude.{◌≡◌, ◌++◌, ◌∷◌, [], OnOk, OnErr, length};

use crate::line::Line;
use std::alloc::{AllocError, Global};
use std::marker::Model;

/// Where an entry came from: by its id a command knows its own entry, where a disk answers that the
/// name of the next one is taken by what it made itself.
#[derive(Clone, Copy, Debug, PartialEq, Eq)]
pub struct Origin {
    /// The boot of the machine in which it was put, in its short form.
    pub boot: u64,
    /// Seconds since the beginning of 1970.
    pub time: u64,
    /// A fresh random number.
    pub id: u64,
}

/// The lines of an entry, in order.
#[derive(Drop)]
pub struct Lines {
    items: Vec<Line>,
}

impl Model for Lines {
    ghost use Rattle.std.specs.Prelude.{List};
    ghost use Rattle.mr_log_entries.specs.declared.line.Line.{Line};

    ghost Value = { List Line };

    ghost view = { λ r. r.items.items };
}

impl Lines {
    /// These lines, without a copy.
    pub fn from_vec(items: Vec<Line>) -> Lines
        ensures { result ≡ items.items }
    {
        Lines { items }
    }

    /// The lines as a slice.
    pub fn as_slice(&self) -> &[Line]
        ensures { result.now ≡ self.now }
    {
        &self.items
    }
}

/// One decision: the lines of all its records, and where it came from.
#[derive(Drop)]
pub struct Entry {
    pub lines: Lines,
    pub origin: Origin,
}

/// The entries of a log in their order, from the first on.
#[derive(Drop)]
pub struct Entries {
    items: Vec<Entry>,
}

impl Model for Entries {
    ghost use Rattle.std.specs.Prelude.{List};
    ghost use Rattle.mr_log_entries.specs.declared.entry.Entry.{Entry};

    ghost Value = { List Entry };

    ghost view = { λ r. r.items.items };
}

impl Entries {
    /// No entry.
    pub fn new(alloc: Global) -> Entries
        ensures { result ≡ [] }
    {
        Entries {
            items: Vec::new(alloc),
        }
    }

    /// The entries as a slice.
    pub fn as_slice(&self) -> &[Entry]
        ensures { result.now ≡ self.now }
    {
        &self.items
    }

    /// Adds an entry at the end.
    pub fn push(&mut self, entry: Entry) -> Result<(), AllocError>
        ensures ok { OnOk result (self.new ≡ self.old ++ entry ∷ []) }
        ensures err { OnErr result (self.new ≡ self.old) }
    {
        self.items.push(entry)?;
        Ok(())
    }
}
