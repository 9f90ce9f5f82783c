//! What was seen of a directory.
ghost use Rattle.std.specs.Prelude.{◌≡◌, ◌+◌, ◌<◌, ◌^◌, length, map, IfOk, OnOk, Some};
ghost use Rattle.mr_out_listing.specs.Lines.{as_sight};
ghost use Rattle.mr_out_check.specs.Seen.{as_noted, classed, counted, noted, nothing, once_more, padded, seen_with, tallied, tallied_at};
ghost use Rattle.mr_out_check.specs.inner.Notes.{place_from};

use crate::class::Class;
use crate::classes::class_of;
use crate::part::part_of;
use mr_out_listing::Entry;
use std::alloc::{AllocError, Global};
use std::marker::Model;

/// What came of a class of names.
#[derive(Debug, Drop)]
pub struct Note {
    /// The class.
    pub class: Class,
    /// How many came, counted up to 2^64 - 1.
    pub count: u64,
    /// The name of the first, from the directory on.
    pub first: Vec<u8>,
}

impl Note {
    // One more came.
    fn count_one(&mut self)
        ensures { as_noted self.new ≡ counted (as_noted self.old) }
    {
        self.count = self.count.saturating_add(1);
    }
}

/// How often a number of a part file came.
#[derive(Clone, Copy, Debug)]
pub enum Times {
    /// Not yet.
    Never,
    /// Once.
    Once,
    /// More than once.
    More,
}

impl Times {
    fn once_more(self) -> Times
        ensures { result ≡ once_more self }
    {
        match self {
            Times::Never => Times::Once,
            Times::Once | Times::More => Times::More,
        }
    }
}

/// What was seen of a directory. Contracts see it as its notes, in the order in which the classes came first, and of each number of a part file how often
/// it came.
#[derive(Debug, Drop)]
pub struct Seen {
    notes: Vec<Note>,
    tally: Vec<Times>,
}

impl Model for Seen {
    ghost use Rattle.std.specs.Prelude.{map};
    ghost use Rattle.mr_out_check.specs.Seen as seen;

    ghost Value = { seen.Seen };

    ghost view = { λ s. record { notes = map seen.as_noted s.notes.items; tally = s.tally.items } };
}

impl Seen {
    /// Nothing was seen yet.
    pub fn new(alloc: Global) -> Seen
        ensures { result ≡ nothing }
    {
        Seen {
            notes: Vec::new(alloc),
            tally: Vec::new(alloc),
        }
    }

    /// What was seen, and this too, which is listed by its name beneath the directory. It fails where there is no memory.
    pub fn with(self, alloc: Global, entry: &Entry<'_>) -> Result<Seen, AllocError>
        ensures { IfOk result (λ seen. seen ≡ seen_with (as_sight entry.now) self) }
    {
        let class = class_of(entry.kind, entry.empty, entry.path);
        let mut notes = self.notes;
        take_note(alloc, &mut notes, class, entry.path)?;
        let mut tally = self.tally;
        if let Some(number) = part_of(class, entry.path) {
            count(&mut tally, number)?;
        }
        Ok(Seen { notes, tally })
    }

    /// What came, class by class.
    pub fn notes(&self) -> &[Note]
        ensures { map as_noted result.now ≡ self.now.notes }
    {
        &self.notes
    }

    /// Of each number of a part file, from 0 up to the highest, how often it came.
    pub fn tally(&self) -> &[Times]
        ensures { result.now ≡ self.now.tally }
    {
        &self.tally
    }
}

// Where the note of a class stands.
fn place_of(notes: &[Note], class: Class) -> Option<usize>
    ensures { result ≡ place_from class 0 notes.now }
{
    for (place, note) in notes.iter().enumerate() {
        if note.class.is(class) {
            return Some(place);
        }
    }
    None
}

// A name of a class came.
fn take_note(
    alloc: Global,
    notes: &mut Vec<Note>,
    class: Class,
    name: &[u8],
) -> Result<(), AllocError>
    ensures { OnOk result (map as_noted notes.new.items ≡ noted class name.now (map as_noted notes.old.items)) }
{
    match place_of(notes, class) {
        Some(place) => {
            notes[place].count_one();
            Ok(())
        }
        None => {
            let first = Vec::from_slice(alloc, name)?;
            notes.push(Note {
                class,
                count: 1,
                first,
            })?;
            Ok(())
        }
    }
}

// There is room for a number.
fn pad(tally: &mut Vec<Times>, number: usize) -> Result<(), AllocError>
    requires { number < 2 ^ 32 }
    ensures padded { OnOk result (tally.new.items ≡ padded number tally.old.items) }
    ensures room { OnOk result (number < length tally.new.items) }
{
    if tally.len() <= number {
        tally.resize(number + 1, Times::Never)?;
    }
    Ok(())
}

// A number of a part file came.
fn count(tally: &mut Vec<Times>, number: u32) -> Result<(), AllocError>
    ensures { OnOk result (tally.new.items ≡ tallied (Some number) tally.old.items) }
{
    let place = number as usize;
    pad(tally, place)?;
    tally[place] = tally[place].once_more();
    Ok(())
}
