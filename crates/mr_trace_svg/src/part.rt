//! Which events of a run a picture shows.
ghost use Rattle.std.specs.Prelude.{◌≡◌, ◌+◌, min};

use std::ops::Range;

/// The part of a run that a picture shows: the events from a place of the journal on, up to a number, and whether fetches are folded. It is our own.
#[derive(Clone, Copy, Debug, PartialEq, Eq)]
pub struct Part {
    /// The place of its first event in the journal, from 0.
    pub from: u64,
    /// How many events it has at most.
    pub rows: u64,
    /// Whether parts of fetches that follow one another share a row.
    pub fold: bool,
}

impl Part {
    /// The first 400 events, which a picture shows where nothing else is asked for.
    pub const FIRST: Part = Part {
        from: 0,
        rows: 400,
        fold: false,
    };

    /// The places of its events in a journal of this many events. There are none where the run has no event at `from`.
    pub fn places(&self, events: usize) -> Range<usize>
        ensures first { result.start ≡ min self.now.from events }
        ensures end { result.end ≡ min (self.now.from + self.now.rows) events }
    {
        let all = events as u64;
        let end = self.from.saturating_add(self.rows).min(all);
        self.from.min(all) as usize..end as usize
    }
}
