//! A row of a table: an end, and the least run to it.
ghost use Rattle.std.specs.Prelude.{◌≡◌, IfOk};
ghost use Rattle.mr_explore_least.specs.Rows.{as_arrival};
ghost use Rattle.mr_explore_least.specs.Table.{earlier, is_told};

use mr_explore_ends::Outcome;
use mr_script_order::is_sooner;
use mr_world_events::Event;
use std::alloc::{AllocError, Global};

/// An end, and of the runs that came to it the one with the fewest faults and the first script.
#[derive(Debug, Drop)]
pub struct Least {
    /// What the runs came to.
    pub end: Outcome,
    pub faults: u32,
    /// The script that leads to it.
    pub events: Vec<Event>,
}

impl Least {
    /// Whether a run is told by this row already: it came to this end, and does not come before it.
    pub(crate) fn tells(&self, end: &Outcome, faults: u32, events: &[Event]) -> bool
        ensures { result ≡ is_told (record { end = end.now; faults = faults; events = events.now }) (as_arrival self.now) }
    {
        self.end.is_same(end) && !self.is_after(faults, events)
    }

    // Whether a run with these faults and events comes before it.
    fn is_after(&self, faults: u32, events: &[Event]) -> bool
        ensures { result ≡ earlier (record { end = self.now.end; faults = faults; events = events.now }) (as_arrival self.now) }
    {
        faults < self.faults || (faults == self.faults && is_sooner(events, &self.events))
    }

    /// Whether it comes before another.
    pub(crate) fn is_before(&self, other: &Least) -> bool
        ensures { result ≡ earlier (as_arrival self.now) (as_arrival other.now) }
    {
        other.is_after(self.faults, &self.events)
    }
}

/// The same events. It fails where there is no memory.
pub(crate) fn copied(alloc: Global, events: &[Event]) -> Result<Vec<Event>, AllocError>
    ensures { IfOk result (λ copies. copies.items ≡ events.now) }
{
    let mut copies = Vec::with_capacity(alloc, events.len())?;
    for event in events {
        copies.push(event.copy()?)?;
    }
    Ok(copies)
}
