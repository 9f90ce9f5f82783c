//! What is noted: a run that tells the end that it came to, and its events.
ghost use Rattle.std.specs.Prelude.{◌≡◌, List, IfOk};
ghost use Rattle.mr_explore_ends.specs.Outcomes as ends;
ghost use Rattle.mr_world_events.specs.declared.event.Event as events;

use mr_explore_ends::Outcome;
use mr_explore_places::MarkedRun;
use mr_world_events::Event;
use std::alloc::{AllocError, Global};

/// A run whose end and events can be noted.
pub trait NotedRun: MarkedRun {
    /// What is kept from run to run, so that ends are read faster. No end depends on it.
    type Notes: Drop;

    /// What the run came to.
    ghost end: { Self → ends.Outcome };

    /// The events of its script.
    ghost events: { Self → List events.Event };

    /// Notes of no run.
    fn notes(alloc: Global) -> Self::Notes;

    /// What the run came to. It fails where there is no memory.
    fn end(&self, alloc: Global, notes: &mut Self::Notes) -> Result<Outcome, AllocError>
        ensures { IfOk result (λ end. end ≡ Self.end self.now) };

    /// The events of its script.
    fn events(&self) -> &[Event]
        ensures { result.now ≡ Self.events self.now };
}
