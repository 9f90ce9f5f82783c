//! A run of two steps with a script. One fault marks it, and another one loses it.
ghost use Rattle.std.specs.Prelude.{◌≡◌, IfOk};
ghost use Rattle.tests_explore.specs.Trips.{are_one, comes_first, is_lost, steps_left, trip, trip_end, trip_events, two_alike};

use mr_explore_alike::AlikeRun;
use mr_explore_ends::Outcome;
use mr_explore_noted::NotedRun;
use mr_explore_places::MarkedRun;
use mr_explore_search::{Run, WalkFault};
use mr_script_order::is_sooner;
use mr_world_events::Event;
use std::alloc::{AllocError, Global};
use std::collections::LinkedList;
use std::marker::Model;

/// The fault that marks a run.
const MARK: u32 = 0;

/// The fault that loses it.
const LOSE: u32 = 1;

/// How many steps it has made, what has befallen it, and its script.
#[derive(Drop)]
pub struct Trip {
    at: u32,
    marked: bool,
    lost: bool,
    events: Vec<Event>,
}

impl Model for Trip {
    ghost use Rattle.tests_explore.specs.Trips as trips;

    ghost Value = { trips.Trip };

    ghost view = { λ t. record { at = t.at; marked = t.marked; lost = t.lost; events = t.events.items } };
}

impl Trip {
    /// At its beginning.
    pub fn new(alloc: Global) -> Trip {
        Trip {
            at: 0,
            marked: false,
            lost: false,
            events: Vec::new(alloc),
        }
    }
}

// The same events.
fn copied(alloc: Global, events: &[Event]) -> Result<Vec<Event>, AllocError>
    ensures { IfOk result (λ copies. copies.items ≡ events.now) }
{
    let mut copies = Vec::with_capacity(alloc, events.len())?;
    for event in events {
        copies.push(event.copy()?)?;
    }
    Ok(copies)
}

impl Run for Trip {
    type Fault = u32;

    ghost steps = { trip };

    fn fork(&self, alloc: Global) -> Result<Trip, WalkFault> {
        let events = copied(alloc, &self.events)?;
        Ok(Trip {
            at: self.at,
            marked: self.marked,
            lost: self.lost,
            events,
        })
    }

    fn go_on(&mut self, _alloc: Global) -> Result<bool, WalkFault> {
        let at = self.at;
        if self.lost || at >= 2 {
            return Ok(false);
        }
        self.events.push(Event::Deliver {
            packet: u64::from(at),
        })?;
        self.at = at + 1;
        Ok(true)
    }

    fn faults(&self, alloc: Global) -> Result<LinkedList<u32>, WalkFault> {
        let mut faults = LinkedList::new(alloc);
        faults.push_front(LOSE)?;
        faults.push_front(MARK)?;
        Ok(faults)
    }

    fn later(&self, _fault: &u32) -> Option<u32> {
        None
    }

    fn befall(&mut self, _alloc: Global, fault: u32) -> Result<bool, WalkFault> {
        if self.lost {
            return Ok(false);
        }
        if fault == MARK {
            self.events.push(Event::Crash {
                generation: 1,
                kept: 0,
            })?;
            self.marked = true;
            return Ok(true);
        }
        if self.at == 1 {
            self.lost = true;
            return Ok(true);
        }
        Ok(false)
    }
}

impl AlikeRun for Trip {
    ghost rest = { steps_left };

    ghost before = { comes_first };

    ghost void = { is_lost };

    ghost like = { two_alike };

    ghost ends = { are_one };
}

impl MarkedRun for Trip {
    fn is_void(&self) -> bool {
        self.lost
    }

    fn comes_before(&self, other: &Trip) -> bool {
        is_sooner(&self.events, &other.events)
    }

    fn mark(&self, _alloc: Global, _owed: &[u32]) -> Result<u64, WalkFault> {
        Ok(u64::from(self.at))
    }

    fn is_like(
        &self,
        _alloc: Global,
        _owed: &[u32],
        other: &Trip,
        _other_owed: &[u32],
    ) -> Result<bool, WalkFault> {
        Ok(self.at == other.at && self.marked == other.marked && self.lost == other.lost)
    }
}

impl NotedRun for Trip {
    // How many ends were read.
    type Notes = u64;

    ghost end = { trip_end };

    ghost events = { trip_events };

    fn notes(_alloc: Global) -> u64 {
        0
    }

    fn end(&self, alloc: Global, notes: &mut u64) -> Result<Outcome, AllocError> {
        *notes = notes.wrapping_add(1);
        Ok(Outcome::new(Vec::new(alloc), self.marked, None, Vec::new(alloc)))
    }

    fn events(&self) -> &[Event] {
        &self.events
    }
}
