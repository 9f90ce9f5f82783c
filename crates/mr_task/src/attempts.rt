//! The attempts at one task in order of arrival. This is the only place that knows the map.
ghost use Rattle.std.specs.Prelude.{◌≡◌, ◌↔◌, ◌<◌, ◌≤◌, ◌+◌, ◌++◌, [], ◌∷◌, Some, None, false, OnOk, OnErr, IfOk, IsTrue, length, count_by, slice_get};
ghost use Rattle.std.specs.List.{list_any, find, position};
ghost use Rattle.std.specs.Map.{keys_of};
ghost use Rattle.std.specs.Option.{option_map};
ghost use Rattle.mr_attempt.specs.Table.{is_live, is_won};
ghost use Rattle.mr_task.specs.Readings.{is_succeeded};
ghost use Rattle.mr_task.specs.Steps.{entry_in, with_entry, is_over, is_failed};

use indexmap::IndexMap;
use mr_attempt::{AttemptMachine, AttemptState};
use mr_ids::AttemptId;
use std::alloc::{AllocError, Global};
use std::marker::Model;

/// What is kept of one attempt.
#[derive(Clone, Copy, Debug, PartialEq, Eq)]
pub struct Entry {
    pub machine: AttemptMachine,
    pub accepted: bool,
}

impl Entry {
    // Whether it is over without ever having been accepted.
    pub fn is_over(&self) -> bool
        ensures { result ≡ is_over self.now }
    {
        self.machine.state().is_over() && !self.accepted
    }
}

/// What is kept of each attempt.
pub struct Attempts {
    entries: IndexMap<AttemptId, Entry>,
}

// By hand: they are dropped by this call.
impl Drop for Attempts {
    fn drop(self) {
        let Attempts { entries: _ } = self;
    }
}

impl Model for Attempts {
    ghost use Rattle.std.specs.Prelude.{List};
    ghost use Rattle.mr_ids.specs.Attempt.{Attempt};
    ghost use Rattle.mr_task.specs.declared.attempts.Entry.{Entry};

    ghost Value = { List (Attempt × Entry) };

    ghost view = { λ a. a.entries.entries };
}

impl Attempts {
    pub fn new(alloc: Global) -> Attempts
        ensures { result ≡ [] }
    {
        Attempts {
            entries: IndexMap::new(alloc),
        }
    }

    pub fn copy(&self) -> Result<Attempts, AllocError>
        ensures { IfOk result (λ attempts. attempts ≡ self.now) }
    {
        Ok(Attempts {
            entries: self.entries.clone()?,
        })
    }

    // Whether the same is kept of the same attempts, in the same order.
    #[tactic(auto, using(crate::proofs::Comparing::kept_decide))]
    pub fn is_same(&self, other: &Attempts) -> bool
        ensures { IsTrue result ↔ (self.now ≡ other.now) }
    {
        self.entries.as_slice() == other.entries.as_slice()
    }

    pub fn get(&self, attempt: &AttemptId) -> Option<Entry>
        ensures { result ≡ entry_in self.now attempt.now }
    {
        self.entries.get(attempt).copied()
    }

    // Puts the entry in the place of what is kept of an attempt that is there.
    pub fn set(&mut self, attempt: &AttemptId, entry: Entry)
        ensures set { self.new ≡ with_entry self.old attempt.now entry }
        ensures len { length self.new ≡ length self.old }
    {
        if let Some(place) = self.entries.get_index_of(attempt) {
            self.entries[place] = entry;
        }
    }

    // Adds an attempt as the last.
    pub fn push(&mut self, attempt: AttemptId, entry: Entry) -> Result<(), AllocError>
        ensures added { OnOk result (entry_in self.old attempt ≡ None → self.new ≡ self.old ++ (attempt, entry) ∷ []) }
        ensures len { OnOk result (length self.new ≤ length self.old + 1) }
        ensures err { OnErr result (self.new ≡ self.old) }
    {
        self.entries.insert(attempt, entry)?;
        Ok(())
    }

    pub fn names(&self) -> &[AttemptId]
        ensures { result.now ≡ keys_of self.now }
    {
        self.entries.keys().as_slice()
    }

    pub fn any_won(&self) -> bool
        ensures { result ≡ list_any (λ p. is_won p.1.machine.state) self.now }
    {
        self.entries
            .iter()
            .any(|(_, entry)| entry.machine.state().is_won())
    }

    pub fn live_count(&self) -> usize
        ensures { result ≡ count_by (λ p. is_live p.1.machine.state) self.now }
    {
        self.entries
            .iter()
            .filter(|(_, entry)| entry.machine.is_live())
            .count()
    }

    pub fn failed_count(&self) -> usize
        ensures count { result ≡ count_by (λ p. is_failed p.1.machine.state) self.now }
    {
        self.entries
            .iter()
            .filter(|(_, entry)| entry.machine.state() == AttemptState::Failed)
            .count()
    }

    pub fn succeeded(&self) -> Option<AttemptId>
        ensures { result ≡ option_map (λ p. p.0) (find (λ p. is_succeeded p.1.machine.state) self.now) }
    {
        match self.succeeded_place() {
            Some(place) => self.name_at(place),
            None => None,
        }
    }

    fn name_at(&self, place: usize) -> Option<AttemptId>
        ensures { result ≡ option_map (λ p. p.0) (slice_get self.now place) }
    {
        match self.entries.get_index(place) {
            Some(pair) => Some(*pair.0),
            None => None,
        }
    }

    fn succeeded_place(&self) -> Option<usize>
        ensures { result ≡ position (λ p. is_succeeded p.1.machine.state) self.now }
    {
        self.entries.iter().position(|(_, entry)| entry.machine.state() == AttemptState::Succeeded)
    }
}
