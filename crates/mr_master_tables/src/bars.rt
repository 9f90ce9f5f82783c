//! The attempts whose bar was ever due, in order. This is the only place that knows how they are kept.
ghost use Rattle.std.specs.Prelude.{◌≡◌, ◌↔◌, ◌<◌, ◌≤◌, ◌+◌, [], length, slice_get, IfOk, IsTrue, OnOk, OnErr};
ghost use Rattle.indexmap.specs.IndexSet.{spare};
ghost use Rattle.mr_grant.specs.Attempts.{with_last};
ghost use Rattle.mr_master_tables.specs.Bars.{all_added};

use indexmap::IndexSet;
use mr_ids::AttemptId;
use std::alloc::{AllocError, Global};
use std::marker::Model;

/// Attempts, each once, in the order in which their bars came due.
pub struct Bars {
    due: IndexSet<AttemptId>,
    // how many more can be added without taking memory, for sure
    room: usize,
}

// By hand: one is dropped by this call.
impl Drop for Bars {
    fn drop(self) {
        let Bars { due: _, room: _ } = self;
    }
}

impl Model for Bars {
    ghost use Rattle.mr_master_tables.specs.Bars.{Bars};

    ghost Value = { Bars };

    ghost view = { λ b. record { due = b.due.keys; room = b.room } };

    ghost use Rattle.std.specs.Prelude.{◌≤◌};
    ghost use Rattle.indexmap.specs.IndexSet.{spare};

    ghost invariant = { λ b. b.room ≤ spare b.due };
}

impl Bars {
    /// No bar was due.
    pub fn new(alloc: Global) -> Bars
        ensures { result.due ≡ [] }
    {
        Bars {
            due: IndexSet::new(alloc),
            room: 0,
        }
    }

    /// The same attempts in the same order. Spare room is not copied.
    pub fn copy(&self) -> Result<Bars, AllocError>
        ensures { IfOk result (λ bars. bars.due ≡ self.now.due) }
    {
        Ok(Bars {
            due: self.due.clone()?,
            room: 0,
        })
    }

    /// Whether both have the same attempts in the same order. Spare room is not compared.
    #[tactic(auto, using(crate::proofs::Comparing::attempts_decide))]
    pub fn is_same(&self, other: &Bars) -> bool
        ensures { IsTrue result ↔ (self.now.due ≡ other.now.due) }
    {
        self.due.as_slice() == other.due.as_slice()
    }

    /// How many there are.
    pub fn len(&self) -> usize
        ensures { result ≡ length self.now.due }
    {
        self.due.len()
    }

    /// The attempts, in order.
    pub fn as_slice(&self) -> &[AttemptId]
        ensures { result.now ≡ self.now.due }
    {
        self.due.as_slice()
    }

    /// The attempt at a place, counted from 0.
    pub fn at(&self, place: usize) -> Option<AttemptId>
        ensures { result ≡ slice_get self.now.due place }
    {
        self.due.get_index(place).copied()
    }

    /// Makes room: after it `additional` more can be added without taking memory. Where memory is refused, nothing changes.
    pub fn reserve(&mut self, additional: usize) -> Result<(), AllocError>
        ensures due { self.new.due ≡ self.old.due }
        ensures room { OnOk result (additional ≤ self.new.room) }
        ensures err { OnErr result (self.new ≡ self.old) }
    {
        self.due.reserve(additional)?;
        self.room = additional;
        Ok(())
    }

    /// Adds attempts as the last, one after another, if they are not there. The room was made by `reserve`.
    pub fn add_all_reserved(&mut self, attempts: &[AttemptId])
        requires { length attempts.now ≤ self.old.room }
        ensures { self.new.due ≡ all_added self.old.due attempts.now }
    {
        add_each(&mut self.due, attempts);
        self.room = 0;
    }
}

fn add_each(due: &mut IndexSet<AttemptId>, attempts: &[AttemptId])
    requires { length attempts.now ≤ spare due.old }
    ensures { due.new.keys ≡ all_added due.old.keys attempts.now }
{
    for i in 0..attempts.len() {
        add(due, attempts[i]);
    }
}

fn add(due: &mut IndexSet<AttemptId>, attempt: AttemptId)
    requires { 0 < spare due.old }
    ensures added { due.new.keys ≡ with_last due.old.keys attempt }
    ensures room { spare due.old ≤ spare due.new + 1 }
{
    due.insert(attempt).unwrap();
}
