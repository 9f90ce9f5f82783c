//! What is to be appended to the master's segment, and what was appended and is not flushed.
ghost use Rattle.std.specs.Prelude.{◌≡◌, ◌↔◌, ◌≤◌, ◌<◌, ◌+◌, ◌||◌, [], ◌∷◌, ◌++◌, take, drop, length, List, false, OnOk, OnErr, IfOk, IsTrue};
ghost use Rattle.std.specs.List.{list_any};
ghost use Rattle.mr_history.specs.declared.record.Record.{Record};
ghost use Rattle.mr_master_model.specs.Duty.{wants_flush, record_duty};
ghost use Rattle.mr_master_model.specs.Answered.{is_unsuccessful, name_of};
ghost use Rattle.mr_master_tables.specs.Records.{KeepsRecords, SameRecords, written_by};
ghost use Rattle.std.specs.Option.{option_map};

use crate::duty::Duty;
use mr_history::Record;
use mr_master_model::{DutyName, StoreCall};
use std::alloc::{AllocError, Global};
use std::collections::VecDeque;
use std::marker::Model;

/// The records that are due, and those that were appended and are not flushed, each in order.
pub struct Writing {
    due: VecDeque<Record>,
    tail: Vec<Record>,
    // whether the tail has something that a flush is for
    is_flush_wanted: bool,
}

// By hand: one is dropped by this call.
impl Drop for Writing {
    fn drop(self) {
        let Writing {
            due: _,
            tail: _,
            is_flush_wanted: _,
        } = self;
    }
}

impl Model for Writing {
    ghost use Rattle.std.specs.Prelude.{◌-◌, vec_len, vec_capacity};
    ghost use Rattle.std.specs.VecDeque.{deque_len, deque_capacity};
    ghost use Rattle.mr_master_tables.specs.Records.{Writing};

    ghost Value = { Writing };

    ghost view = { λ r. record { due = r.due.items; tail = r.tail.items; is_flush_wanted = r.is_flush_wanted; room = deque_capacity r.due - deque_len r.due; tail_room = vec_capacity r.tail - vec_len r.tail - deque_len r.due } };

    ghost use Rattle.std.specs.Prelude.{◌≤◌, ◌+◌};

    // the tail has room for all that is due
    ghost invariant = { λ r. deque_len r.due + vec_len r.tail ≤ vec_capacity r.tail };
}

impl Writing {
    /// Nothing is due, and nothing was appended.
    pub fn new(alloc: Global) -> Writing
        ensures { KeepsRecords result [] [] }
    {
        Writing {
            due: VecDeque::new(alloc),
            tail: Vec::new(alloc),
            is_flush_wanted: false,
        }
    }

    /// The same records. The copy has room for the records that are due, to be appended later, and no other spare room.
    pub fn copy(&self) -> Result<Writing, AllocError>
        ensures { IfOk result (λ writing. SameRecords self.now writing) }
    {
        let due = self.due.clone()?;
        let mut tail = self.tail.clone()?;
        tail.reserve(due.len())?;
        Ok(Writing {
            due,
            tail,
            is_flush_wanted: self.is_flush_wanted,
        })
    }

    /// Whether the same records are due, and the same were appended and are not flushed, each in the same order. Spare room is not
    /// compared. Neither is whether a flush is wanted, which the records tell.
    #[tactic(auto, using(crate::proofs::Comparing::records_decide))]
    pub fn is_same(&self, other: &Writing) -> bool
        ensures { IsTrue result ↔ ((self.now.due ≡ other.now.due) × (self.now.tail ≡ other.now.tail)) }
    {
        self.tail.as_slice() == other.tail.as_slice() && self.due == other.due
    }

    /// Makes room: after it `additional` more records can be due, and be appended later, without taking memory.
    pub fn reserve(&mut self, additional: usize) -> Result<(), AllocError>
        ensures same { SameRecords self.old self.new }
        ensures room { OnOk result (additional ≤ self.new.room) }
        ensures tail_room { OnOk result (additional ≤ self.new.tail_room) }
    {
        self.due.reserve(additional)?;
        self.tail.reserve(self.due.capacity())
    }

    /// The record is due after all others.
    pub fn push_reserved(&mut self, told: Record)
        requires room { 0 < self.old.room }
        requires tail_room { 0 < self.old.tail_room }
        ensures due { self.new.due ≡ self.old.due ++ told ∷ [] }
        ensures tail { self.new.tail ≡ self.old.tail }
        ensures flag { self.new.is_flush_wanted ≡ self.old.is_flush_wanted }
        ensures room { self.old.room ≡ self.new.room + 1 }
        ensures tail_room { self.old.tail_room ≡ self.new.tail_room + 1 }
    {
        self.due.push_back_reserved(told);
    }

    /// The call by which what is due, or was appended, comes to be stable.
    pub fn duty(&self) -> Option<Duty>
        ensures { (due tail : List Record) → KeepsRecords self.now due tail → result ≡ record_duty due tail }
    {
        if self.due.len() == 0 {
            return self.flush_duty();
        }
        let first = self.due[0];
        Some(Duty::new(DutyName::Append, StoreCall::Append(first)))
    }

    /// Which call that is: whether it appends, else it flushes.
    pub fn next(&self) -> Option<bool>
        ensures { (due tail : List Record) → KeepsRecords self.now due tail → option_map written_by result ≡ name_of (record_duty due tail) }
    {
        if self.due.len() == 0 {
            return self.next_flush();
        }
        Some(true)
    }

    fn next_flush(&self) -> Option<bool>
        ensures { (due tail : List Record) → KeepsRecords self.now due tail → option_map written_by result ≡ name_of (record_duty [] tail) }
    {
        if self.is_flush_wanted {
            Some(false)
        } else {
            None
        }
    }

    fn flush_duty(&self) -> Option<Duty>
        ensures { (due tail : List Record) → KeepsRecords self.now due tail → result ≡ record_duty [] tail }
    {
        if self.is_flush_wanted {
            Some(Duty::new(DutyName::Flush, StoreCall::Flush))
        } else {
            None
        }
    }

    /// The first record that is due was appended. The room for it was made as it came to be due.
    pub fn append_first(&mut self)
        ensures { (due tail : List Record) → KeepsRecords self.old due tail → KeepsRecords self.new (drop 1 due) (tail ++ take 1 due) }
    {
        if let Some(first) = self.due.pop_front() {
            self.tail.push_reserved(first);
            self.is_flush_wanted = either(self.is_flush_wanted, wants_flush(&first));
        }
    }

    /// What was appended and is not flushed, in order.
    pub fn tail(&self) -> &[Record]
        ensures { result.now ≡ self.now.tail }
    {
        self.tail.as_slice()
    }

    /// Whether the tail tells that the job failed.
    pub fn is_unsuccessful(&self) -> bool
        ensures { result ≡ list_any is_unsuccessful self.now.tail }
    {
        self.tail.iter().any(|told| is_unsuccessful(told))
    }

    /// All that was appended is stable.
    pub fn clear(&mut self)
        ensures { (due tail : List Record) → KeepsRecords self.old due tail → KeepsRecords self.new due [] }
    {
        self.tail.clear();
        self.is_flush_wanted = false;
    }
}

/// Whether one of them holds.
pub fn either(a: bool, b: bool) -> bool
    ensures { result ≡ (a || b) }
{
    a || b
}

// Whether a flush is for the record.
fn wants_flush(told: &Record) -> bool
    ensures { result ≡ wants_flush told.now }
{
    match told {
        Record::MapSucceeded { .. } | Record::ReduceSucceeded { .. } | Record::JobUnsuccessful =>
            true,
        Record::AttemptStarted { .. } | Record::AttemptFailed { .. } => false,
    }
}

/// Whether the record tells that the job failed.
pub fn is_unsuccessful(told: &Record) -> bool
    ensures { result ≡ is_unsuccessful told.now }
{
    match told {
        Record::JobUnsuccessful => true,
        _ => false,
    }
}
