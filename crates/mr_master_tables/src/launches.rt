//! What attempts were launched as, by the numbers of their containers. This is the only place that knows the map.
ghost use Rattle.std.specs.Prelude.{◌≡◌, ◌↔◌, ◌<◌, ◌≤◌, ◌&&◌, ◌++◌, [], ◌∷◌, Some, None, OnOk, OnErr, IfOk, IfSome, IfNone, IsTrue, slice_get, length, get_or, false, if◌then◌else◌};
ghost use Rattle.std.specs.Map.{lookup};
ghost use Rattle.mr_grant.specs.Attempts.{same_attempt};
ghost use Rattle.mr_ids.specs.Attempt.{Attempt};
ghost use Rattle.mr_master_tables.specs.Launches.{SameLaunches, Marks, NotesKills, Notes};
ghost use Rattle.mr_master_tables.specs.Spots.{AreFree, FreeFrom};

use crate::spots::Spread;
use indexmap::IndexMap;
use mr_ids::{AttemptId, TaskId, TaskKind};
use mr_master_model::Launch;
use mr_packet::{Envelope, Packet};
use std::alloc::{AllocError, Global};
use std::marker::Model;

/// The launches of a master, in order.
pub struct Launches {
    entries: Entries,
    // whether a Kill was sent to the container, by its number
    killed: Vec<bool>,
    // the tasks by the nodes where attempts of theirs were launched, and whether those of all launches are there
    spread: Spread,
    is_spread: bool,
}

// By hand: one is dropped by this call.
impl Drop for Launches {
    fn drop(self) {
        let Launches {
            entries: _,
            killed: _,
            spread: _,
            is_spread: _,
        } = self;
    }
}

impl Model for Launches {
    ghost use Rattle.mr_master_tables.specs.Launches.{Launched};

    ghost Value = { Launched };

    ghost use Rattle.std.specs.Prelude.{◌-◌, vec_len, vec_capacity};

    ghost view = { λ l. record { entries = l.entries.entries; killed = l.killed.items; room = l.entries.spare; killed_room = vec_capacity l.killed - vec_len l.killed } };

    ghost use Rattle.std.specs.Prelude.{◌≡◌, true};
    ghost use Rattle.mr_master_tables.specs.Spots.{IsSpread};

    ghost invariant = { λ l. l.is_spread ≡ true → IsSpread l.spread l.entries.entries };
}

impl Launches {
    /// Nothing was launched.
    pub fn new(alloc: Global) -> Launches
        ensures entries { result.entries ≡ [] }
        ensures killed { result.killed ≡ [] }
    {
        Launches {
            entries: Entries::new(alloc),
            killed: Vec::new(alloc),
            spread: Spread::new(alloc),
            is_spread: true,
        }
    }

    /// The same launches, with what was sent to their containers. Spare room is not copied.
    pub fn copy(&self) -> Result<Launches, AllocError>
        ensures { IfOk result (λ launches. SameLaunches self.now launches) }
    {
        Ok(Launches {
            entries: self.entries.copy()?,
            killed: self.killed.clone()?,
            spread: self.spread.copy()?,
            is_spread: self.is_spread,
        })
    }

    /// Whether both have the same launches in the same order, with the same containers sent a Kill. Spare room is not compared, and
    /// neither is which tasks may be on which node.
    #[tactic(auto, using(crate::proofs::Comparing::bools_decide))]
    pub fn is_same(&self, other: &Launches) -> bool
        ensures { IsTrue result ↔ ((self.now.entries ≡ other.now.entries) × (self.now.killed ≡ other.now.killed)) }
    {
        self.killed.as_slice() == other.killed.as_slice() && self.entries.is_same(&other.entries)
    }

    /// How many there are.
    pub fn len(&self) -> usize
        ensures { result ≡ length self.now.entries }
    {
        self.entries.len()
    }

    /// What the attempt was launched as.
    pub fn of(&self, attempt: &AttemptId) -> Option<Launch>
        ensures { result ≡ lookup (same_attempt attempt.now) self.now.entries }
    {
        self.entries.of(attempt)
    }

    /// The attempt that the container of this number was launched for.
    pub fn at(&self, number: usize) -> Option<(AttemptId, Launch)>
        ensures { result ≡ slice_get self.now.entries number }
    {
        self.entries.at(number)
    }

    /// Whether a Kill was sent to the container of this number; of one that was never launched: no.
    pub fn is_killed(&self, number: usize) -> bool
        ensures { result ≡ get_or self.now.killed number false }
    {
        if number < self.killed.len() {
            self.killed[number]
        } else {
            false
        }
    }

    /// Of the tasks of a kind from this number on, the first of which an attempt may have been launched on the node.
    pub fn next_on(&self, kind: TaskKind, node: u32, from: u32) -> Option<u32>
        ensures from { IfSome result (λ number. from ≤ number) }
        ensures first { IfSome result (λ number. AreFree self.now.entries kind node from number) }
        ensures none { IfNone result (FreeFrom self.now.entries kind node from) }
    {
        if !self.is_spread {
            return Some(from);
        }
        self.spread.next(kind, node, from)
    }

    /// Makes room: after it one more launch, of an attempt of the task on the node, needs no memory.
    pub fn reserve(&mut self, node: u32, task: TaskId) -> Result<(), AllocError>
        ensures same { SameLaunches self.old self.new }
        ensures room { OnOk result (0 < self.new.room) }
        ensures killed_room { OnOk result (0 < self.new.killed_room) }
    {
        self.spread.add(node, task)?;
        self.killed.reserve(1)?;
        self.entries.reserve()
    }

    /// Adds a launch as the last. No Kill was sent to its container.
    pub fn push_reserved(&mut self, attempt: AttemptId, launch: Launch)
        requires room { 0 < self.old.room }
        requires killed_room { 0 < self.old.killed_room }
        ensures entries { lookup (same_attempt attempt) self.old.entries ≡ None → self.new.entries ≡ self.old.entries ++ (attempt, launch) ∷ [] }
        ensures killed { self.new.killed ≡ self.old.killed ++ false ∷ [] }
    {
        let on_node = self.spread.has(launch.node, &attempt.task());
        self.is_spread = both(self.is_spread, on_node);
        self.entries.push_reserved(attempt, launch);
        self.killed.push_reserved(false);
    }

    /// Notes which containers are sent a Kill.
    pub fn note(&mut self, packets: &[Envelope])
        ensures { Notes self.old packets.now self.new }
    {
        note_kills(&mut self.killed, packets);
    }
}

fn note_kills(killed: &mut Vec<bool>, packets: &[Envelope])
    ensures noted { NotesKills killed.old.items packets.now killed.new.items }
    ensures count { length killed.new.items ≡ length killed.old.items }
{
    for i in 0..packets.len() {
        note_kill(killed, &packets[i]);
    }
}

fn note_kill(killed: &mut Vec<bool>, packet: &Envelope)
    ensures noted { NotesKills killed.old.items (packet.now ∷ []) killed.new.items }
    ensures count { length killed.new.items ≡ length killed.old.items }
{
    if let Packet::Kill { container } = &packet.body {
        mark(killed, container.number as usize);
    }
}

fn mark(marks: &mut Vec<bool>, place: usize)
    ensures marks { Marks marks.old.items place marks.new.items }
    ensures count { length marks.new.items ≡ length marks.old.items }
{
    if place < marks.len() {
        marks[place] = true;
    }
}

/// Whether both hold.
pub fn both(a: bool, b: bool) -> bool
    ensures { result ≡ (a && b) }
{
    a && b
}

struct Entries {
    map: IndexMap<AttemptId, Launch>,
}

// By hand: one is dropped by this call.
impl Drop for Entries {
    fn drop(self) {
        let Entries { map: _ } = self;
    }
}

impl Model for Entries {
    ghost use Rattle.indexmap.specs.IndexMap.{spare};
    ghost use Rattle.mr_master_tables.specs.Launches.{Entries};

    ghost Value = { Entries };

    ghost view = { λ e. record { entries = e.map.entries; spare = spare e.map } };
}

impl Entries {
    fn new(alloc: Global) -> Entries
        ensures { result.entries ≡ [] }
    {
        Entries {
            map: IndexMap::new(alloc),
        }
    }

    fn copy(&self) -> Result<Entries, AllocError>
        ensures { IfOk result (λ copy. copy.entries ≡ self.now.entries) }
    {
        Ok(Entries {
            map: self.map.clone()?,
        })
    }

    #[tactic(auto, using(crate::proofs::Comparing::launches_decide))]
    fn is_same(&self, other: &Entries) -> bool
        ensures { IsTrue result ↔ (self.now.entries ≡ other.now.entries) }
    {
        self.map.as_slice() == other.map.as_slice()
    }

    fn len(&self) -> usize
        ensures { result ≡ length self.now.entries }
    {
        self.map.len()
    }

    fn of(&self, attempt: &AttemptId) -> Option<Launch>
        ensures { result ≡ lookup (same_attempt attempt.now) self.now.entries }
    {
        self.map.get(attempt).copied()
    }

    fn at(&self, number: usize) -> Option<(AttemptId, Launch)>
        ensures { result ≡ slice_get self.now.entries number }
    {
        match self.map.get_index(number) {
            Some(pair) => Some((*pair.0, *pair.1)),
            None => None,
        }
    }

    fn reserve(&mut self) -> Result<(), AllocError>
        ensures same { self.new.entries ≡ self.old.entries }
        ensures room { OnOk result (0 < self.new.spare) }
    {
        self.map.reserve(1)
    }

    // Adds a launch as the last.
    fn push_reserved(&mut self, attempt: AttemptId, launch: Launch)
        requires { 0 < self.old.spare }
        ensures last { lookup (same_attempt attempt) self.old.entries ≡ None → self.new.entries ≡ self.old.entries ++ (attempt, launch) ∷ [] }
        ensures looked { (a : Attempt) → lookup (same_attempt a) self.new.entries ≡ (if same_attempt attempt a then Some launch else lookup (same_attempt a) self.old.entries) }
    {
        self.map.insert(attempt, launch).unwrap();
    }
}
