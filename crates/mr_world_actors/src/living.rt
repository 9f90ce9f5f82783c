//! The machines of the containers that are alive, in order of the containers, and what each of them hears, sends or computes.
ghost use Rattle.std.specs.Prelude.{◌≡◌, ◌↔◌, None, Some, is_some, IfOk, IfSome, IsTrue, OnOk, OnErr, List, ℕ, filter, slice_get};
ghost use Rattle.std.specs.List.Sorted.{IsStrictlySortedBy};
ghost use Rattle.std.specs.Option.{option_copied};
ghost use Rattle.mr_packet.specs.declared.packet.Packet.{Packet};
ghost use Rattle.mr_container.specs.Past.{Hears, Sends, Computes, Calls};
ghost use Rattle.mr_ids.specs.declared.id.TaskKind.TheVariants.{Map};
ghost use Rattle.mr_names.specs.declared.op.Op.{Op};
ghost use Rattle.mr_container.specs.Wished.{wished_packet};
ghost use Rattle.mr_container.specs.State.{after};
ghost use Rattle.mr_world_model.specs.Actors.{is_finished};
ghost use Rattle.mr_world_model.specs.Ids.{ContainerId};
ghost use Rattle.mr_world_actors.specs.Ending.{acknowledges};
ghost use Rattle.mr_world_actors.specs.Letters.{letters_by, letters_of, is_last};
ghost use Rattle.mr_world_actors.specs.Living.{container_cmp, kept, Changes, Same, stepped, is_over, stays, unless_on};
ghost use Rattle.mr_world_actors.specs.Order.{in_order, is_behind, next_living};

use crate::letters::Letters;
use mr_container::{ContainerMachine, Reply, Wish};
use mr_ids::AttemptId;
use mr_packet::{Bytes, ContainerId, Packet};
use std::alloc::{AllocError, Global};
use std::collections::BTreeMap;
use std::ops::Bound;

/// The machines of the containers that live, in the order of the containers.
#[derive(Drop)]
pub struct Living {
    machines: BTreeMap<ContainerId, ContainerMachine>,
}

impl Living {
    /// No container lives yet.
    #[tactic(auto, unfolding(crate::specs::Living::kept))]
    pub fn new(alloc: Global) -> Living
        ensures { (d : ContainerId) → kept result d ≡ None }
    {
        Living {
            machines: BTreeMap::new(alloc),
        }
    }

    /// Equal machines of the same containers. Its only fault is an allocation failure.
    #[tactic(auto, using(crate::proofs::Copying::living_copied))]
    pub fn copy(&self) -> Result<Living, AllocError>
        ensures { IfOk result (Same self.now) }
    {
        Ok(Living {
            machines: self.machines.clone()?,
        })
    }

    /// Whether the same containers live in both, and the machines of each hold the same.
    pub fn is_same(&self, other: &Living) -> bool
        ensures { IsTrue result ↔ ((c : ContainerId) → kept self.now c ≡ kept other.now c) }
    {
        if self.machines.len() != other.machines.len() {
            return false;
        }
        self.machines == other.machines
    }

    /// The machine of a container, if it lives.
    #[tactic(auto, unfolding(crate::specs::Living::kept))]
    pub fn get(&self, c: &ContainerId) -> Option<&ContainerMachine>
        ensures { option_copied result ≡ kept self.now c.now }
    {
        self.machines.get(c)
    }

    /// Whether a container lives.
    #[tactic(auto, unfolding(crate::specs::Living::kept))]
    pub fn contains(&self, c: &ContainerId) -> bool
        ensures { result ≡ is_some (kept self.now c.now) }
    {
        self.machines.contains_key(c)
    }

    /// The container lives from now on, with this machine. Where memory is refused nothing changes.
    #[tactic(auto, using(crate::proofs::Keys::changed), unfolding(crate::specs::Living::kept))]
    pub fn insert(&mut self, c: ContainerId, machine: ContainerMachine) -> Result<(), AllocError>
        ensures ok { OnOk result (Changes self.old c (Some machine) self.new) }
        ensures err { OnErr result (Same self.old self.new) }
    {
        self.machines.insert(c, machine)?;
        Ok(())
    }

    /// The container, if it lives, hears the answer of its store call.
    #[tactic(auto, using(crate::proofs::Keys::changed), unfolding(crate::specs::Living::kept))]
    pub fn on(&mut self, c: &ContainerId, reply: Reply)
        ensures { (op : Op) → Changes self.old c.now (stepped self.old c.now (Calls op reply)) self.new }
    {
        match self.machines.get_mut(c) {
            Some(machine) => machine.on(reply),
            None => {}
        }
    }

    /// The container, if it lives, was handed in its bytes.
    #[tactic(auto, using(crate::proofs::Keys::changed), unfolding(crate::specs::Living::kept))]
    pub fn computed(&mut self, c: &ContainerId, bytes: Bytes)
        ensures changed { Changes self.old c.now (stepped self.old c.now (Computes bytes)) self.new }
        // Of a map it does not matter which bytes they are: they are not kept.
        ensures of_map { IfSome (kept self.old c.now) (λ m. m.place.attempt.task.kind ≡ Map) → (others : List ℕ) → Changes self.old c.now (stepped self.old c.now (Computes others)) self.new }
    {
        match self.machines.get_mut(c) {
            Some(machine) => machine.computed(bytes),
            None => {}
        }
    }

    /// The container lives no longer.
    #[tactic(auto, using(crate::proofs::Keys::changed), unfolding(crate::specs::Living::kept))]
    pub fn remove(&mut self, c: &ContainerId)
        ensures { Changes self.old c.now None self.new }
    {
        self.machines.remove(c);
    }

    /// The containers that were launched on this node live no longer.
    #[tactic(auto, unfolding(crate::specs::Living::kept))]
    pub fn end_on(&mut self, n: u32)
        ensures { (d : ContainerId) → kept self.new d ≡ unless_on n (kept self.old d) }
    {
        self.machines
            .retain(|_container, machine| stays(machine, n));
    }

    /// The container, if it lives, hears a packet: whether it came to its end. Where memory is refused nothing changes.
    #[tactic(auto, using(crate::proofs::Keys::changed), unfolding(crate::specs::Living::kept))]
    pub fn hear(&mut self, c: &ContainerId, packet: &Packet) -> Result<bool, AllocError>
        ensures ok { OnOk result (Changes self.old c.now (stepped self.old c.now (Hears packet.now)) self.new) }
        ensures over { IfOk result (λ over. over ≡ is_over (stepped self.old c.now (Hears packet.now))) }
        ensures err { OnErr result (Same self.old self.new) }
    {
        match self.machines.get_mut(c) {
            Some(machine) => hear(machine, packet),
            None => Ok(false),
        }
    }

    /// What the container's next step puts into the bag, if it lives, where that is no store call.
    #[tactic(auto, unfolding(crate::specs::Living::kept))]
    pub fn letters(&self, c: &ContainerId) -> Letters
        ensures { result ≡ letters_of (kept self.now c.now) }
    {
        match self.machines.get(c) {
            Some(machine) => letters(machine),
            None => Letters::Nothing,
        }
    }

    /// The packet that the container wished to send was sent.
    #[tactic(auto, using(crate::proofs::Keys::changed), unfolding(crate::specs::Living::kept))]
    pub fn sent(&mut self, c: &ContainerId)
        ensures { (packet : Packet) → Changes self.old c.now (stepped self.old c.now (Sends packet)) self.new }
    {
        match self.machines.get_mut(c) {
            Some(machine) => machine.sent(),
            None => {}
        }
    }

    /// Whether the container, if it lives, would come to its end by a packet.
    #[tactic(auto, unfolding(crate::specs::Living::kept))]
    pub fn would_end(&self, c: &ContainerId, packet: &Packet) -> bool
        ensures { result ≡ is_over (stepped self.now c.now (Hears packet.now)) }
    {
        match self.machines.get(c) {
            Some(machine) => would_end(machine, packet),
            None => false,
        }
    }
}

// Who lives, in order.
impl Living {
    /// A lemma, which does nothing: the containers stand in order. It tells a caller's proof the type's invariant.
    #[tactic(auto, unfolding(crate::specs::Order::in_order))]
    pub fn tell_order(&self)
        ensures { IsStrictlySortedBy container_cmp (in_order self.now) }
    {
        // For the prover: the containers stand in order.
        let _len = self.machines.len();
    }

    /// All containers that live, in order. Its only error is an allocation failure.
    #[tactic(auto, unfolding(crate::specs::Order::in_order))]
    pub fn all(&self, alloc: Global) -> Result<Vec<ContainerId>, AllocError>
        ensures { IfOk result (λ all. all.items ≡ in_order self.now) }
    {
        let mut all = Vec::new(alloc);
        for c in self.machines.keys() {
            all.push(*c)?;
        }
        Ok(all)
    }

    /// The next one that lives after a container, in cyclic order, or the first where none is given. It is looked up,
    /// without a walk over all that live.
    #[tactic(auto, unfolding(crate::specs::Order::in_order))]
    pub fn next(&self, after: Option<ContainerId>) -> Option<ContainerId>
        ensures { result ≡ next_living (in_order self.now) after }
    {
        if let Some(c) = after {
            if let Some(next) = self.next_behind(c) {
                return Some(next);
            }
        }
        self.first()
    }

    // The first container that lives.
    #[tactic(auto, unfolding(crate::specs::Order::in_order))]
    fn first(&self) -> Option<ContainerId>
        ensures { result ≡ slice_get (in_order self.now) 0 }
    {
        let (first, _machine) = self.machines.first_key_value()?;
        Some(*first)
    }

    // The first behind a container.
    #[tactic(auto, unfolding(crate::specs::Order::in_order))]
    fn next_behind(&self, c: ContainerId) -> Option<ContainerId>
        ensures { result ≡ slice_get (filter (is_behind (Some c)) (in_order self.now)) 0 }
    {
        let behind = (Bound::Excluded(c), Bound::Unbounded);
        let (next, _machine) = self.machines.range(behind).next()?;
        Some(*next)
    }
}

// Hears a packet: whether the container came to its end.
fn hear(machine: &mut ContainerMachine, packet: &Packet) -> Result<bool, AllocError>
    ensures ok { OnOk result (machine.new ≡ after machine.old (Hears packet.now)) }
    ensures over { IfOk result (λ over. over ≡ is_finished (after machine.old (Hears packet.now)).seen.wish) }
    ensures err { OnErr result (machine.new ≡ machine.old) }
{
    machine.hear(packet)?;
    Ok(is_finished(&machine.wish()))
}

// Whether the container would come to its end by a packet: by the answer to its report.
#[tactic(auto, using(crate::proofs::Ends::ends_by_answer))]
fn would_end(machine: &ContainerMachine, packet: &Packet) -> bool
    ensures { result ≡ is_finished (after machine.now (Hears packet.now)).seen.wish }
{
    let wish = machine.wish();
    is_finished(&wish) || (wish.is_reporting() && acknowledges(machine.place().attempt, packet))
}

// Whether the packet is the answer to what is done of this attempt.
#[tactic(auto, using(mr_container::proofs::Same::eq_same))]
fn acknowledges(attempt: AttemptId, packet: &Packet) -> bool
    ensures { result ≡ acknowledges attempt packet.now }
{
    match packet {
        Packet::DoneAck { attempt: done } => attempt == *done,
        _ => false,
    }
}

fn is_finished(wish: &Wish) -> bool
    ensures { result ≡ is_finished wish.now }
{
    matches!(wish, Wish::Over)
}

// What a container's next step puts into the bag, where it is no store call.
fn letters(machine: &ContainerMachine) -> Letters
    ensures { result ≡ letters_by (is_last machine.now.seen.wish) (wished_packet machine.now.id machine.now.place.attempt machine.now.seen machine.now.seen.wish) }
{
    match machine.packet() {
        Some(packet) if is_last(&machine.wish()) => Letters::Last(packet),
        Some(packet) => Letters::One(packet),
        None => Letters::Nothing,
    }
}

// Whether the wish's packet is the container's last: after it told that it failed it does nothing more.
fn is_last(wish: &Wish) -> bool
    ensures { result ≡ is_last wish.now }
{
    matches!(wish, Wish::Failed)
}

// Whether the container was launched on another node.
fn stays(machine: &ContainerMachine, n: u32) -> bool
    ensures { result ≡ stays n machine.now }
{
    machine.place().node != n
}
