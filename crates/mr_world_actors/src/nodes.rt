//! The machines of all nodes, by number.
ghost use Rattle.std.specs.Prelude.{◌≡◌, ◌↔◌, ℕ, None, Some, is_some, IfOk, IfSome, IsTrue, OnOk, OnErr, ◌<◌, ◌-◌, ◌^◌, nat_lt, if◌then◌else◌};
ghost use Rattle.std.specs.Option.{option_copied};
ghost use Rattle.mr_node.specs.Readings.{opening, reaction};
ghost use Rattle.mr_node.specs.Past.{Hears, Restarts, Shelves};
ghost use Rattle.mr_node.specs.State.{after};
ghost use Rattle.mr_world_actors.specs.Nodes.{node_of, ChangesNode, SameNodes, node_stepped, reaction_of, added_by};

use crate::shared::Shared;
use mr_ids::AttemptId;
use mr_mapside::MapOutput;
use mr_node::{NodeMachine, Reaction};
use mr_packet::Packet;
use std::alloc::{AllocError, Global};

/// The machines of all nodes, by number from 0.
#[derive(Drop)]
pub struct Nodes {
    machines: Vec<Shared<NodeMachine>>,
}

impl Nodes {
    /// `count` nodes that begin, in a job of `reduces` reduces. Its only error is an allocation failure.
    #[tactic(auto, unfolding(crate::specs::Nodes::node_of))]
    pub fn new(alloc: Global, count: u32, reduces: u32) -> Result<Nodes, AllocError>
        ensures { IfOk result (λ nodes. (n : ℕ) → node_of nodes n ≡ (if nat_lt n count then Some (record { number = n; seen = opening reduces }) else None)) }
    {
        let mut machines = Vec::new(alloc);
        for n in 0..count {
            let machine = begun(alloc, n, reduces)?;
            machines.push(machine)?;
        }
        Ok(Nodes { machines })
    }

    /// Equal machines of the same nodes: those of these, until they change. Its only fault is an allocation failure.
    #[tactic(auto, unfolding(crate::specs::Nodes::node_of))]
    pub fn copy(&self) -> Result<Nodes, AllocError>
        ensures { IfOk result (SameNodes self.now) }
    {
        let mut machines = Vec::with_capacity(*self.machines.allocator(), self.machines.len())?;
        for machine in &self.machines {
            machines.push(machine.share()?)?;
        }
        Ok(Nodes { machines })
    }

    /// Whether there are the same nodes in both, and the machines of each hold the same.
    pub fn is_same(&self, other: &Nodes) -> bool
        ensures { IsTrue result ↔ ((n : ℕ) → node_of self.now n ≡ node_of other.now n) }
    {
        are_same(&self.machines, &other.machines)
    }

    /// The machine of a node, if there is one of this number.
    #[tactic(auto, unfolding(crate::specs::Nodes::node_of))]
    pub fn get(&self, n: u32) -> Option<&NodeMachine>
        ensures { option_copied result ≡ node_of self.now n }
    {
        let machine = self.machines.get(n as usize)?;
        Some(&**machine)
    }

    /// The output of a map attempt is put on a node's shelf. Where memory is refused nothing changes.
    #[tactic(auto, unfolding(crate::specs::Nodes::node_of))]
    pub fn put(&mut self, n: u32, a: AttemptId, output: MapOutput) -> Result<(), AllocError>
        ensures ok { OnOk result (ChangesNode self.old n (node_stepped self.old n (Shelves a output)) self.new) }
        ensures err { OnErr result (SameNodes self.old self.new) }
    {
        match self.machines.get_mut(n as usize) {
            Some(machine) => put(machine, a, output),
            None => Ok(()),
        }
    }

    /// A node hears a packet: what it makes the node do. Where memory is refused nothing changes.
    #[tactic(auto, unfolding(crate::specs::Nodes::node_of))]
    pub fn hear(&mut self, n: u32, packet: &Packet) -> Result<Reaction, AllocError>
        ensures ok { OnOk result (ChangesNode self.old n (node_stepped self.old n (Hears packet.now)) self.new) }
        ensures reaction { IfOk result (λ r. r ≡ reaction_of (node_of self.old n) packet.now) }
        ensures err { OnErr result (SameNodes self.old self.new) }
    {
        match self.machines.get_mut(n as usize) {
            Some(machine) => hear(machine, packet),
            None => Ok(Reaction::Nothing),
        }
    }

    /// Whether a node would answer a packet with one.
    #[tactic(auto, unfolding(crate::specs::Nodes::node_of))]
    pub fn would_answer(&self, n: u32, packet: &Packet) -> bool
        ensures { result ≡ is_some (added_by (reaction_of (node_of self.now n) packet.now)) }
    {
        match self.machines.get(n as usize) {
            Some(machine) => would_answer(machine, packet),
            None => false,
        }
    }

    /// A node, if there is one of this number, begins anew: in the next incarnation, of which there is one, and with an empty shelf.
    /// Where memory is refused nothing changes.
    #[tactic(auto, unfolding(crate::specs::Nodes::node_of))]
    pub fn restart(&mut self, n: u32) -> Result<(), AllocError>
        requires { IfSome (node_of self.old n) (λ m. m.seen.incarnation < 2 ^ 32 - 1) }
        ensures ok { OnOk result (ChangesNode self.old n (node_stepped self.old n Restarts) self.new) }
        ensures err { OnErr result (SameNodes self.old self.new) }
    {
        match self.machines.get_mut(n as usize) {
            Some(machine) => restart(machine),
            None => Ok(()),
        }
    }
}

// A node that begins.
fn begun(alloc: Global, number: u32, reduces: u32) -> Result<Shared<NodeMachine>, AllocError>
    ensures { IfOk result (λ machine. machine ≡ record { number = number; seen = opening reduces }) }
{
    Shared::new(alloc, NodeMachine::new(alloc, number, reduces))
}

// The output of a map attempt is put on the node's shelf. Where memory is refused nothing changes.
fn put(machine: &mut Shared<NodeMachine>, a: AttemptId, output: MapOutput) -> Result<(), AllocError>
    ensures after { OnOk result (machine.new ≡ after machine.old (Shelves a output)) }
    ensures err { OnErr result (machine.new ≡ machine.old) }
{
    machine.own()?.put(a, output)
}

// The node hears a packet: what it makes the node do. Where memory is refused nothing changes.
fn hear(machine: &mut Shared<NodeMachine>, packet: &Packet) -> Result<Reaction, AllocError>
    ensures reaction { IfOk result (λ r. r ≡ reaction machine.old.number machine.old.seen packet.now) }
    ensures after { OnOk result (machine.new ≡ after machine.old (Hears packet.now)) }
    ensures err { OnErr result (machine.new ≡ machine.old) }
{
    machine.own()?.hear(packet)
}

// The node begins anew, in its next incarnation. Where memory is refused nothing changes.
fn restart(machine: &mut Shared<NodeMachine>) -> Result<(), AllocError>
    requires { machine.old.seen.incarnation < 2 ^ 32 - 1 }
    ensures after { OnOk result (machine.new ≡ after machine.old Restarts) }
    ensures err { OnErr result (machine.new ≡ machine.old) }
{
    machine.own()?.restart();
    Ok(())
}

// Whether two machines are the same.
fn is_one(this: &Shared<NodeMachine>, that: &Shared<NodeMachine>) -> bool
    ensures { IsTrue result ↔ (this.now ≡ that.now) }
{
    this.is_same(that)
}

// Whether two lists of machines are the same.
#[tactic(auto, using(crate::proofs::Comparing::one_more, crate::proofs::Comparing::one_differs))]
fn are_same(these: &[Shared<NodeMachine>], those: &[Shared<NodeMachine>]) -> bool
    ensures { IsTrue result ↔ (these.now ≡ those.now) }
{
    if these.len() != those.len() {
        return false;
    }
    for i in 0..these.len() {
        if !is_one(&these[i], &those[i]) {
            return false;
        }
    }
    true
}

// Whether a node would answer a packet with one. It answers whoever asks it to kill or to send. It answers a launch for another
// incarnation with its own incarnation, unless it knows the container.
#[tactic(auto, unfolding(mr_node::specs::Readings::reaction), using(crate::proofs::Replying::answers_launch))]
fn would_answer(machine: &NodeMachine, packet: &Packet) -> bool
    ensures { result ≡ is_some (added_by (reaction machine.now.number machine.now.seen packet.now)) }
{
    match packet {
        Packet::Kill { .. } | Packet::Fetch { .. } => true,
        Packet::Launch {
            container,
            attempt: _,
            incarnation,
        } => !machine.knows(container) && *incarnation != machine.incarnation(),
        _ => false,
    }
}
