//! A packet is delivered to a node: a launch may begin a container, a `Kill` ends one, and the node may answer.
ghost use Rattle.std.specs.Prelude.{◌≡◌, ◌≤◌, ◌+◌, length, slice_get, IsSome, Some, IfOk, OnOk, OnErr};
ghost use Rattle.std.specs.Option.{option_map};
ghost use Rattle.mr_packet.specs.declared.packet.Address.TheVariants.{Node};
ghost use Rattle.mr_packet.specs.declared.packet.Envelope.{Envelope};
ghost use Rattle.mr_packet.specs.declared.packet.Packet.TheVariants.{Launch};
ghost use Rattle.mr_node.specs.Past.{Hears};
ghost use Rattle.mr_world_model.specs.World.{Deliver};
ghost use Rattle.mr_world_actors.specs.Living.{Same};
ghost use Rattle.mr_world_actors.specs.Nodes.{node_of, ChangesNode, SameNodes, node_stepped, reaction_of, added_by};
ghost use Rattle.mr_world_state.specs.inner.Replying.{answers_at, one_if};
ghost use Rattle.mr_world_state.specs.inner.Serving.{Serves};
ghost use Rattle.mr_world_state.specs.Standing.{IsTo, Foresees, Tries};

use crate::fault::WorldFault;
use crate::parts::Parts;
use crate::room::reserve;
use mr_container::{ContainerMachine, Place};
use mr_ids::AttemptId;
use mr_node::Reaction;
use mr_packet::{Bag, ContainerId, Envelope, MAX_PACKETS, Packet};
use mr_world_actors::{Living, Nodes};
use std::alloc::{AllocError, Global};

impl Parts {
    /// Whether the packet at this place can be delivered to its node now.
    pub(crate) fn check_hear_node(&self, i: usize, n: u32) -> Result<(), WorldFault>
        requires { IsTo self.now i (Node n) }
        ensures foresees { Foresees self.now (Deliver i) result }
        ensures room { OnOk result (length self.now.bag.packets + one_if (answers_at self.now.nodes n (slice_get self.now.bag.packets i)) ≤ MAX_PACKETS) }
    {
        if self.bag.len() < MAX_PACKETS {
            return Ok(());
        }
        let answers = would_answer(&self.bag, i, &self.nodes, n);
        if answers {
            return Err(WorldFault::Full);
        }
        Ok(())
    }

    /// The packet at this place is delivered to its node: a launch that the node obeys begins a container, a `Kill`
    /// ends one, and a packet may be answered.
    pub(crate) fn hear_node(&mut self, i: usize, n: u32) -> Result<(), WorldFault>
        requires { IsTo self.old i (Node n) }
        ensures tries { Tries self.old (Deliver i) result self.new }
        ensures config { self.new.config ≡ self.old.config }
        ensures history { self.new.history ≡ self.old.history }
    {
        self.check_hear_node(i, n)?;
        reserve(&mut self.bag, 1)?;
        let maps = self.maps();
        let alloc = self.allocator();
        let answer = hear(
            alloc,
            &self.bag,
            i,
            &mut self.nodes,
            &mut self.living,
            n,
            maps,
        )?;
        if let Some(envelope) = answer {
            self.bag.push_reserved(envelope);
        }
        Ok(())
    }
}

// Whether the node would answer the packet at this place.
fn would_answer(bag: &Bag, i: usize, nodes: &Nodes, n: u32) -> bool
    requires { IsSome (slice_get bag.now.packets i) }
    ensures { result ≡ answers_at nodes.now n (slice_get bag.now.packets i) }
{
    match bag.get(i) {
        Some(envelope) => nodes.would_answer(n, &envelope.body),
        None => unreachable!(),
    }
}

// The node hears the packet at this place, and who lives changes with it: the packet that is added. Where memory is
// refused nothing changes.
fn hear(
    alloc: Global,
    bag: &Bag,
    i: usize,
    nodes: &mut Nodes,
    living: &mut Living,
    n: u32,
    maps: u32,
) -> Result<Option<Envelope>, AllocError>
    requires { IsSome (slice_get bag.now.packets i) }
    ensures nodes { OnOk result ((e : Envelope) → slice_get bag.now.packets i ≡ Some e → ChangesNode nodes.old n (node_stepped nodes.old n (Hears e.body)) nodes.new) }
    ensures added { IfOk result (λ added. (e : Envelope) → slice_get bag.now.packets i ≡ Some e → added ≡ added_by (reaction_of (node_of nodes.old n) e.body)) }
    ensures living { OnOk result ((e : Envelope) → slice_get bag.now.packets i ≡ Some e → Serves living.old nodes.old n maps e.body living.new) }
    ensures no_node { OnErr result (SameNodes nodes.old nodes.new) }
    ensures none_lives { OnErr result (Same living.old living.new) }
{
    match bag.get(i) {
        Some(envelope) => hear_packet(alloc, nodes, living, n, maps, &envelope.body),
        None => unreachable!(),
    }
}

// The packet that a reaction adds.
fn added(reaction: Reaction) -> Option<Envelope>
    ensures { result ≡ added_by reaction }
{
    match reaction {
        Reaction::Adds(envelope) => Some(envelope),
        Reaction::Starts { .. } | Reaction::Nothing => None,
    }
}

// A node is asked to launch a container. Its machine is put in before the node hears of it, since nothing may be
// refused after that.
fn hear_launch(
    alloc: Global,
    nodes: &mut Nodes,
    living: &mut Living,
    n: u32,
    maps: u32,
    c: ContainerId,
    a: AttemptId,
    incarnation: u32,
) -> Result<Option<Envelope>, AllocError>
    ensures nodes { OnOk result (ChangesNode nodes.old n (node_stepped nodes.old n (Hears (Launch c a incarnation))) nodes.new) }
    ensures added { IfOk result (λ added. added ≡ added_by (reaction_of (node_of nodes.old n) (Launch c a incarnation))) }
    ensures living { OnOk result (Serves living.old nodes.old n maps (Launch c a incarnation) living.new) }
    ensures no_node { OnErr result (SameNodes nodes.old nodes.new) }
    ensures none_lives { OnErr result (Same living.old living.new) }
{
    let packet = Packet::Launch {
        container: c,
        attempt: a,
        incarnation,
    };
    let Some(place) = place_on(nodes, n, a) else {
        return Ok(added(nodes.hear(n, &packet)?));
    };
    if living.contains(&c) {
        return Ok(added(nodes.hear(n, &packet)?));
    }
    living.insert(c, ContainerMachine::new(alloc, c, place, maps))?;
    match nodes.hear(n, &packet) {
        Ok(Reaction::Starts { .. }) => Ok(None),
        Ok(Reaction::Adds(envelope)) => {
            living.remove(&c);
            Ok(Some(envelope))
        }
        Ok(Reaction::Nothing) => {
            living.remove(&c);
            Ok(None)
        }
        Err(fault) => {
            living.remove(&c);
            Err(fault)
        }
    }
}

// What a container for this attempt would be launched as on a node.
fn place_on(nodes: &Nodes, n: u32, a: AttemptId) -> Option<Place>
    ensures { result ≡ option_map (λ m. record { attempt = a; node = m.number; incarnation = m.seen.incarnation }) (node_of nodes.now n) }
{
    let machine = nodes.get(n)?;
    Some(Place {
        attempt: a,
        node: machine.number(),
        incarnation: machine.incarnation(),
    })
}

// A node hears a packet, and who lives changes with it: the packet that is added. Where memory is refused nothing
// changes.
fn hear_packet(
    alloc: Global,
    nodes: &mut Nodes,
    living: &mut Living,
    n: u32,
    maps: u32,
    packet: &Packet,
) -> Result<Option<Envelope>, AllocError>
    ensures nodes { OnOk result (ChangesNode nodes.old n (node_stepped nodes.old n (Hears packet.now)) nodes.new) }
    ensures added { IfOk result (λ added. added ≡ added_by (reaction_of (node_of nodes.old n) packet.now)) }
    ensures living { OnOk result (Serves living.old nodes.old n maps packet.now living.new) }
    ensures no_node { OnErr result (SameNodes nodes.old nodes.new) }
    ensures none_lives { OnErr result (Same living.old living.new) }
{
    match packet {
        Packet::Launch {
            container,
            attempt,
            incarnation,
        } => {
            hear_launch(
                alloc,
                nodes,
                living,
                n,
                maps,
                *container,
                *attempt,
                *incarnation,
            )
        }
        Packet::Kill { container } => {
            let reaction = nodes.hear(n, packet)?;
            living.remove(container);
            Ok(added(reaction))
        }
        _ => Ok(added(nodes.hear(n, packet)?)),
    }
}
