//! The event by which a packet of the bag is delivered: it is handed on to `hear_master`, `hear_container` or
//! `hear_node`, by its address.
ghost use Rattle.std.specs.Prelude.{◌≡◌, slice_get};
ghost use Rattle.mr_world_model.specs.Effect.{addressee};
ghost use Rattle.mr_world_model.specs.World.{Deliver, World};
ghost use Rattle.mr_world_state.specs.inner.Addressees.{whom};
ghost use Rattle.mr_world_state.specs.Standing.{Foresees, Standing, Tries};

use crate::fault::WorldFault;
use crate::parts::Parts;
use mr_packet::{Address, Bag, ContainerId};
use mr_world_events::Why;

/// To whom a packet goes.
pub enum Addressee {
    /// There is no packet.
    Nobody,
    /// The master of this generation.
    Master(u32),
    /// This container.
    Container(ContainerId),
    /// The node of this number.
    Node(u32),
}

impl Parts {
    /// Whether the packet at this place of the bag can be delivered now, to whom it goes.
    pub(crate) fn check_deliver(&self, i: usize) -> Result<(), WorldFault>
        ensures { Foresees self.now (Deliver i) result }
    {
        match whom(&self.bag, i) {
            Addressee::Nobody => Err(WorldFault::NotNow(Why::NoPacket)),
            Addressee::Container(c) => self.check_hear_container(i, &c),
            Addressee::Node(n) => self.check_hear_node(i, n),
            Addressee::Master(k) => {
                self.check_hear_master(i, k)?;
                Ok(())
            }
        }
    }

    /// Why the packet at this place of the bag can't be delivered now: `NoPacket`, or `NoAddressee` where it goes to
    /// nobody who is alive; none where it can.
    pub fn undeliverable(&self, i: usize) -> Option<Why>
        ensures { (w : World) → Standing self.now w → result ≡ addressee w (slice_get w.bag i) }
    {
        let is_there = match whom(&self.bag, i) {
            Addressee::Nobody => return Some(Why::NoPacket),
            Addressee::Master(k) => self.masters.contains(k),
            Addressee::Container(c) => self.living.contains(&c),
            Addressee::Node(_n) => true,
        };
        if is_there {
            None
        } else {
            Some(Why::NoAddressee)
        }
    }

    /// The packet at this place of the bag is delivered, to whom it goes.
    pub(crate) fn deliver(&mut self, i: usize) -> Result<(), WorldFault>
        ensures tries { Tries self.old (Deliver i) result self.new }
        ensures config { self.new.config ≡ self.old.config }
        ensures history { self.new.history ≡ self.old.history }
    {
        match whom(&self.bag, i) {
            Addressee::Nobody => Err(WorldFault::NotNow(Why::NoPacket)),
            Addressee::Container(c) => self.hear_container(i, &c),
            Addressee::Node(n) => self.hear_node(i, n),
            Addressee::Master(k) => self.hear_master(i, k),
        }
    }
}

/// To whom the packet at this place goes, if there is one.
pub fn whom(bag: &Bag, i: usize) -> Addressee
    ensures { result ≡ whom (slice_get bag.now.packets i) }
{
    let Some(envelope) = bag.get(i) else {
        return Addressee::Nobody;
    };
    match &envelope.to {
        Address::Master(k) => Addressee::Master(k.number()),
        Address::Container(c) => Addressee::Container(*c),
        Address::Node(n) => Addressee::Node(*n),
    }
}
