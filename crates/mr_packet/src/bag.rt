//! The bag: all packets that were ever sent, which stands for a network that loses, repeats and reorders them.
ghost use Rattle.std.specs.Prelude.{◌≡◌, ◌↔◌, ◌≤◌, ◌<◌, ◌+◌, ◌++◌, [], ◌∷◌, drop, length, IfOk, OnOk, OnErr, IfErr, IsOkUnless, IsTrue, slice_get};
ghost use Rattle.std.specs.Option.{option_copied};

use crate::fault::BagFault;
use crate::packet::Envelope;
use std::alloc::{AllocError, Global};
use std::marker::Model;

/// Most packets of a bag (own profile).
pub const MAX_PACKETS: usize = 1_000_000;

// A copy has room for so many packets more: most bags that are copied go on.
const MORE: usize = 8;

/// All packets that were ever sent, in the order of their sending. It only grows.
///
/// Contracts see the list, and beside it a number, `spare`: how many packets can be pushed for sure without taking memory. No clause that
/// says that a bag stays as it was speaks of `spare`.
///
/// A packet that is lost is one that is never taken from here, a repeat is one that is taken twice, and any order of taking is a reordering.
#[derive(Drop)]
pub struct Bag {
    packets: Vec<Envelope>,
}

impl Model for Bag {
    ghost use Rattle.std.specs.Prelude.{◌-◌, ◌≤◌, vec_len, vec_capacity, length};
    ghost use Rattle.mr_packet.specs.Bag.{Held};

    ghost Value = { Held };

    ghost view = { λ b. record { packets = b.packets.items; spare = vec_capacity b.packets - vec_len b.packets } };

    ghost invariant = { λ b. vec_len b.packets ≤ 1000000 };
}

impl Bag {
    /// A bag with no packet.
    pub fn new(alloc: Global) -> Bag
        ensures { result.packets ≡ [] }
    {
        Bag {
            packets: Vec::new(alloc),
        }
    }

    /// Makes room: after it, `additional` pushes need no memory. It may allocate; the list stays, and nothing else is refused (`Full`
    /// is `push`'s).
    pub fn reserve(&mut self, additional: usize) -> Result<(), BagFault>
        ensures kept { self.new.packets ≡ self.old.packets }
        ensures room { OnOk result (additional ≤ self.new.spare) }
        ensures fault { IfErr result (λ fault. fault ≡ BagFault.NoMemory) }
    {
        self.packets.reserve(additional)?;
        Ok(())
    }

    /// Adds a packet as the last.
    ///
    /// Refused `Full` where there are `MAX_PACKETS`, else perhaps `NoMemory` where there is no spare room; then nothing changes.
    pub fn push(&mut self, envelope: Envelope) -> Result<(), BagFault>
        ensures ok { OnOk result (self.new.packets ≡ self.old.packets ++ envelope ∷ []) }
        ensures err { OnErr result (self.new.packets ≡ self.old.packets) }
        ensures full { IfErr result (λ fault. fault ≡ BagFault.Full → length self.old.packets ≡ MAX_PACKETS) }
        ensures room { IfErr result (λ fault. fault ≡ BagFault.NoMemory → length self.old.packets < MAX_PACKETS) }
        ensures memory { IfErr result (λ fault. fault ≡ BagFault.NoMemory → self.old.spare ≡ 0) }
        ensures many { OnOk result (length self.old.packets < MAX_PACKETS) }
        ensures spare { self.old.spare ≤ self.new.spare + 1 }
    {
        if self.packets.len() == MAX_PACKETS {
            return Err(BagFault::Full);
        }
        self.packets.push(envelope)?;
        Ok(())
    }

    /// Adds a packet as the last, where there is room: nothing can refuse it.
    pub fn push_reserved(&mut self, envelope: Envelope)
        requires room { 0 < self.old.spare }
        requires few { length self.old.packets < MAX_PACKETS }
        ensures packets { self.new.packets ≡ self.old.packets ++ envelope ∷ [] }
        ensures spare { self.old.spare ≡ self.new.spare + 1 }
    {
        self.packets.push_reserved(envelope);
    }

    /// The packet at a place, counted from 0; none past the last.
    pub fn get(&self, place: usize) -> Option<&Envelope>
        ensures { option_copied result ≡ slice_get self.now.packets place }
    {
        self.packets.get(place)
    }

    /// How many packets there are.
    pub fn len(&self) -> usize
        ensures len { result ≡ length self.now.packets }
        ensures most { result ≤ MAX_PACKETS }
    {
        self.packets.len()
    }

    /// A bag of its own with the same packets, and some spare room. Its only fault is an allocation failure.
    pub fn copy(&self) -> Result<Bag, AllocError>
        ensures { IfOk result (λ bag. bag.packets ≡ self.now.packets) }
    {
        let packets = copy_packets(*self.packets.allocator(), &self.packets)?;
        Ok(Bag { packets })
    }

    /// All packets, in the order of their sending.
    pub fn packets(&self) -> &[Envelope]
        ensures { result.now ≡ self.now.packets }
    {
        self.packets.as_slice()
    }

    /// Whether the packets from one place on are those of another bag from another place on, in the same order. Past the last packet there are none.
    #[tactic(auto, using(crate::proofs::Comparing::envelopes_decide))]
    pub fn is_same_from(&self, place: usize, other: &Bag, other_place: usize) -> bool
        ensures { IsTrue result ↔ (drop place self.now.packets ≡ drop other_place other.now.packets) }
    {
        behind(&self.packets, place) == behind(&other.packets, other_place)
    }
}

// The packets from a place on.
#[tactic(auto, using(crate::proofs::Comparing::none_behind))]
fn behind(packets: &[Envelope], place: usize) -> &[Envelope]
    ensures { result.now ≡ drop place packets.now }
{
    if place < packets.len() {
        &packets[place..]
    } else {
        &packets[packets.len()..]
    }
}

// Equal packets, with spare room.
fn copy_packets(alloc: Global, packets: &[Envelope]) -> Result<Vec<Envelope>, AllocError>
    ensures { IfOk result (λ copies. copies.items ≡ packets.now) }
{
    let mut copies = Vec::with_capacity(alloc, packets.len().saturating_add(MORE))?;
    for packet in packets {
        copies.push(packet.copy()?)?;
    }
    Ok(copies)
}
