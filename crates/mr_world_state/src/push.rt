//! Packets are sent: put into the bag, where `room` was made for them.
ghost use Rattle.std.specs.Prelude.{◌≡◌, ◌≤◌, ◌+◌, ◌++◌, length};

use mr_packet::{Bag, Envelope, MAX_PACKETS};

/// Adds these packets in order, where there is room for them.
pub fn push_all(bag: &mut Bag, packets: Vec<Envelope>)
    requires room { length packets.items ≤ bag.old.spare }
    requires few { length bag.old.packets + length packets.items ≤ MAX_PACKETS }
    ensures { bag.new.packets ≡ bag.old.packets ++ packets.items }
{
    for packet in packets {
        bag.push_reserved(packet);
    }
}
