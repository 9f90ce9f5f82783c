//! Room in the bag, made before anything changes, so that packets are sent later without memory.
ghost use Rattle.std.specs.Prelude.{◌≡◌, ◌<◌, ◌≤◌, ◌+◌, OnOk, IfErr, length};
ghost use Rattle.mr_world_state.specs.declared.fault.WorldFault.TheVariants.{Full};

use crate::fault::WorldFault;
use mr_packet::{Bag, BagFault, MAX_PACKETS};
use std::alloc::AllocError;

/// Makes room for `more` packets, and changes nothing else.
pub fn reserve(bag: &mut Bag, more: usize) -> Result<(), AllocError>
    ensures kept { bag.new.packets ≡ bag.old.packets }
    ensures room { OnOk result (more ≤ bag.new.spare) }
{
    match bag.reserve(more) {
        Ok(()) => Ok(()),
        Err(BagFault::NoMemory) => Err(AllocError),
        Err(BagFault::Full) => unreachable!(),
    }
}

/// Refuses `Full` where `more` packets find no room.
pub fn check_room(bag: &Bag, more: usize) -> Result<(), WorldFault>
    ensures room { OnOk result (length bag.now.packets + more ≤ MAX_PACKETS) }
    ensures full { IfErr result (λ fault. (fault ≡ WorldFault.Full) × (MAX_PACKETS < length bag.now.packets + more)) }
{
    if MAX_PACKETS - bag.len() < more {
        return Err(WorldFault::Full);
    }
    Ok(())
}

/// How many packets a bag has at most. This call does nothing: it tells the caller so.
pub fn tell_most(bag: &Bag)
    ensures { length bag.now.packets ≤ MAX_PACKETS }
{
    // For the prover: a bag holds at most 1,000,000 packets.
    let _len = bag.len();
}
