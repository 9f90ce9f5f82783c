//! A packet is delivered to a master, with the packets that it sends for it.
ghost use Rattle.std.specs.Prelude.{◌≡◌, ◌≤◌, ◌+◌, length, slice_get, IsSome, Some, IfOk};
ghost use Rattle.mr_packet.specs.declared.packet.Address.TheVariants.{Master};
ghost use Rattle.mr_packet.specs.declared.packet.Envelope.{Envelope};
ghost use Rattle.mr_master.specs.Prepared.{PlansFor};
ghost use Rattle.mr_master_model.specs.Past.{Hears};
ghost use Rattle.mr_world_model.specs.World.{Deliver};
ghost use Rattle.mr_world_state.specs.inner.Attending.{ForeseesHeard};
ghost use Rattle.mr_world_state.specs.Standing.{IsTo, Foresees, Tries};

use crate::act::take_step;
use crate::fault::WorldFault;
use crate::parts::Parts;
use crate::room::check_room;
use mr_master::{MasterMachine, Prepared};
use mr_packet::{Bag, MAX_PACKETS};
use mr_world_events::Why;
use std::alloc::AllocError;

impl Parts {
    /// Whether the packet at this place can be delivered to its master now, and what the master would send and change
    /// then.
    pub(crate) fn check_hear_master(&self, i: usize, k: u32) -> Result<Prepared, WorldFault>
        requires { IsTo self.now i (Master k) }
        ensures { Foresees self.now (Deliver i) result }
    {
        let Some(machine) = self.masters.get(k) else {
            return Err(WorldFault::NotNow(Why::NoAddressee));
        };
        check_heard(&self.bag, i, machine)
    }

    /// The packet at this place is delivered to its master, which answers.
    pub(crate) fn hear_master(&mut self, i: usize, k: u32) -> Result<(), WorldFault>
        requires { IsTo self.old i (Master k) }
        ensures tries { Tries self.old (Deliver i) result self.new }
        ensures config { self.new.config ≡ self.old.config }
        ensures history { self.new.history ≡ self.old.history }
    {
        let Some(machine) = self.masters.get_mut(k) else {
            return Err(WorldFault::NotNow(Why::NoAddressee));
        };
        let prepared = check_heard(&self.bag, i, machine)?;
        take_step(machine, &mut self.bag, prepared)?;
        Ok(())
    }
}

// What the master would send and change once it hears the packet at this place, where its packets find room in the
// bag.
fn check_heard(bag: &Bag, i: usize, machine: &MasterMachine) -> Result<Prepared, WorldFault>
    requires { IsSome (slice_get bag.now.packets i) }
    ensures foresees { ForeseesHeard bag.now i machine.now result }
    ensures planned { IfOk result (λ prepared. (e : Envelope) → slice_get bag.now.packets i ≡ Some e → PlansFor machine.now (Hears e.body) prepared) }
    ensures room { IfOk result (λ prepared. length bag.now.packets + length prepared.packets ≤ MAX_PACKETS) }
{
    let prepared = prepare(bag, i, machine)?;
    check_room(bag, prepared.packets().len())?;
    Ok(prepared)
}

// The same, room in the bag aside.
fn prepare(bag: &Bag, i: usize, machine: &MasterMachine) -> Result<Prepared, AllocError>
    requires { IsSome (slice_get bag.now.packets i) }
    ensures { IfOk result (λ prepared. (e : Envelope) → slice_get bag.now.packets i ≡ Some e → PlansFor machine.now (Hears e.body) prepared) }
{
    match bag.get(i) {
        Some(envelope) => machine.prepare_packet(&envelope.body),
        None => unreachable!(),
    }
}
