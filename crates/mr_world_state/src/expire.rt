//! The event by which a master gives a node up, with the Kills that it sends.
ghost use Rattle.std.specs.Prelude.{◌≡◌, ◌≤◌, ◌+◌, length, IfOk};
ghost use Rattle.mr_master.specs.Prepared.{PlansFor};
ghost use Rattle.mr_master_model.specs.Past.{Expires};
ghost use Rattle.mr_world_model.specs.World.{Expire};
ghost use Rattle.mr_world_state.specs.inner.Attending.{ForeseesExpiry};
ghost use Rattle.mr_world_state.specs.Standing.{Foresees, Tries};

use crate::act::take_step;
use crate::fault::WorldFault;
use crate::launch::why;
use crate::parts::Parts;
use crate::room::check_room;
use mr_master::{MasterMachine, Prepared, wants_memory};
use mr_packet::{Bag, MAX_PACKETS};
use mr_world_events::Why;

impl Parts {
    /// Whether the master of this generation can give the node up now, and what it would send and change then.
    pub(crate) fn check_expire(&self, k: u32, node: u32) -> Result<Prepared, WorldFault>
        ensures { Foresees self.now (Expire k node) result }
    {
        let Some(machine) = self.masters.get(k) else {
            return Err(WorldFault::NotNow(Why::NoMaster));
        };
        check_expiry(&self.bag, machine, node)
    }

    /// The master of this generation gives the node up, and kills what it launched of maps there.
    pub(crate) fn expire(&mut self, k: u32, node: u32) -> Result<(), WorldFault>
        ensures tries { Tries self.old (Expire k node) result self.new }
        ensures config { self.new.config ≡ self.old.config }
        ensures history { self.new.history ≡ self.old.history }
    {
        let Some(machine) = self.masters.get_mut(k) else {
            return Err(WorldFault::NotNow(Why::NoMaster));
        };
        let prepared = check_expiry(&self.bag, machine, node)?;
        take_step(machine, &mut self.bag, prepared)?;
        Ok(())
    }
}

// What the master would send and change once it gives the node up, where its packets find room in the bag.
fn check_expiry(bag: &Bag, machine: &MasterMachine, node: u32) -> Result<Prepared, WorldFault>
    ensures foresees { ForeseesExpiry bag.now machine.now node result }
    ensures planned { IfOk result (λ prepared. PlansFor machine.now (Expires node) prepared) }
    ensures room { IfOk result (λ prepared. length bag.now.packets + length prepared.packets ≤ MAX_PACKETS) }
{
    if let Some(fault) = machine.expire_refusal(node) {
        return Err(WorldFault::NotNow(why(fault)));
    }
    // For the prover: a machine stands for some past.
    machine.stands();
    let prepared = match machine.prepare_expiry(node) {
        Ok(prepared) => prepared,
        Err(fault) => return Err(WorldFault::from(wants_memory(fault))),
    };
    check_room(bag, prepared.packets().len())?;
    Ok(prepared)
}
