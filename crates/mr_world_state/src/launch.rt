//! The event by which a master launches an attempt on a node, and a master's refusals as reasons of the world.
ghost use Rattle.std.specs.Prelude.{◌≡◌, ◌≤◌, ◌<◌, ◌+◌, length, IfOk, OnOk};
ghost use Rattle.mr_master.specs.Prepared.{IsOne, PlansFor};
ghost use Rattle.mr_master_model.specs.Past.{Launches};
ghost use Rattle.mr_world_model.specs.World.{LaunchOn};
ghost use Rattle.mr_world_state.specs.inner.Attending.{ForeseesLaunch};
ghost use Rattle.mr_world_state.specs.inner.Reasons.{why_of};
ghost use Rattle.mr_world_state.specs.Standing.{Foresees, Tries};

use crate::act::take_step;
use crate::fault::WorldFault;
use crate::limits::MAX_CONTAINERS;
use crate::parts::Parts;
use crate::room::check_room;
use mr_ids::TaskId;
use mr_master::{LaunchError, MasterMachine, Prepared};
use mr_master_model::LaunchFault;
use mr_packet::{Bag, MAX_PACKETS};
use mr_world_events::Why;

impl Parts {
    /// Whether an attempt at the task can be launched on the node now, and what the master would send and change then.
    pub(crate) fn check_launch(
        &self,
        k: u32,
        task: TaskId,
        node: u32,
    ) -> Result<Prepared, WorldFault>
        ensures { Foresees self.now (LaunchOn k task node) result }
    {
        let Some(machine) = self.masters.get(k) else {
            return Err(WorldFault::NotNow(Why::NoMaster));
        };
        check_launched(&self.bag, self.launched, machine, task, node)
    }

    /// The master of this generation launches the next attempt at the task on the node, which is told so.
    pub(crate) fn launch(&mut self, k: u32, task: TaskId, node: u32) -> Result<(), WorldFault>
        ensures tries { Tries self.old (LaunchOn k task node) result self.new }
        ensures config { self.new.config ≡ self.old.config }
        ensures history { self.new.history ≡ self.old.history }
    {
        let Some(machine) = self.masters.get_mut(k) else {
            return Err(WorldFault::NotNow(Why::NoMaster));
        };
        let prepared = check_launched(&self.bag, self.launched, machine, task, node)?;
        take_step(machine, &mut self.bag, prepared)?;
        self.launched += 1;
        Ok(())
    }
}

// What the master would send and change once it launches an attempt at the task on the node, where that passes no
// limit. So many containers were launched before.
fn check_launched(
    bag: &Bag,
    launched: u32,
    machine: &MasterMachine,
    task: TaskId,
    node: u32,
) -> Result<Prepared, WorldFault>
    ensures foresees { ForeseesLaunch bag.now launched machine.now task node result }
    ensures few { OnOk result (launched < MAX_CONTAINERS) }
    ensures planned { IfOk result (λ prepared. PlansFor machine.now (Launches task node) prepared) }
    ensures one { IfOk result (λ prepared. IsOne prepared.packets) }
    ensures room { IfOk result (λ prepared. length bag.now.packets + length prepared.packets ≤ MAX_PACKETS) }
{
    if let Some(fault) = machine.launch_refusal(task, node) {
        return Err(WorldFault::NotNow(why(fault)));
    }
    if launched >= MAX_CONTAINERS {
        return Err(WorldFault::Full);
    }
    check_room(bag, 1)?;
    match machine.prepare_launch(task, node) {
        Ok(prepared) => Ok(prepared),
        Err(LaunchError::Refused(fault)) => Err(WorldFault::NotNow(why(fault))),
        Err(LaunchError::Full) => Err(WorldFault::Full),
        Err(LaunchError::NoMemory) => Err(WorldFault::NoMemory),
    }
}

/// The reason that a master gives for launching nothing, or for not giving a node up.
pub fn why(fault: LaunchFault) -> Why
    ensures { result ≡ why_of fault }
{
    match fault {
        LaunchFault::NotRunning => Why::NotRunning,
        LaunchFault::NoTask => Why::NoTask,
        LaunchFault::NoNode => Why::NoNode,
        LaunchFault::Task(fault) => Why::Task(fault),
    }
}
