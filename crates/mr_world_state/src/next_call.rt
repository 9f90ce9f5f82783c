//! The store call that a master makes next, and what it is for; the reason, where there is none.
ghost use Rattle.std.specs.Prelude.{IfOk, IfErr};
ghost use Rattle.mr_world_state.specs.inner.Asking.{IsDutyOf, RefusesDutyOf};

use crate::fault::WorldFault;
use mr_master::{Duty, MasterMachine};
use mr_world_events::Why;

/// The store call that this master makes next, and what it is for. Refused `NoDuty` where there is none, and `NoMemory`
/// only where there is one.
pub fn next_call(machine: &MasterMachine) -> Result<Duty, WorldFault>
    ensures due { IfOk result (λ duty. IsDutyOf machine.now duty.call) }
    ensures refused { IfErr result (λ fault. RefusesDutyOf machine.now fault) }
{
    match machine.duty()? {
        Some(duty) => Ok(duty),
        None => Err(WorldFault::NotNow(Why::NoDuty)),
    }
}
