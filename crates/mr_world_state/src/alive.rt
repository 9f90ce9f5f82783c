//! Whether the master of a generation is alive: asked before it crashes or makes a store call, and for its unflushed
//! bytes.
ghost use Rattle.std.specs.Prelude.{◌≡◌, ◌≤◌, nat_le, true, false, is_some, IfOk, OnOk, IfErr};
ghost use Rattle.mr_world_events.specs.declared.why.Why.TheVariants.{NoMaster};
ghost use Rattle.mr_world_model.specs.World.{World};
ghost use Rattle.mr_world_state.specs.declared.fault.WorldFault.TheVariants.{NotNow};
ghost use Rattle.mr_world_state.specs.declared.parts.Parts.{Parts};
ghost use Rattle.mr_world_state.specs.Machines.{master_of};
ghost use Rattle.mr_world_state.specs.Standing.{Standing};

use crate::fault::WorldFault;
use crate::parts::Parts;
use mr_history::History;
use mr_ids::AppAttempt;
use mr_world_actors::Shared;
use mr_world_events::Why;

impl Parts {
    /// The generation, if its master is alive. Else refuses `NoMaster`.
    pub fn check_master(&self, k: u32) -> Result<AppAttempt, WorldFault>
        ensures is { IfOk result (λ app. app ≡ k) }
        ensures raised { OnOk result (k ≤ self.now.history.fence) }
        ensures alive { OnOk result (is_some (master_of self.now.masters k) ≡ true) }
        ensures refused { IfErr result (λ fault. (fault ≡ WorldFault.NotNow Why.NoMaster) × ((w : World) → Standing self.now w → w.is_master k ≡ false)) }
    {
        let app = raised(&self.history, k)?;
        if !self.masters.contains(k) {
            return Err(WorldFault::NotNow(Why::NoMaster));
        }
        Ok(app)
    }
}

/// The generation, if a master of it was started. Else refuses `NoMaster`.
pub fn raised(history: &Shared<History>, k: u32) -> Result<AppAttempt, WorldFault>
    ensures is { IfOk result (λ app. app ≡ k) }
    ensures raised { OnOk result (k ≤ history.now.fence) }
    ensures refused { IfErr result (λ fault. (fault ≡ WorldFault.NotNow Why.NoMaster) × ((p : Parts) → p.history ≡ history.now → (w : World) → Standing p w → w.is_master k ≡ false)) }
{
    match AppAttempt::new(k) {
        Some(app) if is_raised(history, app) => Ok(app),
        _ => Err(WorldFault::NotNow(Why::NoMaster)),
    }
}

// Whether the stores heard of a master of this generation.
fn is_raised(history: &Shared<History>, app: AppAttempt) -> bool
    ensures { result ≡ nat_le app history.now.fence }
{
    history.is_raised(app)
}
