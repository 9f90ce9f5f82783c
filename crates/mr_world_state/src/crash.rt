//! The event by which a master crashes. Of the bytes that it had not flushed a given number stay, and its segment is
//! sealed.
ghost use Rattle.mr_history.specs.Calls.{sealed_at};
ghost use Rattle.mr_world_model.specs.World.{Crash};
ghost use Rattle.mr_world_state.specs.Machines.{master_of};
ghost use Rattle.mr_world_state.specs.Standing.{Foresees, Tries};
ghost use Rattle.std.specs.Prelude.{◌≡◌, ◌≤◌, true, is_some, IfOk, OnOk, OnErr};

use crate::fault::WorldFault;
use crate::parts::Parts;
use mr_history::History;
use mr_ids::AppAttempt;
use mr_world_actors::Shared;
use std::alloc::AllocError;

impl Parts {
    /// Whether the master of this generation can crash now.
    pub(crate) fn check_crash(&self, k: u32, kept: u64) -> Result<AppAttempt, WorldFault>
        ensures foresees { Foresees self.now (Crash k kept) result }
        ensures is { IfOk result (λ app. app ≡ k) }
        ensures raised { OnOk result (k ≤ self.now.history.fence) }
        ensures alive { OnOk result (is_some (master_of self.now.masters k) ≡ true) }
    {
        let app = self.check_master(k)?;
        Ok(app)
    }

    /// The master of this generation crashes. Of what it has not flushed `kept` bytes stay, and its segment is
    /// sealed.
    pub(crate) fn crash(&mut self, k: u32, kept: u64) -> Result<(), WorldFault>
        ensures tries { Tries self.old (Crash k kept) result self.new }
        ensures config { self.new.config ≡ self.old.config }
        ensures seals { OnOk result (self.new.history ≡ sealed_at k kept self.old.history) }
        ensures kept { OnErr result (self.new.history ≡ self.old.history) }
    {
        let app = self.check_crash(k, kept)?;
        seal(&mut self.history, app, kept as usize)?;
        self.masters.cease(k);
        Ok(())
    }
}

// The segment of this generation is sealed. Where memory is refused the history is as it was.
fn seal(history: &mut Shared<History>, app: AppAttempt, kept: usize) -> Result<(), AllocError>
    requires { app ≤ history.old.fence }
    ensures ok { OnOk result (history.new ≡ sealed_at app kept history.old) }
    ensures err { OnErr result (history.new ≡ history.old) }
{
    history.own()?.seal(app, kept);
    Ok(())
}
