//! What is read of masters, of their history and of the bag.
//! For programs that run or show a world.
ghost use Rattle.std.specs.Prelude.{◌≡◌, ◌≤◌, ◌<◌, IfOk, IfErr, []};
ghost use Rattle.mr_history.specs.Reading.{records_of};
ghost use Rattle.mr_world_state.specs.declared.fault.WorldFault.TheVariants.{NoMemory};
ghost use Rattle.mr_world_model.specs.World.{World};
ghost use Rattle.mr_world_state.specs.Standing.{Standing};
ghost use Rattle.mr_world.specs.Histories.{stable_bytes};
ghost use Rattle.mr_world.specs.Readings.{due_in, phase_in, wanted_in, unflushed_in};

use mr_history::History;
use mr_ids::{AppAttempt, TaskId};
use mr_master_model::{DutyName, Phase};
use mr_names::Namespace;
use mr_packet::Envelope;
use mr_world_state::{Parts, WorldFault};

/// All packets that were ever sent, in the order of their sending.
pub fn packets(parts: &Parts) -> &[Envelope]
    ensures { (w : World) → Standing parts.now w → result.now ≡ w.bag }
{
    parts.bag.packets()
}

/// The namespace.
pub fn names(parts: &Parts) -> &Namespace
    ensures { (w : World) → Standing parts.now w → result.now.content ≡ w.content }
{
    &parts.names
}

/// How many masters were started: the newest is of this generation.
pub fn newest(parts: &Parts) -> u32
    ensures { (w : World) → Standing parts.now w → result ≡ w.fence }
{
    parts.history.fence()
}

/// The phase of the master of this generation; none where it is not alive.
pub fn phase(parts: &Parts, k: u32) -> Option<Phase>
    ensures { (w : World) → Standing parts.now w → result ≡ phase_in parts.now.config w k }
{
    let machine = parts.masters.get(k)?;
    Some(machine.phase())
}

/// The task that the master of this generation launches next, if there is one; none where it is not alive.
pub fn wanted(parts: &Parts, k: u32) -> Option<TaskId>
    ensures { (w : World) → Standing parts.now w → result ≡ wanted_in parts.now.config w k }
{
    let machine = parts.masters.get(k)?;
    machine.wanted()
}

/// How many bytes of its segment the master of this generation has not flushed; none where it is not alive.
pub fn unflushed(parts: &Parts, k: u32) -> Option<usize>
    ensures { (w : World) → Standing parts.now w → result ≡ unflushed_in w k }
{
    match parts.check_master(k) {
        Ok(app) => Some(parts.history.tail(app)),
        Err(_) => None,
    }
}

/// What the next store call of the master of this generation is for, if there is one; none where the master is
/// not alive. Its only fault is an allocation failure.
pub fn due(parts: &Parts, k: u32) -> Result<Option<DutyName>, WorldFault>
    ensures is { IfOk result (λ due. (w : World) → Standing parts.now w → due ≡ due_in parts.now.config w k) }
    ensures memory { IfErr result (λ fault. fault ≡ WorldFault.NoMemory) }
{
    match parts.masters.get(k) {
        Some(machine) => Ok(machine.duty_name()?),
        None => Ok(None),
    }
}

/// The stable bytes of the segment of this generation; none where its master was not started.
pub fn stable(parts: &Parts, k: u32) -> &[u8]
    ensures bytes { result.now ≡ stable_bytes parts.now.history k }
    ensures stable { (w : World) → Standing parts.now w → k ≤ w.fence → records_of result.now ≡ (w.history k).stable }
    ensures none { (w : World) → Standing parts.now w → w.fence < k → result.now ≡ [] }
{
    let history: &History = &parts.history;
    // For the prover: the fence of a history is at most 1,000.
    let _newest = history.fence();
    match AppAttempt::new(k) {
        Some(app) if history.is_raised(app) => history.stable(app),
        _ => &[],
    }
}
