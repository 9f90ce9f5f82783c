//! The outcome of the job: the first that is told is the only one, and a success is told only where the marker is.
ghost use Rattle.std.specs.Prelude.{◌≡◌, ◌⊎◌, true, IfErr, IfOk, IsSome, OnOk, Some};
ghost use Rattle.mr_world.specs.Applying.{Ran};
ghost use Rattle.mr_world_laws.specs.Runs.{marker_in, outcome_in, EndedAt};
ghost use Rattle.mr_world.specs.mr_world_state.specs.declared.fault.WorldFault.TheVariants.{Full, NoMemory};

use crate::told::Told;
use mr_world::{World, WorldFault};
use mr_world_events::Event;

/// An outcome that was told is told again, whatever happens in between.
///
/// Refusals: `Full` or `NoMemory`, those of `World::run`. The events before the one that was refused so have happened then.
#[tactic(auto, using(crate::proofs::Again::outcome_again, crate::proofs::Again::run_refused))]
pub fn outcome_stays(
    world: &mut World,
    events: Vec<Event>,
) -> Result<Told<Option<bool>>, WorldFault>
    ensures stays { IfOk result (λ told. IsSome told.before → told.after ≡ told.before) }
    ensures before { IfOk result (λ told. told.before ≡ outcome_in world.old) }
    ensures after { IfOk result (λ told. told.after ≡ outcome_in world.new) }
    ensures ran { OnOk result (Ran world.old events.items world.new) }
    ensures ended { IfErr result (λ fault. EndedAt world.old events.items fault world.new) }
    ensures fault { IfErr result (λ fault. (fault ≡ WorldFault.Full) ⊎ (fault ≡ WorldFault.NoMemory)) }
{
    let before = world.outcome();
    world.run(events)?;
    let after = world.outcome();
    Ok(Told { before, after })
}

/// The outcome, and whether the success marker is there: where success was told, it is.
///
/// Its only fault is an allocation failure.
#[tactic(auto, using(crate::proofs::Again::success_marked))]
pub fn success_means_marker(world: &World) -> Result<(Option<bool>, bool), WorldFault>
    ensures marked { IfOk result (λ told. told.0 ≡ Some true → told.1 ≡ true) }
    ensures outcome { IfOk result (λ told. told.0 ≡ outcome_in world.now) }
    ensures marker { IfOk result (λ told. told.1 ≡ marker_in world.now) }
    ensures memory { IfErr result (λ fault. fault ≡ WorldFault.NoMemory) }
{
    let outcome = world.outcome();
    let marker = world.marker()?;
    Ok((outcome, marker))
}
