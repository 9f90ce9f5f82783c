//! What a reader of the destination sees: it is final once the marker was seen, or an outcome was told.
ghost use Rattle.std.specs.Prelude.{◌≡◌, ◌⊎◌, true, false, IfErr, IfNone, IfOk, IfSome, IsSome, None, OnOk};
ghost use Rattle.mr_world.specs.Applying.{Ran};
ghost use Rattle.mr_world_laws.specs.Runs.{marker_in, outcome_in, AreFilesIn, EndedAt};
ghost use Rattle.mr_world.specs.mr_world_state.specs.declared.fault.WorldFault.TheVariants.{Full, NoMemory};

use crate::told::Told;
use mr_world::{VisibleFile, World, WorldFault};
use mr_world_events::Event;

/// Once the success marker was seen it is seen again, whatever happens in between.
///
/// Refusals: `Full` or `NoMemory`, those of `World::run`: the events before the one that was refused so have happened then. `NoMemory` also
/// where a look at the world is refused memory.
#[tactic(auto, using(crate::proofs::Again::marker_again, crate::proofs::Again::run_refused))]
pub fn marker_stays(world: &mut World, events: Vec<Event>) -> Result<Told<bool>, WorldFault>
    ensures stays { IfOk result (λ marked. marked.before ≡ true → marked.after ≡ true) }
    ensures before { IfOk result (λ marked. marked.before ≡ marker_in world.old) }
    ensures after { IfOk result (λ marked. marked.after ≡ marker_in world.new) }
    ensures ran { OnOk result (Ran world.old events.items world.new) }
    ensures ended { IfErr result (λ fault. EndedAt world.old events.items fault world.new) }
    ensures fault { IfErr result (λ fault. (fault ≡ WorldFault.Full) ⊎ (fault ≡ WorldFault.NoMemory)) }
{
    let before = world.marker()?;
    world.run(events)?;
    let after = world.marker()?;
    Ok(Told { before, after })
}

/// Where the success marker was seen, the files that are seen stay the same, byte for byte, whatever happens then. None where it was not seen: then no event has happened.
///
/// Refusals: `Full` or `NoMemory`, those of `World::run`: the events before the one that was refused so have happened then. `NoMemory` also
/// where a look at the world is refused memory.
#[tactic(auto, using(crate::proofs::Again::marked_files_again, crate::proofs::Again::run_refused))]
pub fn marked_files_stay(
    world: &mut World,
    events: Vec<Event>,
) -> Result<Option<Told<Vec<VisibleFile>>>, WorldFault>
    ensures stay { IfOk result (λ seen. IfSome seen (λ files. files.after.items ≡ files.before.items)) }
    ensures before { IfOk result (λ seen. IfSome seen (λ files. AreFilesIn world.old files.before.items)) }
    ensures after { IfOk result (λ seen. IfSome seen (λ files. AreFilesIn world.new files.after.items)) }
    ensures some { IfOk result (λ seen. IfSome seen (λ files. (marker_in world.old ≡ true) × Ran world.old events.items world.new)) }
    ensures none { IfOk result (λ seen. IfNone seen ((marker_in world.old ≡ false) × (world.new ≡ world.old))) }
    ensures ended { IfErr result (λ fault. EndedAt world.old events.items fault world.new) }
    ensures fault { IfErr result (λ fault. (fault ≡ WorldFault.Full) ⊎ (fault ≡ WorldFault.NoMemory)) }
{
    if !world.marker()? {
        return Ok(None);
    }
    let before = world.visible()?;
    world.run(events)?;
    let after = world.visible()?;
    Ok(Some(Told { before, after }))
}

/// Where an outcome was told, a failed one too, the files that are seen stay the same, byte for byte, whatever happens then. None where none was told: then no event has
/// happened.
///
/// Refusals: `Full` or `NoMemory`, those of `World::run`: the events before the one that was refused so have happened then. `NoMemory` also
/// where a look at the world is refused memory.
#[tactic(auto, using(crate::proofs::Again::told_files_again, crate::proofs::Again::run_refused))]
pub fn files_stay_after_the_outcome(
    world: &mut World,
    events: Vec<Event>,
) -> Result<Option<Told<Vec<VisibleFile>>>, WorldFault>
    ensures stay { IfOk result (λ seen. IfSome seen (λ files. files.after.items ≡ files.before.items)) }
    ensures before { IfOk result (λ seen. IfSome seen (λ files. AreFilesIn world.old files.before.items)) }
    ensures after { IfOk result (λ seen. IfSome seen (λ files. AreFilesIn world.new files.after.items)) }
    ensures some { IfOk result (λ seen. IfSome seen (λ files. IsSome (outcome_in world.old) × Ran world.old events.items world.new)) }
    ensures none { IfOk result (λ seen. IfNone seen ((outcome_in world.old ≡ None) × (world.new ≡ world.old))) }
    ensures ended { IfErr result (λ fault. EndedAt world.old events.items fault world.new) }
    ensures fault { IfErr result (λ fault. (fault ≡ WorldFault.Full) ⊎ (fault ≡ WorldFault.NoMemory)) }
{
    if world.outcome().is_none() {
        return Ok(None);
    }
    let before = world.visible()?;
    world.run(events)?;
    let after = world.visible()?;
    Ok(Some(Told { before, after }))
}
