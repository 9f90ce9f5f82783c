//! Winners: what is told once is told for good, and nodes are told the same.
ghost use Rattle.std.specs.Prelude.{◌≡◌, ◌⊎◌, IfErr, IfNone, IfOk, IfSome, IsSome, OnOk, Some};
ghost use Rattle.mr_world_model.specs.Ids.{TaskId};
ghost use Rattle.mr_world_model.specs.Ids.{Attempt};
ghost use Rattle.mr_world.specs.Applying.{Ran};
ghost use Rattle.mr_world_laws.specs.Runs.{world_winner, EndedAt, TellsOfWinner};
ghost use Rattle.mr_world.specs.mr_world_state.specs.declared.fault.WorldFault.TheVariants.{Full, NoMemory};

use crate::told::Told;
use mr_ids::{AttemptId, TaskId};
use mr_packet::Packet;
use mr_world::{World, WorldFault};
use mr_world_events::Event;

/// A winner that was told is told again, whatever happens in between.
///
/// Refusals: `Full` or `NoMemory`, those of `World::run`: the events before the one that was refused so have happened then. `NoMemory` also
/// where a look at the world is refused memory.
#[tactic(auto, using(crate::proofs::Again::winner_again, crate::proofs::Again::run_refused))]
pub fn winner_stays(
    world: &mut World,
    events: Vec<Event>,
    task: TaskId,
) -> Result<Told<Option<AttemptId>>, WorldFault>
    ensures stays { IfOk result (λ told. IsSome told.before → told.after ≡ told.before) }
    ensures before { IfOk result (λ told. told.before ≡ world_winner world.old task) }
    ensures after { IfOk result (λ told. told.after ≡ world_winner world.new task) }
    ensures ran { OnOk result (Ran world.old events.items world.new) }
    ensures ended { IfErr result (λ fault. EndedAt world.old events.items fault world.new) }
    ensures fault { IfErr result (λ fault. (fault ≡ WorldFault.Full) ⊎ (fault ≡ WorldFault.NoMemory)) }
{
    let before = world.winner(task)?;
    world.run(events)?;
    let after = world.winner(task)?;
    Ok(Told { before, after })
}

/// The winner that the packet at this place of the bag tells of, where it is a packet that tells of one, and what `winner` answers of its task: the same.
///
/// Its only fault is an allocation failure.
#[tactic(auto, using(crate::proofs::Again::bag_winner))]
pub fn told_winner_is_the_winner(
    world: &World,
    place: usize,
) -> Result<Option<(AttemptId, Option<AttemptId>)>, WorldFault>
    ensures same { IfOk result (λ told. IfSome told (λ winners. winners.1 ≡ Some winners.0)) }
    ensures some { IfOk result (λ told. IfSome told (λ winners. (task : TaskId) × TellsOfWinner world.now place task winners.0 × (winners.1 ≡ world_winner world.now task))) }
    ensures none { IfOk result (λ told. IfNone told ((task : TaskId) (attempt : Attempt) → TellsOfWinner world.now place task attempt → ⊥)) }
    ensures memory { IfErr result (λ fault. fault ≡ WorldFault.NoMemory) }
{
    let Some(envelope) = world.bag().get(place) else {
        return Ok(None);
    };
    match envelope.body {
        Packet::Won { task, attempt } => Ok(Some((attempt, world.winner(task)?))),
        _ => Ok(None),
    }
}
