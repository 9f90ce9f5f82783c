//! An event happens to the parts, or is looked at. Whether the journal has room for it is told here too.
ghost use Rattle.std.specs.Prelude.{◌≡◌, ◌<◌, IfErr, IfOk, OnOk, length, vec_capacity, vec_len};
ghost use Rattle.mr_world_model.specs.World.{World, Compute};
ghost use Rattle.mr_world_state.specs.Histories.{LeavesHistory};
ghost use Rattle.mr_world_state.specs.Standing.{Standing, Tries};
ghost use Rattle.mr_world.specs.Applying.{Counts, ForetellsAt, RefusesAt, foretold_at};

use crate::limits::MAX_EVENTS;
use crate::took::Took;
use mr_packet::{Bytes, ContainerId};
use mr_world_events::Event;
use mr_world_state::{Parts, WorldFault};

/// An event happens: which packets it added to the bag.
pub fn take(parts: &mut Parts, event: &Event) -> Result<Took, WorldFault>
    requires { (w : World) × Standing parts.old w }
    ensures tries { Tries parts.old event.now result parts.new }
    ensures config { parts.new.config ≡ parts.old.config }
    ensures history { LeavesHistory parts.old event.now result parts.new }
    ensures counts { IfOk result (λ took. (w : World) → Standing parts.old w → Counts parts.old w event.now took) }
{
    let first = parts.bag.len();
    parts.happen(event)?;
    Ok(Took {
        first,
        count: parts.bag.len() - first,
    })
}

/// Whether an event can happen now, with a journal of `journaled` events.
pub fn foresee(parts: &Parts, journaled: usize, event: &Event) -> Result<(), WorldFault>
    ensures { ForetellsAt parts.now journaled event.now result }
{
    let looked = parts.check(event);
    if journaled < MAX_EVENTS {
        return looked;
    }
    match looked {
        Err(WorldFault::NotNow(why)) => Err(WorldFault::NotNow(why)),
        _ => Err(WorldFault::Full),
    }
}

/// Whether these bytes can be handed in to the container now, with a journal of `journaled` events. It takes no
/// memory, so it never wants for any.
pub fn foresee_computed(
    parts: &Parts,
    journaled: usize,
    c: &ContainerId,
    bytes: &Bytes,
) -> Result<(), WorldFault>
    ensures { (w : World) → Standing parts.now w → result ≡ foretold_at parts.now w journaled (Compute c.now bytes.now) }
{
    match parts.check_computed(c, bytes) {
        Ok(()) if journaled < MAX_EVENTS => Ok(()),
        Err(WorldFault::NotNow(why)) => Err(WorldFault::NotNow(why)),
        Err(WorldFault::NoMemory) => unreachable!(),
        Ok(_) | Err(WorldFault::Full) => Err(WorldFault::Full),
    }
}

/// Makes room for one event more in the journal. Where there is none, the event is refused for what `foresee` would
/// refuse it for, else for want of memory. Nothing changes.
pub fn make_room(parts: &Parts, journal: &mut Vec<Event>, event: &Event) -> Result<(), WorldFault>
    ensures kept { journal.new.items ≡ journal.old.items }
    ensures few { OnOk result (length journal.old.items < MAX_EVENTS) }
    ensures room { OnOk result (vec_len journal.new < vec_capacity journal.new) }
    ensures refused { IfErr result (λ fault. RefusesAt parts.now (length journal.old.items) event.now fault) }
{
    if journal.len() < MAX_EVENTS && journal.reserve(1).is_ok() {
        return Ok(());
    }
    foresee(parts, journal.len(), event)?;
    Err(WorldFault::NoMemory)
}
