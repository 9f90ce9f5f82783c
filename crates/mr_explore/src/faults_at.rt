//! What may befall a run where it is.
ghost use Rattle.std.specs.Prelude.{◌≡◌, ◌++◌, slice_get, IfOk, OnOk};
ghost use Rattle.std.specs.List.{flat_map};
ghost use Rattle.mr_explore_faults.specs.Kinds.{of_kept};
ghost use Rattle.mr_play.specs.mr_world.specs.Histories.{stable_bytes};
ghost use Rattle.mr_play.specs.mr_world.specs.Journal.{history_in, world_in};
ghost use Rattle.mr_explore.specs.Faults.{ends_behind, of_event};
ghost use Rattle.mr_explore.specs.inner.Players.{faults_in, kept_after, kept_of, listed_in, next_in, of_crashes_in, of_world_in};

use crate::going::go_further;
use crate::vain::living;
use mr_explore_faults::{
    Fault, add_of_bag, add_of_containers, add_of_ends, add_of_kept, add_of_nodes, add_of_tasks,
    without_next,
};
use mr_ids::TaskKind;
use mr_play::mr_world::World;
use mr_play::{Player, PlayerFault};
use mr_world_events::{Event, Weather};
use std::alloc::{AllocError, Global};
use std::collections::LinkedList;

/// All that may be tried where the run is, in the order in which it is tried.
pub fn faults_at(
    alloc: Global,
    player: &Player,
    deep: bool,
) -> Result<LinkedList<Fault>, AllocError>
    ensures { IfOk result (λ faults. faults ≡ faults_in deep player.now) }
{
    let next = next_event(alloc, player, deep)?;
    let faults = listed(alloc, player, &next)?;
    Ok(without_next(alloc, faults, &next)?)
}

// The same, and what comes next anyway.
fn listed(
    alloc: Global,
    player: &Player,
    next: &Option<Event>,
) -> Result<LinkedList<Fault>, AllocError>
    ensures { IfOk result (λ faults. faults ≡ listed_in player.now next.now) }
{
    let mut faults = LinkedList::new(alloc);
    add_of_event(&mut faults, next)?;
    add_of_world(&mut faults, player)?;
    add_of_crashes(alloc, &mut faults, player)?;
    Ok(faults)
}

// A packet once more, the end of a container, faults of a node, and attempts of a task.
fn add_of_world(faults: &mut LinkedList<Fault>, player: &Player) -> Result<(), AllocError>
    ensures { OnOk result (faults.new ≡ faults.old ++ of_world_in player.now) }
{
    let world = &player.world;
    add_of_bag(faults, world.journal(), world.bag().len() as u64)?;
    add_of_containers(faults, &living(world)?)?;
    let config = world.config();
    config.ranges();
    add_of_nodes(faults, config.nodes)?;
    let maps = config.splits.len() as u32;
    add_of_tasks(faults, &config.job, TaskKind::Map, maps, config.nodes)?;
    add_of_tasks(
        faults,
        &config.job,
        TaskKind::Reduce,
        config.reduces,
        config.nodes,
    )?;
    Ok(())
}

// A crash of the newest master, and its being superseded.
fn add_of_crashes(
    alloc: Global,
    faults: &mut LinkedList<Fault>,
    player: &Player,
) -> Result<(), AllocError>
    ensures { OnOk result (faults.new ≡ faults.old ++ of_crashes_in player.now) }
{
    add_of_kept(faults, 0)?;
    add_of_unflushed(alloc, faults, player)
}

// A store call that fails, or a packet that is passed over.
fn add_of_event(faults: &mut LinkedList<Fault>, next: &Option<Event>) -> Result<(), AllocError>
    ensures { OnOk result (faults.new ≡ faults.old ++ of_event next.now) }
{
    match next {
        Some(Event::Duty { .. }) => {
            faults.push_back(Fault::Duty(Weather::Unavailable))?;
            faults.push_back(Fault::Duty(Weather::Unanswered))?;
            Ok(())
        }
        Some(Event::ContainerStep { container, .. }) => {
            faults.push_back(Fault::Step(*container, Weather::Unavailable))?;
            faults.push_back(Fault::Step(*container, Weather::Unanswered))?;
            Ok(())
        }
        Some(Event::Deliver { packet }) => {
            faults.push_back(Fault::Lost(*packet))?;
            Ok(())
        }
        _ => Ok(()),
    }
}

// The event that the run makes next by itself.
fn next_event(alloc: Global, player: &Player, deep: bool) -> Result<Option<Event>, AllocError>
    ensures { IfOk result (λ event. event ≡ next_in deep player.now) }
{
    let mut ahead = player.fork(alloc)?;
    next_of(alloc, &mut ahead, deep)
}

// The same. The player makes it.
fn next_of(alloc: Global, ahead: &mut Player, deep: bool) -> Result<Option<Event>, AllocError>
    ensures { IfOk result (λ event. event ≡ next_in deep ahead.old) }
{
    let place = ahead.world.journal().len();
    match go_further(alloc, ahead, deep) {
        Ok(true) => event_at(&ahead.world, place),
        Ok(false) | Err(PlayerFault::Full) => Ok(None),
        Err(PlayerFault::NoMemory) => Err(AllocError),
    }
}

fn event_at(world: &World, place: usize) -> Result<Option<Event>, AllocError>
    ensures { IfOk result (λ event. event ≡ slice_get world.now.events place) }
{
    match world.journal().get(place) {
        Some(event) => Ok(Some(event.copy()?)),
        None => Ok(None),
    }
}

// What the newest master did not flush stays up to the end of one of its records.
fn add_of_unflushed(
    alloc: Global,
    faults: &mut LinkedList<Fault>,
    player: &Player,
) -> Result<(), AllocError>
    ensures { OnOk result (faults.new ≡ faults.old ++ flat_map of_kept (kept_of player.now)) }
{
    let k = player.world.newest();
    match player.world.unflushed(k) {
        Some(unflushed) => add_of_tail(alloc, faults, player, k, unflushed as u64),
        None => Ok(()),
    }
}

// The same, where master `k` is alive and has `unflushed` bytes that it did not flush.
fn add_of_tail(
    alloc: Global,
    faults: &mut LinkedList<Fault>,
    player: &Player,
    k: u32,
    unflushed: u64,
) -> Result<(), AllocError>
    ensures { OnOk result (faults.new ≡ faults.old ++ flat_map of_kept (kept_after player.now k unflushed)) }
{
    let mut ahead = player.fork(alloc)?;
    let crash = Event::Crash {
        generation: k,
        kept: unflushed,
    };
    if ahead.tell(crash)? {
        add_of_stable(faults, &player.world, &ahead.world, k)
    } else {
        Ok(())
    }
}

// The same, of what is stable in a world and was not in another.
fn add_of_stable(
    faults: &mut LinkedList<Fault>,
    before: &World,
    after: &World,
    k: u32,
) -> Result<(), AllocError>
    ensures { OnOk result (faults.new ≡ faults.old ++ flat_map of_kept (ends_behind (stable_bytes (history_in before.now) k) (stable_bytes (history_in after.now) k))) }
{
    let whole = before.stable(k).len();
    match after.stable(k).get(whole..) {
        Some(bytes) => Ok(add_of_ends(faults, bytes)?),
        None => Ok(()),
    }
}
