//! Calls that are made again where memory was refused: the world is as it was, and goes on from there as if nothing had been.

use mr_ids::{AttemptId, TaskId};
use mr_master_model::{DutyName, Phase};
use mr_packet::ContainerId;
use mr_world::{Took, VisibleFile, World, WorldFault};
use mr_world_events::Event;
use std::process::Abort;

/// What is read of a world without memory, of its newest master where it is of a master.
#[derive(Clone, Copy, PartialEq, Eq)]
struct Look {
    journal: usize,
    bag: usize,
    newest: u32,
    phase: Option<Phase>,
    wanted: Option<TaskId>,
    stable: usize,
    unflushed: Option<usize>,
    outcome: Option<bool>,
    living: Option<ContainerId>,
}

impl Look {
    fn at(world: &World) -> Look {
        let newest = world.newest();
        Look {
            journal: world.journal().len(),
            bag: world.bag().len(),
            newest,
            phase: world.phase(newest),
            wanted: world.wanted(newest),
            stable: world.stable(newest).len(),
            unflushed: world.unflushed(newest),
            outcome: world.outcome(),
            living: world.next_living(None),
        }
    }
}

/// A copy of the event.
fn copied(rt: &impl Abort, event: &Event) -> Event {
    match event.copy() {
        Ok(copy) => copy,
        Err(_) => event.copy().expect(rt, "no memory"),
    }
}

/// What comes of the event. Where memory is refused, journal, bag and readings are as before, and it is applied again.
pub fn applied(rt: &impl Abort, world: &mut World, event: Event) -> Result<Took, WorldFault> {
    let before = Look::at(world);
    let copy = copied(rt, &event);
    match world.apply(event) {
        Err(WorldFault::NoMemory) => {
            let after = Look::at(world);
            confirm!(rt; after == before);
            world.apply(copy)
        }
        answer => answer,
    }
}

/// The store call that a master makes next.
pub fn due(rt: &impl Abort, world: &World, k: u32) -> Option<DutyName> {
    match world.duty(k) {
        Ok(duty) => duty,
        Err(_) => world.duty(k).expect(rt, "no memory"),
    }
}

/// The winner of a task.
pub fn winner(rt: &impl Abort, world: &World, task: TaskId) -> Option<AttemptId> {
    match world.winner(task) {
        Ok(winner) => winner,
        Err(_) => world.winner(task).expect(rt, "no memory"),
    }
}

/// The containers that live.
pub fn living(rt: &impl Abort, world: &World) -> Vec<ContainerId> {
    match world.living() {
        Ok(living) => living,
        Err(_) => world.living().expect(rt, "no memory"),
    }
}

/// The winner of each reduce.
pub fn winners(rt: &impl Abort, world: &World) -> Vec<Option<AttemptId>> {
    match world.winners() {
        Ok(winners) => winners,
        Err(_) => world.winners().expect(rt, "no memory"),
    }
}

/// Whether the success marker is there.
pub fn is_marked(rt: &impl Abort, world: &World) -> bool {
    match world.marker() {
        Ok(marker) => marker,
        Err(_) => world.marker().expect(rt, "no memory"),
    }
}

/// The files that a reader sees.
pub fn shown(rt: &impl Abort, world: &World) -> Vec<VisibleFile> {
    match world.visible() {
        Ok(files) => files,
        Err(_) => world.visible().expect(rt, "no memory"),
    }
}

/// Whether the event would make a store call.
pub fn asks(rt: &impl Abort, world: &World, event: &Event) -> bool {
    let asked = match world.asks(event) {
        Ok(asked) => asked,
        Err(_) => world.asks(event).expect(rt, "no memory"),
    };
    let is_so = asked.is_some();
    drop(asked);
    is_so
}

/// A copy of the world.
pub fn world_copied(rt: &impl Abort, world: &World) -> World {
    match world.copy() {
        Ok(copy) => copy,
        Err(_) => world.copy().expect(rt, "no memory"),
    }
}

/// Whether the worlds were found to be alike.
pub fn found_alike(rt: &impl Abort, world: &World, other: &World) -> bool {
    match world.is_alike(other) {
        Ok(alike) => alike,
        Err(_) => world.is_alike(other).expect(rt, "no memory"),
    }
}

/// What is read of both is the same, and they are alike.
pub fn are_alike(rt: &impl Abort, world: &World, copy: &World) {
    confirm!(rt; found_alike(rt, world, copy));
    confirm!(rt; Look::at(copy) == Look::at(world));
    confirm_eq!(rt; copy.journal(), world.journal());
    confirm_eq!(rt; winners(rt, copy), winners(rt, world));
    confirm_eq!(rt; is_marked(rt, copy), is_marked(rt, world));
    confirm_eq!(rt; shown(rt, copy), shown(rt, world));
}
