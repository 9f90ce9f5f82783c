//! What is read of a world, and a list of events.

use crate::again::{
    applied, are_alike, asks, due, found_alike, is_marked, living, shown, winner, winners,
    world_copied,
};
use crate::events::{crash, start, store_call};
use crate::fixtures::{Stop, started, world};
use crate::masters::{JOB, REDUCE, container};
use mr_container::Wish;
use mr_ids::Bytes;
use mr_master_model::{DutyName, Phase};
use mr_packet::ContainerId;
use mr_world::{Input, Splits, World};
use mr_world_events::Event;
use std::alloc::{AllocError, Global};
use std::process::Abort;

// Master 1 starts and crashes, and the next one starts, after a call of one that is not there.
fn listed(alloc: Global) -> Result<Vec<Event>, AllocError> {
    let mut events = Vec::with_capacity(alloc, 4)?;
    events.push(start(1))?;
    events.push(store_call(2))?;
    events.push(crash(1, 0))?;
    events.push(start(2))?;
    Ok(events)
}

// It.
fn list(rt: &impl Abort, alloc: Global) -> Vec<Event> {
    match listed(alloc) {
        Ok(events) => events,
        Err(_) => listed(alloc).expect(rt, "no memory"),
    }
}

// A list of events: what is not permitted is passed over. So where memory is refused the same list goes on from there: what was taken of
// it is passed over.
#[test]
fn runs_a_list(rt: HostRuntime) {
    let rt = &rt;
    let alloc = rt.alloc();
    let mut world = world(rt, alloc, 2);
    if world.run(list(rt, alloc)).is_err() {
        confirm!(rt; world.journal().len() < 3);
        confirm!(rt; world.run(list(rt, alloc)).is_ok());
    }
    confirm_eq!(rt; world.journal().len(), 3);
    confirm_eq!(rt; world.newest(), 2);
    confirm_eq!(rt; world.config().nodes, 2);
    confirm!(rt; world.phase(1).is_none());
    confirm_eq!(rt; world.phase(2), Some(Phase::Opening));
    confirm_eq!(rt; due(rt, &world, 2), Some(DutyName::Marks));
    drop(world);
}

// What a config tells of its job, and what its splits give.
#[test]
fn config_tells_its_job(rt: HostRuntime) {
    let rt = &rt;
    let world = world(rt, rt.alloc(), 2);
    let config = world.config();
    config.ranges();
    confirm_eq!(rt; config.job_id(), JOB);
    confirm_eq!(rt; config.reduce_count(), 1);
    confirm_eq!(rt; config.maps(), 1);
    has(rt, config.split(0), Some(b"a b a"));
    has(rt, config.split(1), None);
    drop(world);
}

// The split has these bytes, or there is none.
fn has(rt: &impl Abort, split: Option<&Bytes>, want: Option<&[u8]>) {
    let items = split.map(|split| split.as_slice());
    confirm_eq!(rt; items, want);
}

// A copy of a config is equal to it, and differs from that of a job on fewer nodes.
#[test]
fn configs_are_copied_and_compared(rt: HostRuntime) {
    let rt = &rt;
    let alloc = rt.alloc();
    let world = world(rt, alloc, 2);
    let copy = match world.config().copy() {
        Ok(copy) => copy,
        Err(_) => world.config().copy().expect(rt, "no memory"),
    };
    confirm_eq!(rt; copy, *world.config());
    let other = started(rt, alloc, 1).world;
    confirm!(rt; copy != *other.config());
    drop(other);
    drop(copy);
    drop(world);
}

#[test]
fn splits_are_in_order(rt: HostRuntime) {
    let rt = &rt;
    let alloc = rt.alloc();
    let mut items = Vec::with_capacity(alloc, 2).expect(rt, "no memory");
    for bytes in &[b"a b".as_slice(), b"".as_slice()] {
        let split = Bytes::from_slice(alloc, bytes).expect(rt, "no memory");
        items.push(split).expect(rt, "no memory");
    }
    let splits = Splits::from_vec(items);
    confirm_eq!(rt; splits.len(), 2);
    confirm_eq!(rt; splits.as_slice().len(), 2);
    has(rt, splits.get(0), Some(b"a b"));
    has(rt, splits.get(1), Some(b""));
    has(rt, splits.get(2), None);
    confirm_eq!(rt; splits.into_vec().len(), 2);
}

// The first container of a job asks for its split.
#[test]
fn container_asks(rt: HostRuntime) {
    let rt = &rt;
    let alloc = rt.alloc();
    let mut run = started(rt, alloc, 1);
    run.calms(rt, alloc, Stop::BeforeStep);
    let world = &run.world;
    confirm_eq!(rt; world.phase(1), Some(Phase::Running));
    confirm!(rt; world.wanted(1).is_none());
    confirm_eq!(rt; world.launches(), 1);
    lives(rt, world, container(rt, 0));
    let other = container(rt, 1);
    confirm!(rt; world.place(&other).is_none());
    confirm!(rt; world.input(&other).is_none());
    drop(run);
}

// The container alone lives, on node 0 in its first incarnation, and asks for the split.
fn lives(rt: &impl Abort, world: &World, c: ContainerId) {
    confirm_eq!(rt; world.wish(&c), Some(Wish::Compute));
    let place = world.place(&c).expect(rt, "no place");
    confirm!(rt; place.node == 0 && place.incarnation == 1);
    confirm_eq!(rt; living(rt, world).as_slice(), [c].as_slice());
    confirm_eq!(rt; world.next_living(Some(c)), Some(c));
    match world.input(&c) {
        Some(Input::Map { split: 0, bytes }) => has(rt, Some(bytes), Some(b"a b a")),
        _ => panic!(rt; "no input"),
    }
}

// Of the line of a version 2 segment and of the record of a start nothing is stable before a flush.
#[test]
fn records_wait_for_a_flush(rt: HostRuntime) {
    let rt = &rt;
    let alloc = rt.alloc();
    let mut run = started(rt, alloc, 1);
    run.calms(rt, alloc, Stop::BeforeStep);
    let started =
        b"{\"version\":2}\n{\"attempt\":\"attempt_200707121733_0003_m_000000_0\",\"event\":\"started\",\"node\":0}\n";
    confirm_eq!(rt; run.world.unflushed(1), Some(started.len()));
    confirm!(rt; run.world.stable(1).is_empty());
    run.calms(rt, alloc, Stop::Never);
    confirm_eq!(rt; run.world.unflushed(1), Some(0));
    confirm!(rt; run.world.stable(1).starts_with(started.as_slice()));
    confirm!(rt; winner(rt, &run.world, REDUCE).is_some());
    drop(run);
}

// Of a job whose master has just begun: its reduce has no winner, no marker and no file is there, and the master is to make a call.
#[test]
fn job_that_began(rt: HostRuntime) {
    let rt = &rt;
    let world = started(rt, rt.alloc(), 2).world;
    confirm_eq!(rt; winners(rt, &world).as_slice(), [None].as_slice());
    confirm!(rt; !is_marked(rt, &world));
    confirm!(rt; shown(rt, &world).is_empty());
    confirm!(rt; asks(rt, &world, &store_call(1)));
    confirm!(rt; !asks(rt, &world, &crash(1, 0)));
    drop(world);
}

// A copy of a world in the midst of its job goes on as the world itself does, up to the marker. What the one takes the other does not.
#[test]
fn worlds_are_copied(rt: HostRuntime) {
    let rt = &rt;
    let alloc = rt.alloc();
    let mut run = started(rt, alloc, 2);
    run.calms(rt, alloc, Stop::BeforeWrite);
    let mut other = run.copied(rt);
    are_alike(rt, &run.world, &other.world);
    let taken = run.world.journal().len();
    run.calms(rt, alloc, Stop::Never);
    confirm_eq!(rt; other.world.journal().len(), taken);
    confirm!(rt; !found_alike(rt, &run.world, &other.world));
    other.calms(rt, alloc, Stop::Never);
    are_alike(rt, &run.world, &other.world);
    confirm!(rt; is_marked(rt, &other.world));
    confirm_eq!(rt; shown(rt, &other.world).len(), 1);
    drop(other);
    drop(run);
}

// A node restarts.
fn restarts(rt: &impl Abort, world: &mut World, node: u32) {
    let took = applied(rt, world, Event::NodeRestart { node });
    confirm!(rt; took.is_ok());
}

// Two nodes restart, in the one order and in the other: the worlds are alike, though not before both have.
#[test]
fn order_of_restarts_is_the_same(rt: HostRuntime) {
    let rt = &rt;
    let alloc = rt.alloc();
    let mut world = started(rt, alloc, 2).world;
    let mut other = world_copied(rt, &world);
    restarts(rt, &mut world, 0);
    confirm!(rt; !found_alike(rt, &world, &other));
    restarts(rt, &mut other, 1);
    confirm!(rt; !found_alike(rt, &world, &other));
    restarts(rt, &mut world, 1);
    restarts(rt, &mut other, 0);
    confirm!(rt; found_alike(rt, &world, &other));
    confirm_eq!(rt; other.launches(), 0);
    drop(other);
    drop(world);
}
