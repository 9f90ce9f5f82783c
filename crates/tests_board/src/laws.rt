//! The laws of what a world's calls answer, each called once on the world of a job that has succeeded, with ample memory.

use crate::fixtures::{TEXT, ended};
use mr_ids::{AttemptId, JobId, TaskId, TaskKind};
use mr_packet::Packet;
use mr_world::{VisibleFile, World};
use mr_world_events::Event;
use mr_world_laws::{
    Told, files_stay_after_the_outcome, marked_files_stay, marker_stays, outcome_stays,
    success_means_marker, told_winner_is_the_winner, winner_stays,
};
use std::alloc::Global;
use std::process::Abort;

// The one reduce.
const REDUCE: TaskId = TaskId {
    job: JobId {
        start: 200707121733,
        number: 3,
    },
    kind: TaskKind::Reduce,
    number: 0,
};

// The node restarts, and a master that is not there crashes: the first is taken, the second is passed over.
fn later(rt: &impl Abort, alloc: Global) -> Vec<Event> {
    let mut events = Vec::with_capacity(alloc, 2).expect(rt, "no memory");
    let crash = Event::Crash {
        generation: 7,
        kept: 0,
    };
    events
        .push(Event::NodeRestart { node: 0 })
        .expect(rt, "no memory");
    events.push(crash).expect(rt, "no memory");
    events
}

// These are the one part file, before the events and after them.
fn are_the_file(rt: &impl Abort, told: Told<Vec<VisibleFile>>) {
    confirm!(*rt; is_the_file(&told.before));
    confirm!(*rt; is_the_file(&told.after));
    drop(told);
}

fn is_the_file(files: &[VisibleFile]) -> bool {
    files.len() == 1 && files[0].bytes.as_slice() == TEXT
}

#[test]
fn winner_is_told_again(rt: HostRuntime) {
    let rt = &rt;
    let mut world = ended(rt, rt.alloc());
    let told = winner_stays(&mut world, later(rt, rt.alloc()), REDUCE).expect(rt, "refused");
    drop(world);
    confirm!(*rt; told.before == AttemptId::new(REDUCE, 0));
    confirm!(*rt; told.after == told.before);
}

// The first packet that tells of a winner.
fn told_at(world: &World) -> Option<usize> {
    world
        .bag()
        .iter()
        .position(|envelope| matches!(envelope.body, Packet::Won { .. }))
}

#[test]
fn told_winner_is_the_recorded_one(rt: HostRuntime) {
    let rt = &rt;
    let world = ended(rt, rt.alloc());
    let place = told_at(&world).expect(rt, "no winner is told");
    let winners = told_winner_is_the_winner(&world, place).expect(rt, "refused");
    drop(world);
    let (told, recorded) = winners.expect(rt, "no winner");
    confirm!(*rt; recorded == AttemptId::new(REDUCE, 0));
    confirm!(*rt; recorded == Some(told));
}

#[test]
fn marker_is_seen_again(rt: HostRuntime) {
    let rt = &rt;
    let mut world = ended(rt, rt.alloc());
    let told = marker_stays(&mut world, later(rt, rt.alloc())).expect(rt, "refused");
    drop(world);
    confirm!(*rt; told.before);
    confirm!(*rt; told.after);
}

#[test]
fn marked_files_are_seen_again(rt: HostRuntime) {
    let rt = &rt;
    let mut world = ended(rt, rt.alloc());
    let told = marked_files_stay(&mut world, later(rt, rt.alloc())).expect(rt, "refused");
    drop(world);
    are_the_file(rt, told.expect(rt, "no marker"));
}

#[test]
fn files_are_seen_again_after_the_outcome(rt: HostRuntime) {
    let rt = &rt;
    let mut world = ended(rt, rt.alloc());
    let told = files_stay_after_the_outcome(&mut world, later(rt, rt.alloc())).expect(
        rt, "refused",
    );
    drop(world);
    are_the_file(rt, told.expect(rt, "no outcome"));
}

#[test]
fn outcome_is_told_again(rt: HostRuntime) {
    let rt = &rt;
    let mut world = ended(rt, rt.alloc());
    let told = outcome_stays(&mut world, later(rt, rt.alloc())).expect(rt, "refused");
    drop(world);
    confirm!(*rt; told.before == Some(true));
    confirm!(*rt; told.after == Some(true));
}

#[test]
fn success_is_told_of_a_marked_world(rt: HostRuntime) {
    let rt = &rt;
    let world = ended(rt, rt.alloc());
    let (outcome, marker) = success_means_marker(&world).expect(rt, "refused");
    drop(world);
    confirm!(*rt; outcome == Some(true));
    confirm!(*rt; marker);
}
