//! Events that would pass a limit: each is refused so, and nothing has changed.

use crate::events::start;
use crate::fixtures::{Run, Stop, comes_to, computes, started, world};
use crate::masters::container;
use mr_packet::Bytes;
use mr_world::{Event, Weather, WorldFault};
use std::alloc::Global;
use std::process::Abort;

// What an event comes to that would pass a limit.
const FULL: Result<(), WorldFault> = Err(WorldFault::Full);

// Fails where a thousand and first master starts, or where the thousandth does not.
#[test]
fn generations_run_out(rt: HostRuntime) {
    let rt = &rt;
    let mut world = world(rt, rt.alloc(), 1);
    for generation in 1..=1000 {
        comes_to(rt, &mut world, start(generation), Ok(()));
    }
    comes_to(rt, &mut world, start(1001), FULL);
    drop(world);
}

// So many bytes, all 0.
fn zeros(rt: &impl Abort, alloc: Global, count: usize) -> Vec<u8> {
    vec![in alloc; 0u8; count].expect(rt, "no memory")
}

// The step of container 1.
fn step(rt: &impl Abort, weather: Weather) -> Event {
    Event::ContainerStep {
        container: container(rt, 1),
        weather,
    }
}

// These are the bytes of the container of this number.
fn computed(rt: &impl Abort, number: u32, items: Vec<u8>) -> Event {
    Event::Computed {
        container: container(rt, number),
        bytes: Bytes::from_vec(items),
    }
}

// The job's reduce, in container 1, computed so many bytes and is about to write them.
fn reduce_computed(rt: &impl Abort, alloc: Global, count: usize) -> Run {
    let mut run = started(rt, alloc, 1);
    run.calms(rt, alloc, Stop::BeforeCompute);
    computes(rt, alloc, &mut run.world, container(rt, 0));
    run.calms(rt, alloc, Stop::BeforeCompute);
    let text = computed(rt, 1, zeros(rt, alloc, count));
    comes_to(rt, &mut run.world, text, Ok(()));
    run.calms(rt, alloc, Stop::BeforeWrite);
    run
}

// A part file with one byte more than a file may have is not written; a write that is not made is never too much. Fails where a file of
// 2^24 + 1 bytes is written, or where it is told as a refusal of the store.
#[test]
fn part_file_is_too_long(rt: HostRuntime) {
    let rt = &rt;
    let mut run = reduce_computed(rt, rt.alloc(), 16_777_217);
    comes_to(rt, &mut run.world, step(rt, Weather::Calm), FULL);
    comes_to(rt, &mut run.world, step(rt, Weather::Unanswered), FULL);
    comes_to(rt, &mut run.world, step(rt, Weather::Unavailable), Ok(()));
    drop(run);
}

// And the longest file that there may be is written.
#[test]
fn longest_part_file_is_written(rt: HostRuntime) {
    let rt = &rt;
    let mut run = reduce_computed(rt, rt.alloc(), 16_777_216);
    comes_to(rt, &mut run.world, step(rt, Weather::Calm), Ok(()));
    drop(run);
}

// A map's output: one block of so many bytes, behind its length, 256^2 of which are told by the second byte of the length and 256 by the
// third.
fn one_block(rt: &impl Abort, alloc: Global, length: usize, told: [u8; 4]) -> Vec<u8> {
    let mut items = Vec::from_slice(alloc, &told).expect(rt, "no memory");
    items
        .extend_from_slice(&zeros(rt, alloc, length))
        .expect(rt, "no memory");
    items
}

// One byte more than may lie on a shelf, and the most that may. Fails where an output of 2^24 + 1 bytes is taken.
#[test]
fn map_output_is_too_long(rt: HostRuntime) {
    let rt = &rt;
    let alloc = rt.alloc();
    let mut run = started(rt, alloc, 1);
    run.calms(rt, alloc, Stop::BeforeStep);
    let long = one_block(rt, alloc, 16_777_213, [0, 255, 255, 253]);
    comes_to(rt, &mut run.world, computed(rt, 0, long), FULL);
    let most = one_block(rt, alloc, 16_777_212, [0, 255, 255, 252]);
    comes_to(rt, &mut run.world, computed(rt, 0, most), Ok(()));
    drop(run);
}
