//! Boards that are closed, with the seats that account for their journals and with others.

use crate::fixtures::{TEXT, Table, numbered, opened};
use mr_board::{Board, Seat};
use mr_jobs::WordCount;
use mr_world::World;
use mr_world_events::Event;
use std::alloc::Global;
use std::process::Abort;

// The first master starts.
fn start() -> Event {
    Event::Start {
        generation: 1,
        kept: 0,
    }
}

// A list of these seats, of those that are there.
fn listed(rt: &impl Abort, alloc: Global, some: Option<Seat>, other: Option<Seat>) -> Vec<Seat> {
    let mut seats = Vec::with_capacity(alloc, 2).expect(rt, "no memory");
    if let Some(seat) = some {
        seats.push(seat).expect(rt, "no memory");
    }
    if let Some(seat) = other {
        seats.push(seat).expect(rt, "no memory");
    }
    seats
}

// Whether the board is closed with these seats.
fn is_closed(
    rt: &impl Abort,
    alloc: Global,
    board: Board<WordCount>,
    some: Option<Seat>,
    other: Option<Seat>,
) -> bool {
    let answer = board.close(listed(rt, alloc, some, other));
    let is_so = answer.is_ok();
    drop(answer);
    is_so
}

// A board of this number whose first master started, and its seats: that of the masters, and that of the nodes.
fn started(rt: &impl Abort, alloc: Global, number: u64) -> (Board<WordCount>, Seat, Seat) {
    let mut table = numbered(rt, alloc, number, b"a b a");
    table.takes(rt, start());
    table.apart()
}

// The world of a job that succeeded, with its one file. Of its events two were made from the second seat.
fn is_run_from_two(rt: &impl Abort, world: World, by: &[u32]) {
    confirm!(*rt; world.outcome() == Some(true));
    confirm!(*rt; by.len() == world.journal().len());
    confirm!(*rt; by.iter().filter(|number| **number == 1).count() == 2);
    shows_the_file(rt, &world);
    drop(world);
}

// The one visible file is the text.
fn shows_the_file(rt: &impl Abort, world: &World) {
    let files = world.visible().expect(rt, "no memory");
    assert!(rt; files.len() == 1);
    confirm!(*rt; files[0].bytes.as_slice() == TEXT);
    drop(files);
}

// A job is run to its end from two seats, which then account for its journal, in any order.
#[test]
fn job_is_run_from_two_seats(rt: HostRuntime) {
    let rt = &rt;
    let mut table = opened(rt, rt.alloc(), b"a b a");
    table.launches_the_map(rt);
    table.calms(rt, rt.alloc());
    let (board, masters, nodes) = table.apart();
    confirm!(*rt; nodes.made().len() == 2);
    let seats = listed(rt, rt.alloc(), Some(nodes), Some(masters));
    let closed = board.close(seats).expect(rt, "a mismatch");
    let (world, by) = closed.into_parts();
    is_run_from_two(rt, world, &by);
    drop(by);
}

// The list of who made the start is missing.
#[test]
fn seat_that_made_start_is_missing(rt: HostRuntime) {
    let rt = &rt;
    let (board, masters, nodes) = started(rt, rt.alloc(), 1);
    drop(masters);
    confirm!(*rt; !is_closed(rt, rt.alloc(), board, Some(nodes), None));
}

// The seat that made the start stands there twice, once with a list from another board.
#[test]
fn seat_stands_twice(rt: HostRuntime) {
    let rt = &rt;
    let (board, masters, nodes) = started(rt, rt.alloc(), 1);
    drop(nodes);
    let (other, again, nodes) = opened(rt, rt.alloc(), b"a b a").apart();
    drop(other);
    drop(nodes);
    confirm!(*rt; !is_closed(rt, rt.alloc(), board, Some(masters), Some(again)));
}

// The start stands in the list of the other seat.
#[test]
fn lists_are_exchanged(rt: HostRuntime) {
    let rt = &rt;
    let (board, masters, nodes) = started(rt, rt.alloc(), 1);
    drop(masters);
    drop(nodes);
    let (mut other, masters, mut nodes) = opened(rt, rt.alloc(), b"a b a").apart();
    let took = other.apply_as(&mut nodes, start()).expect(rt, "refused");
    drop(other);
    confirm!(*rt; took.count == 0);
    confirm!(*rt; !is_closed(rt, rt.alloc(), board, Some(masters), Some(nodes)));
}

// A seat from which nothing was made may be missing.
#[test]
fn idle_seat_is_not_missed(rt: HostRuntime) {
    let rt = &rt;
    let (board, masters, nodes) = started(rt, rt.alloc(), 1);
    drop(nodes);
    let seats = listed(rt, rt.alloc(), Some(masters), None);
    let closed = board.close(seats).expect(rt, "a mismatch");
    confirm!(*rt; closed.world().newest() == 1);
    drop(closed);
}

// Two boards whose first master started, from the first seat of each: a board is closed with its own seat alone.
#[test]
fn seat_of_another_board(rt: HostRuntime) {
    let rt = &rt;
    let (board, masters, nodes) = started(rt, rt.alloc(), 1);
    drop(masters);
    drop(nodes);
    let (other, masters, nodes) = started(rt, rt.alloc(), 2);
    drop(other);
    drop(nodes);
    confirm!(*rt; masters.board() == 2);
    confirm!(*rt; !is_closed(rt, rt.alloc(), board, Some(masters), None));
}
