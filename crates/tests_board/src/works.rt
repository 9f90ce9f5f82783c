//! Works that are taken off a board, done, and handed in.

use crate::fixtures::{BLOCK, ShutGate, Table, container, opened};
use mr_board::Finished;
use mr_ids::Bytes;
use mr_jobs::WordCount;
use mr_mapside::WorkFault;
use mr_packet::ContainerId;
use mr_user::GateFault;
use mr_world::WorldFault;
use mr_world_events::{Event, Why};
use std::alloc::Global;
use std::process::Abort;

// Whether the event hands in the map's block.
fn is_the_block(event: &Event, c: &ContainerId) -> bool {
    match event {
        Event::Computed { container, bytes } => {
            *container == *c && bytes.as_slice() == BLOCK.as_slice()
        }
        _ => false,
    }
}

// A table at which the map is to be computed.
fn launched(rt: &impl Abort, alloc: Global, text: &[u8]) -> Table {
    let mut table = opened(rt, alloc, text);
    table.launches_the_map(rt);
    table
}

// The nodes' seat made one event, which hands in the map's block, and it is the newest of the journal.
fn is_handed_in(rt: &impl Abort, table: &Table, c: &ContainerId) {
    let made = table.nodes.made();
    assert!(rt; made.len() == 1);
    confirm!(*rt; is_the_block(&made[0], c));
    let newest = table.board.world().journal().last();
    confirm!(*rt; is_the_block(newest.expect(rt, "no event"), c));
}

// There is no work of the container, for this reason.
fn has_no_work(rt: &impl Abort, alloc: Global, table: &Table, c: &ContainerId, why: Why) {
    let fault = table.board.work(alloc, c).err();
    confirm!(*rt; fault == Some(WorldFault::NotNow(why)), &fault);
}

// The work is handed in, or refused so.
fn hands_in(
    rt: &impl Abort,
    table: &mut Table,
    work: &Finished<WordCount>,
    want: Result<usize, WorldFault>,
) {
    let answer = table.hands_in(rt, work);
    confirm!(*rt; answer == want, &answer);
}

// What comes of a work that is not taken now.
fn not_now(why: Why) -> Result<usize, WorldFault> {
    Err(WorldFault::NotNow(why))
}

// A work is done outside the board and taken once: its event stands in the journal and in the list of the seat. Then its container does not compute.
#[test]
fn work_is_taken_once(rt: HostRuntime) {
    let rt = &rt;
    let alloc = rt.alloc();
    let mut table = launched(rt, alloc, b"a b a");
    let c = container(rt, 0);
    let work = table.done_at(rt, alloc, &c);
    hands_in(rt, &mut table, &work, Ok(0));
    is_handed_in(rt, &table, &c);
    hands_in(rt, &mut table, &work, not_now(Why::WrongWish));
    drop(work);
    confirm!(*rt; table.nodes.made().len() == 1);
    has_no_work(rt, alloc, &table, &c, Why::WrongWish);
    drop(table);
}

// A work is given away, or refused so.
fn gives_in(
    rt: &impl Abort,
    table: &mut Table,
    work: Finished<WordCount>,
    want: Result<usize, WorldFault>,
) {
    let answer = table.board.hand_in_as(&mut table.nodes, work);
    let count = answer.map(|took| took.count);
    confirm!(*rt; count == want, &count);
}

// A work is given away: its event stands in the journal and in the list of the seat. One that comes too late changes nothing.
#[test]
fn work_is_given_away_once(rt: HostRuntime) {
    let rt = &rt;
    let alloc = rt.alloc();
    let mut table = launched(rt, alloc, b"a b a");
    let c = container(rt, 0);
    let work = table.done_at(rt, alloc, &c);
    let late = table.done_at(rt, alloc, &c);
    gives_in(rt, &mut table, work, Ok(0));
    is_handed_in(rt, &table, &c);
    gives_in(rt, &mut table, late, not_now(Why::WrongWish));
    confirm!(*rt; table.nodes.made().len() == 1);
    drop(table);
}

// A container that died takes nothing.
#[test]
fn work_of_a_dead_container_is_refused(rt: HostRuntime) {
    let rt = &rt;
    let alloc = rt.alloc();
    let mut table = launched(rt, alloc, b"a b a");
    let c = container(rt, 0);
    let work = table.done_at(rt, alloc, &c);
    table.takes(rt, Event::Die { container: c });
    hands_in(rt, &mut table, &work, not_now(Why::NoContainer));
    drop(work);
    confirm!(*rt; table.nodes.made().is_empty());
    has_no_work(rt, alloc, &table, &c, Why::NoContainer);
    drop(table);
}

// What was made of one split is not taken where the same container is to compute another.
#[test]
fn work_of_another_input_is_refused(rt: HostRuntime) {
    let rt = &rt;
    let alloc = rt.alloc();
    let mut one = launched(rt, alloc, b"a b a");
    let mut other = launched(rt, alloc, b"a b b");
    let work = one.done_at(rt, alloc, &container(rt, 0));
    hands_in(rt, &mut other, &work, not_now(Why::WrongWish));
    confirm!(*rt; other.nodes.made().is_empty());
    drop(other);
    hands_in(rt, &mut one, &work, Ok(0));
    drop(work);
    drop(one);
}

// Computed bytes are not applied as an event, whatever they are.
#[test]
fn computed_is_not_applied(rt: HostRuntime) {
    let rt = &rt;
    let alloc = rt.alloc();
    let mut table = launched(rt, alloc, b"a b a");
    let bytes = Bytes::from_slice(alloc, BLOCK.as_slice()).expect(rt, "no memory");
    let container = container(rt, 0);
    let before = table.look();
    let event = Event::Computed { container, bytes };
    let fault = table.board.apply_as(&mut table.nodes, event).err();
    confirm!(*rt; fault == Some(WorldFault::NotNow(Why::WrongWish)), &fault);
    confirm!(*rt; table.look() == before);
    drop(table);
}

// A gate that lets no work pass.
#[test]
fn shut_gate_refuses_the_work(rt: HostRuntime) {
    let rt = &rt;
    let alloc = rt.alloc();
    let table = launched(rt, alloc, b"a b a");
    let work = table
        .board
        .work(alloc, &container(rt, 0))
        .expect(rt, "refused");
    drop(table);
    let fault = work.run(alloc, &WordCount, &ShutGate).err();
    confirm!(*rt; fault == Some(WorkFault::Gate(GateFault::Spent)), &fault);
}

// An event that the world refuses is refused with the world's answer, and is in no list.
#[test]
fn refused_event_is_in_no_list(rt: HostRuntime) {
    let rt = &rt;
    let mut table = opened(rt, rt.alloc(), b"a b a");
    let event = Event::Start {
        generation: 2,
        kept: 0,
    };
    let fault = table.board.apply_as(&mut table.masters, event).err();
    confirm!(*rt; fault == Some(WorldFault::NotNow(Why::WrongGeneration)), &fault);
    confirm!(*rt; table.look() == [0; 4]);
    drop(table);
}
