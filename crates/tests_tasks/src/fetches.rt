//! How a reduce fetches its blocks.

use crate::containers::{fetching, gets, hears, is_told_where, machine, wishes};
use crate::fixtures::{attempt, container, node_with};
use mr_container::{ContainerMachine, Wish};
use mr_ids::TaskKind;
use mr_node::{NodeMachine, Reaction};
use mr_packet::{Bytes, Envelope, Packet};
use std::alloc::Global;
use std::process::Abort;

// It asks for bytes from this offset on.
fn asks_from(rt: &impl Abort, machine: &ContainerMachine, want: u64) {
    let offset = asked_offset(machine);
    confirm_eq!(rt; offset, Some(want));
}

// From which offset on it asks.
fn asked_offset(machine: &ContainerMachine) -> Option<u64> {
    match machine.packet() {
        Some(
            Envelope {
                to: _,
                body: Packet::Fetch { offset, .. },
            },
        ) => Some(offset),
        _ => None,
    }
}

// Its only block, once it has all and computes.
fn block<'a>(rt: &impl Abort, machine: &'a ContainerMachine) -> &'a Bytes {
    wishes(rt, machine, Wish::Compute);
    let blocks = machine.blocks();
    assert!(rt; blocks.len() == 1);
    &blocks[0]
}

// A piece of another attempt, offset or reduce does nothing.
#[test]
fn pieces_of_another(rt: HostRuntime) {
    let rt = &rt;
    let alloc = rt.alloc();
    let mut reduce = fetching(rt, alloc);
    gets(rt, alloc, &mut reduce, &(1, 0, 0, 1, b"x"));
    gets(rt, alloc, &mut reduce, &(0, 0, 1, 1, b"x"));
    gets(rt, alloc, &mut reduce, &(0, 1, 0, 1, b"x"));
    asks_from(rt, &reduce, 0);
    gets(rt, alloc, &mut reduce, &(0, 0, 0, 1, b"y"));
    confirm_eq!(rt; block(rt, &reduce).as_slice(), b"y".as_slice());
    drop(reduce);
}

// What was got before the output was lost is dropped, and the map is asked for again.
#[test]
fn lost_in_the_middle(rt: HostRuntime) {
    let rt = &rt;
    let alloc = rt.alloc();
    let mut reduce = machine(rt, alloc, TaskKind::Reduce);
    wishes(rt, &reduce, Wish::Where { map: 0 });
    is_told_where(rt, &mut reduce);
    gets(rt, alloc, &mut reduce, &(0, 0, 0, 2, b"x"));
    asks_from(rt, &reduce, 1);
    let c = container(rt, 0);
    let a = attempt(rt, TaskKind::Map, 0);
    hears(
        rt,
        &mut reduce,
        Packet::FetchLost {
            container: c,
            attempt: a,
        },
    );
    wishes(rt, &reduce, Wish::Lost { a });
    reduce.sent();
    wishes(rt, &reduce, Wish::Where { map: 0 });
    is_told_where(rt, &mut reduce);
    asks_from(rt, &reduce, 0);
    drop(reduce);
}

// A block of 0 bytes takes one piece.
#[test]
fn empty_block(rt: HostRuntime) {
    let rt = &rt;
    let alloc = rt.alloc();
    let mut reduce = fetching(rt, alloc);
    gets(rt, alloc, &mut reduce, &(0, 0, 0, 0, b""));
    confirm_eq!(rt; block(rt, &reduce).len(), 0);
    drop(reduce);
}

// The container asks the node for what it wishes to fetch, and gets the answer.
fn asks(rt: &impl Abort, node: &mut NodeMachine, machine: &mut ContainerMachine) {
    let ask = machine.packet().expect(rt, "it asks for nothing");
    match node.hear(&ask.body).expect(rt, "no memory") {
        Reaction::Adds(answer) => hears(rt, machine, answer.body),
        _ => panic!(rt; "no answer"),
    }
}

// A node with an output of so many bytes. They are zeros, but for the length of its only block.
fn node_of_zeros(rt: &impl Abort, alloc: Global, len: usize, high: u8) -> NodeMachine {
    let mut output = vec![in alloc; 0u8; len].expect(rt, "no memory");
    assert!(rt; output.len() > 3);
    output[1] = high;
    output[3] = 1;
    node_with(rt, alloc, output)
}

// A block of 65,537 bytes comes in two pieces.
#[test]
fn block_of_two_pieces(rt: HostRuntime) {
    let rt = &rt;
    let alloc = rt.alloc();
    let mut node = node_of_zeros(rt, alloc, 65_541, 1);
    let mut reduce = fetching(rt, alloc);
    asks(rt, &mut node, &mut reduce);
    asks_from(rt, &reduce, 65_536);
    asks(rt, &mut node, &mut reduce);
    confirm_eq!(rt; block(rt, &reduce).len(), 65_537);
    drop(reduce);
    drop(node);
}

// A block of more than a mebibyte comes in seventeen pieces.
#[test]
fn block_of_seventeen_pieces(rt: HostRuntime) {
    let rt = &rt;
    let alloc = rt.alloc();
    let mut node = node_of_zeros(rt, alloc, 1_048_581, 16);
    let mut reduce = fetching(rt, alloc);
    for _ in 0..17 {
        confirm!(rt; reduce.wish() != Wish::Compute);
        asks(rt, &mut node, &mut reduce);
    }
    confirm_eq!(rt; block(rt, &reduce).len(), 1_048_577);
    drop(reduce);
    drop(node);
}
