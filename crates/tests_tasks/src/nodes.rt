//! What a node launches, remembers and answers.

use crate::fixtures::{attempt, container, node_with};
use mr_ids::TaskKind;
use mr_node::{NodeMachine, Reaction};
use mr_packet::{Address, ContainerId, Envelope, Packet};
use std::alloc::Global;
use std::process::Abort;

// What comes to a node, of a container.
#[derive(Clone, Copy)]
enum Event {
    Launch,
    Kill,
    // The packet by which it is asked to kill.
    Packet,
    Died,
}

// What it does.
#[derive(Clone, Copy, Debug, PartialEq, Eq)]
enum Deed {
    Nothing,
    // It starts the container.
    Starts,
    // It tells the container's master that the container ended.
    Ended,
    // It tells that the node 7 runs in its incarnation 2.
    Up,
    // It tells something else.
    Other,
}

// These come to the node in turn, of the container of this number, each with an incarnation, and it does this.
fn hold(rt: &impl Abort, node: &mut NodeMachine, number: u32, rows: &[(Event, u32, Deed)]) {
    let c = container(rt, number);
    for (event, incarnation, want) in rows {
        let deed = comes(rt, node, &c, *event, *incarnation);
        confirm_eq!(rt; deed, *want);
    }
}

fn comes(
    rt: &impl Abort,
    node: &mut NodeMachine,
    c: &ContainerId,
    event: Event,
    incarnation: u32,
) -> Deed {
    match event {
        Event::Launch => {
            let a = attempt(rt, TaskKind::Map, 0);
            reacts(node.launch(*c, a, incarnation).expect(rt, "no memory"), c)
        }
        Event::Packet => {
            let kill = Packet::Kill { container: *c };
            reacts(node.hear(&kill).expect(rt, "no memory"), c)
        }
        Event::Kill => tells(node.kill(*c).expect(rt, "no memory"), c),
        Event::Died => tells(node.died(*c), c),
    }
}

fn reacts(reaction: Reaction, c: &ContainerId) -> Deed {
    match reaction {
        Reaction::Nothing => Deed::Nothing,
        Reaction::Starts { .. } => Deed::Starts,
        Reaction::Adds(envelope) => tells(envelope, c),
    }
}

fn tells(envelope: Envelope, c: &ContainerId) -> Deed {
    match &envelope.body {
        Packet::Ended { container: ended }
            if *ended == *c && envelope.to == Address::Master(c.app) => { Deed::Ended }
        Packet::NodeUp {
            node: 7,
            incarnation: 2,
        } => Deed::Up,
        _ => Deed::Other,
    }
}

#[test]
fn kill_before_launch(rt: HostRuntime) {
    let rt = &rt;
    let mut node = NodeMachine::new(rt.alloc(), 0, 1);
    hold(
        rt,
        &mut node,
        5,
        &[
            (Event::Kill, 1, Deed::Ended),
            (Event::Launch, 1, Deed::Nothing),
            (Event::Kill, 1, Deed::Ended),
        ],
    );
    drop(node);
}

#[test]
fn kill_twice(rt: HostRuntime) {
    let rt = &rt;
    let mut node = NodeMachine::new(rt.alloc(), 0, 1);
    hold(
        rt,
        &mut node,
        0,
        &[
            (Event::Launch, 1, Deed::Starts),
            (Event::Packet, 1, Deed::Ended),
            (Event::Packet, 1, Deed::Ended),
            (Event::Launch, 1, Deed::Nothing),
            (Event::Died, 1, Deed::Ended),
        ],
    );
    drop(node);
}

// A launch for an older or a newer incarnation is answered by the node's own, and is not remembered.
#[test]
fn launch_for_another_incarnation(rt: HostRuntime) {
    let rt = &rt;
    let app = container(rt, 0).app;
    let mut node = NodeMachine::new(rt.alloc(), 7, 1);
    node.restart();
    confirm_eq!(rt; node.number(), 7);
    confirm_eq!(rt; node.incarnation(), 2);
    confirm_eq!(rt; node.up(app).to, Address::Master(app));
    hold(
        rt,
        &mut node,
        0,
        &[
            (Event::Launch, 1, Deed::Up),
            (Event::Launch, 3, Deed::Up),
            (Event::Launch, 2, Deed::Starts),
        ],
    );
    drop(node);
}

// What is answered: a piece of a block, or that the output is lost.
#[derive(Clone, Copy, Debug, PartialEq, Eq)]
enum Is {
    Piece,
    Lost,
}

// How many bytes are answered, and of how many; none if the output is lost.
fn piece_len(envelope: &Envelope) -> (Is, usize, u64) {
    match &envelope.body {
        Packet::Piece { total, bytes, .. } => (Is::Piece, bytes.len(), *total),
        _ => (Is::Lost, 0, 0),
    }
}

// The number of an attempt at map 0, an incarnation and an offset, and what is answered.
type Fetch = (u32, u32, u64, (Is, usize, u64));

// This is answered to container 0, which asks for the block of reduce 0 in the outputs of these attempts.
fn fetches(rt: &impl Abort, node: &NodeMachine, rows: &[Fetch]) {
    for (number, incarnation, offset, want) in rows {
        let c = container(rt, 0);
        let a = attempt(rt, TaskKind::Map, *number);
        let answer = node
            .fetch(c, a, 0, *incarnation, *offset)
            .expect(rt, "no memory");
        let len = piece_len(&answer);
        confirm_eq!(rt; len, *want);
    }
}

// A node with an output of the first attempt at map 0, of these bytes.
fn node_of(rt: &impl Abort, alloc: Global, bytes: &[u8]) -> NodeMachine {
    node_with(
        rt,
        alloc,
        Vec::from_slice(alloc, bytes).expect(rt, "no memory"),
    )
}

// The block `xy`, from each offset and in each incarnation.
#[test]
fn fetch_from_an_offset(rt: HostRuntime) {
    let rt = &rt;
    let node = node_of(rt, rt.alloc(), b"\0\0\0\x02xy");
    fetches(
        rt,
        &node,
        &[
            (0, 1, 0, (Is::Piece, 2, 2)),
            (0, 1, 1, (Is::Piece, 1, 2)),
            (0, 1, 2, (Is::Piece, 0, 2)),
            (0, 1, 3, (Is::Lost, 0, 0)),
            (0, 2, 0, (Is::Lost, 0, 0)),
        ],
    );
    drop(node);
}

// An empty block is a piece, an output that is not there and one of before a restart are lost. The copy is the same until the restart.
#[test]
fn fetch_of_nothing(rt: HostRuntime) {
    let rt = &rt;
    let mut node = node_of(rt, rt.alloc(), b"\0\0\0\0");
    let copy = node.copy().expect(rt, "no memory");
    fetches(
        rt,
        &copy,
        &[(0, 1, 0, (Is::Piece, 0, 0)), (1, 1, 0, (Is::Lost, 0, 0))],
    );
    confirm!(rt; copy.is_same(&node));
    assert!(rt; node.incarnation() == 1);
    node.restart();
    confirm!(rt; !copy.is_same(&node));
    drop(copy);
    fetches(rt, &node, &[(0, 2, 0, (Is::Lost, 0, 0))]);
    drop(node);
}

#[test]
fn told_does_nothing(rt: HostRuntime) {
    let rt = &rt;
    let mut node = NodeMachine::new(rt.alloc(), 0, 1);
    node.told();
    let outcome = Packet::Outcome { succeeded: true };
    let deed = reacts(
        node.hear(&outcome).expect(rt, "no memory"),
        &container(rt, 0),
    );
    confirm_eq!(rt; deed, Deed::Nothing);
    drop(node);
}
