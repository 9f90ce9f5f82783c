//! What masters send to nodes and containers.

use crate::masters::{MAP, REDUCE, attempt, container};
use mr_packet::{Address, ContainerId, Envelope, Packet};
use std::process::Abort;

/// Whether the first attempt at the reduce is launched in container 0, in incarnation 1 of node 0.
pub fn is_launch(rt: &impl Abort, envelope: &Envelope) -> bool {
    let told = match &envelope.body {
        Packet::Launch {
            container: c,
            attempt: a,
            incarnation,
        } => { *c == container(rt, 0) && *a == attempt(rt, REDUCE, 0) && *incarnation == 1 }
        _ => false,
    };
    told && envelope.to == Address::Node(0)
}

/// Whether container 0 is told that the first attempt at the reduce may commit.
pub fn is_yes(rt: &impl Abort, envelope: &Envelope) -> bool {
    let told = match &envelope.body {
        Packet::Answer { attempt: a, yes } => *yes && *a == attempt(rt, REDUCE, 0),
        _ => false,
    };
    told && envelope.to == Address::Container(container(rt, 0))
}

/// Whether container 0 is told that its master heard of the end of the first attempt at the reduce.
pub fn is_ack(rt: &impl Abort, envelope: &Envelope) -> bool {
    let told = match &envelope.body {
        Packet::DoneAck { attempt: a } => *a == attempt(rt, REDUCE, 0),
        _ => false,
    };
    told && envelope.to == Address::Container(container(rt, 0))
}

/// Whether node 0 is asked to stop the container of this number, and nothing else is sent.
pub fn is_kill(rt: &impl Abort, packets: &[Envelope], number: u32) -> bool {
    if packets.len() != 1 {
        return false;
    }
    let told = match &packets[0].body {
        Packet::Kill { container: c } => *c == container(rt, number),
        _ => false,
    };
    told && packets[0].to == Address::Node(0)
}

/// Whether the node is told that the job failed.
pub fn is_failure(envelope: &Envelope, node: u32) -> bool {
    let told = match &envelope.body {
        Packet::Outcome { succeeded } => !*succeeded,
        _ => false,
    };
    told && envelope.to == Address::Node(node)
}

/// Whether this container is told that the map's output is attempt 1's, on node 1 in incarnation 1, and nothing else is sent.
pub fn is_ready(rt: &impl Abort, packets: &[Envelope], to: &ContainerId) -> bool {
    if packets.len() != 1 {
        return false;
    }
    let told = match &packets[0].body {
        Packet::MapReady {
            map: 0,
            attempt: a,
            node: 1,
            incarnation: 1,
        } => *a == attempt(rt, MAP, 1),
        _ => false,
    };
    told && packets[0].to == Address::Container(*to)
}
