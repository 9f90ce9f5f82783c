//! Containers, and what they hear.

use crate::fixtures::{attempt, bytes_of, container};
use mr_container::{ContainerMachine, Place, Wish};
use mr_ids::TaskKind;
use mr_packet::Packet;
use std::alloc::Global;
use std::process::Abort;

/// The container 0 for the first attempt at the task 0 of this kind, on node 0, in a job of one map.
pub fn machine(rt: &impl Abort, alloc: Global, kind: TaskKind) -> ContainerMachine {
    let place = Place {
        attempt: attempt(rt, kind, 0),
        node: 0,
        incarnation: 1,
    };
    ContainerMachine::new(alloc, container(rt, 0), place, 1)
}

/// The container hears a packet.
pub fn hears(rt: &impl Abort, machine: &mut ContainerMachine, packet: Packet) {
    machine.hear(&packet).expect(rt, "no memory")
}

/// The container wishes this.
pub fn wishes(rt: &impl Abort, machine: &ContainerMachine, want: Wish) {
    let wish = machine.wish();
    confirm_eq!(rt; wish, want);
}

/// The container is told where the output of map 0 lies.
pub fn is_told_where(rt: &impl Abort, machine: &mut ContainerMachine) {
    let ready = Packet::MapReady {
        map: 0,
        attempt: attempt(rt, TaskKind::Map, 0),
        node: 0,
        incarnation: 1,
    };
    hears(rt, machine, ready);
}

/// A reduce that was told where the output of map 0 lies.
pub fn fetching(rt: &impl Abort, alloc: Global) -> ContainerMachine {
    let mut reduce = machine(rt, alloc, TaskKind::Reduce);
    is_told_where(rt, &mut reduce);
    reduce
}

/// A piece of a block: the number of the map's attempt, the reduce, the offset, the length of the whole block, and the bytes.
pub type Piece<'a> = (u32, u32, u64, u64, &'a [u8]);

/// The container gets this piece.
pub fn gets(rt: &impl Abort, alloc: Global, machine: &mut ContainerMachine, piece: &Piece) {
    let (number, reduce, offset, total, bytes) = piece;
    let piece = Packet::Piece {
        attempt: attempt(rt, TaskKind::Map, *number),
        reduce: *reduce,
        offset: *offset,
        total: *total,
        bytes: bytes_of(rt, alloc, bytes),
    };
    hears(rt, machine, piece);
}
