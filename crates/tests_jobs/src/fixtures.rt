//! What the tests begin with: gates, bytes, pieces, outputs and the works over them.

use mr_ids::{Bytes, TaskKind};
use mr_jobs::WordCount;
use mr_mapside::{MAX_OUTPUT_LEN, MapOutput, WorkFault, map_work};
use mr_shuffle::{Piece, reduce_work};
use mr_user::{Gate, GateFault, Job, MAX_REDUCES, MAX_SPLIT_LEN, OpenGate};
use std::alloc::Global;
use std::cell::Cell;
use std::fmt::Display;
use std::process::Abort;

/// The gate that lets works of one kind pass, and counts who enters.
#[derive(Drop)]
pub struct GateFor {
    kind: TaskKind,
    pub entered: Cell<u32>,
}

impl Gate for GateFor {
    fn enter(&self, kind: TaskKind) -> Result<(), GateFault> {
        self.entered.set(self.entered.get().saturating_add(1));
        if kind == self.kind {
            Ok(())
        } else {
            Err(GateFault::Spent)
        }
    }
}

/// A gate for works of this kind, which nobody entered.
pub fn gate_for(kind: TaskKind) -> GateFor {
    GateFor {
        kind,
        entered: Cell::new(0),
    }
}

/// Adds bytes.
pub fn put(rt: &impl Abort, bytes: &mut Vec<u8>, more: &[u8]) {
    bytes.extend_from_slice(more).expect(rt, "no memory");
}

/// Adds what a value prints.
pub fn put_shown<T: Display>(rt: &impl Abort, alloc: Global, bytes: &mut Vec<u8>, value: &T) {
    let text = format!(in alloc; "{value}").expect(rt, "no memory");
    put(rt, bytes, text.as_bytes());
}

/// These bytes, each by itself.
pub fn bytes_of(rt: &impl Abort, alloc: Global, all: &[&[u8]]) -> Vec<Bytes> {
    let mut made = Vec::new(alloc);
    for bytes in all {
        let bytes = Bytes::from_slice(alloc, bytes).expect(rt, "no memory");
        made.push(bytes).expect(rt, "no memory");
    }
    made
}

/// The pieces of the maps from number `first` on for reduce `reduce`.
pub fn pieces(
    rt: &impl Abort,
    alloc: Global,
    first: u32,
    reduce: u32,
    all: &[&[u8]],
) -> Vec<Piece> {
    let mut parts = Vec::new(alloc);
    let mut map = first;
    for bytes in all {
        let bytes = Bytes::from_slice(alloc, bytes).expect(rt, "no memory");
        parts
            .push(Piece { map, reduce, bytes })
            .expect(rt, "no memory");
        map = map.wrapping_add(1);
    }
    parts
}

/// The answer of a reduce work of this reduce, for wordcount, to the pieces of the maps from `first` on for reduce `of`.
pub fn reduced(
    rt: &impl Abort,
    alloc: Global,
    reduce: u32,
    (first, of): (u32, u32),
    all: &[&[u8]],
) -> Result<Vec<u8>, WorkFault> {
    let parts = pieces(rt, alloc, first, of, all);
    reduce_work(alloc, &WordCount, &OpenGate, reduce, &parts)
}

/// An output of such bytes.
pub fn output(rt: &impl Abort, alloc: Global, bytes: &[u8]) -> MapOutput {
    let bytes = Vec::from_slice(alloc, bytes).expect(rt, "no memory");
    assert!(rt; bytes.len() <= MAX_OUTPUT_LEN);
    MapOutput::from_vec(bytes)
}

/// The answer of the work of a map over a split.
pub fn mapped<J: Job, G: Gate>(
    rt: &impl Abort,
    alloc: Global,
    job: &J,
    gate: &G,
    map: u32,
    split: &[u8],
    reduces: u32,
) -> Result<MapOutput, WorkFault> {
    assert!(rt; split.len() <= MAX_SPLIT_LEN && 1 <= reduces && reduces <= MAX_REDUCES);
    map_work(alloc, job, gate, map, split, reduces)
}
