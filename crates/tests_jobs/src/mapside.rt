//! Map works, and the blocks that their outputs are cut into.

use crate::confirm::bytes_are;
use crate::fixtures::{gate_for, mapped, output, put};
use mr_ids::{Bytes, TaskKind};
use mr_jobs::{LineIndex, MaxByKey, WordCount};
use mr_mapside::{
    CutOutput, MapOutput, RunGroups, WorkFault, blocks, blocks_are_one, output_is_its_blocks,
    read_pair,
};
use mr_user::{Gate, GateFault, Job, OpenGate, UserFault};
use std::alloc::Global;
use std::process::Abort;

// The output of map 3 over a split has these bytes.
fn gives<J: Job>(rt: &impl Abort, alloc: Global, job: &J, split: &[u8], reduces: u32, want: &[u8]) {
    let output = mapped(rt, alloc, job, &OpenGate, 3, split, reduces).expect(rt, "a fault");
    let bytes = output.into_bytes();
    bytes_are(rt, bytes.as_slice(), want);
}

// There is no output, for this reason.
fn gives_none<J: Job, G: Gate>(
    rt: &impl Abort,
    alloc: Global,
    job: &J,
    gate: &G,
    split: &[u8],
    want: WorkFault,
) {
    let fault = mapped(rt, alloc, job, gate, 3, split, 1).err();
    confirm_eq!(rt; fault, Some(want));
}

#[test]
fn map_output_bytes(rt: HostRuntime) {
    let rt = &rt;
    let alloc = rt.alloc();
    let want = b"\0\0\0\x1a\0\0\0\x01a\0\0\0\0\0\0\0\x02\0\0\0\x01b\0\0\0\0\0\0\0\x01";
    gives(rt, alloc, &WordCount, b"a b a", 1, want);
    let want =
        b"\0\0\0\x22\0\0\0\x01b\0\0\0\x03\0\0\0\0\0\0\0\0\0\0\0\x01b\0\0\0\x03\0\0\0\0\0\0\0\x01\0\0\0\0";
    gives(rt, alloc, &LineIndex, b"b\nb", 2, want);
    gives(rt, alloc, &WordCount, b"", 2, b"\0\0\0\0\0\0\0\0");
}

#[test]
fn long_line_of_one_word(rt: HostRuntime) {
    let rt = &rt;
    let alloc = rt.alloc();
    let split = b"a ".repeat(alloc, 4097).expect(rt, "no memory");
    let want = b"\0\0\0\x0d\0\0\0\x01a\0\0\0\0\0\0\x10\x01";
    gives(rt, alloc, &WordCount, &split, 1, want);
}

// One line more than a run holds pairs, each of the same word: the lines stay in their order.
#[test]
fn word_of_two_runs(rt: HostRuntime) {
    let rt = &rt;
    let alloc = rt.alloc();
    let split = b"a\n".repeat(alloc, 4_097).expect(rt, "no memory");
    let mut want = Vec::new(alloc);
    put(rt, &mut want, b"\0\x01\x10\x11");
    for line in 0u64..4_097 {
        put(rt, &mut want, b"\0\0\0\x01a\0\0\0\x03");
        put(rt, &mut want, &line.to_be_bytes());
    }
    gives(rt, alloc, &LineIndex, &split, 1, &want);
}

#[test]
fn runs_are_read(rt: HostRuntime) {
    let rt = &rt;
    let alloc = rt.alloc();
    let read = read_pair::<WordCount>(alloc, b"\0\0\0\x01a\0\0\0\0\0\0\0\x02b");
    let ((key, value), len) = read.expect(rt, "a fault");
    confirm_eq!(rt; len, 13);
    confirm_eq!(rt; value, 2);
    bytes_are(rt, key.as_slice(), b"a");
    drop(key);
}

#[test]
fn bad_runs_and_none(rt: HostRuntime) {
    let rt = &rt;
    let alloc = rt.alloc();
    let fault = read_pair::<WordCount>(alloc, b"\0\0\0\x01a\0").err();
    confirm_eq!(rt; fault, Some(UserFault::BadWire));
    let mut groups = RunGroups::<WordCount>::new(alloc, Vec::new(alloc)).expect(rt, "no memory");
    let next = groups.next_group(alloc).expect(rt, "no memory");
    confirm!(rt; next.is_none());
    drop(next);
    drop(groups);
}

#[test]
fn map_work_is_refused(rt: HostRuntime) {
    let rt = &rt;
    let alloc = rt.alloc();
    let maps = gate_for(TaskKind::Map);
    let reduces = gate_for(TaskKind::Reduce);
    let output = mapped(rt, alloc, &MaxByKey, &maps, 3, b"x 3", 1).expect(rt, "a fault");
    confirm_eq!(rt; output.bytes().len(), 17);
    drop(output);
    confirm_eq!(rt; maps.entered.get(), 1);
    let refused = WorkFault::User(UserFault::Refused);
    gives_none(rt, alloc, &MaxByKey, &maps, b"x 3\nx", refused);
    let spent = WorkFault::Gate(GateFault::Spent);
    gives_none(rt, alloc, &MaxByKey, &reduces, b"x", spent);
    confirm_eq!(rt; maps.entered.get(), 2);
    confirm_eq!(rt; reduces.entered.get(), 1);
}

#[test]
fn map_output_is_full(rt: HostRuntime) {
    let rt = &rt;
    let alloc = rt.alloc();
    let split = b"a ".repeat(alloc, 1000000).expect(rt, "no memory");
    gives_none(rt, alloc, &LineIndex, &OpenGate, &split, WorkFault::Full);
    let output = mapped(rt, alloc, &WordCount, &OpenGate, 3, &split, 1).expect(rt, "a fault");
    confirm_eq!(rt; output.bytes().len(), 17);
    drop(output);
}

// The output of an `ab` for the first of two reduces and a `c` for the second.
const TWO: &[u8] = b"\0\0\0\x02ab\0\0\0\x01c";

// The same with no byte for a reduce between them.
const THREE: &[u8] = b"\0\0\0\x02ab\0\0\0\0\0\0\0\x01c";

// This block is there, and has these bytes.
fn is_block(rt: &impl Abort, block: Option<&[u8]>, want: &[u8]) {
    bytes_are(rt, block.expect(rt, "no block"), want);
}

// Bytes, and of how many reduces they have no blocks.
const UNCUT: &[(&[u8], u32)] = &[
    (THREE, 2),
    (THREE, 4),
    (b"\0\0\0", 1),
    (b"\0\0\0\x02a", 1),
    (b"", 1),
];

// No row's bytes have blocks of so many reduces.
fn are_uncut(rt: &impl Abort, rows: &[(&[u8], u32)]) {
    for row in rows {
        let (bytes, reduces) = row;
        confirm!(rt; blocks(bytes, *reduces).is_none(), row);
    }
}

#[test]
fn outputs_are_cut(rt: HostRuntime) {
    let rt = &rt;
    let three = output(rt, rt.alloc(), THREE);
    let copied = three.copy().expect(rt, "no memory");
    confirm!(rt; copied.is_same(&three));
    drop(three);
    let found = blocks(copied.bytes(), 3).expect(rt, "no blocks");
    confirm_eq!(rt; found.count(), 3);
    is_block(rt, found.get(0), b"ab");
    is_block(rt, found.get(1), b"");
    is_block(rt, found.get(2), b"c");
    confirm!(rt; found.get(3).is_none());
    drop(copied);
    are_uncut(rt, UNCUT);
    blocks_are_one();
    output_is_its_blocks::<WordCount>();
}

// An output that is cut, of two reduces.
fn cut(rt: &impl Abort, alloc: Global) -> CutOutput {
    CutOutput::new(alloc, output(rt, alloc, TWO)).expect(rt, "no memory")
}

#[test]
fn cut_output_lends_its_blocks(rt: HostRuntime) {
    let rt = &rt;
    let cut = cut(rt, rt.alloc());
    let copied = cut.clone().expect(rt, "no memory");
    confirm!(rt; copied.is_same(&cut));
    is_block(rt, copied.block(2, 1), b"c");
    drop(copied);
    confirm!(rt; cut.block(3, 1).is_none());
    confirm!(rt; cut.block(2, 2).is_none());
    drop(cut);
}

#[test]
fn other_bytes_are_not_the_same(rt: HostRuntime) {
    let rt = &rt;
    let alloc = rt.alloc();
    let two = output(rt, alloc, TWO);
    let three = output(rt, alloc, THREE);
    confirm!(rt; !two.is_same(&three));
    let two = CutOutput::new(alloc, two).expect(rt, "no memory");
    let three = CutOutput::new(alloc, three).expect(rt, "no memory");
    confirm!(rt; !two.is_same(&three));
    drop(two);
    drop(three);
}

// The bytes of the output from this place on up to that one.
fn part(rt: &impl Abort, output: &MapOutput, from: usize, to: usize) -> Bytes {
    assert!(rt; from <= to && to <= output.bytes().len());
    output.part(from, to).expect(rt, "no memory")
}

#[test]
fn shared_output_outlives_its_first_holder(rt: HostRuntime) {
    let rt = &rt;
    let mut output = output(rt, rt.alloc(), TWO);
    output.share();
    let copied = output.copy().expect(rt, "no memory");
    let first = part(rt, &output, 4, 6);
    let none = part(rt, &output, 11, 11);
    drop(output);
    bytes_are(rt, first.as_slice(), b"ab");
    bytes_are(rt, none.as_slice(), b"");
    bytes_are(rt, copied.bytes(), TWO);
    drop(copied);
}

#[test]
fn shared_block_outlives_its_cut_output(rt: HostRuntime) {
    let rt = &rt;
    let cut = cut(rt, rt.alloc());
    let first = cut.share_block(2, 0).expect(rt, "no memory");
    let first = first.expect(rt, "no block");
    let last = cut.share_block(2, 1).expect(rt, "no memory");
    let last = last.expect(rt, "no block");
    shares_none(rt, &cut, 3, 1);
    shares_none(rt, &cut, 2, 2);
    drop(cut);
    bytes_are(rt, first.as_slice(), b"ab");
    bytes_are(rt, last.as_slice(), b"c");
}

// There is no block of this reduce in an output for so many.
fn shares_none(rt: &impl Abort, cut: &CutOutput, reduces: u32, reduce: u32) {
    let none = cut.share_block(reduces, reduce).expect(rt, "no memory");
    confirm!(rt; none.is_none());
}
