//! Reduce works, merges and the shelf of a node.

use crate::confirm::bytes_are;
use crate::fixtures::{bytes_of, gate_for, mapped, output, pieces, put, put_shown, reduced};
use mr_ids::{AttemptId, Bytes, TaskKind};
use mr_jobs::{LineIndex, MaxByKey, WordCount};
use mr_mapside::{MAX_OUTPUT_LEN, MapOutput, ShuffleFault, WorkFault, blocks};
use mr_shuffle::{
    Merge, Piece, ShelfOfNode, attempts_are_apart, piece_is_what_it_says, reduce_bytes,
    reduce_work, shuffle_gives_sequential_text, works_give_sequential_text,
};
use mr_user::{GateFault, Job, OpenGate, Text};
use std::alloc::Global;
use std::process::Abort;

// The block of wordcount for the line `a b a`: a twice, b once.
const BLOCK: &[u8; 26] = b"\0\0\0\x01a\0\0\0\0\0\0\0\x02\0\0\0\x01b\0\0\0\0\0\0\0\x01";
// The first pair of it again, with the count 5.
const MORE: &[u8] = b"\0\0\0\x01a\0\0\0\0\0\0\0\x05";
// A key with half a value.
const SHORT: &[u8] = b"\0\0\0\x01a\0\0\0\0";
// b once, and then a once.
const FALLING: &[u8] = b"\0\0\0\x01b\0\0\0\0\0\0\0\x01\0\0\0\x01a\0\0\0\0\0\0\0\x01";

// A reduce work of this reduce, for wordcount, refuses such pieces of map `first` on, for this reason.
fn refuses(
    rt: &impl Abort,
    alloc: Global,
    reduce: u32,
    of: (u32, u32),
    all: &[&[u8]],
    want: ShuffleFault,
) {
    let fault = reduced(rt, alloc, reduce, of, all).err();
    confirm_eq!(rt; fault, Some(WorkFault::Shuffle(want)));
}

// A reduce, the first map and the reduce of the pieces, their bytes, and why they are refused.
type Refused<'a> = (u32, (u32, u32), &'a [&'a [u8]], ShuffleFault);

// The pieces of each row are refused.
fn refuse(rt: &impl Abort, alloc: Global, rows: &[Refused]) {
    for (reduce, of, all, want) in rows {
        refuses(rt, alloc, *reduce, *of, all, *want);
    }
}

#[test]
fn reduce_faults(rt: HostRuntime) {
    let rt = &rt;
    let alloc = rt.alloc();
    let rows: &[Refused] = &[
        (0, (0, 0), &[SHORT], ShuffleFault::Truncated),
        (0, (0, 0), &[FALLING], ShuffleFault::Disorder),
        (0, (1, 0), &[BLOCK], ShuffleFault::WrongPiece),
    ];
    refuse(rt, alloc, rows);
    // Of nothing it makes nothing.
    let text = reduced(rt, alloc, 0, (0, 0), &[]).expect(rt, "a fault");
    confirm!(rt; text.is_empty());
}

#[test]
fn first_fault_is_told(rt: HostRuntime) {
    let rt = &rt;
    let alloc = rt.alloc();
    let rows: &[Refused] = &[
        (3, (0, 3), &[SHORT], ShuffleFault::Truncated),
        (3, (0, 3), &[FALLING], ShuffleFault::Disorder),
        (3, (0, 3), &[BLOCK, SHORT, FALLING], ShuffleFault::Truncated),
        (3, (0, 3), &[BLOCK, FALLING, SHORT], ShuffleFault::Disorder),
        (3, (1, 3), &[SHORT], ShuffleFault::WrongPiece),
        (3, (0, 2), &[SHORT], ShuffleFault::WrongPiece),
    ];
    refuse(rt, alloc, rows);
    // Of nothing it makes nothing.
    let text = reduce_work(alloc, &MaxByKey, &OpenGate, 3, &[]).expect(rt, "a fault");
    confirm!(rt; text.is_empty());
    enters_once(rt, alloc, &(0, &[], TaskKind::Map));
}

// The first map of pieces, their bytes, and the works that the gate lets pass.
type Entering = (u32, &'static [&'static [u8]], TaskKind);

const ENTERING: &[Entering] = &[
    (0, &[], TaskKind::Reduce),
    (0, &[], TaskKind::Map),
    (0, &[BLOCK], TaskKind::Reduce),
    (0, &[BLOCK], TaskKind::Map),
    (0, &[BLOCK, MORE], TaskKind::Reduce),
    (0, &[BLOCK, MORE], TaskKind::Map),
    (0, &[SHORT], TaskKind::Map),
    (1, &[BLOCK], TaskKind::Map),
];

// A reduce work of such pieces enters once, and answers with its gate's refusal where the gate refuses, and only there.
fn enters_once(rt: &impl Abort, alloc: Global, (first, all, kind): &Entering) {
    let parts = pieces(rt, alloc, *first, 3, all);
    let gate = gate_for(*kind);
    let fault = reduce_work(alloc, &WordCount, &gate, 3, &parts).err();
    confirm_eq!(rt; gate.entered.get(), 1);
    let want = match kind {
        TaskKind::Map => Some(WorkFault::Gate(GateFault::Spent)),
        TaskKind::Reduce => None,
    };
    confirm_eq!(rt; fault, want);
}

// A reduce work enters once, with pieces and without, and before it looks at a piece: where the gate refuses, a bad piece
// and one of another map are not seen.
#[test]
fn reduce_enters_once(rt: HostRuntime) {
    let rt = &rt;
    let alloc = rt.alloc();
    for row in ENTERING {
        enters_once(rt, alloc, row);
    }
}

// Bytes of pieces alone are reduced to the same text, behind a gate that is entered once.
#[test]
fn bytes_alone_are_reduced(rt: HostRuntime) {
    let rt = &rt;
    let alloc = rt.alloc();
    let all = bytes_of(rt, alloc, &[BLOCK, MORE]);
    let gate = gate_for(TaskKind::Reduce);
    let text = reduce_bytes(alloc, &WordCount, &gate, &all).expect(rt, "a fault");
    bytes_are(rt, &text, b"a\t7\nb\t1\n");
    confirm_eq!(rt; gate.entered.get(), 1);
    let gate = gate_for(TaskKind::Map);
    let fault = reduce_bytes(alloc, &WordCount, &gate, &all).err();
    confirm_eq!(rt; fault, Some(WorkFault::Gate(GateFault::Spent)));
}

// The answer to a piece of one pair, whose key has so many bytes and whose value is 1.
fn reduced_of_long(rt: &impl Abort, alloc: Global, len: u32) -> Result<Vec<u8>, WorkFault> {
    let mut bytes = Vec::from_slice(alloc, &len.to_be_bytes()).expect(rt, "no memory");
    let key = b"a".repeat(alloc, len as usize).expect(rt, "no memory");
    put(rt, &mut bytes, &key);
    put(rt, &mut bytes, b"\0\0\0\0\0\0\0\x01");
    reduced(rt, alloc, 3, (0, 3), &[&bytes])
}

#[test]
fn reduce_is_full(rt: HostRuntime) {
    let rt = &rt;
    let alloc = rt.alloc();
    let text = reduced_of_long(rt, alloc, 16777213).expect(rt, "a fault");
    confirm_eq!(rt; text.len(), MAX_OUTPUT_LEN);
    let fault = reduced_of_long(rt, alloc, 16777214).err();
    confirm_eq!(rt; fault, Some(WorkFault::Full));
}

// Where the block ends behind a pair, it has a text. Else it is truncated.
#[test]
fn every_prefix_of_a_block(rt: HostRuntime) {
    let rt = &rt;
    let alloc = rt.alloc();
    for len in 0..=26 {
        let front = &BLOCK[..len];
        match len {
            0 => gives(rt, alloc, front, b""),
            13 => gives(rt, alloc, front, b"a\t2\n"),
            26 => gives(rt, alloc, front, b"a\t2\nb\t1\n"),
            _ => refuses(rt, alloc, 3, (0, 3), &[front], ShuffleFault::Truncated),
        }
    }
}

// What reduce 3 makes of a piece of wordcount is this text.
fn gives(rt: &impl Abort, alloc: Global, piece: &[u8], want: &[u8]) {
    let text = reduced(rt, alloc, 3, (0, 3), &[piece]).expect(rt, "a fault");
    bytes_are(rt, &text, want);
}

// A piece that may be bad has a text, or is truncated or in disorder.
fn is_text_or_bad(rt: &impl Abort, alloc: Global, piece: &[u8]) {
    let fault = reduced(rt, alloc, 3, (0, 3), &[piece]).err();
    let is_so = match fault {
        None | Some(WorkFault::Shuffle(ShuffleFault::Truncated | ShuffleFault::Disorder)) => true,
        Some(_) => false,
    };
    confirm!(rt; is_so, &fault);
}

#[test]
fn every_change_of_a_block(rt: HostRuntime) {
    let rt = &rt;
    let alloc = rt.alloc();
    for place in 0..26 {
        for byte in 0..=255 {
            let mut bytes = *BLOCK;
            bytes[place] = byte;
            is_text_or_bad(rt, alloc, &bytes);
        }
    }
}

// Adds of a group its key, its values after it, and a bar.
fn put_group(rt: &impl Abort, alloc: Global, seen: &mut Vec<u8>, key: &Text, values: &[u64]) {
    put(rt, seen, key.as_slice());
    for value in values {
        put_shown(rt, alloc, seen, value);
    }
    put(rt, seen, b"|");
}

// Adds an item of a merge: a group, the text of a fault and a bar, or a point where there is none.
fn put_item(
    rt: &impl Abort,
    alloc: Global,
    seen: &mut Vec<u8>,
    item: Option<Result<(Text, Vec<u64>), ShuffleFault>>,
) {
    match item {
        Some(Ok((key, values))) => put_group(rt, alloc, seen, &key, &values),
        Some(Err(ShuffleFault::NoMemory)) => panic!(rt; "no memory"),
        Some(Err(fault)) => {
            put_shown(rt, alloc, seen, &fault);
            put(rt, seen, b"|")
        }
        None => put(rt, seen, b"."),
    }
}

// The first four items of a merge of these pieces are so: of each group its key, its values after it, and a bar; of a fault its text; a
// point where there is none.
fn is_merged(rt: &impl Abort, alloc: Global, all: &[&[u8]], want: &[u8]) {
    let parts = pieces(rt, alloc, 0, 0, all);
    let mut merge = Merge::<WordCount>::new(alloc, &parts).expect(rt, "no memory");
    let mut seen = Vec::new(alloc);
    for _ in 0..4 {
        put_item(rt, alloc, &mut seen, merge.next());
    }
    drop(merge);
    bytes_are(rt, &seen, want);
}

#[test]
fn merge_gives_groups(rt: HostRuntime) {
    let rt = &rt;
    let alloc = rt.alloc();
    let rows: &[(&[&[u8]], &[u8])] = &[
        (&[BLOCK, MORE], b"a25|b1|.."),
        (&[MORE, BLOCK], b"a52|b1|.."),
        (&[], b"...."),
        (&[SHORT], b"Truncated|..."),
        (&[FALLING], b"Disorder|..."),
        (&[BLOCK, FALLING], b"Disorder|..."),
    ];
    for (all, want) in rows {
        is_merged(rt, alloc, all, want);
    }
}

// An attempt at map 0.
fn attempt(rt: &impl Abort, text: &str) -> AttemptId {
    AttemptId::parse(text).expect(rt, text)
}

// The attempt's output of these bytes is put on the shelf.
fn puts(rt: &impl Abort, alloc: Global, shelf: &mut ShelfOfNode, a: AttemptId, bytes: &[u8]) {
    shelf
        .put(a, output(rt, alloc, bytes))
        .expect(rt, "no memory");
}

// The shelf has this block of the attempt's output for a reduce.
fn has(rt: &impl Abort, shelf: &ShelfOfNode, a: AttemptId, reduce: u32, want: &[u8]) {
    let block = shelf.get(a, reduce).expect(rt, "no block");
    bytes_are(rt, block, want);
}

// The shelf has no block of the attempt's output for a reduce.
fn has_none(rt: &impl Abort, shelf: &ShelfOfNode, a: AttemptId, reduce: u32) {
    confirm!(rt; shelf.get(a, reduce).is_none(), &(a, reduce));
}

#[test]
fn shelf_keeps_until_all_is_dropped(rt: HostRuntime) {
    let rt = &rt;
    let alloc = rt.alloc();
    let first = attempt(rt, "attempt_200707121733_0003_m_000000_0");
    let second = attempt(rt, "attempt_200707121733_0003_m_000000_1");
    let mut shelf = ShelfOfNode::new(alloc, 2);
    has_none(rt, &shelf, first, 0);
    puts(rt, alloc, &mut shelf, first, b"\0\0\0\x01x\0\0\0\x01y");
    puts(rt, alloc, &mut shelf, first, b"\0\0\0\x02ab\0\0\0\x01c");
    puts(rt, alloc, &mut shelf, second, b"\0\0\0\x02ab");
    has(rt, &shelf, first, 0, b"ab");
    has(rt, &shelf, first, 1, b"c");
    has_none(rt, &shelf, first, 2);
    has_none(rt, &shelf, second, 0);
    let copied = shelf.copy().expect(rt, "no memory");
    confirm!(rt; copied.is_same(&shelf));
    shelf.drop_all();
    confirm!(rt; !copied.is_same(&shelf));
    has_none(rt, &shelf, first, 0);
    drop(shelf);
    has(rt, &copied, first, 1, b"c");
    drop(copied);
    attempts_are_apart();
}

#[test]
fn shared_block_outlives_its_shelf(rt: HostRuntime) {
    let rt = &rt;
    let alloc = rt.alloc();
    let a = attempt(rt, "attempt_200707121733_0003_m_000000_0");
    let mut shelf = ShelfOfNode::new(alloc, 2);
    puts(rt, alloc, &mut shelf, a, b"\0\0\0\x02ab\0\0\0\x01c");
    let block = shelf.share(a, 0).expect(rt, "no memory");
    let block = block.expect(rt, "no block");
    shelf.drop_all();
    let none = shelf.share(a, 0).expect(rt, "no memory");
    confirm!(rt; none.is_none());
    drop(shelf);
    bytes_are(rt, block.as_slice(), b"ab");
}

// The piece of reduce 3 of 4 in the output of a map.
fn piece_of(rt: &impl Abort, alloc: Global, map: u32, output: MapOutput) -> Piece {
    let found = blocks(output.bytes(), 4).expect(rt, "no blocks");
    let block = found.get(3).expect(rt, "no block");
    let bytes = Bytes::from_slice(alloc, block).expect(rt, "no memory");
    Piece {
        map,
        reduce: 3,
        bytes,
    }
}

const WORDS: &[&[u8]] = &[b"c b g c", b"a\ng c", b""];

// The text of reduce 3 of 4 over the words, through map works, blocks and a reduce work, is this.
fn is_shuffled<J: Job>(rt: &impl Abort, alloc: Global, job: &J, want: &[u8]) {
    let mut parts = Vec::new(alloc);
    let mut map = 0u32;
    for split in WORDS {
        let output = mapped(rt, alloc, job, &OpenGate, map, split, 4).expect(rt, "a fault");
        parts
            .push(piece_of(rt, alloc, map, output))
            .expect(rt, "no memory");
        map = map.wrapping_add(1);
    }
    let text = reduce_work(alloc, job, &OpenGate, 3, &parts).expect(rt, "a fault");
    bytes_are(rt, &text, want);
}

#[test]
fn pieces_make_the_text(rt: HostRuntime) {
    let rt = &rt;
    let alloc = rt.alloc();
    is_shuffled(rt, alloc, &WordCount, b"c\t3\ng\t2\n");
    let lines = b"c\t0:0,0:0,1:1\ng\t0:0,1:1\n";
    is_shuffled(rt, alloc, &LineIndex, lines);
    shuffle_gives_sequential_text::<WordCount>();
    works_give_sequential_text::<LineIndex>();
    piece_is_what_it_says::<MaxByKey>();
}
