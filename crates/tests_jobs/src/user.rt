//! Jobs and their functions.

use crate::confirm::{bytes_are, prints};
use crate::fixtures::bytes_of;
use mr_ids::TaskKind;
use mr_jobs::{LineIndex, MaxByKey, WordCount};
use mr_user::{
    Gate, Job, MAX_SPLIT_LEN, OpenGate, Position, Splits, Text, UserFault, Wire, groups, next_line,
    sort_pairs, write_lines,
};
use std::alloc::Global;
use std::process::Abort;

// The call answers this fault.
fn faults(rt: &impl Abort, fault: Option<UserFault>, want: UserFault) {
    confirm_eq!(rt; fault, Some(want));
}

// The pairs of line 2 of split 1.
fn pairs_of<J: Job>(
    rt: &impl Abort,
    alloc: Global,
    job: &J,
    line: &[u8],
) -> Result<Vec<(J::Key, J::Value)>, UserFault> {
    assert!(rt; line.len() <= MAX_SPLIT_LEN);
    job.map(alloc, 1, 2, line)
}

// Adds a value, written as bytes.
fn put<W: Wire>(rt: &impl Abort, bytes: &mut Vec<u8>, value: &W) {
    value.fits();
    value.write(bytes).expect(rt, "a fault");
}

// The keys of these pairs, and their values.
fn apart<K: Drop, V: Drop>(rt: &impl Abort, alloc: Global, pairs: Vec<(K, V)>) -> (Vec<K>, Vec<V>) {
    let mut keys = Vec::new(alloc);
    let mut values = Vec::new(alloc);
    for (key, value) in pairs {
        keys.push(key).expect(rt, "no memory");
        values.push(value).expect(rt, "no memory");
    }
    (keys, values)
}

// The pairs of a line are written so.
fn writes<J: Job>(rt: &impl Abort, alloc: Global, job: &J, line: &[u8], want: &[u8]) {
    let mut bytes = Vec::new(alloc);
    for (key, value) in &pairs_of(rt, alloc, job, line).expect(rt, "a fault") {
        put(rt, &mut bytes, key);
        put(rt, &mut bytes, value);
    }
    bytes_are(rt, &bytes, want);
}

// The first key of a line goes to this reduce of three, and with the line's values, combined first, it has this line of text.
fn reduces<J: Job>(rt: &impl Abort, alloc: Global, job: &J, line: &[u8], to: u32, want: &[u8]) {
    let pairs = pairs_of(rt, alloc, job, line).expect(rt, "a fault");
    let (keys, values) = apart(rt, alloc, pairs);
    let key = keys.first().expect(rt, "no pair");
    confirm!(rt; job.partition(key, 3) == to, &line);
    assert!(rt; !values.is_empty());
    let combined = job.combine(alloc, key, &values).expect(rt, "a fault");
    are_lines(rt, alloc, job, key, &combined, want);
}

// The job writes these lines of a key, reduced with the values.
fn are_lines<J: Job>(
    rt: &impl Abort,
    alloc: Global,
    job: &J,
    key: &J::Key,
    values: &[J::Value],
    want: &[u8],
) {
    let mut text = Vec::new(alloc);
    write_lines(alloc, job, key, values, &mut text).expect(rt, "no memory");
    bytes_are(rt, &text, want);
}

#[test]
fn functions_of_wordcount(rt: HostRuntime) {
    let rt = &rt;
    let alloc = rt.alloc();
    let pairs = b"\0\0\0\x01a\0\0\0\0\0\0\0\x01\0\0\0\x02bc\0\0\0\0\0\0\0\x01";
    writes(rt, alloc, &WordCount, b"\ta  bc", pairs);
    reduces(rt, alloc, &WordCount, b"a a a", 1, b"a\t3\n");
    let key = Text::from_slice(alloc, b"a").expect(rt, "no memory");
    let counts = [18446744073709551615, 5];
    let want = b"a\t18446744073709551615\n";
    are_lines(rt, alloc, &WordCount, &key, &counts, want);
    drop(key);
}

// Lines that maxbykey refuses.
const REFUSED: &[&[u8]] = &[
    b"x",
    b"x 1 2",
    b"x +1",
    b"x 1a",
    b"x \xff",
    b"x 18446744073709551616",
    b"x 000000000000000000007",
];

#[test]
fn functions_of_maxbykey(rt: HostRuntime) {
    let rt = &rt;
    let alloc = rt.alloc();
    let pairs = b"\0\0\0\x01x\0\0\0\0\0\0\0\x07";
    writes(rt, alloc, &MaxByKey, b" x\t00000000000000000007 ", pairs);
    let pairs = b"\0\0\0\x01x\xff\xff\xff\xff\xff\xff\xff\xff";
    writes(rt, alloc, &MaxByKey, b"x 18446744073709551615", pairs);
    writes(rt, alloc, &MaxByKey, b" \t ", b"");
    reduces(rt, alloc, &MaxByKey, b"x 10", 0, b"x\t10\n");
    for line in REFUSED {
        let pairs = pairs_of(rt, alloc, &MaxByKey, line);
        faults(rt, pairs.err(), UserFault::Refused);
    }
}

#[test]
fn functions_of_lineindex(rt: HostRuntime) {
    let rt = &rt;
    let alloc = rt.alloc();
    let pairs = b"\0\0\0\x01b\0\0\0\x01\0\0\0\0\0\0\0\x02";
    writes(rt, alloc, &LineIndex, b"b", pairs);
    reduces(rt, alloc, &LineIndex, b"b b", 2, b"b\t1:2,1:2\n");
}

// A value is read at the front of these bytes. It takes as many as are wanted, and is written as those.
fn is_read<W: Wire>(rt: &impl Abort, alloc: Global, bytes: &[u8], want: &[u8]) {
    let (value, len) = W::read(alloc, bytes).expect(rt, "a fault");
    confirm!(rt; len == want.len(), &bytes);
    let mut again = Vec::new(alloc);
    put(rt, &mut again, &value);
    bytes_are(rt, &again, want);
}

// No value is read at the front of these bytes.
fn is_bad<W: Wire>(rt: &impl Abort, alloc: Global, bytes: &[u8]) {
    faults(rt, W::read(alloc, bytes).err(), UserFault::BadWire);
}

// A position, and longer than a number.
const TWELVE: &[u8] = b"\0\0\0\x01\0\0\0\0\0\0\0\x02";

#[test]
fn values_are_read(rt: HostRuntime) {
    let rt = &rt;
    let alloc = rt.alloc();
    is_read::<Text>(rt, alloc, b"\0\0\0\x01ab", b"\0\0\0\x01a");
    is_read::<Text>(rt, alloc, b"\0\0\0\0", b"\0\0\0\0");
    is_bad::<Text>(rt, alloc, b"");
    is_bad::<Text>(rt, alloc, b"\0\0\0");
    is_bad::<Text>(rt, alloc, b"\0\0\0\x02a");
    is_read::<u64>(rt, alloc, TWELVE, b"\0\0\0\x01\0\0\0\0");
    is_bad::<u64>(rt, alloc, b"\0\0\0\0\0\0\0");
    is_read::<Position>(rt, alloc, TWELVE, TWELVE);
    is_bad::<Position>(rt, alloc, b"\0\0\0\x01\0\0\0\0\0\0\0");
}

// Three pairs, of two keys.
fn pairs(rt: &impl Abort, alloc: Global) -> Vec<(u64, u64)> {
    Vec::from_slice(alloc, &[(2, 5), (1, 7), (2, 3)]).expect(rt, "no memory")
}

#[test]
fn pairs_are_grouped(rt: HostRuntime) {
    let rt = &rt;
    let alloc = rt.alloc();
    let groups = groups(alloc, pairs(rt, alloc)).expect(rt, "a fault");
    prints(rt, alloc, &groups, "[(1, [7]), (2, [5, 3])]");
}

#[test]
fn an_open_gate_answers_at_once(rt: HostRuntime) {
    let rt = &rt;
    OpenGate.enter(TaskKind::Map).expect(rt, "a fault");
    OpenGate.enter(TaskKind::Reduce).expect(rt, "a fault");
}

#[test]
fn pairs_are_sorted(rt: HostRuntime) {
    let rt = &rt;
    let alloc = rt.alloc();
    let mut pairs = pairs(rt, alloc);
    sort_pairs(&mut pairs).expect(rt, "a fault");
    prints(rt, alloc, &pairs, "[(1, 7), (2, 5), (2, 3)]");
}

#[test]
fn lines_are_read_and_written(rt: HostRuntime) {
    let rt = &rt;
    let alloc = rt.alloc();
    let (line, rest) = next_line(b"ab\nc");
    bytes_are(rt, line, b"ab");
    bytes_are(rt, rest, b"c");
    let key = Text::from_slice(alloc, line).expect(rt, "no memory");
    are_lines(rt, alloc, &WordCount, &key, &[2, 3], b"ab\t5\n");
    drop(key);
}

const TEXTS: &[&[u8]] = &[b"a b\n", b""];

// Splits that are copied are equal, and so are no others.
#[test]
fn splits_are_copied(rt: HostRuntime) {
    let rt = &rt;
    let alloc = rt.alloc();
    let splits = Splits::from_vec(bytes_of(rt, alloc, TEXTS));
    let none = Splits::from_vec(Vec::new(alloc));
    let copy = splits.copy().expect(rt, "no memory");
    confirm_eq!(rt; copy, splits);
    confirm!(rt; none != splits);
    drop(none);
    drop(splits);
    confirm_eq!(rt; copy.len(), 2);
    confirm!(rt; copy.get(2).is_none());
    let first = copy.get(0).expect(rt, "no split");
    bytes_are(rt, first.as_slice(), b"a b\n");
    drop(copy);
}
