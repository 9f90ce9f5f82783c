//! The job history: lines, segments, seals and replay.

use crate::fixtures::generation;
use crate::masters::{Call, Is, attempt, hold, is_stable, is_told, reduced, started};
use mr_history::{History, HistoryFault, Record, Records, Replayed, Segment, replay, whole_line};
use mr_ids::TaskKind;
use std::alloc::Global;
use std::process::Abort;

const STARTED: &str =
    "{\"attempt\":\"attempt_200707121733_0003_m_000000_0\",\"event\":\"started\",\"node\":0}\n";

const MAPPED: &str =
    "{\"attempt\":\"attempt_200707121733_0003_m_000012_1001\",\"event\":\"map\",\"incarnation\":1,\"node\":4294967295}\n";

const REDUCED: &str =
    "{\"attempt\":\"attempt_200707121733_0003_r_000000_0\",\"event\":\"reduce\"}\n";

const FAILED: &str =
    "{\"attempt\":\"attempt_200707121733_0003_r_000000_1\",\"event\":\"failed\"}\n";

const UNSUCCESSFUL: &str = "{\"event\":\"unsuccessful\"}\n";

// The record is appended, or refused so.
fn adds(rt: &impl Abort, segment: &mut Segment, record: &Record, want: Option<HistoryFault>) {
    assert!(rt; record.fits() && record.suits(segment.version()));
    is_told(rt, segment.append(*record), want);
}

// The segment is flushed, or refuses so.
fn flushes(rt: &impl Abort, segment: &mut Segment, want: Option<HistoryFault>) {
    is_told(rt, segment.flush(), want);
}

// A history that the master of this generation raised first, with segments of version 1.
fn raised(rt: &impl Abort, alloc: Global, number: u32) -> History {
    let mut history = History::new(alloc).expect(rt, "a fault");
    history.raise(generation(rt, number), 0, 1);
    history
}

fn replayed(rt: &impl Abort, alloc: Global, bytes: &[u8]) -> Replayed {
    replay(alloc, bytes).expect(rt, "a fault")
}

// So many records are read of the bytes, and so many bytes behind them are no record.
fn reads(rt: &impl Abort, alloc: Global, bytes: &[u8], version: u32, count: usize, torn: usize) {
    let read = replayed(rt, alloc, bytes);
    let told = (read.version, read.records.len(), read.torn);
    drop(read);
    confirm_eq!(rt; told, (version, count, torn));
}

// These are the records that the master of this generation reads.
fn are_before(rt: &impl Abort, history: &History, number: u32, records: &[Record]) {
    let k = generation(rt, number);
    assert!(rt; history.is_raised(k));
    let before = history.read(k).expect(rt, "a fault");
    confirm_eq!(rt; before.as_slice(), records);
    drop(before);
}

// These texts, one behind the other.
fn joined(rt: &impl Abort, alloc: Global, parts: &[&str]) -> String {
    let mut text = String::new(alloc);
    for part in parts {
        text.push_str(part).expect(rt, "no memory");
    }
    text
}

// One record of each kind.
fn one_of_each(rt: &impl Abort) -> [Record; 5] {
    [
        started(rt),
        Record::MapSucceeded {
            attempt: attempt(rt, TaskKind::Map, 12, 1001),
            node: 4294967295,
            incarnation: 1,
        },
        reduced(rt),
        Record::AttemptFailed {
            attempt: attempt(rt, TaskKind::Reduce, 0, 1),
        },
        Record::JobUnsuccessful,
    ]
}

// The stable part of the segment has these bytes.
fn is_written(rt: &impl Abort, segment: &Segment, bytes: &[u8]) {
    confirm_eq!(rt; segment.stable(), bytes);
    confirm_eq!(rt; segment.tail(), 0);
}

#[test]
fn record_lines(rt: HostRuntime) {
    let rt = &rt;
    let mut segment = Segment::new(rt.alloc(), 1);
    for record in one_of_each(rt) {
        adds(rt, &mut segment, &record, None);
    }
    confirm_eq!(rt; segment.stable().len(), 0);
    let len = segment.tail();
    flushes(rt, &mut segment, None);
    let lines = &[STARTED, MAPPED, REDUCED, FAILED, UNSUCCESSFUL];
    let wanted = joined(rt, rt.alloc(), lines);
    confirm_eq!(rt; len, wanted.len());
    is_written(rt, &segment, wanted.as_bytes());
    drop(segment);
    let read = replayed(rt, rt.alloc(), wanted.as_bytes());
    confirm_eq!(rt; read.torn, 0);
    confirm_eq!(rt; read.records.as_slice(), one_of_each(rt).as_slice());
    drop(read);
    drop(wanted);
    let line = whole_line(rt.alloc(), &started(rt)).expect(rt, "no memory");
    confirm_eq!(rt; line.as_str(), STARTED);
    drop(line);
}

#[test]
fn records_are_copied(rt: HostRuntime) {
    let rt = &rt;
    let mut records = Records::new(rt.alloc());
    records.push(started(rt)).expect(rt, "no memory");
    records.push(reduced(rt)).expect(rt, "no memory");
    let mut copy = Records::from_vec(Vec::new(rt.alloc()));
    copy.extend(records.as_slice()).expect(rt, "no memory");
    confirm_eq!(rt; copy.as_slice(), records.as_slice());
    confirm_eq!(rt; copy.len(), 2);
    drop(copy);
    drop(records);
}

// A sealed segment takes no record and no flush, and says so before.
fn takes_no_more(rt: &impl Abort, segment: &mut Segment) {
    adds(rt, segment, &started(rt), Some(HistoryFault::Sealed));
    flushes(rt, segment, Some(HistoryFault::Sealed));
    confirm_eq!(rt; segment.flush_refusal(), Some(HistoryFault::Sealed));
}

#[test]
fn segment_seal(rt: HostRuntime) {
    let rt = &rt;
    let alloc = rt.alloc();
    for (kept, count, torn) in &[(67, 1, 67), (68, 2, 0), (0, 1, 0), (1000, 2, 0)] {
        let mut segment = Segment::new(alloc, 1);
        adds(rt, &mut segment, &started(rt), None);
        flushes(rt, &mut segment, None);
        adds(rt, &mut segment, &reduced(rt), None);
        confirm_eq!(rt; segment.tail(), 68);
        segment.seal(*kept);
        reads(rt, alloc, segment.stable(), 1, *count, *torn);
        takes_no_more(rt, &mut segment);
        segment.seal(0);
        reads(rt, alloc, segment.stable(), 1, *count, *torn);
        drop(segment);
    }
}

#[test]
fn history_raise(rt: HostRuntime) {
    let rt = &rt;
    let none: &[Record] = &[];
    let one: &[Record] = &[Record::JobUnsuccessful];
    for (kept, records) in &[(24, none), (25, one)] {
        let mut history = raised(rt, rt.alloc(), 1);
        let rows = &[
            (1, Call::Unsuccessful, 0, Is::Done),
            (1, Call::HasTail, 25, Is::Done),
        ];
        hold(rt, &mut history, rows);
        history.raise(generation(rt, 2), *kept, 1);
        let rows = &[
            (1, Call::Raise, 0, Is::Done),
            (2, Call::HasFence, 0, Is::Done),
            (1, Call::Unsuccessful, 0, Is::Before2),
        ];
        hold(rt, &mut history, rows);
        are_before(rt, &history, 2, records);
        drop(history);
    }
}

#[test]
fn history_segments(rt: HostRuntime) {
    let rt = &rt;
    let mut history = raised(rt, rt.alloc(), 2);
    let rows = &[
        (2, Call::Started, 0, Is::Done),
        (2, Call::IsRaised, 0, Is::Done),
        (4, Call::IsUnraised, 0, Is::Done),
        (2, Call::Flush, 0, Is::Done),
    ];
    hold(rt, &mut history, rows);
    are_before(rt, &history, 2, &[]);
    let rows = &[
        (2, Call::Reduced, 0, Is::Done),
        (2, Call::Seal, 1000, Is::Done),
        (2, Call::Reduced, 0, Is::Sealed),
        (4, Call::RaiseWithVersion2, 0, Is::Done),
        (4, Call::Started, 0, Is::Done),
        (1, Call::Flush, 0, Is::Before4),
    ];
    hold(rt, &mut history, rows);
    are_before(rt, &history, 4, &[started(rt), reduced(rt)]);
    drop(history);
}

// The last generation that there is writes, flushes and reads.
#[test]
fn last_generation(rt: HostRuntime) {
    let rt = &rt;
    let mut history = raised(rt, rt.alloc(), 1);
    let rows = &[
        (1, Call::Started, 0, Is::Done),
        (1000, Call::Raise, 1000, Is::Done),
        (1000, Call::Reduced, 0, Is::Done),
        (1000, Call::Flush, 0, Is::Done),
    ];
    hold(rt, &mut history, rows);
    is_stable(rt, &history, 1000, REDUCED);
    are_before(rt, &history, 1000, &[started(rt)]);
    drop(history);
}

// The text of each fault.
#[test]
fn fault_texts(rt: HostRuntime) {
    let rt = &rt;
    let alloc = rt.alloc();
    for (fault, told) in &[
        (HistoryFault::Superseded(4), "Superseded 4"),
        (HistoryFault::Sealed, "Sealed"),
        (HistoryFault::BadLine(12), "BadLine 12"),
        (HistoryFault::Full, "Full"),
        (HistoryFault::NoMemory, "NoMemory"),
    ] {
        let text = format!(in alloc; "{fault}").expect(rt, "no memory");
        confirm!(rt; text.as_str() == *told, told);
        drop(text);
    }
}

// The refusals are told before the calls are made, and the records of all segments are read.
#[test]
fn history_refusals(rt: HostRuntime) {
    let rt = &rt;
    let mut history = raised(rt, rt.alloc(), 1);
    let rows = &[
        (1, Call::Foresee, 0, Is::Done),
        (1, Call::Started, 0, Is::Done),
        (2, Call::Raise, 200, Is::Done),
        (1, Call::Foresee, 0, Is::Before2),
        (2, Call::Reduced, 0, Is::Done),
        (2, Call::Foresee, 0, Is::Done),
        (2, Call::Seal, 200, Is::Done),
        (2, Call::Foresee, 0, Is::Sealed),
    ];
    hold(rt, &mut history, rows);
    is_stable(rt, &history, 2, REDUCED);
    let all = history.records().expect(rt, "a fault");
    drop(history);
    confirm!(rt; all.as_slice() == [started(rt), reduced(rt)].as_slice());
    drop(all);
}

#[test]
fn every_prefix(rt: HostRuntime) {
    let rt = &rt;
    let alloc = rt.alloc();
    let text = joined(rt, alloc, &[STARTED, REDUCED]);
    let bytes = text.as_bytes();
    for end in 0..bytes.len() + 1 {
        let (count, torn) = if end < STARTED.len() {
            (0, end)
        } else if end < bytes.len() {
            (1, end - STARTED.len())
        } else {
            (2, 0)
        };
        reads(rt, alloc, &bytes[..end], 1, count, torn);
    }
    drop(text);
}

// The second line of these parts is bad: the line with this end.
fn is_bad_line_2(rt: &impl Abort, alloc: Global, parts: &[&str], line: &str) {
    let text = joined(rt, alloc, parts);
    let fault = replay(alloc, text.as_bytes()).err();
    drop(text);
    confirm!(rt; fault == Some(HistoryFault::BadLine(2)), &(line, fault));
}

#[test]
fn bad_lines(rt: HostRuntime) {
    let rt = &rt;
    let alloc = rt.alloc();
    for line in &[
        "",
        "[]",
        " {\"event\":\"unsuccessful\"}",
        "{\"event\":\"unsuccessful\"}\r",
        "{\"event\":\"Unsuccessful\"}",
        "{\"event\":\"unsuccessful\",\"event\":\"unsuccessful\"}",
        "{\"event\":\"reduce\",\"attempt\":\"attempt_200707121733_0003_r_000000_0\"}",
        "{\"attempt\":\"attempt_200707121733_0003_m_000000_0\",\"event\":\"reduce\"}",
        "{\"attempt\":\"attempt_200707121733_0003_r_00000_0\",\"event\":\"reduce\"}",
        "{\"attempt\":\"\\u0061ttempt_200707121733_0003_r_000000_0\",\"event\":\"reduce\"}",
        "{\"attempt\":\"attempt_200707121733_0003_m_000000_0\",\"event\":\"started\",\"node\":4294967296}",
        "{\"attempt\":\"attempt_200707121733_0003_m_000000_0\",\"event\":\"started\",\"node\":0.0}",
        "{\"attempt\":\"attempt_200707121733_0003_m_000000_0\",\"event\":\"map\",\"incarnation\":0,\"node\":0}",
        "{\"attempt\":\"attempt_200707121733_0003_r_000000_0\",\"event\":\"map\",\"incarnation\":1,\"node\":0}",
        "{\"attempt\":\"attempt_200707121733_0003_m_000000_0\",\"event\":\"map\",\"node\":0,\"incarnation\":1}",
    ] {
        is_bad_line_2(rt, alloc, &[UNSUCCESSFUL, *line, "\n", UNSUCCESSFUL], line);
    }
}

// The longest line that a record has, without its end.
const LONGEST: &str =
    "{\"attempt\":\"attempt_18446744073709551615_4294967295_m_4294967295_999999\",\"event\":\"map\",\"incarnation\":4294967295,\"node\":4294967295";

// The longest line that a record has, and a line of a byte more, which is bad.
#[test]
fn longest_line(rt: HostRuntime) {
    let rt = &rt;
    let alloc = rt.alloc();
    let line = joined(rt, alloc, &[LONGEST, "}\n"]);
    confirm_eq!(rt; line.len(), 131);
    reads(rt, alloc, line.as_bytes(), 1, 1, 0);
    drop(line);
    for ending in &["0}", " }", "}{\"event\":\"unsuccessful\"}"] {
        is_bad_line_2(rt, alloc, &[LONGEST, "}\n", LONGEST, *ending, "\n"], ending);
    }
}

// A segment of 2^24 bytes: 246,723 lines of 68 bytes, two of 25, and no room for one more.
#[test]
fn full_segment(rt: HostRuntime) {
    let rt = &rt;
    let alloc = rt.alloc();
    let mut segment = Segment::new(alloc, 1);
    let record = reduced(rt);
    for _ in 0..246723 {
        adds(rt, &mut segment, &record, None);
    }
    confirm_eq!(rt; segment.append_refusal(&record), Some(HistoryFault::Full));
    adds(rt, &mut segment, &record, Some(HistoryFault::Full));
    let short = Record::JobUnsuccessful;
    adds(rt, &mut segment, &short, None);
    adds(rt, &mut segment, &short, None);
    adds(rt, &mut segment, &short, Some(HistoryFault::Full));
    flushes(rt, &mut segment, None);
    confirm_eq!(rt; segment.stable().len(), 16777214);
    reads(rt, alloc, segment.stable(), 1, 246725, 0);
    drop(segment);
}

// Of the 14 bytes of the version line and the 78 of one record each number is kept.
#[test]
fn every_seal_of_version_2(rt: HostRuntime) {
    let rt = &rt;
    let alloc = rt.alloc();
    for kept in 0..93 {
        let mut segment = Segment::new(alloc, 2);
        let record = Record::ReduceSucceeded {
            attempt: attempt(rt, TaskKind::Reduce, 0, 0),
            bytes: Some(8),
        };
        adds(rt, &mut segment, &record, None);
        segment.seal(kept);
        let (version, count, torn) = if kept < 14 {
            (1, 0, kept)
        } else if kept < 92 {
            (2, 0, kept - 14)
        } else {
            (2, 1, 0)
        };
        reads(rt, alloc, segment.stable(), version, count, torn);
        drop(segment);
    }
}

// A copy has the same fence, the same stable bytes and the same tail. A flush of the copy is none of the first one.
#[test]
fn history_copy(rt: HostRuntime) {
    let rt = &rt;
    let mut history = raised(rt, rt.alloc(), 1);
    let rows = &[
        (1, Call::Started, 0, Is::Done),
        (2, Call::RaiseWithVersion2, 200, Is::Done),
        (2, Call::Unsuccessful, 0, Is::Done),
    ];
    hold(rt, &mut history, rows);
    let mut copy = history.copy().expect(rt, "no memory");
    confirm!(rt; copy.is_same(&history));
    is_stable(rt, &copy, 1, STARTED);
    let rows = &[
        (2, Call::HasFence, 0, Is::Done),
        (2, Call::HasTail, 39, Is::Done),
        (2, Call::Flush, 0, Is::Done),
    ];
    hold(rt, &mut copy, rows);
    is_stable(
        rt,
        &copy,
        2,
        "{\"version\":2}\n{\"event\":\"unsuccessful\"}\n",
    );
    confirm!(rt; !copy.is_same(&history));
    drop(copy);
    hold(rt, &mut history, &[(2, Call::HasTail, 39, Is::Done)]);
    drop(history);
}
