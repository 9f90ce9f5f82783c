//! Entries and their texts. In base 64 the digits after 9 are `a` to `z` for 10 to 35, `A` to `Z`
//! for 36 to 61, `-` and `_`: 2^20 is `4000`, 64^3 + 3 is `1003`, and 1700000000, as 1 37 20 63 4
//! 0, is `1Bk_40`.

use crate::fixtures::{JOB, ORIGIN, attempt, lines};
use mr_history::Record;
use mr_log_entries::{Entries, Entry, Handed, Line, records_of};
use std::alloc::Global;
use std::process::Abort;

// An entry of these lines has this text, and is read of it again.
fn has_text(rt: &impl Abort, alloc: Global, own: &[Line], text: &str) {
    let entry = Entry {
        lines: lines(rt, alloc, own),
        origin: ORIGIN,
    };
    let written = entry.text(alloc).expect(rt, "no memory");
    confirm_eq!(rt; written.as_str(), text);
    drop(written);
    let read = Entry::read(alloc, JOB, text.as_bytes()).expect(rt, "no memory");
    let again = read.expect(rt, "no entry");
    confirm_eq!(rt; again.lines.as_slice(), own);
    confirm_eq!(rt; again.origin, ORIGIN);
    drop(again);
    drop(entry);
}

#[test]
fn a_file_that_won(rt: HostRuntime) {
    let rt = &rt;
    let handed = Handed::File {
        inode: 262147,
        bytes: 1048576,
    };
    let won = Line::Won {
        attempt: attempt(rt, 15, 0),
        handed,
    };
    has_text(rt, rt.alloc(), &[won], "won 15.0 4000 1003;1 1Bk_40 10");
}

#[test]
fn a_folder_that_won(rt: HostRuntime) {
    let rt = &rt;
    let won = Line::Won {
        attempt: attempt(rt, 99999, 9),
        handed: Handed::Folder { bytes: 0 },
    };
    has_text(rt, rt.alloc(), &[won], "won 99999.9 0;1 1Bk_40 10");
}

#[test]
fn the_last_failure_ends_the_job(rt: HostRuntime) {
    let rt = &rt;
    let own = [Line::Failed(attempt(rt, 3, 1)), Line::Unsuccessful];
    has_text(rt, rt.alloc(), &own, "failed 3.1;unsuccessful;1 1Bk_40 10");
}

#[test]
fn an_attempt_in_place_of_another(rt: HostRuntime) {
    let rt = &rt;
    let own = [
        Line::Interrupted(attempt(rt, 0, 0)),
        Line::Started(attempt(rt, 0, 1)),
    ];
    has_text(
        rt,
        rt.alloc(),
        &own,
        "interrupted 0.0;started 0.1;1 1Bk_40 10",
    );
}

#[test]
fn a_publication(rt: HostRuntime) {
    let rt = &rt;
    has_text(
        rt,
        rt.alloc(),
        &[Line::Publish, Line::Published],
        "publish;published;1 1Bk_40 10",
    );
}

// The bytes are no entry's.
fn is_none(rt: &impl Abort, alloc: Global, text: &str) {
    let read = Entry::read(alloc, JOB, text.as_bytes()).expect(rt, "no memory");
    match read {
        Some(entry) => {
            confirm_eq!(rt; "an entry", text);
            drop(entry);
        }
        None => {}
    }
}

#[test]
fn other_texts(rt: HostRuntime) {
    let rt = &rt;
    for text in &[
        "",
        "failed 3.1;",
        "failed 3.1;1 1Bk_40",
        "failed 3.1 1 1Bk_40 10",
        "failed 3.1;1 1Bk_40 10 ",
        "failed 3.1;1 1Bk_40 010",
        "failed 03.1;1 1Bk_40 10",
        "failed 3.1000000;1 1Bk_40 10",
        "failed 4294967296.1;1 1Bk_40 10",
        "failed 3;1 1Bk_40 10",
        "Failed 3.1;1 1Bk_40 10",
        "won 15.0;1 1Bk_40 10",
        "won 15.0 4000 1003 1;1 1Bk_40 10",
        "won 15.0 4000 ;1 1Bk_40 10",
        "won a.0 4000;1 1Bk_40 10",
        "publishe;1 1Bk_40 10",
        // 2^64, of which the highest digit is 16
        "failed 3.1;g0000000000 1Bk_40 10",
        "failed 3.1;1 1Bk/40 10",
    ] {
        is_none(rt, rt.alloc(), text);
    }
}

#[test]
fn the_job_history(rt: HostRuntime) {
    let rt = &rt;
    let alloc = rt.alloc();
    let own = [
        Line::Started(attempt(rt, 0, 0)),
        Line::Won {
            attempt: attempt(rt, 0, 0),
            handed: Handed::Folder { bytes: 5 },
        },
        Line::Published,
    ];
    let entry = Entry {
        lines: lines(rt, alloc, &own),
        origin: ORIGIN,
    };
    let mut entries = Entries::new(alloc);
    entries.push(entry).expect(rt, "no memory");
    let records = records_of(alloc, entries.as_slice()).expect(rt, "no memory");
    let wanted = [
        Record::AttemptStarted {
            attempt: attempt(rt, 0, 0),
            node: 0,
        },
        Record::ReduceSucceeded {
            attempt: attempt(rt, 0, 0),
            bytes: None,
        },
    ];
    confirm_eq!(rt; records.as_slice(), wanted.as_slice());
    drop(records);
    drop(entries);
}

#[test]
fn how_long_lines_are(rt: HostRuntime) {
    let rt = &rt;
    let handed = Handed::File {
        inode: 262147,
        bytes: 1048576,
    };
    let won = Line::Won {
        attempt: attempt(rt, 15, 0),
        handed,
    };
    confirm_eq!(rt; won.len(), 19);
    confirm_eq!(rt; Line::Failed(attempt(rt, 3, 1)).len(), 11);
    confirm_eq!(rt; Line::Published.len(), 10);
}
