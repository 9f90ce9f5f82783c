//! The store calls of a master, row by row: which call is due, how it is answered, and what comes of that.

use crate::masters::{MAP, REDUCE, attempt, due};
use crate::sent::{is_failure, is_kill};
use mr_history::{HistoryFault, Record, Records};
use mr_ids::Bytes;
use mr_master::MasterMachine;
use mr_master_model::{DutyName, Phase, StoreAnswer};
use mr_names::{Answer, Entries, Kind, NameFault};
use mr_packet::Envelope;
use std::alloc::Global;
use std::process::Abort;

/// How a store call is answered.
#[derive(Clone, Copy)]
pub enum Said {
    /// The call of the namespace is made.
    Done,
    /// Nothing is at the path.
    Absent,
    /// A directory is at the path.
    There,
    /// The file has two bytes.
    TwoBytes,
    /// The file has three bytes.
    ThreeBytes,
    /// There is nothing to list.
    Nothing,
    /// Nothing is at the path, where something has to be.
    Missing,
    /// Something is at the path already.
    Exists,
    /// A later master is there, as the namespace tells.
    Superseded,
    /// What is due of the history is written.
    Wrote,
    /// There is no room for the record.
    Full,
    /// A later master is there, as the history tells.
    Late,
    /// The first line of the history is no record.
    BadLine,
    /// The history has no record.
    NoRecord,
    /// It has one: the job failed.
    JobFailed,
    /// It has one: the first attempt at the reduce succeeded. How long its part file is was not told.
    ReduceSucceeded,
    /// The same, and the part file has three bytes.
    ReduceOfThreeBytes,
    /// It has two: attempt 0 of the map succeeded on node 0, and then attempt 1 on node 1.
    MapsSucceeded,
    /// The call was not applied, or its answer was lost.
    Fault,
}

/// What comes of it. A later row speaks of the master as it was before a row of its copy.
#[derive(Clone, Copy)]
pub enum Then {
    /// Nothing is sent.
    Silent,
    /// One packet is sent.
    One,
    /// Container 1 is asked to stop.
    Kills,
    /// Nothing is sent, the master is Stopped, and nothing is due any more.
    Stops,
    /// The same of a copy of the master.
    WouldStop,
    /// Of a copy: nothing is sent, and the job commit fails, so that the mark of that is next.
    WouldFail,
    /// The one node is told that the job failed, and the master is Ended.
    EndsOnOne,
    /// Each of the two nodes is.
    EndsOnTwo,
}

/// What is due, how it is answered, and what comes of that.
pub type Row = (DutyName, Said, Then);

/// The store calls that are due are those of the rows, in turn. Each is answered so, and this comes of it. A copy is the same until it is answered.
pub fn answers(rt: &impl Abort, alloc: Global, master: &mut MasterMachine, rows: &[Row]) {
    for row in rows {
        match row.2 {
            Then::WouldStop | Then::WouldFail => {
                let mut copy = master.copy().expect(rt, "no memory");
                confirm!(rt; copy.is_same(master));
                is_answered(rt, alloc, &mut copy, row);
                confirm!(rt; !copy.keeps_same(master));
                drop(copy);
            }
            _ => is_answered(rt, alloc, master, row),
        }
    }
}

// The same of one row, and of no copy.
fn is_answered(rt: &impl Abort, alloc: Global, master: &mut MasterMachine, row: &Row) {
    let (name, said, then) = *row;
    confirm_eq!(rt; due(rt, master), Some(name));
    let answer = answer(rt, alloc, said);
    let sent = master.answer(answer).expect(rt, "no memory");
    confirm!(rt; holds(rt, master, &sent, then), &name);
    drop(sent);
}

// Whether this came of an answer, for which these packets are sent.
fn holds(rt: &impl Abort, master: &MasterMachine, sent: &[Envelope], then: Then) -> bool {
    let phase = master.phase();
    match then {
        Then::Silent => sent.len() == 0,
        Then::One => sent.len() == 1,
        Then::Kills => is_kill(rt, sent, 1),
        Then::Stops | Then::WouldStop => {
            sent.len() == 0 && phase == Phase::Stopped && due(rt, master).is_none()
        }
        Then::WouldFail => {
            sent.len() == 0 && phase == Phase::Committing && due(rt, master) == Some(DutyName::Fail)
        }
        Then::EndsOnOne => sent.len() == 1 && is_failure(&sent[0], 0) && phase == Phase::Ended,
        Then::EndsOnTwo => {
            sent.len() == 2
                && is_failure(&sent[0], 0)
                && is_failure(&sent[1], 1)
                && phase == Phase::Ended
        }
    }
}

// The answer as a value.
fn answer(rt: &impl Abort, alloc: Global, said: Said) -> StoreAnswer {
    match said {
        Said::Done => StoreAnswer::Names(Ok(Answer::Done)),
        Said::Absent => StoreAnswer::Names(Ok(Answer::Found(None))),
        Said::There => StoreAnswer::Names(Ok(Answer::Found(Some(Kind::Dir)))),
        Said::TwoBytes => contents(rt, alloc, b"ab"),
        Said::ThreeBytes => contents(rt, alloc, b"abc"),
        Said::Nothing => StoreAnswer::Names(Ok(Answer::Listed(Entries::new(alloc)))),
        Said::Missing => StoreAnswer::Names(Err(NameFault::Missing)),
        Said::Exists => StoreAnswer::Names(Err(NameFault::Exists)),
        Said::Superseded => StoreAnswer::Names(Err(NameFault::Superseded(2))),
        Said::Wrote => StoreAnswer::Wrote(Ok(())),
        Said::Full => StoreAnswer::Wrote(Err(HistoryFault::Full)),
        Said::Late => StoreAnswer::Wrote(Err(HistoryFault::Superseded(2))),
        Said::BadLine => StoreAnswer::Unread(HistoryFault::BadLine(1)),
        Said::Fault => StoreAnswer::Fault,
        Said::NoRecord => StoreAnswer::Told(Records::new(alloc)),
        Said::JobFailed | Said::ReduceSucceeded | Said::ReduceOfThreeBytes => {
            StoreAnswer::Told(records(rt, alloc, said, 1))
        }
        Said::MapsSucceeded => StoreAnswer::Told(records(rt, alloc, said, 2)),
    }
}

// What is in a file.
fn contents(rt: &impl Abort, alloc: Global, bytes: &[u8]) -> StoreAnswer {
    let bytes = Bytes::from_slice(alloc, bytes).expect(rt, "no memory");
    StoreAnswer::Names(Ok(Answer::Contents(bytes)))
}

// So many records that tell this.
fn records(rt: &impl Abort, alloc: Global, said: Said, count: u32) -> Records {
    let mut records = Records::new(alloc);
    for number in 0..count {
        let record = record(rt, said, number);
        records.push(record).expect(rt, "no memory");
    }
    records
}

// The record that tells this, of the attempt of this number on the node of this number.
fn record(rt: &impl Abort, said: Said, number: u32) -> Record {
    match said {
        Said::JobFailed => Record::JobUnsuccessful,
        Said::ReduceSucceeded => Record::ReduceSucceeded {
            attempt: attempt(rt, REDUCE, number),
            bytes: None,
        },
        Said::ReduceOfThreeBytes => Record::ReduceSucceeded {
            attempt: attempt(rt, REDUCE, number),
            bytes: Some(3),
        },
        Said::MapsSucceeded => Record::MapSucceeded {
            attempt: attempt(rt, MAP, number),
            node: number,
            incarnation: 1,
        },
        _ => panic!(rt; "no record tells this"),
    }
}
