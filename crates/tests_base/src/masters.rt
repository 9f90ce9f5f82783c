//! Calls of a history by its masters, each with its answer, in one row.

use crate::fixtures::{JOB, generation};
use mr_history::{History, HistoryFault, Record};
use mr_ids::{AppAttempt, AttemptId, TaskId, TaskKind};
use std::process::Abort;

/// The attempt of this number at a task of the job.
pub fn attempt(rt: &impl Abort, kind: TaskKind, task: u32, number: u32) -> AttemptId {
    let task = TaskId {
        job: JOB,
        kind,
        number: task,
    };
    crate::fixtures::attempt(rt, task, number)
}

/// The first attempt at map 0 was started.
pub fn started(rt: &impl Abort) -> Record {
    Record::AttemptStarted {
        attempt: attempt(rt, TaskKind::Map, 0, 0),
        node: 0,
    }
}

/// The first attempt at reduce 0 succeeded.
pub fn reduced(rt: &impl Abort) -> Record {
    Record::ReduceSucceeded {
        attempt: attempt(rt, TaskKind::Reduce, 0, 0),
        bytes: None,
    }
}

/// A call of the master of a generation, or what is asked of the history.
#[derive(Clone, Copy)]
pub enum Call {
    /// The generation is raised to, its segment has version 1, and so many bytes of each older tail are kept.
    Raise,
    /// The same, and its segment has version 2.
    RaiseWithVersion2,
    /// The record that an attempt was started is appended.
    Started,
    /// The record that a reduce succeeded is appended.
    Reduced,
    /// The record that the job was unsuccessful is appended.
    Unsuccessful,
    Flush,
    /// So many bytes of the tail are kept.
    Seal,
    /// An append and a flush are foreseen.
    Foresee,
    /// The tail has so many bytes.
    HasTail,
    IsRaised,
    IsUnraised,
    HasFence,
}

/// How a call is answered.
#[derive(Clone, Copy)]
pub enum Is {
    Done,
    Sealed,
    /// Generation 2 has the fence.
    Before2,
    /// Generation 4 has the fence.
    Before4,
}

/// The generation of this number calls, with a count of bytes, and is answered.
pub type Row = (u32, Call, usize, Is);

/// The calls of the rows are made in turn, and each answer is its row's.
pub fn hold(rt: &impl Abort, history: &mut History, rows: &[Row]) {
    for (number, call, count, is) in rows {
        let k = generation(rt, *number);
        let fault = calls(rt, history, k, *call, *count);
        confirm!(rt; fault == refusal(*is), &(k, fault));
    }
}

fn refusal(is: Is) -> Option<HistoryFault> {
    match is {
        Is::Done => None,
        Is::Sealed => Some(HistoryFault::Sealed),
        Is::Before2 => Some(HistoryFault::Superseded(2)),
        Is::Before4 => Some(HistoryFault::Superseded(4)),
    }
}

// The refusal of a call, if there is one.
fn calls(
    rt: &impl Abort,
    history: &mut History,
    k: AppAttempt,
    call: Call,
    count: usize,
) -> Option<HistoryFault> {
    match call {
        Call::Raise => history.raise(k, count, 1),
        Call::RaiseWithVersion2 => history.raise(k, count, 2),
        Call::Started => return appends(rt, history, k, started(rt)),
        Call::Reduced => return appends(rt, history, k, reduced(rt)),
        Call::Unsuccessful => return appends(rt, history, k, Record::JobUnsuccessful),
        Call::IsRaised => confirm!(rt; history.is_raised(k), &k),
        Call::IsUnraised => confirm!(rt; !history.is_raised(k), &k),
        Call::HasFence => confirm!(rt; history.fence() == k.number(), &k),
        call => return calls_raised(rt, history, k, call, count),
    }
    None
}

fn appends(
    rt: &impl Abort,
    history: &mut History,
    k: AppAttempt,
    record: Record,
) -> Option<HistoryFault> {
    assert!(rt; history.is_raised(k));
    assert!(rt; record.fits() && record.suits(history.version(k)));
    history.append(k, record).err()
}

// The other calls of a generation that was raised to.
fn calls_raised(
    rt: &impl Abort,
    history: &mut History,
    k: AppAttempt,
    call: Call,
    count: usize,
) -> Option<HistoryFault> {
    assert!(rt; history.is_raised(k));
    match call {
        Call::Flush => return history.flush(k).err(),
        Call::Seal => history.seal(k, count),
        Call::Foresee => {
            let refusal = history.append_refusal(k, &Record::JobUnsuccessful);
            confirm_eq!(rt; history.flush_refusal(k), refusal);
            return refusal;
        }
        _ => confirm!(rt; history.tail(k) == count, &count),
    }
    None
}

/// The stable part of the segment of this generation is this text.
pub fn is_stable(rt: &impl Abort, history: &History, number: u32, text: &str) {
    let k = generation(rt, number);
    assert!(rt; history.is_raised(k));
    confirm_eq!(rt; history.stable(k), text.as_bytes());
}

/// The call is done, or refused so.
pub fn is_told(rt: &impl Abort, answer: Result<(), HistoryFault>, want: Option<HistoryFault>) {
    confirm_eq!(rt; answer.err(), want);
}
