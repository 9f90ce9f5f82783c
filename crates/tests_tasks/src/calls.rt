//! Calls of a task's machine with their answers, in one row.

use crate::fixtures::attempt_at;
use mr_attempt::AttemptState;
use mr_ids::AttemptId;
use mr_task::{DoneReply, TaskFault, TaskMachine};
use std::process::Abort;

/// A call of a machine, or what is read of it.
#[derive(Clone, Copy)]
pub enum Call {
    Launch,
    Heard,
    Pending,
    Ended,
    /// It ended, and was asked to.
    Stopped,
    Failed,
    Killed,
    Done,
    Recorded,
    Lost,
    CanCommit,
    State,
    Winner,
    Failures,
    Numbered,
    Count,
}

/// What is answered.
#[derive(Clone, Copy, Debug, PartialEq, Eq)]
pub enum Is {
    /// The call is done; of a launch, it gives the attempt.
    Fine,
    AlreadyWon,
    TooManyLive,
    TooManyAttempts,
    Unknown,
    Accepted,
    Again,
    Ignored,
    /// So it is of the attempt, or the number is read.
    Yes,
    No,
    /// There is no such attempt.
    Nobody,
    Running,
    Recording,
    Killed,
    /// There was no memory. No row wants it.
    NoMemory,
    /// What no row wants.
    Other,
}

/// A call with the number of its attempt, or a reading with the number that is read, and its answer.
pub type Row = (Call, u32, Is);

/// The calls of the rows are made in turn, and each answer is its row's.
pub fn hold(rt: &impl Abort, task: &mut TaskMachine, rows: &[Row]) {
    for (place, row) in rows.iter().enumerate() {
        let (call, number, want) = *row;
        let a = attempt_at(rt, task.task(), number);
        let told = answer(task, call, a);
        confirm!(rt; told == want, &(place, told));
    }
}

fn answer(task: &mut TaskMachine, call: Call, a: AttemptId) -> Is {
    match call {
        Call::Launch => launched(task.launch(), a),
        Call::Heard => called(task.heard(a)),
        Call::Pending => called(task.pending(a)),
        Call::Ended => called(task.ended(a, false)),
        Call::Stopped => called(task.ended(a, true)),
        Call::Failed => called(task.failed(a)),
        Call::Killed => called(task.killed(a)),
        Call::Done => replied(task.done(a)),
        Call::Recorded => called(task.recorded(a)),
        Call::Lost => called(task.lost(a)),
        reading => read(task, reading, a),
    }
}

fn read(task: &TaskMachine, reading: Call, a: AttemptId) -> Is {
    match reading {
        Call::CanCommit => yes_or_no(task.can_commit(a)),
        Call::State => state(task.state(a)),
        Call::Winner => match task.winner() {
            None => Is::Nobody,
            Some(winner) => yes_or_no(winner == a),
        },
        Call::Failures => yes_or_no(task.failures() == a.number()),
        Call::Numbered => yes_or_no(task.numbered() == a.number()),
        Call::Count => yes_or_no(task.arrived().len() == a.number() as usize),
        _ => Is::Other,
    }
}

fn launched(answer: Result<AttemptId, TaskFault>, a: AttemptId) -> Is {
    match answer {
        Ok(given) if given == a => Is::Fine,
        Err(TaskFault::AlreadyWon) => Is::AlreadyWon,
        Err(TaskFault::TooManyLive) => Is::TooManyLive,
        Err(TaskFault::TooManyAttempts) => Is::TooManyAttempts,
        Err(TaskFault::NoMemory) => Is::NoMemory,
        _ => Is::Other,
    }
}

fn called(answer: Result<(), TaskFault>) -> Is {
    match answer {
        Ok(()) => Is::Fine,
        Err(TaskFault::Unknown) => Is::Unknown,
        Err(TaskFault::NoMemory) => Is::NoMemory,
        Err(_) => Is::Other,
    }
}

fn replied(answer: Result<DoneReply, TaskFault>) -> Is {
    match answer {
        Ok(DoneReply::Accepted) => Is::Accepted,
        Ok(DoneReply::Again) => Is::Again,
        Ok(DoneReply::Ignored) => Is::Ignored,
        Err(_) => Is::Other,
    }
}

fn state(state: Option<AttemptState>) -> Is {
    match state {
        None => Is::Nobody,
        Some(AttemptState::Running) => Is::Running,
        Some(AttemptState::Recording) => Is::Recording,
        Some(AttemptState::Killed) => Is::Killed,
        Some(_) => Is::Other,
    }
}

fn yes_or_no(so: bool) -> Is {
    if so { Is::Yes } else { Is::No }
}
