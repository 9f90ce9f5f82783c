//! What several tests take.

use mr_ids::{AttemptId, JobId, TaskId, TaskKind};
use mr_log_entries::{Line, Lines, Origin};
use std::alloc::Global;
use std::process::Abort;

pub const JOB: JobId = JobId {
    start: 200707121733,
    number: 3,
};

pub const ORIGIN: Origin = Origin {
    boot: 1,
    time: 1700000000,
    id: 64,
};

pub fn attempt(rt: &impl Abort, task: u32, number: u32) -> AttemptId {
    let task = TaskId {
        job: JOB,
        kind: TaskKind::Reduce,
        number: task,
    };
    AttemptId::new(task, number).expect(rt, "no attempt's number")
}

pub fn lines(rt: &impl Abort, alloc: Global, lines: &[Line]) -> Lines {
    Lines::from_vec(Vec::from_slice(alloc, lines).expect(rt, "no memory"))
}
