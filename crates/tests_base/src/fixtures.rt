//! What the tests begin with: identifiers, callers, paths and an empty namespace.

use mr_ids::{AppAttempt, AttemptId, JobId, TaskId, TaskKind};
use mr_names::{Caller, Namespace};
use mr_paths::Path;
use std::alloc::Global;
use std::process::Abort;

/// The job of the tests.
pub const JOB: JobId = JobId {
    start: 200707121733,
    number: 3,
};

/// Its first reduce.
pub const TASK: TaskId = TaskId {
    job: JOB,
    kind: TaskKind::Reduce,
    number: 0,
};

/// The generation of this number.
pub fn generation(rt: &impl Abort, number: u32) -> AppAttempt {
    AppAttempt::new(number).expect(rt, "no generation has this number")
}

/// A caller of this generation that is no container.
pub fn by_generation(rt: &impl Abort, number: u32) -> Caller {
    Caller {
        app: generation(rt, number),
        attempt: None,
    }
}

/// The attempt of this number at the task.
pub fn attempt(rt: &impl Abort, task: TaskId, number: u32) -> AttemptId {
    AttemptId::new(task, number).expect(rt, "no attempt has this number")
}

/// The path with this text.
pub fn path(rt: &impl Abort, alloc: Global, text: &str) -> Path {
    Path::parse(alloc, text).expect(rt, text)
}

/// An empty namespace.
pub fn new_namespace(rt: &impl Abort, alloc: Global) -> Namespace {
    Namespace::new(alloc).expect(rt, "no memory")
}
