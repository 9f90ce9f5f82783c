//! The words of `mrsim step`.
use crate::wish::Wish;
use mr_ids::{AppAttempt, AttemptId, TaskId};
use mr_paths::{Layout, Path, PathFault};
use mr_script::number;
use std::alloc::{AllocError, Global};

/// What `mrsim step` is asked for.
#[derive(Drop)]
pub struct Asked {
    /// The operation.
    pub wish: Wish,
    /// The generation of the master.
    pub generation: AppAttempt,
    /// Where the job's output goes.
    pub layout: Layout,
}

impl Asked {
    /// What is asked for by the words of an operation, the path of the destination and the generation; none where the words are no operation's, or
    /// the path is none.
    pub fn of(
        alloc: Global,
        operation: &[&str],
        dest: &str,
        generation: AppAttempt,
    ) -> Result<Option<Asked>, AllocError> {
        let Some(wish) = wish_of(operation) else {
            return Ok(None);
        };
        match Path::parse(alloc, dest) {
            Ok(dest) => Ok(Some(Asked {
                wish,
                generation,
                layout: Layout { dest },
            })),
            Err(PathFault::BadName) => Ok(None),
            Err(PathFault::NoMemory) => Err(AllocError),
        }
    }
}

// The operation that these words name.
fn wish_of(words: &[&str]) -> Option<Wish> {
    match words {
        ["setup-job"] => Some(Wish::SetupJob),
        ["commit-task", attempt] => Some(Wish::CommitTask(AttemptId::parse(attempt).ok()?)),
        ["abort-task", attempt] => Some(Wish::AbortTask(AttemptId::parse(attempt).ok()?)),
        ["commit-job"] => Some(Wish::CommitJob),
        ["abort-job"] => Some(Wish::AbortJob),
        ["recover-task", task] => Some(Wish::RecoverTask(TaskId::parse(task).ok()?, None)),
        ["recover-task", task, bytes] => Some(Wish::RecoverTask(
            TaskId::parse(task).ok()?,
            Some(number(bytes.as_bytes())?),
        )),
        _ => None,
    }
}
