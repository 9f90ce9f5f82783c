//! How an attempt stands, and what its task's winner handed in.
use mr_ids::AttemptId;
use mr_log_entries::Handed;

/// How an attempt stands, by the log of its job.
#[derive(Clone, Copy, Debug, PartialEq, Eq)]
pub enum Standing {
    /// It is the winner of its task.
    Won,
    /// Another attempt is the winner of its task.
    Beaten,
    /// It failed, was given up, or was cut off.
    GivenUp,
    /// The job was ended as failed.
    JobOver,
    /// It was started, and nothing more is recorded.
    UnderWay,
    /// It was not started, or is no attempt of this job.
    Unknown,
}

/// The winner of a task, and what it handed in.
#[derive(Clone, Copy, Debug, PartialEq, Eq)]
pub struct Win {
    pub attempt: AttemptId,
    pub handed: Handed,
    /// The id of the entry, which the list of what was handed in has in its name.
    pub id: u64,
}
