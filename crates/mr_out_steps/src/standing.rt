//! How an attempt stands, by the records of a job's history.

/// How an attempt stands, by the records of its job's history.
#[derive(Clone, Copy, Debug, PartialEq, Eq)]
pub enum Standing {
    /// It is the winner of its task.
    Won,
    /// Another attempt is the winner of its task.
    Beaten,
    /// It failed, or was given up.
    GivenUp,
    /// The job was ended as failed.
    JobOver,
    /// It was started, and nothing more is recorded.
    UnderWay,
    /// It is no attempt of this job, or was not started.
    Unknown,
}
