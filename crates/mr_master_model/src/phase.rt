//! The phases of a master, what each of its store calls is for, and why it launches nothing on a node or does not give it up.
use mr_task::TaskFault;
use thiserror::Error;

/// The phase of a master.
#[derive(Clone, Copy, Debug, PartialEq, Eq)]
pub enum Phase {
    /// It looks for the marks of a job commit, then reads the earlier segments.
    Opening,
    /// It sets the job up, then takes over each reduce that has a winner.
    Recovering,
    /// It launches attempts and hears of them.
    Running,
    /// It commits the job.
    Committing,
    /// The job failed: that is recorded, then the job's work is deleted.
    Failing,
    /// It told the outcome.
    Ended,
    /// A call was refused, or its answer was lost: it does nothing more, and tells no outcome.
    Stopped,
}

/// What a store call of a master is for.
#[derive(Clone, Copy, Debug, PartialEq, Eq)]
pub enum DutyName {
    /// It looks for a mark in the staging folder.
    Marks,
    /// It reads the earlier segments.
    Read,
    /// A call of job setup.
    Setup,
    /// A call of task recovery.
    Recover,
    /// It bars an attempt on a node that it gave up.
    Bar,
    /// It appends the first record that is due.
    Append,
    /// It makes what was appended stable.
    Flush,
    /// It creates `COMMIT_STARTED`.
    Started,
    /// A call of job commit that merges.
    Merge,
    /// Job commit deletes what was temporary.
    Cleanup,
    /// Job commit creates the marker.
    Marker,
    /// It creates `COMMIT_SUCCESS`.
    Success,
    /// It creates `COMMIT_FAIL`.
    Fail,
    /// The call of job abort.
    Abort,
}

/// Why a master launches nothing on a node, or does not give the node up. Each prints as its variant, `Task` with what
/// it holds behind it, as `Task AlreadyWon`.
#[derive(Clone, Copy, Debug, PartialEq, Eq, Error)]
pub enum LaunchFault {
    /// It is not Running.
    #[error("NotRunning")]
    NotRunning,
    /// The job has no such task.
    #[error("NoTask")]
    NoTask,
    /// There is no such node.
    #[error("NoNode")]
    NoNode,
    /// The task refuses it.
    #[error("Task {0}")]
    Task(TaskFault),
}
