//! The names of an output directory that a command looks at or changes, and the folders in which they stand.
use mr_ids::AttemptId;

/// A folder whose names become durable together, when it is synced.
#[derive(Clone, Copy, Debug, PartialEq, Eq)]
pub enum Folder {
    /// The output directory itself: what a reader sees.
    Output,
    /// The files that were handed in, by attempt.
    Kept,
    /// The files that attempts write, by attempt.
    Work,
    /// What the commands keep for themselves, but for the two folders above.
    Home,
}

/// A name of an output directory.
#[derive(Clone, Copy, Debug, PartialEq, Eq)]
pub enum Place {
    /// The visible part file of a task, by the task's number.
    Part(u32),
    /// The success marker.
    Marker,
    /// The file that an attempt handed in, until the job is published.
    Kept(AttemptId),
    /// The file that an attempt writes.
    Work(AttemptId),
    /// The decision that a held job is published.
    Decision,
    /// The folder of what the commands keep for themselves: the history, and all that is handed in or written. It stands
    /// in the output directory, hidden.
    Home,
}
