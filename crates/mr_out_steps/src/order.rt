//! What a command is asked to do, and how it ends.
use crate::standing::Standing;
use mr_ids::AttemptId;

/// What a command is asked to do.
#[derive(Clone, Copy, Debug, PartialEq, Eq)]
pub enum Order {
    /// The attempt has written its file: it is handed in, and counts where it is the first of its task.
    Done(AttemptId),
    /// The attempt failed, or is given up.
    Fail(AttemptId),
    /// How does the attempt stand? Nothing is changed.
    Ask(AttemptId),
    /// What a killed command left is finished.
    Resume,
    /// The job is ended as failed, unless it is published or will be.
    Abort,
    /// A held job is published, if all of its tasks are won.
    Publish,
    /// The history of a published job is forgotten, with all else that the commands keep for themselves.
    Forget,
    /// An attempt is begun, at the first task that has no winner and none under way.
    StartNext,
    /// An attempt is begun at the task with this number, beside one that is under way at most.
    StartAt(u32),
    /// What is under way at the task with this number is given up, and an attempt is begun there.
    StartOver(u32),
}

/// How a command ends.
#[derive(Clone, Copy, Debug, PartialEq, Eq)]
pub enum Outcome {
    /// So the attempt of the order stands, by records that are durable. What there is to publish is published.
    Stands(Standing),
    /// The order was carried out. What there is to publish is published.
    Finished,
    /// There is nothing to begin, or to end as failed, since each task that the order is about has a winner. What there
    /// is to publish is published.
    AllWon,
    /// This attempt was begun: its start is durable, and the folder in which it writes is there.
    Started(AttemptId),
    /// No attempt was begun: enough are under way wherever there is no winner.
    Busy,
    /// No attempt was begun, or nothing is published, since the job was ended as failed.
    JobOver,
    /// Nothing is published, since some task has no winner.
    NotAllWon,
    /// Nothing is forgotten, since the job is not published.
    Unpublished,
    /// No attempt was begun, since the task or the job has as many as it may have.
    Full,
    /// The attempt has no file: none where it writes it, and none that was handed in. Nothing changed.
    NoFile,
    /// What stands where the attempt writes its file is no regular file, or has another name too. Nothing changed.
    NotAFile,
    /// The attempt's file was written while it was synced. It is claimed, and nothing is recorded.
    StillWritten,
    /// The visible name of this winner's task is taken by something else. Nothing is replaced, and no marker is made.
    Foreign(AttemptId),
    /// The file of this winner is neither kept nor visible. No marker is made.
    Vanished(AttemptId),
    /// A call failed that changes no record; the next command goes on from there.
    Failed,
    /// An append or a sync of the history failed: it is not known whether what was appended is durable.
    NotKnown,
    /// Memory was refused. The command ended where it was.
    NoMemory,
}
