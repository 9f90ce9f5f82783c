//! What a command is asked to do, and how it ends.
use crate::standing::Standing;
use mr_ids::AttemptId;

/// What a command is asked to do.
#[derive(Clone, Copy, Debug, PartialEq, Eq)]
pub enum Order {
    /// The attempt has written all that it has to: it is handed in, and counts where it is the
    /// first of its task.
    Done(AttemptId),
    /// The attempt failed, or is given up.
    Fail(AttemptId),
    /// All attempts that are under way at the task with this number are given up.
    FailTask(u32),
    /// All attempts that are under way are given up.
    FailAll,
    /// How does the attempt stand? Nothing is changed.
    Ask(AttemptId),
    /// What a stopped command left is finished.
    Resume,
    /// The job is ended as failed, unless it is published or will be.
    Abort,
    /// A held job is published, if all of its tasks are won.
    Publish,
    /// The log of a published job is forgotten, with all else that the commands keep for
    /// themselves.
    Forget,
    /// An attempt is begun, at the first task that has no winner and none under way.
    StartNext,
    /// An attempt is begun at each task that has no winner and none under way.
    StartAll,
    /// An attempt is begun at the task with this number, next to one that is under way at most.
    StartAt(u32),
    /// What is under way at the task with this number is given up, and an attempt is begun there.
    StartOver(u32),
}

/// How a command ends.
#[derive(Clone, Copy, Debug, PartialEq, Eq)]
pub enum Outcome {
    /// So the attempt of the order stands, by entries that are durable. What there is to publish is
    /// published.
    Stands(Standing),
    /// The order was carried out. What there is to publish is published.
    Finished,
    /// There is nothing to begin, or to end as failed, since each task that the order is about has
    /// a winner. What there is to publish is published.
    AllWon,
    /// This attempt was begun: its start is durable, and the folder in which it writes is there.
    Started(AttemptId),
    /// No attempt was begun: enough are under way wherever there is no winner.
    Busy,
    /// No attempt was begun, or nothing is published, since the job was ended as failed.
    JobOver,
    /// Nothing is published, since some task has no winner.
    NotAllWon,
    /// Nothing is forgotten, since the job is not published.
    Unpublished,
    /// No attempt was begun, since the task has as many as it may have.
    Full,
    /// The job has no task with this number. Nothing changed.
    NoTask,
    /// The attempt was begun in another boot than the one in which it is handed in, so that some of
    /// what it wrote may be lost. Nothing changed.
    OtherBoot,
    /// Another command is handing the attempt in. Nothing changed.
    StillSyncing,
    /// The attempt has nothing to hand in: nothing where it writes, and nothing that was claimed.
    /// Nothing is recorded.
    NoFile,
    /// Something that the attempt hands in is no regular file and no folder, or has another name
    /// too. Nothing is recorded.
    NotAFile,
    /// Something that the attempt hands in was written while it was synced. Nothing is recorded.
    StillWritten,
    /// A visible name of this winner's task is taken by something else. Nothing is replaced, and no
    /// marker is made.
    Foreign(AttemptId),
    /// Something that this winner handed in is neither kept nor visible. No marker is made.
    Vanished(AttemptId),
    /// The directory is another job's by now: no decision of the command counts.
    Replaced,
    /// A call failed that changes no entry; the next command goes on from there.
    Failed,
    /// A put or a sync of the log failed: it is not known whether what was put is durable.
    NotKnown,
    /// Memory was refused. The command ended where it was.
    NoMemory,
}
