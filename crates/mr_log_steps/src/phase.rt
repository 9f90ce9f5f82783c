//! Where a command is, by the call that it makes next.
use mr_ids::AttemptId;
use mr_log_disk::{Folder, Place};
use mr_log_standing::{Outcome, Win};

/// Where a command is, by the call that it makes next.
#[derive(Clone, Copy, Debug, PartialEq, Eq)]
pub enum Phase {
    /// The log is read, from the first entry on that is not known yet.
    Reading,
    /// What was found of it is synced, before anything follows from it.
    SyncingLog,
    /// An entry is put, after all that are known.
    Putting,
    /// It is made durable.
    SyncingPut,
    /// The name of the entry is taken: the log is read on.
    ReadingOn,
    /// The folder is made in which this attempt writes, whose start is durable.
    MakingWork(AttemptId),
    /// What the attempt wrote is claimed: from here on who writes by its path writes elsewhere.
    Claiming(AttemptId),
    /// The note is taken that it is synced.
    TakingNote(AttemptId),
    /// It is listed.
    ListingKept(AttemptId),
    /// It is made durable, call by call.
    HandingIn(AttemptId),
    /// All of it is durable, or something was found amiss: the note is removed.
    DroppingNote(AttemptId),
    /// The names beneath which it is kept are made durable.
    SyncingKept(AttemptId),
    /// The list of what this winner handed in is read.
    ReadingList(Win),
    /// What it handed in gets its visible names, call by call.
    Linking(Win),
    /// A visible name of it is there already. Is it what was handed in?
    Comparing(Win),
    /// All winners have their visible names: these are made durable, and then the marker, call by call.
    Marking,
    /// All that is left of this attempt, which can't win any more, is removed.
    Emptying {
        attempt: AttemptId,
        outcome: Outcome,
    },
    /// The job is published for good: all that is left of its attempts is removed.
    EmptyingAll(Outcome),
    /// The job is published for good: its log is forgotten.
    Forgetting,
    /// That is made durable.
    SyncingForgotten,
    /// The command has ended.
    Over(Outcome),
}

/// A single call of a list of them.
#[derive(Clone, Copy, Debug, PartialEq, Eq)]
pub enum Step {
    /// A file that is handed in is synced.
    SyncFile(Place),
    /// A folder is synced.
    SyncFolder(Folder),
    /// The list of what is handed in is written, under the name that the command's id gives.
    WriteList,
    /// A file, which is this one, gets its visible name.
    Link { from: Place, to: Place, file: u64 },
    /// A visible folder is made.
    MakeFolder(Place),
    /// The success marker is made.
    LinkMarker,
}
