//! The calls of a disk, each of which one call of a real file system makes, or a plain loop of such calls.
use crate::place::{Folder, Items, Place};
use mr_ids::AttemptId;
use mr_log_entries::Entry;

/// A call of a disk.
#[derive(Drop)]
pub enum Call {
    /// Reads the log from the entry with this number on (the first has 0), up to a name that it finds absent. Answers: `Told`.
    ReadLog {
        from: u64,
    },
    /// Makes the entry with this number, where there is none. Answers: `Done`, `Taken`.
    Put {
        number: u64,
        entry: Entry,
    },
    /// Syncs a folder. Answers: `Done`.
    SyncFolder(Folder),
    /// Makes the folder in which an attempt writes. Answers: `Done`, `Taken`.
    MakeWork(AttemptId),
    /// Renames the folder in which an attempt wrote to where it is kept, where nothing is kept of it. Answers: `Done`,
    /// `Missing`, `Taken`.
    Claim(AttemptId),
    /// Takes the note that a command syncs what an attempt handed in. Answers: `Done`, `Held` by a command that is under way,
    /// `Dead` where the command that held it has ended amid its syncs, `Missing` where nothing is kept.
    TakeNote(AttemptId),
    /// Removes that note. Answers: `Done`.
    DropNote(AttemptId),
    /// Lists what is kept of an attempt. Answers: `Listed`, `Missing`, and `Odd` where anything may not be handed in.
    ListKept(AttemptId),
    /// Syncs the file at a name. Answers: `Done`, `Missing`, and `Grew` where it was written meanwhile.
    SyncFile(Place),
    /// Writes the list of what an attempt hands in, under a name of its own, and syncs it. Answers: `Done`.
    WriteList {
        attempt: AttemptId,
        id: u64,
        items: Items,
    },
    /// Reads that list. Answers: `Listed`, `Missing`, `Odd`.
    ReadList {
        attempt: AttemptId,
        id: u64,
    },
    /// Gives a file one more name, which is not taken. Answers: `Done`, `Missing`, `Taken`.
    Link {
        from: Place,
        to: Place,
    },
    /// Makes a folder at a name, which is not taken. Answers: `Done`, `Taken`.
    MakeFolder(Place),
    /// Makes the success marker. Answers: `Done`, `Taken`.
    LinkMarker,
    /// Looks what stands at a name. Answers: `Found`, `Missing`, and `Odd` for what is neither a file nor a folder.
    Look(Place),
    /// Removes all that is left of an attempt. Answers: `Done`.
    Empty(AttemptId),
    /// Removes all that is left of all attempts. Answers: `Done`.
    EmptyAll,
    /// Renames away the folder of what the commands keep for themselves. Answers: `Done`, `Missing`.
    Forget,
}
