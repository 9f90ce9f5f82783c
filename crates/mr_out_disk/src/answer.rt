//! What a disk answers.
use mr_history::Records;
use mr_ids::AttemptId;
use std::collections::LinkedList;

/// What a disk answers to a call.
#[derive(Drop)]
pub enum Answer {
    /// A word.
    Says(Reply),
    /// The records of the history, in order.
    Told(Records),
    /// The attempts that have a name in the folder of the files that were handed in, in any order.
    Listed(LinkedList<AttemptId>),
}

/// An answer in a word.
#[derive(Clone, Copy, Debug, PartialEq, Eq)]
pub enum Reply {
    /// The call was made.
    Done,
    /// Nothing stands at the first name; nothing changed.
    Missing,
    /// The new name is taken; nothing changed.
    Taken,
    /// The file that stands at the name, by the number that the disk gave it.
    Found(u64),
    /// What stands at the name is no regular file, or has another name where it may have none.
    Odd,
    /// The file was written while it was synced.
    Grew,
    /// The call failed: it was not made, and of a sync nothing is known.
    Failed,
}
