//! What a disk answers.
use crate::place::{Items, Node};
use mr_log_entries::Entries;

/// What a disk answers to a call.
#[derive(Drop)]
pub enum Answer {
    /// A word.
    Says(Reply),
    /// The entries of the log from the number on that was asked for, in order.
    Told(Entries),
    /// What an attempt handed in.
    Listed(Items),
}

/// An answer in a word.
#[derive(Clone, Copy, Debug, PartialEq, Eq)]
pub enum Reply {
    /// The call was made.
    Done,
    /// Nothing stands at the first name; nothing changed.
    Missing,
    /// The new name is taken. An entry may be taken by what this very call made, where a disk sends a call twice.
    Taken,
    /// What stands at the name.
    Found(Node),
    /// What stands there is none of the things that it may be.
    Odd,
    /// The file was written while it was synced.
    Grew,
    /// Another command that is under way holds the note.
    Held,
    /// The command that held the note has ended: a sync may have failed, and been said to nobody.
    Dead,
    /// The call failed: it was made or not, and of a sync nothing is known.
    Failed,
}
