//! What a command of an output directory with a log of names does of each answer.
//!
//! Any number of commands may be under way at once. A command reads the log, syncs it, and decides by what it read; it
//! puts its own entry right after that front, where nobody else has put one. Where somebody has, it reads on and decides
//! again. It says, makes and removes nothing by an entry that is not durable, its own or another's.
//!
//! # What is defined
//!
//! `Command` is a command between two calls, `next_call` its call, and `heard` what it is once that was answered. So
//! "killed anywhere" is "after any answer". What is handed in, and what is published of a winner, are lists of single
//! calls (`handing`, `publication`), each of which may be made again by another command. No code is written by these
//! definitions yet.
//!
//! # Choices
//!
//! Everything is decided anew from the longer front (`decides`): after each own entry, after one that somebody else put
//! first, after anything that was found amiss. So what a command says is what the durable entries say, whoever put them.
//!
//! What is found amiss is said only if it still matters (`amiss`): where the command, after it read and synced the log
//! again, would do the same once more.
//!
//! One's own entry is known by where it came from, at the very name that was put. Only who begins attempts needs that.
//!
//! A file's sync that failed ends its attempt; a folder's does not. A later sync of the file may answer well and not mean
//! it. Whatever else goes wrong while the note is held, the note is removed first, so that `done` may be said again.
//!
//! Who has made the marker durable remembers it (`is_shown`), and publishes once, however often somebody else puts an
//! entry first.
#![tactic(auto)]

mod phase;

pub use phase::{Phase, Step};
