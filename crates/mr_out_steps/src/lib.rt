//! What a command of an output directory does of each answer, over the records of its history and the calls of a disk.
//!
//! The winner of a task is the attempt whose success is recorded first in the durable part of the history. A command is
//! pure: a phase names the call that is made next (`Phase::call`), a word leads to a turn (`Phase::hears`). So "killed
//! anywhere" is "behind any answer", and whoever runs it makes each call on a real disk, or on one in memory.
//!
//! # What is defined
//!
//! `standing` tells how an attempt stands by the records, `winners` who won each task. `Command` is a command between
//! two calls, `next_call` its call, and `heard` what it is once that was answered.
//!
//! # What is proved
//!
//! `Phase::call`, `outcome` and `hears` are exactly `call_in`, `outcome_in` and `turn`: one table of phases and words.
//! The lists behind them are those of mr_out_machine.
#![tactic(auto)]

mod order;
mod phase;
mod standing;

pub use order::{Order, Outcome};
pub use phase::{Phase, Turn};
pub use standing::Standing;
