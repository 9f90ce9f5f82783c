//! A command of an output directory as a step machine, over the records of its history and the calls of a disk.
//!
//! Whoever runs a command holds the lock of the directory. As long as `call` names a call, it is made on the disk, and its
//! answer is handed to `took`. Then `outcome` tells how the command ended.
//!
//! # What is proved
//!
//! - `Command::call`, `outcome` and `took` are exactly `next_call`, `outcome_in` and `heard` of the definitions in
//!   mr_out_steps, a refusal of memory aside (`Takes`): then the command has ended, as one that was killed there.
//! - `standing_of`, `winner`, `winners`, `successes`, `is_over`, `first_alive` and `is_alive_at` say exactly what the records tell.
//!
//! What a run of commands keeps, whatever kills and power cuts come, is said in mr_out_model, over the same
//! definitions.
#![tactic(auto)]

mod attempts;
mod command;
mod orders;
mod standing;

pub use attempts::{first_alive, is_alive_at};
pub use command::Command;
pub use standing::{is_over, standing_of, successes, winner, winners};
