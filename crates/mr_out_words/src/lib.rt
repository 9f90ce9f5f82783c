//! What the words of `mrout`'s command line ask for.
//!
//! # How to begin
//!
//! `subcommands` are clap's command lines of the commands; `asked_of` is what the words ask for.
//!
//! # What is proved
//!
//! - Each function is safe, and returns.
//! - `asked_of` gives the command of the name that was parsed, with its directory, and each text, number and flag as clap tells
//!   them (`IsAskedBy`). It gives nothing where no command has that name.
//!
//! Which numbers are taken, and which words go together, is clap's; `tools/mrout_rows` tries them.
#![tactic(auto)]

mod asked;
mod help;
mod words;

pub use asked::{Asked, Command, Failing};
pub use words::{asked_of, subcommands};
