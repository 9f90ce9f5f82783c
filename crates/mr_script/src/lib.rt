//! Scripts of a run: which events happen, one command per line, read whole before anything runs.
//!
//! | Command | What happens |
//! |---|---|
//! | `start K KEPT` | the master of generation K starts; of what the master before it did not flush, KEPT bytes stay |
//! | `crash K KEPT` | master K crashes, and KEPT bytes of what it did not flush stay |
//! | `duty K [FAULT]` | master K makes the store call that is due |
//! | `launch K m T N`, `launch K r T N` | master K launches an attempt of map T, of reduce T, on node N |
//! | `deliver I` | the packet at place I of the bag, from 0, is delivered |
//! | `step C [FAULT]` | container C makes the store call, or sends the packet, that it wishes to |
//! | `compute C` | container C computes what it wishes to compute |
//! | `die C` | container C ends before it is done |
//! | `restart N` | node N restarts |
//! | `expire K N` | master K gives node N up |
//! | `calm K`, `calm K all`, `calm K before NAME` | events happen without a fault until master K is through: at most 10,000, or all, or up to where one of that name would be next |
//! | `drop I` | the packet at place I of the bag is passed over by every later calm, whether it was sent before or is sent later |
//! | `expect r T ATTEMPT`, `expect r T none` | this attempt is expected to be the winner of reduce T, or none |
//! | `expect marker yes`, `expect marker no` | the success marker is expected to be there, or not |
//! | `expect outcome WORD` | the outcome is expected to be `succeeded`, `failed` or `none` |
//!
//! K is 1 to 1,000; C is K, a full stop and a number; KEPT and I are below 2^64, T, N and a container's number below 2^32. Numbers are
//! decimal with no zero in front. FAULT is `unavailable` (the call is not made) or `unanswered` (its answer is lost). ATTEMPT is an attempt's name in its
//! canonical spelling. Words have one space between and none at the ends. A line that is empty, or begins with `#`, says nothing: it is counted and skipped.
//!
//! Scripts of other commands are read in the same way: a `Language` says which line is which command, and `script_in` reads a script in
//! it. `mrsim committer` has one of its own.
//!
//! # What is proved
//!
//! - `script_in` answers exactly the commands of the text in a language, each with the number of its line (`AreLines`).
//!   Or it answers `BadCommand(n)`, where line n is the first that says something and is no command (`IsFirstNoLine`),
//!   or `NoMemory`.
//! - `commands_of` is that for the commands of the table: a line is a command exactly where it is the line that the command is written
//!   as (`IsLine`).
//! - `split_once` cuts at the first byte of a kind. `number`, `long_number` and `generation` read a word exactly where
//!   it is the decimal of a number below 2^32, below 2^64, from 1 to 1,000. `attempt` reads it exactly where it is an
//!   attempt's name, `event_named` exactly where it is the name of an event; `event_word` is the word of a name.
//!   `expected` reads words exactly where they are an expectation's. None of these takes memory.
//! - Laws, on functions that do nothing: a script has at most one reading (`one_reading`), is not both read and bad (`read_or_bad`), and
//!   has at most one first bad line (`one_first_bad`). No command is a comment (`comments_are_no_commands`).
//! - Only tested: that it succeeds with ample memory.
#![tactic(auto)]

mod arguments;
mod command;
mod event_name;
mod expectation;
mod laws;
mod line;
mod run;
mod script;
mod word;

pub use command::{Command, Until};
pub use event_name::{EventName, event_named, event_word};
pub use expectation::{Expectation, expected};
pub use laws::{comments_are_no_commands, one_first_bad, one_reading, read_or_bad};
pub use run::commands_of;
pub use script::{Language, ScriptFault, script_in};
pub use word::{attempt, generation, long_number, number, split_once};
