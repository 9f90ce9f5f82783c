//! An operation of the output committer over a pipe: its next store call out, the store's answer in. `mrsim step`, for drivers in any language. What the store is does not
//! matter here; the lines are those of `mr_call_words`, or their objects.
//!
//! # What is proved
//!
//! - **`talk`, bytes to bytes**: for every input, what is written is exactly what the operation's table says for the answers that were read
//!   (`Says`). The table is `mr_commit`'s: the call that is next (`next_of`), and what an answer leads to (`HearsOf`). A line that is no
//!   answer is told by its number and changes nothing. `Finished` and `Refused` come only from the table; `Cut` only where the lines ended before.
//!   Text behind the last line feed is no line (`lines_in`).
//! - **`Moves::new`** is the table of the operation that is asked for (`table`), `call` and `took` are `mr_commit`'s.
//! - **`run`**, which the program calls: its status is that of how the talk ended (`Runs`). `status_of` is the table of statuses.
//!
//! Only tested: the words of the command line, that each line is flushed before the next one is read, what stands on standard error, and what is
//! written before a stream or the memory fails.
#![tactic(auto)]

mod command;
mod dialogue;
mod ending;
mod wish;
mod words;

pub use command::{run, status_of};
pub use dialogue::talk;
pub use ending::Ending;
pub use wish::{Moves, Wish};
pub use words::Asked;
