//! The permission of one task over a pipe: what happens to its attempts in, who may commit and who wins out. `mrsim task`, for schedulers in any language.
//!
//! | Line | What it says | Answers |
//! |---|---|---|
//! | `launch` | an attempt is launched | `launched ATTEMPT`; `refused AlreadyWon`, `refused TooManyLive`, `refused TooManyAttempts` |
//! | `pending ATTEMPT` | it is ready to commit, and asks | `noted`; `refused Unknown` |
//! | `poll ATTEMPT` | may it commit? | `yes`, `no` |
//! | `done ATTEMPT` | it committed | `wins`, `wins already`, `ignored`; `refused Unknown` |
//! | `recorded`, `failed`, `ended`, `killed`, `lost` with `ATTEMPT` | its success is on record; it failed; its container ended; it was stopped; its output is lost | `noted`; `refused Unknown` |
//!
//! A refused launch is no call: the past that an answer is read off has what was taken.
//!
//! # What is proved
//!
//! - **`talk`, bytes to bytes**: for every input, what is written is exactly what the definition says (`Talks`): to each line its answer, which is read off the calls
//!   that the task got before it (`answer`, by the readings of `mr_task`). A line that is none of these is told by its number (`no line 3`), and
//!   changes nothing. Text behind the last line feed is no line. At the end of the input the talk is over.
//! - **`run`**, which the program calls: its status is that of how the talk ended (`Runs`).
//! - **`line_in`** reads a line exactly where it is one (`IsLine`).
//!
//! Only tested: that each answer is flushed before the next line is read, what stands on standard error, and what is written before a stream or the
//! memory fails.
#![tactic(auto)]

mod answer;
mod dialogue;
mod line;

pub use dialogue::{run, talk};
pub use line::{Line, Verb, line_in};
