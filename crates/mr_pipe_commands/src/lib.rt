//! The subcommands of `mrsim` that serve a program in another language, `step`, `task`, `judge` and `recovery`: from what `clap` found in the
//! command line to the exit status.
//!
//! # What is proved
//!
//! Each function is safe and returns where the streams do. What the subcommands write stands in mr_step, mr_task_talk, mr_judge and
//! mr_recover_plan. Over whatever has inputs by their names (`Inputs`):
//!
//! - `judge` writes what mr_judge says of all bytes of its input, and its status is that of this judgement (`JudgesNamed`);
//! - `recovery` writes what mr_recover_plan says of all bytes of each input, in their order, and its status is that of this plan; or it writes nothing, and its status
//!   is that of the first input that is not read (`RecoversNamed`).
//!
//! Only tested, by rows of `tools/hostile` and by `tools/drivers`: that a file's bytes are those that `Inputs` has for its name, what clap found, and what stands on
//! standard error.
#![tactic(auto)]

mod inputs;
mod named;
mod serve;
mod unread;

pub use serve::served;
pub use unread::{missing, why_unread};
