//! The subcommand `threads`: the job of a job text is run by threads, with the faults that the text plans, and its part files are printed.
//!
//! # What is proved
//!
//! For every input, number of turns and gate, whatever the schedule was:
//!
//! - **`threads_output`**: what it prints is what `seq` prints for the same job text (`PrintsSeq`), and there was a run
//!   as the text plans it in which success was told (`PrintsSuccess`). Else it tells the first bad key of the text. Or
//!   there was a run as planned in which no success was told (`HasFailed`), or no run, or memory was refused
//!   (`ThreadsFail`).
//! - **`report_of`**: the report of a run of the job that the text says, as it plans it (`Reports`). Until its end each fault
//!   of the text was made as soon as it was due, or the world refused it; no store call is disturbed (`Follows` of
//!   mr_board_report). Each result in that run is what the job's functions give. An outcome was told, or its newest
//!   master is Stopped. What is shown of such a run: mr_threads_shown.
//! - **`unthreaded`**, what is answered without a handle: the first bad key of the job text, else `Thread`.
//! - **`is_for_pairs`**: works of two maps can be done at once only where there are two maps and two nodes.
//!
//! In no clause: that there is a run, that several works are done at once.
//!
//! Never claimed: that it ends, that two threads ran, fairness, freedom from deadlock.
#![tactic(auto)]

mod driven;
mod manner;
mod output;

pub use driven::report_of;
pub use manner::{Manner, is_for_pairs};
pub use output::{threads_output, unthreaded};
