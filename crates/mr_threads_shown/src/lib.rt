//! What the subcommand `threads` shows of a run in place of the job's part files.
//!
//! # What is proved
//!
//! For every input, number of turns and gate, whatever the schedule was:
//!
//! - **`threads_seen`**: what it shows is of a run of the job that the text says, as it plans it (`ShowsRun`; `IsRun` of
//!   mr_threads). Where the marker is, the files in the text of `play` are those that `seq` prints. What stands there is
//!   in the table below.
//!
//! | Asked for | What is shown |
//! |---|---|
//! | `Shown` | the text that `play` prints of the run. Where they are asked for, exactly the trace of that run stands before it, with a thread for each event, and exactly the history behind it |
//! | `Json` | exactly the lines of the run, with a thread for each event |
//! | `Script` | exactly the commands of the run's events, and then the text of `play`, as comments. Behind whatever text says the job on its first line `play` takes just these events, and prints that text and nothing else |
//!
//! In no clause: what a picture says; that there is a run; that the thread of an event is the one that made it (rows of tools/hostile look at those of three masters).
#![tactic(auto)]

mod sayable;
mod seen;

pub use seen::{Seen, threads_seen};
