//! Runs of an exploration that several threads make.
//!
//! # What is proved
//!
//! - **Threads change nothing of what is printed** (`explore_by_threads`, for every input and every number of threads). Its contract is that of `explore_output`
//!   of mr_explore, word for word (`PrintsExplored`, `ExploredFails`), and no clause names the number of threads. Where no time is given an input has one such
//!   text at most (`one_explored_text` of mr_explore), so any two numbers of threads print the same bytes.
//! - **How.** What is left is divided into parts (mr_explore_search's `Parts`). Whichever thread is free counts the next part, in a table of its own, so threads share the
//!   number of the next part alone. A part is counted only where none of its runs would pass a limit or comes to the end that is sought, and where it has at most as many
//!   runs as are left to be made (`IsCounted` of `specs/inner/Counting`). Counted parts are taken in their order (`Advances`). From the first that was not
//!   counted on, runs are made one after the other.
//!
//! Only tested: that threads count anything, and how much sooner all is done.
#![tactic(auto)]

mod counting;
mod divided;
mod output;

pub use output::explore_by_threads;
