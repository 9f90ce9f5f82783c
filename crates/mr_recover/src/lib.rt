//! What a master that starts does with the work of the masters before it.
//!
//! # How to begin
//!
//! ```rust
//! fn take_over(
//!     alloc: Global,
//!     history: &mut History,
//!     k: AppAttempt,
//!     staging: Staging,
//! ) -> Result<Option<Recovery>, HistoryFault> {
//!     history.raise(k, 0, 2); // keeps 0 bytes of each open tail; segment k is of version 2
//!     if !history.is_raised(k) {
//!         return Ok(None);
//!     }
//!     let records = history.read(k)?;
//!     match Recovery::plan(alloc, records.as_slice(), staging) {
//!         Ok(plan) => Ok(Some(plan)),
//!         Err(RecoverFault::NoMemory) => Err(HistoryFault::NoMemory),
//!     }
//! }
//! ```
//!
//! (It is run in `crates/tests_guides`.)
//!
//! # What is proved
//!
//! `Recovery::plan(alloc, records, staging)` answers `Succeeded` where `COMMIT_SUCCESS` is there, else `Failed` where
//! `COMMIT_FAIL` or `COMMIT_STARTED` is, else `Resume` of the winners (clause `plan`, by `IsPlan`). Their list rises by
//! task (job, maps first, number). Of every task it says exactly what the records say (`AreWinners`): its winner, with
//! the length that the winner's record tells, or nothing. Its only fault is `NoMemory` (clause `memory`), and no other
//! call of the crate takes memory. Only tested: that it succeeds with ample memory.
#![tactic(auto)]

mod fault;
mod plan;
mod winner;

pub use fault::RecoverFault;
pub use plan::{Recovery, Staging};
pub use winner::{TaskWinner, Winners};
