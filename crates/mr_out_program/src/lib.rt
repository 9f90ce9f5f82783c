//! The commands of the program `mrout`: what is printed, and the exit status.
//!
//! # How to begin
//!
//! `answer` carries out on the disk what the words ask for (mr_out_words): it gives what is to be printed on standard
//! output, what on standard error, and the exit status.
//!
//! # What is proved
//!
//! - Safety, and that each call returns but for the wait for the lock.
//! - `carry_out`: what is recorded of the calls of an order, with the disk's answers, is what its step machine makes
//!   (mr_out_calls), and the order ends as the machine that took these answers.
//! - `attempt`, `done`, `fail_one`, `publish`, `abort`, `recover`, `forget_published`, in a directory that is open: one such
//!   order is carried out, and what is to be printed, with the exit status, is what its end is told by
//!   (`specs/Carried.antt`, `specs/Sayings.antt`).
//! - An end that no command says is a fault: that of the call which failed last, with its path and why, or of the file that
//!   is refused (`specs/Faults.antt`). A text or a task that the job does not have is refused by its name.
//! - `attempt_all`, `fail_task`, `fail_all`: such orders are carried out, one after another (`specs/Turns.antt`).
//! - `status` makes no call that changes anything, and shows what the records tell that it read and then synced
//!   (`specs/Shown.antt`).
//! - `answer`: where nothing failed, the command that the words name was carried out in a directory that was opened, and
//!   told so (`IsToldOf` of `specs/Answers.antt`). Where a fault is told, standard output is given nothing.
//!
//! Which directory `answer` opens is read in the code. Other texts are only tested.
#![tactic(auto)]

mod answering;
mod attempts;
mod beginning;
mod carrying;
mod ending;
mod saying;
mod standing;

pub use answering::{Answered, abort, answer, forget_published, publish, recover};
pub use attempts::{attempt, attempt_all, done, fail_all, fail_one, fail_task};
pub use carrying::carry_out;
