//! How attempts, tasks and a job stand by the log of an output directory, and what each order
//! decides by it.
//!
//! The winner of a task is the attempt of the first `Won` line of it. What an order decides from a
//! front of the log is a function of that front, of the job's numbers, and of the host that it is
//! given on.
//!
//! # What is defined
//!
//! `standing` tells how an attempt stands by the lines, `winner_of` and `win_of` who won a task and
//! with what, `is_publishable` and `may_end` what may become of the job. `decided` is what an order
//! decides, `concluded` what is put once an attempt was handed in. `are_lawful` says which lines
//! may follow a front, whoever puts them.
//!
//! # What is proved
//!
//! - `Standings` is the job and the entries that it took: each of its questions is answered exactly
//!   as the definitions have it, of all of these.
//! - `done`, `fail`, `abort`, `publish`, `forget`, `start_next`, `start_at` and `start_over` say
//!   exactly what `decided` has of these orders, `conclude` what `concluded` has. An order to ask
//!   is `standing`, one to resume `ends`. Orders about many tasks (`FailTask`, `FailAll`,
//!   `StartAll`) have definitions alone.
//! - `laws::winners_stay`: a winner stays when lines are added, with what it handed in; so does the
//!   boot of a start.
//! - `laws::standings_stay`: who has won stays so, whatever is added. By lawful lines, who has lost
//!   never wins, and an attempt is started at most once.
//! - `laws::jobs_stay`: a job that was ended as failed is never publishable, and one that is
//!   publishable stays so by lawful lines.
//! - `laws::decisions_are_lawful`: what an order decides from the whole of a log, or puts once it
//!   has handed in, is lawful there.
#![tactic(auto)]

mod attempts;
mod beginnings;
mod deciding;
mod decision;
mod host;
mod job;
pub mod laws;
mod notes;
mod order;
mod questions;
mod standing;
mod standings;
mod totals;

pub use attempts::Attempts;
pub use decision::{Conclusion, Decision};
pub use host::Host;
pub use job::Job;
pub use order::{Order, Outcome};
pub use standing::{Standing, Win};
pub use standings::Standings;

#[cfg(test)]
mod tests;
