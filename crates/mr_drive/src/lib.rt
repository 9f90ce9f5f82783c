//! A job that is run by threads which share one board, and the report of how it went.
//!
//! # What is proved
//!
//! - **`drive`**, for every job, gate, plan and number of turns: a `Report` is of a world of the plan's config, and has
//!   the number of a seat for each event. The journal follows the plan (`Follows` of mr_board_report): until its end
//!   each fault was made as soon as it was due, or the world refused it; no other crash, restart or expiry happens, and
//!   no store call is disturbed. A container may die by itself: that it does so only where its work was refused is in
//!   no clause (a row of tools/hostile crashes four masters, and the job succeeds). Each result in its
//!   journal is what the job's functions give. An outcome was told, or the newest master is Stopped. `files` is what a
//!   reader of the destination sees. `succeeded` is whether success was told. Where it was, the files are the job's
//!   sequential execution's, and nothing else (`IsReported`).
//! - Where there is none, `Unreported` has the fault, and the run's world, unless memory was refused before there was one,
//!   or its seats do not account for it (`JournalMismatch`). That world is of a run of the plan, which did not come to its
//!   end, or memory was refused for its files (`IsUndriven`).
//!
//! No fact of locks, wakes or joins is used: that a run is as planned is its type's invariant (`Run` of
//! mr_board_report), and `reported` tests the seats, of which the clause of `drive` does not speak.
//!
//! Private contracts (`specs/Driving`) say what a refusal means to a run.
//!
//! In no clause: that there is a report, that several works are done at once, and that the gate is entered.
//!
//! Never claimed: that `drive` ends, that two threads run, fairness, freedom from deadlock.
#![tactic(auto)]

mod actor;
mod condition_variables;
mod driver;
mod fault;
mod fetching;
mod hand_in;
mod made;
mod master_turns;
mod node_turns;
mod pair_gate;
mod plan;
mod shared_state;
mod turn;

pub use driver::drive;
pub use mr_board_report::{DriveFault, Plan, Report, Unreported};
pub use pair_gate::PairGate;
