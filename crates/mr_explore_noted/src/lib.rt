//! A search over the runs that come of one, which notes each run that it finds in a table of least scripts.
//!
//! It knows of a run only whether it is void, the end that it came to and its events (`NotedRun`), beside what mr_explore_places asks for.
//!
//! # What is proved
//!
//! - **`Noted::note`** notes a run exactly as the definition says (`noted_run` of `specs/Noting`): a void run as one that comes to no end, each other run in the
//!   table of mr_explore_least. A failed allocation leaves the table as it was.
//! - **`least_runs`** answers a table that tells just the runs that one search found, and that search found all (`HasAll` of `specs/Searched`): so each of all runs
//!   was found, or an earlier one with its end, where what the runs say of each other is true (`each_end_is_found` of mr_explore_places). `Full` is answered only
//!   where a run of the definition would pass a limit.
//! - **`note_all`** does so with a search that is on its way, as one over parts.
//!
//! Laws for whoever stands above, where runs with as many faults and the same events came to one end (`EachHasOneEnd` of mr_explore_least):
//!
//! - The rows are the least of all runs of the definition, where all was found and runs that are like each other go on alike (`rows_are_least_of_all`).
//! - They are the least of the runs that were found (`rows_are_least_found`), and none of them comes behind a run for which one that was found stands
//!   (`what_is_stood_for_is_told`). Each run that was found is one of the definition (`found_came`). So is one that would pass a limit (`limit_is_of_one`).
//! - Tables of searches in parts, joined, tell of all (`joined_tells_both`, `joined_has_all`).
//!
//! Only tested: what an `Observer` is told.
#![tactic(auto)]

mod laws;
mod noted;
mod observer;
mod run;
mod searching;

pub use laws::{
    found_came, joined_has_all, joined_tells_both, limit_is_of_one, rows_are_least_found,
    rows_are_least_of_all, what_is_stood_for_is_told,
};
pub use noted::{Noted, STRIDE};
pub use observer::{Observer, Unobserved};
pub use run::NotedRun;
pub use searching::{least_runs, note_all};
