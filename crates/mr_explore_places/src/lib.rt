//! A search over the runs that come of one by at most a given number of faults, which leaves places of runs out.
//!
//! # What is proved
//!
//! Runs say which ones are known to go on alike, and which of two scripts comes first (`MarkedRun`). For whatever they say:
//!
//! - Each run that `next_run` answers is one of the definition of mr_explore_search (`IsOneBy`): it departs at no more places than the bounds say from
//!   how the first one goes on by itself. It is added to what was found (`HasFound`), and nothing else is.
//! - Where it answers no run, each place to which a made one leads was made, or an earlier one that was made is like it (`IsDone`). Void runs are
//!   left out: each is told, and nothing departs from it.
//! - So each of all runs was found, or an earlier one with its end, where what the runs say is true (`each_end_is_found`, whose premise is `Likens` of
//!   mr_explore_alike).
//! - No contract depends on what is kept: which places are looked up, where they lie, how many there are, and which one goes. So they can all be let go
//!   (`forget_places`); that their memory is given back is in no clause.
//! - Nor does one on the order of steps: runs that may have no more faults go on side by side (`Front`), and one of them may stand for another one.
//! - `Full` is answered only where a run of the definition would pass a limit (`Stops`).
//! - After a refusal the same refusal is answered, and nothing changes.
//! - Parts can be given away (`next_apart`), copied (`Part::fork`), and searched by others with places of their own (`of_part`). Where the rest is done, and each part that was given
//!   away, all is done (`parts_are_joined`). A search can take one part after another (`take_part`), and keeps its places
//!   (`given_parts_are_joined`). It may keep those along which the faults of its part are tried, too (`keep_trail`): whoever gave the part away made them.
//!
//! The search does not promise how many places it leaves out. It ends: behind 2 ^ 64 - 1 turns without a run it answers `Mismatch`.
//!
//! # Example
//!
//! ```text
//! let mut search = Search::new(alloc, run, Bounds { faults: 2, steps: 1000, rows: 4096 })?;
//! while let Some(ended) = search.next_run(alloc)? {
//!     println!(rt; "{} faults", ended.faults)?;
//! }
//! ```
#![tactic(auto)]

mod beginning;
mod bounds;
mod departing;
mod following;
mod front;
mod going;
mod laws;
mod level;
mod owed;
mod part;
mod place;
mod run;
mod search;
mod stores;
mod trail;
mod turn;

pub use bounds::Bounds;
pub use laws::{each_end_is_found, given_parts_are_joined, parts_are_joined};
pub use part::{Next, Part};
pub use run::MarkedRun;
pub use search::Search;
