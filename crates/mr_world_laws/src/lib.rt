//! The headline in the words of whoever calls a world: laws by what its calls answer.
//!
//! Each law is a function that makes the calls one after another, and its contract says in one sentence what their answers have to do with each other. That sentence cites std and the
//! types of these calls alone, no definition of this repository. The other clauses say that the events were run on the world, and that what is told is what the calls answer of it
//! before and after (`specs/Runs`). *Why* it holds is said by the definitions: they are in the contracts of the calls (`mr_world::World`), and the laws follow from these
//! (`HeadlineHolds`).
//!
//! # What is proved
//!
//! For every world that its calls can give, and every list of events (those that are not permitted are passed over):
//!
//! - `winner_stays`: a winner that was told is told again;
//! - `told_winner_is_the_winner`: what a packet of the bag tells of a winner is what `winner` answers;
//! - `marker_stays`, `marked_files_stay`: once the success marker was seen it is seen again, and the files that are seen stay the same, byte for byte;
//! - `outcome_stays`, `files_stay_after_the_outcome`: an outcome that was told, a failed one too, is told again, and from then on the files that are seen stay the same;
//! - `success_means_marker`: after a told success the marker is there.
//!
//! And that this is not said of nothing:
//!
//! - `a_world_succeeds`: in some world a job with a map succeeds, under the world's own limits. This clause alone cites definitions, since no call is made.
//!
//! A law that runs events ends with the fault of `World::run`, never with `NotNow` (clause `fault`). `Full` is answered only where an event was refused so, and those before it have
//! happened (`ended`); `NoMemory` also where a look at the world was refused memory. Those that run none end with `NoMemory` alone.
//!
//! Only tested: that they answer with ample memory.
#![tactic(auto)]

mod destination;
mod outcome;
mod success;
mod told;
mod winner;

pub use destination::{files_stay_after_the_outcome, marked_files_stay, marker_stays};
pub use outcome::{outcome_stays, success_means_marker};
pub use success::a_world_succeeds;
pub use told::Told;
pub use winner::{told_winner_is_the_winner, winner_stays};
