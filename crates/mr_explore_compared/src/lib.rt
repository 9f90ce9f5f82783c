//! Whether a run of an exploration is like another one, so that it need not be made.
//!
//! # What is proved
//!
//! - `is_like` answers true only where the first run is like the second (`like` of mr_explore_likeness, with room to
//!   spare): whatever comes of the first comes of the second. It may answer false of runs that are alike.
//! - `is_like` and `mark` fail by an allocation failure alone.
//! - `Compared` is a run for a search that leaves runs out (`MarkedRun` of mr_explore_places): it goes on as an `Explored`
//!   does, its script is before another one by `sooner` of mr_script_order, and what it knows of others is `is_like`.
//!
//! Only tested: that runs which are alike, and to which the same came, mostly have one mark, and that `is_like` finds them so. Two that wrote the same records by other store calls may
//! have two marks: then both are made.
#![tactic(auto)]

mod compared;
mod comparing;
mod deliveries;
mod digest;
mod dropping;
mod marked;
mod marking;
mod owing;
mod packets;

pub use compared::Compared;
pub use comparing::is_like;
pub use marking::mark;
