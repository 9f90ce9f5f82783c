//! The calls that a command makes of an output directory, their answers, and the disk that answers them.
//!
//! # What is defined
//!
//! A disk has two trees, what is seen and what is durable. `Disk` keeps them as one: for each name the files that it
//! was at each moment since its folder was synced last, the newest first. The first of them is what is seen. A power
//! cut leaves any one of them (`IsCut`). So a name whose folder was just synced is one file, before a cut and behind
//! it.
//!
//! `IsHonest` says which answers a disk may give to a call, and `effect` what it is then. A call is made whole, or it
//! answers why it is not made and nothing changes. `Failed`, `Odd` and `Grew` may be answered at any time. Of a sync
//! that failed nothing is known: what was not durable may be lost at a cut, or not.
//!
//! The history is here as its records: those that are durable, and those that were appended since the history was
//! synced last. A power cut keeps a front of the latter.
//!
//! Nothing is proved of a real disk. Each law above speaks of answers that are honest.
#![tactic(auto)]

mod answer;
mod call;
mod place;

pub use answer::{Answer, Reply};
pub use call::Call;
pub use place::{Folder, Place};
