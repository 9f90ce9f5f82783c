//! The calls that a command makes of an output directory with a log of names, their answers, and the log as its disk
//! keeps it, and the visible names.
//!
//! # What is defined
//!
//! An entry of the log is a name by itself. A command makes it by one call, which is exclusive, and it is durable once
//! the log's folder is synced. `Effect` says which answers a disk may give, and what its log is then. A command may be
//! answered that the name is taken by the very entry that it made (a disk that sends a call twice answers so). A call
//! that failed was made or not. A reading may miss the newest entries, but none between others. A power cut leaves all
//! entries that are durable, and any of the others (`IsCut`).
//!
//! A visible name is made where nothing stands. Of it the disk keeps what stood there at each moment since its folder was
//! synced, the newest first: a power cut leaves any one of these. So a name whose folder was just synced is the same before
//! a cut and after it.
//!
//! Of all other names nothing is said here: their calls leave the log and the visible names as they are, and any answer to
//! them is honest.
#![tactic(auto)]

mod answer;
mod call;
mod place;

pub use answer::{Answer, Reply};
pub use call::Call;
pub use place::{Folder, Item, Items, Node, Place};
