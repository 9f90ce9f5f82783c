//! A job's output directory on a real disk: each call of mr_out_disk is made over `std::fs`, and answered.
//!
//! # What is proved
//!
//! - Each function is safe, and returns (`lock` waits for whoever holds the lock).
//! - Of the list `steps`: wherever these are stopped, and whatever a power cut leaves, the directory is whole where it is
//!   there (`directories_begin_whole`), and once all are made, it stays (`begun_directories_stay`). That `begin` makes
//!   just these, in order, is read in the code.
//! - `Directory::perform` notes its call with the answer that it gives (`calls_of`). Nothing else notes one. Where the call
//!   failed, `trouble` tells a fault that names a path of this call, or a refusal that it may meet (`IsTroubleOf`). A file's
//!   sync is answered `Failed` where a sync failed, and for nothing else.
//! - `begin` and `Directory::open` fail by their own faults alone (`IsBeginFault`, `IsOpeningFault`). A job that was read is
//!   one that its file tells.
//!
//! No contract can say what a disk holds. What mr_out_calls proves speaks of recorded answers that are honest; that a
//! method here makes the call that is noted, once, and answers what came of it, is read in the code and tested
//! (`tools/mrout_stops`, `tools/mrout_rows`).
//!
//! # What there is
//!
//! - `begin` makes the directory beside its place and renames it there.
//! - `Directory::open` takes the lock. `perform` makes one call.
//! - `keep_folder` keeps the folder of an attempt that won for another one.
#![tactic(auto)]

mod beginning;
mod boots;
mod directory;
mod early;
mod history;
mod laws;
mod lengths;
mod lock;
mod making;
mod mounts;
mod replies;
mod spares;

pub use beginning::{begin, name_of};
pub use directory::Directory;
pub use laws::{begun_directories_stay, directories_begin_whole};
pub use lock::Lock;
pub use making::{Step, steps};
pub use spares::keep_folder;
