//! The removal of a folder into which others may write meanwhile.
//!
//! # What is proved
//!
//! - Each function is safe, and returns: a folder is listed a few times at most, whoever writes into it.
//! - Each call that removes is of a path that lies within the folder that is removed (`IsWithin`), by its text.
//!
//! What a disk holds no contract can say. `tools/mrout_rows` lets others write into a folder while it is removed.
#![tactic(auto)]

mod removal;

pub use removal::{clear, remove_folder};
