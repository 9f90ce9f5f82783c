//! Calls that masters and containers make to the two stores of a cluster, the namespace and the job history. A master
//! has to be made ready for what it will hear before its call is made. So its answer is found out first, and the call
//! is made after.
//!
//! # What is proved
//!
//! - `master_answer` tells what both stores will answer to a master's call (`answer_to`), and changes nothing. What
//!   only looks is asked at once; of all else the answer is known beforehand. `names_answer` tells the same of the
//!   namespace alone, for any caller.
//! - `finds_full` and `would_be_full` tell, without memory, whether a call would be refused for want of room.
//!   `answer_where_room` tells the answer, and none where it would.
//! - `change_names` and `append_record` leave a store as the call leaves it, refused or not. Where memory is refused,
//!   nothing has changed. `only_looks` tells which calls leave any namespace as it is.
//! - `answer_container` makes a container's call in a weather, and tells what the container hears. Where memory is
//!   refused, nothing has changed.
//! - `is_made` tells whether a call is made in a weather, and `tell_ranges` that the numbers of a record that is
//!   appended are in their ranges.
#![tactic(auto)]

mod changing;
mod container;
mod foretelling;
mod ranges;
mod weather;

pub use changing::{append_record, change_names, only_looks};
pub use container::{ContainerCall, answer_container, would_be_full};
pub use foretelling::{answer_where_room, finds_full, master_answer, names_answer};
pub use ranges::tell_ranges;
pub use weather::is_made;
