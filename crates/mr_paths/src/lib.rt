//! Paths of the namespace, each a list of names, and the paths of a job's committer.
//!
//! A contract sees a [`Name`] as its bytes and a [`Path`] as its list of names.
//!
//! # How to begin
//!
//! ```rust
//! fn committed_path(
//!     alloc: Global,
//!     dest: &str,
//!     k: AppAttempt,
//!     task: TaskId,
//! ) -> Result<Path, PathFault> {
//!     let layout = Layout {
//!         dest: Path::parse(alloc, dest)?,
//!     };
//!     Ok(layout.committed(k, task)?)
//! }
//! ```
//!
//! (It is run in `crates/tests_guides`.)
//!
//! # What is proved
//!
//! **mr_paths, names, paths and the committer's layout.** `Name`, `Path`, `PathFault`, `Layout`, `part_name`,
//! `staging`, `is_hidden`, `is_name`. A contract sees a `Name` as its bytes and a `Path` as its list of names.
//! - A name has 1 to 255 bytes, none of them `/`; a value that breaks this can't be made. `is_name` is the test,
//!   `Name::parse` answers the name exactly where the bytes are one, `Name::new` and `Name::from_bytes` ask for it.
//! - A path has one text: `/` for the root, else each name behind a `/`. Proved: `Path::parse` answers the path
//!   exactly where the text is some path's text, and that path; `BadName` exactly where it is no path's; `NoMemory`
//!   only where it is one's. What was read is shown by `{}` as it was written.
//! - `{}` shows a path as its text; a part of a name that is no UTF-8 is shown as U+FFFD (proved for `Name` and for
//!   `Path`).
//! - `Layout { dest }`: `temporary`, `job_attempt`, `task_attempt`, `committed`, `marker` and the free `part_name` and
//!   `staging` give exactly the table of the crate's README. `is_hidden` is exactly whether the first byte is `_` or
//!   `.`. Their one fault is an allocation failure.
//! - Proved laws, on functions that do nothing, for the layers above:
//!   - no two paths have one text (`texts_are_distinct`);
//!   - what it is to stand at or beneath a path, and on what a path stands (`paths_are_nested`);
//!   - what stands at or beneath paths that part ways stays apart (`parted_stay_apart`);
//!   - which of the layout's paths stand beneath which (`layout_is_nested`), and that all others part ways: distinct
//!     generations, attempts, tasks and reduces have distinct paths (`layout_parts_ways`);
//!   - what the committer makes at a destination is hidden, but for the part files (`hidden_names`);
//!   - part names differ from one another and from the marker's (`part_names_differ`).
//!
//!   None has a premise on ranges.
//! - Also proved: the order of names and paths (by bytes, then by names from the left) and its laws; `parent`,
//!   `is_within`, `front`, `push`, `child`, copies. Memory may be taken by `Path::push` and by whatever makes a name, a
//!   path or a layout. `Path::root` and `Name::from_bytes` are the exception, and no other call takes any.
//! - Only tested: the texts of the two faults, what `{:?}` prints, and that the calls succeed with ample memory.
#![tactic(auto)]

mod display;
mod fault;
mod laws;
mod layout;
mod name;
mod path;

pub use fault::PathFault;
pub use laws::{
    hidden_names, layout_is_nested, layout_parts_ways, part_names_differ, parted_stay_apart,
    paths_are_nested, texts_are_distinct,
};
pub use layout::{Layout, is_hidden, part_name, staging};
pub use name::{Name, is_name};
pub use path::{Path, is_within, parent};
