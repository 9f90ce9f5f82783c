//! Runs of commands over an output directory, with kills and power cuts, and what each of them keeps.
//!
//! # What is proved
//!
//! `directory_keeps_promises`: of any list of moves from what an honest `begin` left, and of any more moves behind it.
//! A move is a command that is given the lock, an honest answer to its call, its end, its end by a kill behind any of
//! its calls, what others do beneath the work folder with files that are not claimed, or a power cut.
//!
//! `held_jobs_wait`: of any such run under `hold` in which no command is told to publish: nothing is visible.
//!
//! `readers_find_winners`: a reader who saw the marker and then lists and reads, at whatever moments, finds one file of
//! each task, its winner's, and its bytes stay.
//!
//! `forgotten_directories_stay`: once the history of a published job was forgotten, what a reader finds stays, and nothing
//! of the history comes back. Until then all of it counts: a command begins only where it is there.
//!
//! `segments_keep_fronts`: a power cut that keeps a front of a segment's bytes keeps a front of its records. So the
//! history of a world is spoken of as records.
#![tactic(auto)]

mod laws;

pub use laws::{
    directory_keeps_promises, forgotten_directories_stay, held_jobs_wait, readers_find_winners,
    segments_keep_fronts,
};
