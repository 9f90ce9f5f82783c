//! The sequential files of each job of the crates of the user functions, of the map side and of the shuffle.
//!
//! # What is proved
//!
//! There is no code in this crate: each law is the contract of a function that does nothing. Of each type that is a job (`mr_user::Job`, which asks for the job laws), over
//! splits within their limits (at most 1,000, each of at most 2^24 bytes):
//!
//! - `jobs_have_their_laws`: it has the two laws that the cluster's definitions (`mr_world_model`) ask of a job. A map's output is its blocks, and the part of all blocks is the sequential text.
//!   So `sequential` of `mr_world`'s `HeadlineHolds`, which asks for these laws, is promised of it;
//! - `files_of_jobs_are_sequential` is over every list of events in which each result that is taken is what the job's
//!   functions give. The limits let no map's output of more than 2^24 bytes pass. The whole output of each reduce's
//!   attempt is the text of the sequential execution. Where the success marker is, the files are those of the
//!   sequential execution.
//!
//! And of every job with the two laws, of at most 1,000 reduces:
//!
//! - `marked_worlds_show_sequential_files`: where the success marker is, a reader of the destination sees the part
//!   file of each reduce, by rising name, and nothing else. Each has the text of the sequential execution.
//!
//! All are laws alone: there is nothing to be tested.
#![tactic(auto)]

ghost use Rattle.mr_user.specs.Computation.{computation};
ghost use Rattle.mr_world_files.specs.Jobs.{FilesOf, LawsOf};
ghost use Rattle.mr_world_files.specs.Shown.{MarkedWorldsShowSequential};

use mr_user::Job;

/// Over every faithful list of events, whole outputs are those of the sequential execution of the job, which then
/// exists. So are the files once the success marker is there.
pub fn files_of_jobs_are_sequential<J: Job>()
    ensures { FilesOf (computation J.Key.cmp J.Key.codec J.Value.codec J.functions) }
{}

/// Each job has the laws that the cluster's definitions ask of one: a map's output is its blocks, and the part of all
/// blocks is the sequential text. So whatever is promised of a job with these laws is promised of it.
pub fn jobs_have_their_laws<J: Job>()
    ensures { LawsOf (computation J.Key.cmp J.Key.codec J.Value.codec J.functions) }
{}

/// Over every faithful list, where the success marker is, a reader of the destination sees the part file of each
/// reduce, by rising name, and nothing else. Each has the text of the sequential execution. The job has at most 1,000
/// reduces and the two laws of a job, and the limits let no map's output of more than 2^24 bytes pass.
pub fn marked_worlds_show_sequential_files()
    ensures { MarkedWorldsShowSequential }
{}
