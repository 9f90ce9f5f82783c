//! Laws of an output directory: these functions do nothing.
ghost use Rattle.mr_out_model.specs.Fronts.{SegmentsKeepFronts};
ghost use Rattle.mr_out_model.specs.Promises.{DirectoryKeepsPromises, HeldJobsWait, ReadersFindWinners, ForgottenDirectoriesStay};

/// Whatever is visible is what the recorded winner of its task handed in. Where the marker is there, each task's part
/// is, and none of them differs later. What a command told of an attempt holds from then on. Under `hold` nothing is
/// visible before it was decided to publish, durably. Where the history is forgotten, the marker is there, for good.
pub fn directory_keeps_promises()
    ensures { DirectoryKeepsPromises }
{}

/// Under `hold` nothing is visible as long as no command was told to publish.
pub fn held_jobs_wait()
    ensures { HeldJobsWait }
{}

/// A reader who saw the marker, and then lists and reads, at whatever moments, finds one file of each task: its winner's,
/// with the bytes that it had when the marker was seen.
pub fn readers_find_winners()
    ensures { ReadersFindWinners }
{}

/// Once `forget` was carried out, nothing is left at every later moment but the marker and one file of each task, its
/// winner's.
pub fn forgotten_directories_stay()
    ensures { ForgottenDirectoriesStay }
{}

/// Whichever front of a segment's bytes a power cut leaves, no shorter than what was durable, it tells the records that
/// were durable and a front of those that were appended. So a history may be spoken of as its records.
pub fn segments_keep_fronts()
    ensures { SegmentsKeepFronts }
{}
