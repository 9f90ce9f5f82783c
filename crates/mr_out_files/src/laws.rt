//! Laws of how a directory begins: these functions do nothing.
ghost use Rattle.mr_out_files.specs.Begins.{DirectoriesBeginWhole, BegunDirectoriesStay};

/// Wherever the steps of a begin are stopped, and whether the power is cut then or not: where the directory is there, it has
/// its job and its history, all of both durable.
pub fn directories_begin_whole()
    ensures { DirectoriesBeginWhole }
{}

/// Once all steps are made, each power cut leaves the directory, whole.
pub fn begun_directories_stay()
    ensures { BegunDirectoriesStay }
{}
