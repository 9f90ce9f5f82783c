//! A law of recorded calls: this function does nothing.
ghost use Rattle.mr_out_calls.specs.Lives.{RecordedDirectoriesKeepPromises};

/// Whatever commands were carried out in a directory that an honest `begin` left: where each recorded answer is one that
/// the disk may give, what the disk is then, and what was told, keep the promises of mr_out_model.
pub fn recorded_directories_keep_promises()
    ensures { RecordedDirectoriesKeepPromises }
{}
