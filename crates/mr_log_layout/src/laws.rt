//! A law of the paths: this function does nothing.
ghost use Rattle.mr_log_layout.specs.Paths.{PathsAreApart};

/// No two names have one path, so that each is by itself, as in a model.
pub fn paths_are_apart()
    ensures { PathsAreApart }
{}
