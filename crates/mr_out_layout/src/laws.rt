//! A law of the paths: this function does nothing.
ghost use Rattle.mr_out_layout.specs.Layout.{PathsAreApart};

/// No two names have one path, so that each is by itself, as in the model.
pub fn paths_are_apart()
    ensures { PathsAreApart }
{}
