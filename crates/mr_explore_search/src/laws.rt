//! A law of the definitions: this function does nothing.
ghost use Rattle.mr_explore_search.specs.Laws.{RunsAreAllThatDepart};

use crate::run::Run;

/// The runs of a walk are just those that depart, at as many places as it says at most, from how its first run goes on
/// by itself. A fault is one departure, wherever it befalls a run. What it put off comes at any later place, or never,
/// and is none.
pub fn runs_are_all_that_depart<R: Run>()
    ensures { RunsAreAllThatDepart R.steps }
{}
