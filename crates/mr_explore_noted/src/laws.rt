//! Laws of tables that tell of runs: these functions do nothing.
ghost use Rattle.mr_explore_noted.specs.Laws.{FoundCame, JoinedHasAll, JoinedTellsBoth, LimitIsOfOne, RowsAreLeastFound, RowsAreLeastOfAll, WhatIsStoodForIsTold};

use crate::run::NotedRun;

/// The rows of a table are the least of the runs of which it tells.
pub fn rows_are_least_found<R: NotedRun>()
    ensures { RowsAreLeastFound R.void R.end R.events }
{}

/// A table has the end of each run for which one of its runs stands, and that run does not come before its row.
pub fn what_is_stood_for_is_told<R: NotedRun>()
    ensures { WhatIsStoodForIsTold R.void R.end R.events }
{}

/// Two tables that are joined tell of the runs of both.
pub fn joined_tells_both<R: NotedRun>()
    ensures { JoinedTellsBoth R.void R.end R.events }
{}

/// Each run that a search found is one of the definition.
pub fn found_came<R: NotedRun>()
    ensures { FoundCame R.steps R.rest R.before R.void R.like R.ends R.end R.events }
{}

/// Where a table says that a run would pass a limit, one of the definition would.
pub fn limit_is_of_one<R: NotedRun>()
    ensures { LimitIsOfOne R.steps R.rest R.before R.void R.like R.ends R.end R.events }
{}

/// Where another search has found all of some of the parts that were given away, the two tables together tell of all, but for what comes of the other parts.
pub fn joined_has_all<R: NotedRun>()
    ensures { JoinedHasAll R.steps R.rest R.before R.void R.like R.ends R.end R.events }
{}

/// Where all was found, and runs that are like each other go on alike, the rows are the least of all runs of the definition.
pub fn rows_are_least_of_all<R: NotedRun>()
    ensures { RowsAreLeastOfAll R.steps R.rest R.before R.void R.like R.ends R.end R.events }
{}
