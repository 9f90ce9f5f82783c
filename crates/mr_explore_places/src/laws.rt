//! Laws of the definitions: these functions do nothing.
ghost use Rattle.mr_explore_places.specs.Laws.{EachEndIsFound, GivenPartsAreJoined, PartsAreJoined};

use crate::run::MarkedRun;

/// Where a search has found all, and runs that are like each other go on alike, it found each of all runs by as many faults, or an earlier one that came to the same end.
pub fn each_end_is_found<R: MarkedRun>()
    ensures { EachEndIsFound R.steps R.rest R.before R.void R.like R.ends }
{}

/// Where a search has found all but what comes of a part, and another one has found all of that part, both together have found all.
pub fn parts_are_joined<R: MarkedRun>()
    ensures { PartsAreJoined R.steps R.rest R.before R.void R.like R.ends }
{}

/// The same of some parts that another search has found all of, one after the other.
pub fn given_parts_are_joined<R: MarkedRun>()
    ensures { GivenPartsAreJoined R.steps R.rest R.before R.void R.like R.ends }
{}
