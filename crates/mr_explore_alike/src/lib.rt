//! Which runs of a walk need not be made: those behind which a run goes on as one that was made does.
//!
//! # What is proved
//!
//! Of runs that know when two of them go on alike (`AlikeRun`, and `Likens` says what that means):
//!
//! - Whatever comes of the one comes of the other, behind as many departures (`alike_runs_depart_alike`).
//! - A search may leave a place of a run out where it made one that is like it and earlier (`IsEnough`): it has fewer faults, or
//!   as many, and its script comes before in an order of scripts. Of all runs by at most a given number of faults it then finds
//!   each one, or an earlier one that came to the same end (`no_end_is_lost`).
//! - So it finds each end, with its least script. None of all runs is earlier than the least that is found with its end
//!   (`least_found_is_least`). Two least runs to an end have as many faults, and neither's script comes before that of the other
//!   (`least_runs_have_one_script`). So two searches find one script to each end, whichever runs they left out
//!   (`searches_find_one_script`).
//!
//! A run whose last fault a limit forbids is void: it has no end, and need be neither made nor found.
//!
//! There is no code in this crate: each law is the contract of a function that does nothing.
#![tactic(auto)]

ghost use Rattle.mr_explore_alike.specs.Leaving.{NoEndIsLost};
ghost use Rattle.mr_explore_alike.specs.Least.{LeastAreOne, LeastFoundIsLeast, SearchesFindOne};
ghost use Rattle.mr_explore_alike.specs.Likens.{AlikeDepartAlike};
ghost use Rattle.std.specs.Prelude.{ℕ, Bool, List};

use mr_explore_search::Run;

/// A run that knows when another one goes on as it does.
pub trait AlikeRun: Run {
    /// How many steps it makes by itself at most.
    ghost rest: { Self → ℕ };

    /// Its script comes before that of another one.
    ghost before: { Self → Self → Bool };

    /// A limit forbids its last fault: nothing comes of it, and it has no end.
    ghost void: { Self → Bool };

    /// Two runs, with what earlier faults put off in each, go on alike.
    ghost like: { Self → List Self.Fault → Self → List Self.Fault → Type 0 };

    /// Two runs have come to one end.
    ghost ends: { Self → Self → Type 0 };
}

/// Where what comes of a run comes of each one that is like it, and leaves them alike: each end that comes of the first comes of the other, behind as many
/// departures.
pub fn alike_runs_depart_alike<R: AlikeRun>()
    ensures { AlikeDepartAlike R.steps R.rest R.before R.void R.like R.ends }
{}

/// Where a run is left out only if an earlier one that is like it was made, of all runs each one is found, or an earlier one that came to the same end.
pub fn no_end_is_lost<R: AlikeRun>()
    ensures { NoEndIsLost R.steps R.rest R.before R.void R.like R.ends }
{}

/// Where a run is left out only if an earlier one that is like it was made, of all runs none is earlier than the least that is found with the same end.
pub fn least_found_is_least<R: AlikeRun>()
    ensures { LeastFoundIsLeast R.steps R.rest R.before R.void R.like R.ends }
{}

/// Two runs with one end, to which none of all runs is earlier, have as many faults, and neither's script comes before that of the other.
pub fn least_runs_have_one_script<R: AlikeRun>()
    ensures { LeastAreOne R.steps R.rest R.before R.void R.like R.ends }
{}

/// Of two searches that left out other runs, the least that they find with one end have as many faults, and neither's script comes before that of the other.
pub fn searches_find_one_script<R: AlikeRun>()
    ensures { SearchesFindOne R.steps R.rest R.before R.void R.like R.ends }
{}
