//! What still holds of a cluster whose namespace lacks a fence, or bars, or both, as that of HDFS.
//!
//! # What is proved
//!
//! A `Kind` says what a namespace has (`fenced`, `no_fence`, `no_bars`, `bare`). A run over it (`weak_world_of`) differs from the cluster's in one thing:
//! a caller whom only what is lacking would turn away is heard. It *slips through*. There is no code in this crate: each law is the contract of a function
//! that does nothing.
//!
//! - Where nobody slips through, the world after a list of events is the cluster's (`only_who_slips_through_matters`). So the promise holds there, word for
//!   word: winners, markers, files (`the_promise_holds_where_nobody_slips_through`).
//! - Over events that a store *bears* nobody slips through (`a_store_bears_these_events`). Without a fence it bears one master.
//!   Without bars it bears no node that is given up. A bare store bears what both bear. So there the promise holds too
//!   (`the_promise_holds_of_what_a_store_bears`).
//! - Nor does anybody where who is superseded, or given up, has ended before (`who_ends_first_does_not_slip`). So a job of several application attempts
//!   keeps the promise on a bare store if each attempt's processes had ended before the next began, and no node starts one of an older attempt later
//!   (`the_promise_holds_where_all_end_first`).
//! - **Whatever happens, a recorded winner never changes** (`a_winner_stays_anyway`). The history has its own premise.
//! - **Whatever happens, a success is final** (`a_success_is_final`): where it was told the marker is there, and no later event changes what a reader sees.
//!   COMMIT_STARTED is made once, so one master alone publishes. What is lost is lost before.
//! - **The fence is needed** (`the_fence_is_needed`). Without it some job is told to have failed, with no marker there; and then its marker is made, and it
//!   is told to have succeeded.
//! - **The bars are needed** (`the_bars_are_needed`). Without them some job has its marker, and is told to have succeeded, and a reduce has no file.
//!
//! Nothing else is claimed of other events. What more goes wrong there is shown by runs: `tools/weaker` plays them.
#![tactic(auto)]

ghost use Rattle.mr_world_model.specs.Claims.{Limits};
ghost use Rattle.mr_world_model.specs.Packets.{Config};
ghost use Rattle.mr_world_model.specs.World.{opening_world};
ghost use Rattle.mr_world_weaker.specs.Lacking.{AllEndFirst, AreBorne, Kind, NobodySlips};
ghost use Rattle.mr_world_weaker.specs.Weaker.{NobodySlipsOverTheseEvents, NobodySlipsWhoEndsFirst, OnlyWhoSlipsMatters, PromiseHolds, SuccessIsFinal, TheBarsAreNeeded, TheFenceIsNeeded, WinnerStaysAnyway};

/// Where nobody slips through, the world after a list of events is the cluster's.
pub fn only_who_slips_through_matters()
    ensures same { OnlyWhoSlipsMatters }
{}

/// Over events that a store bears nobody slips through: without a fence one master, and without bars no node that is given up.
pub fn a_store_bears_these_events()
    ensures none { NobodySlipsOverTheseEvents }
{}

/// Where nobody slips through the promise holds, of a namespace of any kind.
pub fn the_promise_holds_where_nobody_slips_through()
    ensures holds { (kind : Kind) (config : Config) (within : Limits) → PromiseHolds kind config within (NobodySlips kind config within opening_world) }
{}

/// Over events that a store bears the promise holds: on a bare store with one application attempt and no node that is given up.
pub fn the_promise_holds_of_what_a_store_bears()
    ensures holds { (kind : Kind) (config : Config) (within : Limits) → PromiseHolds kind config within (AreBorne kind) }
{}

/// Nobody slips through where who is superseded, or given up, has ended before.
pub fn who_ends_first_does_not_slip()
    ensures none { NobodySlipsWhoEndsFirst }
{}

/// Where who is superseded, or given up, has ended before, the promise holds, of a namespace of any kind.
pub fn the_promise_holds_where_all_end_first()
    ensures holds { (kind : Kind) (config : Config) (within : Limits) → PromiseHolds kind config within (AllEndFirst kind config within opening_world) }
{}

/// Over a namespace of any kind, and whatever happens: a recorded winner never changes.
pub fn a_winner_stays_anyway()
    ensures stays { WinnerStaysAnyway }
{}

/// Over a namespace of any kind, and whatever happens: where success was told the marker is there, and stays, and no later event changes what a reader sees.
pub fn a_success_is_final()
    ensures stays { SuccessIsFinal }
{}

/// Without a fence the promise does not hold: some job is told to have failed, with no marker there; and then its marker is made, and success is told.
pub fn the_fence_is_needed()
    ensures needed { TheFenceIsNeeded }
{}

/// Without bars the promise does not hold: some job has its marker, and is told to have succeeded, and a reduce has no file.
pub fn the_bars_are_needed()
    ensures needed { TheBarsAreNeeded }
{}
