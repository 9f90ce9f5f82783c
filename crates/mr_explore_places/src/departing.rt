//! Departures of a run from a place.
ghost use Rattle.std.specs.Prelude.{◌≡◌, ◌<◌, ◌^◌, suc, length, slice_get, Some, IfOk, IfErr};
ghost use Rattle.mr_explore_search.specs.Steps.{IsNotFull};
ghost use Rattle.mr_explore_places.specs.Places.{if_befallen, if_owed};

use crate::owed::{with_later, without};
use crate::place::Place;
use crate::run::MarkedRun;
use mr_explore_search::WalkFault;
use std::alloc::Global;

// What a fault makes of the run, on a fork of it.
fn befall_fork<R: MarkedRun>(
    alloc: Global,
    run: &R,
    fault: R::Fault,
) -> Result<Option<R>, WalkFault>
    ensures is { IfOk result (λ befallen. befallen ≡ R.steps.befallen fault run.now) }
    ensures fault { IfErr result IsNotFull }
{
    if !run.may_befall(&fault)? {
        return Ok(None);
    }
    let mut fork = run.fork(alloc)?;
    if fork.befall(alloc, fault)? {
        Ok(Some(fork))
    } else {
        Ok(None)
    }
}

/// The place behind a fault, if it can befall the run of this one.
pub fn behind_fault<R: MarkedRun>(
    alloc: Global,
    place: &Place<R, R::Fault>,
    fault: R::Fault,
) -> Result<Option<Place<R, R::Fault>>, WalkFault>
    requires { suc place.now.faults < 2 ^ 32 }
    ensures is { IfOk result (λ child. child ≡ if_befallen R.steps place.now fault) }
    ensures fault { IfErr result IsNotFull }
{
    let later = place.run.later(&fault);
    match befall_fork(alloc, &place.run, fault)? {
        Some(run) => {
            let owed = with_later(alloc, &place.owed, later)?;
            Ok(Some(Place {
                faults: place.faults + 1,
                ripe: place.owed.len(),
                owed,
                run,
                steps: 0,
            }))
        }
        None => Ok(None),
    }
}

/// The place behind what was put off and stands at `at`, if it can come to the run of this one.
pub fn behind_owed<R: MarkedRun>(
    alloc: Global,
    place: &Place<R, R::Fault>,
    at: usize,
) -> Result<Option<Place<R, R::Fault>>, WalkFault>
    ensures is { IfOk result (λ child. child ≡ if_owed R.steps place.now at (slice_get place.now.owed at)) }
    ensures fault { IfErr result IsNotFull }
{
    match place.owed.get(at) {
        Some(fault) => behind_late(alloc, place, at, *fault),
        None => Ok(None),
    }
}

// The same, of this fault.
fn behind_late<R: MarkedRun>(
    alloc: Global,
    place: &Place<R, R::Fault>,
    at: usize,
    fault: R::Fault,
) -> Result<Option<Place<R, R::Fault>>, WalkFault>
    requires { at < length place.now.owed }
    ensures is { IfOk result (λ child. child ≡ if_owed R.steps place.now at (Some fault)) }
    ensures fault { IfErr result IsNotFull }
{
    match befall_fork(alloc, &place.run, fault)? {
        Some(run) => {
            let owed = without(alloc, &place.owed, at)?;
            let ripe = owed.len();
            Ok(Some(Place {
                faults: place.faults,
                ripe,
                owed,
                run,
                steps: 0,
            }))
        }
        None => Ok(None),
    }
}
