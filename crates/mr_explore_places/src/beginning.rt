//! Runs begin behind departures: each is followed, and what may depart from it is left to be made.
ghost use Rattle.std.specs.Prelude.{◌≡◌, ◌≤◌, List, Some, IsTrue, Ok, true, ℕ, IfOk, IfErr, OnOk};
ghost use Rattle.mr_explore_search.specs.Steps.{IsNotFull};
ghost use Rattle.mr_explore_places.specs.Going.{Tells};
ghost use Rattle.mr_explore_places.specs.Fronts.{Underway};
ghost use Rattle.mr_explore_places.specs.Covering.{OneStandsFor};
ghost use Rattle.mr_explore_places.specs.Levels.{AreFaultsOf, AreLateOf, IsOnTrail, IsOnTrails, with_faults, with_late};
ghost use Rattle.mr_explore_places.specs.Searching.{Turns};
ghost use Rattle.mr_explore_places.specs.declared.level.Level.TheVariants.{Begin};

use crate::bounds::Bounds;
use crate::following::{at_end, follow, step_on};
use crate::front::Front;
use crate::going::set_out;
use crate::level::{Coming, Level, Trying};
use crate::place::{Place, copy_of, stands_for};
use crate::run::MarkedRun;
use crate::stores::{Stores, visit};
use mr_explore_search::{Ended, WalkFault};
use std::alloc::Global;
use std::collections::LinkedList;

// The faults of a run, if it may have one more.
fn trying_of<R: MarkedRun>(
    alloc: Global,
    budget: u32,
    place: &Place<R, R::Fault>,
) -> Result<Option<Trying<R, R::Fault>>, WalkFault>
    ensures is { IfOk result (λ trying. AreFaultsOf R.steps budget place.now trying) }
    ensures fault { IfErr result IsNotFull }
{
    if place.faults >= budget {
        return Ok(None);
    }
    let faults = place.run.faults(alloc)?;
    let copy = copy_of(alloc, place)?;
    Ok(Some(Trying {
        place: copy,
        faults,
        beyond: 0,
    }))
}

// What was put off in a run, if anything was.
fn coming_of<R: MarkedRun>(
    alloc: Global,
    place: &Place<R, R::Fault>,
) -> Result<Option<Coming<R, R::Fault>>, WalkFault>
    ensures is { IfOk result (λ coming. AreLateOf place.now coming) }
    ensures fault { IfErr result IsNotFull }
{
    if place.owed.is_empty() {
        return Ok(None);
    }
    let copy = copy_of(alloc, place)?;
    Ok(Some(Coming {
        place: copy,
        late: place.ripe,
        beyond: 0,
    }))
}

// Faults are to be tried at so many places more, if there are any.
fn push_faults<R: MarkedRun>(
    levels: &mut LinkedList<Level<R, R::Fault>>,
    trying: Option<Trying<R, R::Fault>>,
    beyond: u64,
) -> Result<(), WalkFault>
    ensures pushes { OnOk result (levels.new ≡ with_faults trying beyond levels.old) }
    ensures fault { IfErr result IsNotFull }
{
    if let Some(mut level) = trying {
        level.beyond = beyond;
        levels.push_front(Level::Faults(level))?;
    }
    Ok(())
}

// What was put off is to come at so many places more, if there is any.
fn push_late<R: MarkedRun>(
    levels: &mut LinkedList<Level<R, R::Fault>>,
    coming: Option<Coming<R, R::Fault>>,
    beyond: u64,
) -> Result<(), WalkFault>
    ensures pushes { OnOk result (levels.new ≡ with_late coming beyond levels.old) }
    ensures fault { IfErr result IsNotFull }
{
    if let Some(mut level) = coming {
        level.beyond = beyond;
        levels.push_front(Level::Late(level))?;
    }
    Ok(())
}

// A void run is told: it has ended where it began.
fn tell<R: MarkedRun>(
    alloc: Global,
    bounds: &Bounds,
    mut place: Place<R, R::Fault>,
) -> Result<Option<Ended<R>>, WalkFault>
    ensures { Tells R.steps bounds.now.steps place result }
{
    if bounds.steps == 0 {
        return Err(WalkFault::Mismatch);
    }
    if step_on(alloc, &mut place)? {
        return Err(WalkFault::Mismatch);
    }
    let ended = at_end(place);
    Ok(Some(ended))
}

// A run begins that is not void, unless a kept place stands for the one where it begins.
fn begin_at<R: MarkedRun>(
    alloc: Global,
    stores: &mut Stores<R, R::Fault>,
    levels: &mut LinkedList<Level<R, R::Fault>>,
    bounds: &Bounds,
    place: Place<R, R::Fault>,
) -> Result<Option<Ended<R>>, WalkFault>
    ensures { (going : List (Underway R R.Fault)) → Turns R.steps R.rest R.before R.void R.like R.ends bounds.now.faults bounds.now.steps (Begin place) stores.old going levels.old result stores.new going levels.new }
{
    if !visit(alloc, stores, bounds, &place)? {
        return Ok(None);
    }
    let trying = trying_of(alloc, bounds.faults, &place)?;
    let coming = coming_of(alloc, &place)?;
    let trail = follow(alloc, stores, bounds, place)?;
    push_late(levels, coming, trail.beyond)?;
    push_faults(levels, trying, trail.beyond)?;
    Ok(trail.ended)
}

// Whether a run goes on beside others: it may have no more faults, and there is room. A search that keeps no place leaves none out, so none goes on beside others.
fn is_beside<R: MarkedRun>(
    stores: &Stores<R, R::Fault>,
    front: &Front<R, R::Fault>,
    bounds: &Bounds,
    place: &Place<R, R::Fault>,
) -> bool
    ensures { IsTrue result → bounds.now.faults ≤ place.now.faults }
{
    place.faults >= bounds.faults && !stores.rows.is_empty() && !front.is_full()
}

// Whether a place along which faults are tried stands for it. The one where the next fault is tried is looked at: a packet that comes once more is mostly ignored.
fn is_left<R: MarkedRun>(
    alloc: Global,
    levels: &LinkedList<Level<R, R::Fault>>,
    place: &Place<R, R::Fault>,
) -> Result<bool, WalkFault>
    ensures stands { IfOk result (λ left. IsTrue left → (budget : ℕ) → OneStandsFor R.before R.like (IsOnTrails R.steps budget levels.now) place.now) }
    ensures fault { IfErr result IsNotFull }
{
    match levels.front() {
        Some(level) => is_left_at(alloc, level, place),
        None => Ok(false),
    }
}

// Whether the place of this level, where faults are tried, stands for it.
fn is_left_at<R: MarkedRun>(
    alloc: Global,
    level: &Level<R, R::Fault>,
    place: &Place<R, R::Fault>,
) -> Result<bool, WalkFault>
    ensures stands { IfOk result (λ left. IsTrue left → (budget : ℕ) → OneStandsFor R.before R.like (IsOnTrail R.steps budget level.now) place.now) }
    ensures fault { IfErr result IsNotFull }
{
    match level {
        Level::Begin(_) => Ok(false),
        Level::Faults(level) => stands_for(alloc, &level.place, place),
        Level::Late(_) => Ok(false),
    }
}

/// A run begins: it is followed to its end, or to a place for which a kept one stands, unless one along which faults are tried stands for the one where it begins. A void run is told,
/// and nothing departs from it.
pub fn begin<R: MarkedRun>(
    alloc: Global,
    stores: &mut Stores<R, R::Fault>,
    front: &mut Front<R, R::Fault>,
    levels: &mut LinkedList<Level<R, R::Fault>>,
    bounds: &Bounds,
    place: Place<R, R::Fault>,
) -> Result<Option<Ended<R>>, WalkFault>
    ensures { Turns R.steps R.rest R.before R.void R.like R.ends bounds.now.faults bounds.now.steps (Begin place) stores.old front.old levels.old result stores.new front.new levels.new }
{
    if place.run.is_void() {
        return tell(alloc, bounds, place);
    }
    if is_left(alloc, levels, &place)? {
        return Ok(None);
    }
    if is_beside(stores, front, bounds, &place) {
        set_out(alloc, stores, front, levels, bounds, place)?;
        return Ok(None);
    }
    begin_at(alloc, stores, levels, bounds, place)
}
