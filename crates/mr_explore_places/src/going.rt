//! Runs that may have no more faults begin, and go on side by side.
ghost use Rattle.std.specs.Prelude.{◌≡◌, ◌≤◌, ◌∷◌, ◌⊎◌, ℕ, None, Ok, IsTrue, IfOk, IfErr, OnOk};
ghost use Rattle.mr_explore_search.specs.Steps.{IsNotFull};
ghost use Rattle.mr_explore_places.specs.Covering.{OneStandsFor};
ghost use Rattle.mr_explore_places.specs.Fronts.{IsUnderway};
ghost use Rattle.mr_explore_places.specs.Keeping.{IsHeld};
ghost use Rattle.mr_explore_places.specs.Levels.{LeadAlike};
ghost use Rattle.mr_explore_places.specs.Searching.{Advances, Reaches, Turns};
ghost use Rattle.mr_explore_places.specs.declared.level.Level.TheVariants.{Begin, Late};
ghost use Rattle.mr_explore_places.specs.declared.stores.Stores.{Stores};

use crate::bounds::Bounds;
use crate::departing::behind_owed;
use crate::following::{at_end, step_on};
use crate::front::{Front, Going};
use crate::level::{Level, push_begun};
use crate::place::Place;
use crate::run::MarkedRun;
use crate::stores::{Stores, is_kept_for, is_sought};
use mr_explore_search::{Ended, WalkFault};
use std::alloc::Global;
use std::cell::Cell;
use std::collections::LinkedList;

// Behind its last departure, and behind each place where another run met it, a run is compared with others at so many steps. One that meets none by then seldom does: from there
// on it makes its steps in one go.
const ABREAST: u64 = 3;

// What was put off comes here next, as much of it as may.
fn push_owed<R: MarkedRun>(
    alloc: Global,
    levels: &mut LinkedList<Level<R, R::Fault>>,
    place: &Place<R, R::Fault>,
) -> Result<(), WalkFault>
    ensures leads { OnOk result ((budget : ℕ) → LeadAlike R.steps budget (Late (record { place = place.now; late = place.now.ripe; beyond = 0 }) ∷ levels.old) levels.new) }
    ensures fault { IfErr result IsNotFull }
{
    for behind in 0..place.ripe {
        let child = behind_owed(alloc, place, place.ripe - 1 - behind)?;
        push_begun(levels, child)?;
    }
    Ok(())
}

// Whether a place of another run that goes on, or one that is kept, stands for this one.
fn is_covered<R: MarkedRun>(
    alloc: Global,
    stores: &Stores<R, R::Fault>,
    front: &Front<R, R::Fault>,
    mark: u64,
    place: &Place<R, R::Fault>,
) -> Result<bool, WalkFault>
    ensures stands { IfOk result (λ covered. IsTrue covered → OneStandsFor R.before R.like (λ h. IsUnderway front.now h ⊎ IsHeld stores.now h) place.now) }
    ensures fault { IfErr result IsNotFull }
{
    if front.covers(alloc, mark, place)? {
        return Ok(true);
    }
    if !is_sought(place) {
        return Ok(false);
    }
    is_kept_for(alloc, stores, mark, place)
}

// Whether a run is compared with others at a place, where one met it last at this step: at first at each, and then where it is looked up.
fn is_compared<R: MarkedRun>(met: u64, place: &Place<R, R::Fault>) -> bool {
    place.steps.saturating_sub(met) <= ABREAST || is_sought(place)
}

// A run that comes to a place is compared with no other: it goes on from there before all others, and what was put off comes.
fn go_ahead<R: MarkedRun>(
    alloc: Global,
    front: &mut Front<R, R::Fault>,
    levels: &mut LinkedList<Level<R, R::Fault>>,
    left: u64,
    met: u64,
    place: Box<Place<R, R::Fault>>,
) -> Result<(), WalkFault>
    ensures reaches { OnOk result ((kept : Stores R R.Fault) (budget most : ℕ) → Reaches R.steps R.rest R.before R.void R.like R.ends budget most left place.value kept front.old levels.old front.new levels.new) }
    ensures fault { IfErr result IsNotFull }
{
    push_owed(alloc, levels, &place)?;
    front.push_next(Going {
        mark: None,
        met: Cell::new(met),
        left,
        place,
    })?;
    Ok(())
}

// A run comes to a place. It goes on from there, and what was put off comes, unless another place stands for it.
fn reach<R: MarkedRun>(
    alloc: Global,
    stores: &Stores<R, R::Fault>,
    front: &mut Front<R, R::Fault>,
    levels: &mut LinkedList<Level<R, R::Fault>>,
    left: u64,
    met: u64,
    place: Box<Place<R, R::Fault>>,
) -> Result<(), WalkFault>
    ensures reaches { OnOk result ((budget most : ℕ) → Reaches R.steps R.rest R.before R.void R.like R.ends budget most left place.value stores.now front.old levels.old front.new levels.new) }
    ensures fault { IfErr result IsNotFull }
{
    if !is_compared(met, &place) {
        return go_ahead(alloc, front, levels, left, met, place);
    }
    let mark = place.run.mark(alloc, &place.owed)?;
    if is_covered(alloc, stores, front, mark, &place)? {
        return Ok(());
    }
    push_owed(alloc, levels, &place)?;
    front.push(Going {
        mark: Some(mark),
        met: Cell::new(met),
        left,
        place,
    })?;
    Ok(())
}

/// A run begins that may have no more faults.
pub fn set_out<R: MarkedRun>(
    alloc: Global,
    stores: &Stores<R, R::Fault>,
    front: &mut Front<R, R::Fault>,
    levels: &mut LinkedList<Level<R, R::Fault>>,
    bounds: &Bounds,
    place: Place<R, R::Fault>,
) -> Result<(), WalkFault>
    requires { bounds.now.faults ≤ place.faults }
    ensures begins { OnOk result (Turns R.steps R.rest R.before R.void R.like R.ends bounds.now.faults bounds.now.steps (Begin place) stores.now front.old levels.old (Ok None) stores.now front.new levels.new) }
    ensures fault { IfErr result IsNotFull }
{
    let place = Box::new(alloc, place)?;
    reach(alloc, stores, front, levels, bounds.steps, 0, place)
}

/// A run that left the others makes its step. It comes back, unless it has ended, or another place stands for its next one.
pub fn advance<R: MarkedRun>(
    alloc: Global,
    stores: &Stores<R, R::Fault>,
    front: &mut Front<R, R::Fault>,
    levels: &mut LinkedList<Level<R, R::Fault>>,
    going: Going<R, R::Fault>,
) -> Result<Option<Ended<R>>, WalkFault>
    ensures { (budget most : ℕ) → Advances R.steps R.rest R.before R.void R.like R.ends budget most going stores.now front.old levels.old result front.new levels.new }
{
    let Going {
        mark: _,
        met,
        left,
        mut place,
    } = going;
    if left == 0 {
        return Err(WalkFault::Mismatch);
    }
    if !step_on(alloc, &mut place)? {
        let ended = at_end(Box::into_inner(place));
        return Ok(Some(ended));
    }
    reach(alloc, stores, front, levels, left - 1, met.get(), place)?;
    Ok(None)
}
