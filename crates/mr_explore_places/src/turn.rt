//! Turns of a search: a run begins, a departure is tried, or a run goes on.
ghost use Rattle.std.specs.Prelude.{◌≡◌, [], ◌∷◌, ℕ, Some, IfOk, IfErr, OnOk};
ghost use Rattle.mr_explore_search.specs.Steps.{IsNotFull};
ghost use Rattle.mr_explore_places.specs.Fronts.{AreSame, Leaves};
ghost use Rattle.mr_explore_places.specs.Levels.{LeadAlike};
ghost use Rattle.mr_explore_places.specs.Searching.{Seeks, SeeksApart, Turns};
ghost use Rattle.mr_explore_places.specs.declared.level.Level.TheVariants.{Faults, Late};

use crate::beginning::begin;
use crate::bounds::Bounds;
use crate::departing::{behind_fault, behind_owed};
use crate::following::goes_on;
use crate::front::{Front, Going};
use crate::going::advance;
use crate::level::{Coming, Level, Trying, push_begun};
use crate::part::{Next, Part};
use crate::place::Place;
use crate::run::MarkedRun;
use crate::stores::Stores;
use mr_explore_search::{Ended, WalkFault};
use std::alloc::{AllocError, Global};
use std::collections::LinkedList;

// So many turns are made at most before a run is found.
const TURNS: u64 = u64::MAX;

// The last faults of a run are those that it may have behind all others.
const LAST: u32 = 1;

// Where all faults were tried, they are tried at the next place, if there is one.
fn try_further<R: MarkedRun>(
    alloc: Global,
    levels: &mut LinkedList<Level<R, R::Fault>>,
    mut level: Trying<R, R::Fault>,
) -> Result<(), WalkFault>
    requires { level.faults ≡ [] }
    ensures leads { OnOk result ((budget : ℕ) → LeadAlike R.steps budget (Faults level ∷ levels.old) levels.new) }
    ensures fault { IfErr result IsNotFull }
{
    if level.beyond == 0 {
        return Ok(());
    }
    if !goes_on(alloc, &mut level.place)? {
        return Ok(());
    }
    level.faults = level.place.run.faults(alloc)?;
    level.beyond -= 1;
    levels.push_front(Level::Faults(level))?;
    Ok(())
}

// A fault is tried. The level stays, unless its run may have no more.
fn try_fault<R: MarkedRun>(
    alloc: Global,
    levels: &mut LinkedList<Level<R, R::Fault>>,
    budget: u32,
    level: Trying<R, R::Fault>,
    fault: R::Fault,
) -> Result<(), WalkFault>
    ensures leads { OnOk result (LeadAlike R.steps budget (Faults (record level { faults = fault ∷ level.faults }) ∷ levels.old) levels.new) }
    ensures fault { IfErr result IsNotFull }
{
    if level.place.faults >= budget {
        return Ok(());
    }
    let child = behind_fault(alloc, &level.place, fault)?;
    levels.push_front(Level::Faults(level))?;
    push_begun(levels, child)
}

// A fault of the level that was next is tried, or its run goes on.
fn turn_faults<R: MarkedRun>(
    alloc: Global,
    levels: &mut LinkedList<Level<R, R::Fault>>,
    budget: u32,
    mut level: Trying<R, R::Fault>,
) -> Result<(), WalkFault>
    ensures leads { OnOk result (LeadAlike R.steps budget (Faults level ∷ levels.old) levels.new) }
    ensures fault { IfErr result IsNotFull }
{
    match level.faults.pop_front() {
        Some(fault) => try_fault(alloc, levels, budget, level, fault),
        None => try_further(alloc, levels, level),
    }
}

// Where all came, it comes at the next place, if there is one.
fn come_further<R: MarkedRun>(
    alloc: Global,
    levels: &mut LinkedList<Level<R, R::Fault>>,
    mut level: Coming<R, R::Fault>,
) -> Result<(), WalkFault>
    requires { level.late ≡ 0 }
    ensures leads { OnOk result ((budget : ℕ) → LeadAlike R.steps budget (Late level ∷ levels.old) levels.new) }
    ensures fault { IfErr result IsNotFull }
{
    if level.beyond == 0 {
        return Ok(());
    }
    if !goes_on(alloc, &mut level.place)? {
        return Ok(());
    }
    level.late = level.place.ripe;
    level.beyond -= 1;
    levels.push_front(Level::Late(level))?;
    Ok(())
}

// What was put off comes, or the run of the level that was next goes on.
fn turn_late<R: MarkedRun>(
    alloc: Global,
    levels: &mut LinkedList<Level<R, R::Fault>>,
    mut level: Coming<R, R::Fault>,
) -> Result<(), WalkFault>
    ensures leads { OnOk result ((budget : ℕ) → LeadAlike R.steps budget (Late level ∷ levels.old) levels.new) }
    ensures fault { IfErr result IsNotFull }
{
    if level.late == 0 {
        return come_further(alloc, levels, level);
    }
    let at = level.late - 1;
    level.late = at;
    let child = behind_owed(alloc, &level.place, at)?;
    levels.push_front(Level::Late(level))?;
    push_begun(levels, child)
}

// Where all faults of a place were tried, the runs that departed from there and before go on, as far as the run itself.
fn keep_abreast<R: MarkedRun>(
    front: &mut Front<R, R::Fault>,
    level: &Trying<R, R::Fault>,
) -> Result<(), AllocError>
    ensures { OnOk result (front.new ≡ front.old) }
{
    if level.faults.is_empty() {
        front.fall_behind()?;
    }
    Ok(())
}

// The level that was next makes a turn.
fn turn<R: MarkedRun>(
    alloc: Global,
    stores: &mut Stores<R, R::Fault>,
    front: &mut Front<R, R::Fault>,
    levels: &mut LinkedList<Level<R, R::Fault>>,
    bounds: &Bounds,
    level: Level<R, R::Fault>,
) -> Result<Option<Ended<R>>, WalkFault>
    ensures { Turns R.steps R.rest R.before R.void R.like R.ends bounds.now.faults bounds.now.steps level stores.old front.old levels.old result stores.new front.new levels.new }
{
    match level {
        Level::Begin(place) => begin(alloc, stores, front, levels, bounds, place),
        Level::Faults(level) => {
            keep_abreast(front, &level)?;
            turn_faults(alloc, levels, bounds.faults, level)?;
            Ok(None)
        }
        Level::Late(level) => {
            turn_late(alloc, levels, level)?;
            Ok(None)
        }
    }
}

// The run that makes its step before the level that is next makes a turn, if there is one. Runs that depart come first, and all that departed from one run are done before another
// level is.
fn next_going<R: MarkedRun>(
    front: &mut Front<R, R::Fault>,
    levels: &LinkedList<Level<R, R::Fault>>,
    bounds: &Bounds,
) -> Result<Option<Going<R, R::Fault>>, AllocError>
    ensures leaves { IfOk result (λ going. Leaves front.old going front.new) }
    ensures last { levels.now ≡ [] → result ≡ Ok None → front.new ≡ [] }
{
    match levels.front() {
        Some(level) => going_before(front, level, bounds),
        None => front.pop(),
    }
}

// The same, where this level is next.
fn going_before<R: MarkedRun>(
    front: &mut Front<R, R::Fault>,
    level: &Level<R, R::Fault>,
    bounds: &Bounds,
) -> Result<Option<Going<R, R::Fault>>, AllocError>
    ensures leaves { IfOk result (λ going. Leaves front.old going front.new) }
{
    if sets_out(bounds, level) {
        return Ok(None);
    }
    if has_last(bounds, level) {
        return Ok(front.pop_behind());
    }
    front.pop()
}

// Whether a run begins there that may have no more faults.
fn sets_out<R: MarkedRun>(bounds: &Bounds, level: &Level<R, R::Fault>) -> bool {
    match level {
        Level::Begin(place) => place.faults >= bounds.faults,
        Level::Faults(_) => false,
        Level::Late(_) => false,
    }
}

// Whether a level has the last faults of a run.
fn has_last<R: MarkedRun>(bounds: &Bounds, level: &Level<R, R::Fault>) -> bool {
    match level {
        Level::Begin(_) => false,
        Level::Faults(level) => bounds.faults.saturating_sub(level.place.faults) == LAST,
        Level::Late(_) => false,
    }
}

/// Turns are made until a run is found, or nothing is left.
pub fn seek<R: MarkedRun>(
    alloc: Global,
    stores: &mut Stores<R, R::Fault>,
    front: &mut Front<R, R::Fault>,
    levels: &mut LinkedList<Level<R, R::Fault>>,
    bounds: &Bounds,
) -> Result<Option<Ended<R>>, WalkFault>
    ensures { Seeks R.steps R.rest R.before R.void R.like R.ends bounds.now.faults bounds.now.steps stores.old front.old levels.old result stores.new front.new levels.new }
{
    for _ in 0..TURNS {
        if let Some(going) = next_going(front, levels, bounds)? {
            if let Some(ended) = advance(alloc, stores, front, levels, going)? {
                return Ok(Some(ended));
            }
        } else {
            match levels.pop_front() {
                Some(level) => {
                    if let Some(ended) = turn(alloc, stores, front, levels, bounds, level)? {
                        return Ok(Some(ended));
                    }
                }
                None => return Ok(None),
            }
        }
    }
    Err(WalkFault::Mismatch)
}

/// Turns are made until a run is found, or a part comes next, or nothing is left.
pub fn seek_apart<R: MarkedRun>(
    alloc: Global,
    stores: &mut Stores<R, R::Fault>,
    front: &mut Front<R, R::Fault>,
    levels: &mut LinkedList<Level<R, R::Fault>>,
    bounds: &Bounds,
) -> Result<Option<Next<R, R::Fault>>, WalkFault>
    ensures { SeeksApart R.steps R.rest R.before R.void R.like R.ends bounds.now.faults bounds.now.steps stores.old front.old levels.old result stores.new front.new levels.new }
{
    for _ in 0..TURNS {
        if let Some(going) = next_going(front, levels, bounds)? {
            if let Some(ended) = advance(alloc, stores, front, levels, going)? {
                return Ok(Some(Next::Run(ended)));
            }
        } else {
            match levels.pop_front() {
                Some(level) => {
                    if has_last(bounds, &level) {
                        return Ok(Some(Next::Part(Part::of(level))));
                    }
                    if let Some(ended) = turn(alloc, stores, front, levels, bounds, level)? {
                        return Ok(Some(Next::Run(ended)));
                    }
                }
                None => return Ok(None),
            }
        }
    }
    Err(WalkFault::Mismatch)
}
