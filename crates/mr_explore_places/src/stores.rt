//! The places that are kept.
ghost use Rattle.std.specs.Prelude.{◌≡◌, ◌<◌, ◌⊎◌, IsTrue, IfOk, IfErr, IfSome, OnOk};
ghost use Rattle.std.specs.Vec.{vec_len};
ghost use Rattle.mr_explore_search.specs.Steps.{IsNotFull};
ghost use Rattle.mr_explore_alike.specs.Leaving.{Here};
ghost use Rattle.mr_explore_places.specs.Covering.{OneStandsFor, StandsFor};
ghost use Rattle.mr_explore_places.specs.Keeping.{IsHeld, IsInRow, IsKept, Visits};

use crate::bounds::Bounds;
use crate::place::{Place, copy_of, stands_for};
use crate::run::MarkedRun;
use mr_explore_search::WalkFault;
use std::alloc::{AllocError, Global};

// A row holds so many places at most.
const ROW_ROOM: usize = 4;

// Places of runs with more faults than so many lie in rows of their own, since they are far more: among the others they would push these out, and each of those stands for many.
const FEW: u32 = 1;

// One row of so many is for them.
const SHARE: usize = 5;

// A run that may have no more faults is looked up behind its last departure and at so many steps from there on: there it mostly meets the run that it departed from, which goes
// on as if nothing had happened. Further on it seldom meets one, and a look costs as much as some steps.
const FIRST_STEPS: u64 = 1;

/// A place that is kept, and its mark. The place lies apart, so that the marks of a row lie side by side.
#[derive(Drop)]
pub struct Kept<R, F> {
    pub mark: u64,
    pub place: Box<Place<R, F>>,
}

/// A row of places, the newest one first.
#[derive(Drop)]
pub struct Row<R, F> {
    pub kept: Vec<Kept<R, F>>,
}

/// The places that are kept: of runs that may have one more fault. A place lies in the row that its mark tells; in a full row the newest one takes the place of the oldest.
#[derive(Drop)]
pub struct Stores<R, F> {
    pub rows: Vec<Row<R, F>>,
}

impl<R: Drop, F: Drop> Stores<R, F> {
    /// No place is kept; there are so many rows for them. It fails where there is no memory.
    pub fn new(alloc: Global, rows: usize) -> Result<Stores<R, F>, AllocError>
        ensures { IfOk result (λ stores. (h : Here R F) → IsHeld stores h → ⊥) }
    {
        let rows = empty_rows(alloc, rows)?;
        Ok(Stores { rows })
    }

    /// No place is kept, nor will one be.
    pub fn none(alloc: Global) -> Stores<R, F>
        ensures { (h : Here R F) → IsHeld result h → ⊥ }
    {
        Stores {
            rows: Vec::new(alloc),
        }
    }
}

// So many rows that hold nothing.
fn empty_rows<R: Drop, F: Drop>(alloc: Global, count: usize) -> Result<Vec<Row<R, F>>, AllocError>
    ensures { IfOk result (λ rows. (h : Here R F) → IsKept rows.items h → ⊥) }
{
    let mut rows = Vec::new(alloc);
    for _ in 0..count {
        rows.push(Row {
            kept: Vec::new(alloc),
        })?;
    }
    Ok(rows)
}

// Whether this kept place has the mark, and stands for the other one.
fn is_for<R: MarkedRun>(
    alloc: Global,
    kept: &Kept<R, R::Fault>,
    mark: u64,
    place: &Place<R, R::Fault>,
) -> Result<bool, WalkFault>
    ensures stands { IfOk result (λ stands. IsTrue stands → StandsFor R.before R.like kept.now.place.value place.now) }
    ensures fault { IfErr result IsNotFull }
{
    if kept.mark != mark {
        return Ok(false);
    }
    stands_for(alloc, &kept.place, place)
}

// Whether a place of these that has this mark stands for this one.
fn covers<R: MarkedRun>(
    alloc: Global,
    row: &[Kept<R, R::Fault>],
    mark: u64,
    place: &Place<R, R::Fault>,
) -> Result<bool, WalkFault>
    ensures stands { IfOk result (λ covers. IsTrue covers → OneStandsFor R.before R.like (IsInRow row.now) place.now) }
    ensures fault { IfErr result IsNotFull }
{
    for kept in row {
        if is_for(alloc, kept, mark, place)? {
            return Ok(true);
        }
    }
    Ok(false)
}

// The same, of the row that stands at `at`, if there is one.
fn covers_at<R: MarkedRun>(
    alloc: Global,
    rows: &[Row<R, R::Fault>],
    at: usize,
    mark: u64,
    place: &Place<R, R::Fault>,
) -> Result<bool, WalkFault>
    ensures stands { IfOk result (λ covers. IsTrue covers → OneStandsFor R.before R.like (IsKept rows.now) place.now) }
    ensures fault { IfErr result IsNotFull }
{
    match rows.get(at) {
        Some(row) => covers(alloc, &row.kept, mark, place),
        None => Ok(false),
    }
}

// A place comes into a row. Where the row is full, its oldest place goes.
fn keep<R: MarkedRun>(
    kept: &mut Vec<Kept<R, R::Fault>>,
    new: Kept<R, R::Fault>,
) -> Result<(), AllocError>
    ensures { OnOk result ((h : Here R R.Fault) → IsInRow kept.new.items h → (new.place.value ≡ h) ⊎ IsInRow kept.old.items h) }
{
    kept.truncate(ROW_ROOM - 1);
    kept.insert(0, new)?;
    Ok(())
}

// A place comes into the row that stands at `at`.
fn keep_at<R: MarkedRun>(
    rows: &mut Vec<Row<R, R::Fault>>,
    at: usize,
    new: Kept<R, R::Fault>,
) -> Result<(), AllocError>
    requires { at < vec_len rows.old }
    ensures { OnOk result ((h : Here R R.Fault) → IsKept rows.new.items h → (new.place.value ≡ h) ⊎ IsKept rows.old.items h) }
{
    let row = &mut rows[at];
    keep(&mut row.kept, new)
}

// In which of so many rows a place with this mark lies, of a run that has had so many faults.
fn row_of(mark: u64, faults: u32, count: usize) -> Option<usize>
    ensures { IfSome result (λ at. at < count) }
{
    let few = count - count / SHARE;
    if faults > FEW {
        let at = row_among(mark, count - few)?;
        Some(few + at)
    } else {
        row_among(mark, few)
    }
}

// In which of so many rows a place with this mark lies.
fn row_among(mark: u64, count: usize) -> Option<usize>
    ensures { IfSome result (λ at. at < count) }
{
    if count == 0 {
        return None;
    }
    Some((mark % count as u64) as usize)
}

// Whether a place of these rows that has this mark stands for this one. None with more faults does.
fn covers_in<R: MarkedRun>(
    alloc: Global,
    rows: &[Row<R, R::Fault>],
    mark: u64,
    place: &Place<R, R::Fault>,
) -> Result<bool, WalkFault>
    ensures stands { IfOk result (λ covers. IsTrue covers → OneStandsFor R.before R.like (IsKept rows.now) place.now) }
    ensures fault { IfErr result IsNotFull }
{
    if covers_among(alloc, rows, mark, 0, place)? {
        return Ok(true);
    }
    if place.faults > FEW {
        covers_among(alloc, rows, mark, place.faults, place)
    } else {
        Ok(false)
    }
}

// The same, of the row in which those of runs with so many faults lie.
fn covers_among<R: MarkedRun>(
    alloc: Global,
    rows: &[Row<R, R::Fault>],
    mark: u64,
    faults: u32,
    place: &Place<R, R::Fault>,
) -> Result<bool, WalkFault>
    ensures stands { IfOk result (λ covers. IsTrue covers → OneStandsFor R.before R.like (IsKept rows.now) place.now) }
    ensures fault { IfErr result IsNotFull }
{
    match row_of(mark, faults, rows.len()) {
        Some(at) => covers_at(alloc, rows, at, mark, place),
        None => Ok(false),
    }
}

// A copy of a place comes into the row that stands at `at`.
fn keep_copy<R: MarkedRun>(
    alloc: Global,
    rows: &mut Vec<Row<R, R::Fault>>,
    at: usize,
    mark: u64,
    place: &Place<R, R::Fault>,
) -> Result<(), WalkFault>
    requires { at < vec_len rows.old }
    ensures keeps { OnOk result ((h : Here R R.Fault) → IsKept rows.new.items h → (place.now ≡ h) ⊎ IsKept rows.old.items h) }
    ensures fault { IfErr result IsNotFull }
{
    let copy = Box::new(alloc, copy_of(alloc, place)?)?;
    keep_at(rows, at, Kept { mark, place: copy })?;
    Ok(())
}

// A copy of a place comes into the row that its mark tells, if there are rows.
fn keep_in<R: MarkedRun>(
    alloc: Global,
    rows: &mut Vec<Row<R, R::Fault>>,
    mark: u64,
    place: &Place<R, R::Fault>,
) -> Result<(), WalkFault>
    ensures keeps { OnOk result ((h : Here R R.Fault) → IsKept rows.new.items h → (place.now ≡ h) ⊎ IsKept rows.old.items h) }
    ensures fault { IfErr result IsNotFull }
{
    match row_of(mark, place.faults, rows.len()) {
        Some(at) => keep_copy(alloc, rows, at, mark, place),
        None => Ok(()),
    }
}

// A place is looked up among those that are kept; where none stands for it, it is kept. Whether it has to be made.
fn visit_and_keep<R: MarkedRun>(
    alloc: Global,
    stores: &mut Stores<R, R::Fault>,
    place: &Place<R, R::Fault>,
) -> Result<bool, WalkFault>
    ensures visits { IfOk result (λ makes. Visits R.before R.like stores.old place.now makes stores.new) }
    ensures fault { IfErr result IsNotFull }
{
    let mark = place.run.mark(alloc, &place.owed)?;
    if covers_in(alloc, &stores.rows, mark, place)? {
        return Ok(false);
    }
    keep_in(alloc, &mut stores.rows, mark, place)?;
    Ok(true)
}

/// Whether a place of a run that may have no more faults is looked up. What was put off may depart from each place of a run, so one that has such is looked up at each.
pub fn is_sought<R: MarkedRun>(place: &Place<R, R::Fault>) -> bool {
    !place.owed.is_empty() || place.steps <= FIRST_STEPS
}

/// Whether a kept place that has this mark stands for this one.
pub fn is_kept_for<R: MarkedRun>(
    alloc: Global,
    stores: &Stores<R, R::Fault>,
    mark: u64,
    place: &Place<R, R::Fault>,
) -> Result<bool, WalkFault>
    ensures stands { IfOk result (λ covered. IsTrue covered → OneStandsFor R.before R.like (IsHeld stores.now) place.now) }
    ensures fault { IfErr result IsNotFull }
{
    covers_in(alloc, &stores.rows, mark, place)
}

// A place of a run that may have no more faults is looked up, or not. It is not kept: there are many, and few are met again. Whether it has to be made.
fn visit_last<R: MarkedRun>(
    alloc: Global,
    stores: &Stores<R, R::Fault>,
    place: &Place<R, R::Fault>,
) -> Result<bool, WalkFault>
    ensures visits { IfOk result (λ makes. Visits R.before R.like stores.now place.now makes stores.now) }
    ensures fault { IfErr result IsNotFull }
{
    if !is_sought(place) {
        return Ok(true);
    }
    let mark = place.run.mark(alloc, &place.owed)?;
    if covers_in(alloc, &stores.rows, mark, place)? {
        return Ok(false);
    }
    Ok(true)
}

/// A place that others made is kept.
pub fn keep_made<R: MarkedRun>(
    alloc: Global,
    stores: &mut Stores<R, R::Fault>,
    place: &Place<R, R::Fault>,
) -> Result<(), WalkFault>
    ensures keeps { OnOk result ((h : Here R R.Fault) → IsHeld stores.new h → (place.now ≡ h) ⊎ IsHeld stores.old h) }
    ensures fault { IfErr result IsNotFull }
{
    let mark = place.run.mark(alloc, &place.owed)?;
    keep_in(alloc, &mut stores.rows, mark, place)
}

/// A place is looked up, unless that is not worth its while; where none that is kept stands for it, it may be kept. Whether it has to be made.
pub fn visit<R: MarkedRun>(
    alloc: Global,
    stores: &mut Stores<R, R::Fault>,
    bounds: &Bounds,
    place: &Place<R, R::Fault>,
) -> Result<bool, WalkFault>
    ensures visits { IfOk result (λ makes. Visits R.before R.like stores.old place.now makes stores.new) }
    ensures fault { IfErr result IsNotFull }
{
    if place.faults < bounds.faults {
        visit_and_keep(alloc, stores, place)
    } else {
        visit_last(alloc, stores, place)
    }
}
