//! Workers, and the parts of a search that they search in a round.
ghost use Rattle.std.specs.Prelude.{◌≡◌, [], List, IfOk, IfErr};
ghost use Rattle.std.specs.List.{All};
ghost use Rattle.mr_explore_places.specs.Going.{Stops};
ghost use Rattle.mr_explore_places.specs.State.{whole};
ghost use Rattle.mr_explore_places.specs.declared.bounds.Bounds as places;
ghost use Rattle.mr_explore_places.specs.declared.level.Level.{Level};
ghost use Rattle.mr_explore_noted.specs.Searched.{IsOnTheWay};
ghost use Rattle.mr_explore_workers.specs.inner.Working.{GoesApart, HaveWorked, TakesParts};

use crate::worker::Worker;
use mr_explore_noted::{Noted, NotedRun};
use mr_explore_places::{Bounds, Next, Part, Search};
use mr_explore_search::WalkFault;
use std::alloc::{AllocError, Global};
use std::sync::atomic::AtomicUsize;

// A round has so many parts for each worker.
const PARTS: usize = 128;

// All workers together have one row for places where the search has so many: a worker needs no more than those of the parts that it searched last.
const SHARE: usize = 4;

/// In so many rows each of so many workers keeps places.
pub fn rows_for(threads: usize, bounds: &Bounds) -> usize {
    bounds.rows / SHARE / threads.max(1)
}

/// So many workers, which have searched nothing yet, and keep places in so many rows each.
pub fn workers_for<R: NotedRun>(
    alloc: Global,
    count: usize,
    bounds: &Bounds,
    rows: usize,
) -> Result<Vec<Worker<R>>, AllocError>
    ensures { IfOk result (λ workers. (first : R) → HaveWorked R.steps R.rest R.before R.void R.like R.ends R.end R.events bounds.now first [] workers.items) }
{
    let mut workers = Vec::new(alloc);
    for _ in 0..count {
        let worker = Worker::new(alloc, bounds, rows)?;
        workers.push(worker)?;
    }
    Ok(workers)
}

/// A round: the parts that the workers search in it, which of them is the next to be searched, and whether no part is left for another round.
#[derive(Drop)]
pub struct Round<R: NotedRun> {
    pub parts: Vec<Part<R, R::Fault>>,
    pub next: AtomicUsize,
    pub is_last: bool,
}

impl<R: NotedRun> Round<R> {
    // None of these parts is searched yet.
    fn of(parts: Vec<Part<R, R::Fault>>, is_last: bool) -> Round<R>
        ensures parts { result.parts.items ≡ parts.items }
        ensures is_last { result.is_last ≡ is_last }
    {
        let next = AtomicUsize::new(0);
        Round {
            parts,
            next,
            is_last,
        }
    }
}

/// The next round, for so many workers. Runs that are found meanwhile are noted. Where no part is left for another round, the search keeps no place any more.
pub fn take_round<R: NotedRun>(
    alloc: Global,
    search: &mut Search<R>,
    noted: &mut Noted<R>,
    workers: usize,
) -> Result<Round<R>, WalkFault>
    ensures takes { (bounds : places.Bounds) (first : R) (given : List (Level R R.Fault)) → IsOnTheWay R.steps R.rest R.before R.void R.like R.ends R.end R.events bounds first (whole first) given search.old noted.old
        → IfOk result (λ round. TakesParts R.steps R.rest R.before R.void R.like R.ends R.end R.events bounds first round.is_last given round.parts.items search.new noted.new) }
    ensures fault { (bounds : places.Bounds) (first : R) (given : List (Level R R.Fault)) → IsOnTheWay R.steps R.rest R.before R.void R.like R.ends R.end R.events bounds first (whole first) given search.old noted.old → IfErr result (Stops R.steps bounds.faults bounds.steps first) }
{
    let mut parts = Vec::new(alloc);
    for _ in 0..workers.saturating_mul(PARTS) {
        match next_part(alloc, search, noted)? {
            Some(part) => parts.push(part)?,
            None => {
                search.forget_places(alloc);
                return Ok(Round::of(parts, true));
            }
        }
    }
    Ok(Round::of(parts, false))
}

// The next part, if there is one. Runs that are found before it are noted.
fn next_part<R: NotedRun>(
    alloc: Global,
    search: &mut Search<R>,
    noted: &mut Noted<R>,
) -> Result<Option<Part<R, R::Fault>>, WalkFault>
    ensures next { (bounds : places.Bounds) (first : R) (parts given : List (Level R R.Fault)) → IsOnTheWay R.steps R.rest R.before R.void R.like R.ends R.end R.events bounds first parts given search.old noted.old → IfOk result (λ part. GoesApart R.steps R.rest R.before R.void R.like R.ends R.end R.events bounds first parts given part search.new noted.new) }
    ensures fault { (bounds : places.Bounds) (first : R) (parts given : List (Level R R.Fault)) → IsOnTheWay R.steps R.rest R.before R.void R.like R.ends R.end R.events bounds first parts given search.old noted.old → IfErr result (Stops R.steps bounds.faults bounds.steps first) }
{
    for _ in 0..u64::MAX {
        match search.next_apart(alloc)? {
            Some(Next::Run(ended)) => noted.note(alloc, &ended)?,
            Some(Next::Part(part)) => return Ok(Some(part)),
            None => return Ok(None),
        }
    }
    Err(WalkFault::Mismatch)
}
