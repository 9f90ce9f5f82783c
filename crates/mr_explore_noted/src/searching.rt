//! Runs are found one after the other, and each is noted.
ghost use Rattle.std.specs.Prelude.{◌≡◌, [], List, IfOk, IfErr, OnOk};
ghost use Rattle.mr_explore_places.specs.Going.{Stops};
ghost use Rattle.mr_explore_places.specs.State.{whole};
ghost use Rattle.mr_explore_places.specs.declared.bounds.Bounds as places;
ghost use Rattle.mr_explore_places.specs.declared.level.Level.{Level};
ghost use Rattle.mr_explore_noted.specs.Searched.{HasAll, HasSearched, IsOnTheWay};
ghost use Rattle.mr_explore_noted.specs.inner.Next.{NotesNext};

use crate::noted::Noted;
use crate::observer::Observer;
use crate::run::NotedRun;
use mr_explore_least::LeastTable;
use mr_explore_places::{Bounds, Search};
use mr_explore_search::WalkFault;
use std::alloc::Global;

/// The least runs to the ends of all runs that come of this one, as far as the bounds say.
///
/// Refusals: `Full` where a run would pass a limit, an allocation failure, and `Mismatch` where `Search::next_run` answers it, or behind 2 ^ 64 - 1 runs.
pub fn least_runs<R: NotedRun, W: Observer>(
    alloc: Global,
    run: R,
    bounds: Bounds,
    observer: &W,
) -> Result<LeastTable, WalkFault>
    ensures all { IfOk result (λ table. HasAll R.steps R.rest R.before R.void R.like R.ends R.end R.events bounds run (whole run) [] table) }
    ensures fault { IfErr result (Stops R.steps bounds.faults bounds.steps run) }
{
    let mut search = Search::new(alloc, run, bounds)?;
    let mut noted = Noted::new(alloc);
    note_all(alloc, &mut search, &mut noted, observer)?;
    Ok(noted.into_table())
}

/// Each run that a search finds is noted.
///
/// Its refusals are those of `least_runs`.
pub fn note_all<R: NotedRun, W: Observer>(
    alloc: Global,
    search: &mut Search<R>,
    noted: &mut Noted<R>,
    observer: &W,
) -> Result<(), WalkFault>
    ensures all { (bounds : places.Bounds) (first : R) (parts given : List (Level R R.Fault)) → IsOnTheWay R.steps R.rest R.before R.void R.like R.ends R.end R.events bounds first parts given search.old noted.old → OnOk result (HasSearched R.steps R.rest R.before R.void R.like R.ends R.end R.events bounds first parts given search.new noted.new) }
    ensures fault { (bounds : places.Bounds) (first : R) (parts given : List (Level R R.Fault)) → IsOnTheWay R.steps R.rest R.before R.void R.like R.ends R.end R.events bounds first parts given search.old noted.old → IfErr result (Stops R.steps bounds.faults bounds.steps first) }
{
    for _ in 0..u64::MAX {
        if !note_next(alloc, search, noted, observer)? {
            return Ok(());
        }
    }
    Err(WalkFault::Mismatch)
}

// The next run is noted, if there is one; whether there was.
fn note_next<R: NotedRun, W: Observer>(
    alloc: Global,
    search: &mut Search<R>,
    noted: &mut Noted<R>,
    observer: &W,
) -> Result<bool, WalkFault>
    ensures next { (bounds : places.Bounds) (first : R) (parts given : List (Level R R.Fault)) → IsOnTheWay R.steps R.rest R.before R.void R.like R.ends R.end R.events bounds first parts given search.old noted.old → IfOk result (λ went. NotesNext R.steps R.rest R.before R.void R.like R.ends R.end R.events bounds first parts given went search.new noted.new) }
    ensures fault { (bounds : places.Bounds) (first : R) (parts given : List (Level R R.Fault)) → IsOnTheWay R.steps R.rest R.before R.void R.like R.ends R.end R.events bounds first parts given search.old noted.old → IfErr result (Stops R.steps bounds.faults bounds.steps first) }
{
    match search.next_run(alloc)? {
        Some(ended) => {
            noted.note(alloc, &ended)?;
            noted.tell(observer);
            Ok(true)
        }
        None => Ok(false),
    }
}
