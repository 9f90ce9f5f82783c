//! What one thread does: it searches parts, with places and a table of its own.
ghost use Rattle.std.specs.Prelude.{◌≡◌, ◌∷◌, ◌++◌, [], List, None, Some, IfOk, IfErr, OnOk};
ghost use Rattle.std.specs.List.{All};
ghost use Rattle.mr_explore_places.specs.Going.{Stops};
ghost use Rattle.mr_explore_places.specs.State.{IsPart};
ghost use Rattle.mr_explore_places.specs.declared.bounds.Bounds as places;
ghost use Rattle.mr_explore_places.specs.declared.level.Level.{Level};
ghost use Rattle.mr_explore_noted.specs.Searched.{HasSearched, IsOnTheWay};
ghost use Rattle.mr_explore_workers.specs.inner.Working.{HasDone, HasWorked, has_taken, parts_at};

use mr_explore_least::LeastTable;
use mr_explore_noted::{Noted, NotedRun, Unobserved, note_all};
use mr_explore_places::{Bounds, Part, Search};
use mr_explore_search::WalkFault;
use std::alloc::{AllocError, Global};
use std::marker::Model;
use std::sync::atomic::{AtomicUsize, Ordering};

/// A worker: it searches parts. What it found is in its table.
#[derive(Drop)]
pub struct Worker<R: NotedRun> {
    search: Search<R>,
    noted: Noted<R>,
    // At which places the parts of the last round stand that it searched.
    took: Vec<usize>,
    // Why it has stopped, if it has.
    fault: Option<WalkFault>,
}

impl<R: NotedRun> Model for Worker<R> {
    ghost use Rattle.mr_explore_workers.specs.inner.Working.{Working};

    ghost Value = { Working R R.Fault };

    ghost view = { λ w. record { search = w.search; table = w.noted; took = w.took.items; fault = w.fault } };
}

impl<R: NotedRun> Worker<R> {
    /// A worker that has searched nothing yet, and goes as far as the bounds say. It keeps places in so many rows. It fails where there is no memory.
    pub fn new(alloc: Global, bounds: &Bounds, rows: usize) -> Result<Worker<R>, AllocError>
        ensures { IfOk result (λ worker. (first : R) → HasWorked R.steps R.rest R.before R.void R.like R.ends R.end R.events bounds.now first [] worker) }
    {
        let search = Search::idle(alloc, *bounds, rows)?;
        Ok(Worker {
            search,
            noted: Noted::new(alloc),
            took: Vec::new(alloc),
            fault: None,
        })
    }

    /// It searches parts of a round, whichever is next, until none is left, unless it has stopped. In the last round it gives back the memory of its places
    /// then: they are many, so each thread does so for its own.
    pub fn work(
        &mut self,
        alloc: Global,
        parts: &[Part<R, R::Fault>],
        next: &AtomicUsize,
        is_last: bool,
    )
        ensures { (bounds : places.Bounds) (first : R) (mine : List (Level R R.Fault)) → All (IsPart R.steps bounds first) parts.now → HasWorked R.steps R.rest R.before R.void R.like R.ends R.end R.events bounds first mine self.old
            → HasWorked R.steps R.rest R.before R.void R.like R.ends R.end R.events bounds first (parts_at parts.now self.new.took ++ mine) self.new }
    {
        self.search_some(alloc, parts, next);
        self.forget_if(alloc, is_last);
    }

    // It searches parts of a round, unless it has stopped.
    fn search_some(&mut self, alloc: Global, parts: &[Part<R, R::Fault>], next: &AtomicUsize)
        ensures { (bounds : places.Bounds) (first : R) (mine : List (Level R R.Fault)) → All (IsPart R.steps bounds first) parts.now → HasWorked R.steps R.rest R.before R.void R.like R.ends R.end R.events bounds first mine self.old
            → HasWorked R.steps R.rest R.before R.void R.like R.ends R.end R.events bounds first (parts_at parts.now self.new.took ++ mine) self.new }
    {
        if self.fault.is_some() {
            return;
        }
        match search_next(alloc, &mut self.search, &mut self.noted, parts, next) {
            Ok(took) => self.took = took,
            Err(fault) => self.fault = Some(fault),
        }
    }

    // In the last round it keeps no place any more.
    fn forget_if(&mut self, alloc: Global, is_last: bool)
        ensures worked { (bounds : places.Bounds) (first : R) (mine : List (Level R R.Fault)) → HasWorked R.steps R.rest R.before R.void R.like R.ends R.end R.events bounds first mine self.old → HasWorked R.steps R.rest R.before R.void R.like R.ends R.end R.events bounds first mine self.new }
        ensures took { self.new.took ≡ self.old.took }
    {
        if !is_last {
            return;
        }
        self.search.forget_places(alloc);
    }

    /// Whether it searched the part at this place of the last round.
    pub fn has_taken(&self, place: usize) -> bool
        ensures { result ≡ has_taken place self.now }
    {
        self.took.iter().any(|took| *took == place)
    }

    /// How many runs it has found.
    pub fn runs(&self) -> u64 {
        self.noted.runs()
    }

    /// The table of the runs that it found, or why it has stopped.
    pub fn into_table(self) -> Result<LeastTable, WalkFault>
        ensures table { IfOk result (λ table. (self.fault ≡ None) × (table ≡ self.table)) }
        ensures fault { IfErr result (λ f. self.fault ≡ Some f) }
    {
        let Worker {
            search: _,
            noted,
            took: _,
            fault,
        } = self;
        match fault {
            Some(fault) => Err(fault),
            None => Ok(noted.into_table()),
        }
    }

    /// Why it has stopped, if it has.
    pub fn fault(&self) -> Option<WalkFault>
        ensures { result ≡ self.now.fault }
    {
        self.fault
    }
}

// Parts are searched, whichever is next, until none is left: at which places they stand.
fn search_next<R: NotedRun>(
    alloc: Global,
    search: &mut Search<R>,
    noted: &mut Noted<R>,
    parts: &[Part<R, R::Fault>],
    next: &AtomicUsize,
) -> Result<Vec<usize>, WalkFault>
    ensures done { (bounds : places.Bounds) (first : R) (mine : List (Level R R.Fault)) → All (IsPart R.steps bounds first) parts.now → HasDone R.steps R.rest R.before R.void R.like R.ends R.end R.events bounds first mine search.old noted.old
        → IfOk result (λ took. HasDone R.steps R.rest R.before R.void R.like R.ends R.end R.events bounds first (parts_at parts.now took.items ++ mine) search.new noted.new) }
    ensures fault { (bounds : places.Bounds) (first : R) (mine : List (Level R R.Fault)) → All (IsPart R.steps bounds first) parts.now → HasDone R.steps R.rest R.before R.void R.like R.ends R.end R.events bounds first mine search.old noted.old
        → IfErr result (Stops R.steps bounds.faults bounds.steps first) }
{
    let mut took = Vec::new(alloc);
    for _ in 0..parts.len() {
        let place = next.fetch_add(1, Ordering::SeqCst);
        let Some(part) = parts.get(place) else {
            return Ok(took);
        };
        search_copy(alloc, search, noted, part)?;
        took.push(place)?;
    }
    Ok(took)
}

// A copy of a part is searched, since others may read it.
fn search_copy<R: NotedRun>(
    alloc: Global,
    search: &mut Search<R>,
    noted: &mut Noted<R>,
    part: &Part<R, R::Fault>,
) -> Result<(), WalkFault>
    ensures all { (bounds : places.Bounds) (first : R) (done : List (Level R R.Fault)) → HasSearched R.steps R.rest R.before R.void R.like R.ends R.end R.events bounds first done [] search.old noted.old → IsPart R.steps bounds first part.now
        → OnOk result (HasSearched R.steps R.rest R.before R.void R.like R.ends R.end R.events bounds first (part.now ∷ done) [] search.new noted.new) }
    ensures fault { (bounds : places.Bounds) (first : R) (done : List (Level R R.Fault)) → HasSearched R.steps R.rest R.before R.void R.like R.ends R.end R.events bounds first done [] search.old noted.old → IsPart R.steps bounds first part.now
        → IfErr result (Stops R.steps bounds.faults bounds.steps first) }
{
    let copy = part.fork(alloc)?;
    search_part(alloc, search, noted, part, copy)
}

// The part is searched, of which this is a copy. A search that has not stopped takes a part unless there is no memory.
fn search_part<R: NotedRun>(
    alloc: Global,
    search: &mut Search<R>,
    noted: &mut Noted<R>,
    part: &Part<R, R::Fault>,
    copy: Part<R, R::Fault>,
) -> Result<(), WalkFault>
    requires { copy ≡ part.now }
    ensures all { (bounds : places.Bounds) (first : R) (done : List (Level R R.Fault)) → HasSearched R.steps R.rest R.before R.void R.like R.ends R.end R.events bounds first done [] search.old noted.old → IsPart R.steps bounds first part.now
        → OnOk result (HasSearched R.steps R.rest R.before R.void R.like R.ends R.end R.events bounds first (part.now ∷ done) [] search.new noted.new) }
    ensures fault { (bounds : places.Bounds) (first : R) (done : List (Level R R.Fault)) → HasSearched R.steps R.rest R.before R.void R.like R.ends R.end R.events bounds first done [] search.old noted.old → IsPart R.steps bounds first part.now
        → IfErr result (Stops R.steps bounds.faults bounds.steps first) }
{
    match search.take_part(copy) {
        Ok(()) => search_taken(alloc, search, noted, part),
        Err(_) => Err(WalkFault::NoMemory),
    }
}

// A part that was taken is searched. The places along which its faults are tried are kept first: most that comes of them meets one.
fn search_taken<R: NotedRun>(
    alloc: Global,
    search: &mut Search<R>,
    noted: &mut Noted<R>,
    part: &Part<R, R::Fault>,
) -> Result<(), WalkFault>
    ensures all { (bounds : places.Bounds) (first : R) (done : List (Level R R.Fault)) → IsOnTheWay R.steps R.rest R.before R.void R.like R.ends R.end R.events bounds first (part.now ∷ done) [] search.old noted.old
        → OnOk result (HasSearched R.steps R.rest R.before R.void R.like R.ends R.end R.events bounds first (part.now ∷ done) [] search.new noted.new) }
    ensures fault { (bounds : places.Bounds) (first : R) (done : List (Level R R.Fault)) → IsOnTheWay R.steps R.rest R.before R.void R.like R.ends R.end R.events bounds first (part.now ∷ done) [] search.old noted.old
        → IfErr result (Stops R.steps bounds.faults bounds.steps first) }
{
    search.keep_trail(alloc, part)?;
    note_all(alloc, search, noted, &Unobserved)
}
