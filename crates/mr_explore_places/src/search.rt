//! The search.
ghost use Rattle.std.specs.Prelude.{◌≡◌, List, [], ◌∷◌, None, Err, IfOk, IfErr, OnOk, OnErr};
ghost use Rattle.mr_explore_search.specs.Runs.{Found};
ghost use Rattle.mr_explore_search.specs.Steps.{IsNotFull};
ghost use Rattle.mr_explore_search.specs.declared.fault.WalkFault.{WalkFault};
ghost use Rattle.mr_explore_places.specs.Places.{beginning};
ghost use Rattle.mr_explore_places.specs.State.{Answers, AnswersApart, HasFound, HasStopped, IsPart, fault_of, whole};

use crate::bounds::Bounds;
use crate::front::Front;
use crate::level::Level;
use crate::part::{Next, Part};
use crate::place::Place;
use crate::run::MarkedRun;
use crate::stores::Stores;
use crate::trail::keep_trail;
use crate::turn::{seek, seek_apart};
use mr_explore_search::{Ended, WalkFault};
use std::alloc::{AllocError, Global};
use std::collections::LinkedList;
use std::marker::Model;

/// A search over the runs that come of one.
///
/// It holds the places that it keeps, and two runs at most for each departure of the run that is made.
#[derive(Drop)]
pub struct Search<R: MarkedRun> {
    levels: LinkedList<Level<R, R::Fault>>,
    front: Front<R, R::Fault>,
    stores: Stores<R, R::Fault>,
    bounds: Bounds,
    // Why it has stopped, if it has.
    fault: Option<WalkFault>,
}

impl<R: MarkedRun> Model for Search<R> {
    ghost use Rattle.mr_explore_places.specs.Places.{beginning};
    ghost use Rattle.mr_explore_places.specs.State.{State};

    ghost Value = { State R R.Fault };

    ghost view = { λ s. record { bounds = s.bounds; kept = s.stores; going = s.front; left = s.levels; fault = s.fault } };
}

impl<R: MarkedRun> Search<R> {
    // It has these levels before it, and has not stopped.
    fn over(
        levels: LinkedList<Level<R, R::Fault>>,
        front: Front<R, R::Fault>,
        stores: Stores<R, R::Fault>,
        bounds: Bounds,
    ) -> Search<R>
        ensures { result ≡ record { bounds = bounds; kept = stores; going = front; left = levels; fault = None } }
    {
        Search {
            levels,
            front,
            stores,
            bounds,
            fault: None,
        }
    }

    /// A search over the runs that come of this one. It has found none yet. It fails where there is no memory.
    pub fn new(alloc: Global, run: R, bounds: Bounds) -> Result<Search<R>, WalkFault>
        ensures starts { IfOk result (λ search. HasFound R.steps R.rest R.before R.void R.like R.ends bounds run (whole run) [] [] search) }
        ensures fault { IfErr result IsNotFull }
    {
        let stores = Stores::new(alloc, bounds.rows)?;
        let mut levels = LinkedList::new(alloc);
        levels.push_front(Level::Begin(beginning(alloc, run)))?;
        Ok(Search::over(levels, Front::new(alloc), stores, bounds))
    }

    /// A search over a part that was taken off another search with the same bounds, with places of its own. It has found none yet. It fails where there is no memory.
    pub fn of_part(
        alloc: Global,
        part: Part<R, R::Fault>,
        bounds: Bounds,
    ) -> Result<Search<R>, WalkFault>
        ensures starts { IfOk result (λ search. (first : R) → IsPart R.steps bounds first part → HasFound R.steps R.rest R.before R.void R.like R.ends bounds first (part ∷ []) [] [] search) }
        ensures fault { IfErr result IsNotFull }
    {
        let stores = Stores::new(alloc, bounds.rows)?;
        let mut levels = LinkedList::new(alloc);
        levels.push_front(part.into_level())?;
        Ok(Search::over(levels, Front::new(alloc), stores, bounds))
    }

    /// A search that has nothing before it, and has found nothing. It keeps places in so many rows, whatever its bounds say of them. It fails where there is no memory.
    pub fn idle(alloc: Global, bounds: Bounds, rows: usize) -> Result<Search<R>, AllocError>
        ensures { IfOk result (λ search. (first : R) → HasFound R.steps R.rest R.before R.void R.like R.ends bounds first [] [] [] search) }
    {
        let stores = Stores::new(alloc, rows)?;
        let levels = LinkedList::new(alloc);
        Ok(Search::over(levels, Front::new(alloc), stores, bounds))
    }

    /// A part that was taken off another search with the same bounds comes before it, besides what is left of others. It keeps its places. It fails where there is no memory, or
    /// where it has stopped, with its fault; then nothing changes.
    pub fn take_part(&mut self, part: Part<R, R::Fault>) -> Result<(), WalkFault>
        ensures takes { (bounds : Bounds) (first : R) (parts given : List (Level R R.Fault)) (found : List (Found R)) → HasFound R.steps R.rest R.before R.void R.like R.ends bounds first parts given found self.old → IsPart R.steps bounds first part → OnOk result (HasFound R.steps R.rest R.before R.void R.like R.ends bounds first (part ∷ parts) given found self.new) }
        ensures stays { OnErr result (self.new ≡ self.old) }
        ensures again { (fault : WalkFault) → HasStopped self.old fault → result ≡ Err fault }
    {
        if let Some(fault) = self.fault {
            return Err(fault);
        }
        self.levels.push_front(part.into_level())?;
        Ok(())
    }

    /// Of a part that it took the places are kept along which its faults are tried: whoever gave the part away made them. It fails where there is no memory, or where a run's own
    /// call fails; what it keeps then is not told.
    pub fn keep_trail(&mut self, alloc: Global, part: &Part<R, R::Fault>) -> Result<(), WalkFault>
        ensures keeps { (bounds : Bounds) (first : R) (parts given : List (Level R R.Fault)) (found : List (Found R)) → HasFound R.steps R.rest R.before R.void R.like R.ends bounds first (part.now ∷ parts) given found self.old → OnOk result (HasFound R.steps R.rest R.before R.void R.like R.ends bounds first (part.now ∷ parts) given found self.new) }
        ensures fault { IfErr result IsNotFull }
    {
        keep_trail(alloc, &mut self.stores, part.level())
    }

    /// From here on it keeps none of the places that it kept so far, and gives their memory back. It finds what it would have found else, and perhaps more runs than it needs.
    pub fn forget_places(&mut self, alloc: Global)
        ensures { (bounds : Bounds) (first : R) (parts given : List (Level R R.Fault)) (found : List (Found R)) → HasFound R.steps R.rest R.before R.void R.like R.ends bounds first parts given found self.old → HasFound R.steps R.rest R.before R.void R.like R.ends bounds first parts given found self.new }
    {
        self.stores = Stores::none(alloc);
    }

    /// The next run that came to its end, in the order in which they are made; no run where all that are needed were found.
    ///
    /// Refusals: `Full` where a run would pass a limit, and an allocation failure. `Mismatch` where a run is not at its end behind as many steps as the bounds say, which can't be where
    /// they say more than it makes; where a void run goes on; where a run's own call says so; and behind 2 ^ 64 - 1 turns that find no run. Each later call is refused so.
    pub fn next_run(&mut self, alloc: Global) -> Result<Option<Ended<R>>, WalkFault>
        ensures answers { (bounds : Bounds) (first : R) (parts given : List (Level R R.Fault)) (found : List (Found R)) → HasFound R.steps R.rest R.before R.void R.like R.ends bounds first parts given found self.old → Answers R.steps R.rest R.before R.void R.like R.ends bounds first parts given found result self.new }
        ensures again { (fault : WalkFault) → HasStopped self.old fault → (result ≡ Err fault) × (self.new ≡ self.old) }
    {
        if let Some(fault) = self.fault {
            return Err(fault);
        }
        let result = seek(
            alloc,
            &mut self.stores,
            &mut self.front,
            &mut self.levels,
            &self.bounds,
        );
        self.fault = fault_of(&result);
        result
    }

    /// The next run that came to its end, or the next part, which this search leaves to others; nothing where all that are needed were found but for what comes of the
    /// parts.
    ///
    /// Refusals: as `next_run`.
    pub fn next_apart(&mut self, alloc: Global) -> Result<Option<Next<R, R::Fault>>, WalkFault>
        ensures answers { (bounds : Bounds) (first : R) (parts given : List (Level R R.Fault)) (found : List (Found R)) → HasFound R.steps R.rest R.before R.void R.like R.ends bounds first parts given found self.old → AnswersApart R.steps R.rest R.before R.void R.like R.ends bounds first parts given found result self.new }
        ensures again { (fault : WalkFault) → HasStopped self.old fault → (result ≡ Err fault) × (self.new ≡ self.old) }
    {
        if let Some(fault) = self.fault {
            return Err(fault);
        }
        let result = seek_apart(
            alloc,
            &mut self.stores,
            &mut self.front,
            &mut self.levels,
            &self.bounds,
        );
        self.fault = fault_of(&result);
        result
    }
}

// The place where a run begins.
fn beginning<R: MarkedRun>(alloc: Global, run: R) -> Place<R, R::Fault>
    ensures { result ≡ beginning run }
{
    Place {
        faults: 0,
        ripe: 0,
        owed: Vec::new(alloc),
        run,
        steps: 0,
    }
}

// Why a call was refused, if it was.
fn fault_of<T>(answer: &Result<T, WalkFault>) -> Option<WalkFault>
    ensures { result ≡ fault_of answer.now }
{
    match answer {
        Ok(_) => None,
        Err(fault) => Some(*fault),
    }
}
