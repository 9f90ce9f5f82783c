//! Runs that may have no more faults, and go on side by side.
ghost use Rattle.std.specs.Prelude.{◌≡◌, [], ◌∷◌, ◌++◌, None, Ok, IsTrue, IfOk, IfErr, OnOk};
ghost use Rattle.mr_explore_search.specs.Steps.{IsNotFull};
ghost use Rattle.mr_explore_places.specs.Covering.{OneStandsFor, StandsFor};
ghost use Rattle.mr_explore_places.specs.Fronts.{AreSame, IsUnderway, Leaves};

use crate::place::{Place, stands_for};
use crate::run::MarkedRun;
use mr_explore_search::WalkFault;
use std::alloc::{AllocError, Global};
use std::cell::Cell;
use std::marker::Model;

// So many runs go on side by side at most.
const ROOM: usize = 1024;

/// A run on its way.
#[derive(Drop)]
pub struct Going<R, F> {
    /// By which number it is looked up, where it is. No contract speaks of it.
    pub mark: Option<u64>,
    /// At which step behind its last departure another run last met it. No contract speaks of it.
    pub met: Cell<u64>,
    /// How many steps more it makes by itself at most.
    pub left: u64,
    pub place: Box<Place<R, F>>,
}

impl<R, F> Model for Going<R, F> {
    ghost use Rattle.mr_explore_places.specs.Fronts.{Underway};

    ghost Value = { Underway R F };

    ghost view = { λ g. record { left = g.left; here = g.place.value } };
}

/// Runs that go on side by side: each makes a step before one makes a second. Contracts see which ones they are.
#[derive(Drop)]
pub struct Front<R, F> {
    // Those that have yet to make their step, the next one last.
    behind: Vec<Going<R, F>>,
    // Those that have made it.
    abreast: Vec<Going<R, F>>,
}

impl<R, F> Model for Front<R, F> {
    ghost use Rattle.std.specs.Prelude.{List, ◌++◌};
    ghost use Rattle.mr_explore_places.specs.Fronts.{Underway};

    ghost Value = { List (Underway R F) };

    ghost view = { λ f. f.behind.items ++ f.abreast.items };
}

impl<R: Drop, F: Drop> Front<R, F> {
    /// No run.
    pub fn new(alloc: Global) -> Front<R, F>
        ensures { result ≡ [] }
    {
        Front {
            behind: Vec::new(alloc),
            abreast: Vec::new(alloc),
        }
    }

    /// Whether no more runs should come to it.
    pub fn is_full(&self) -> bool {
        self.behind.len() + self.abreast.len() >= ROOM
    }

    /// A run comes to it, abreast of those that have made their step.
    pub fn push(&mut self, going: Going<R, F>) -> Result<(), AllocError>
        ensures { OnOk result (AreSame (self.old ++ going ∷ []) self.new) }
    {
        self.abreast.push(going)?;
        Ok(())
    }

    /// A run comes to it that makes its step before all others.
    pub fn push_next(&mut self, going: Going<R, F>) -> Result<(), AllocError>
        ensures { OnOk result (AreSame (self.old ++ going ∷ []) self.new) }
    {
        self.behind.push(going)?;
        Ok(())
    }

    /// The next one that has yet to make its step leaves, if there is one.
    pub fn pop_behind(&mut self) -> Option<Going<R, F>>
        ensures { Leaves self.old result self.new }
    {
        self.behind.pop()
    }

    /// The next one leaves, if there is one. Where all have made their step, each has yet to make another.
    pub fn pop(&mut self) -> Result<Option<Going<R, F>>, AllocError>
        ensures leaves { IfOk result (λ going. Leaves self.old going self.new) }
        ensures last { result ≡ Ok None → self.new ≡ [] }
    {
        if !self.behind.is_empty() {
            return Ok(self.behind.pop());
        }
        self.behind.append(&mut self.abreast)?;
        Ok(self.behind.pop())
    }

    /// All have yet to make a step. Those that came last make it first: of two that meet, the earlier one then does so every other time.
    pub fn fall_behind(&mut self) -> Result<(), AllocError>
        ensures { OnOk result (self.new ≡ self.old) }
    {
        self.behind.append(&mut self.abreast)
    }
}

impl<R: MarkedRun> Front<R, R::Fault> {
    /// Whether one that has made its step has this mark, and stands for this place.
    pub fn covers(
        &self,
        alloc: Global,
        mark: u64,
        place: &Place<R, R::Fault>,
    ) -> Result<bool, WalkFault>
        ensures stands { IfOk result (λ covers. IsTrue covers → OneStandsFor R.before R.like (IsUnderway self.now) place.now) }
        ensures fault { IfErr result IsNotFull }
    {
        for going in &self.abreast {
            if is_for(alloc, going, mark, place)? {
                going.met.set(going.place.steps);
                return Ok(true);
            }
        }
        Ok(false)
    }
}

// Whether this run has the mark, and stands for the place.
fn is_for<R: MarkedRun>(
    alloc: Global,
    going: &Going<R, R::Fault>,
    mark: u64,
    place: &Place<R, R::Fault>,
) -> Result<bool, WalkFault>
    ensures stands { IfOk result (λ stands. IsTrue stands → StandsFor R.before R.like going.now.here place.now) }
    ensures fault { IfErr result IsNotFull }
{
    if going.mark != Some(mark) {
        return Ok(false);
    }
    stands_for(alloc, &going.place, place)
}
