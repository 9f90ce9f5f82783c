//! Places of runs.
ghost use Rattle.std.specs.Prelude.{◌≡◌, ◌↔◌, IsTrue, IfOk, IfErr};
ghost use Rattle.mr_explore_search.specs.Steps.{IsNotFull};
ghost use Rattle.mr_explore_alike.specs.Leaving.{IsEarlier};
ghost use Rattle.mr_explore_places.specs.Covering.{StandsFor};

use crate::run::MarkedRun;
use mr_explore_search::WalkFault;
use std::alloc::Global;
use std::marker::Model;

/// A place where a run is.
#[derive(Drop)]
pub struct Place<R, F> {
    /// How many faults it has had.
    pub faults: u32,
    /// Of what was put off so many, from the first on, may come here.
    pub ripe: usize,
    /// What its faults put off, and has not come.
    pub owed: Vec<F>,
    pub run: R,
    /// How many steps it made by itself behind its last departure. No contract speaks of it.
    pub steps: u64,
}

impl<R, F> Model for Place<R, F> {
    ghost use Rattle.mr_explore_alike.specs.Leaving.{Here};

    ghost Value = { Here R F };

    ghost view = { λ p. record { faults = p.faults; ripe = p.ripe; owed = p.owed.items; run = p.run } };
}

/// A place of its own, as this one.
pub fn copy_of<R: MarkedRun>(
    alloc: Global,
    place: &Place<R, R::Fault>,
) -> Result<Place<R, R::Fault>, WalkFault>
    ensures is { IfOk result (λ copy. copy ≡ place.now) }
    ensures fault { IfErr result IsNotFull }
{
    let owed = Vec::from_slice(alloc, &place.owed)?;
    let run = place.run.fork(alloc)?;
    Ok(Place {
        faults: place.faults,
        ripe: place.ripe,
        owed,
        run,
        steps: place.steps,
    })
}

// Whether this one is earlier than the other one: it has fewer faults, or as many and its script comes before.
fn is_earlier<R: MarkedRun>(place: &Place<R, R::Fault>, other: &Place<R, R::Fault>) -> bool
    ensures { IsTrue result ↔ IsEarlier R.before place.now.faults place.now.run other.now.faults other.now.run }
{
    if place.faults == other.faults {
        place.run.comes_before(&other.run)
    } else {
        place.faults < other.faults
    }
}

/// Whether a place need not be made, since another one was.
pub fn stands_for<R: MarkedRun>(
    alloc: Global,
    made: &Place<R, R::Fault>,
    place: &Place<R, R::Fault>,
) -> Result<bool, WalkFault>
    ensures stands { IfOk result (λ stands. IsTrue stands → StandsFor R.before R.like made.now place.now) }
    ensures fault { IfErr result IsNotFull }
{
    if place.ripe > made.ripe {
        return Ok(false);
    }
    if !is_earlier(made, place) {
        return Ok(false);
    }
    place.run.is_like(alloc, &place.owed, &made.run, &made.owed)
}
