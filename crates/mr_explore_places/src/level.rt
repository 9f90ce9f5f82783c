//! Levels of a search: what is left to depart from the places of a run.
ghost use Rattle.std.specs.Prelude.{◌≡◌, IfOk, IfErr, OnOk};
ghost use Rattle.mr_explore_search.specs.Steps.{IsNotFull};
ghost use Rattle.mr_explore_places.specs.Levels.{with_begun};

use crate::place::{Place, copy_of};
use crate::run::MarkedRun;
use mr_explore_search::WalkFault;
use std::alloc::{AllocError, Global};
use std::collections::LinkedList;

/// What a search has before it.
#[derive(Drop)]
pub enum Level<R, F> {
    /// A run begins behind a departure.
    Begin(Place<R, F>),
    /// Faults are tried.
    Faults(Trying<R, F>),
    /// What was put off comes.
    Late(Coming<R, F>),
}

/// Faults that are tried along a run.
#[derive(Drop)]
pub struct Trying<R, F> {
    pub place: Place<R, F>,
    /// The faults that are left to be tried where it is.
    pub faults: LinkedList<F>,
    /// Faults are tried at so many places behind it.
    pub beyond: u64,
}

/// What was put off, and comes along a run.
#[derive(Drop)]
pub struct Coming<R, F> {
    pub place: Place<R, F>,
    /// Of what was put off so many, from the first on, are left to come where it is.
    pub late: usize,
    /// It comes at so many places behind it.
    pub beyond: u64,
}

/// A level of its own, as this one.
pub fn fork_level<R: MarkedRun>(
    alloc: Global,
    level: &Level<R, R::Fault>,
) -> Result<Level<R, R::Fault>, WalkFault>
    ensures is { IfOk result (λ fork. fork ≡ level.now) }
    ensures fault { IfErr result IsNotFull }
{
    match level {
        Level::Begin(place) => {
            let fork = copy_of(alloc, place)?;
            Ok(Level::Begin(fork))
        }
        Level::Faults(level) => {
            let fork = fork_trying(alloc, level)?;
            Ok(Level::Faults(fork))
        }
        Level::Late(level) => {
            let fork = fork_coming(alloc, level)?;
            Ok(Level::Late(fork))
        }
    }
}

fn fork_trying<R: MarkedRun>(
    alloc: Global,
    level: &Trying<R, R::Fault>,
) -> Result<Trying<R, R::Fault>, WalkFault>
    ensures is { IfOk result (λ fork. fork ≡ level.now) }
    ensures fault { IfErr result IsNotFull }
{
    let faults = copy_of_faults(alloc, &level.faults)?;
    let place = copy_of(alloc, &level.place)?;
    Ok(Trying {
        place,
        faults,
        beyond: level.beyond,
    })
}

fn fork_coming<R: MarkedRun>(
    alloc: Global,
    level: &Coming<R, R::Fault>,
) -> Result<Coming<R, R::Fault>, WalkFault>
    ensures is { IfOk result (λ fork. fork ≡ level.now) }
    ensures fault { IfErr result IsNotFull }
{
    let place = copy_of(alloc, &level.place)?;
    Ok(Coming {
        place,
        late: level.late,
        beyond: level.beyond,
    })
}

fn copy_of_faults<F: Copy + Drop>(
    alloc: Global,
    faults: &LinkedList<F>,
) -> Result<LinkedList<F>, AllocError>
    ensures { IfOk result (λ copy. copy ≡ faults.now) }
{
    let mut copy = LinkedList::new(alloc);
    copy.extend(faults)?;
    Ok(copy)
}

/// A run begins here next, if there is one.
pub fn push_begun<R: MarkedRun>(
    levels: &mut LinkedList<Level<R, R::Fault>>,
    child: Option<Place<R, R::Fault>>,
) -> Result<(), WalkFault>
    ensures pushes { OnOk result (levels.new ≡ with_begun child levels.old) }
    ensures fault { IfErr result IsNotFull }
{
    if let Some(place) = child {
        levels.push_front(Level::Begin(place))?;
    }
    Ok(())
}
