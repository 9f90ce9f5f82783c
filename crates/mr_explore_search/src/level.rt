//! Levels of a walk: a run on its way, and what is left to be tried where it is.
ghost use Rattle.std.specs.Prelude.{◌≡◌, IfOk, IfErr};
ghost use Rattle.mr_explore_search.specs.Steps.{IsNotFull};

use crate::chances::Chances;
use crate::fault::WalkFault;
use crate::run::Run;
use std::alloc::{AllocError, Global};
use std::collections::LinkedList;

/// A run on its way.
#[derive(Drop)]
pub struct Level<R, F> {
    pub run: R,
    /// The faults that are left to be tried where it is.
    pub faults: LinkedList<F>,
    /// Of what was put off so many, from the first on, are left to be tried where it is.
    pub late: usize,
    /// How many steps more it makes by itself.
    pub left: u64,
    pub chances: Chances<F>,
}

/// A level of its own, as far as this one.
pub fn fork_level<R: Run>(
    alloc: Global,
    level: &Level<R, R::Fault>,
) -> Result<Level<R, R::Fault>, WalkFault>
    ensures is { IfOk result (λ fork. fork ≡ level.now) }
    ensures fault { IfErr result IsNotFull }
{
    let run = level.run.fork(alloc)?;
    let faults = copy_of(alloc, &level.faults)?;
    let chances = copy_of_chances(alloc, &level.chances)?;
    Ok(Level {
        run,
        faults,
        late: level.late,
        left: level.left,
        chances,
    })
}

fn copy_of<F: Copy + Drop>(
    alloc: Global,
    faults: &LinkedList<F>,
) -> Result<LinkedList<F>, AllocError>
    ensures { IfOk result (λ copy. copy ≡ faults.now) }
{
    let mut copy = LinkedList::new(alloc);
    copy.extend(faults)?;
    Ok(copy)
}

fn copy_of_chances<F: Copy + Drop>(
    alloc: Global,
    chances: &Chances<F>,
) -> Result<Chances<F>, AllocError>
    ensures { IfOk result (λ copy. copy ≡ chances.now) }
{
    let owed = chances.owed.with(alloc, None)?;
    Ok(Chances {
        owed,
        spare: chances.spare,
        departs: chances.departs,
        total: chances.total,
    })
}
