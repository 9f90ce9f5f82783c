//! Places along which the faults of a part are tried: whoever gave it away made them.
ghost use Rattle.std.specs.Prelude.{ℕ, IfErr, OnOk};
ghost use Rattle.mr_explore_search.specs.Steps.{IsNotFull};
ghost use Rattle.mr_explore_places.specs.Keeping.{KeepsTrail};
ghost use Rattle.mr_explore_places.specs.declared.level.Level.TheVariants.{Faults};

use crate::following::goes_on;
use crate::level::{Level, Trying};
use crate::place::copy_of;
use crate::run::MarkedRun;
use crate::stores::{Stores, keep_made};
use mr_explore_search::WalkFault;
use std::alloc::Global;

/// The places along which faults of the level are tried are kept.
pub fn keep_trail<R: MarkedRun>(
    alloc: Global,
    stores: &mut Stores<R, R::Fault>,
    level: &Level<R, R::Fault>,
) -> Result<(), WalkFault>
    ensures keeps { OnOk result ((budget : ℕ) → KeepsTrail R.steps budget level.now stores.old stores.new) }
    ensures fault { IfErr result IsNotFull }
{
    match level {
        Level::Begin(_) => Ok(()),
        Level::Faults(level) => keep_places(alloc, stores, level),
        Level::Late(_) => Ok(()),
    }
}

// The same, of faults that are tried.
fn keep_places<R: MarkedRun>(
    alloc: Global,
    stores: &mut Stores<R, R::Fault>,
    level: &Trying<R, R::Fault>,
) -> Result<(), WalkFault>
    ensures keeps { OnOk result ((budget : ℕ) → KeepsTrail R.steps budget (Faults level.now) stores.old stores.new) }
    ensures fault { IfErr result IsNotFull }
{
    let mut place = copy_of(alloc, &level.place)?;
    keep_made(alloc, stores, &place)?;
    for _ in 0..level.beyond {
        if !goes_on(alloc, &mut place)? {
            return Ok(());
        }
        keep_made(alloc, stores, &place)?;
    }
    Ok(())
}
