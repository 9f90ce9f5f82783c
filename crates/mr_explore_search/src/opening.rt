//! The places from which the runs come, by the number of their faults.
ghost use Rattle.std.specs.Prelude.{◌≡◌, ◌∷◌, ◌++◌, IfOk, IfErr, OnOk};
ghost use Rattle.mr_explore_search.specs.Steps.{IsNotFull};
ghost use Rattle.mr_explore_search.specs.Runs.{runs};
ghost use Rattle.mr_explore_search.specs.inner.Stack.{pass, passes, stack_left};

use crate::chances::Chances;
use crate::fault::WalkFault;
use crate::level::Level;
use crate::owed::Owed;
use crate::run::Run;
use crate::stack::Stack;
use crate::turn::open;
use std::alloc::Global;

/// The places from which all runs come that come of this one by at most `faults` faults.
pub fn open_all<R: Run>(
    alloc: Global,
    run: R,
    faults: u32,
    most: u64,
) -> Result<Stack<Level<R, R::Fault>>, WalkFault>
    ensures all { IfOk result (λ levels. stack_left R.steps most levels ≡ runs R.steps most faults run) }
    ensures fault { IfErr result IsNotFull }
{
    let mut levels = Stack::new(alloc);
    open_passes(alloc, &mut levels, &run, faults, most)?;
    open_pass(alloc, &mut levels, run, 0, most)?;
    Ok(levels)
}

// The places from which the runs with one fault and more come, up to `faults`, come on top.
fn open_passes<R: Run>(
    alloc: Global,
    levels: &mut Stack<Level<R, R::Fault>>,
    run: &R,
    faults: u32,
    most: u64,
) -> Result<(), WalkFault>
    ensures opens { OnOk result (stack_left R.steps most levels.new ≡ passes R.steps most 1 faults run.now ++ stack_left R.steps most levels.old) }
    ensures fault { IfErr result IsNotFull }
{
    for fewer in 0..faults {
        let fork = run.fork(alloc)?;
        open_pass(alloc, levels, fork, faults - fewer, most)?;
    }
    Ok(())
}

// The place from which the runs with just so many faults come is on top.
fn open_pass<R: Run>(
    alloc: Global,
    levels: &mut Stack<Level<R, R::Fault>>,
    run: R,
    faults: u32,
    most: u64,
) -> Result<(), WalkFault>
    ensures opens { OnOk result (levels.new ≡ pass R.steps most faults run ∷ levels.old) }
    ensures fault { IfErr result IsNotFull }
{
    let chances = Chances {
        owed: Owed::new(alloc),
        spare: faults,
        departs: faults as u64 + faults as u64,
        total: faults,
    };
    open(alloc, levels, run, chances, 0, most)
}
