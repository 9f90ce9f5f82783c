//! Parts are taken off what is left of a walk.
ghost use Rattle.std.specs.Prelude.{◌≡◌, ◌∷◌, ℕ, [], false, IfOk, IfErr};
ghost use Rattle.mr_explore_search.specs.Steps.{IsNotFull};
ghost use Rattle.mr_explore_search.specs.inner.Parts.{Divided, with_part};
ghost use Rattle.mr_explore_search.specs.inner.Stack.{stack_left};

use crate::fault::WalkFault;
use crate::level::{Level, fork_level};
use crate::run::Run;
use crate::stack::Stack;
use crate::turn::{depart, go_further};
use std::alloc::Global;

// Runs of a part have at most so many faults more than all of them have.
const SPARE: u32 = 1;

/// The first part: what is left of one level. There is none where nothing is left, or where a run that has more faults left would pass a limit.
pub fn next_part<R: Run>(
    alloc: Global,
    levels: &mut Stack<Level<R, R::Fault>>,
    most: u64,
) -> Result<Option<Level<R, R::Fault>>, WalkFault>
    ensures is { IfOk result (λ part. stack_left R.steps most levels.old ≡ with_part R.steps most part levels.new) }
    ensures fault { IfErr result IsNotFull }
{
    while let Some(level) = levels.pop() {
        if level.chances.spare <= SPARE {
            return Ok(Some(level));
        }
        if !divide(alloc, levels, most, level)? {
            return Ok(None);
        }
    }
    Ok(None)
}

// The level that was on top makes a turn that makes no run. Where it can't, it stays.
fn divide<R: Run>(
    alloc: Global,
    levels: &mut Stack<Level<R, R::Fault>>,
    most: u64,
    level: Level<R, R::Fault>,
) -> Result<bool, WalkFault>
    ensures is { IfOk result (λ went. Divided R.steps most (level ∷ levels.old) went levels.new) }
    ensures fault { IfErr result IsNotFull }
{
    match depart(alloc, levels, most, level)? {
        Some(tried) => divide_behind(alloc, levels, tried),
        None => Ok(true),
    }
}

// The same, where all was tried.
fn divide_behind<R: Run>(
    alloc: Global,
    levels: &mut Stack<Level<R, R::Fault>>,
    level: Level<R, R::Fault>,
) -> Result<bool, WalkFault>
    ensures is { IfOk result (λ went. level.faults ≡ [] → level.late ≡ 0 → (most : ℕ) → Divided R.steps most (level ∷ levels.old) went levels.new) }
    ensures fault { IfErr result IsNotFull }
{
    let fork = fork_level(alloc, &level)?;
    match go_further(alloc, levels, fork) {
        Ok(None) => Ok(true),
        Ok(Some(_)) => keep(levels, level),
        Err(WalkFault::Full) => keep(levels, level),
        Err(WalkFault::NoMemory) => Err(WalkFault::NoMemory),
        Err(WalkFault::Mismatch) => Err(WalkFault::Mismatch),
    }
}

// The level stays.
fn keep<R: Run>(
    levels: &mut Stack<Level<R, R::Fault>>,
    level: Level<R, R::Fault>,
) -> Result<bool, WalkFault>
    ensures is { IfOk result (λ went. (went ≡ false) × (levels.new ≡ level ∷ levels.old)) }
    ensures fault { IfErr result IsNotFull }
{
    levels.push(level)?;
    Ok(false)
}
