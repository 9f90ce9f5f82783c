//! What is left of a walk, in parts that can be walked apart from each other.
ghost use Rattle.std.specs.Prelude.{◌≡◌, [], ◌∷◌, drop, length, slice_get, IfOk, IfErr, OnOk};
ghost use Rattle.mr_explore_search.specs.Steps.{IsNotFull};
ghost use Rattle.mr_explore_search.specs.Runs.{runs};
ghost use Rattle.mr_explore_search.specs.Parting.{whole};
ghost use Rattle.mr_explore_search.specs.inner.Parts.{all_left};
ghost use Rattle.mr_explore_search.specs.inner.Stack.{left_of, stack_left};

use crate::dividing::next_part;
use crate::fault::WalkFault;
use crate::level::{Level, fork_level};
use crate::opening::open_all;
use crate::run::Run;
use crate::stack::Stack;
use crate::walk::Walk;
use std::alloc::{AllocError, Global};
use std::marker::Model;

/// What is left of a walk: some parts of it, which can be walked apart from each other, and the rest. Contracts see each part as the list of its runs, and
/// so the rest.
///
/// It holds one run for each part, and for the rest what a `Walk` holds.
#[derive(Drop)]
pub struct Parts<R: Run> {
    levels: Stack<Level<R, R::Fault>>,
    parts: Vec<Level<R, R::Fault>>,
    most: u64,
}

impl<R: Run> Model for Parts<R> {
    ghost use Rattle.std.specs.Prelude.{map};
    ghost use Rattle.mr_explore_search.specs.Parting.{Parted};
    ghost use Rattle.mr_explore_search.specs.inner.Stack.{left_of, stack_left};

    ghost Value = { Parted R };

    ghost view = { λ p. record { parts = map (left_of R.steps p.most) p.parts.items; rest = stack_left R.steps p.most p.levels } };
}

impl<R: Run> Parts<R> {
    /// All runs that come of this one by at most `faults` faults, where a run makes at most `most` steps by itself behind what befell it. They are in no part yet. It
    /// fails where there is no memory, or where a run's own call fails.
    pub fn new(alloc: Global, run: R, faults: u32, most: u64) -> Result<Parts<R>, WalkFault>
        ensures all { IfOk result (λ parts. parts ≡ record { parts = []; rest = runs R.steps most faults run }) }
        ensures fault { IfErr result IsNotFull }
    {
        let levels = open_all(alloc, run, faults, most)?;
        Ok(Parts {
            levels,
            parts: Vec::new(alloc),
            most,
        })
    }

    /// Takes at most `count` parts more off the rest, behind those that are there. No run of a part has more than one fault more than all runs of the part.
    /// It fails where there is no memory, or where a run's own call fails.
    pub fn divide(&mut self, alloc: Global, count: usize) -> Result<(), WalkFault>
        ensures same { OnOk result (whole self.new ≡ whole self.old) }
        ensures fault { IfErr result IsNotFull }
    {
        take_parts(alloc, &mut self.levels, &mut self.parts, self.most, count)
    }

    /// How many parts there are.
    pub fn len(&self) -> usize
        ensures { result ≡ length self.now.parts }
    {
        self.parts.len()
    }

    /// A walk over a part, if there is one at this place. The part stays. It fails where there is no memory, or where a run's own call fails.
    pub fn walk_of(&self, alloc: Global, place: usize) -> Result<Option<Walk<R>>, WalkFault>
        ensures is { IfOk result (λ walk. walk ≡ slice_get self.now.parts place) }
        ensures fault { IfErr result IsNotFull }
    {
        match self.parts.get(place) {
            Some(level) => {
                let walk = walk_from(alloc, level, self.most)?;
                Ok(Some(walk))
            }
            None => Ok(None),
        }
    }

    /// The first part goes, if there is one.
    pub fn forget_first(&mut self)
        ensures { self.new ≡ record self.old { parts = drop 1 self.old.parts } }
    {
        forget_first(&mut self.parts);
    }

    /// A walk over all that is left. It fails where there is no memory, or where a run's own call fails.
    pub fn into_walk(self, alloc: Global) -> Result<Walk<R>, WalkFault>
        ensures all { IfOk result (λ walk. walk ≡ whole self) }
        ensures fault { IfErr result IsNotFull }
    {
        let Parts {
            mut levels,
            parts,
            most,
        } = self;
        put_back(&mut levels, parts, most)?;
        Walk::of(alloc, levels, most)
    }
}

// A walk over all that is left of a level.
fn walk_from<R: Run>(
    alloc: Global,
    level: &Level<R, R::Fault>,
    most: u64,
) -> Result<Walk<R>, WalkFault>
    ensures is { IfOk result (λ walk. walk ≡ left_of R.steps most level.now) }
    ensures fault { IfErr result IsNotFull }
{
    let mut levels = Stack::new(alloc);
    levels.push(fork_level(alloc, level)?)?;
    Walk::of(alloc, levels, most)
}

// Parts are taken off the levels, behind those that are there, as long as there are some, and at most so many.
fn take_parts<R: Run>(
    alloc: Global,
    levels: &mut Stack<Level<R, R::Fault>>,
    parts: &mut Vec<Level<R, R::Fault>>,
    most: u64,
    count: usize,
) -> Result<(), WalkFault>
    ensures same { OnOk result (all_left R.steps most parts.new.items levels.new ≡ all_left R.steps most parts.old.items levels.old) }
    ensures fault { IfErr result IsNotFull }
{
    for _ in 0..count {
        if !take_part(alloc, levels, parts, most)? {
            return Ok(());
        }
    }
    Ok(())
}

// A part is taken off the levels, if there is one.
fn take_part<R: Run>(
    alloc: Global,
    levels: &mut Stack<Level<R, R::Fault>>,
    parts: &mut Vec<Level<R, R::Fault>>,
    most: u64,
) -> Result<bool, WalkFault>
    ensures same { OnOk result (all_left R.steps most parts.new.items levels.new ≡ all_left R.steps most parts.old.items levels.old) }
    ensures fault { IfErr result IsNotFull }
{
    match next_part(alloc, levels, most)? {
        Some(level) => {
            parts.push(level)?;
            Ok(true)
        }
        None => Ok(false),
    }
}

fn forget_first<T: Drop>(items: &mut Vec<T>)
    ensures { items.new.items ≡ drop 1 items.old.items }
{
    if !items.is_empty() {
        items.remove(0);
    }
}

// The parts come on top again, the first one last.
fn put_back<R: Run>(
    levels: &mut Stack<Level<R, R::Fault>>,
    mut parts: Vec<Level<R, R::Fault>>,
    most: u64,
) -> Result<(), AllocError>
    ensures { OnOk result (stack_left R.steps most levels.new ≡ all_left R.steps most parts.items levels.old) }
{
    while let Some(level) = parts.pop() {
        levels.push(level)?;
    }
    Ok(())
}
