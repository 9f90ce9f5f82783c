//! An exploration in parts, which are counted apart from each other.
ghost use Rattle.std.specs.Prelude.{◌≡◌, ◌≤◌, ◌+◌, ◌∷◌, ℕ, true, List, Option, drop, IfOk, IfErr, IfSome, OnOk};
ghost use Rattle.std.specs.List.{All};
ghost use Rattle.std.specs.Option.{option_map};
ghost use Rattle.mr_script.specs.declared.expectation.Expectation.{Expectation};
ghost use Rattle.mr_explore_search.specs.Parting.{Parted, whole};
ghost use Rattle.mr_explore_search.specs.Runs.{Found};
ghost use Rattle.mr_explore_threads.specs.inner.Counting.{Advances, IsCounted, IsCountedAt};
ghost use Rattle.mr_explore.specs.Exploring.{Begins, ExploreFails, Remaining};
ghost use Rattle.mr_explore.specs.Runs.{Exploring};
ghost use Rattle.mr_explore.specs.Checks.{IsUnchecked};
ghost use Rattle.mr_explore_threads.specs.inner.Counts.{remaining};

use crate::counting::{Counted, count_by_threads};
use mr_explore::{Exploration, Explored, STRIDE, Watch, has_passed, sim_fault};
use mr_explore_ends::Table;
use mr_explore_search::Parts;
use mr_script::Expectation;
use mr_sim_commands::SimFault;
use std::alloc::{AllocError, Global};
use std::marker::Model;
use std::thread::Threads;

// So many parts are counted at once for each thread.
const PARTS: usize = 128;

// The same where a time is given, which is looked at before each round of parts.
const PARTS_IN_TIME: usize = 2;

// A part has about so many runs.
const RUNS: u64 = 1000;

/// The runs of an input that are left, some of them in parts, and the table of those that were made. Contracts see it as an `Exploration`.
#[derive(Drop)]
pub struct Divided {
    parts: Parts<Explored>,
    faults: u32,
    table: Table,
    // By how many threads parts are counted.
    threads: usize,
}

impl Model for Divided {
    ghost use Rattle.mr_explore_search.specs.Parting.{whole};
    ghost use Rattle.mr_explore.specs.Exploring.{Remaining};

    ghost Value = { Remaining };

    ghost view = { λ x. record { left = whole x.parts; faults = x.faults; table = x.table } };
}

impl Divided {
    /// As `Exploration::new`; runs are made by so many threads.
    pub fn new(
        alloc: Global,
        input: &[u8],
        faults: u32,
        deep: Option<u64>,
        threads: usize,
    ) -> Result<Divided, SimFault>
        ensures begins { IfOk result (Begins input.now deep faults) }
        ensures fault { IfErr result (ExploreFails input.now) }
    {
        let parts = Exploration::parts(alloc, input, faults, deep)?;
        Ok(Divided {
            parts,
            faults,
            table: Table::new(alloc),
            threads,
        })
    }

    /// Makes runs by threads, and notes their ends, up to a part that holds the end that is sought, a run that would pass a limit, or more runs than are left of `most`;
    /// or until a time that is given has passed, which is looked at before each round of parts.
    pub fn make<R: Threads + Sync, W: Watch>(
        &mut self,
        rt: &R,
        alloc: Global,
        most: u64,
        seconds: Option<u64>,
        goal: Option<&[Expectation]>,
        watch: &W,
    ) -> Result<(), SimFault>
        ensures advances { OnOk result (Advances most (option_map (λ g. g.now) goal.entry) self.old self.new) }
        ensures fault { IfErr result IsUnchecked }
    {
        let each = parts_each(seconds);
        for _ in 0..most {
            if has_passed(watch, seconds) {
                return Ok(());
            }
            let before = self.runs();
            if !self.make_some(rt, alloc, each, most, goal)? {
                return Ok(());
            }
            self.tell(before, watch);
        }
        Ok(())
    }

    // Makes the runs of some parts, of at most so many for each thread; whether all of them could be counted.
    fn make_some<R: Threads + Sync>(
        &mut self,
        rt: &R,
        alloc: Global,
        each: usize,
        most: u64,
        goal: Option<&[Expectation]>,
    ) -> Result<bool, SimFault>
        ensures advances { OnOk result (Advances most (option_map (λ g. g.now) goal.entry) self.old self.new) }
        ensures fault { IfErr result IsUnchecked }
    {
        let left = most.saturating_sub(self.table.runs());
        match self
            .parts
            .divide(alloc, parts_for(self.threads, each, left))
        {
            Ok(()) => {}
            Err(fault) => return Err(sim_fault(fault)),
        }
        let threads = self.threads.min(self.parts.len());
        match count_by_threads(rt, alloc, threads, &self.parts, left, goal) {
            Ok(counted) => Ok(take_all(&mut self.parts, &mut self.table, counted, most)?),
            Err(fault) => Err(sim_fault(fault)),
        }
    }

    // How many runs were made.
    fn runs(&self) -> u64 {
        self.table.runs()
    }

    // Tells how far it is, where a hundred thousand became full since there were `before` runs.
    fn tell<W: Watch>(&self, before: u64, watch: &W) {
        let runs = self.table.runs();
        if runs / STRIDE != before / STRIDE {
            watch.tell(runs, self.table.rows().len());
        }
    }

    /// All that is left, as an exploration that goes on by itself.
    pub fn into_exploration(self, alloc: Global) -> Result<Exploration, SimFault>
        ensures same { IfOk result (λ x. x ≡ self) }
        ensures fault { IfErr result IsUnchecked }
    {
        let Divided {
            parts,
            faults,
            table,
            threads: _,
        } = self;
        match parts.into_walk(alloc) {
            Ok(walk) => Ok(Exploration::of(alloc, walk, faults, table)),
            Err(fault) => Err(sim_fault(fault)),
        }
    }
}

// How many parts are counted at once for each thread.
fn parts_each(seconds: Option<u64>) -> usize {
    match seconds {
        Some(_) => PARTS_IN_TIME,
        None => PARTS,
    }
}

// How many parts are counted at once, where this many runs are left to be made at most: no part may have more.
fn parts_for(threads: usize, each: usize, left: u64) -> usize {
    threads.saturating_mul(each).min((left / RUNS) as usize)
}

// Parts that were counted are taken in their order, up to the first that was not, or with which there would be more than `most` runs. Whether all were, and there were some.
fn take_all(
    parts: &mut Parts<Explored>,
    table: &mut Table,
    mut counted: Vec<Counted>,
    most: u64,
) -> Result<bool, AllocError>
    ensures { (limit : ℕ) (goal : Option (List Expectation)) → limit ≤ most → All (IsCountedAt limit goal parts.old) counted.items
        → OnOk result (Advances most goal (remaining (whole parts.old) table.old) (remaining (whole parts.new) table.new)) }
{
    let count = parts.len();
    for place in 0..count {
        match taken(&mut counted, place) {
            Some(part) => {
                if !take_first(parts, table, part, most)? {
                    return Ok(false);
                }
            }
            None => return Ok(false),
        }
    }
    Ok(count > 0)
}

// The first part is taken, of which this is the table, unless there would be more than `most` runs then.
fn take_first(
    parts: &mut Parts<Explored>,
    table: &mut Table,
    part: Table,
    most: u64,
) -> Result<bool, AllocError>
    ensures goes { (limit : ℕ) (goal : Option (List Expectation)) (old : Remaining) (first : List (Found Exploring)) (others : List (List (Found Exploring)))
        → limit ≤ most → parts.old.parts ≡ first ∷ others → IsCounted limit goal first part → Advances most goal old (remaining (whole parts.old) table.old)
        → OnOk result (Advances most goal old (remaining (whole parts.new) table.new)) }
    ensures rest { IfOk result (λ went. went ≡ true → parts.new.parts ≡ drop 1 parts.old.parts) }
{
    if !fit(table.runs(), part.runs(), most) {
        return Ok(false);
    }
    table.join(part)?;
    parts.forget_first();
    Ok(true)
}

// Whether these are at most `most` together.
fn fit(runs: u64, more: u64, most: u64) -> bool
    ensures { result ≡ true → runs + more ≤ most }
{
    runs <= most && more <= most - runs
}

// The table of the part at this place, if it was counted.
fn taken(counted: &mut Vec<Counted>, place: usize) -> Option<Table>
    ensures others { (limit : ℕ) (goal : Option (List Expectation)) (parts : Parted Exploring) → All (IsCountedAt limit goal parts) counted.old.items → All (IsCountedAt limit goal parts) counted.new.items }
    ensures is { (limit : ℕ) (goal : Option (List Expectation)) (parts : Parted Exploring) → All (IsCountedAt limit goal parts) counted.old.items
        → IfSome result (λ table. IsCountedAt limit goal parts (record { place = place; table = table })) }
{
    for i in 0..counted.len() {
        if counted[i].place == place {
            let part = counted.remove(i);
            return Some(part.table);
        }
    }
    None
}
