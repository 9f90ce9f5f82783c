//! Parts of an exploration are counted apart from each other: the runs of each are made, and their ends are noted in a table of its own.
ghost use Rattle.std.specs.Prelude.{◌≡◌, ℕ, true, List, Option, Some, Ok, IfOk, IfErr, IfSome};
ghost use Rattle.std.specs.List.{All};
ghost use Rattle.mr_script.specs.declared.expectation.Expectation.{Expectation};
ghost use Rattle.mr_explore_search.specs.Parting.{Parted};
ghost use Rattle.mr_explore.specs.Runs.{Exploring};
ghost use Rattle.std.specs.Option.{option_map};
ghost use Rattle.mr_explore_search.specs.Steps.{IsNotFull};
ghost use Rattle.mr_explore_threads.specs.inner.Counting.{IsCounted, IsCountedAt};
ghost use Rattle.mr_explore.specs.Exploring.{MakesOne};
ghost use Rattle.mr_explore_threads.specs.inner.Counts.{CountsAll, remaining};

use mr_explore::{Explored, Winners, note};
use mr_explore_ends::Table;
use mr_explore_search::{Parts, Walk, WalkFault};
use mr_script::Expectation;
use std::alloc::Global;
use std::sync::atomic::{AtomicUsize, Ordering};
use std::thread;
use std::thread::Threads;

/// What came of a part.
#[derive(Debug, Drop)]
pub struct Counted {
    /// Which part it is.
    pub place: usize,
    /// The table of its runs.
    pub table: Table,
}

/// Counts parts by as many threads as are asked for. A part is left out where it has more than `most` runs, where one of them comes to the end that is sought,
/// or where one would pass a limit; and where another was left out before it was begun.
///
/// It fails by an allocation failure, or where a run could not be made once more.
pub fn count_by_threads<R: Threads + Sync>(
    rt: &R,
    alloc: Global,
    threads: usize,
    parts: &Parts<Explored>,
    most: u64,
    goal: Option<&[Expectation]>,
) -> Result<Vec<Counted>, WalkFault>
    ensures counted { IfOk result (λ all. All (IsCountedAt most (option_map (λ g. g.now) goal.entry) parts.now) all.items) }
    ensures fault { IfErr result IsNotFull }
{
    let next = AtomicUsize::new(0);
    let each = thread::map_indices(
        rt,
        alloc,
        threads,
        &|_thread: usize| -> Result<Vec<Counted>, WalkFault>
            ensures { IfOk result (λ all. All (IsCountedAt most (option_map (λ g. g.now) goal.entry) parts.entry.now) all.items) × IfErr result IsNotFull }
        { count_some(alloc, parts, &next, most, goal) },
    )?;
    gathered(alloc, each)
}

// What each thread counted.
fn gathered(
    alloc: Global,
    mut each: Vec<Result<Vec<Counted>, WalkFault>>,
) -> Result<Vec<Counted>, WalkFault>
    ensures counted { (most : ℕ) (goal : Option (List Expectation)) (parts : Parted Exploring) → All (λ some. IfOk some (λ all. All (IsCountedAt most goal parts) all.items)) each.items
        → IfOk result (λ all. All (IsCountedAt most goal parts) all.items) }
    ensures fault { All (λ some. IfErr some IsNotFull) each.items → IfErr result IsNotFull }
{
    let mut all = Vec::new(alloc);
    while let Some(some) = each.pop() {
        let mut some = some?;
        all.append(&mut some)?;
    }
    Ok(all)
}

// One thread counts parts: whichever is next.
fn count_some(
    alloc: Global,
    parts: &Parts<Explored>,
    next: &AtomicUsize,
    most: u64,
    goal: Option<&[Expectation]>,
) -> Result<Vec<Counted>, WalkFault>
    ensures counted { IfOk result (λ all. All (IsCountedAt most (option_map (λ g. g.now) goal.entry) parts.now) all.items) }
    ensures fault { IfErr result IsNotFull }
{
    let mut all = Vec::new(alloc);
    for _ in 0..parts.len() {
        let place = next.fetch_add(1, Ordering::SeqCst);
        match count_part(alloc, parts, place, most, goal)? {
            Some(counted) => all.push(counted)?,
            None => {
                // Nobody need begin what comes behind it.
                next.store(parts.len(), Ordering::SeqCst);
                return Ok(all);
            }
        }
    }
    Ok(all)
}

// One part, if it can be counted.
fn count_part(
    alloc: Global,
    parts: &Parts<Explored>,
    place: usize,
    most: u64,
    goal: Option<&[Expectation]>,
) -> Result<Option<Counted>, WalkFault>
    ensures counted { IfOk result (λ counted. IfSome counted (IsCountedAt most (option_map (λ g. g.now) goal.entry) parts.now)) }
    ensures fault { IfErr result IsNotFull }
{
    match parts.walk_of(alloc, place)? {
        Some(walk) => {
            let table = count_walk(alloc, walk, most, goal)?;
            Ok(counted_at(place, table))
        }
        None => Ok(None),
    }
}

fn counted_at(place: usize, table: Option<Table>) -> Option<Counted>
    ensures { IfSome result (λ c. (c.place ≡ place) × (Some c.table ≡ table)) }
{
    match table {
        Some(table) => Some(Counted { place, table }),
        None => None,
    }
}

// All runs of a walk, if they can be counted.
fn count_walk(
    alloc: Global,
    mut walk: Walk<Explored>,
    most: u64,
    goal: Option<&[Expectation]>,
) -> Result<Option<Table>, WalkFault>
    ensures counted { IfOk result (λ table. IfSome table (IsCounted most (option_map (λ g. g.now) goal.entry) walk)) }
    ensures fault { IfErr result IsNotFull }
{
    let mut table = Table::new(alloc);
    if count_all(alloc, &mut walk, &mut table, most, goal)? {
        Ok(Some(table))
    } else {
        Ok(None)
    }
}

// Makes all runs of a walk, and notes their ends; whether it could.
fn count_all(
    alloc: Global,
    walk: &mut Walk<Explored>,
    table: &mut Table,
    most: u64,
    goal: Option<&[Expectation]>,
) -> Result<bool, WalkFault>
    ensures counted { IfOk result (λ all. all ≡ true → CountsAll most (option_map (λ g. g.now) goal.entry) (remaining walk.old table.old) (remaining walk.new table.new)) }
    ensures fault { IfErr result IsNotFull }
{
    let mut winners = Winners::new(alloc);
    for _ in 0..most {
        if walk.is_done() {
            return Ok(true);
        }
        if !count_one(alloc, walk, table, &mut winners, goal)? {
            return Ok(false);
        }
    }
    Ok(walk.is_done())
}

// Makes the next run, and notes its end; whether there is one, and it comes to no end that is sought.
fn count_one(
    alloc: Global,
    walk: &mut Walk<Explored>,
    table: &mut Table,
    winners: &mut Winners,
    goal: Option<&[Expectation]>,
) -> Result<bool, WalkFault>
    ensures made { IfOk result (λ went. went ≡ true → MakesOne (option_map (λ g. g.now) goal.entry) (remaining walk.old table.old) (Ok true) (remaining walk.new table.new)) }
    ensures fault { IfErr result IsNotFull }
{
    match walk.next_run(alloc) {
        Ok(Some(ended)) => {
            let met = note(alloc, table, winners, &ended, goal)?;
            Ok(!met)
        }
        Ok(None) => Ok(false),
        Err(WalkFault::Full) => Ok(false),
        Err(WalkFault::NoMemory) => Err(WalkFault::NoMemory),
        Err(WalkFault::Mismatch) => Err(WalkFault::Mismatch),
    }
}
