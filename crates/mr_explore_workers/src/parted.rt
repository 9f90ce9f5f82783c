//! A search that several threads make.
ghost use Rattle.std.specs.Prelude.{◌≡◌, ◌↔◌, ◌<◌, [], ◌∷◌, ℕ, List, None, true, IsTrue, IfOk, IfErr, IfSome, OnOk};
ghost use Rattle.mr_explore_places.specs.Going.{Stops};
ghost use Rattle.mr_explore_places.specs.State.{HasFound, whole};
ghost use Rattle.mr_explore_places.specs.declared.bounds.Bounds as places;
ghost use Rattle.mr_explore_places.specs.declared.level.Level.{Level};
ghost use Rattle.mr_explore_least.specs.Laws.{EachHasOneEnd};
ghost use Rattle.mr_explore_least.specs.Table.{joined};
ghost use Rattle.mr_explore_noted.specs.Noting.{CameBy};
ghost use Rattle.mr_explore_noted.specs.Searched.{HasAll};
ghost use Rattle.mr_explore_workers.specs.inner.Working.{AreDone, Divides, EachSearches, HasNext, HasWorked, HaveWorked, Searches, TakesNext, is_taken};

use crate::leader::Leader;
use crate::pair::both;
use crate::parts::{Round, rows_for, take_round, workers_for};
use crate::worker::Worker;
use mr_explore_least::LeastTable;
use mr_explore_noted::{Noted, NotedRun, Observer, STRIDE, joined_has_all, least_runs};
use mr_explore_places::{Bounds, Search};
use mr_explore_search::WalkFault;
use std::alloc::{AllocError, Global};
use std::thread;
use std::thread::Threads;

/// The least runs to the ends of all runs that come of this one, as far as the bounds say, by so many threads.
///
/// One thread makes all runs where fewer than two are asked for, or where a run has one fault at most. Where no thread can be made, the calling one does its work. Its
/// refusals are those of `least_runs`.
pub fn least_runs_by_threads<R: NotedRun + Send + Sync, T: Threads + Sync, W: Observer>(
    rt: &T,
    alloc: Global,
    threads: usize,
    run: R,
    bounds: Bounds,
    observer: &W,
) -> Result<LeastTable, WalkFault>
where
    R::Fault: Send + Sync,
    R::Notes: Send,
    ensures all { EachHasOneEnd (CameBy R.void R.end R.events R.steps bounds run) → IfOk result (λ table. HasAll R.steps R.rest R.before R.void R.like R.ends R.end R.events bounds run (whole run) [] table) }
    ensures fault { IfErr result (Stops R.steps bounds.faults bounds.steps run) }
{
    if threads < 2 || bounds.faults < 2 {
        least_runs(alloc, run, bounds, observer)
    } else {
        let search = Search::new(alloc, run, bounds)?;
        search_in_parts(rt, alloc, threads, search, &bounds, observer)
    }
}

// All runs of a search are found, in parts.
fn search_in_parts<R: NotedRun + Send + Sync, T: Threads + Sync, W: Observer>(
    rt: &T,
    alloc: Global,
    threads: usize,
    search: Search<R>,
    bounds: &Bounds,
    observer: &W,
) -> Result<LeastTable, WalkFault>
where
    R::Fault: Send + Sync,
    R::Notes: Send,
    ensures all { (first : R) → EachHasOneEnd (CameBy R.void R.end R.events R.steps bounds.now first) → HasFound R.steps R.rest R.before R.void R.like R.ends bounds.now first (whole first) [] [] search → IfOk result (λ table. HasAll R.steps R.rest R.before R.void R.like R.ends R.end R.events bounds.now first (whole first) [] table) }
    ensures fault { (first : R) → HasFound R.steps R.rest R.before R.void R.like R.ends bounds.now first (whole first) [] [] search → IfErr result (Stops R.steps bounds.now.faults bounds.now.steps first) }
{
    let rows = rows_for(threads, bounds);
    let mut leader = Leader::new(alloc, search, bounds, rows)?;
    let mut others = workers_for(alloc, threads.saturating_sub(1), bounds, rows)?;
    make_rounds(rt, alloc, &mut leader, &mut others, observer)?;
    let Leader {
        search: _,
        noted,
        worker,
    } = leader;
    let mut table = noted.into_table();
    join_all(&mut table, all_of(alloc, worker, others)?)?;
    Ok(table)
}

// Rounds are made until nothing is left. The first one is short, since nobody works before it.
fn make_rounds<R: NotedRun + Send + Sync, T: Threads + Sync, W: Observer>(
    rt: &T,
    alloc: Global,
    leader: &mut Leader<R>,
    others: &mut Vec<Worker<R>>,
    observer: &W,
) -> Result<(), WalkFault>
where
    R::Fault: Send + Sync,
    R::Notes: Send,
    ensures all { (bounds : places.Bounds) (first : R) → Divides R.steps R.rest R.before R.void R.like R.ends R.end R.events bounds first leader.old.search leader.old.noted (leader.old.worker ∷ others.old.items) → OnOk result (AreDone R.steps R.rest R.before R.void R.like R.ends R.end R.events bounds first leader.new.noted (leader.new.worker ∷ others.new.items)) }
    ensures fault { (bounds : places.Bounds) (first : R) → Divides R.steps R.rest R.before R.void R.like R.ends R.end R.events bounds first leader.old.search leader.old.noted (leader.old.worker ∷ others.old.items) → IfErr result (Stops R.steps bounds.faults bounds.steps first) }
{
    let mut round = take_round(alloc, &mut leader.search, &mut leader.noted, 1)?;
    for _ in 0..u64::MAX {
        let before = runs_of(leader, others);
        match make_round(rt, alloc, &round, leader, others)? {
            Some(next) => round = next,
            None => return Ok(()),
        }
        tell(observer, before, runs_of(leader, others), &leader.noted);
    }
    Err(WalkFault::Mismatch)
}

// All workers search the parts of a round, and the next one is taken; none where this is the last.
fn make_round<R: NotedRun + Send + Sync, T: Threads + Sync>(
    rt: &T,
    alloc: Global,
    round: &Round<R>,
    leader: &mut Leader<R>,
    others: &mut Vec<Worker<R>>,
) -> Result<Option<Round<R>>, WalkFault>
where
    R::Fault: Send + Sync,
    R::Notes: Send,
    ensures next { (bounds : places.Bounds) (first : R) → HasNext R.steps R.rest R.before R.void R.like R.ends R.end R.events bounds first round.now.is_last round.now.parts.items leader.old.search leader.old.noted (leader.old.worker ∷ others.old.items) → IfOk result (λ next. IfSome next (λ r. HasNext R.steps R.rest R.before R.void R.like R.ends R.end R.events bounds first r.is_last r.parts.items leader.new.search leader.new.noted (leader.new.worker ∷ others.new.items))) }
    ensures done { (bounds : places.Bounds) (first : R) → HasNext R.steps R.rest R.before R.void R.like R.ends R.end R.events bounds first round.now.is_last round.now.parts.items leader.old.search leader.old.noted (leader.old.worker ∷ others.old.items) → IfOk result (λ next. next ≡ None → AreDone R.steps R.rest R.before R.void R.like R.ends R.end R.events bounds first leader.new.noted (leader.new.worker ∷ others.new.items)) }
    ensures fault { (bounds : places.Bounds) (first : R) → HasNext R.steps R.rest R.before R.void R.like R.ends R.end R.events bounds first round.now.is_last round.now.parts.items leader.old.search leader.old.noted (leader.old.worker ∷ others.old.items) → IfErr result (Stops R.steps bounds.faults bounds.steps first) }
{
    let next = lead(rt, alloc, round, leader, others)?;
    have_searched(round.parts.len(), &leader.worker, others)?;
    Ok(next)
}

// The leader and the other workers search the parts of a round, and the leader takes the next one before.
fn lead<R: NotedRun + Send + Sync, T: Threads + Sync>(
    rt: &T,
    alloc: Global,
    round: &Round<R>,
    leader: &mut Leader<R>,
    others: &mut Vec<Worker<R>>,
) -> Result<Option<Round<R>>, WalkFault>
where
    R::Fault: Send + Sync,
    R::Notes: Send,
    ensures leader { Searches R.steps R.rest R.before R.void R.like R.ends R.end R.events round.now.parts.items leader.old.worker leader.new.worker }
    ensures others { EachSearches R.steps R.rest R.before R.void R.like R.ends R.end R.events round.now.parts.items others.old.items others.new.items }
    ensures next { TakesNext R.steps R.rest R.before R.void R.like R.ends R.end R.events (λ r. r.is_last) (λ r. r.parts.items) round.now.is_last result leader.old.search leader.old.noted leader.new.search leader.new.noted }
{
    let count = others.len().saturating_add(1);
    both(
        rt,
        &|workers: &mut Vec<Worker<R>>|
            ensures { EachSearches R.steps R.rest R.before R.void R.like R.ends R.end R.events round.entry.now.parts.items workers.old.items workers.new.items }
        { work_all(rt, alloc, round, workers) },
        others,
        &|leader: &mut Leader<R>| -> Result<Option<Round<R>>, WalkFault>
            ensures leader { Searches R.steps R.rest R.before R.void R.like R.ends R.end R.events round.entry.now.parts.items leader.old.worker leader.new.worker }
            ensures next { TakesNext R.steps R.rest R.before R.void R.like R.ends R.end R.events (λ r. r.is_last) (λ r. r.parts.items) round.entry.now.is_last result leader.old.search leader.old.noted leader.new.search leader.new.noted }
        { leader.lead(alloc, round, count) },
        leader,
    )
}

// The workers search the parts of a round, whoever is free the next one, in the last round for good.
fn work_all<R: NotedRun + Send + Sync, T: Threads + Sync>(
    rt: &T,
    alloc: Global,
    round: &Round<R>,
    workers: &mut [Worker<R>],
)
where
    R::Fault: Send + Sync,
    R::Notes: Send,
    ensures { EachSearches R.steps R.rest R.before R.void R.like R.ends R.end R.events round.now.parts.items workers.old workers.new }
{
    let threads = workers.len().max(1);
    thread::for_each_mut(
        rt,
        workers,
        threads,
        &|_place: usize, worker: &mut Worker<R>|
            ensures { Searches R.steps R.rest R.before R.void R.like R.ends R.end R.events round.entry.now.parts.items worker.old worker.new }
        { worker.work(alloc, &round.parts, &round.next, round.is_last) },
    );
}

// Nothing where these workers searched so many parts in this round; else why one of them has stopped.
fn have_searched<R: NotedRun>(
    count: usize,
    one: &Worker<R>,
    others: &[Worker<R>],
) -> Result<(), WalkFault>
    ensures all { OnOk result ((place : ℕ) → place < count → is_taken place (one.now ∷ others.now) ≡ true) }
    ensures fault { (bounds : places.Bounds) (first : R) (given : List (Level R R.Fault)) → HaveWorked R.steps R.rest R.before R.void R.like R.ends R.end R.events bounds first given (one.now ∷ others.now) → IfErr result (Stops R.steps bounds.faults bounds.steps first) }
{
    if let Some(fault) = first_fault(one, others) {
        return Err(fault);
    }
    if are_all_taken(count, one, others) {
        Ok(())
    } else {
        Err(WalkFault::Mismatch)
    }
}

// Whether these workers searched so many parts in this round.
fn are_all_taken<R: NotedRun>(count: usize, one: &Worker<R>, others: &[Worker<R>]) -> bool
    ensures { IsTrue result ↔ ((place : ℕ) → place < count → is_taken place (one.now ∷ others.now) ≡ true) }
{
    for place in 0..count {
        if !is_taken(place, one, others) {
            return false;
        }
    }
    true
}

// Whether one of them searched the part at this place.
fn is_taken<R: NotedRun>(place: usize, one: &Worker<R>, others: &[Worker<R>]) -> bool
    ensures { result ≡ is_taken place (one.now ∷ others.now) }
{
    one.has_taken(place) || is_taken_by(place, others)
}

// Whether one of these searched it.
fn is_taken_by<R: NotedRun>(place: usize, workers: &[Worker<R>]) -> bool
    ensures { result ≡ is_taken place workers.now }
{
    workers.iter().any(|worker| worker.has_taken(place))
}

// Why the first worker that has stopped did so, if one has.
fn first_fault<R: NotedRun>(one: &Worker<R>, others: &[Worker<R>]) -> Option<WalkFault>
    ensures { (bounds : places.Bounds) (first : R) (given : List (Level R R.Fault)) → HaveWorked R.steps R.rest R.before R.void R.like R.ends R.end R.events bounds first given (one.now ∷ others.now) → IfSome result (Stops R.steps bounds.faults bounds.steps first) }
{
    match one.fault() {
        Some(fault) => Some(fault),
        None => fault_of(others),
    }
}

// The same of these.
fn fault_of<R: NotedRun>(workers: &[Worker<R>]) -> Option<WalkFault>
    ensures { (bounds : places.Bounds) (first : R) (given : List (Level R R.Fault)) → HaveWorked R.steps R.rest R.before R.void R.like R.ends R.end R.events bounds first given workers.now → IfSome result (Stops R.steps bounds.faults bounds.steps first) }
{
    for worker in workers {
        if let Some(fault) = worker.fault() {
            return Some(fault);
        }
    }
    None
}

// This worker, and the others behind it.
fn all_of<R: NotedRun>(
    alloc: Global,
    first: Worker<R>,
    mut others: Vec<Worker<R>>,
) -> Result<Vec<Worker<R>>, AllocError>
    ensures { IfOk result (λ workers. workers.items ≡ first ∷ others.items) }
{
    let mut workers = Vec::new(alloc);
    workers.push(first)?;
    workers.append(&mut others)?;
    Ok(workers)
}

// The tables of all workers are joined to this one.
fn join_all<R: NotedRun>(
    table: &mut LeastTable,
    mut workers: Vec<Worker<R>>,
) -> Result<(), WalkFault>
    ensures all { (bounds : places.Bounds) (first : R) → EachHasOneEnd (CameBy R.void R.end R.events R.steps bounds first) → AreDone R.steps R.rest R.before R.void R.like R.ends R.end R.events bounds first table.old workers.items → OnOk result (HasAll R.steps R.rest R.before R.void R.like R.ends R.end R.events bounds first (whole first) [] table.new) }
    ensures fault { (bounds : places.Bounds) (first : R) → AreDone R.steps R.rest R.before R.void R.like R.ends R.end R.events bounds first table.old workers.items → IfErr result (Stops R.steps bounds.faults bounds.steps first) }
{
    joined_has_all::<R>();
    while !workers.is_empty() {
        let worker = workers.remove(0);
        join_one(table, worker)?;
    }
    Ok(())
}

// The table of a worker is joined to this one.
fn join_one<R: NotedRun>(table: &mut LeastTable, worker: Worker<R>) -> Result<(), WalkFault>
    ensures joined { OnOk result ((worker.fault ≡ None) × (table.new ≡ joined table.old worker.table)) }
    ensures fault { (bounds : places.Bounds) (first : R) (mine : List (Level R R.Fault)) → HasWorked R.steps R.rest R.before R.void R.like R.ends R.end R.events bounds first mine worker → IfErr result (Stops R.steps bounds.faults bounds.steps first) }
{
    let more = worker.into_table()?;
    table.join(more)?;
    Ok(())
}

// How many runs were found.
fn runs_of<R: NotedRun>(leader: &Leader<R>, others: &[Worker<R>]) -> u64 {
    let mut runs = leader.noted.runs().wrapping_add(leader.worker.runs());
    for worker in others {
        runs = runs.wrapping_add(worker.runs());
    }
    runs
}

// Tells how far it is, where a hundred thousand became full since there were `before` runs.
fn tell<R: NotedRun, W: Observer>(observer: &W, before: u64, runs: u64, noted: &Noted<R>) {
    if runs / STRIDE != before / STRIDE {
        observer.tell(runs, noted.ends());
    }
}
