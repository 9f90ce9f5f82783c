//! The least runs to the ends of all runs of an input, by one thread or by several.

ghost use Rattle.std.specs.Prelude.{◌≡◌, ◌≤◌, ℕ, List, IfOk, IfErr};
ghost use Rattle.mr_explore.specs.Faults.{most_events};
ghost use Rattle.mr_explore.specs.Runs.{IsRunOf};
ghost use Rattle.mr_explore_merged.specs.Merged.{Finds, FindsOf, MergedFails};

use crate::run::MergedRun;
use crate::watching::Watching;
use mr_explore::{Watch, sim_fault};
use mr_explore_least::LeastTable;
use mr_explore_noted::least_runs;
use mr_explore_places::Bounds;
use mr_explore_workers::least_runs_by_threads;
use mr_play::mr_world::MAX_EVENTS;
use mr_sim_commands::SimFault;
use std::alloc::Global;
use std::thread::Threads;

// In so many rows a search keeps places.
const ROWS: usize = 5120;

// How far a search over runs with at most so many faults goes, and how many places it keeps.
#[tactic(auto, unfolding(mr_explore::specs::Faults::most_events))]
fn bounds_for(faults: u32) -> Bounds
    ensures faults { result.faults ≡ faults }
    ensures steps { result.steps ≡ most_events }
{
    Bounds {
        faults,
        steps: MAX_EVENTS as u64,
        rows: ROWS,
    }
}

/// What is known of all runs of an input with at most so many faults. It fails as with `most` faults, of which these are no more.
#[tactic(auto, using(crate::proofs::Failing::begins_fails, crate::proofs::Stopping::finds_of))]
pub(crate) fn search<W: Watch>(
    alloc: Global,
    input: &[u8],
    faults: u32,
    most: u32,
    watch: &W,
) -> Result<LeastTable, SimFault>
    requires { faults ≤ most }
    ensures finds { IfOk result (FindsOf input.now faults) }
    ensures fault { IfErr result (MergedFails most input.now) }
{
    match MergedRun::new(alloc, input) {
        Ok(run) => search_from(alloc, run, faults, watch),
        Err(fault) => Err(fault),
    }
}

// The same, from the run of the input.
#[tactic(auto, using(crate::proofs::Stopping::stopped))]
fn search_from<W: Watch>(
    alloc: Global,
    run: MergedRun,
    faults: u32,
    watch: &W,
) -> Result<LeastTable, SimFault>
    ensures finds { (input : List ℕ) → IsRunOf input run → IfOk result (Finds faults run) }
    ensures fault { (input : List ℕ) → IsRunOf input run → IfErr result (MergedFails faults input) }
{
    match least_runs(alloc, run, bounds_for(faults), &Watching { watch }) {
        Ok(table) => Ok(table),
        Err(fault) => Err(sim_fault(fault)),
    }
}

/// The same as `search`, by so many threads.
#[tactic(auto, using(crate::proofs::Failing::begins_fails, crate::proofs::Stopping::finds_of))]
pub(crate) fn search_by_threads<R: Threads + Sync, W: Watch>(
    rt: &R,
    alloc: Global,
    threads: usize,
    input: &[u8],
    faults: u32,
    most: u32,
    watch: &W,
) -> Result<LeastTable, SimFault>
    requires { faults ≤ most }
    ensures finds { IfOk result (FindsOf input.now faults) }
    ensures fault { IfErr result (MergedFails most input.now) }
{
    match MergedRun::new(alloc, input) {
        Ok(run) => search_from_by_threads(rt, alloc, threads, run, faults, watch),
        Err(fault) => Err(fault),
    }
}

// The same as `search_from`, by so many threads.
#[tactic(auto, using(crate::proofs::Stopping::stopped))]
fn search_from_by_threads<R: Threads + Sync, W: Watch>(
    rt: &R,
    alloc: Global,
    threads: usize,
    run: MergedRun,
    faults: u32,
    watch: &W,
) -> Result<LeastTable, SimFault>
    ensures finds { (input : List ℕ) → IsRunOf input run → IfOk result (Finds faults run) }
    ensures fault { (input : List ℕ) → IsRunOf input run → IfErr result (MergedFails faults input) }
{
    let bounds = bounds_for(faults);
    match least_runs_by_threads(rt, alloc, threads, run, bounds, &Watching { watch }) {
        Ok(table) => Ok(table),
        Err(stop) => Err(sim_fault(stop)),
    }
}
