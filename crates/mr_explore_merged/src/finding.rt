//! What is found of an input: with as many faults as are asked for, or with the fewest by which a run comes to an end that is sought.

ghost use Rattle.std.specs.Prelude.{◌≡◌, Some, None, is_some, IfOk, IfErr};
ghost use Rattle.mr_explore_least.specs.Table.{least_of};
ghost use Rattle.mr_explore_merged.specs.Merged.{FindsOf, IsFoundOf, MergedFails, sought};

use crate::question::Question;
use crate::searching::{search, search_by_threads};
use mr_explore::Watch;
use mr_explore_least::LeastTable;
use mr_script::Expectation;
use mr_sim_commands::SimFault;
use std::alloc::Global;
use std::thread::Threads;

/// The least runs of all with at most so many faults.
#[derive(Drop)]
pub(crate) struct LeastFound {
    pub(crate) faults: u32,
    pub(crate) table: LeastTable,
}

/// What is found of an input by one thread.
pub(crate) fn found<W: Watch>(
    alloc: Global,
    input: &[u8],
    asked: &Question<'_>,
    watch: &W,
) -> Result<LeastFound, SimFault>
    ensures found { IfOk result (λ found. IsFoundOf asked.now.faults (sought asked.now) input.now found.faults found.table) }
    ensures fault { IfErr result (MergedFails asked.now.faults input.now) }
{
    match asked.goal {
        Some(goal) => found_with(alloc, input, goal, asked.faults, watch),
        None => found_of_all(alloc, input, asked.faults, watch),
    }
}

// With the fewest faults by which a run meets the goal; with `most` where none does.
fn found_with<W: Watch>(
    alloc: Global,
    input: &[u8],
    goal: &[Expectation],
    most: u32,
    watch: &W,
) -> Result<LeastFound, SimFault>
    ensures found { IfOk result (λ found. IsFoundOf most (Some goal.now) input.now found.faults found.table) }
    ensures fault { IfErr result (MergedFails most input.now) }
{
    for faults in 0..most {
        let table = search(alloc, input, faults, most, watch)?;
        if is_met(&table, goal) {
            return Ok(LeastFound { faults, table });
        }
    }
    let last = search(alloc, input, most, most, watch)?;
    Ok(LeastFound {
        faults: most,
        table: last,
    })
}

// Where no end is sought.
#[tactic(auto, using(crate::proofs::Trying::none_sought))]
fn found_of_all<W: Watch>(
    alloc: Global,
    input: &[u8],
    faults: u32,
    watch: &W,
) -> Result<LeastFound, SimFault>
    ensures found { IfOk result (λ found. IsFoundOf faults None input.now found.faults found.table) }
    ensures fault { IfErr result (MergedFails faults input.now) }
{
    let table = search(alloc, input, faults, faults, watch)?;
    Ok(LeastFound { faults, table })
}

// Whether a row meets the goal.
fn is_met(table: &LeastTable, goal: &[Expectation]) -> bool
    ensures { result ≡ is_some (least_of goal.now table.now.rows) }
{
    match table.goal(goal) {
        Some(_) => true,
        None => false,
    }
}

/// What is found of an input by so many threads.
pub(crate) fn found_by_threads<R: Threads + Sync, W: Watch>(
    rt: &R,
    alloc: Global,
    threads: usize,
    input: &[u8],
    asked: &Question<'_>,
    watch: &W,
) -> Result<LeastFound, SimFault>
    ensures found { IfOk result (λ found. IsFoundOf asked.now.faults (sought asked.now) input.now found.faults found.table) }
    ensures fault { IfErr result (MergedFails asked.now.faults input.now) }
{
    match asked.goal {
        Some(goal) => found_with_by_threads(rt, alloc, threads, input, goal, asked.faults, watch),
        None => found_of_all_by_threads(rt, alloc, threads, input, asked.faults, watch),
    }
}

// The same as `found_with`, by so many threads.
fn found_with_by_threads<R: Threads + Sync, W: Watch>(
    rt: &R,
    alloc: Global,
    threads: usize,
    input: &[u8],
    goal: &[Expectation],
    most: u32,
    watch: &W,
) -> Result<LeastFound, SimFault>
    ensures found { IfOk result (λ found. IsFoundOf most (Some goal.now) input.now found.faults found.table) }
    ensures fault { IfErr result (MergedFails most input.now) }
{
    for faults in 0..most {
        let table = search_by_threads(rt, alloc, threads, input, faults, most, watch)?;
        if is_met(&table, goal) {
            return Ok(LeastFound { faults, table });
        }
    }
    let last = search_by_threads(rt, alloc, threads, input, most, most, watch)?;
    Ok(LeastFound {
        faults: most,
        table: last,
    })
}

// The same as `found_of_all`, by so many threads.
#[tactic(auto, using(crate::proofs::Trying::none_sought))]
fn found_of_all_by_threads<R: Threads + Sync, W: Watch>(
    rt: &R,
    alloc: Global,
    threads: usize,
    input: &[u8],
    faults: u32,
    watch: &W,
) -> Result<LeastFound, SimFault>
    ensures found { IfOk result (λ found. IsFoundOf faults None input.now found.faults found.table) }
    ensures fault { IfErr result (MergedFails faults input.now) }
{
    let table = search_by_threads(rt, alloc, threads, input, faults, faults, watch)?;
    Ok(LeastFound { faults, table })
}
