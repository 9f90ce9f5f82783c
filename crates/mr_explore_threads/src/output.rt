//! The output of `explore`, of runs that several threads make.
ghost use Rattle.std.specs.Prelude.{◌≡◌, true, IfOk, IfErr};
ghost use Rattle.std.specs.Option.{option_map};
ghost use Rattle.mr_explore_ends.specs.Table.{empty};
ghost use Rattle.mr_explore.specs.Explored.{ExploredFails, PrintsExplored};
ghost use Rattle.mr_explore.specs.Exploring.{Makes, Remaining};
ghost use Rattle.mr_explore_threads.specs.inner.Begun.{IsBegun};
ghost use Rattle.mr_explore_threads.specs.inner.Counting.{Advances};

use crate::divided::Divided;
use mr_explore::{Asked, Exploration, Watch, explored_text};
use mr_script::Expectation;
use mr_sim_commands::{Printed, SimFault};
use std::alloc::Global;
use std::thread::Threads;

/// What `explore` prints of an input, as `explore_output` has it, by so many threads. Its contract is that of `explore_output`, and does not speak of threads.
///
/// Its faults are those of `explore_output`. One thread makes all runs where fewer than two are asked for, or where a run has one fault at most. Where no
/// thread can be made, the calling one does its work.
pub fn explore_by_threads<R: Threads + Sync, W: Watch>(
    rt: &R,
    alloc: Global,
    threads: usize,
    input: &[u8],
    asked: &Asked<'_>,
    watch: &W,
) -> Result<Printed, SimFault>
    ensures ok { IfOk result (λ v. PrintsExplored asked.now input.now v.text.items) }
    ensures met { IfOk result (λ v. v.met ≡ true) }
    ensures fault { IfErr result (ExploredFails asked.now input.now) }
{
    let mut exploration = begun(rt, alloc, threads, input, asked, watch)?;
    make_rest(
        alloc,
        &mut exploration,
        asked.most,
        asked.seconds,
        asked.goal,
        watch,
    )?;
    explored_text(alloc, input, &exploration, asked.goal, asked.form)
}

// An exploration of an input, of which threads made the first runs. All runs with at most one fault are two parts, so one thread makes them.
fn begun<R: Threads + Sync, W: Watch>(
    rt: &R,
    alloc: Global,
    threads: usize,
    input: &[u8],
    asked: &Asked<'_>,
    watch: &W,
) -> Result<Exploration, SimFault>
    ensures begun { IfOk result (IsBegun asked.now input.now) }
    ensures fault { IfErr result (ExploredFails asked.now input.now) }
{
    if threads < 2 || asked.faults < 2 {
        begun_alone(alloc, input, asked)
    } else {
        begun_by_threads(rt, alloc, threads, input, asked, watch)
    }
}

// An exploration of an input, of which no run was made yet.
fn begun_alone(alloc: Global, input: &[u8], asked: &Asked<'_>) -> Result<Exploration, SimFault>
    ensures begun { IfOk result (IsBegun asked.now input.now) }
    ensures fault { IfErr result (ExploredFails asked.now input.now) }
{
    Exploration::new(alloc, input, asked.faults, asked.deep)
}

// The same, of which threads made the first runs.
fn begun_by_threads<R: Threads + Sync, W: Watch>(
    rt: &R,
    alloc: Global,
    threads: usize,
    input: &[u8],
    asked: &Asked<'_>,
    watch: &W,
) -> Result<Exploration, SimFault>
    ensures begun { IfOk result (IsBegun asked.now input.now) }
    ensures fault { IfErr result (ExploredFails asked.now input.now) }
{
    let mut divided = Divided::new(alloc, input, asked.faults, asked.deep, threads)?;
    divided.make(rt, alloc, asked.most, asked.seconds, asked.goal, watch)?;
    divided.into_exploration(alloc)
}

// Makes the runs behind those that were made, up to `most` in all.
fn make_rest<W: Watch>(
    alloc: Global,
    exploration: &mut Exploration,
    most: u64,
    seconds: Option<u64>,
    goal: Option<&[Expectation]>,
    watch: &W,
) -> Result<(), SimFault>
    ensures { (start : Remaining) → start.table ≡ empty → Advances most (option_map (λ g. g.now) goal.entry) start exploration.old → Makes most seconds (option_map (λ g. g.now) goal.entry) start result exploration.new }
{
    let left = most.saturating_sub(exploration.table().runs());
    exploration.make(alloc, left, seconds, goal, watch)
}
