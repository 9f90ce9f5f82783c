//! The output of `explore --merge`.

ghost use Rattle.std.specs.Prelude.{◌≡◌, true, IfOk, IfErr};
ghost use Rattle.std.specs.Option.{option_map};
ghost use Rattle.mr_explore_merged.specs.Merged.{IsFoundOf, MergedFails, PrintsMerged, sought, told_text};

use crate::finding::{LeastFound, found, found_by_threads};
use crate::question::Question;
use mr_explore::{Form, Watch, sequential_of};
use mr_explore_ends::Sequential;
use mr_explore_least::{put_least, put_least_lines};
use mr_script::Expectation;
use mr_sim_commands::{Printed, SimFault};
use std::alloc::{AllocError, Global};
use std::thread::Threads;

/// What `explore --merge` prints of an input, which is a job text and a script behind it: each end of all runs of the input with at most
/// `asked.faults` faults, and the least script to it. Where an end is sought, runs with more faults than it needs are not asked for.
///
/// The first bad key of the job text is told (`Job`), else the first bad line of the script (`BadCommand`). Else `Full` is told where the script,
/// the start of the first master, or one of these runs would pass a limit of the world. `NoMemory` may come at any input. `JournalMismatch` would
/// come where a search did not end.
pub fn merged_output<W: Watch>(
    alloc: Global,
    input: &[u8],
    asked: &Question<'_>,
    watch: &W,
) -> Result<Printed, SimFault>
    ensures ok { IfOk result (λ v. PrintsMerged asked.now input.now v.text.items) }
    ensures met { IfOk result (λ v. v.met ≡ true) }
    ensures fault { IfErr result (MergedFails asked.now.faults input.now) }
{
    let least = found(alloc, input, asked, watch)?;
    merged_text(alloc, input, &least, asked)
}

/// What `explore --merge` prints of an input, as `merged_output` has it, by so many threads.
///
/// Its faults are those of `merged_output`. One thread makes all runs where fewer than two are asked for, or where a run has one fault at most.
pub fn merged_by_threads<R: Threads + Sync, W: Watch>(
    rt: &R,
    alloc: Global,
    threads: usize,
    input: &[u8],
    asked: &Question<'_>,
    watch: &W,
) -> Result<Printed, SimFault>
    ensures ok { IfOk result (λ v. PrintsMerged asked.now input.now v.text.items) }
    ensures met { IfOk result (λ v. v.met ≡ true) }
    ensures fault { IfErr result (MergedFails asked.now.faults input.now) }
{
    let least = found_by_threads(rt, alloc, threads, input, asked, watch)?;
    merged_text(alloc, input, &least, asked)
}

// What is printed of what was found.
fn merged_text(
    alloc: Global,
    input: &[u8],
    found: &LeastFound,
    asked: &Question<'_>,
) -> Result<Printed, SimFault>
    requires { IsFoundOf asked.now.faults (sought asked.now) input.now found.now.faults found.now.table }
    ensures ok { IfOk result (λ v. PrintsMerged asked.now input.now v.text.items) }
    ensures met { IfOk result (λ v. v.met ≡ true) }
    ensures fault { IfErr result (MergedFails asked.now.faults input.now) }
{
    let (sequential, idle_keys) = sequential_of(alloc, input)?;
    let text = told(alloc, found, &sequential, asked.goal, asked.form)?;
    Ok(Printed::plain(alloc, text, idle_keys))
}

// What was found, in this form.
fn told(
    alloc: Global,
    found: &LeastFound,
    sequential: &Sequential,
    goal: Option<&[Expectation]>,
    form: Form,
) -> Result<Vec<u8>, AllocError>
    ensures { IfOk result (λ text. text.items ≡ told_text form sequential.now (option_map (λ g. g.now) goal.entry) found.now.faults found.now.table) }
{
    let mut text = Vec::new(alloc);
    let table = &found.table;
    let faults = found.faults;
    match form {
        Form::Text => put_least(&mut text, alloc, table, faults, sequential, goal)?,
        Form::Json => put_least_lines(&mut text, alloc, table, faults, sequential, goal)?,
    }
    Ok(text)
}
