//! What is printed of the ends that came.
ghost use Rattle.std.specs.Prelude.{◌≡◌, ◌+◌, ◌++◌, OnOk};
ghost use Rattle.std.specs.List.{flat_map, range_with_len};
ghost use Rattle.std.specs.Option.{option_map};
ghost use Rattle.mr_explore_ends.specs.Founds.{as_found};
ghost use Rattle.mr_explore_ends.specs.Rows.{as_end};
ghost use Rattle.mr_explore_ends.specs.Text.{all_text, are_all, best_text, both_text, counting, counts_text, cut_text, end_text, ends_text, explored_text, found_text, if_not_all, marked_line, past_limit_text, runs_lines, runs_text, seen_line, shortest_line, stalled_line, text_if, why_text};

use crate::best::best_of;
use crate::outcome::Outcome;
use crate::row::Row;
use crate::sequential::{Sequential, marked_are_sequential};
use crate::table::Table;
use itoa::Buffer;
use mr_script::Expectation;
use mr_script_writer::put_comments;
use std::alloc::{AllocError, Global};

/// What was found.
#[derive(Clone, Copy, Debug)]
pub struct Found<'a> {
    /// Of the runs that were made.
    pub table: &'a Table,
    /// How many faults a run has at most.
    pub faults: u32,
    /// Whether none is left to be made.
    pub whole: bool,
}

/// Whether the runs of the table are all: none is left to be made, none would pass a limit, and none was cut.
pub(crate) fn are_all(found: &Found<'_>) -> bool
    ensures { result ≡ are_all (as_found found.now) }
{
    found.whole && found.table.past_limit() == 0 && found.table.cut() == 0
}

/// The ends that came, those of the fewest faults first; or of those that meet a goal the best. It fails where there is no memory.
pub fn put_found(
    out: &mut Vec<u8>,
    alloc: Global,
    found: &Found<'_>,
    sequential: &Sequential,
    goal: Option<&[Expectation]>,
) -> Result<(), AllocError>
    ensures { OnOk result (out.new.items ≡ out.old.items ++ explored_text sequential.now (option_map (λ g. g.now) goal.entry) (as_found found.now)) }
{
    match goal {
        Some(goal) => put_best(out, alloc, found, sequential, goal),
        None => put_all(out, alloc, found, sequential),
    }
}

// All ends, those of the fewest faults first.
fn put_all(
    out: &mut Vec<u8>,
    alloc: Global,
    found: &Found<'_>,
    sequential: &Sequential,
) -> Result<(), AllocError>
    ensures { OnOk result (out.new.items ≡ out.old.items ++ all_text sequential.now (as_found found.now)) }
{
    put_runs(out, found)?;
    put_count(out, b", ", found.table.rows().len() as u64, b" end")?;
    out.extend_from_slice(b"\n")?;
    put_marked(out, marked_are_sequential(found.table, sequential))?;
    put_by_faults(out, alloc, found.table, found.faults, sequential)
}

/// Whether the files are right where the marker is. It fails where there is no memory.
pub fn put_marked(out: &mut Vec<u8>, are_sequential: bool) -> Result<(), AllocError>
    ensures { OnOk result (out.new.items ≡ out.old.items ++ marked_line are_sequential) }
{
    if are_sequential {
        out.extend_from_slice(b"# with the marker the files are those of seq: yes\n")
    } else {
        out.extend_from_slice(b"# with the marker the files are those of seq: no\n")
    }
}

// The ends whose scripts have at most `faults` faults, those with fewer first.
fn put_by_faults(
    out: &mut Vec<u8>,
    alloc: Global,
    table: &Table,
    faults: u32,
    sequential: &Sequential,
) -> Result<(), AllocError>
    ensures { OnOk result (out.new.items ≡ out.old.items ++ flat_map (ends_text sequential.now table.now.ends) (range_with_len 0 (faults + 1))) }
{
    for number in 0..u64::from(faults) + 1 {
        put_ends(out, alloc, table, number, sequential)?;
    }
    Ok(())
}

// The ends whose scripts have just this many faults.
fn put_ends(
    out: &mut Vec<u8>,
    alloc: Global,
    table: &Table,
    faults: u64,
    sequential: &Sequential,
) -> Result<(), AllocError>
    ensures { OnOk result (out.new.items ≡ out.old.items ++ ends_text sequential.now table.now.ends faults) }
{
    for row in table.rows() {
        put_if(out, alloc, row, faults, sequential)?;
    }
    Ok(())
}

// An end, if its script has just this many faults.
fn put_if(
    out: &mut Vec<u8>,
    alloc: Global,
    row: &Row,
    faults: u64,
    sequential: &Sequential,
) -> Result<(), AllocError>
    ensures { OnOk result (out.new.items ≡ out.old.items ++ text_if sequential.now faults (as_end row.now)) }
{
    if u64::from(row.faults) != faults {
        return Ok(());
    }
    out.extend_from_slice(b"\n")?;
    put_end(out, alloc, row, sequential)
}

// The best end that meets a goal, or `none`.
fn put_best(
    out: &mut Vec<u8>,
    alloc: Global,
    found: &Found<'_>,
    sequential: &Sequential,
    goal: &[Expectation],
) -> Result<(), AllocError>
    ensures { OnOk result (out.new.items ≡ out.old.items ++ found_text sequential.now goal.now (as_found found.now)) }
{
    put_runs(out, found)?;
    out.extend_from_slice(b"\n")?;
    put_best_end(out, alloc, best_of(found.table, goal), sequential)
}

fn put_best_end(
    out: &mut Vec<u8>,
    alloc: Global,
    best: Option<&Row>,
    sequential: &Sequential,
) -> Result<(), AllocError>
    ensures { OnOk result (out.new.items ≡ out.old.items ++ best_text sequential.now (option_map (λ row. as_end row.now) best.entry)) }
{
    match best {
        Some(row) => put_end(out, alloc, row, sequential),
        None => out.extend_from_slice(b"none\n"),
    }
}

// How many runs were made, with how many faults at most, whether these are all, how many of them would pass a limit, and how many were cut.
fn put_runs(out: &mut Vec<u8>, found: &Found<'_>) -> Result<(), AllocError>
    ensures { OnOk result (out.new.items ≡ out.old.items ++ runs_text (as_found found.now)) }
{
    put_count(out, b"# ", found.table.runs(), b" run")?;
    put_count(out, b" with at most ", u64::from(found.faults), b" fault")?;
    put_if_not_all(
        out,
        are_all(found),
        found.table.past_limit(),
        found.table.cut(),
    )
}

fn put_if_not_all(out: &mut Vec<u8>, all: bool, past_limit: u64, cut: u64) -> Result<(), AllocError>
    ensures { OnOk result (out.new.items ≡ out.old.items ++ if_not_all all past_limit cut) }
{
    if all {
        return Ok(());
    }
    out.extend_from_slice(b", not all")?;
    put_why(out, past_limit, cut)
}

fn put_why(out: &mut Vec<u8>, past_limit: u64, cut: u64) -> Result<(), AllocError>
    ensures { OnOk result (out.new.items ≡ out.old.items ++ why_text past_limit cut) }
{
    if past_limit == 0 && cut == 0 {
        return Ok(());
    }
    out.extend_from_slice(b" (")?;
    put_counts(out, past_limit, cut)?;
    out.extend_from_slice(b")")
}

fn put_counts(out: &mut Vec<u8>, past_limit: u64, cut: u64) -> Result<(), AllocError>
    ensures { OnOk result (out.new.items ≡ out.old.items ++ counts_text past_limit cut) }
{
    if past_limit == 0 {
        put_cut(out, cut)
    } else {
        put_both(out, past_limit, cut)
    }
}

// Some would pass a limit, and maybe some were cut.
fn put_both(out: &mut Vec<u8>, past_limit: u64, cut: u64) -> Result<(), AllocError>
    ensures { OnOk result (out.new.items ≡ out.old.items ++ both_text past_limit cut) }
{
    put_past_limit(out, past_limit)?;
    if cut == 0 {
        return Ok(());
    }
    out.extend_from_slice(b", ")?;
    put_cut(out, cut)
}

fn put_past_limit(out: &mut Vec<u8>, past_limit: u64) -> Result<(), AllocError>
    ensures { OnOk result (out.new.items ≡ out.old.items ++ past_limit_text past_limit) }
{
    let mut digits = Buffer::new();
    out.extend_from_slice(digits.format(past_limit).as_bytes())?;
    out.extend_from_slice(b" would pass a limit")
}

fn put_cut(out: &mut Vec<u8>, cut: u64) -> Result<(), AllocError>
    ensures { OnOk result (out.new.items ≡ out.old.items ++ cut_text cut) }
{
    let mut digits = Buffer::new();
    out.extend_from_slice(digits.format(cut).as_bytes())?;
    if cut == 1 {
        out.extend_from_slice(b" was cut")
    } else {
        out.extend_from_slice(b" were cut")
    }
}

// One end.
fn put_end(
    out: &mut Vec<u8>,
    alloc: Global,
    row: &Row,
    sequential: &Sequential,
) -> Result<(), AllocError>
    ensures { OnOk result (out.new.items ≡ out.old.items ++ end_text sequential.now (as_end row.now)) }
{
    let text = row.end.text(alloc)?;
    put_runs_of(out, row)?;
    put_comments(out, &text)?;
    put_seen(out, &row.end, sequential)?;
    out.extend_from_slice(&row.script)
}

// How many runs came to an end, how long the first shortest is, and how many were ended since they make no progress.
fn put_runs_of(out: &mut Vec<u8>, row: &Row) -> Result<(), AllocError>
    ensures { OnOk result (out.new.items ≡ out.old.items ++ runs_lines (as_end row.now)) }
{
    put_shortest(out, row)?;
    put_stalled(out, row.stalled)
}

// How many runs came to an end, and how long the first shortest is.
fn put_shortest(out: &mut Vec<u8>, row: &Row) -> Result<(), AllocError>
    ensures { OnOk result (out.new.items ≡ out.old.items ++ shortest_line (as_end row.now)) }
{
    put_count(out, b"# ", row.runs, b" run")?;
    put_count(
        out,
        b"; the first shortest has ",
        u64::from(row.faults),
        b" fault",
    )?;
    put_count(out, b" and ", row.events as u64, b" event")?;
    out.extend_from_slice(b"\n")
}

// How many runs were ended since they make no progress, if any was.
fn put_stalled(out: &mut Vec<u8>, stalled: u64) -> Result<(), AllocError>
    ensures { OnOk result (out.new.items ≡ out.old.items ++ stalled_line stalled) }
{
    if stalled == 0 {
        return Ok(());
    }
    put_count(out, b"# ended without progress: ", stalled, b" run")?;
    out.extend_from_slice(b"\n")
}

/// Whether a reader sees no file, just those of the sequential execution, or others. It fails where there is no memory.
pub fn put_seen(out: &mut Vec<u8>, end: &Outcome, sequential: &Sequential) -> Result<(), AllocError>
    ensures { OnOk result (out.new.items ≡ out.old.items ++ seen_line sequential.now end.now) }
{
    if end.files().is_empty() {
        out.extend_from_slice(b"# files none\n")
    } else if sequential.is_of(end) {
        out.extend_from_slice(b"# files those of seq\n")
    } else {
        out.extend_from_slice(b"# files not those of seq\n")
    }
}

/// Words, a number, and what is counted. It fails where there is no memory.
#[tactic(auto, unfolding(crate::specs::Text::counting))]
pub fn put_count(
    out: &mut Vec<u8>,
    before: &[u8],
    number: u64,
    counted: &[u8],
) -> Result<(), AllocError>
    ensures { OnOk result (out.new.items ≡ out.old.items ++ counting before.now number counted.now) }
{
    out.extend_from_slice(before)?;
    let mut digits = Buffer::new();
    out.extend_from_slice(digits.format(number).as_bytes())?;
    out.extend_from_slice(counted)?;
    if number == 1 {
        return Ok(());
    }
    out.extend_from_slice(b"s")
}
