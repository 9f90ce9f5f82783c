//! Ends and their least scripts as lines of JSON.
ghost use Rattle.std.specs.Prelude.{◌≡◌, ◌++◌, IfOk, OnOk};
ghost use Rattle.std.specs.List.{flat_map};
ghost use Rattle.std.specs.Option.{option_map};
ghost use Rattle.mr_sim_json.specs.Members.{object_of, with_all};
ghost use Rattle.serde_json.specs.View.{members_view, view};
ghost use Rattle.mr_explore_least.specs.JsonLines.{chosen_lines, least_json, line_if_some, row_line, row_object, runs_line, runs_members, script_members};
ghost use Rattle.mr_explore_least.specs.Rows.{as_arrival};

use crate::least::Least;
use crate::sequential::marked_are_sequential;
use crate::table::LeastTable;
use mr_explore_ends::{Sequential, put_read};
use mr_script::Expectation;
use mr_script_writer::put_script;
use mr_sim_json::{Object, into_value, put_count, put_flag, put_line, put_text};
use serde_json::Value;
use std::alloc::{AllocError, Global};

/// The ends that came, an object a line, in the order of their least scripts. Where a goal is sought, only the first that
/// meets it is there, if one does. The last line tells of how many runs these are. It fails where there is no memory.
pub fn put_least_lines(
    out: &mut Vec<u8>,
    alloc: Global,
    table: &LeastTable,
    faults: u32,
    sequential: &Sequential,
    goal: Option<&[Expectation]>,
) -> Result<(), AllocError>
    ensures { OnOk result (out.new.items ≡ out.old.items ++ least_json sequential.now (option_map (λ g. g.now) goal.entry) faults table.now) }
{
    put_chosen(out, alloc, table, sequential, goal)?;
    put_runs(out, alloc, table, faults, sequential)
}

// All ends, or the first that meets the goal.
fn put_chosen(
    out: &mut Vec<u8>,
    alloc: Global,
    table: &LeastTable,
    sequential: &Sequential,
    goal: Option<&[Expectation]>,
) -> Result<(), AllocError>
    ensures { OnOk result (out.new.items ≡ out.old.items ++ chosen_lines sequential.now (option_map (λ g. g.now) goal.entry) table.now) }
{
    match goal {
        Some(goal) => put_if_some(out, alloc, table.goal(goal), sequential),
        None => put_rows(out, alloc, table, sequential),
    }
}

fn put_if_some(
    out: &mut Vec<u8>,
    alloc: Global,
    row: Option<&Least>,
    sequential: &Sequential,
) -> Result<(), AllocError>
    ensures { OnOk result (out.new.items ≡ out.old.items ++ line_if_some sequential.now (option_map (λ row. as_arrival row.now) row.entry)) }
{
    match row {
        Some(row) => put_row(out, alloc, row, sequential),
        None => Ok(()),
    }
}

fn put_rows(
    out: &mut Vec<u8>,
    alloc: Global,
    table: &LeastTable,
    sequential: &Sequential,
) -> Result<(), AllocError>
    ensures { OnOk result (out.new.items ≡ out.old.items ++ flat_map (row_line sequential.now) table.now.rows) }
{
    for row in table.rows() {
        put_row(out, alloc, row, sequential)?;
    }
    Ok(())
}

fn put_row(
    out: &mut Vec<u8>,
    alloc: Global,
    row: &Least,
    sequential: &Sequential,
) -> Result<(), AllocError>
    ensures { OnOk result (out.new.items ≡ out.old.items ++ row_line sequential.now (as_arrival row.now)) }
{
    let value = row_value(alloc, row, sequential)?;
    put_line(out, alloc, &value)
}

#[tactic(auto, using(crate::proofs::RowObjects::row_is))]
fn row_value(alloc: Global, row: &Least, sequential: &Sequential) -> Result<Value, AllocError>
    ensures { IfOk result (λ v. view v ≡ row_object sequential.now (as_arrival row.now)) }
{
    let mut object = Object::new(alloc);
    put_read(&mut object, alloc, &row.end, sequential)?;
    put_least(&mut object, alloc, row)?;
    Ok(into_value(object))
}

// How many faults and events the least script has, and the script.
fn put_least(object: &mut Object, alloc: Global, row: &Least) -> Result<(), AllocError>
    ensures { OnOk result (members_view object.new.entries ≡ with_all (script_members (as_arrival row.now)) (members_view object.old.entries)) }
{
    let mut script = Vec::new(alloc);
    put_script(&mut script, &row.events)?;
    put_count(object, alloc, "faults", u64::from(row.faults))?;
    put_count(object, alloc, "events", row.events.len() as u64)?;
    put_text(object, alloc, "script", &script)
}

// How many faults a run has, and whether these are the ends of all such runs.
#[tactic(auto, using(crate::proofs::RowObjects::runs_are_plain))]
fn put_runs(
    out: &mut Vec<u8>,
    alloc: Global,
    table: &LeastTable,
    faults: u32,
    sequential: &Sequential,
) -> Result<(), AllocError>
    ensures { OnOk result (out.new.items ≡ out.old.items ++ runs_line sequential.now faults table.now) }
{
    let value = runs_value(alloc, table, faults, sequential)?;
    put_line(out, alloc, &value)
}

fn runs_value(
    alloc: Global,
    table: &LeastTable,
    faults: u32,
    sequential: &Sequential,
) -> Result<Value, AllocError>
    ensures { IfOk result (λ v. view v ≡ object_of (runs_members sequential.now faults table.now)) }
{
    let mut object = Object::new(alloc);
    put_count(&mut object, alloc, "faults", u64::from(faults))?;
    put_flag(&mut object, alloc, "all", !table.is_past_limit())?;
    put_count(&mut object, alloc, "ends", table.rows().len() as u64)?;
    let sequential = marked_are_sequential(table, sequential);
    put_flag(&mut object, alloc, "sequential", sequential)?;
    Ok(into_value(object))
}
