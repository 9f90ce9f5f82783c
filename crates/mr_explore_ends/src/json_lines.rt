//! The ends that runs came to, as lines of JSON.
ghost use Rattle.std.specs.Prelude.{◌≡◌, ◌+◌, ◌++◌, IfOk, OnOk, map};
ghost use Rattle.std.specs.List.{flat_map, range_with_len};
ghost use Rattle.std.specs.Option.{option_map};
ghost use Rattle.mr_explore_ends.specs.Founds.{as_found};
ghost use Rattle.mr_explore_ends.specs.Rows.{as_end};
ghost use Rattle.mr_explore_ends.specs.JsonLines.{best_line, chosen_lines, end_line, end_object, ends_json, line_if, lines_by, read_members, runs_line, runs_members, shortest_members, winner_data};
ghost use Rattle.mr_script.specs.Expected.{outcome_word, winner_word};
ghost use Rattle.mr_sim_json.specs.Members.{object_of, text, with_all};
ghost use Rattle.serde_json.specs.View.{members_view, view};

use crate::best::best_of;
use crate::outcome::Outcome;
use crate::row::Row;
use crate::sequential::{Sequential, marked_are_sequential};
use crate::table::Table;
use crate::text::{Found, are_all};
use mr_ids::AttemptId;
use mr_script::Expectation;
use mr_script_writer::{put_outcome, put_winner};
use mr_sim_json::{Object, into_value, put_count, put_flag, put_line, put_list, put_text};
use serde_json::Value;
use std::alloc::{AllocError, Global};

/// The ends that came, an object a line, those of the fewest faults first. Where a goal is sought, only the best of
/// those that meet it is there, if one does. The last line tells how many runs were made. It fails where there is no
/// memory.
pub fn put_ends(
    out: &mut Vec<u8>,
    alloc: Global,
    found: &Found<'_>,
    sequential: &Sequential,
    goal: Option<&[Expectation]>,
) -> Result<(), AllocError>
    ensures { OnOk result (out.new.items ≡ out.old.items ++ ends_json sequential.now (option_map (λ g. g.now) goal.entry) (as_found found.now)) }
{
    put_chosen(out, alloc, found, sequential, goal)?;
    put_runs(out, alloc, found, sequential)
}

// All ends, or the best that meets the goal.
fn put_chosen(
    out: &mut Vec<u8>,
    alloc: Global,
    found: &Found<'_>,
    sequential: &Sequential,
    goal: Option<&[Expectation]>,
) -> Result<(), AllocError>
    ensures { OnOk result (out.new.items ≡ out.old.items ++ chosen_lines sequential.now (option_map (λ g. g.now) goal.entry) (as_found found.now)) }
{
    match goal {
        Some(goal) => put_best(out, alloc, best_of(found.table, goal), sequential),
        None => put_all(out, alloc, found.table, found.faults, sequential),
    }
}

fn put_best(
    out: &mut Vec<u8>,
    alloc: Global,
    best: Option<&Row>,
    sequential: &Sequential,
) -> Result<(), AllocError>
    ensures { OnOk result (out.new.items ≡ out.old.items ++ best_line sequential.now (option_map (λ row. as_end row.now) best.entry)) }
{
    match best {
        Some(row) => put_end(out, alloc, row, sequential),
        None => Ok(()),
    }
}

// The ends whose scripts have at most `faults` faults, those with fewer first.
fn put_all(
    out: &mut Vec<u8>,
    alloc: Global,
    table: &Table,
    faults: u32,
    sequential: &Sequential,
) -> Result<(), AllocError>
    ensures { OnOk result (out.new.items ≡ out.old.items ++ flat_map (lines_by sequential.now table.now.ends) (range_with_len 0 (faults + 1))) }
{
    for number in 0..u64::from(faults) + 1 {
        put_by(out, alloc, table, number, sequential)?;
    }
    Ok(())
}

// The ends whose scripts have just this many faults.
fn put_by(
    out: &mut Vec<u8>,
    alloc: Global,
    table: &Table,
    faults: u64,
    sequential: &Sequential,
) -> Result<(), AllocError>
    ensures { OnOk result (out.new.items ≡ out.old.items ++ lines_by sequential.now table.now.ends faults) }
{
    for row in table.rows() {
        put_if(out, alloc, row, faults, sequential)?;
    }
    Ok(())
}

// An end, if its script has just this many faults.
fn put_if(
    out: &mut Vec<u8>,
    alloc: Global,
    row: &Row,
    faults: u64,
    sequential: &Sequential,
) -> Result<(), AllocError>
    ensures { OnOk result (out.new.items ≡ out.old.items ++ line_if sequential.now faults (as_end row.now)) }
{
    if u64::from(row.faults) == faults {
        put_end(out, alloc, row, sequential)
    } else {
        Ok(())
    }
}

fn put_end(
    out: &mut Vec<u8>,
    alloc: Global,
    row: &Row,
    sequential: &Sequential,
) -> Result<(), AllocError>
    ensures { OnOk result (out.new.items ≡ out.old.items ++ end_line sequential.now (as_end row.now)) }
{
    let value = end_value(alloc, row, sequential)?;
    put_line(out, alloc, &value)
}

#[tactic(auto, using(crate::proofs::EndObjects::end_is))]
fn end_value(alloc: Global, row: &Row, sequential: &Sequential) -> Result<Value, AllocError>
    ensures { IfOk result (λ v. view v ≡ end_object sequential.now (as_end row.now)) }
{
    let mut object = Object::new(alloc);
    put_read(&mut object, alloc, &row.end, sequential)?;
    put_shortest(&mut object, alloc, row)?;
    Ok(into_value(object))
}

/// What is printed of an end, as members of an object. It fails where there is no memory.
pub fn put_read(
    object: &mut Object,
    alloc: Global,
    end: &Outcome,
    sequential: &Sequential,
) -> Result<(), AllocError>
    ensures { OnOk result (members_view object.new.entries ≡ with_all (read_members sequential.now end.now) (members_view object.old.entries)) }
{
    let winners = winners(alloc, end.winners())?;
    let outcome = outcome_word(alloc, end.told())?;
    put_list(object, alloc, "winners", winners)?;
    put_flag(object, alloc, "marker", end.marker())?;
    put_text(object, alloc, "outcome", &outcome)?;
    put_text(object, alloc, "seen", end.files())?;
    put_flag(object, alloc, "sequential", sequential.is_of(end))
}

// How many runs came to an end, and how long the first shortest is.
fn put_shortest(object: &mut Object, alloc: Global, row: &Row) -> Result<(), AllocError>
    ensures { OnOk result (members_view object.new.entries ≡ with_all (shortest_members (as_end row.now)) (members_view object.old.entries)) }
{
    put_count(object, alloc, "runs", row.runs)?;
    put_count(object, alloc, "stalled", row.stalled)?;
    put_count(object, alloc, "faults", u64::from(row.faults))?;
    put_count(object, alloc, "events", row.events as u64)?;
    put_text(object, alloc, "script", &row.script)
}

// The winners by reduce.
#[tactic(auto, using(crate::proofs::EndObjects::one_winner))]
fn winners(alloc: Global, winners: &[Option<AttemptId>]) -> Result<Vec<Value>, AllocError>
    ensures { IfOk result (λ all. map view all.items ≡ map winner_data winners.now) }
{
    let mut all = Vec::new(alloc);
    for winner in winners {
        let value = winner_value(alloc, winner)?;
        all.push(value)?;
    }
    Ok(all)
}

// A winner; null stands for none.
fn winner_value(alloc: Global, winner: &Option<AttemptId>) -> Result<Value, AllocError>
    ensures { IfOk result (λ v. view v ≡ winner_data winner.now) }
{
    match winner {
        Some(_) => word_value(alloc, winner),
        None => Ok(Value::Null),
    }
}

fn word_value(alloc: Global, winner: &Option<AttemptId>) -> Result<Value, AllocError>
    ensures { IfOk result (λ v. view v ≡ text (winner_word winner.now)) }
{
    let word = winner_word(alloc, winner)?;
    let text = String::from_utf8_lossy(alloc, &word)?;
    Value::try_from_str(alloc, text.as_str())
}

fn winner_word(alloc: Global, winner: &Option<AttemptId>) -> Result<Vec<u8>, AllocError>
    ensures { IfOk result (λ word. word.items ≡ winner_word winner.now) }
{
    let mut word = Vec::new(alloc);
    put_winner(&mut word, winner)?;
    Ok(word)
}

fn outcome_word(alloc: Global, outcome: Option<bool>) -> Result<Vec<u8>, AllocError>
    ensures { IfOk result (λ word. word.items ≡ outcome_word outcome) }
{
    let mut word = Vec::new(alloc);
    put_outcome(&mut word, outcome)?;
    Ok(word)
}

// How many runs were made, and whether these are all.
#[tactic(auto, using(crate::proofs::EndObjects::runs_are_plain))]
fn put_runs(
    out: &mut Vec<u8>,
    alloc: Global,
    found: &Found<'_>,
    sequential: &Sequential,
) -> Result<(), AllocError>
    ensures { OnOk result (out.new.items ≡ out.old.items ++ runs_line sequential.now (as_found found.now)) }
{
    let value = runs_value(alloc, found, sequential)?;
    put_line(out, alloc, &value)
}

fn runs_value(
    alloc: Global,
    found: &Found<'_>,
    sequential: &Sequential,
) -> Result<Value, AllocError>
    ensures { IfOk result (λ v. view v ≡ object_of (runs_members sequential.now (as_found found.now))) }
{
    let mut object = Object::new(alloc);
    put_count(&mut object, alloc, "runs", found.table.runs())?;
    put_count(&mut object, alloc, "faults", u64::from(found.faults))?;
    put_flag(&mut object, alloc, "all", are_all(found))?;
    put_count(&mut object, alloc, "past_limit", found.table.past_limit())?;
    put_count(&mut object, alloc, "cut", found.table.cut())?;
    put_count(&mut object, alloc, "ends", found.table.rows().len() as u64)?;
    let sequential = marked_are_sequential(found.table, sequential);
    put_flag(&mut object, alloc, "sequential", sequential)?;
    Ok(into_value(object))
}
