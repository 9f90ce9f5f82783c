//! A segment of a job history as lines of JSON.
ghost use Rattle.std.specs.Prelude.{◌≡◌, ◌++◌, flat_map, IfOk, IfErr, OnOk};
ghost use Rattle.mr_sim_commands.specs.Faults.{HistoryFails};
ghost use Rattle.mr_sim_commands.specs.history.Text.{RefusesHistory};
ghost use Rattle.serde_json.specs.View.{view};
ghost use Rattle.mr_trace_json.specs.Segments.{TellsHistory, record_line, rest_line, rest_object};

use mr_history::{HistoryFault, Record, replay, whole_line};
use mr_sim_commands::SimFault;
use mr_sim_json::{Object, into_value, put_count, put_line};
use serde_json::Value;
use std::alloc::{AllocError, Global};

/// The records of a segment, an object a line, in order, and last one with the version and how many bytes are torn.
///
/// `BadRecord` names the first whole line, from 1, that is no record and not the version line at the head. `NoMemory`
/// may come at any bytes; no other fault comes.
pub fn history_json(alloc: Global, input: &[u8]) -> Result<Vec<u8>, SimFault>
    ensures ok { IfOk result (λ v. TellsHistory input.now v.items) }
    ensures fault { IfErr result (HistoryFails input.now) }
{
    match text_of(alloc, input) {
        Ok(text) => Ok(text),
        Err(HistoryFault::BadLine(line)) => Err(SimFault::BadRecord(line)),
        Err(HistoryFault::NoMemory) => Err(SimFault::NoMemory),
        Err(HistoryFault::Superseded(_) | HistoryFault::Sealed | HistoryFault::Full) =>
            unreachable!(),
    }
}

fn text_of(alloc: Global, input: &[u8]) -> Result<Vec<u8>, HistoryFault>
    ensures ok { IfOk result (λ text. TellsHistory input.now text.items) }
    ensures fault { IfErr result (λ e. RefusesHistory input.now e) }
{
    let replayed = replay(alloc, input)?;
    let mut text = Vec::new(alloc);
    put_records(&mut text, alloc, replayed.records.as_slice())?;
    put_rest(&mut text, alloc, replayed.version, replayed.torn)?;
    Ok(text)
}

fn put_records(out: &mut Vec<u8>, alloc: Global, records: &[Record]) -> Result<(), AllocError>
    ensures { OnOk result (out.new.items ≡ out.old.items ++ flat_map record_line records.now) }
{
    for record in records {
        put_record(out, alloc, record)?;
    }
    Ok(())
}

// The line of a record, as it stands in a segment.
#[tactic(auto, using(crate::proofs::Records::line_is))]
fn put_record(out: &mut Vec<u8>, alloc: Global, record: &Record) -> Result<(), AllocError>
    ensures { OnOk result (out.new.items ≡ out.old.items ++ record_line «record».now) }
{
    let line = whole_line(alloc, record)?;
    out.extend_from_slice(line.as_bytes())
}

// The version, and how many bytes are torn.
#[tactic(auto, using(crate::proofs::Records::rest_is_plain))]
fn put_rest(out: &mut Vec<u8>, alloc: Global, version: u32, torn: usize) -> Result<(), AllocError>
    ensures { OnOk result (out.new.items ≡ out.old.items ++ rest_line version torn) }
{
    let value = rest_value(alloc, version, torn)?;
    put_line(out, alloc, &value)
}

fn rest_value(alloc: Global, version: u32, torn: usize) -> Result<Value, AllocError>
    ensures { IfOk result (λ v. view v ≡ rest_object version torn) }
{
    let mut object = Object::new(alloc);
    put_count(&mut object, alloc, "version", u64::from(version))?;
    put_count(&mut object, alloc, "torn", torn as u64)?;
    Ok(into_value(object))
}
