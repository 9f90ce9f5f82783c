//! The subcommand `history`.
ghost use Rattle.std.specs.Prelude.{◌≡◌, ◌++◌, flat_map, IfOk, IfErr, OnOk};
ghost use Rattle.mr_sim_commands.specs.history.Text.{record_line, version_text, PrintsHistory, RefusesHistory};
ghost use Rattle.mr_sim_commands.specs.Faults.{HistoryFails};

mod record;

use crate::fault::SimFault;
use crate::history::record::print_number;
use mr_history::{HistoryFault, Record, replay};
pub use record::print_record;
use std::alloc::{AllocError, Global};

/// The version of a segment, on a line of its own; nothing of version 1.
fn print_version(out: &mut Vec<u8>, version: u32) -> Result<(), AllocError>
    ensures { OnOk result (out.new.items ≡ out.old.items ++ version_text version) }
{
    if version == 2 {
        out.extend_from_slice(b"version 2\n")
    } else {
        Ok(())
    }
}

/// All records, each on a line of its own.
fn print_records(out: &mut Vec<u8>, records: &[Record]) -> Result<(), AllocError>
    ensures { OnOk result (out.new.items ≡ out.old.items ++ flat_map record_line records.now) }
{
    for record in records {
        print_record(out, record)?;
        out.extend_from_slice(b"\n")?;
    }
    Ok(())
}

/// The printed text of the bytes of a segment.
///
/// `BadLine` names the first whole line, from 1, that is no record and not the version line at the head. `NoMemory`
/// may come at any bytes.
fn text_of(alloc: Global, input: &[u8]) -> Result<Vec<u8>, HistoryFault>
    ensures ok { IfOk result (λ text. PrintsHistory input.now text.items) }
    ensures fault { IfErr result (λ e. RefusesHistory input.now e) }
{
    let replayed = replay(alloc, input)?;
    let mut text = Vec::new(alloc);
    print_version(&mut text, replayed.version)?;
    print_records(&mut text, replayed.records.as_slice())?;
    print_number(&mut text, b"torn ", replayed.torn)?;
    text.extend_from_slice(b"\n")?;
    Ok(text)
}

/// What `history` prints for the bytes of a segment.
///
/// `BadRecord` names the first whole line, from 1, that is no record and not the version line at the head. `NoMemory`
/// may come at any bytes; no other fault comes.
pub fn history_output(alloc: Global, input: &[u8]) -> Result<Vec<u8>, SimFault>
    ensures ok { IfOk result (λ v. PrintsHistory input.now v.items) }
    ensures fault { IfErr result (HistoryFails input.now) }
{
    match text_of(alloc, input) {
        Ok(text) => Ok(text),
        Err(HistoryFault::BadLine(line)) => Err(SimFault::BadRecord(line)),
        Err(HistoryFault::NoMemory) => Err(SimFault::NoMemory),
        Err(HistoryFault::Superseded(_) | HistoryFault::Sealed | HistoryFault::Full) =>
            unreachable!(),
    }
}
