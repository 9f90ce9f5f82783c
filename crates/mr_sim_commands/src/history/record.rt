//! A record of a job history, as it is printed.
ghost use Rattle.std.specs.Prelude.{◌≡◌, ◌++◌, decimal, OnOk};
ghost use Rattle.mr_ids.specs.Text.{attempt_text};
ghost use Rattle.mr_sim_commands.specs.history.Text.{record_text, length_text};

use itoa::Buffer;
use mr_history::Record;
use mr_ids::AttemptId;
use std::alloc::AllocError;

/// A word, and the text of an attempt.
fn print_attempt(out: &mut Vec<u8>, word: &[u8], attempt: AttemptId) -> Result<(), AllocError>
    ensures { OnOk result (out.new.items ≡ out.old.items ++ word.now ++ attempt_text attempt) }
{
    out.extend_from_slice(word)?;
    attempt.write(out)
}

/// A word, and a number in decimal.
pub fn print_number(out: &mut Vec<u8>, word: &[u8], number: usize) -> Result<(), AllocError>
    ensures { OnOk result (out.new.items ≡ out.old.items ++ word.now ++ decimal number) }
{
    let mut buffer = Buffer::new();
    out.extend_from_slice(word)?;
    out.extend_from_slice(buffer.format(number).as_bytes())
}

/// The length of a part file, where there is one.
fn print_length(out: &mut Vec<u8>, bytes: Option<u32>) -> Result<(), AllocError>
    ensures { OnOk result (out.new.items ≡ out.old.items ++ length_text bytes) }
{
    match bytes {
        None => Ok(()),
        Some(bytes) => print_number(out, b" bytes ", bytes as usize),
    }
}

/// One record, and no line feed.
pub fn print_record(out: &mut Vec<u8>, record: &Record) -> Result<(), AllocError>
    ensures { OnOk result (out.new.items ≡ out.old.items ++ record_text «record».now) }
{
    match *record {
        Record::AttemptStarted { attempt, node } => {
            print_attempt(out, b"started ", attempt)?;
            print_number(out, b" node ", node as usize)
        }
        Record::MapSucceeded {
            attempt,
            node,
            incarnation,
        } => {
            print_attempt(out, b"map ", attempt)?;
            print_number(out, b" node ", node as usize)?;
            print_number(out, b" incarnation ", incarnation as usize)
        }
        Record::ReduceSucceeded { attempt, bytes } => {
            print_attempt(out, b"reduce ", attempt)?;
            print_length(out, bytes)
        }
        Record::AttemptFailed { attempt } => print_attempt(out, b"failed ", attempt),
        Record::JobUnsuccessful => out.extend_from_slice(b"unsuccessful"),
    }
}
