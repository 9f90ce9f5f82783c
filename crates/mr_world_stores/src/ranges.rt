//! The numbers of a record, as the types of the code bound them.
ghost use Rattle.std.specs.Prelude.{◌<◌, ◌^◌};
ghost use Rattle.mr_history.specs.Line.{InRange, IsIn32};
ghost use Rattle.mr_ids.specs.Text.{IsAttempt};
ghost use Rattle.mr_world_stores.specs.Masters.{IsRanged};

use mr_history::Record;
use mr_ids::AttemptId;
use mr_master_model::StoreCall;

/// The numbers of a record that is appended are in the ranges of their types. This call does nothing: it tells the
/// caller so.
pub fn tell_ranges(call: &StoreCall)
    ensures { IsRanged call.now }
{
    if let StoreCall::Append(line) = call {
        tell_record(line);
    }
}

fn tell_record(line: &Record)
    ensures { InRange line.now }
{
    match *line {
        Record::AttemptStarted { attempt, node } => {
            tell_attempt(attempt);
            tell_number(node);
        }
        Record::MapSucceeded {
            attempt,
            node,
            incarnation,
        } => {
            tell_attempt(attempt);
            tell_number(node);
            tell_number(incarnation);
        }
        Record::ReduceSucceeded { attempt, bytes } => {
            tell_attempt(attempt);
            tell_bytes(bytes);
        }
        Record::AttemptFailed { attempt } => tell_attempt(attempt),
        Record::JobUnsuccessful => {}
    }
}

fn tell_attempt(attempt: AttemptId)
    ensures { IsAttempt attempt }
{
    // For the prover: the numbers of an attempt are in the ranges of their types.
    let _job = attempt.task().job;
}

fn tell_number(number: u32)
    ensures { number < 2 ^ 32 }
{
    // For the prover: a number of type u32 is below 2^32.
    let _number = number;
}

fn tell_bytes(bytes: Option<u32>)
    ensures { IsIn32 bytes }
{
    // For the prover: a number of type u32 is below 2^32.
    let _some = bytes.is_some();
}
