//! A master's store call is made: what it leaves of the namespace, or of the job history.
ghost use Rattle.std.specs.Prelude.{◌≡◌, ◌≤◌, IsTrue, OnOk, OnErr};
ghost use Rattle.mr_names.specs.Calls.{State, call_of};
ghost use Rattle.mr_history.specs.Calls as segments;
ghost use Rattle.mr_world_model.specs.Stored.{master};
ghost use Rattle.mr_world_stores.specs.Masters.{IsSuited, is_look};

use crate::foretelling::master_caller;
use mr_history::{History, Record};
use mr_ids::AppAttempt;
use mr_master_model::StoreCall;
use mr_names::{NameFault, Namespace, Op};
use std::alloc::AllocError;

/// The namespace is left as the call leaves it.
pub fn change_names(names: &mut Namespace, app: AppAttempt, op: &Op) -> Result<(), AllocError>
    ensures ok { OnOk result (names.new ≡ (call_of names.old (master app) op.now).1) }
    ensures err { OnErr result (names.new ≡ names.old) }
{
    match names.perform(master_caller(app), op) {
        Ok(_) => Ok(()),
        Err(NameFault::NoMemory) => Err(AllocError),
        Err(_) => Ok(()),
    }
}

/// The history is left as an append leaves it.
pub fn append_record(
    history: &mut History,
    app: AppAttempt,
    line: &Record,
) -> Result<(), AllocError>
    requires raised { app ≤ history.old.fence }
    requires suited { IsSuited history.old app (StoreCall.Append line.now) }
    ensures ok { OnOk result (history.new ≡ (segments.call_of history.old app (segments.Append line.now)).1) }
    ensures err { OnErr result (history.new ≡ history.old) }
{
    if history.append_refusal(app, line).is_some() {
        return Ok(());
    }
    match history.append(app, *line) {
        Ok(()) => Ok(()),
        Err(fault) => Err(fault.wants_memory()),
    }
}

/// Whether the call only looks: it changes nothing.
pub fn only_looks(app: AppAttempt, op: &Op) -> bool
    ensures { IsTrue result → (s : State) → (call_of s (master app) op.now).1 ≡ s }
{
    is_look(op)
}

fn is_look(op: &Op) -> bool
    ensures { result ≡ is_look op.now }
{
    matches!(op, Op::List(_) | Op::Exists(_) | Op::Read(_))
}
