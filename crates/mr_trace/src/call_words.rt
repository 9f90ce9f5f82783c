//! Store calls and what is heard of them in words.
ghost use Rattle.std.specs.Prelude.{◌≡◌, ◌++◌, ◌∷◌, OnOk};
ghost use Rattle.mr_sim_commands.specs.committer.Text.{name_fault_text};
ghost use Rattle.mr_trace.specs.Words.{answer_text, closed_word, count_text, history_fault_text, op_text, path_text, reply_text, store_answer_text, store_call_text, unheard_word};

use crate::trace_words::{put_attempt, put_number, put_small};
use mr_container::Reply;
use mr_history::HistoryFault;
use mr_master_model::{StoreAnswer, StoreCall};
use mr_names::{Answer, Kind, NameFault, Op};
use mr_paths::Path;
use mr_sim_commands::{print_names, print_record};
use mr_world_events::Weather;
use std::alloc::AllocError;

/// A master's store call.
pub fn put_store_call(out: &mut Vec<u8>, call: &StoreCall) -> Result<(), AllocError>
    ensures { OnOk result (out.new.items ≡ out.old.items ++ store_call_text call.now) }
{
    match call {
        StoreCall::Names(op) => put_op(out, op),
        StoreCall::Append(record) => {
            out.extend_from_slice(b"append ")?;
            print_record(out, record)
        }
        StoreCall::Flush => out.extend_from_slice(b"flush"),
        StoreCall::Read => out.extend_from_slice(b"read"),
    }
}

/// A call of the namespace.
pub fn put_op(out: &mut Vec<u8>, op: &Op) -> Result<(), AllocError>
    ensures { OnOk result (out.new.items ≡ out.old.items ++ op_text op.now) }
{
    match op {
        Op::Mkdirs(path) => put_path(out, b"mkdirs ", path),
        Op::Create { path, closed } => {
            put_path(out, b"create ", path)?;
            out.extend_from_slice(closed_word(*closed))
        }
        Op::Append { path, bytes } => {
            put_path(out, b"append ", path)?;
            put_count(out, b" ", bytes.len(), b"byte", b"bytes")
        }
        Op::Close(path) => put_path(out, b"close ", path),
        Op::Delete(path) => put_path(out, b"delete ", path),
        Op::Rename { from, to } => {
            put_path(out, b"rename ", from)?;
            put_path(out, b" ", to)
        }
        Op::List(path) => put_path(out, b"list ", path),
        Op::Exists(path) => put_path(out, b"exists ", path),
        Op::Read(path) => put_path(out, b"read ", path),
        Op::Bar(attempt) => put_attempt(out, b"bar ", attempt),
    }
}

fn closed_word(closed: bool) -> &'static [u8]
    ensures { result.now ≡ closed_word closed }
{
    if closed { b" closed" } else { b"" }
}

// A word and a path behind it.
fn put_path(out: &mut Vec<u8>, word: &[u8], path: &Path) -> Result<(), AllocError>
    ensures { OnOk result (out.new.items ≡ out.old.items ++ word.now ++ path_text path.now) }
{
    out.extend_from_slice(word)?;
    out.extend_from_slice(b"/")?;
    print_names(path.names(), out)
}

/// What a master heard, in this weather of its call.
pub fn put_store_answer(
    out: &mut Vec<u8>,
    weather: Weather,
    answer: &StoreAnswer,
) -> Result<(), AllocError>
    ensures { OnOk result (out.new.items ≡ out.old.items ++ store_answer_text weather answer.now) }
{
    match answer {
        StoreAnswer::Names(Ok(answer)) => put_answer(out, answer),
        StoreAnswer::Names(Err(fault)) => put_name_fault(out, *fault),
        StoreAnswer::Wrote(Ok(())) => out.extend_from_slice(b"done"),
        StoreAnswer::Wrote(Err(fault)) => put_history_fault(out, *fault),
        StoreAnswer::Told(records) => put_count(out, b"", records.len(), b"record", b"records"),
        StoreAnswer::Unread(fault) => put_history_fault(out, *fault),
        StoreAnswer::Fault => out.extend_from_slice(unheard_word(weather)),
    }
}

/// What a container heard, in this weather of its call.
pub fn put_reply(out: &mut Vec<u8>, weather: Weather, reply: &Reply) -> Result<(), AllocError>
    ensures { OnOk result (out.new.items ≡ out.old.items ++ reply_text weather reply.now) }
{
    match reply {
        Reply::Answered(Ok(answer)) => put_answer(out, answer),
        Reply::Answered(Err(fault)) => put_name_fault(out, *fault),
        Reply::Fault => out.extend_from_slice(unheard_word(weather)),
    }
}

// What is said of an answer that the caller does not hear. In calm weather there is none.
fn unheard_word(weather: Weather) -> &'static [u8]
    ensures { result.now ≡ unheard_word weather }
{
    match weather {
        Weather::Unavailable => b"unavailable",
        Weather::Calm | Weather::Unanswered => b"unanswered",
    }
}

// An answer of the namespace.
fn put_answer(out: &mut Vec<u8>, answer: &Answer) -> Result<(), AllocError>
    ensures { OnOk result (out.new.items ≡ out.old.items ++ answer_text answer.now) }
{
    match answer {
        Answer::Done => out.extend_from_slice(b"done"),
        Answer::Listed(entries) => {
            put_count(out, b"", entries.as_slice().len(), b"entry", b"entries")
        }
        Answer::Found(None) => out.extend_from_slice(b"nothing"),
        Answer::Found(Some(Kind::Dir)) => out.extend_from_slice(b"a directory"),
        Answer::Found(Some(Kind::File)) => out.extend_from_slice(b"a file"),
        Answer::Contents(bytes) => put_count(out, b"", bytes.len(), b"byte", b"bytes"),
    }
}

// A word, and then a count with its unit, as `2 entries`.
fn put_count(
    out: &mut Vec<u8>,
    word: &[u8],
    count: usize,
    one: &[u8],
    many: &[u8],
) -> Result<(), AllocError>
    ensures { OnOk result (out.new.items ≡ out.old.items ++ word.now ++ count_text count one.now many.now) }
{
    put_number(out, word, count as u64)?;
    out.extend_from_slice(b" ")?;
    if count == 1 {
        out.extend_from_slice(one)
    } else {
        out.extend_from_slice(many)
    }
}

// The variant of a refusal of the namespace.
fn put_name_fault(out: &mut Vec<u8>, fault: NameFault) -> Result<(), AllocError>
    ensures { OnOk result (out.new.items ≡ out.old.items ++ name_fault_text fault) }
{
    match fault {
        NameFault::Superseded(fence) => put_small(out, b"Superseded ", fence),
        NameFault::Barred => out.extend_from_slice(b"Barred"),
        NameFault::Missing => out.extend_from_slice(b"Missing"),
        NameFault::Exists => out.extend_from_slice(b"Exists"),
        NameFault::NotDir => out.extend_from_slice(b"NotDir"),
        NameFault::NotFile => out.extend_from_slice(b"NotFile"),
        NameFault::Closed => out.extend_from_slice(b"Closed"),
        NameFault::NoParent => out.extend_from_slice(b"NoParent"),
        NameFault::IntoItself => out.extend_from_slice(b"IntoItself"),
        NameFault::Full => out.extend_from_slice(b"Full"),
        NameFault::NoMemory => out.extend_from_slice(b"NoMemory"),
    }
}

// The variant of a refusal of the job history.
fn put_history_fault(out: &mut Vec<u8>, fault: HistoryFault) -> Result<(), AllocError>
    ensures { OnOk result (out.new.items ≡ out.old.items ++ history_fault_text fault) }
{
    match fault {
        HistoryFault::Superseded(fence) => put_small(out, b"Superseded ", fence),
        HistoryFault::Sealed => out.extend_from_slice(b"Sealed"),
        HistoryFault::BadLine(line) => put_number(out, b"BadLine ", line as u64),
        HistoryFault::Full => out.extend_from_slice(b"Full"),
        HistoryFault::NoMemory => out.extend_from_slice(b"NoMemory"),
    }
}
