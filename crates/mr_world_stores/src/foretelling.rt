//! What a master, or any caller of the namespace, will hear of a store call, found out before the call is made.
ghost use Rattle.std.specs.Prelude.{◌≡◌, ◌≤◌, Some, None, true, false, IfOk};
ghost use Rattle.mr_names.specs.Calls.{call_of, refused, answer};
ghost use Rattle.mr_history.specs.Calls as segments;
ghost use Rattle.mr_world_model.specs.Stored.{master};
ghost use Rattle.mr_master_refinement.specs.Stores.{told_of};
ghost use Rattle.mr_world_stores.specs.Masters.{answer_to, finds_full, is_segment_full, tells_full, written_as};

use crate::container::is_full;
use mr_history::{History, HistoryFault};
use mr_ids::AppAttempt;
use mr_master_model::{StoreAnswer, StoreCall};
use mr_names::{Answer, Caller, NameFault, Namespace, Op};
use std::alloc::AllocError;

/// Whether the call would be refused since a store is full.
pub fn finds_full(names: &Namespace, history: &History, app: AppAttempt, call: &StoreCall) -> bool
    requires { app ≤ history.now.fence }
    ensures { result ≡ finds_full names.now history.now app call.now }
{
    match call {
        StoreCall::Names(op) => is_full(names.foresee(master_caller(app), op)),
        StoreCall::Append(line) => is_segment_full(history.append_refusal(app, line)),
        StoreCall::Flush | StoreCall::Read => false,
    }
}

/// What both stores will answer (`master_answer`); none where a store is full (`finds_full`).
pub fn answer_where_room(
    names: &Namespace,
    history: &History,
    app: AppAttempt,
    call: &StoreCall,
) -> Result<Option<StoreAnswer>, AllocError>
    requires { app ≤ history.now.fence }
    ensures some { IfOk result (λ answer. finds_full names.now history.now app call.now ≡ false → answer ≡ Some (answer_to names.now history.now app call.now)) }
    ensures none { IfOk result (λ answer. finds_full names.now history.now app call.now ≡ true → answer ≡ None) }
{
    let answer = master_answer(names, history, app, call)?;
    if tells_full(&answer) {
        Ok(None)
    } else {
        Ok(Some(answer))
    }
}

// Whether a store answers that it is full.
fn tells_full(answer: &StoreAnswer) -> bool
    ensures { result ≡ tells_full answer.now }
{
    matches!(
        answer,
        StoreAnswer::Names(Err(NameFault::Full)) | StoreAnswer::Wrote(Err(HistoryFault::Full))
    )
}

/// What both stores will answer. What changes nothing is asked for at once; of all else the answer is known
/// beforehand.
pub fn master_answer(
    names: &Namespace,
    history: &History,
    app: AppAttempt,
    call: &StoreCall,
) -> Result<StoreAnswer, AllocError>
    requires { app ≤ history.now.fence }
    ensures { IfOk result (λ answer. answer ≡ answer_to names.now history.now app call.now) }
{
    match call {
        StoreCall::Names(op) => {
            let answer = names_answer(names, master_caller(app), op)?;
            Ok(StoreAnswer::Names(answer))
        }
        StoreCall::Append(line) => Ok(written(history.append_refusal(app, line))),
        StoreCall::Flush => Ok(written(history.flush_refusal(app))),
        StoreCall::Read => read(history, app),
    }
}

/// The caller of a master's calls: its generation, for no attempt.
pub fn master_caller(app: AppAttempt) -> Caller
    ensures { result ≡ master app }
{
    Caller { app, attempt: None }
}

fn is_segment_full(refusal: Option<HistoryFault>) -> bool
    ensures { result ≡ is_segment_full refusal }
{
    matches!(refusal, Some(HistoryFault::Full))
}

/// What the namespace will answer to this caller.
pub fn names_answer(
    names: &Namespace,
    caller: Caller,
    op: &Op,
) -> Result<Result<Answer, NameFault>, AllocError>
    ensures { IfOk result (λ answer. answer ≡ (call_of names.now caller op.now).0) }
{
    match names.foresee(caller, op) {
        Some(refusal) => Ok(Err(refusal)),
        None => Ok(Ok(found(names, caller, op)?)),
    }
}

// The answer of a call of the namespace that is not refused.
fn found(names: &Namespace, caller: Caller, op: &Op) -> Result<Answer, AllocError>
    requires { refused names.now caller op.now ≡ None }
    ensures { IfOk result (λ found. found ≡ answer names.now.content op.now) }
{
    let found = match op {
        Op::List(path) => names.list(caller, path).map(Answer::Listed),
        Op::Exists(path) => names.exists(caller, path).map(Answer::Found),
        Op::Read(path) => names.read(caller, path).map(Answer::Contents),
        _ => Ok(Answer::Done),
    };
    match found {
        Ok(found) => Ok(found),
        Err(fault) => Err(fault.wants_memory()),
    }
}

// The answer of an append or a flush with this refusal.
fn written(refusal: Option<HistoryFault>) -> StoreAnswer
    ensures { result ≡ written_as refusal }
{
    match refusal {
        None => StoreAnswer::Wrote(Ok(())),
        Some(refusal) => StoreAnswer::Wrote(Err(refusal)),
    }
}

// What is read of the earlier segments.
fn read(history: &History, app: AppAttempt) -> Result<StoreAnswer, AllocError>
    requires { app ≤ history.now.fence }
    ensures { IfOk result (λ answer. answer ≡ told_of segments.Read (segments.call_of history.now app segments.Read).0) }
{
    let fence = history.fence();
    if app.number() < fence {
        return Ok(StoreAnswer::Unread(HistoryFault::Superseded(fence)));
    }
    match history.read(app) {
        Ok(records) => Ok(StoreAnswer::Told(records)),
        Err(fault) => Err(fault.wants_memory()),
    }
}
