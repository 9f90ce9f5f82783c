//! The line of a record, written as JSON.
ghost use Rattle.std.specs.Prelude.{◌≡◌, ◌≤◌, codes, string_bytes, IfOk, OnOk, length};
ghost use Rattle.std.specs.Int.Digits.{digits_of};
ghost use Rattle.serde_json.specs.Data.{number, unsigned, string, object, member, no_members, put as with_member};
ghost use Rattle.serde_json.specs.View.{view, members_view};
ghost use Rattle.mr_ids.specs.Text.{attempt_text, numeral, IsAttempt};
ghost use Rattle.mr_history.specs.Json.{members, told, value_of};
ghost use Rattle.mr_history.specs.Line.{line_of, whole_line, width, bytes_width, InRange, IsIn32};

use crate::record::Record;
use mr_ids::AttemptId;
use serde_json::{Map, Value, json, put};
use std::alloc::{AllocError, Global};

/// Most bytes of a record's line, its line feed aside: those of a map's with the longest numbers.
pub const MAX_LINE_LEN: usize = 130;

// The record as a JSON value.
fn value(alloc: Global, record: &Record) -> Result<Value, AllocError>
    ensures { IfOk result (λ v. view v ≡ value_of «record».now) }
{
    match *record {
        Record::AttemptStarted { attempt, node } => {
            told_with(alloc, attempt, "started", "node", node)
        }
        Record::MapSucceeded {
            attempt,
            node,
            incarnation,
        } => mapped(alloc, attempt, node, incarnation),
        Record::ReduceSucceeded {
            attempt,
            bytes: None,
        } => told(alloc, attempt, "reduce"),
        Record::ReduceSucceeded {
            attempt,
            bytes: Some(bytes),
        } => told_with(alloc, attempt, "reduce", "bytes", bytes),
        Record::AttemptFailed { attempt } => told(alloc, attempt, "failed"),
        Record::JobUnsuccessful => json!(in alloc; {"event": "unsuccessful"}),
    }
}

fn text_of(alloc: Global, attempt: AttemptId) -> Result<String, AllocError>
    ensures { IfOk result (λ s. string_bytes s ≡ attempt_text attempt) }
{
    format!(in alloc; "{attempt}")
}

// The members that tell of an attempt, and what happened.
fn members_of(
    alloc: Global,
    attempt: AttemptId,
    event: &str,
) -> Result<Map<String, Value>, AllocError>
    ensures { IfOk result (λ m. members_view m.entries ≡ members attempt event.now) }
{
    let text = text_of(alloc, attempt)?;
    let mut members = Map::new(alloc);
    put_text(&mut members, alloc, "attempt", text.as_str())?;
    put_text(&mut members, alloc, "event", event)?;
    Ok(members)
}

fn put_text(
    members: &mut Map<String, Value>,
    alloc: Global,
    key: &str,
    text: &str,
) -> Result<(), AllocError>
    ensures { OnOk result (members_view members.new.entries ≡ with_member key.now (string text.now) (members_view members.old.entries)) }
{
    let value = Value::try_from_str(alloc, text)?;
    put(members, alloc, key, value)
}

// Members with a number more.
fn with_number(
    alloc: Global,
    mut members: Map<String, Value>,
    key: &str,
    n: u32,
) -> Result<Map<String, Value>, AllocError>
    ensures { IfOk result (λ m. members_view m.entries ≡ with_member key.now (number (unsigned n)) (members_view members.entries)) }
{
    put(&mut members, alloc, key, Value::from(n))?;
    Ok(members)
}

// What happened at an attempt.
fn told(alloc: Global, attempt: AttemptId, event: &str) -> Result<Value, AllocError>
    ensures { IfOk result (λ v. view v ≡ told attempt event.now no_members) }
{
    Ok(Value::Object(members_of(alloc, attempt, event)?))
}

// The same, with a number.
fn told_with(
    alloc: Global,
    attempt: AttemptId,
    event: &str,
    key: &str,
    n: u32,
) -> Result<Value, AllocError>
    ensures { IfOk result (λ v. view v ≡ object (with_member key.now (number (unsigned n)) (members attempt event.now))) }
{
    let members = members_of(alloc, attempt, event)?;
    Ok(Value::Object(with_number(alloc, members, key, n)?))
}

fn mapped(
    alloc: Global,
    attempt: AttemptId,
    node: u32,
    incarnation: u32,
) -> Result<Value, AllocError>
    ensures { IfOk result (λ v. view v ≡ told attempt (codes "map") (member (codes "incarnation") (number (unsigned incarnation)) (member (codes "node") (number (unsigned node)) no_members))) }
{
    let members = members_of(alloc, attempt, "map")?;
    let members = with_number(alloc, members, "incarnation", incarnation)?;
    Ok(Value::Object(with_number(alloc, members, "node", node)?))
}

/// The line of a record, without its line feed.
pub fn line(alloc: Global, record: &Record) -> Result<String, AllocError>
    ensures { IfOk result (λ s. string_bytes s ≡ line_of «record».now) }
{
    value(alloc, record)?.to_string(alloc)
}

/// The line of a record, ended by its line feed. It fails by nothing but an allocation failure.
pub fn whole_line(alloc: Global, record: &Record) -> Result<String, AllocError>
    ensures { IfOk result (λ s. string_bytes s ≡ whole_line «record».now) }
{
    let mut text = line(alloc, record)?;
    text.push('\n')?;
    Ok(text)
}

/// How many bytes the line of a record takes, with its line feed.
pub fn width(record: &Record) -> usize
    ensures width { result ≡ width «record».now }
    ensures small { result ≤ 200 }
    ensures ranges { InRange «record».now }
{
    match *record {
        Record::AttemptStarted { attempt, node } => 41
            + text_len(attempt)
            + number_len(node as u64, 1),
        Record::MapSucceeded {
            attempt,
            node,
            incarnation,
        } => 52
            + text_len(attempt)
            + number_len(node as u64, 1)
            + number_len(incarnation as u64, 1),
        Record::ReduceSucceeded { attempt, bytes } => 32 + text_len(attempt) + bytes_len(bytes),
        Record::AttemptFailed { attempt } => 32 + text_len(attempt),
        Record::JobUnsuccessful => 25,
    }
}

// How many bytes a length takes in a line, with its key and comma.
fn bytes_len(bytes: Option<u32>) -> usize
    ensures len { result ≡ bytes_width bytes }
    ensures small { result ≤ 29 }
    ensures ranges { IsIn32 bytes }
{
    match bytes {
        None => 0,
        Some(bytes) => 9 + number_len(bytes as u64, 1),
    }
}

// How many bytes the text of an attempt has.
fn text_len(attempt: AttemptId) -> usize
    ensures len { result ≡ length (attempt_text attempt) }
    ensures small { result ≤ 93 }
    ensures ranges { IsAttempt attempt }
{
    let task = attempt.task();
    let job = task.job;
    13 + number_len(job.start, 1)
        + number_len(job.number as u64, 4)
        + number_len(task.number as u64, 6)
        + number_len(attempt.number() as u64, 1)
}

// How many bytes a number has in at least this many digits.
fn number_len(n: u64, width: usize) -> usize
    requires { width ≤ 20 }
    ensures len { result ≡ length (numeral width n) }
    ensures small { result ≤ 20 }
{
    digit_count(n).max(width)
}

fn digit_count(n: u64) -> usize
    ensures len { result ≡ length (digits_of 10 n) }
    ensures small { result ≤ 20 }
{
    if n == 0 { 0 } else { digit_count(n / 10) + 1 }
}
