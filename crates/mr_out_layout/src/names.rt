//! The lines of a job's attempts as this program writes them, one after another: what all of them begin with is compared, and
//! only the two numbers are read.
ghost use Rattle.std.specs.Prelude.{◌≡◌, ◌≢◌, ◌≤◌, ◌+◌, ◌*◌, ◌++◌, ◌∷◌, ℕ, List, codes, true, IfOk, IfSome, MatchOption};
ghost use Rattle.std.specs.Char.{is_ascii_digit, digit_value};
ghost use Rattle.std.specs.List.{list_all};
ghost use Rattle.std.specs.Str.Parse.{digits_value};
ghost use Rattle.mr_ids.specs.Faults.{is_spelled};
ghost use Rattle.mr_ids.specs.Kind.{is_reduce};
ghost use Rattle.mr_ids.specs.Text.{numeral, attempt_text, IsAttempt};
ghost use Rattle.mr_history.specs.Line.{whole_line, IsRecordOf};
ghost use Rattle.mr_out_layout.specs.inner.Names.{front_text, attempt_of};

use mr_history::Record;
use mr_ids::{AttemptId, JobId, TaskId, TaskKind};
use std::alloc::{AllocError, Global};
use std::marker::Model;

/// What the lines of a job's attempts at reduces begin with.
#[derive(Drop)]
pub(crate) struct Front {
    job: JobId,
    text: String,
}

impl Model for Front {
    ghost use Rattle.std.specs.Prelude.{◌≡◌};
    ghost use Rattle.std.specs.String.{string_bytes};
    ghost use Rattle.mr_ids.specs.declared.id.JobId.{JobId};
    ghost use Rattle.mr_out_layout.specs.inner.Names.{front_text};

    ghost Value = { JobId };

    ghost view = { λ f. f.job };

    ghost invariant = { λ f. string_bytes f.text ≡ front_text f.job };
}

impl Front {
    /// What the lines of this job's attempts begin with.
    pub(crate) fn of(alloc: Global, job: JobId) -> Result<Front, AllocError>
        ensures { IfOk result (λ front. front ≡ job) }
    {
        let JobId { start, number } = job;
        let text = format!(in alloc; "{{\"attempt\":\"attempt_{start}_{number:04}_r_")?;
        Ok(Front { job, text })
    }

    /// The record of the line with which bytes begin, and the bytes behind it, if it is such a line.
    pub(crate) fn split<'a>(&self, bytes: &'a [u8]) -> Option<(Record, &'a [u8])>
        ensures { IfSome result (λ p. (bytes.now ≡ whole_line p.0 ++ p.1.now) × IsRecordOf 1 p.0) }
    {
        let numbers = after(bytes, self.text.as_str())?;
        record_in(self.job, numbers)
    }
}

// The record of a line of this job's attempts, by what stands behind its front.
fn record_in<'a>(job: JobId, numbers: &'a [u8]) -> Option<(Record, &'a [u8])>
    ensures { IfSome result (λ p. (front_text job ++ numbers.now ≡ whole_line p.0 ++ p.1.now) × IsRecordOf 1 p.0) }
{
    let (task, rest) = numeral_before(numbers, b'_', 6)?;
    let (number, event) = numeral_before(rest, b'"', 1)?;
    told_at(attempt_at(job, task, number)?, event)
}

// The attempt of this number at the reduce of this number.
fn attempt_at(job: JobId, task: u32, number: u32) -> Option<AttemptId>
    ensures is { IfSome result (λ a. a ≡ attempt_of job task number) }
    ensures kind { IfSome result (λ a. IsAttempt a × (is_reduce a.task.kind ≡ true)) }
{
    let task = TaskId {
        job,
        kind: TaskKind::Reduce,
        number: task,
    };
    let a = AttemptId::new(task, number)?;
    a.ranges();
    Some(a)
}

// What happened at an attempt, by what stands behind its name's quotation mark.
fn told_at<'a>(attempt: AttemptId, event: &'a [u8]) -> Option<(Record, &'a [u8])>
    requires ranges { IsAttempt attempt }
    requires kind { is_reduce attempt.task.kind ≡ true }
    ensures { IfSome result (λ p. (codes "{\"attempt\":\"" ++ (attempt_text attempt ++ 34 ∷ event.now) ≡ whole_line p.0 ++ p.1.now) × IsRecordOf 1 p.0) }
{
    if let Some(rest) = after(event, ",\"event\":\"started\",\"node\":0}\n") {
        return Some((Record::AttemptStarted { attempt, node: 0 }, rest));
    }
    if let Some(rest) = after(event, ",\"event\":\"reduce\"}\n") {
        return Some((
            Record::ReduceSucceeded {
                attempt,
                bytes: None,
            },
            rest,
        ));
    }
    let rest = after(event, ",\"event\":\"failed\"}\n")?;
    Some((Record::AttemptFailed { attempt }, rest))
}

// The bytes behind this text, if they begin with it.
fn after<'a>(bytes: &'a [u8], text: &str) -> Option<&'a [u8]>
    ensures { MatchOption result ((rest : List ℕ) → bytes.now ≢ text.now ++ rest) (λ x. bytes.now ≡ text.now ++ x.now) }
{
    bytes.strip_prefix(text.as_bytes())
}

// The number with which bytes begin, spelled in at least so many digits, and the bytes behind the byte that ends it.
fn numeral_before<'a>(bytes: &'a [u8], end: u8, width: usize) -> Option<(u32, &'a [u8])>
    requires { 1 ≤ width }
    ensures { IfSome result (λ p. bytes.now ≡ numeral width p.0 ++ end ∷ p.1.now) }
{
    let (digits, rest) = cut(bytes, end)?;
    Some((spelled(digits, width)?, rest))
}

// The bytes before the first of these bytes, and those behind it.
fn cut<'a>(bytes: &'a [u8], end: u8) -> Option<(&'a [u8], &'a [u8])>
    ensures { IfSome result (λ p. bytes.now ≡ p.0.now ++ end ∷ p.1.now) }
{
    let at = bytes.iter().position(|byte| *byte == end)?;
    Some((&bytes[..at], &bytes[at + 1..]))
}

// The number that has this spelling, in at least so many digits.
fn spelled(bytes: &[u8], width: usize) -> Option<u32>
    requires { 1 ≤ width }
    ensures { IfSome result (λ n. bytes.now ≡ numeral width n) }
{
    let n = digits(bytes)?;
    if is_spelled(bytes, width) {
        Some(n)
    } else {
        None
    }
}

// Whether digits have at least the width, and no zero beyond it.
fn is_spelled(bytes: &[u8], width: usize) -> bool
    requires wide { 1 ≤ width }
    requires digits { list_all is_ascii_digit bytes.now ≡ true }
    ensures { result ≡ is_spelled width bytes.now }
{
    bytes.len() == width || (bytes.len() > width && bytes[0] != b'0')
}

// The number that digits write, where it fits; nothing where another byte is among them.
fn digits(bytes: &[u8]) -> Option<u32>
    ensures all { IfSome result (λ n. list_all is_ascii_digit bytes.now ≡ true) }
    ensures value { IfSome result (λ n. n ≡ digits_value 10 bytes.now) }
{
    let mut value = 0u32;
    let mut rest = bytes;
    while let Some((byte, others)) = rest.split_first() {
        value = with_digit(value, *byte)?;
        rest = others;
    }
    Some(value)
}

// The number with one digit more, where it fits; nothing where the byte is none.
fn with_digit(value: u32, byte: u8) -> Option<u32>
    ensures { IfSome result (λ n. (is_ascii_digit byte ≡ true) × (n ≡ value * 10 + digit_value byte)) }
{
    if !byte.is_ascii_digit() {
        return None;
    }
    value.checked_mul(10)?.checked_add((byte - b'0') as u32)
}
