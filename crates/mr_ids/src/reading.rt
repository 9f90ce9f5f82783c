//! The fields of an identifier's text, read from the left.
ghost use Rattle.std.specs.Prelude.{◌≡◌, ◌≤◌, ◌+◌, [], ◌∷◌, if◌then◌else◌, MatchOption, IfOk, IsTrue};
ghost use Rattle.std.specs.List.{list_all};
ghost use Rattle.std.specs.Char.{is_ascii_digit};
ghost use Rattle.std.specs.Str.Parse.{digits_value};
ghost use Rattle.mr_ids.specs.Text.{letter, numeral, job_fields, task_fields};
ghost use Rattle.mr_ids.specs.Faults.{Word, Number, Letter, job_numbers, task_numbers, is_number, is_spelled};
ghost use Rattle.mr_ids.specs.Reading.{fields_left, Takes, TakesAll};

use crate::fault::IdFault;
use crate::id::{JobId, TaskId, TaskKind};

// The next field, and the text after it where a bar ended it.
fn next_field<'a>(rest: Option<&'a str>) -> Option<(&'a str, Option<&'a str>)>
    ensures { MatchOption result (fields_left rest.entry ≡ [])
        (λ x. fields_left rest.entry ≡ x.0.now ∷ fields_left x.1) }
{
    let text = rest?;
    match text.split_once('_') {
        Some((field, after)) => Some((field, Some(after))),
        None => Some((text, None)),
    }
}

/// Reads the word that begins a text.
pub fn word<'a>(text: &'a str, word: &str) -> Result<Option<&'a str>, IdFault>
    ensures { Takes (Word word.now ∷ []) (λ _. word.now ∷ []) fields_left
        (fields_left (Some text.entry)) result }
{
    match next_field(Some(text)) {
        Some((field, rest)) if field == word => Ok(rest),
        _ => Err(IdFault::Prefix),
    }
}

/// Reads the letter of a task's kind.
pub fn kind<'a>(rest: Option<&'a str>) -> Result<(TaskKind, Option<&'a str>), IdFault>
    ensures { Takes (Letter ∷ []) (λ x. letter x.0 ∷ []) (λ x. fields_left x.1)
        (fields_left rest.entry) result }
{
    match next_field(rest) {
        Some(("m", rest)) => Ok((TaskKind::Map, rest)),
        Some(("r", rest)) => Ok((TaskKind::Reduce, rest)),
        _ => Err(IdFault::Kind),
    }
}

/// Reads a number that is spelled in at least `width` digits, and is at most `most`.
pub fn number<'a>(
    rest: Option<&'a str>,
    width: usize,
    most: u64,
) -> Result<(u64, Option<&'a str>), IdFault>
    requires { 1 ≤ width }
    ensures read { Takes (Number width (most + 1) ∷ []) (λ x. numeral width x.0 ∷ [])
        (λ x. fields_left x.1) (fields_left rest.entry) result }
    ensures bound { IfOk result (λ x. x.0 ≤ most) }
{
    let (field, rest) = next_field(rest).ok_or(IdFault::Number)?;
    let value = number_in(field, most).ok_or(IdFault::Number)?;
    if is_spelled(field, width) {
        Ok((value, rest))
    } else {
        Err(IdFault::Width)
    }
}

/// Reads the end of a text.
pub fn end(rest: Option<&str>) -> Result<(), IdFault>
    ensures { TakesAll [] (λ _. []) (fields_left rest.entry) result }
{
    match next_field(rest) {
        Some(_) => Err(IdFault::Trailing),
        None => Ok(()),
    }
}

/// Reads the numbers of a job.
pub fn job<'a>(rest: Option<&'a str>) -> Result<(JobId, Option<&'a str>), IdFault>
    ensures { Takes job_numbers (λ x. job_fields x.0) (λ x. fields_left x.1)
        (fields_left rest.entry) result }
{
    let (start, rest) = number(rest, 1, u64::MAX)?;
    let (job, rest) = number(rest, 4, u32::MAX as u64)?;
    let number = job as u32;
    Ok((JobId { start, number }, rest))
}

/// Reads the job, the kind and the number of a task.
pub fn task<'a>(rest: Option<&'a str>) -> Result<(TaskId, Option<&'a str>), IdFault>
    ensures { Takes task_numbers (λ x. task_fields x.0) (λ x. fields_left x.1)
        (fields_left rest.entry) result }
{
    let (job, rest) = job(rest)?;
    let (kind, rest) = kind(rest)?;
    let (task, rest) = number(rest, 6, u32::MAX as u64)?;
    let number = task as u32;
    Ok((TaskId { job, kind, number }, rest))
}

// The number that a field of digits writes, if it is at most `most`.
fn number_in(field: &str, most: u64) -> Option<u64>
    ensures { result ≡ (if is_number (most + 1) field.now then Some (digits_value 10 field.now) else None) }
{
    if !is_digits(field) {
        return None;
    }
    match field.parse::<u64>() {
        Ok(value) => { if value <= most { Some(value) } else { None } }
        Err(_) => None,
    }
}

fn is_digits(field: &str) -> bool
    ensures { result ≡ list_all is_ascii_digit field.now }
{
    field.bytes().all(|b| b.is_ascii_digit())
}

// Whether digits have at least the width, and no zero beyond it.
fn is_spelled(field: &str, width: usize) -> bool
    requires wide { 1 ≤ width }
    requires digits { IsTrue (list_all is_ascii_digit field.now) }
    ensures { result ≡ is_spelled width field.now }
{
    let bytes = field.as_bytes();
    bytes.len() == width || (bytes.len() > width && bytes[0] != b'0')
}
