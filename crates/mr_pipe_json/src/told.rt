//! A line that is read.
ghost use Rattle.std.specs.Prelude.{◌≡◌, IfOk, Some, option_map, option_and_then};
ghost use Rattle.serde_json.specs.Find.{as_str, get};
ghost use Rattle.serde_json.specs.View.{items_view, view};
ghost use Rattle.mr_pipe_json.specs.Form.{joined, key_text, line_in, told_as, words_told};
ghost use Rattle.mr_pipe_json.specs.inner.Joins.{PutsWords};

use crate::key::{Key, key_text};
use mr_pipe::Form;
use serde_json::Value;
use std::alloc::{AllocError, Global};

/// The line that a line in this form tells, if it tells one.
pub fn told_as(
    alloc: Global,
    form: Form,
    key: Key,
    bytes: &[u8],
) -> Result<Option<Vec<u8>>, AllocError>
    ensures { IfOk result (λ line. option_map (λ v. v.items) line ≡ told_as form key bytes.now) }
{
    match form {
        Form::Text => Ok(Some(Vec::from_slice(alloc, bytes)?)),
        Form::Json => object_told(alloc, key, bytes),
    }
}

// The line that a text of JSON tells.
fn object_told(alloc: Global, key: Key, bytes: &[u8]) -> Result<Option<Vec<u8>>, AllocError>
    ensures { IfOk result (λ line. option_map (λ v. v.items) line ≡ told_as Form.Json key bytes.now) }
{
    match Value::from_slice(alloc, bytes) {
        Ok(value) => line_in(alloc, key, &value),
        Err(error) if error.is_memory() => Err(AllocError),
        Err(_) => Ok(None),
    }
}

// The line of an object.
#[tactic(auto, using(crate::proofs::Tells::no_first, crate::proofs::Tells::no_list, crate::proofs::Tells::no_words, crate::proofs::Tells::some_line))]
fn line_in(alloc: Global, key: Key, value: &Value) -> Result<Option<Vec<u8>>, AllocError>
    ensures { IfOk result (λ line. option_map (λ v. v.items) line ≡ line_in key (view value.now)) }
{
    let Some(first) = first_in(value, key) else {
        return Ok(None);
    };
    let mut line = Vec::from_slice(alloc, first.as_bytes())?;
    let Some(list) = value.get("words") else {
        return Ok(Some(line));
    };
    let all = put_list(&mut line, list)?;
    if all { Ok(Some(line)) } else { Ok(None) }
}

// The text at a key.
fn first_in(value: &Value, key: Key) -> Option<&str>
    ensures { option_map (λ text. text.now) result ≡ option_and_then as_str (get (key_text key) (view value.now)) }
{
    value.get(key_text(key)).and_then(Value::as_str)
}

// Puts the words of a list, and tells whether they are words.
fn put_list(out: &mut Vec<u8>, list: &Value) -> Result<bool, AllocError>
    ensures { IfOk result (λ all. PutsWords all out.old.items out.new.items (words_told (Some (view list.now)))) }
{
    match list.as_array() {
        Some(words) => put_words(out, words),
        None => Ok(false),
    }
}

// Puts each of these words behind a space, and tells whether they are words.
fn put_words(out: &mut Vec<u8>, words: &[Value]) -> Result<bool, AllocError>
    ensures { IfOk result (λ all. PutsWords all out.old.items out.new.items (joined (items_view words.now))) }
{
    for word in words {
        let Some(text) = word.as_str() else {
            return Ok(false);
        };
        out.extend_from_slice(b" ")?;
        out.extend_from_slice(text.as_bytes())?;
    }
    Ok(true)
}
