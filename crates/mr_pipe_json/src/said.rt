//! A line that is written.
ghost use Rattle.std.specs.Prelude.{◌≡◌, IfOk, map};
ghost use Rattle.std.specs.List.{slice_split};
ghost use Rattle.serde_json.specs.View.{view};
ghost use Rattle.mr_sim_json.specs.Members.{text};
ghost use Rattle.mr_pipe_json.specs.Form.{is_space, line_object, said_as, words_object};

use crate::key::{Key, key_text};
use mr_pipe::Form;
use mr_script::split_once;
use mr_sim_json::{Object, into_value, put_line, put_list, put_text};
use serde_json::Value;
use std::alloc::{AllocError, Global};

/// A line in a form, with its line feed.
pub fn said_as(alloc: Global, form: Form, key: Key, line: &[u8]) -> Result<Vec<u8>, AllocError>
    ensures { IfOk result (λ said. said.items ≡ said_as form key line.now) }
{
    match form {
        Form::Text => {
            let mut said = Vec::from_slice(alloc, line)?;
            said.push(b'\n')?;
            Ok(said)
        }
        Form::Json => object_line(alloc, key, line),
    }
}

// The object of a line, as a line.
#[tactic(auto, using(crate::proofs::Objects::is_plain))]
fn object_line(alloc: Global, key: Key, line: &[u8]) -> Result<Vec<u8>, AllocError>
    ensures { IfOk result (λ said. said.items ≡ said_as Form.Json key line.now) }
{
    let value = line_value(alloc, key, line)?;
    let mut said = Vec::new(alloc);
    put_line(&mut said, alloc, &value)?;
    Ok(said)
}

#[tactic(auto, using(crate::proofs::Objects::with_words, crate::proofs::Objects::alone))]
fn line_value(alloc: Global, key: Key, line: &[u8]) -> Result<Value, AllocError>
    ensures { IfOk result (λ value. view value ≡ line_object key line.now) }
{
    match split_once(line, b' ') {
        Some((first, rest)) => {
            let words = texts(alloc, rest)?;
            object_value(alloc, key, first, words)
        }
        None => object_value(alloc, key, line, Vec::new(alloc)),
    }
}

// The object of a first word, and of those behind it.
fn object_value(
    alloc: Global,
    key: Key,
    first: &[u8],
    words: Vec<Value>,
) -> Result<Value, AllocError>
    ensures { IfOk result (λ value. view value ≡ words_object key first.now (map view words.items)) }
{
    let mut object = Object::new(alloc);
    put_text(&mut object, alloc, key_text(key), first)?;
    put_list(&mut object, alloc, "words", words)?;
    Ok(into_value(object))
}

// The words of a text, each a value.
fn texts(alloc: Global, rest: &[u8]) -> Result<Vec<Value>, AllocError>
    ensures { IfOk result (λ all. map view all.items ≡ map text (slice_split is_space rest.now)) }
{
    let mut all = Vec::new(alloc);
    for word in rest.split(|b| *b == b' ') {
        all.push(text_value(alloc, word)?)?;
    }
    Ok(all)
}

fn text_value(alloc: Global, word: &[u8]) -> Result<Value, AllocError>
    ensures { IfOk result (λ value. view value ≡ text word.now) }
{
    let text = String::from_utf8_lossy(alloc, word)?;
    Value::try_from_str(alloc, text.as_str())
}
