//! A call of the namespace as a line.
ghost use Rattle.std.specs.Prelude.{◌≡◌, ◌++◌, ◌∷◌, [], IfOk, IfSome, OnOk, List, ℕ, Some, All, codes, flat_map};
ghost use Rattle.mr_ids.specs.Attempt.{Attempt};
ghost use Rattle.mr_ids.specs.Text.{IsAttempt, attempt_text};
ghost use Rattle.mr_paths.specs.Path.{IsName};
ghost use Rattle.mr_paths.specs.Text.{path_text};
ghost use Rattle.mr_names.specs.declared.op.Op as spec;
ghost use Rattle.mr_names.specs.declared.op.Op.TheVariants as spec_op;
ghost use Rattle.mr_call_words.specs.Words.{IsCall, IsPath, ReadsCall, call_line, call_words, closed_words, word};
ghost use Rattle.mr_call_words.specs.inner.Opening.{call_at, call_opening, call_rest};

use crate::opening::{Opening, opening_named};
use crate::path::{path_in, path_text};
use crate::word::{fits, put_first, put_next, words_in};
use mr_ids::{AttemptId, Bytes};
use mr_names::Op;
use mr_paths::Path;
use mr_script::attempt;
use std::alloc::{AllocError, Global};

/// The line of a call, without a line feed.
#[tactic(auto, unfolding(crate::specs::Words::call_line))]
pub fn put_call(out: &mut Vec<u8>, call: &Op) -> Result<(), AllocError>
    ensures { OnOk result (out.new.items ≡ out.old.items ++ call_line call.now) }
{
    match call {
        Op::Mkdirs(path) => put_of_path(out, b"mkdirs", path),
        Op::Create { path, closed } => {
            put_of_path(out, b"create", path)?;
            put_closed(out, *closed)
        }
        Op::Append { path, bytes } => {
            put_of_path(out, b"append", path)?;
            put_next(out, bytes.as_slice())
        }
        Op::Close(path) => put_of_path(out, b"close", path),
        Op::Delete(path) => put_of_path(out, b"delete", path),
        Op::Rename { from, to } => {
            put_of_path(out, b"rename", from)?;
            put_path(out, to)
        }
        Op::List(path) => put_of_path(out, b"list", path),
        Op::Exists(path) => put_of_path(out, b"exists", path),
        Op::Read(path) => put_of_path(out, b"read", path),
        Op::Bar(attempt) => put_bar(out, attempt),
    }
}

// The first word, and a path.
fn put_of_path(out: &mut Vec<u8>, first: &[u8], path: &Path) -> Result<(), AllocError>
    ensures { OnOk result (out.new.items ≡ out.old.items ++ (word first.now ++ 32 ∷ word (path_text path.now))) }
{
    put_first(out, first)?;
    put_path(out, path)
}

fn put_path(out: &mut Vec<u8>, path: &Path) -> Result<(), AllocError>
    ensures { OnOk result (out.new.items ≡ out.old.items ++ 32 ∷ word (path_text path.now)) }
{
    let text = path_text(*out.allocator(), path)?;
    put_next(out, &text)
}

fn put_closed(out: &mut Vec<u8>, closed: bool) -> Result<(), AllocError>
    ensures { OnOk result (out.new.items ≡ out.old.items ++ flat_map (λ bytes. 32 ∷ word bytes) (closed_words closed)) }
{
    if closed {
        put_next(out, b"closed")
    } else {
        Ok(())
    }
}

fn put_bar(out: &mut Vec<u8>, attempt: &AttemptId) -> Result<(), AllocError>
    ensures { OnOk result (out.new.items ≡ out.old.items ++ (word (codes "bar") ++ 32 ∷ word (attempt_text attempt.now))) }
{
    let mut text = Vec::new(*out.allocator());
    attempt.write(&mut text)?;
    put_first(out, b"bar")?;
    put_next(out, &text)
}

/// The call that the line is written as, if there is one.
#[tactic(auto, using(crate::proofs::Found::call_found))]
pub fn call_in(alloc: Global, line: &[u8]) -> Result<Option<Op>, AllocError>
    ensures { IfOk result (λ found. ReadsCall line.now found) }
{
    let words = words_in(alloc, line)?;
    let Some(call) = likely_call(alloc, &words)? else {
        return Ok(None);
    };
    let mut written = Vec::new(alloc);
    put_call(&mut written, &call)?;
    if written.as_slice() == line {
        Ok(Some(call))
    } else {
        Ok(None)
    }
}

// The call that has these words, if one has. Else none, or some call that has others.
fn likely_call(alloc: Global, words: &[Bytes]) -> Result<Option<Op>, AllocError>
    ensures fits { IfOk result (λ found. IfSome found IsCall) }
    ensures only { IfOk result (λ found. (call : spec.Op) → IsCall call → words.now ≡ call_words call → found ≡ Some call) }
{
    let Some((first, rest)) = words.split_first() else {
        return Ok(None);
    };
    match opening_named(first.as_slice()) {
        Some(opening) => call_of_rest(alloc, opening, rest),
        None => Ok(None),
    }
}

// The call that has this first word, and these behind it.
fn call_of_rest(alloc: Global, opening: Opening, rest: &[Bytes]) -> Result<Option<Op>, AllocError>
    ensures fits { IfOk result (λ found. IfSome found IsCall) }
    ensures only { IfOk result (λ found. (call : spec.Op) → IsCall call → opening ≡ call_opening call → rest.now ≡ call_rest call → found ≡ Some call) }
{
    match rest {
        [word] => call_of_one(alloc, opening, word.as_slice()),
        [word, next] => call_of_two(alloc, opening, word.as_slice(), next.as_slice()),
        _ => Ok(None),
    }
}

// The call that has this first word, and one behind it.
fn call_of_one(alloc: Global, opening: Opening, word: &[u8]) -> Result<Option<Op>, AllocError>
    ensures fits { IfOk result (λ found. IfSome found IsCall) }
    ensures only { IfOk result (λ found. (call : spec.Op) → IsCall call → opening ≡ call_opening call → word.now ∷ [] ≡ call_rest call → found ≡ Some call) }
{
    if opening == Opening::Bar {
        return Ok(bar_of(word));
    }
    match path_in(alloc, word)? {
        Some(path) => Ok(call_of_path(opening, path)),
        None => Ok(None),
    }
}

// The bar of the attempt that this word names.
fn bar_of(word: &[u8]) -> Option<Op>
    ensures fits { IfSome result IsCall }
    ensures only { (a : Attempt) → IsAttempt a → word.now ≡ attempt_text a → result ≡ Some (spec_op.Bar a) }
{
    match attempt(word) {
        Some(attempt) => Some(Op::Bar(attempt)),
        None => None,
    }
}

// The call that has this first word, and a path behind it.
fn call_of_path(opening: Opening, path: Path) -> Option<Op>
    requires { IsPath path }
    ensures fits { IfSome result IsCall }
    ensures only { result ≡ call_at opening path }
{
    match opening {
        Opening::Mkdirs => Some(Op::Mkdirs(path)),
        Opening::Create => Some(Op::Create {
            path,
            closed: false,
        }),
        Opening::Close => Some(Op::Close(path)),
        Opening::Delete => Some(Op::Delete(path)),
        Opening::List => Some(Op::List(path)),
        Opening::Exists => Some(Op::Exists(path)),
        Opening::Read => Some(Op::Read(path)),
        _ => None,
    }
}

// The call that has this first word, and two behind it.
fn call_of_two(
    alloc: Global,
    opening: Opening,
    word: &[u8],
    next: &[u8],
) -> Result<Option<Op>, AllocError>
    ensures fits { IfOk result (λ found. IfSome found IsCall) }
    ensures only { IfOk result (λ found. (call : spec.Op) → IsCall call → opening ≡ call_opening call → word.now ∷ next.now ∷ [] ≡ call_rest call → found ≡ Some call) }
{
    let Some(path) = path_in(alloc, word)? else {
        return Ok(None);
    };
    match opening {
        Opening::Create => Ok(Some(Op::Create { path, closed: true })),
        Opening::Append => append_of(alloc, path, next),
        Opening::Rename => rename_of(alloc, path, next),
        _ => Ok(None),
    }
}

// These bytes appended at a path.
fn append_of(alloc: Global, path: Path, bytes: &[u8]) -> Result<Option<Op>, AllocError>
    requires { IsPath path }
    ensures fits { IfOk result (λ found. IfSome found IsCall) }
    ensures only { IfOk result (λ found. found ≡ Some (spec_op.Append path bytes.now)) }
{
    fits(bytes);
    let bytes = Bytes::from_slice(alloc, bytes)?;
    Ok(Some(Op::Append { path, bytes }))
}

// The rename of a path to the one that this word is.
fn rename_of(alloc: Global, from: Path, word: &[u8]) -> Result<Option<Op>, AllocError>
    requires { IsPath from }
    ensures fits { IfOk result (λ found. IfSome found IsCall) }
    ensures only { IfOk result (λ found. (to : List (List ℕ)) → All IsName to → word.now ≡ path_text to → found ≡ Some (spec_op.Rename from to)) }
{
    match path_in(alloc, word)? {
        Some(to) => Ok(Some(Op::Rename { from, to })),
        None => Ok(None),
    }
}
