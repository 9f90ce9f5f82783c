//! An answer of the namespace as a line.
ghost use Rattle.std.specs.Prelude.{◌≡◌, ◌++◌, ◌∷◌, ◌<◌, ◌^◌, [], IfOk, IfSome, OnOk, List, ℕ, Some, Ok, Err, Result, All, codes, decimal, flat_map, map};
ghost use Rattle.std.specs.Prelude.{◌≢◌};
ghost use Rattle.mr_paths.specs.Path.{IsName};
ghost use Rattle.mr_names_tree.specs.declared.node.Entry as entry;
ghost use Rattle.mr_names_tree.specs.declared.node.Kind as kind;
ghost use Rattle.mr_names_tree.specs.declared.node.Kind.TheVariants.{Dir, File};
ghost use Rattle.mr_names.specs.declared.fault.NameFault as fault;
ghost use Rattle.mr_names.specs.declared.fault.NameFault.TheVariants.{Superseded};
ghost use Rattle.mr_names.specs.declared.op.Answer as spec;
ghost use Rattle.mr_names.specs.declared.op.Answer.TheVariants.{Contents, Found, Listed};
ghost use Rattle.mr_call_words.specs.Words.{IsAnswer, IsEntry, ReadsAnswer, answer_line, answer_words, entry_text, fault_words, kind_mark, line_of, word};
ghost use Rattle.mr_call_words.specs.inner.Opening.{answer_alone, answer_opening, answer_rest, opening_text};

use crate::opening::{Opening, opening_named};
use crate::word::{fits, put_first, put_next, words_in};
use itoa::Buffer;
use mr_ids::Bytes;
use mr_names::{Answer, Entries, Entry, Kind, NameFault};
use mr_paths::{Name, PathFault};
use mr_script::number;
use std::alloc::{AllocError, Global};

/// The line of an answer, without a line feed.
#[tactic(auto, unfolding(crate::specs::Words::answer_line))]
pub fn put_answer(out: &mut Vec<u8>, answer: &Result<Answer, NameFault>) -> Result<(), AllocError>
    ensures { OnOk result (out.new.items ≡ out.old.items ++ answer_line answer.now) }
{
    match answer {
        Ok(Answer::Done) => put_first(out, b"done"),
        Ok(Answer::Listed(entries)) => put_listed(out, entries),
        Ok(Answer::Found(None)) => put_first(out, b"nothing"),
        Ok(Answer::Found(Some(Kind::Dir))) => put_two(out, b"a", b"directory"),
        Ok(Answer::Found(Some(Kind::File))) => put_two(out, b"a", b"file"),
        Ok(Answer::Contents(bytes)) => put_two(out, b"bytes", bytes.as_slice()),
        Err(fault) => put_fault(out, *fault),
    }
}

// The first word, and one more.
fn put_two(out: &mut Vec<u8>, first: &[u8], next: &[u8]) -> Result<(), AllocError>
    ensures { OnOk result (out.new.items ≡ out.old.items ++ line_of (first.now ∷ next.now ∷ [])) }
{
    put_first(out, first)?;
    put_next(out, next)
}

// What a directory lists.
#[tactic(auto, using(crate::proofs::Found::entries_apart))]
fn put_listed(out: &mut Vec<u8>, entries: &Entries) -> Result<(), AllocError>
    ensures { OnOk result (out.new.items ≡ out.old.items ++ line_of (codes "entries" ∷ map entry_text entries.now)) }
{
    put_first(out, b"entries")?;
    put_entries(out, entries.as_slice())
}

// Each of these entries.
fn put_entries(out: &mut Vec<u8>, entries: &[Entry]) -> Result<(), AllocError>
    ensures { OnOk result (out.new.items ≡ out.old.items ++ flat_map (λ e. 32 ∷ word (entry_text e)) entries.now) }
{
    for entry in entries {
        let text = entry_text(*out.allocator(), entry)?;
        put_next(out, &text)?;
    }
    Ok(())
}

// A name, with a slash behind that of a directory.
fn entry_text(alloc: Global, entry: &Entry) -> Result<Vec<u8>, AllocError>
    ensures { IfOk result (λ text. text.items ≡ entry_text entry.now) }
{
    let mut text = Vec::from_slice(alloc, entry.name.as_bytes())?;
    text.extend_from_slice(kind_mark(entry.kind))?;
    Ok(text)
}

fn kind_mark(kind: Kind) -> &'static [u8]
    ensures { result.now ≡ kind_mark kind }
{
    match kind {
        Kind::Dir => b"/",
        Kind::File => b"",
    }
}

/// The line of a refusal, without a line feed.
pub fn put_fault(out: &mut Vec<u8>, fault: NameFault) -> Result<(), AllocError>
    ensures { OnOk result (out.new.items ≡ out.old.items ++ line_of (fault_words fault)) }
{
    match fault {
        NameFault::Superseded(fence) => put_superseded(out, fence),
        NameFault::Barred => put_first(out, b"Barred"),
        NameFault::Missing => put_first(out, b"Missing"),
        NameFault::Exists => put_first(out, b"Exists"),
        NameFault::NotDir => put_first(out, b"NotDir"),
        NameFault::NotFile => put_first(out, b"NotFile"),
        NameFault::Closed => put_first(out, b"Closed"),
        NameFault::NoParent => put_first(out, b"NoParent"),
        NameFault::IntoItself => put_first(out, b"IntoItself"),
        NameFault::Full => put_first(out, b"Full"),
        NameFault::NoMemory => put_first(out, b"NoMemory"),
    }
}

fn put_superseded(out: &mut Vec<u8>, fence: u32) -> Result<(), AllocError>
    ensures { OnOk result (out.new.items ≡ out.old.items ++ line_of (codes "Superseded" ∷ decimal fence ∷ [])) }
{
    let mut buffer = Buffer::new();
    put_two(out, b"Superseded", buffer.format(fence).as_bytes())
}

/// The answer that the line is written as, if there is one.
#[tactic(auto, using(crate::proofs::Found::answer_found))]
pub fn answer_in(
    alloc: Global,
    line: &[u8],
) -> Result<Option<Result<Answer, NameFault>>, AllocError>
    ensures { IfOk result (λ found. ReadsAnswer line.now found) }
{
    let words = words_in(alloc, line)?;
    let Some(answer) = likely_answer(alloc, &words)? else {
        return Ok(None);
    };
    let mut written = Vec::new(alloc);
    put_answer(&mut written, &answer)?;
    if written.as_slice() == line {
        Ok(Some(answer))
    } else {
        Ok(None)
    }
}

// The answer that has these words, if one has. Else none, or some answer that has others.
fn likely_answer(
    alloc: Global,
    words: &[Bytes],
) -> Result<Option<Result<Answer, NameFault>>, AllocError>
    ensures fits { IfOk result (λ found. IfSome found IsAnswer) }
    ensures only { IfOk result (λ found. (answer : Result spec.Answer fault.NameFault) → IsAnswer answer → words.now ≡ answer_words answer → found ≡ Some answer) }
{
    let Some((first, rest)) = words.split_first() else {
        return Ok(None);
    };
    match opening_named(first.as_slice()) {
        Some(opening) => answer_of_rest(alloc, opening, rest),
        None => Ok(None),
    }
}

// The answer that has this first word, and these behind it.
fn answer_of_rest(
    alloc: Global,
    opening: Opening,
    rest: &[Bytes],
) -> Result<Option<Result<Answer, NameFault>>, AllocError>
    ensures fits { IfOk result (λ found. IfSome found IsAnswer) }
    ensures only { IfOk result (λ found. (answer : Result spec.Answer fault.NameFault) → IsAnswer answer → opening ≡ answer_opening answer → rest.now ≡ answer_rest answer → found ≡ Some answer) }
{
    if opening == Opening::Entries {
        return listed(alloc, rest);
    }
    match rest {
        [] => Ok(answer_alone(opening)),
        [word] => answer_of_one(opening, word),
        _ => Ok(None),
    }
}

// The answer that is this first word alone.
fn answer_alone(opening: Opening) -> Option<Result<Answer, NameFault>>
    ensures fits { IfSome result IsAnswer }
    ensures only { result ≡ answer_alone opening }
{
    match opening {
        Opening::Done => Some(Ok(Answer::Done)),
        Opening::Nothing => Some(Ok(Answer::Found(None))),
        Opening::Barred => Some(Err(NameFault::Barred)),
        Opening::Missing => Some(Err(NameFault::Missing)),
        Opening::AlreadyThere => Some(Err(NameFault::Exists)),
        Opening::NotDir => Some(Err(NameFault::NotDir)),
        Opening::NotFile => Some(Err(NameFault::NotFile)),
        Opening::Closed => Some(Err(NameFault::Closed)),
        Opening::NoParent => Some(Err(NameFault::NoParent)),
        Opening::IntoItself => Some(Err(NameFault::IntoItself)),
        Opening::Full => Some(Err(NameFault::Full)),
        Opening::NoMemory => Some(Err(NameFault::NoMemory)),
        _ => None,
    }
}

// The answer that has this first word, and one behind it.
fn answer_of_one(
    opening: Opening,
    word: &Bytes,
) -> Result<Option<Result<Answer, NameFault>>, AllocError>
    ensures fits { IfOk result (λ found. IfSome found IsAnswer) }
    ensures only { IfOk result (λ found. (answer : Result spec.Answer fault.NameFault) → IsAnswer answer → opening ≢ Opening.Entries → opening ≡ answer_opening answer → word.now ∷ [] ≡ answer_rest answer → found ≡ Some answer) }
{
    match opening {
        Opening::A => Ok(kind_of(word.as_slice())),
        Opening::Bytes => contents_of(word),
        Opening::Superseded => Ok(superseded_by(word.as_slice())),
        _ => Ok(None),
    }
}

// What was read, these bytes.
fn contents_of(word: &Bytes) -> Result<Option<Result<Answer, NameFault>>, AllocError>
    ensures fits { IfOk result (λ found. IfSome found IsAnswer) }
    ensures only { IfOk result (λ found. found ≡ Some (Ok (Contents word.now))) }
{
    fits(word.as_slice());
    let bytes = word.copy()?;
    Ok(Some(Ok(Answer::Contents(bytes))))
}

// What is there, by its word.
fn kind_of(word: &[u8]) -> Option<Result<Answer, NameFault>>
    ensures fits { IfSome result IsAnswer }
    ensures directory { word.now ≡ codes "directory" → result ≡ Some (Ok (Found (Some Dir))) }
    ensures file { word.now ≡ codes "file" → result ≡ Some (Ok (Found (Some File))) }
{
    if word == b"directory".as_slice() {
        Some(Ok(Answer::Found(Some(Kind::Dir))))
    } else {
        Some(Ok(Answer::Found(Some(Kind::File))))
    }
}

// The refusal by this fence.
fn superseded_by(word: &[u8]) -> Option<Result<Answer, NameFault>>
    ensures fits { IfSome result IsAnswer }
    ensures only { (fence : ℕ) → fence < 2 ^ 32 → word.now ≡ decimal fence → result ≡ Some (Err (Superseded fence)) }
{
    match number(word) {
        Some(fence) => Some(Err(NameFault::Superseded(fence))),
        None => None,
    }
}

// What lists these entries.
fn listed(alloc: Global, words: &[Bytes]) -> Result<Option<Result<Answer, NameFault>>, AllocError>
    ensures fits { IfOk result (λ found. IfSome found IsAnswer) }
    ensures only { IfOk result (λ found. (entries : List entry.Entry) → All IsEntry entries → words.now ≡ map entry_text entries → found ≡ Some (Ok (Listed entries))) }
{
    let mut entries = Entries::new(alloc);
    for word in words {
        match entry_in(alloc, word.as_slice())? {
            Some(entry) => entries.push(entry)?,
            None => return Ok(None),
        }
    }
    Ok(Some(Ok(Answer::Listed(entries))))
}

// The entry that has this text, if one has.
fn entry_in(alloc: Global, text: &[u8]) -> Result<Option<Entry>, AllocError>
    ensures fits { IfOk result (λ found. IfSome found IsEntry) }
    ensures only { IfOk result (λ found. (e : entry.Entry) → IsEntry e → text.now ≡ entry_text e → found ≡ Some e) }
{
    match text {
        [front @ .., b'/'] => entry_of(alloc, front, Kind::Dir),
        _ => entry_of(alloc, text, Kind::File),
    }
}

// The entry of this name and kind, if it is a name.
fn entry_of(alloc: Global, bytes: &[u8], kind: Kind) -> Result<Option<Entry>, AllocError>
    ensures fits { IfOk result (λ found. IfSome found IsEntry) }
    ensures only { IfOk result (λ found. IsName bytes.now → found ≡ Some (record { name = bytes.now; kind = kind })) }
{
    fits(bytes);
    match Name::parse(alloc, bytes) {
        Ok(name) => Ok(Some(Entry { name, kind })),
        Err(PathFault::BadName) => Ok(None),
        Err(PathFault::NoMemory) => Err(AllocError),
    }
}
