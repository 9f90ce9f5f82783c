//! What is printed of a directory as JSON.
ghost use Rattle.std.specs.Prelude.{◌≡◌, ◌++◌, IfOk, OnOk, map};
ghost use Rattle.mr_out_check.specs.Json.{answer_members, note_object, number_or_null, report_json, seen_members, words_at};
ghost use Rattle.mr_out_check.specs.Seen.{as_noted};
ghost use Rattle.mr_sim_json.specs.Members.{object_of, with_all};
ghost use Rattle.serde_json.specs.View.{members_view, view};

use crate::numbers::{first_double, first_missing};
use crate::premise::{PREMISES, Premise, Standing};
use crate::seen::{Note, Seen};
use crate::told::Told;
use crate::verdict::{judge, standing};
use crate::words::{answer_word, class_words, premise_word};
use mr_sim_json::{Object, into_value, put_count, put_line, put_list, put_text, put_word};
use serde_json::{Value, put};
use std::alloc::{AllocError, Global};

// The premises that stand so.
fn words_at(
    alloc: Global,
    premises: &[Premise],
    at: Standing,
    seen: &Seen,
    told: &Told,
) -> Result<Vec<Value>, AllocError>
    ensures { IfOk result (λ all. map view all.items ≡ words_at at seen.now told.now premises.now) }
{
    let mut words = Vec::new(alloc);
    for premise in premises {
        if standing(*premise, seen, told).is(at) {
            words.push(Value::try_from_str(alloc, premise_word(*premise))?)?;
        }
    }
    Ok(words)
}

fn note_value(alloc: Global, note: &Note) -> Result<Value, AllocError>
    ensures { IfOk result (λ v. view v ≡ note_object (as_noted note.now)) }
{
    let mut object = Object::new(alloc);
    put_word(&mut object, alloc, "class", class_words(note.class))?;
    put_count(&mut object, alloc, "count", note.count)?;
    put_text(&mut object, alloc, "first", &note.first)?;
    Ok(into_value(object))
}

/// What came, an object of JSON for each class. It fails where there is no memory.
pub fn note_values(alloc: Global, notes: &[Note]) -> Result<Vec<Value>, AllocError>
    ensures { IfOk result (λ all. map view all.items ≡ map note_object (map as_noted notes.now)) }
{
    let mut values = Vec::new(alloc);
    for note in notes {
        let value = note_value(alloc, note)?;
        values.push(value)?;
    }
    Ok(values)
}

fn number_or_null(number: Option<u64>) -> Value
    ensures { view result ≡ number_or_null number }
{
    match number {
        Some(number) => Value::from(number),
        None => Value::Null,
    }
}

// The answer, the directory, and the premises that are not met.
fn put_answer(
    object: &mut Object,
    alloc: Global,
    dir: &[u8],
    seen: &Seen,
    told: &Told,
) -> Result<(), AllocError>
    ensures { OnOk result (members_view object.new.entries ≡ with_all (answer_members dir.now seen.now told.now) (members_view object.old.entries)) }
{
    put_word(object, alloc, "answer", answer_word(judge(seen, told)))?;
    put_text(object, alloc, "dir", dir)?;
    let broken = words_at(alloc, &PREMISES, Standing::Broken, seen, told)?;
    put_list(object, alloc, "broken", broken)?;
    let open = words_at(alloc, &PREMISES, Standing::Open, seen, told)?;
    put_list(object, alloc, "open", open)
}

// What was seen.
fn put_seen(object: &mut Object, alloc: Global, seen: &Seen, told: &Told) -> Result<(), AllocError>
    ensures { OnOk result (members_view object.new.entries ≡ with_all (seen_members seen.now told.now) (members_view object.old.entries)) }
{
    let notes = note_values(alloc, seen.notes())?;
    put_list(object, alloc, "seen", notes)?;
    let missing = number_or_null(first_missing(seen.tally(), told.tasks));
    put(object, alloc, "missing", missing)?;
    let twice = number_or_null(first_double(seen.tally()));
    put(object, alloc, "twice", twice)
}

#[tactic(auto, using(crate::proofs::Plain::report_is))]
fn report_value(alloc: Global, dir: &[u8], seen: &Seen, told: &Told) -> Result<Value, AllocError>
    ensures { IfOk result (λ v. view v ≡ object_of (answer_members dir.now seen.now told.now ++ seen_members seen.now told.now)) }
{
    let mut object = Object::new(alloc);
    put_answer(&mut object, alloc, dir, seen, told)?;
    put_seen(&mut object, alloc, seen, told)?;
    Ok(into_value(object))
}

/// The answer, the premises that are not met, and what was seen, as a line of JSON. Bytes of a name that are no UTF-8 are replaced. It fails where there is
/// no memory.
pub fn put_json(
    out: &mut Vec<u8>,
    alloc: Global,
    dir: &[u8],
    seen: &Seen,
    told: &Told,
) -> Result<(), AllocError>
    ensures { OnOk result (out.new.items ≡ out.old.items ++ report_json dir.now seen.now told.now) }
{
    let value = report_value(alloc, dir, seen, told)?;
    put_line(out, alloc, &value)
}
