//! What is printed of a directory as text.
ghost use Rattle.std.specs.Prelude.{◌≡◌, ◌++◌, decimal, map, OnOk};
ghost use Rattle.std.specs.List.{flat_map};
ghost use Rattle.mr_out_check.specs.Report.{answer_line, ends_words, note_line, number_line, numbers_text, premise_line, premise_words, reason_line, report, shown, shown_byte, told_standing, word_if};
ghost use Rattle.mr_out_check.specs.Seen.{as_noted};
ghost use Rattle.mr_out_check.specs.Verdicts.{premises};

use crate::numbers::{first_double, first_missing};
use crate::premise::{PREMISES, Premise, Standing};
use crate::seen::{Note, Seen};
use crate::told::Told;
use crate::verdict::{Answer, judge, standing};
use crate::words::{answer_word, broken_reason, class_words, open_reason, premise_word};
use itoa::Buffer;
use std::alloc::AllocError;

fn shown_byte(byte: u8) -> u8
    ensures { result ≡ shown_byte byte }
{
    if byte < 32 || byte == 127 { b'?' } else { byte }
}

/// A name, its control bytes shown as question marks. It fails where there is no memory.
pub fn put_shown(out: &mut Vec<u8>, name: &[u8]) -> Result<(), AllocError>
    ensures { OnOk result (out.new.items ≡ out.old.items ++ shown name.now) }
{
    for byte in name {
        out.push(shown_byte(*byte))?;
    }
    Ok(())
}

fn put_number(out: &mut Vec<u8>, number: u64) -> Result<(), AllocError>
    ensures { OnOk result (out.new.items ≡ out.old.items ++ decimal number) }
{
    let mut buffer = Buffer::new();
    out.extend_from_slice(buffer.format(number).as_bytes())
}

// How a premise stands that is named beside the answer.
fn told_standing(answer: Answer) -> Standing
    ensures { result ≡ told_standing answer }
{
    match answer {
        Answer::Yes | Answer::No => Standing::Broken,
        Answer::ItDepends => Standing::Open,
    }
}

// A blank and the premise, if it stands so.
fn put_word_if(
    out: &mut Vec<u8>,
    at: Standing,
    seen: &Seen,
    told: &Told,
    premise: Premise,
) -> Result<(), AllocError>
    ensures { OnOk result (out.new.items ≡ out.old.items ++ word_if at seen.now told.now premise) }
{
    if standing(premise, seen, told).is(at) {
        out.push(b' ')?;
        out.extend_from_slice(premise_word(premise).as_bytes())
    } else {
        Ok(())
    }
}

fn put_words(out: &mut Vec<u8>, at: Standing, seen: &Seen, told: &Told) -> Result<(), AllocError>
    ensures { OnOk result (out.new.items ≡ out.old.items ++ premise_words at seen.now told.now) }
{
    put_words_of(out, &PREMISES, at, seen, told)
}

fn put_words_of(
    out: &mut Vec<u8>,
    premises: &[Premise],
    at: Standing,
    seen: &Seen,
    told: &Told,
) -> Result<(), AllocError>
    ensures { OnOk result (out.new.items ≡ out.old.items ++ flat_map (word_if at seen.now told.now) premises.now) }
{
    for premise in premises {
        put_word_if(out, at, seen, told, *premise)?;
    }
    Ok(())
}

// The premises behind the answer, and the end of its line.
fn put_end(out: &mut Vec<u8>, answer: Answer, seen: &Seen, told: &Told) -> Result<(), AllocError>
    ensures { OnOk result (out.new.items ≡ out.old.items ++ ends_words answer (premise_words (told_standing answer) seen.now told.now)) }
{
    if answer != Answer::Yes {
        out.push(b':')?;
        put_words(out, told_standing(answer), seen, told)?;
    }
    out.push(b'\n')?;
    Ok(())
}

/// The answer in one line: the answer, the directory as it is called, and the premises that are broken, or else those that are open. It fails where there is
/// no memory.
pub fn put_line(out: &mut Vec<u8>, dir: &[u8], seen: &Seen, told: &Told) -> Result<(), AllocError>
    ensures { OnOk result (out.new.items ≡ out.old.items ++ answer_line dir.now seen.now told.now) }
{
    let answer = judge(seen, told);
    out.extend_from_slice(answer_word(answer).as_bytes())?;
    out.extend_from_slice(b": ")?;
    put_shown(out, dir)?;
    put_end(out, answer, seen, told)
}

// What came of a class.
fn put_note(out: &mut Vec<u8>, note: &Note) -> Result<(), AllocError>
    ensures { OnOk result (out.new.items ≡ out.old.items ++ note_line (as_noted note.now)) }
{
    out.extend_from_slice(b"  ")?;
    out.extend_from_slice(class_words(note.class).as_bytes())?;
    out.extend_from_slice(b": ")?;
    put_number(out, note.count)?;
    out.extend_from_slice(b", first ")?;
    put_shown(out, &note.first)?;
    out.extend_from_slice(b"\n")
}

/// What came, a line for each class. It fails where there is no memory.
pub fn put_notes(out: &mut Vec<u8>, notes: &[Note]) -> Result<(), AllocError>
    ensures { OnOk result (out.new.items ≡ out.old.items ++ flat_map note_line (map as_noted notes.now)) }
{
    for note in notes {
        put_note(out, note)?;
    }
    Ok(())
}

// A number, if there is one, behind what it is.
fn put_number_line(out: &mut Vec<u8>, what: &[u8], number: Option<u64>) -> Result<(), AllocError>
    ensures { OnOk result (out.new.items ≡ out.old.items ++ number_line what.now number) }
{
    let Some(number) = number else {
        return Ok(());
    };
    out.extend_from_slice(what)?;
    put_number(out, number)?;
    out.extend_from_slice(b"\n")
}

fn put_numbers(out: &mut Vec<u8>, seen: &Seen, told: &Told) -> Result<(), AllocError>
    ensures { OnOk result (out.new.items ≡ out.old.items ++ numbers_text seen.now told.now) }
{
    let missing = first_missing(seen.tally(), told.tasks);
    put_number_line(out, b"  first number that is missing: ", missing)?;
    put_number_line(
        out,
        b"  first number that comes twice: ",
        first_double(seen.tally()),
    )
}

fn put_reason(out: &mut Vec<u8>, premise: Premise, reason: &str) -> Result<(), AllocError>
    ensures { OnOk result (out.new.items ≡ out.old.items ++ reason_line premise reason.now) }
{
    out.extend_from_slice(b"  ")?;
    out.extend_from_slice(premise_word(premise).as_bytes())?;
    out.extend_from_slice(b": ")?;
    out.extend_from_slice(reason.as_bytes())?;
    out.extend_from_slice(b"\n")
}

// A premise that is not met, and why.
fn put_premise(
    out: &mut Vec<u8>,
    seen: &Seen,
    told: &Told,
    premise: Premise,
) -> Result<(), AllocError>
    ensures { OnOk result (out.new.items ≡ out.old.items ++ premise_line seen.now told.now premise) }
{
    match standing(premise, seen, told) {
        Standing::Met => Ok(()),
        Standing::Open => put_reason(out, premise, open_reason(premise)),
        Standing::Broken => put_reason(out, premise, broken_reason(premise)),
    }
}

fn put_premises(out: &mut Vec<u8>, seen: &Seen, told: &Told) -> Result<(), AllocError>
    ensures { OnOk result (out.new.items ≡ out.old.items ++ flat_map (premise_line seen.now told.now) premises) }
{
    put_premises_of(out, &PREMISES, seen, told)
}

fn put_premises_of(
    out: &mut Vec<u8>,
    premises: &[Premise],
    seen: &Seen,
    told: &Told,
) -> Result<(), AllocError>
    ensures { OnOk result (out.new.items ≡ out.old.items ++ flat_map (premise_line seen.now told.now) premises.now) }
{
    for premise in premises {
        put_premise(out, seen, told, *premise)?;
    }
    Ok(())
}

/// The answer in one line, then what was seen, and each premise that is not met, in lines that begin with blanks. It fails where there is no memory.
pub fn put_report(out: &mut Vec<u8>, dir: &[u8], seen: &Seen, told: &Told) -> Result<(), AllocError>
    ensures { OnOk result (out.new.items ≡ out.old.items ++ report dir.now seen.now told.now) }
{
    put_line(out, dir, seen, told)?;
    put_notes(out, seen.notes())?;
    put_numbers(out, seen, told)?;
    put_premises(out, seen, told)
}
