//! What is printed of a directory.
ghost use Rattle.std.specs.Prelude.{◌≡◌, ◌++◌, IfOk, OnOk, map, flat_map, ◌==◌};
ghost use Rattle.std.specs.List.{list_any};
ghost use Rattle.mr_out_check.specs.Report.{answer_word, shown, shown_byte};
ghost use Rattle.mr_out_winners.specs.Findings.{Found, answer_of, as_found};
ghost use Rattle.mr_out_winners.specs.Printed.{answer_line, came, found_line, place_of, printed, report, word_if, words_behind};

use crate::finding::{Finding, answer_of};
use crate::json::put_json;
use crate::trouble::{TROUBLES, Trouble};
use mr_out_check::{Answer, Shape};
use std::alloc::{AllocError, Global};

// The word for an answer.
pub(crate) fn answer_word(answer: Answer) -> &'static str
    ensures { result.now ≡ answer_word answer }
{
    match answer {
        Answer::Yes => "yes",
        Answer::No => "no",
        Answer::ItDepends => "it depends",
    }
}

fn shown_byte(byte: u8) -> u8
    ensures { result ≡ shown_byte byte }
{
    if byte < 32 || byte == 127 { b'?' } else { byte }
}

// A name, its control bytes shown as question marks.
fn put_shown(out: &mut Vec<u8>, name: &[u8]) -> Result<(), AllocError>
    ensures { OnOk result (out.new.items ≡ out.old.items ++ shown name.now) }
{
    for byte in name {
        out.push(shown_byte(*byte))?;
    }
    Ok(())
}

// Whether the trouble is among what was found.
pub(crate) fn came(findings: &[Finding], trouble: Trouble) -> bool
    ensures { result ≡ came (map as_found findings.now) trouble }
{
    let place = trouble.place();
    has_place(findings, place)
}

fn has_place(findings: &[Finding], place: u8) -> bool
    ensures { result ≡ list_any (λ (f : Found). place_of f.trouble == place) (map as_found findings.now) }
{
    for finding in findings {
        if finding.trouble.place() == place {
            return true;
        }
    }
    false
}

// A blank and the word of a trouble, if it came.
fn put_word_if(out: &mut Vec<u8>, findings: &[Finding], trouble: Trouble) -> Result<(), AllocError>
    ensures { OnOk result (out.new.items ≡ out.old.items ++ word_if (map as_found findings.now) trouble) }
{
    if came(findings, trouble) {
        out.push(b' ')?;
        out.extend_from_slice(trouble.word().as_bytes())
    } else {
        Ok(())
    }
}

fn put_words(
    out: &mut Vec<u8>,
    findings: &[Finding],
    troubles: &[Trouble],
) -> Result<(), AllocError>
    ensures { OnOk result (out.new.items ≡ out.old.items ++ flat_map (word_if (map as_found findings.now)) troubles.now) }
{
    for trouble in troubles {
        put_word_if(out, findings, *trouble)?;
    }
    Ok(())
}

fn put_behind(out: &mut Vec<u8>, findings: &[Finding]) -> Result<(), AllocError>
    ensures { OnOk result (out.new.items ≡ out.old.items ++ words_behind (map as_found findings.now)) }
{
    if findings.is_empty() {
        return Ok(());
    }
    out.push(b':')?;
    put_words(out, findings, &TROUBLES)
}

fn put_line(out: &mut Vec<u8>, dir: &[u8], findings: &[Finding]) -> Result<(), AllocError>
    ensures { OnOk result (out.new.items ≡ out.old.items ++ answer_line dir.now (map as_found findings.now)) }
{
    out.extend_from_slice(answer_word(answer_of(findings)).as_bytes())?;
    out.extend_from_slice(b": ")?;
    put_shown(out, dir)?;
    put_behind(out, findings)?;
    out.extend_from_slice(b"\n")
}

fn put_finding(out: &mut Vec<u8>, finding: &Finding) -> Result<(), AllocError>
    ensures { OnOk result (out.new.items ≡ out.old.items ++ found_line (as_found finding.now)) }
{
    out.extend_from_slice(b"  ")?;
    put_shown(out, &finding.name)?;
    out.extend_from_slice(b": ")?;
    out.extend_from_slice(finding.trouble.reason().as_bytes())?;
    out.extend_from_slice(b"\n")
}

fn put_findings(out: &mut Vec<u8>, findings: &[Finding]) -> Result<(), AllocError>
    ensures { OnOk result (out.new.items ≡ out.old.items ++ flat_map found_line (map as_found findings.now)) }
{
    for finding in findings {
        put_finding(out, finding)?;
    }
    Ok(())
}

fn put_report(out: &mut Vec<u8>, dir: &[u8], findings: &[Finding]) -> Result<(), AllocError>
    ensures { OnOk result (out.new.items ≡ out.old.items ++ report dir.now (map as_found findings.now)) }
{
    put_line(out, dir, findings)?;
    put_findings(out, findings)?;
    out.extend_from_slice(
        b"  (mrout's history decides; lengths of files were compared, their bytes were not)\n",
    )
}

// What is printed.
fn put_shaped(
    out: &mut Vec<u8>,
    alloc: Global,
    shape: Shape,
    dir: &[u8],
    findings: &[Finding],
) -> Result<(), AllocError>
    ensures { OnOk result (out.new.items ≡ out.old.items ++ printed shape dir.now (map as_found findings.now)) }
{
    match shape {
        Shape::Report => put_report(out, dir, findings),
        Shape::Line => put_line(out, dir, findings),
        Shape::Json => put_json(out, alloc, dir, findings),
        Shape::Quiet => Ok(()),
    }
}

/// Prints the answer of a directory in this form, and answers it. It fails where there is no memory.
pub fn put_answer(
    out: &mut Vec<u8>,
    alloc: Global,
    shape: Shape,
    dir: &[u8],
    findings: &[Finding],
) -> Result<Answer, AllocError>
    ensures printed { OnOk result (out.new.items ≡ out.old.items ++ printed shape dir.now (map as_found findings.now)) }
    ensures answer { IfOk result (λ found. found ≡ answer_of (map as_found findings.now)) }
{
    put_shaped(out, alloc, shape, dir, findings)?;
    Ok(answer_of(findings))
}
