//! What is printed of a directory as JSON.
ghost use Rattle.std.specs.Prelude.{◌≡◌, ◌++◌, IfOk, OnOk, map};
ghost use Rattle.mr_out_winners.specs.Findings.{as_found};
ghost use Rattle.mr_out_winners.specs.Printed.{answer_members, found_object, report_json, words_of};
ghost use Rattle.mr_sim_json.specs.Members.{object_of};
ghost use Rattle.serde_json.specs.View.{view};

use crate::finding::{Finding, answer_of};
use crate::report::{answer_word, came};
use crate::trouble::{TROUBLES, Trouble};
use mr_sim_json::{Object, into_value, put_line, put_list, put_text, put_word};
use serde_json::Value;
use std::alloc::{AllocError, Global};

// The words of the troubles that came.
fn words_of(
    alloc: Global,
    troubles: &[Trouble],
    findings: &[Finding],
) -> Result<Vec<Value>, AllocError>
    ensures { IfOk result (λ all. map view all.items ≡ words_of (map as_found findings.now) troubles.now) }
{
    let mut words = Vec::new(alloc);
    for trouble in troubles {
        if came(findings, *trouble) {
            words.push(Value::try_from_str(alloc, trouble.word())?)?;
        }
    }
    Ok(words)
}

fn finding_value(alloc: Global, finding: &Finding) -> Result<Value, AllocError>
    ensures { IfOk result (λ v. view v ≡ found_object (as_found finding.now)) }
{
    let mut object = Object::new(alloc);
    put_word(&mut object, alloc, "trouble", finding.trouble.word())?;
    put_text(&mut object, alloc, "name", &finding.name)?;
    Ok(into_value(object))
}

fn finding_values(alloc: Global, findings: &[Finding]) -> Result<Vec<Value>, AllocError>
    ensures { IfOk result (λ all. map view all.items ≡ map found_object (map as_found findings.now)) }
{
    let mut values = Vec::new(alloc);
    for finding in findings {
        let value = finding_value(alloc, finding)?;
        values.push(value)?;
    }
    Ok(values)
}

fn report_value(alloc: Global, dir: &[u8], findings: &[Finding]) -> Result<Value, AllocError>
    ensures { IfOk result (λ v. view v ≡ object_of (answer_members dir.now (map as_found findings.now))) }
{
    let mut object = Object::new(alloc);
    put_word(
        &mut object,
        alloc,
        "answer",
        answer_word(answer_of(findings)),
    )?;
    put_text(&mut object, alloc, "dir", dir)?;
    let words = words_of(alloc, &TROUBLES, findings)?;
    put_list(&mut object, alloc, "broken", words)?;
    put_list(&mut object, alloc, "open", Vec::new(alloc))?;
    let values = finding_values(alloc, findings)?;
    put_list(&mut object, alloc, "findings", values)?;
    Ok(into_value(object))
}

// The answer and what does not agree, as a line of JSON.
pub(crate) fn put_json(
    out: &mut Vec<u8>,
    alloc: Global,
    dir: &[u8],
    findings: &[Finding],
) -> Result<(), AllocError>
    ensures { OnOk result (out.new.items ≡ out.old.items ++ report_json dir.now (map as_found findings.now)) }
{
    let value = report_value(alloc, dir, findings)?;
    put_line(out, alloc, &value)
}
