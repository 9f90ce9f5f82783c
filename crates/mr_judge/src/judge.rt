//! The judgement of a store's trace.
ghost use Rattle.std.specs.Prelude.{◌≡◌, IfOk, IfErr, IsOkUnless, OnOk};
ghost use Rattle.mr_names.specs.Calls.{call_of, opening};
ghost use Rattle.mr_call_words.specs.Words.{answer_line};
ghost use Rattle.mr_judge.specs.Trace.{JudgeFails, Judges, JudgesText};
ghost use Rattle.mr_judge.specs.inner.Verdict.{JudgesCall, JudgesOne};

use crate::fault::JudgeFault;
use crate::line::{Told, trace_of};
use crate::verdict::Verdict;
use mr_call_words::put_answer;
use mr_ids::Bytes;
use mr_names::{Caller, NameFault, Namespace, Op};
use std::alloc::Global;

/// The verdict of a store's trace, one call on a line: each answer is right, or the first that is not is told.
///
/// A line is `GENERATION ATTEMPT CALL: ANSWER`, with `none` for the attempt of a master, or `raise GENERATION`; calls and answers are those of `mr_call_words`. The
/// namespace is empty at first. A line that is empty or begins with `#` says nothing. `BadLine`: the first line that is none of these. `NoMemory` may come at any input.
pub fn judged(alloc: Global, input: &[u8]) -> Result<Verdict, JudgeFault>
    ensures ok { IfOk result (λ verdict. JudgesText input.now verdict) }
    ensures bad { IfErr result (λ e. JudgeFails input.now e) }
{
    let trace = trace_of(alloc, input)?;
    let mut names = opening(alloc)?;
    judge_all(alloc, &mut names, &trace)
}

// The empty namespace.
fn opening(alloc: Global) -> Result<Namespace, JudgeFault>
    ensures is { IfOk result (λ names. names ≡ opening) }
    ensures memory { IsOkUnless result JudgeFault.NoMemory }
{
    match Namespace::new(alloc) {
        Ok(names) => Ok(names),
        Err(_) => Err(JudgeFault::NoMemory),
    }
}

// The verdict of these lines.
#[tactic(auto, using(crate::proofs::Verdicts::judge_more, crate::proofs::Verdicts::judge_end))]
fn judge_all(
    alloc: Global,
    names: &mut Namespace,
    trace: &[(usize, Told)],
) -> Result<Verdict, JudgeFault>
    ensures says { IfOk result (λ verdict. Judges names.old trace.now verdict) }
    ensures memory { IsOkUnless result JudgeFault.NoMemory }
{
    for (line, told) in trace {
        if let Some(verdict) = judge_one(alloc, names, *line, told)? {
            return Ok(verdict);
        }
    }
    Ok(Verdict::Right)
}

// The verdict of one line, if its answer is wrong; else the call is made.
fn judge_one(
    alloc: Global,
    names: &mut Namespace,
    line: usize,
    told: &Told,
) -> Result<Option<Verdict>, JudgeFault>
    ensures says { IfOk result (λ verdict. JudgesOne names.old line told.now verdict names.new) }
    ensures memory { IsOkUnless result JudgeFault.NoMemory }
{
    match told {
        Told::Raised(k) => {
            names.raise(*k);
            Ok(None)
        }
        Told::Called {
            caller,
            call,
            answer,
        } => judge_call(alloc, names, line, caller, call, answer),
    }
}

// The verdict of a call, if its answer is wrong.
fn judge_call(
    alloc: Global,
    names: &mut Namespace,
    line: usize,
    caller: &Caller,
    call: &Op,
    answer: &Bytes,
) -> Result<Option<Verdict>, JudgeFault>
    ensures says { IfOk result (λ verdict. JudgesCall names.old line caller.now call.now answer.now verdict names.new) }
    ensures memory { IsOkUnless result JudgeFault.NoMemory }
{
    let expected = right_answer(alloc, names, caller, call)?;
    if expected.as_slice() == answer.as_slice() {
        Ok(None)
    } else {
        let answered = Bytes::from_slice(alloc, answer.as_slice())?;
        let expected = Bytes::from_slice(alloc, &expected)?;
        Ok(Some(Verdict::Wrong {
            line,
            answered,
            expected,
        }))
    }
}

// The words of the answer that the definition gives; the call is made.
fn right_answer(
    alloc: Global,
    names: &mut Namespace,
    caller: &Caller,
    call: &Op,
) -> Result<Vec<u8>, JudgeFault>
    ensures words { IfOk result (λ words. words.items ≡ answer_line (call_of names.old caller.now call.now).0) }
    ensures made { OnOk result (names.new ≡ (call_of names.old caller.now call.now).1) }
    ensures memory { IsOkUnless result JudgeFault.NoMemory }
{
    let answer = names.perform(*caller, call);
    if let Err(NameFault::NoMemory) = answer {
        return Err(JudgeFault::NoMemory);
    }
    let mut words = Vec::new(alloc);
    put_answer(&mut words, &answer)?;
    Ok(words)
}
