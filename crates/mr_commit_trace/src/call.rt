//! Calls of the namespace that are kept with their answers.
ghost use Rattle.std.specs.Prelude.{◌≡◌, ◌++◌, ◌∷◌, [], IfOk, OnOk, IsOkUnless, is_ok};
ghost use Rattle.mr_names.specs.Calls.{call_of};
ghost use Rattle.mr_judge.specs.declared.line.Told.TheVariants.{Called};
ghost use Rattle.mr_call_words.specs.Words.{answer_line};
ghost use Rattle.mr_sim_commands.specs.committer.Effect as effect;
ghost use Rattle.mr_commit_trace.specs.Seen.{seen};
ghost use Rattle.mr_commit_trace.specs.inner.Turns.{seen_in_turn};

use mr_call_words::put_answer;
use mr_ids::Bytes;
use mr_judge::Told;
use mr_names::{Answer, Caller, NameFault, Namespace, Op};
use mr_sim_commands::SimFault;
use std::alloc::{AllocError, Global};

/// Makes a call, and keeps it with its answer. `NoMemory`: there was none for the call, or to keep it.
pub(crate) fn make(
    alloc: Global,
    names: &mut Namespace,
    caller: &Caller,
    call: &Op,
    told: &mut Vec<Told>,
) -> Result<Result<Answer, NameFault>, SimFault>
    ensures made { IfOk result (λ answer. call_of names.old caller.now call.now ≡ (answer, names.new)) }
    ensures kept { OnOk result (told.new.items ≡ told.old.items ++ seen names.old caller.now call.now ∷ []) }
    ensures memory { IsOkUnless result SimFault.NoMemory }
{
    let answer = names.perform(*caller, call);
    if let Err(NameFault::NoMemory) = answer {
        return Err(SimFault::NoMemory);
    }
    keep(alloc, caller, call, &answer, told)?;
    Ok(answer)
}

// Keeps a call with its answer.
fn keep(
    alloc: Global,
    caller: &Caller,
    call: &Op,
    answer: &Result<Answer, NameFault>,
    told: &mut Vec<Told>,
) -> Result<(), AllocError>
    ensures { OnOk result (told.new.items ≡ told.old.items ++ Called caller.now call.now (answer_line answer.now) ∷ []) }
{
    let answer = words_of(alloc, answer)?;
    let call = call.copy()?;
    told.push(Told::Called {
        caller: *caller,
        call,
        answer,
    })?;
    Ok(())
}

// The words of an answer.
fn words_of(alloc: Global, answer: &Result<Answer, NameFault>) -> Result<Bytes, AllocError>
    ensures { IfOk result (λ words. words ≡ answer_line answer.now) }
{
    let mut words = Vec::new(alloc);
    put_answer(&mut words, answer)?;
    Ok(Bytes::from_vec(words))
}

/// Makes calls in turn, until one is refused, and answers them with their answers.
pub(crate) fn make_in_turn(
    alloc: Global,
    names: &mut Namespace,
    caller: &Caller,
    calls: &[Op],
) -> Result<Vec<Told>, SimFault>
    ensures seen { IfOk result (λ told. told.items ≡ seen_in_turn calls.now names.old caller.now) }
    ensures after { OnOk result (names.new ≡ (effect.in_turn calls.now names.old caller.now).1) }
    ensures memory { IsOkUnless result SimFault.NoMemory }
{
    let mut told = Vec::new(alloc);
    for call in calls {
        if !is_made(alloc, names, caller, call, &mut told)? {
            return Ok(told);
        }
    }
    Ok(told)
}

// Makes a call, and tells whether it was not refused.
fn is_made(
    alloc: Global,
    names: &mut Namespace,
    caller: &Caller,
    call: &Op,
    told: &mut Vec<Told>,
) -> Result<bool, SimFault>
    ensures made { IfOk result (λ is. is ≡ is_ok (call_of names.old caller.now call.now).0) }
    ensures after { OnOk result (names.new ≡ (call_of names.old caller.now call.now).1) }
    ensures kept { OnOk result (told.new.items ≡ told.old.items ++ seen names.old caller.now call.now ∷ []) }
    ensures memory { IsOkUnless result SimFault.NoMemory }
{
    match make(alloc, names, caller, call, told)? {
        Ok(_) => Ok(true),
        Err(_) => Ok(false),
    }
}
