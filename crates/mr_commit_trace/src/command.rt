//! What the store sees of a command.
ghost use Rattle.std.specs.Prelude.{◌≡◌, ◌++◌, ◌∷◌, [], map, IfOk, OnOk, IsOkUnless};
ghost use Rattle.mr_names.specs.Calls as calls;
ghost use Rattle.mr_names.specs.declared.op.Op.TheVariants as op;
ghost use Rattle.mr_commit.specs.Line.Line.{Does};
ghost use Rattle.mr_judge.specs.declared.line.Told.TheVariants.{Raised};
ghost use Rattle.mr_sim_commands.specs.committer.Effect.{in_turn, outcome, writes};
ghost use Rattle.mr_commit_trace.specs.Seen.{Sees, SeesCommand};
ghost use Rattle.mr_commit_trace.specs.inner.Turns.{scene_of};

use crate::call::make_in_turn;
use crate::table::operate;
use mr_ids::{AppAttempt, AttemptId, Bytes};
use mr_judge::Told;
use mr_names::{Caller, Namespace, Op};
use mr_paths::{Layout, Path, part_name};
use mr_sim_commands::{ScriptCommand, SimFault};
use mr_step::Wish;
use std::alloc::{AllocError, Global};

/// Carries a command out, and answers what the store sees of it.
#[tactic(auto, unfolding(mr_sim_commands::specs::committer::Effect::outcome))]
pub(crate) fn watch(
    alloc: Global,
    names: &mut Namespace,
    caller: &mut Caller,
    layout: &Layout,
    command: &ScriptCommand,
) -> Result<Vec<Told>, SimFault>
    ensures seen { IfOk result (λ told. SeesCommand layout.now.dest command.now (scene_of names.old caller.old) told.items) }
    ensures after { OnOk result (scene_of names.new caller.new ≡ (outcome layout.now.dest command.now (scene_of names.old caller.old)).1) }
    ensures memory { IsOkUnless result SimFault.NoMemory }
{
    match command {
        ScriptCommand::As(k) => {
            caller.app = *k;
            Ok(Vec::new(alloc))
        }
        ScriptCommand::By(attempt) => {
            caller.attempt = *attempt;
            Ok(Vec::new(alloc))
        }
        ScriptCommand::Raise(k) => raise(alloc, names, *k),
        ScriptCommand::Check => look(alloc, names, caller, layout.dest.copy()?),
        ScriptCommand::Needs(attempt) => {
            let path = layout.task_attempt(caller.app, *attempt)?;
            look(alloc, names, caller, path)
        }
        ScriptCommand::Bar(attempt) => bar(alloc, names, caller, *attempt),
        ScriptCommand::Write(attempt, text) => write(alloc, names, caller, layout, *attempt, text),
        ScriptCommand::Setup => operate(alloc, names, caller, layout, Wish::SetupJob),
        ScriptCommand::Commit(attempt) => {
            operate(alloc, names, caller, layout, Wish::CommitTask(*attempt))
        }
        ScriptCommand::Abort(attempt) => {
            operate(alloc, names, caller, layout, Wish::AbortTask(*attempt))
        }
        ScriptCommand::Recover(task, bytes) => {
            operate(
                alloc,
                names,
                caller,
                layout,
                Wish::RecoverTask(*task, *bytes),
            )
        }
        ScriptCommand::CommitJob => operate(alloc, names, caller, layout, Wish::CommitJob),
        ScriptCommand::AbortJob => operate(alloc, names, caller, layout, Wish::AbortJob),
    }
}

// The fence is raised.
fn raise(alloc: Global, names: &mut Namespace, k: AppAttempt) -> Result<Vec<Told>, SimFault>
    ensures seen { IfOk result (λ told. told.items ≡ Raised k ∷ []) }
    ensures after { OnOk result (names.new ≡ calls.raised names.old k) }
    ensures memory { IsOkUnless result SimFault.NoMemory }
{
    names.raise(k);
    Ok(raised(alloc, k)?)
}

// That the fence was raised.
fn raised(alloc: Global, k: AppAttempt) -> Result<Vec<Told>, AllocError>
    ensures { IfOk result (λ told. told.items ≡ Raised k ∷ []) }
{
    let mut told = Vec::new(alloc);
    told.push(Told::Raised(k))?;
    Ok(told)
}

// Whether anything is at a path is asked.
#[tactic(auto, using(crate::proofs::InTurn::sees_turned, crate::proofs::InTurn::looks_stay))]
fn look(
    alloc: Global,
    names: &mut Namespace,
    caller: &Caller,
    path: Path,
) -> Result<Vec<Told>, SimFault>
    ensures seen { IfOk result (λ told. Sees caller.now (Does (op.Exists path) ∷ []) names.old told.items) }
    ensures after { OnOk result (names.new ≡ names.old) }
    ensures memory { IsOkUnless result SimFault.NoMemory }
{
    make_in_turn(alloc, names, caller, &[Op::Exists(path)])
}

// An attempt is barred.
#[tactic(auto, using(crate::proofs::InTurn::sees_turned))]
fn bar(
    alloc: Global,
    names: &mut Namespace,
    caller: &Caller,
    attempt: AttemptId,
) -> Result<Vec<Told>, SimFault>
    ensures seen { IfOk result (λ told. Sees caller.now (Does (op.Bar attempt) ∷ []) names.old told.items) }
    ensures after { OnOk result (names.new ≡ (in_turn (op.Bar attempt ∷ []) names.old caller.now).1) }
    ensures memory { IsOkUnless result SimFault.NoMemory }
{
    make_in_turn(alloc, names, caller, &[Op::Bar(attempt)])
}

// An attempt writes its part file.
#[tactic(auto, using(crate::proofs::InTurn::sees_turned))]
fn write(
    alloc: Global,
    names: &mut Namespace,
    caller: &Caller,
    layout: &Layout,
    attempt: AttemptId,
    text: &Bytes,
) -> Result<Vec<Told>, SimFault>
    ensures seen { IfOk result (λ told. Sees caller.now (map Does (writes layout.now.dest caller.now.app attempt text.now)) names.old told.items) }
    ensures after { OnOk result (names.new ≡ (in_turn (writes layout.now.dest caller.now.app attempt text.now) names.old caller.now).1) }
    ensures memory { IsOkUnless result SimFault.NoMemory }
{
    let calls = calls_of_write(layout, caller.app, attempt, text)?;
    make_in_turn(alloc, names, caller, &calls)
}

// The calls of a write: a folder is made, and a file created, filled and closed.
fn calls_of_write(
    layout: &Layout,
    k: AppAttempt,
    attempt: AttemptId,
    text: &Bytes,
) -> Result<Vec<Op>, AllocError>
    ensures { IfOk result (λ calls. calls.items ≡ writes layout.now.dest k attempt text.now) }
{
    let folder = layout.task_attempt(k, attempt)?;
    let alloc = folder.allocator();
    let file = folder.child(part_name(alloc, attempt.task().number)?)?;
    let create = Op::Create {
        path: file.copy()?,
        closed: false,
    };
    let append = Op::Append {
        path: file.copy()?,
        bytes: with_line_feed(text)?,
    };
    Ok(Vec::from_array(alloc, [Op::Mkdirs(folder), create, append, Op::Close(file)])?)
}

// A text with a line feed behind it.
fn with_line_feed(text: &Bytes) -> Result<Bytes, AllocError>
    ensures { IfOk result (λ line. line ≡ text.now ++ 10 ∷ []) }
{
    let mut line = text.copy()?;
    line.extend(b"\n")?;
    Ok(line)
}
