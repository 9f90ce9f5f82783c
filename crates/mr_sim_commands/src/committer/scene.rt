//! What a script's commands act on.
//! Of scripts of committer calls: a namespace and the one who calls it, and what each command does there.
ghost use Rattle.std.specs.Prelude.{◌≡◌, ◌++◌, ◌∷◌, [], ℕ, List, IfOk};
ghost use Rattle.mr_sim_commands.specs.committer.Effect.{CarriesOut, InTurn, done, part_file, puts, silent, start, told, writes};

use crate::committer::command::ScriptCommand;
use mr_commit::{
    CommitFault, abort_job, abort_task, check_output, commit_job, commit_task, needs_task_commit,
    recover_task, setup_job,
};
use mr_ids::{AppAttempt, AttemptId};
use mr_names::{Bytes, Caller, NameFault, Namespace, Op};
use mr_paths::{Layout, Path, part_name};
use std::alloc::AllocError;

/// A namespace, and who makes the next calls.
#[derive(Drop)]
pub struct Scene {
    pub names: Namespace,
    pub caller: Caller,
}

/// What a command that was not refused prints.
#[derive(Clone, Copy, Debug, PartialEq, Eq)]
pub enum Reply {
    Silent,
    Yes,
    No,
}

/// The path of an attempt's part file.
fn part_file(layout: &Layout, k: AppAttempt, attempt: AttemptId) -> Result<Path, AllocError>
    ensures { IfOk result (λ path. path ≡ part_file layout.now.dest k attempt) }
{
    let folder = layout.task_attempt(k, attempt)?;
    let name = part_name(folder.allocator(), attempt.task().number)?;
    folder.child(name)
}

/// A text with a line feed behind it.
fn with_line_feed(text: &Bytes) -> Result<Bytes, AllocError>
    ensures { IfOk result (λ line. line ≡ text.now ++ 10 ∷ []) }
{
    let mut line = text.copy()?;
    line.extend(b"\n")?;
    Ok(line)
}

/// A folder is made, and a file created, filled and closed.
fn put(
    names: &mut Namespace,
    caller: &Caller,
    folder: &Path,
    file: &Path,
    bytes: &[u8],
) -> Result<(), NameFault>
    ensures { InTurn (puts folder.now file.now bytes.now) names.old caller.now (done result) names.new }
{
    names.mkdirs(*caller, folder)?;
    names.create(*caller, file, false)?;
    names.append(*caller, file, bytes)?;
    names.close(*caller, file)
}

/// The part file of an attempt is written.
fn write(
    names: &mut Namespace,
    caller: Caller,
    layout: &Layout,
    attempt: AttemptId,
    text: &Bytes,
) -> Result<(), CommitFault>
    ensures { InTurn (writes layout.now.dest caller.app attempt text.now) names.old caller result names.new }
{
    let folder = layout.task_attempt(caller.app, attempt)?;
    let file = part_file(layout, caller.app, attempt)?;
    let line = with_line_feed(text)?;
    match put(names, &caller, &folder, &file, line.as_slice()) {
        Ok(()) => Ok(()),
        Err(NameFault::NoMemory) => Err(CommitFault::NoMemory),
        Err(fault) => Err(CommitFault::Names(fault)),
    }
}

/// An attempt is barred.
fn bar(names: &mut Namespace, caller: Caller, attempt: AttemptId) -> Result<(), CommitFault>
    ensures { InTurn (Op.Bar attempt ∷ []) names.old caller result names.new }
{
    match names.bar(caller, attempt) {
        Ok(()) => Ok(()),
        Err(NameFault::NoMemory) => Err(CommitFault::NoMemory),
        Err(fault) => Err(CommitFault::Names(fault)),
    }
}

impl ScriptCommand {
    /// Carries out the command.
    pub fn carry_out(&self, scene: &mut Scene, layout: &Layout) -> Result<Reply, CommitFault>
        ensures { CarriesOut layout.now.dest self.now scene.old result scene.new }
    {
        let caller = scene.caller;
        match self {
            Self::As(k) => {
                scene.caller.app = *k;
                Ok(Reply::Silent)
            }
            Self::Raise(k) => {
                scene.names.raise(*k);
                Ok(Reply::Silent)
            }
            Self::Check => silent(check_output(&scene.names, caller, layout)),
            Self::Setup => silent(setup_job(&mut scene.names, caller, layout)),
            Self::Write(attempt, text) => {
                silent(write(&mut scene.names, caller, layout, *attempt, text))
            }
            Self::Needs(attempt) => told(needs_task_commit(&scene.names, caller, layout, *attempt)),
            Self::Commit(attempt) => {
                silent(commit_task(&mut scene.names, caller, layout, *attempt))
            }
            Self::Abort(attempt) => silent(abort_task(&mut scene.names, caller, layout, *attempt)),
            Self::Recover(task, bytes) => {
                silent(recover_task(&mut scene.names, caller, layout, *task, *bytes))
            }
            Self::CommitJob => silent(commit_job(&mut scene.names, caller, layout)),
            Self::AbortJob => silent(abort_job(&mut scene.names, caller, layout)),
            Self::Bar(attempt) => silent(bar(&mut scene.names, caller, *attempt)),
            Self::By(attempt) => {
                scene.caller.attempt = *attempt;
                Ok(Reply::Silent)
            }
        }
    }
}

fn silent(answer: Result<(), CommitFault>) -> Result<Reply, CommitFault>
    ensures { result ≡ silent answer }
{
    match answer {
        Ok(()) => Ok(Reply::Silent),
        Err(fault) => Err(fault),
    }
}

fn told(answer: Result<bool, CommitFault>) -> Result<Reply, CommitFault>
    ensures { result ≡ told answer }
{
    match answer {
        Ok(true) => Ok(Reply::Yes),
        Ok(false) => Ok(Reply::No),
        Err(fault) => Err(fault),
    }
}
