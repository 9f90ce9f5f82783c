//! The trace of a script.
ghost use Rattle.std.specs.Prelude.{◌≡◌, IfOk, IfErr, IsOkUnless};
ghost use Rattle.mr_names.specs.Calls.{opening};
ghost use Rattle.mr_sim_commands.specs.Faults.{CommitterFails};
ghost use Rattle.mr_sim_commands.specs.committer.Effect.{out, start};
ghost use Rattle.mr_commit_trace.specs.Shown.{PrintsTrace};
ghost use Rattle.mr_commit_trace.specs.inner.Turns.{WritesAll, scene_of};

use crate::command::watch;
use crate::shown::put_seen;
use mr_ids::AppAttempt;
use mr_names::{Caller, Namespace};
use mr_paths::{Layout, Name, Path};
use mr_pipe::Form;
use mr_script::ScriptFault;
use mr_sim_commands::{ScriptCommand, SimFault, committer_script};
use std::alloc::{AllocError, Global};

/// What the store sees of a script of committer calls, on an empty namespace: each call of each command with its answer, in this form.
///
/// `BadCommand` names the first line, from 1, that is no command. `NoMemory` may come at any script; no other fault comes.
#[tactic(auto, using(crate::proofs::Writing::prints))]
pub fn committer_trace(alloc: Global, form: Form, input: &[u8]) -> Result<Vec<u8>, SimFault>
    ensures ok { IfOk result (λ v. PrintsTrace form input.now v.items) }
    ensures fault { IfErr result (CommitterFails input.now) }
{
    match committer_script(alloc, input) {
        Ok(commands) => trace_of(alloc, form, &commands),
        Err(ScriptFault::NoMemory) => Err(SimFault::NoMemory),
        Err(ScriptFault::BadCommand(line)) => Err(SimFault::BadCommand(line)),
    }
}

// The trace of these commands, each with its line.
fn trace_of(
    alloc: Global,
    form: Form,
    commands: &[(usize, ScriptCommand)],
) -> Result<Vec<u8>, SimFault>
    ensures writes { IfOk result (λ v. WritesAll form out commands.now start v.items) }
    ensures memory { IsOkUnless result SimFault.NoMemory }
{
    let layout = layout(alloc)?;
    let mut names = opening(alloc)?;
    let mut caller = Caller {
        app: AppAttempt::new(1).unwrap(),
        attempt: None,
    };
    put_all(alloc, form, &layout, &mut names, &mut caller, commands)
}

// The layout of a script's job, whose destination is `/out`.
fn layout(alloc: Global) -> Result<Layout, AllocError>
    ensures { IfOk result (λ layout. layout.dest ≡ out) }
{
    let mut dest = Path::root(alloc);
    dest.push(Name::new(alloc, b"out")?)?;
    Ok(Layout { dest })
}

// The empty namespace.
fn opening(alloc: Global) -> Result<Namespace, SimFault>
    ensures made { IfOk result (λ names. names ≡ opening) }
    ensures memory { IsOkUnless result SimFault.NoMemory }
{
    match Namespace::new(alloc) {
        Ok(names) => Ok(names),
        Err(fault) => Err(SimFault::from(fault.wants_memory())),
    }
}

// The trace of these commands, which go on from here.
#[tactic(auto, using(crate::proofs::Writing::written_none, crate::proofs::Writing::written_one, crate::proofs::Writing::written_all))]
fn put_all(
    alloc: Global,
    form: Form,
    layout: &Layout,
    names: &mut Namespace,
    caller: &mut Caller,
    commands: &[(usize, ScriptCommand)],
) -> Result<Vec<u8>, SimFault>
    ensures writes { IfOk result (λ v. WritesAll form layout.now.dest commands.now (scene_of names.old caller.old) v.items) }
    ensures memory { IsOkUnless result SimFault.NoMemory }
{
    let mut text = Vec::new(alloc);
    for (line, command) in commands {
        let told = watch(alloc, names, caller, layout, command)?;
        put_seen(&mut text, alloc, form, *line, command, &told)?;
    }
    Ok(text)
}
