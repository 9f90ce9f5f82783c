//! The subcommand `committer`.
ghost use Rattle.std.specs.Prelude.{◌≡◌, ◌++◌, ◌∷◌, [], codes, ℕ, IfOk, IfErr, OnOk, IsOkUnless};
ghost use Rattle.mr_sim_commands.specs.committer.Effect.{out, start, outcome};
ghost use Rattle.mr_sim_commands.specs.committer.Listing.{listing};
ghost use Rattle.mr_sim_commands.specs.Faults.{CommitterFails};
ghost use Rattle.mr_sim_commands.specs.committer.Text.{replies, reply_text, scene_after, PrintsCommitter};

mod command;
mod listing;
mod reply;
mod scene;
mod script;

use crate::committer::reply::print_reply;
use crate::committer::scene::Scene;
use crate::fault::SimFault;
pub use command::ScriptCommand;
pub use listing::{print_listing, print_names};
use mr_commit::CommitFault;
use mr_ids::AppAttempt;
use mr_names::{Caller, Namespace};
use mr_paths::{Layout, Name, Path};
use mr_script::ScriptFault;
pub use script::committer_script;
use std::alloc::{AllocError, Global};

/// The layout of a script's job, whose destination is `/out`.
fn layout(alloc: Global) -> Result<Layout, AllocError>
    ensures { IfOk result (λ layout. layout.dest ≡ out) }
{
    let mut dest = Path::root(alloc);
    dest.push(Name::new(alloc, b"out")?)?;
    Ok(Layout { dest })
}

/// An empty namespace, and the master of generation 1 as the caller.
fn start(alloc: Global) -> Result<Scene, SimFault>
    ensures made { IfOk result (λ scene. scene ≡ start) }
    ensures memory { IsOkUnless result SimFault.NoMemory }
{
    let caller = Caller {
        app: AppAttempt::new(1).unwrap(),
        attempt: None,
    };
    match Namespace::new(alloc) {
        Ok(names) => Ok(Scene { names, caller }),
        Err(fault) => Err(SimFault::from(fault.wants_memory())),
    }
}

/// Carries out the command of a line, and prints its reply.
fn reply_to(
    alloc: Global,
    layout: &Layout,
    scene: &mut Scene,
    out: &mut Vec<u8>,
    line: usize,
    command: &ScriptCommand,
) -> Result<(), SimFault>
    ensures printed { OnOk result (out.new.items ≡ out.old.items ++ reply_text line (outcome layout.now.dest command.now scene.old).0) }
    ensures after { OnOk result (scene.new ≡ (outcome layout.now.dest command.now scene.old).1) }
    ensures memory { IsOkUnless result SimFault.NoMemory }
{
    match command.carry_out(scene, layout) {
        Err(CommitFault::NoMemory) => Err(SimFault::NoMemory),
        reply => Ok(print_reply(alloc, out, line, reply)?),
    }
}

/// Carries out all commands in turn, and prints their replies.
fn reply_to_all(
    alloc: Global,
    layout: &Layout,
    scene: &mut Scene,
    out: &mut Vec<u8>,
    commands: &[(usize, ScriptCommand)],
) -> Result<(), SimFault>
    ensures printed { OnOk result (out.new.items ≡ out.old.items ++ replies layout.now.dest commands.now scene.old) }
    ensures after { OnOk result (scene.new ≡ scene_after layout.now.dest commands.now scene.old) }
    ensures memory { IsOkUnless result SimFault.NoMemory }
{
    for (line, command) in commands {
        reply_to(alloc, layout, scene, out, *line, command)?;
    }
    Ok(())
}

/// What the commands of a script print, and then the listing of what they left.
fn text_of(alloc: Global, commands: &[(usize, ScriptCommand)]) -> Result<Vec<u8>, SimFault>
    ensures printed { IfOk result (λ v. v.items ≡ replies out commands.now start ++ listing (scene_after out commands.now start).names.content) }
    ensures memory { IsOkUnless result SimFault.NoMemory }
{
    let layout = layout(alloc)?;
    let mut scene = start(alloc)?;
    let mut text = Vec::new(alloc);
    reply_to_all(alloc, &layout, &mut scene, &mut text, commands)?;
    print_listing(&scene.names, &mut text)?;
    Ok(text)
}

/// What `committer` prints for a script.
///
/// `BadCommand` names the first line, from 1, that is no command. `NoMemory` may come at any script; no other fault comes.
pub fn committer_output(alloc: Global, input: &[u8]) -> Result<Vec<u8>, SimFault>
    ensures ok { IfOk result (λ v. PrintsCommitter input.now v.items) }
    ensures fault { IfErr result (CommitterFails input.now) }
{
    match committer_script(alloc, input) {
        Ok(commands) => text_of(alloc, &commands),
        Err(ScriptFault::NoMemory) => Err(SimFault::NoMemory),
        Err(ScriptFault::BadCommand(line)) => Err(SimFault::BadCommand(line)),
    }
}
