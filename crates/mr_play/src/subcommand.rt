//! The subcommand `play`.
//! A job text and a script behind it are played in a world, and what came of it is printed.
ghost use Rattle.std.specs.Prelude.{◌≡◌, None, IfOk, IfErr};
ghost use Rattle.mr_script.specs.Lines.{after, lines_of};
ghost use Rattle.mr_script.specs.Script.{AreCommands};
ghost use Rattle.mr_world.specs.Limits.{within};
ghost use Rattle.mr_sim_commands.specs.declared.fault.SimFault.TheVariants as fault;
ghost use Rattle.mr_play.specs.Text.{job_line, played_of, script_by, IsAsExpected, PlayFails, PrintsPlay};
ghost use Rattle.mr_play.specs.Players.{FullWhere};
ghost use Rattle.mr_play.specs.inner.PlaySteps.{HasPlayed, IsUnread};
ghost use Rattle.mr_play.specs.Shown.{HasPrinted, text_in};
ghost use Rattle.mr_sim_commands.specs.job.Submission.{IsWithinLimits};

use crate::fault::{PlayerFault, sim_fault};
use crate::player::Player;
use crate::world_text::print_world;
use mr_ids::JobId;
use mr_script::{Command as ScriptCommand, ScriptFault, commands_of, split_once};
use mr_sim_commands::{Printed, SimFault, Submission, read_job_text};
use std::alloc::Global;

/// The job text, which is the first line, and the script behind it.
fn parts_of(input: &[u8]) -> (&[u8], &[u8])
    ensures job { result.0.now ≡ job_line input.now }
    ensures script { result.1.now ≡ script_by (after 10 input.now) }
{
    match split_once(input, b'\n') {
        Some((job, script)) => (job, script),
        None => (input, &[]),
    }
}

/// The commands of a script, whose first line is line 2 of the input.
fn script_of(
    alloc: Global,
    job: JobId,
    script: &[u8],
) -> Result<Vec<(usize, ScriptCommand)>, SimFault>
    ensures commands { IfOk result (λ commands. AreCommands job 2 (lines_of script.now) commands.items) }
    ensures unread { IfErr result (IsUnread job script.now) }
{
    match commands_of(alloc, job, script, 2) {
        Ok(commands) => Ok(commands),
        Err(ScriptFault::BadCommand(line)) => Err(SimFault::BadCommand(line)),
        Err(ScriptFault::NoMemory) => Err(SimFault::NoMemory),
    }
}

/// A player of a job that has played commands.
fn player_of(
    alloc: Global,
    submission: Submission,
    commands: Vec<(usize, ScriptCommand)>,
) -> Result<Player, PlayerFault>
    requires { IsWithinLimits submission }
    ensures played { IfOk result (HasPlayed submission commands.items) }
    ensures full { IfErr result (λ e. FullWhere e (played_of within submission commands.items ≡ None)) }
{
    let mut player = Player::new(alloc, submission)?;
    player.play(alloc, commands)?;
    Ok(player)
}

/// What is printed of a player: what was told of lines, and then of its world.
fn printed_of(player: Player) -> Result<Printed, SimFault>
    ensures text { IfOk result (λ printed. printed.text.items ≡ text_in player) }
    ensures met { IfOk result (λ printed. printed.met ≡ player.met) }
    ensures memory { IfErr result (λ e. e ≡ fault.NoMemory) }
{
    let mut text = player.told;
    print_world(&mut text, &player.world)?;
    Ok(Printed {
        text,
        met: player.met,
        notes: player.notes,
        idle_keys: player.idle_keys,
    })
}

/// The player of a job text and a script, which has played the script.
///
/// The first bad key of the job text is told (`Job`), else the first bad line of the script (`BadCommand`, lines of
/// the whole input, from 1). Else `Full` is told where an event of the script, or a work, passes a limit of the
/// world. `NoMemory` may come at any input; no other fault comes.
pub fn played(alloc: Global, input: &[u8]) -> Result<Player, SimFault>
    ensures ok { IfOk result (HasPrinted input.now) }
    ensures fault { IfErr result (PlayFails within input.now) }
{
    let (job, script) = parts_of(input);
    let submission = read_job_text(alloc, job)?;
    let commands = script_of(alloc, submission.id, script)?;
    match player_of(alloc, submission, commands) {
        Ok(player) => Ok(player),
        Err(fault) => Err(sim_fault(fault)),
    }
}

/// What `play` prints for a job text and a script, with the faults of `played`.
pub fn play(alloc: Global, input: &[u8]) -> Result<Printed, SimFault>
    ensures ok { IfOk result (λ v. PrintsPlay within input.now v.text.items) }
    ensures met { IfOk result (λ v. IsAsExpected within input.now v.met) }
    ensures fault { IfErr result (PlayFails within input.now) }
{
    printed_of(played(alloc, input)?)
}
