//! `play` with its trace and its history beside its text.
ghost use Rattle.std.specs.Prelude.{◌≡◌, [], true, false, IfOk, IfErr};
ghost use Rattle.mr_sim_commands.specs.declared.fault.SimFault.TheVariants.{NoMemory};
ghost use Rattle.mr_play.specs.Text.{IsAsExpected, PlayFails};
ghost use Rattle.mr_play.specs.mr_world.specs.Limits.{within};
ghost use Rattle.mr_trace.specs.Happened.{by_lines};
ghost use Rattle.mr_trace.specs.Shown.{Shows};
ghost use Rattle.mr_trace.specs.Trace.{trace_text};

use crate::makers::Makers;
use crate::trace::trace_of;
use mr_play::{Player, Printed, Shown, played, shown_text};
use mr_sim_commands::SimFault;
use std::alloc::Global;

// The trace, where it is asked for, else nothing.
fn before_of(alloc: Global, player: &Player, shown: Shown) -> Result<Vec<u8>, SimFault>
    ensures untraced { IfOk result (λ text. shown.trace ≡ false → text.items ≡ []) }
    ensures traced { IfOk result (λ text. shown.trace ≡ true → text.items ≡ trace_text (by_lines player.now.stretches.items) player.now.world) }
    ensures memory { IfErr result (λ e. e ≡ SimFault.NoMemory) }
{
    if shown.trace {
        trace_of(alloc, &player.world, &Makers::Lines(&player.stretches))
    } else {
        Ok(Vec::new(alloc))
    }
}

/// What `play` prints, with what is shown beside it, and with the faults of `play`.
pub fn play_shown(alloc: Global, input: &[u8], shown: Shown) -> Result<Printed, SimFault>
    ensures ok { IfOk result (λ v. Shows within shown input.now v.text.items) }
    ensures met { IfOk result (λ v. IsAsExpected within input.now v.met) }
    ensures fault { IfErr result (PlayFails within input.now) }
{
    let player = played(alloc, input)?;
    let before = before_of(alloc, &player, shown)?;
    let text = shown_text(&player, shown, before)?;
    Ok(player.printed(text))
}
