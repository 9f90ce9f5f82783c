//! `play` with a picture of the run in place of its text.
ghost use Rattle.std.specs.Prelude.{◌≡◌, IfOk, IfErr};
ghost use Rattle.mr_sim_commands.specs.declared.fault.SimFault.TheVariants.{NoMemory};
ghost use Rattle.mr_trace.specs.mr_play.specs.Shown.{Draws};
ghost use Rattle.mr_trace.specs.mr_play.specs.Text.{IsAsExpected, PlayFails};
ghost use Rattle.mr_trace.specs.mr_world.specs.Limits.{within};

use crate::draw::drawing_of;
use mr_sim_commands::SimFault;
use mr_trace::Makers;
use mr_trace::mr_play::{Printed, played, print_world};
use mr_trace::mr_world::World;
use mr_trace_svg::{Part, picture_of};
use std::alloc::{AllocError, Global};

// What came of the run, in the lines of `play`, without the files, behind the lines of refused events. The marker and the outcome come first, since the
// others may be cut.
fn ending_of(alloc: Global, world: &World, refused: &[u8]) -> Result<Vec<u8>, SimFault>
    ensures { IfErr result (λ e. e ≡ SimFault.NoMemory) }
{
    let mut text = Vec::new(alloc);
    text.extend_from_slice(refused)?;
    print_world(&mut text, world)?;
    let mut ending = Vec::new(alloc);
    put_lines(&mut ending, &text, true)?;
    put_lines(&mut ending, &text, false)?;
    Ok(ending)
}

// The lines before the files: those that are of the whole job, or all others.
fn put_lines(out: &mut Vec<u8>, text: &[u8], of_job: bool) -> Result<(), AllocError> {
    for line in text.split(|byte| *byte == b'\n') {
        if line.starts_with(b"== ") {
            break;
        }
        if is_of_job(line) == of_job {
            out.extend_from_slice(line)?;
            out.extend_from_slice(b"\n")?;
        }
    }
    Ok(())
}

// Whether the line tells the marker or the outcome.
fn is_of_job(line: &[u8]) -> bool {
    line.starts_with(b"marker ") || line.starts_with(b"outcome ")
}

/// The picture of a part of a world's run, with who made each event where that is not a script. The lines of refused
/// events stand among what came of the whole run.
pub fn drawn(
    alloc: Global,
    world: &World,
    makers: &Makers<'_>,
    part: Part,
    refused: &[u8],
) -> Result<Vec<u8>, SimFault>
    ensures { IfErr result (λ e. e ≡ SimFault.NoMemory) }
{
    let ending = ending_of(alloc, world, refused)?;
    let drawing = drawing_of(alloc, world, makers, part, ending)?;
    let picture = picture_of(alloc, &drawing)?;
    Ok(picture)
}

/// The picture of a part of what `play` plays, with the faults of `play`.
pub fn play_drawn(alloc: Global, input: &[u8], part: Part) -> Result<Printed, SimFault>
    ensures ok { IfOk result (λ v. Draws within input.now) }
    ensures met { IfOk result (λ v. IsAsExpected within input.now v.met) }
    ensures fault { IfErr result (PlayFails within input.now) }
{
    let player = played(alloc, input)?;
    let makers = Makers::Lines(&player.stretches);
    let picture = drawn(alloc, &player.world, &makers, part, &player.told)?;
    Ok(player.printed(picture))
}
