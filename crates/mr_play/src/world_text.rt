//! What came of a world, as `play` prints it.
ghost use Rattle.std.specs.Prelude.{◌≡◌, ◌++◌, map, IfErr, OnOk};
ghost use Rattle.std.specs.List.{flat_map};
ghost use Rattle.mr_world.specs.Journal.{world_in};
ghost use Rattle.mr_world.specs.VisibleFiles.{as_pair};
ghost use Rattle.mr_world_model.specs.Results.{visible};
ghost use Rattle.mr_sim_commands.specs.declared.fault.SimFault.TheVariants.{NoMemory};
ghost use Rattle.mr_play.specs.WorldText.{visible_text, world_text};

use crate::memory::read;
use mr_script_writer::{put_marker_line, put_outcome_line, put_winner_lines};
use mr_sim_commands::{SimFault, print_file};
use mr_world::{VisibleFile, World};
use std::alloc::AllocError;

/// Files, each with its name and its length.
fn print_files(out: &mut Vec<u8>, files: &[VisibleFile]) -> Result<(), AllocError>
    ensures { OnOk result (out.new.items ≡ out.old.items ++ flat_map visible_text (map as_pair files.now)) }
{
    for file in files {
        print_file(out, file.name.as_bytes(), file.bytes.as_slice())?;
    }
    Ok(())
}

/// The visible files of a world by rising name, each with its name and its length.
pub fn print_visible(out: &mut Vec<u8>, world: &World) -> Result<(), AllocError>
    ensures { OnOk result (out.new.items ≡ out.old.items ++ flat_map visible_text (visible (world_in world.now))) }
{
    let files = read(world.visible())?;
    print_files(out, &files)?;
    Ok(())
}

/// The winners by reduce, the marker, the outcome, and the visible files by rising name. It fails by nothing but an allocation failure.
pub fn print_world(out: &mut Vec<u8>, world: &World) -> Result<(), SimFault>
    ensures text { OnOk result (out.new.items ≡ out.old.items ++ world_text world.now.config (world_in world.now)) }
    ensures memory { IfErr result (λ fault. fault ≡ NoMemory) }
{
    let winners = read(world.winners())?;
    let marker = read(world.marker())?;
    put_winner_lines(out, &winners)?;
    put_marker_line(out, marker)?;
    put_outcome_line(out, world.outcome())?;
    print_visible(out, world)?;
    Ok(())
}
