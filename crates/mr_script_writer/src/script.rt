//! The script of a journal.
ghost use Rattle.std.specs.Prelude.{◌≡◌, ◌++◌, OnOk};
ghost use Rattle.mr_script_writer.specs.Repeating.{repeating};

use crate::line::put_command;
use mr_world_events::Event;
use std::alloc::AllocError;

/// The script that makes these events again, in their order, one command a line, behind what is there.
pub fn put_script(out: &mut Vec<u8>, events: &[Event]) -> Result<(), AllocError>
    ensures { OnOk result (out.new.items ≡ out.old.items ++ repeating events.now) }
{
    for event in events {
        put_command(out, event)?;
        out.extend_from_slice(b"\n")?;
    }
    Ok(())
}
