//! The job history of a world, as `play` shows it.
ghost use Rattle.std.specs.Prelude.{◌≡◌, ◌++◌, ℕ, List, OnOk};
ghost use Rattle.mr_world.specs.Journal.{world_in};
ghost use Rattle.mr_play.specs.Shown.{AddsSegments, segment_text};

use itoa::Buffer;
use mr_world::World;
use std::alloc::AllocError;

/// The stable bytes of a segment, behind its generation and their number.
fn print_segment(out: &mut Vec<u8>, k: u32, bytes: &[u8]) -> Result<(), AllocError>
    ensures { OnOk result (out.new.items ≡ out.old.items ++ segment_text k bytes.now) }
{
    let mut generation = Buffer::new();
    let mut length = Buffer::new();
    out.extend_from_slice(b"== history ")?;
    out.extend_from_slice(generation.format(k).as_bytes())?;
    out.extend_from_slice(b" ")?;
    out.extend_from_slice(length.format(bytes.len()).as_bytes())?;
    out.extend_from_slice(b"\n")?;
    out.extend_from_slice(bytes)
}

/// The segment of each generation that was started, by rising generation.
pub fn print_histories(out: &mut Vec<u8>, world: &World) -> Result<(), AllocError>
    ensures { OnOk result (AddsSegments world.now (world_in world.now).fence out.old.items out.new.items) }
{
    for older in 0..world.newest() {
        let k = older + 1;
        print_segment(out, k, world.stable(k))?;
    }
    Ok(())
}
