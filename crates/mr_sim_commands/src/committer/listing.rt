//! What a namespace holds, as text.
ghost use Rattle.std.specs.Prelude.{◌≡◌, ◌<◌, ◌++◌, ◌∷◌, [], OnOk, length};
ghost use Rattle.std.specs.List.{flat_map, join_with_byte};
ghost use Rattle.mr_sim_commands.specs.committer.Listing.{found_line, listing, path_line, size_text};

use itoa::Buffer;
use mr_names::{Found, Namespace};
use mr_paths::Name;
use std::alloc::AllocError;

/// Each of these names behind a slash.
fn print_beneath(names: &[Name], out: &mut Vec<u8>) -> Result<(), AllocError>
    ensures { OnOk result (out.new.items ≡ out.old.items ++ flat_map (λ name. 47 ∷ name) names.now) }
{
    for name in names {
        out.extend_from_slice(b"/")?;
        out.extend_from_slice(name.as_bytes())?;
    }
    Ok(())
}

/// Names with slashes between them.
pub fn print_names(names: &[Name], out: &mut Vec<u8>) -> Result<(), AllocError>
    ensures { OnOk result (out.new.items ≡ out.old.items ++ join_with_byte 47 names.now) }
{
    match names {
        [] => Ok(()),
        [first, rest @ ..] => {
            out.extend_from_slice(first.as_bytes())?;
            print_beneath(rest, out)
        }
    }
}

/// What stands behind a path.
fn print_size(size: Option<usize>, out: &mut Vec<u8>) -> Result<(), AllocError>
    ensures { OnOk result (out.new.items ≡ out.old.items ++ size_text size) }
{
    match size {
        None => out.extend_from_slice(b"/"),
        Some(length) => {
            let mut buffer = Buffer::new();
            out.extend_from_slice(b" ")?;
            out.extend_from_slice(buffer.format(length).as_bytes())
        }
    }
}

/// The line of a path. The root has none.
fn print_found(found: &Found, out: &mut Vec<u8>) -> Result<(), AllocError>
    ensures { OnOk result (out.new.items ≡ out.old.items ++ found_line found.now) }
{
    let names = found.path.names();
    if names.is_empty() {
        return Ok(());
    }
    print_names(names, out)?;
    print_size(found.length, out)?;
    out.extend_from_slice(b"\n")
}

/// The lines of these paths.
fn print_all(found: &[Found], out: &mut Vec<u8>) -> Result<(), AllocError>
    ensures { OnOk result (out.new.items ≡ out.old.items ++ flat_map found_line found.now) }
{
    for one in found {
        print_found(one, out)?;
    }
    Ok(())
}

/// One line for each path but the root.
#[tactic(auto, unfolding(crate::specs::committer::Listing::listing))]
pub fn print_listing(names: &Namespace, out: &mut Vec<u8>) -> Result<(), AllocError>
    ensures { OnOk result (out.new.items ≡ out.old.items ++ listing names.now.content) }
{
    let walk = names.walk()?;
    print_all(walk.as_slice(), out)
}
