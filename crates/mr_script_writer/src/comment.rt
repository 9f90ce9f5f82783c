//! A text as comments of a script.
ghost use Rattle.std.specs.Prelude.{◌≡◌, ◌++◌, OnOk};
ghost use Rattle.mr_script_writer.specs.Repeating.{comment, commented};

use mr_script::split_once;
use std::alloc::AllocError;

// A line as a comment.
fn put_comment(out: &mut Vec<u8>, line: &[u8]) -> Result<(), AllocError>
    ensures { OnOk result (out.new.items ≡ out.old.items ++ comment line.now) }
{
    out.extend_from_slice(b"# ")?;
    out.extend_from_slice(line)?;
    out.extend_from_slice(b"\n")
}

/// Each line of a text as a comment, behind what is there.
pub fn put_comments(out: &mut Vec<u8>, text: &[u8]) -> Result<(), AllocError>
    ensures { OnOk result (out.new.items ≡ out.old.items ++ commented text.now) }
{
    let mut rest = text;
    while let Some((line, after)) = split_once(rest, b'\n') {
        put_comment(out, line)?;
        rest = after;
    }
    if rest.is_empty() {
        return Ok(());
    }
    put_comment(out, rest)?;
    Ok(())
}
