//! In which boot of the machine an attempt was begun is noted. The note of a boot is one file, and that of each attempt which
//! was begun in it is a further name of that file: to give a name costs far less than to make a file, and others wait for the
//! lock meanwhile.
ghost use Rattle.std.specs.Prelude.{◌≡◌, codes, IfErr};
ghost use Rattle.mr_out_layout.specs.Faults.{IsFailure};

use crate::history::History;
use mr_out_layout::{Fault, told};
use std::fs::File;
use std::io::Write;
use std::{fs, io};

// The note of the boot in which an attempt was begun last. It is never synced: behind a power cut the boot is another one.
const NOTE: &str = "_mrout/boot";

const NEW_NOTE: &str = "_mrout/boot.new";

/// Notes at this path that something was begun in this boot. What stands there was left by an earlier one. Where the note of
/// the boot can't be had, or can have no further name, a file of its own is written.
pub(crate) fn note_boot(rt: &HostRuntime, history: &History, path: &str) -> Result<(), Fault>
    ensures { IfErr result (IsFailure (codes "write") path.now) }
{
    if is_linked(rt, history.boot(), path)? {
        return Ok(());
    }
    match write_new(rt, path, history.boot()) {
        Ok(()) => Ok(()),
        Err(error) => Err(Fault::of_call(rt.alloc(), "write", path, error)),
    }
}

// Whether the note of this boot has this further name now.
fn is_linked(rt: &HostRuntime, boot: &str, path: &str) -> Result<bool, Fault>
    ensures { IfErr result (λ fault. fault ≡ Fault.NoMemory) }
{
    if is_noted(rt, boot)? {
        Ok(link(rt, path).is_ok())
    } else {
        Ok(false)
    }
}

// Whether the note is of this boot. One of another boot is replaced, where it can be.
fn is_noted(rt: &HostRuntime, boot: &str) -> Result<bool, Fault>
    ensures { IfErr result (λ fault. fault ≡ Fault.NoMemory) }
{
    match told(rt, NOTE)? {
        Some(noted) if noted.as_slice() == boot.as_bytes() => Ok(true),
        _ => Ok(renew(rt, boot).is_ok()),
    }
}

// A further name of the note.
fn link(rt: &HostRuntime, path: &str) -> io::Result<()> {
    match fs::hard_link(rt, NOTE, path) {
        Ok(()) => Ok(()),
        Err(error) if error.kind() == io::ErrorKind::AlreadyExists => {
            fs::remove_file(rt, path)?;
            fs::hard_link(rt, NOTE, path)
        }
        Err(error) => Err(error),
    }
}

// The note is of this boot from now on. Names of the one before stay names of that.
fn renew(rt: &HostRuntime, boot: &str) -> io::Result<()> {
    write_new(rt, NEW_NOTE, boot)?;
    fs::rename(rt, NEW_NOTE, NOTE)
}

// Another file stands at the path then, so nothing is written into one that has other names.
fn write_new(rt: &HostRuntime, path: &str, boot: &str) -> io::Result<()> {
    let _ = fs::remove_file(rt, path);
    let mut file = File::create_new(rt, path)?;
    file.write_all(boot.as_bytes())
}
