//! Why an input is not read, and what is said of it.
ghost use Rattle.std.specs.Prelude.{◌≡◌};
ghost use Rattle.mr_pipe_commands.specs.inner.Reading.{status_of_unread};

use mr_pipe::{PipeFault, say};
use std::io::{ErrorKind, Write};
use std::rt::Files;
use std::{fs, io};

/// Why an input is not read, with its name.
#[derive(Clone, Copy)]
pub(crate) enum Unread<'n> {
    /// It has more than 16,777,216 bytes.
    TooLong(&'n str),
    /// It can't be opened, a read failed, or there was no memory.
    Failed(&'n str, PipeFault),
}

/// The exit status: 3 of an input that is too long, else that of the fault.
pub(crate) fn status_of_unread(unread: Unread<'_>) -> u8
    ensures { result ≡ status_of_unread unread.entry }
{
    match unread {
        Unread::TooLong(_) => 3,
        Unread::Failed(_, fault) => mr_pipe::status_of(fault),
    }
}

/// Says that an input is not read, with its name if it is a file, and why, where that is known. Of a lack of memory no file is named.
pub(crate) fn say_unread<E: Write>(
    errors: &mut E,
    unread: Unread<'_>,
    why: Option<&'static str>,
) -> io::Result<()> {
    match unread {
        Unread::TooLong("-") => {
            errors.write_all(b"mrsim: input too long\n  at most 16777216 bytes are read\n")
        }
        Unread::TooLong(name) => {
            errors.write_all(b"mrsim: input too long\n  ")?;
            errors.write_all(name.as_bytes())?;
            errors.write_all(b": at most 16777216 bytes are read\n")
        }
        Unread::Failed("-", fault) | Unread::Failed(_, fault @ PipeFault::NoMemory) => {
            say(errors, fault)
        }
        Unread::Failed(name, _) => {
            errors.write_all(b"mrsim: read: ")?;
            errors.write_all(name.as_bytes())?;
            say_why(errors, why)
        }
    }
}

// Ends the line, and says why on another one, if that is known.
fn say_why<E: Write>(errors: &mut E, why: Option<&'static str>) -> io::Result<()> {
    match why {
        Some(why) => {
            errors.write_all(b"\n  ")?;
            errors.write_all(why.as_bytes())?;
            errors.write_all(b"\n")
        }
        None => errors.write_all(b"\n"),
    }
}

/// Why this file is not read, where that can be seen of it: it is a folder, or it is not there.
pub fn why_unread(rt: &impl Files, name: &str) -> Option<&'static str> {
    match fs::metadata(rt, name) {
        Ok(found) => found.is_dir().then_some("it is a folder"),
        Err(error) => (error.kind() == ErrorKind::NotFound).then_some(missing(name)),
    }
}

/// What is said of a file that is not there. Whoever names it help means the subcommand.
pub fn missing(name: &str) -> &'static str {
    if name == "help" {
        "there is no such file; for help write: mrsim help SUBCOMMAND"
    } else {
        "there is no such file"
    }
}
