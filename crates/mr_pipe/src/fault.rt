//! How a stream or the memory fails.
ghost use Rattle.mr_pipe.specs.declared.fault.PipeFault.TheVariants.{NoMemory};
ghost use Rattle.mr_pipe.specs.Status.{fault_line, status_of};
ghost use Rattle.std.specs.Prelude.{◌≡◌, OnOk};
ghost use Rattle.std.specs.Io.KnownBytes.{Appends};

use std::alloc::AllocError;
use std::io;
use std::io::Write;
use thiserror::Error;

/// Why a talk over a pipe could not go on.
#[derive(Clone, Copy, Debug, PartialEq, Eq, Error)]
pub enum PipeFault {
    /// A read failed, or the input has too many lines.
    #[error("read")]
    Read,
    /// A write or a flush failed.
    #[error("write")]
    Write,
    /// There was no memory.
    #[error("no memory")]
    NoMemory,
}

impl From<AllocError> for PipeFault {
    ghost from_gives = { λ _ e. e ≡ NoMemory };

    fn from(_e: AllocError) -> PipeFault {
        PipeFault::NoMemory
    }
}

/// The exit status of a fault: 4 of a stream, 5 of memory.
pub fn status_of(fault: PipeFault) -> u8
    ensures { result ≡ status_of fault }
{
    match fault {
        PipeFault::Read | PipeFault::Write => 4,
        PipeFault::NoMemory => 5,
    }
}

/// Says what failed, on a line of its own. Its error is that of the write: whoever has no other stream drops it, and the exit status says what failed.
pub fn say<E: Write>(errors: &mut E, fault: PipeFault) -> io::Result<()>
    ensures { OnOk result (Appends (E.contents errors.old) (E.contents errors.new) (fault_line fault)) }
{
    match fault {
        PipeFault::Read => errors.write_all(b"mrsim: read\n"),
        PipeFault::Write => errors.write_all(b"mrsim: write\n"),
        PipeFault::NoMemory => errors.write_all(b"mrsim: no memory\n"),
    }
}
