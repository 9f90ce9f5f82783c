//! Why the namespace refuses a call.
ghost use Rattle.std.specs.Prelude.{◌≡◌};
ghost use Rattle.mr_names.specs.declared.fault.NameFault.TheVariants.{NoMemory};

use std::alloc::{AllocError, AllocFailed};
use thiserror::Error;

/// Why a call of the namespace was refused. Its text is its name.
#[derive(Clone, Copy, Debug, PartialEq, Eq, Error)]
pub enum NameFault {
    /// The caller's generation is below the fence, which is given.
    #[error("Superseded {0}")]
    Superseded(u32),
    /// The caller's attempt is barred.
    #[error("Barred")]
    Barred,
    /// Nothing is at the path.
    #[error("Missing")]
    Missing,
    /// Something is at the path already.
    #[error("Exists")]
    Exists,
    /// A file is where a directory is wanted.
    #[error("NotDir")]
    NotDir,
    /// A directory is where a file is wanted.
    #[error("NotFile")]
    NotFile,
    /// The file is closed.
    #[error("Closed")]
    Closed,
    /// Nothing is at the path's parent, or the path is the root, which has none.
    #[error("NoParent")]
    NoParent,
    /// A directory would be moved to itself or to a place beneath it.
    #[error("IntoItself")]
    IntoItself,
    /// The call would pass a limit on entries, on bytes or on barred attempts.
    #[error("Full")]
    Full,
    /// Memory that the call wanted was refused.
    #[error("NoMemory")]
    NoMemory,
}

impl NameFault {
    /// What is left of it where a call has no refusal: a want of memory.
    pub fn wants_memory(self) -> AllocError
        requires { self ≡ NameFault.NoMemory }
    {
        match self {
            NameFault::NoMemory => AllocError,
            NameFault::Superseded(_) => unreachable!(),
            NameFault::Barred => unreachable!(),
            NameFault::Missing => unreachable!(),
            NameFault::Exists => unreachable!(),
            NameFault::NotDir => unreachable!(),
            NameFault::NotFile => unreachable!(),
            NameFault::Closed => unreachable!(),
            NameFault::NoParent => unreachable!(),
            NameFault::IntoItself => unreachable!(),
            NameFault::Full => unreachable!(),
        }
    }
}

impl From<AllocError> for NameFault {
    ghost from_gives = { λ _ e. e ≡ NoMemory };

    fn from(_e: AllocError) -> NameFault {
        NameFault::NoMemory
    }
}

impl<T: Drop> From<AllocFailed<T>> for NameFault {
    ghost from_gives = { λ _ e. e ≡ NoMemory };

    fn from(_e: AllocFailed<T>) -> NameFault {
        NameFault::NoMemory
    }
}
