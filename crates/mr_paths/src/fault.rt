//! Why a text is not read as a path or as a name.
ghost use Rattle.std.specs.Prelude.{◌≡◌};
ghost use Rattle.mr_paths.specs.declared.fault.PathFault.TheVariants.{NoMemory};

use std::alloc::AllocError;
use thiserror::Error;

/// Why a text was not read as a path or as a name.
#[derive(Clone, Copy, Debug, PartialEq, Eq, Error)]
pub enum PathFault {
    /// It is no path, or no name.
    #[error("BadName")]
    BadName,
    /// It is one, but there was no memory for it.
    #[error("NoMemory")]
    NoMemory,
}

impl From<AllocError> for PathFault {
    ghost from_gives = { λ _ e. e ≡ NoMemory };

    fn from(_e: AllocError) -> PathFault {
        PathFault::NoMemory
    }
}
