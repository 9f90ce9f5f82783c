//! Why a packet finds no room in the bag.
ghost use Rattle.std.specs.Prelude.{◌≡◌};
ghost use Rattle.mr_packet.specs.declared.fault.BagFault.TheVariants.{NoMemory};

use std::alloc::{AllocError, AllocFailed};
use thiserror::Error;

/// Why a bag takes no packet.
#[derive(Clone, Copy, Debug, PartialEq, Eq, Error)]
pub enum BagFault {
    /// It has `MAX_PACKETS` packets.
    #[error("Full")]
    Full,
    /// Memory was refused (allocation failure). Nothing has changed.
    #[error("NoMemory")]
    NoMemory,
}

impl From<AllocError> for BagFault {
    ghost from_gives = { λ _ e. e ≡ NoMemory };

    fn from(_e: AllocError) -> BagFault {
        BagFault::NoMemory
    }
}

impl<T: Drop> From<AllocFailed<T>> for BagFault {
    ghost from_gives = { λ _ e. e ≡ NoMemory };

    fn from(_e: AllocFailed<T>) -> BagFault {
        BagFault::NoMemory
    }
}
