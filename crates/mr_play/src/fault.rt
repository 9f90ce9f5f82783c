//! Why a player goes no further.
ghost use Rattle.std.specs.Prelude.{◌≡◌};
ghost use Rattle.mr_play.specs.Players.{sim_fault};
ghost use Rattle.mr_play.specs.declared.fault.PlayerFault.TheVariants.{NoMemory};

use mr_sim_commands::SimFault;
use std::alloc::{AllocError, AllocFailed};
use thiserror::Error;

/// Why a player goes no further.
#[derive(Clone, Copy, Debug, PartialEq, Eq, Error)]
pub enum PlayerFault {
    /// There was no memory.
    #[error("no memory")]
    NoMemory,
    /// An event, or a work, would pass a limit of the world.
    #[error("full")]
    Full,
}

impl From<AllocError> for PlayerFault {
    ghost from_gives = { λ _ e. e ≡ NoMemory };

    fn from(_e: AllocError) -> PlayerFault {
        PlayerFault::NoMemory
    }
}

impl<T: Drop> From<AllocFailed<T>> for PlayerFault {
    ghost from_gives = { λ _ e. e ≡ NoMemory };

    fn from(_e: AllocFailed<T>) -> PlayerFault {
        PlayerFault::NoMemory
    }
}

/// The same, as a fault of a subcommand.
pub fn sim_fault(fault: PlayerFault) -> SimFault
    ensures { result ≡ sim_fault fault }
{
    match fault {
        PlayerFault::NoMemory => SimFault::NoMemory,
        PlayerFault::Full => SimFault::Full,
    }
}
