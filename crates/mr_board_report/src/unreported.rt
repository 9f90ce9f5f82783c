//! What is told where there is no report.
ghost use Rattle.std.specs.Prelude.{◌≡◌, None};
ghost use Rattle.mr_board_report.specs.declared.fault.DriveFault.TheVariants.{NoMemory};

use crate::fault::DriveFault;
use mr_board::mr_world::World;
use std::alloc::AllocError;
use std::fmt;
use std::fmt::{Debug, Formatter, Write};
use thiserror::Error;

/// Why there is no report, and the world of the run.
#[derive(Drop, Error)]
#[error("{fault}")]
pub struct Unreported {
    /// Why there is none.
    pub fault: DriveFault,
    /// The run's world. None where memory was refused before there was a run to be told of, and where the seats do not
    /// account for its journal.
    pub world: Option<World>,
}

impl From<AllocError> for Unreported {
    ghost from_gives = { λ _ u. (u.fault ≡ NoMemory) × (u.world ≡ None) };

    fn from(e: AllocError) -> Unreported {
        Unreported {
            fault: DriveFault::from(e),
            world: None,
        }
    }
}

// By hand: a world does not show itself.
impl Debug for Unreported {
    fn fmt<W: Write>(&self, f: &mut Formatter<W>) -> fmt::Result {
        f.write_str("Unreported(")?;
        self.fault.fmt(f)?;
        f.write_str(")")
    }
}
