//! What a world's refusal means to a run.
ghost use Rattle.std.specs.Prelude.{◌≡◌};
ghost use Rattle.mr_drive.specs.Driving.{stopping};

use mr_board::mr_world::WorldFault;
pub use mr_board_report::DriveFault;

/// What a world's refusal means to a run: none where the event is only not permitted now.
pub(crate) fn stopping(fault: WorldFault) -> Option<DriveFault>
    ensures { result ≡ stopping fault }
{
    match fault {
        WorldFault::NotNow(_) => None,
        WorldFault::Full => Some(DriveFault::Full),
        WorldFault::NoMemory => Some(DriveFault::NoMemory),
    }
}
