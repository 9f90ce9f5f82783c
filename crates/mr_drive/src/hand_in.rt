//! What a work gave comes back to the run.
ghost use Rattle.std.specs.Prelude.{◌≡◌};
ghost use Rattle.mr_drive.specs.Driving.{stopping_work};

use crate::fault::DriveFault;
use mr_board::{Finished, Seat};
use mr_board_report::Run;
use mr_mapside::WorkFault;
use mr_packet::ContainerId;
use mr_user::Job;
use mr_world_events::Event;

/// The bytes are handed in. A container whose work was refused by the job or by the shuffle dies. What is not permitted any more is dropped.
pub(crate) fn hand_in<J: Job>(
    run: &mut Run<J>,
    seat: &mut Seat,
    container: &ContainerId,
    done: Result<Finished<J>, WorkFault>,
) -> Result<(), DriveFault> {
    match done {
        Ok(done) => {
            run.hand_in(seat, done)?;
            Ok(())
        }
        Err(fault) => match stopping_work(fault) {
            None => {
                run.make(
                    seat,
                    Event::Die {
                        container: *container,
                    },
                )?;
                Ok(())
            }
            Some(fault) => Err(fault),
        },
    }
}

// What the refusal of a work means to a run: none where the job or the shuffle refused it, so that its container dies.
fn stopping_work(fault: WorkFault) -> Option<DriveFault>
    ensures { result ≡ stopping_work fault }
{
    match fault {
        WorkFault::User(_) | WorkFault::Shuffle(_) => None,
        WorkFault::Gate(_) => Some(DriveFault::TurnsSpent),
        WorkFault::Full => Some(DriveFault::Full),
        WorkFault::NoMemory => Some(DriveFault::NoMemory),
    }
}
