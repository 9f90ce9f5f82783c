//! Events that a thread makes.
use crate::fault::DriveFault;
use crate::turn::Turn;
use mr_board::Seat;
use mr_board_report::Run;
use mr_user::Job;
use mr_world_events::Event;

/// Makes an event that comes by itself. One that is not permitted now is dropped.
pub(crate) fn made<J: Job>(
    run: &mut Run<J>,
    seat: &mut Seat,
    event: Event,
) -> Result<Turn, DriveFault> {
    turn_of(run.make(seat, event))
}

/// What a turn found, by whether an event was made.
pub(crate) fn turn_of(made: Result<bool, DriveFault>) -> Result<Turn, DriveFault> {
    match made {
        Ok(true) => Ok(Turn::Made),
        Ok(false) => Ok(Turn::Nothing),
        Err(fault) => Err(fault),
    }
}
