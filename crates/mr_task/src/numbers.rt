//! The numbers of the attempts that a generation launches.
ghost use Rattle.std.specs.Prelude.{◌≡◌, ◌≤◌};
ghost use Rattle.mr_task.specs.Readings.{numbered_up_to};

use crate::task::MAX_LAUNCHES;
use mr_ids::{AppAttempt, AttemptId};

// How many numbers of the generation a recovered attempt shows to be given away.
pub fn numbered_up_to(app: AppAttempt, attempt: &AttemptId) -> u32
    ensures count { result ≡ numbered_up_to app attempt.now }
    ensures range { result ≤ 1000 }
{
    let first = app.first_attempt_number();
    let number = attempt.number();
    if first <= number && number < first + MAX_LAUNCHES {
        number - first + 1
    } else {
        0
    }
}
