//! What is left of a master's refusals where none applies.
ghost use Rattle.std.specs.Prelude.{◌≡◌};

use mr_master_model::LaunchFault;
use mr_task::TaskFault;
use std::alloc::AllocError;

/// What is left of the refusals of an expiry where none applies.
pub fn wants_memory(fault: LaunchFault) -> AllocError
    requires { fault ≡ LaunchFault.Task TaskFault.NoMemory }
{
    match fault {
        LaunchFault::Task(TaskFault::NoMemory) => AllocError,
        LaunchFault::Task(TaskFault::AlreadyWon) => unreachable!(),
        LaunchFault::Task(TaskFault::TooManyLive) => unreachable!(),
        LaunchFault::Task(TaskFault::TooManyAttempts) => unreachable!(),
        LaunchFault::Task(TaskFault::Unknown) => unreachable!(),
        LaunchFault::NotRunning => unreachable!(),
        LaunchFault::NoTask => unreachable!(),
        LaunchFault::NoNode => unreachable!(),
    }
}
