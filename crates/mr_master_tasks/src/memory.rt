//! What a task's machine answers where nothing but memory can be refused.
ghost use Rattle.std.specs.Prelude.{◌≡◌, IfOk};

use mr_task::{TaskFault, TaskMachine};
use std::alloc::AllocError;

/// An equal machine.
pub fn copied(task: &TaskMachine) -> Result<TaskMachine, AllocError>
    ensures { IfOk result (λ machine. machine ≡ task.now) }
{
    match task.copy() {
        Ok(machine) => Ok(machine),
        Err(fault) => Err(wants_memory(fault)),
    }
}

/// What is left of a task's faults where it has no refusal.
pub fn wants_memory(fault: TaskFault) -> AllocError
    requires { fault ≡ TaskFault.NoMemory }
{
    match fault {
        TaskFault::NoMemory => AllocError,
        TaskFault::AlreadyWon => unreachable!(),
        TaskFault::TooManyLive => unreachable!(),
        TaskFault::TooManyAttempts => unreachable!(),
        TaskFault::Unknown => unreachable!(),
    }
}
