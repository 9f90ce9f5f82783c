//! What is read of a world where nothing but memory can be refused.
ghost use Rattle.std.specs.Prelude.{◌≡◌, Ok, Err, IfOk, IfErr};

use mr_world::WorldFault;
use std::alloc::AllocError;

/// What was read of a world, which fails by nothing but an allocation failure.
pub fn read<T: Drop>(reading: Result<T, WorldFault>) -> Result<T, AllocError>
    requires { IfErr reading (λ fault. fault ≡ WorldFault.NoMemory) }
    ensures value { IfOk result (λ value. reading ≡ Ok value) }
    ensures fault { IfErr result (λ _. reading ≡ Err WorldFault.NoMemory) }
{
    match reading {
        Ok(value) => Ok(value),
        Err(fault) => Err(fault.wants_memory()),
    }
}
