//! Reading all that there is, within limits.
ghost use Rattle.std.specs.Prelude.{◌≡◌, ◌≢◌, ◌<◌, ◌≤◌, ◌^◌, IfOk, IfErr, IfSome, IsErrOf, length, vec_len};
ghost use Rattle.mr_sim.specs.Fault.{IsReadFault};

use mr_pipe::{PipeFault, read_all};
use mr_sim_commands::SimFault;
use std::alloc::Global;
use std::io::Read;

/// All that the reader has, if that is no more than the limit.
pub(crate) fn read_input<R: Read>(alloc: Global, reader: &mut R) -> Result<Vec<u8>, SimFault>
    ensures limit { IfOk result (λ v. vec_len v ≤ 2 ^ 24) }
    ensures all { IfOk result (λ v. IfSome (R.remaining reader.old) (λ xs. v.items ≡ xs)) }
    ensures long { IsErrOf result SimFault.TooLong → IfSome (R.remaining reader.old) (λ xs. 2 ^ 24 < length xs) }
    ensures kinds { IfErr result IsReadFault }
{
    match read_all(alloc, reader) {
        Ok(Some(bytes)) => Ok(bytes),
        Ok(None) => Err(SimFault::TooLong),
        Err(fault) => Err(read_fault(fault)),
    }
}

// Why an input can't be read.
fn read_fault(fault: PipeFault) -> SimFault
    requires { fault ≢ PipeFault.Write }
    ensures kinds { IsReadFault result }
    ensures short { result ≢ SimFault.TooLong }
{
    match fault {
        PipeFault::Read => SimFault::Read,
        PipeFault::NoMemory => SimFault::NoMemory,
        PipeFault::Write => unreachable!(),
    }
}
