//! How the program ends, and with which exit status.
ghost use Rattle.std.specs.Prelude.{◌≡◌};
ghost use Rattle.mr_sim.specs.Fault.{exit_status_of};

use mr_sim_commands::SimFault;

/// How the program ended.
#[derive(Clone, Copy, Debug, PartialEq, Eq)]
pub enum Ending {
    /// The subcommand read, ran and wrote.
    Done,
    /// So it did, and the run was not as its script expects.
    Unmet,
    /// The command line asked for help or the version, which was printed.
    Helped,
    /// The command line was refused.
    RefusedWords,
    /// There is this fault, of a subcommand or of the program's streams.
    Failed(SimFault),
}

/// The exit status of the program. It is 0 where the subcommand was done, or what the words asked for was printed. It
/// is 2 where the command line was refused, and 3 where the run was not as its script expects. Where there is a fault
/// it is the fault's.
pub fn exit_status(ending: Ending) -> u8
    ensures { result ≡ exit_status_of ending }
{
    match ending {
        Ending::Done | Ending::Helped => 0,
        Ending::Unmet => 3,
        Ending::RefusedWords => 2,
        Ending::Failed(fault) => fault.status(),
    }
}
