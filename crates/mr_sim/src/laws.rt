//! A law of the definitions: this function does nothing.
ghost use Rattle.mr_sim.specs.Laws.{PrintedOrRefused};

/// No input is both printed and refused, by any subcommand, for what is a fault of the input itself. Where threads run a job, or `explore` has a time or leaves
/// out runs, a limit may be passed or not.
pub fn printed_or_refused()
    ensures { PrintedOrRefused }
{}
