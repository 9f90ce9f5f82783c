//! Laws of the table, for the layers above: these functions do nothing.
ghost use Rattle.mr_attempt.specs.Laws.{EndsAreFinal, Wins, Lives};

/// An attempt that failed or was killed is never in another state.
pub fn ends_are_final()
    ensures { EndsAreFinal }
{}

/// What an attempt can still become once its `Done` was accepted: of a reduce nothing else, of a map `Killed` when its
/// recorded output is lost.
pub fn wins()
    ensures { Wins }
{}

/// How an attempt becomes live, once, and how it ceases to be.
pub fn lives()
    ensures { Lives }
{}
