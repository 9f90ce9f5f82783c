//! Laws of the standings, for the layers above: these functions do nothing.
ghost use Rattle.mr_log_standing.specs.Laws.{WinnersStay, StandingsStay, JobsStay, DecisionsAreLawful};

/// A winner that is there stays when lines are added, with what it handed in.
pub fn winners_stay()
    ensures { WinnersStay }
{}

/// Who has won stays so; who has lost never wins, and is started at most once.
pub fn standings_stay()
    ensures { StandingsStay }
{}

/// A job that was ended as failed is never published; one that may be published is never ended as
/// failed.
pub fn jobs_stay()
    ensures { JobsStay }
{}

/// What an order decides from the whole of a log may follow it.
pub fn decisions_are_lawful()
    ensures { DecisionsAreLawful }
{}
