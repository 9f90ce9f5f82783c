//! What a run that is as planned is, in plain words. The calls here do nothing: their contracts are the laws.
ghost use Rattle.mr_board_report.specs.Laws.{FaultsAreMadeOrRefused, OnlyPlannedFaultsHappen, RefusalsChangeNothing};

/// Each fault of a plan that came is the next event at a place where it was due, or the world there refuses it.
#[tactic(auto, using(crate::proofs::Came::made_or_refused))]
pub fn faults_are_made_or_refused()
    ensures { FaultsAreMadeOrRefused }
{}

/// The crashes, restarts and expiries of a run are, in order, some of the plan's. No start keeps anything of an unflushed
/// history, and no store call is disturbed.
#[tactic(auto, using(crate::proofs::Came::only_planned))]
pub fn only_planned_faults_happen()
    ensures { OnlyPlannedFaultsHappen }
{}

/// Where a call of a run is refused, the run and the seat are as before.
#[tactic(auto, using(crate::proofs::Refusals::refusals))]
pub fn refusals_change_nothing()
    ensures { RefusalsChangeNothing }
{}
