//! Laws of the readings, for the layers above: these functions do nothing.
ghost use Rattle.mr_master_model.specs.Laws.{CallsGrow, AcceptedStays, NameStays, OneIsRecorded, OverIsFinal, LaunchedAreKnown, LaunchesAreFresh, KillsGoToLaunched};
ghost use Rattle.mr_master_model.specs.Rows.{FreshMaster, SmallJob};

/// A task is only ever told more, so all laws of tasks hold along a master's past.
pub fn calls_grow()
    ensures { CallsGrow }
{}

/// An accepted attempt stays accepted and is never over.
pub fn accepted_stays()
    ensures { AcceptedStays }
{}

/// The name moves only when the named attempt is over.
pub fn name_stays()
    ensures { NameStays }
{}

/// Of one reduce, the records of a success that are due or unflushed name one attempt.
pub fn one_is_recorded()
    ensures { OneIsRecorded }
{}

/// Whoever was launched is known, the attempt that is launched next was not launched before, and a Kill goes only to a container
/// that was launched.
pub fn launched_are_known()
    ensures known { LaunchedAreKnown }
    ensures fresh { LaunchesAreFresh }
    ensures killed { KillsGoToLaunched }
{}

/// A master that is Ended or Stopped stays so and sends nothing.
pub fn over_is_final()
    ensures { OverIsFinal }
{}

/// What a master that starts looks for, and what it does with what it finds.
pub fn fresh_master()
    ensures { FreshMaster }
{}

/// A job of one map and one reduce, from the start of Running to the job commit.
pub fn small_job()
    ensures { SmallJob }
{}
