//! Laws of the readings, for the layers above: these functions do nothing.
ghost use Rattle.mr_task.specs.Changes.{CallsChange, EndsChangeOnlyThat, ReducesAreKept};
ghost use Rattle.mr_task.specs.Laws.{NameStays, AcceptedStays, DoneIsForGood, OneIsAccepted, WonIsForGood, NoFailures, NumbersAreFresh, StatesTell};

/// The name moves only when the named attempt is over, and of a reduce not at all once `Done` of it was accepted.
pub fn name_stays()
    ensures named { NameStays }
    ensures for_good { DoneIsForGood }
{}

/// An accepted attempt stays accepted and is never over; of one reduce at most one is accepted, and none is launched after it.
pub fn accepted_stays()
    ensures accepted { AcceptedStays }
    ensures one { OneIsAccepted }
    ensures won { WonIsForGood }
{}

/// What never counts as a failure.
pub fn no_failures()
    ensures { NoFailures }
{}

/// The numbers of attempts never repeat, and are those of the generation.
pub fn numbers_are_fresh()
    ensures { NumbersAreFresh }
{}

/// An attempt's state tells whether it is live, accepted, over or Succeeded; where one is Recording or Succeeded none is launched.
pub fn states_tell()
    ensures { StatesTell }
{}

/// Why an attempt is over, why it is accepted, and what counts as a failure; what a call that tells of an end leaves as it was.
pub fn calls_change()
    ensures all { CallsChange }
    ensures ends { EndsChangeOnlyThat }
{}

/// The output of a reduce is never lost, so a reduce is won exactly where an attempt is accepted.
pub fn reduces_are_kept()
    ensures { ReducesAreKept }
{}
