//! Laws of comparisons, for whoever reasons about events and plans: these functions do nothing.
ghost use Rattle.mr_world_events.specs.Laws.{ComparesEvents, ComparesPlans};

/// `==` of two events holds exactly where they are equal.
pub fn events_are_compared()
    ensures { ComparesEvents }
{}

/// `==` of the faults of two plans holds exactly where they are equal.
pub fn plans_are_compared()
    ensures { ComparesPlans }
{}
