//! Laws of the order, for whoever reasons about scripts: these functions do nothing.
ghost use Rattle.mr_script_order.specs.Laws.{IsOrderOfScripts, NumbersTell, StaysBehind};

/// `sooner` is a strict order of all scripts, in which no two are level.
pub fn scripts_are_in_order()
    ensures { IsOrderOfScripts }
{}

/// It stays where both scripts go on by as many events, and behind a front of both it is that of what follows.
pub fn order_stays_behind()
    ensures { StaysBehind }
{}

/// No two events have the same numbers.
pub fn numbers_tell_events_apart()
    ensures { NumbersTell }
{}
