//! What is to be driven.
use mr_board::mr_world::Config;
use mr_world_events::PlanFaults;

/// A job, and the faults that are to befall its run.
///
/// A fault comes as soon as the journal has as many events as it says (`after`), before any other event, and in the plan's order. Behind a crash the next
/// master starts, before all else. A fault that is not permitted when it comes is dropped.
#[derive(Drop)]
pub struct Plan {
    pub config: Config,
    pub faults: PlanFaults,
}
