//! How many threads a plan needs.
use mr_board_report::Plan;
use mr_world_events::PlanAct;

/// How many masters a plan can start: one, and one more for each master fault.
pub(crate) fn masters(plan: &Plan) -> u32 {
    let mut masters = 1u32;
    for fault in plan.faults.as_slice() {
        if let PlanAct::Master(_) = fault.act {
            masters = masters.saturating_add(1);
        }
    }
    masters
}
