//! Faults that are what comes next anyway.
ghost use Rattle.std.specs.Prelude.{◌≡◌, [], ◌∷◌, ◌++◌, IfOk, OnOk};
ghost use Rattle.mr_ids.specs.Same.{same_task};
ghost use Rattle.mr_packet.specs.Same.{same_container};
ghost use Rattle.mr_explore_faults.specs.Next.{is_next, without_next};

use crate::fault::Fault;
use mr_ids::TaskId;
use mr_packet::ContainerId;
use mr_world_events::Event;
use std::alloc::{AllocFailed, Global};
use std::collections::LinkedList;

/// The faults that are not the event that comes next.
pub fn without_next(
    alloc: Global,
    mut faults: LinkedList<Fault>,
    next: &Option<Event>,
) -> Result<LinkedList<Fault>, AllocFailed<Fault>>
    ensures { IfOk result (λ others. others ≡ without_next next.now faults) }
{
    let mut others = LinkedList::new(alloc);
    while let Some(fault) = faults.pop_front() {
        add_unless_next(&mut others, fault, next)?;
    }
    Ok(others)
}

// The fault, unless it is what comes next.
fn add_unless_next(
    others: &mut LinkedList<Fault>,
    fault: Fault,
    next: &Option<Event>,
) -> Result<(), AllocFailed<Fault>>
    ensures { OnOk result (others.new ≡ others.old ++ without_next next.now (fault ∷ [])) }
{
    if !is_next(next, &fault) {
        others.push_back(fault)?;
    }
    Ok(())
}

fn is_next(next: &Option<Event>, fault: &Fault) -> bool
    ensures { result ≡ is_next next.now fault.now }
{
    match (next, fault) {
        (Some(Event::Deliver { packet }), Fault::Again(place)) => packet == place,
        (Some(Event::Die { container }), Fault::Death(other)) => are_one(container, other),
        (Some(Event::LaunchOn { task, node, .. }), Fault::Attempt(other, place)) => {
            are_one_task(task, other) && node == place
        }
        _ => false,
    }
}

fn are_one(container: &ContainerId, other: &ContainerId) -> bool
    ensures { result ≡ same_container container.now other.now }
{
    container == other
}

fn are_one_task(task: &TaskId, other: &TaskId) -> bool
    ensures { result ≡ same_task task.now other.now }
{
    task == other
}
