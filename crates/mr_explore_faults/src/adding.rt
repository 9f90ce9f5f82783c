//! Faults are added to those that may befall a run.
ghost use Rattle.std.specs.Prelude.{◌≡◌, ◌++◌, OnOk, map};
ghost use Rattle.std.specs.List.{flat_map, list_any, range_with_len};
ghost use Rattle.mr_explore_faults.specs.declared.fault.Fault.TheVariants as fault;
ghost use Rattle.mr_explore_faults.specs.Kinds.{ends_from, is_delivery, of_attempts, of_delivered, of_kept, of_node, of_tasks};

use crate::fault::Fault;
use mr_ids::{JobId, TaskId, TaskKind};
use mr_packet::ContainerId;
use mr_world_events::Event;
use std::alloc::AllocFailed;
use std::collections::LinkedList;

/// Each of the first `packets` packets, once more, if it was delivered.
pub fn add_of_bag(
    faults: &mut LinkedList<Fault>,
    journal: &[Event],
    packets: u64,
) -> Result<(), AllocFailed<Fault>>
    ensures { OnOk result (faults.new ≡ faults.old ++ flat_map (of_delivered journal.now) (range_with_len 0 packets)) }
{
    for place in 0..packets {
        add_if_delivered(faults, journal, place)?;
    }
    Ok(())
}

// The packet once more, if it was delivered.
fn add_if_delivered(
    faults: &mut LinkedList<Fault>,
    journal: &[Event],
    place: u64,
) -> Result<(), AllocFailed<Fault>>
    ensures { OnOk result (faults.new ≡ faults.old ++ of_delivered journal.now place) }
{
    if was_delivered(journal, place) {
        faults.push_back(Fault::Again(place))?;
    }
    Ok(())
}

fn was_delivered(journal: &[Event], place: u64) -> bool
    ensures { result ≡ list_any (is_delivery place) journal.now }
{
    journal.iter().any(|event| match event {
        Event::Deliver { packet } => *packet == place,
        _ => false,
    })
}

/// The death of each container.
pub fn add_of_containers(
    faults: &mut LinkedList<Fault>,
    living: &[ContainerId],
) -> Result<(), AllocFailed<Fault>>
    ensures { OnOk result (faults.new ≡ faults.old ++ map fault.Death living.now) }
{
    for container in living {
        faults.push_back(Fault::Death(*container))?;
    }
    Ok(())
}

/// A restart and an expiry of each node.
pub fn add_of_nodes(faults: &mut LinkedList<Fault>, nodes: u32) -> Result<(), AllocFailed<Fault>>
    ensures { OnOk result (faults.new ≡ faults.old ++ flat_map of_node (range_with_len 0 nodes)) }
{
    for node in 0..nodes {
        add_of_node(faults, node)?;
    }
    Ok(())
}

fn add_of_node(faults: &mut LinkedList<Fault>, node: u32) -> Result<(), AllocFailed<Fault>>
    ensures { OnOk result (faults.new ≡ faults.old ++ of_node node) }
{
    faults.push_back(Fault::Restart(node))?;
    faults.push_back(Fault::Expiry(node))?;
    Ok(())
}

/// An attempt of each task of a kind on each node.
pub fn add_of_tasks(
    faults: &mut LinkedList<Fault>,
    job: &JobId,
    kind: TaskKind,
    count: u32,
    nodes: u32,
) -> Result<(), AllocFailed<Fault>>
    ensures { OnOk result (faults.new ≡ faults.old ++ of_tasks job.now kind count nodes) }
{
    for number in 0..count {
        let task = TaskId {
            job: *job,
            kind,
            number,
        };
        add_of_task(faults, &task, nodes)?;
    }
    Ok(())
}

fn add_of_task(
    faults: &mut LinkedList<Fault>,
    task: &TaskId,
    nodes: u32,
) -> Result<(), AllocFailed<Fault>>
    ensures { OnOk result (faults.new ≡ faults.old ++ of_attempts nodes task.now) }
{
    for node in 0..nodes {
        faults.push_back(Fault::Attempt(*task, node))?;
    }
    Ok(())
}

/// A crash of the newest master, and its being superseded, where nothing stays of these bytes, or all up to a line feed.
pub fn add_of_ends(faults: &mut LinkedList<Fault>, bytes: &[u8]) -> Result<(), AllocFailed<Fault>>
    ensures { OnOk result (faults.new ≡ faults.old ++ flat_map of_kept (ends_from 0 bytes.now)) }
{
    for (place, byte) in bytes.iter().enumerate() {
        if *byte == b'\n' {
            add_of_kept(faults, place as u64 + 1)?;
        }
    }
    Ok(())
}

/// A crash of the newest master, and its being superseded, where `kept` bytes of its unflushed history stay.
pub fn add_of_kept(faults: &mut LinkedList<Fault>, kept: u64) -> Result<(), AllocFailed<Fault>>
    ensures { OnOk result (faults.new ≡ faults.old ++ of_kept kept) }
{
    faults.push_back(Fault::Crash(kept))?;
    faults.push_back(Fault::Halt(kept))?;
    faults.push_back(Fault::Superseded(kept))?;
    faults.push_back(Fault::SupersededLate(kept))?;
    Ok(())
}
