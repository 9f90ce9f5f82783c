//! Packets that a master sends.
ghost use Rattle.std.specs.Prelude.{◌≡◌, ◌++◌, OnOk};
ghost use Rattle.mr_packet.specs.Sends.{to_node, to_container};
ghost use Rattle.mr_master_model.specs.Sends.{to_all};

use mr_ids::{AttemptId, TaskId};
use mr_master_model::Launch;
use mr_packet::{Address, ContainerId, Envelope, Packet};
use std::alloc::AllocError;

/// A packet to a node.
pub fn to_node(node: u32, body: Packet) -> Envelope
    ensures { result ≡ to_node node body }
{
    Envelope {
        to: Address::Node(node),
        body,
    }
}

/// A packet to a container.
pub fn to_container(container: ContainerId, body: Packet) -> Envelope
    ensures { result ≡ to_container container body }
{
    Envelope {
        to: Address::Container(container),
        body,
    }
}

/// A Kill to the container of a launch.
pub fn kill(launch: &Launch) -> Envelope
    ensures { result ≡ to_node launch.now.node (Packet.Kill launch.now.container) }
{
    to_node(
        launch.node,
        Packet::Kill {
            container: launch.container,
        },
    )
}

/// Tells every node of a winner.
pub fn push_won(
    packets: &mut Vec<Envelope>,
    nodes: u32,
    task: TaskId,
    attempt: AttemptId,
) -> Result<(), AllocError>
    ensures { OnOk result (packets.new.items ≡ packets.old.items ++ to_all nodes (Packet.Won task attempt)) }
{
    for node in 0..nodes {
        packets.push(to_node(node, Packet::Won { task, attempt }))?;
    }
    Ok(())
}

/// Tells every node of the outcome.
pub fn push_outcome(
    packets: &mut Vec<Envelope>,
    nodes: u32,
    succeeded: bool,
) -> Result<(), AllocError>
    ensures { OnOk result (packets.new.items ≡ packets.old.items ++ to_all nodes (Packet.Outcome succeeded)) }
{
    for node in 0..nodes {
        packets.push(to_node(node, Packet::Outcome { succeeded }))?;
    }
    Ok(())
}
