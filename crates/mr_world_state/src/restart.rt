//! The event by which a node restarts: its containers end, its shelf is empty, and the living masters are told of its
//! next incarnation.
ghost use Rattle.std.specs.Prelude.{◌≡◌, ◌<◌, ◌≤◌, ◌+◌, ◌-◌, ◌^◌, length, is_some, IfOk, IfSome, if◌then◌else◌, Some, None};
ghost use Rattle.mr_packet.specs.declared.packet.Packet.{Packet};
ghost use Rattle.mr_packet.specs.declared.packet.Packet.TheVariants.{NodeUp};
ghost use Rattle.mr_world_model.specs.Sending.{sent, to_app, to_masters};
ghost use Rattle.mr_world_model.specs.World.{World, NodeRestart};
ghost use Rattle.mr_world_actors.specs.Nodes.{node_of};
ghost use Rattle.mr_world_state.specs.Machines.{master_of};
ghost use Rattle.mr_world_state.specs.Standing.{Standing, Foresees, Tries};

use crate::fault::WorldFault;
use crate::masters::Masters;
use crate::parts::Parts;
use crate::push::push_all;
use crate::room::reserve;
use mr_ids::AppAttempt;
use mr_packet::{Address, Envelope, MAX_PACKETS, Packet};
use mr_world_events::Why;
use std::alloc::{AllocError, Global};

impl Parts {
    /// Whether the node can restart now.
    pub(crate) fn check_restart(&self, n: u32) -> Result<(), WorldFault>
        ensures { Foresees self.now (NodeRestart n) result }
    {
        self.restart_packets(n)?;
        Ok(())
    }

    /// Whether the node can restart now, and the packets by which the living masters are told of its next incarnation.
    pub(crate) fn restart_packets(&self, n: u32) -> Result<Vec<Envelope>, WorldFault>
        ensures foresees { Foresees self.now (NodeRestart n) result }
        ensures rises { IfOk result (λ packets. IfSome (node_of self.now.nodes n) (λ m. m.seen.incarnation < 2 ^ 32 - 1)) }
        ensures sent { IfOk result (λ packets. (w : World) → Standing self.now w → packets.items ≡ sent self.now.config w (NodeRestart n)) }
        ensures room { IfOk result (λ packets. length self.now.bag.packets + length packets.items ≤ MAX_PACKETS) }
    {
        let Some(machine) = self.nodes.get(n) else {
            return Err(WorldFault::NotNow(Why::NoNode));
        };
        let incarnation = machine.incarnation();
        if incarnation == u32::MAX {
            return Err(WorldFault::Full);
        }
        let newest = self.fence();
        self.check_room(self.masters.count_alive(newest))?;
        let alloc = self.allocator();
        let packets = self
            .masters
            .told_of_node(alloc, newest, n, incarnation + 1)?;
        Ok(packets)
    }

    /// The node begins anew, in its next incarnation and with an empty shelf: its containers end, and the living
    /// masters are told.
    pub(crate) fn restart(&mut self, n: u32) -> Result<(), WorldFault>
        ensures tries { Tries self.old (NodeRestart n) result self.new }
        ensures config { self.new.config ≡ self.old.config }
        ensures history { self.new.history ≡ self.old.history }
    {
        let packets = self.restart_packets(n)?;
        reserve(&mut self.bag, packets.len())?;
        self.nodes.restart(n)?;
        self.living.end_on(n);
        push_all(&mut self.bag, packets);
        Ok(())
    }
}

impl Masters {
    /// How many masters, up to this generation, are alive.
    pub(crate) fn count_alive(&self, newest: u32) -> usize
        requires few { newest ≤ 1000 }
        ensures { (p : Packet) → result ≡ length (to_masters (λ k. is_some (master_of self.now k)) newest p) }
    {
        let mut count = 0;
        for older in 0..newest {
            if self.contains(older + 1) {
                count += 1;
            }
        }
        count
    }

    /// The packets by which the living masters, up to this generation, are told of a node's incarnation.
    pub(crate) fn told_of_node(
        &self,
        alloc: Global,
        newest: u32,
        n: u32,
        incarnation: u32,
    ) -> Result<Vec<Envelope>, AllocError>
        requires few { newest ≤ 1000 }
        ensures { IfOk result (λ packets. packets.items ≡ to_masters (λ k. is_some (master_of self.now k)) newest (NodeUp n incarnation)) }
    {
        let mut packets = Vec::new(alloc);
        for older in 0..newest {
            if let Some(packet) = told_up(self, older + 1, n, incarnation) {
                packets.push(packet)?;
            }
        }
        Ok(packets)
    }
}

// The packet by which the master of this generation, if it is alive, is told of a node's incarnation.
fn told_up(masters: &Masters, k: u32, n: u32, incarnation: u32) -> Option<Envelope>
    requires { (1 ≤ k) × (k ≤ 1000) }
    ensures { result ≡ (if is_some (master_of masters.now k) then Some (to_app k (NodeUp n incarnation)) else None) }
{
    match AppAttempt::new(k) {
        Some(app) if masters.contains(k) => Some(Envelope {
            to: Address::Master(app),
            body: Packet::NodeUp {
                node: n,
                incarnation,
            },
        }),
        _ => None,
    }
}
