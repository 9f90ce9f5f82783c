//! What is prepared for a packet, and what it changes. Each packet has its file.
ghost use Rattle.std.specs.Prelude.{◌≡◌, true, IfOk, if◌then◌else◌};
ghost use Rattle.mr_master_model.specs.Readings.{is_running};
ghost use Rattle.mr_master_model.specs.Hearing.{heard};
ghost use Rattle.mr_master_model.specs.Sends.{replies};
ghost use Rattle.mr_master_model.specs.Past.{Hears};
ghost use Rattle.mr_master_model.specs.Next.{sent_by};
ghost use Rattle.mr_master_state.specs.Prepared.{Plans, PlansFor};

use crate::ask::prepare_ask;
use crate::done::prepare_done;
use crate::end::{prepare_ended, prepare_failed};
use crate::node_up::prepare_node_up;
use crate::output::{prepare_loss, prepare_where};
use mr_master_state::{Change, Machine, Prepared};
use mr_packet::Packet;
use std::alloc::AllocError;

/// What is sent for a packet, and what it will change.
pub fn prepare_packet(master: &Machine, packet: &Packet) -> Result<Prepared, AllocError>
    ensures { IfOk result (λ ready. PlansFor master.now (Hears packet.now) ready) }
{
    match packet {
        Packet::NodeUp { node, incarnation } => prepare_node_up(master, *node, *incarnation),
        _ => prepare_if_running(master, packet),
    }
}

// NodeUp aside: nothing where the master is not Running.
fn prepare_if_running(master: &Machine, packet: &Packet) -> Result<Prepared, AllocError>
    ensures { IfOk result (λ ready. Plans master.now ready (λ w s. sent_by w s (Hears packet.now)) (λ w s. if is_running s.work then heard w s packet.now else s)) }
{
    if !master.work.is_running() {
        return Ok(Prepared::silent(master.alloc, Change::Nothing));
    }
    prepare_running(master, packet)
}

// A packet that is heard while Running.
#[tactic(auto, unfolding(mr_master_model::specs::Hearing::heard, mr_master_model::specs::Sends::replies))]
fn prepare_running(master: &Machine, packet: &Packet) -> Result<Prepared, AllocError>
    requires { is_running master.now.work ≡ true }
    ensures { IfOk result (λ ready. Plans master.now ready (λ w s. replies w s (heard w s packet.now) packet.now) (λ w s. heard w s packet.now)) }
{
    match packet {
        Packet::Pending { attempt } => prepare_ask(master, *attempt),
        Packet::Poll { attempt } => prepare_ask(master, *attempt),
        Packet::Done { attempt, bytes } => prepare_done(master, *attempt, *bytes),
        Packet::Failed { attempt } => prepare_failed(master, *attempt),
        Packet::Ended { container } => prepare_ended(master, container),
        Packet::Where { container, map } => prepare_where(master, container, *map),
        Packet::FetchLost { container, attempt } => Ok(prepare_loss(master, *container, *attempt)),
        _ => Ok(Prepared::silent(master.alloc, Change::Nothing)),
    }
}
