//! A node is given up.
ghost use Rattle.std.specs.Prelude.{flat_map, None, IfOk, IfErr, OnOk, unwrap_or};
ghost use Rattle.mr_master_model.specs.Job.{first_tasks, count_of};
ghost use Rattle.mr_master_model.specs.Readings.{expire_refusal};
ghost use Rattle.mr_master_model.specs.Hearing.{expired};
ghost use Rattle.mr_master_model.specs.Past.{Expires};
ghost use Rattle.mr_master_model.specs.Sends.{kill_of};
ghost use Rattle.mr_master_events.specs.inner.Expiring.{kills_on};
ghost use Rattle.mr_master_state.specs.mr_master_tables.specs.Gone.{gone_of};
ghost use Rattle.mr_master_state.specs.Prepared.{Plans, PlansFor, IsExpiry};
ghost use Rattle.mr_master_state.specs.State.{Reads};

use crate::launch::no_memory;
use mr_ids::{AttemptId, TaskKind};
use mr_master_model::LaunchFault;
use mr_master_state::mr_master_tables::Gone;
use mr_master_state::{Change, Machine, Prepared};
use mr_packet::Envelope;
use mr_task::TaskFault;
use std::alloc::AllocError;

/// Why the node is not given up, memory aside.
pub fn expire_refusal(master: &Machine, node: u32) -> Option<LaunchFault>
    ensures { Reads master.now (λ w s. expire_refusal w s node) result }
{
    if !master.work.is_running() {
        return Some(LaunchFault::NotRunning);
    }
    if node >= master.setting.nodes {
        return Some(LaunchFault::NoNode);
    }
    None
}

/// What is sent where the node is given up, and what will change.
pub fn prepare_expiry(master: &Machine, node: u32) -> Result<Prepared, LaunchFault>
    ensures planned { IfOk result (λ prepared. PlansFor master.now (Expires node) prepared) }
    ensures expiry { IfOk result (λ prepared. IsExpiry prepared.change) }
    ensures allowed { OnOk result (Reads master.now (λ w s. expire_refusal w s node) None) }
    ensures refused { IfErr result (λ fault. Reads master.now (λ w s. unwrap_or (expire_refusal w s node) (LaunchFault.Task TaskFault.NoMemory)) fault) }
{
    if let Some(fault) = expire_refusal(master, node) {
        return Err(fault);
    }
    match give_up(master, node) {
        Ok(prepared) => Ok(prepared),
        Err(_) => Err(no_memory()),
    }
}

// The same where nothing refuses it: the Kills that are sent, and what will change.
fn give_up(master: &Machine, node: u32) -> Result<Prepared, AllocError>
    ensures planned { IfOk result (λ prepared. Plans master.now prepared (λ w s. kills_on w s node) (λ w s. expired w s node)) }
    ensures expiry { IfOk result (λ prepared. IsExpiry prepared.change) }
{
    let gone = Gone::GivenUp(node);
    let dead = gone_of_kind(master, TaskKind::Map, &gone)?;
    let lost = master.all_lost(&gone)?;
    let late = gone_of_kind(master, TaskKind::Reduce, &gone)?;
    let packets = kills(master, &dead)?;
    Ok(Prepared::new(packets, Change::GivesUp { dead, lost, late }))
}

// The attempts at the tasks of a kind that are live and gone.
fn gone_of_kind(master: &Machine, kind: TaskKind, gone: &Gone) -> Result<Vec<AttemptId>, AllocError>
    ensures { IfOk result (λ attempts. Reads master.now (λ w s. flat_map (gone_of w s gone.now) (first_tasks w kind (count_of w kind))) attempts.items) }
{
    let mut attempts = Vec::new(master.alloc);
    master.push_all_gone(&mut attempts, kind, gone)?;
    Ok(attempts)
}

// Kills to the containers of attempts.
fn kills(master: &Machine, attempts: &[AttemptId]) -> Result<Vec<Envelope>, AllocError>
    ensures { IfOk result (λ packets. Reads master.now (λ w s. flat_map (kill_of w s) attempts.now) packets.items) }
{
    let mut packets = Vec::new(master.alloc);
    master.push_each_kill(&mut packets, attempts)?;
    Ok(packets)
}
