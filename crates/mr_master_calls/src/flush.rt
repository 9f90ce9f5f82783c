//! What is told, and what changes, once all that was appended is stable.
//! An attempt whose success was appended is Succeeded then, and a reduce's is told to every node as the winner.
ghost use Rattle.std.specs.Prelude.{◌++◌, IfOk, OnOk};
ghost use Rattle.mr_master_model.specs.Answered.{success_in};
ghost use Rattle.mr_master_model.specs.Sends.{wins, kills_beside, flush_sends};
ghost use Rattle.mr_master_state.specs.State.{Reads, Adds};

use mr_history::Record;
use mr_master_state::Machine;
use mr_master_state::mr_master_tables::push_won;
use mr_packet::Envelope;
use std::alloc::AllocError;

// The packets of a flush: for each record in order, the win to every node, then a Kill to each other live attempt
// of its task.
pub fn flush_packets(master: &Machine) -> Result<Vec<Envelope>, AllocError>
    ensures { IfOk result (λ packets. Reads master.now (λ w s. flush_sends w s s.tail) packets.items) }
{
    let mut packets = Vec::new(master.alloc);
    let tail = master.writing.tail();
    for i in 0..tail.len() {
        let told = tail[i];
        push_told(master, &mut packets, told)?;
    }
    Ok(packets)
}

// Tells what is told once a record is stable.
fn push_told(master: &Machine, packets: &mut Vec<Envelope>, told: Record) -> Result<(), AllocError>
    ensures { OnOk result (Adds master.now packets.old.items (λ w s. wins w told ++ kills_beside w s (success_in told)) packets.new.items) }
{
    match told {
        Record::ReduceSucceeded { attempt, .. } => {
            push_won(packets, master.setting.nodes, attempt.task(), attempt)?;
            master.push_kills(packets, attempt.task())
        }
        Record::MapSucceeded { attempt, .. } => master.push_kills(packets, attempt.task()),
        _ => Ok(()),
    }
}
