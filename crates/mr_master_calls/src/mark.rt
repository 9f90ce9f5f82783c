//! What is ready for the answers of looks for marks, of marks that are created, and wherever the work alone changes.
//! The marks are the files COMMIT_STARTED, COMMIT_SUCCESS and COMMIT_FAIL in the staging folder.
ghost use Rattle.std.specs.Prelude.{◌≡◌, true, IfOk};
ghost use Rattle.mr_master_model.specs.Sends.{outcome_of};
ghost use Rattle.mr_master_state.specs.mr_master_phase.specs.WorkKinds.{is_look, is_tell};
ghost use Rattle.mr_master_state.specs.State.{Reads};
ghost use Rattle.mr_master_state.specs.Prepared.{Plans, PlansDue};

use mr_master_model::StoreAnswer;
use mr_master_state::mr_master_phase::Work;
use mr_master_state::mr_master_tables::push_outcome;
use mr_master_state::{Change, Machine, Prepared};
use mr_packet::Envelope;
use std::alloc::AllocError;

// A look for a mark is answered.
pub fn ready_look(master: &Machine, answer: &StoreAnswer) -> Result<Prepared, AllocError>
    requires { is_look master.now.work ≡ true }
    ensures { IfOk result (λ ready. PlansDue master.now answer.now ready) }
{
    becoming(master, master.work.look(answer))
}

// The creation of a mark, or the abort after COMMIT_FAIL, is answered.
pub fn ready_tell(master: &Machine, answer: &StoreAnswer) -> Result<Prepared, AllocError>
    requires { is_tell master.now.work ≡ true }
    ensures { IfOk result (λ ready. PlansDue master.now answer.now ready) }
{
    becoming(master, master.work.told(answer))
}

// The work alone changes. Where the job ended with it, every node is told.
pub fn becoming(master: &Machine, work: Work) -> Result<Prepared, AllocError>
    ensures { IfOk result (λ ready. Plans master.now ready (λ w s. outcome_of w work) (λ w s. record s { work = work })) }
{
    let packets = outcome_packets(master, &work)?;
    Ok(Prepared::new(packets, Change::Becomes(work)))
}

// Where the job ended, the outcome, to every node.
fn outcome_packets(master: &Machine, work: &Work) -> Result<Vec<Envelope>, AllocError>
    ensures { IfOk result (λ packets. Reads master.now (λ w s. outcome_of w work.now) packets.items) }
{
    let mut packets = Vec::new(master.alloc);
    if let Some(succeeded) = work.outcome() {
        push_outcome(&mut packets, master.setting.nodes, succeeded)?;
    }
    Ok(packets)
}
