//! What is ready for the answers of the calls that are due while Running.
//! These are a bar, an append, a flush, and the creation of COMMIT_STARTED.
ghost use Rattle.std.specs.Prelude.{◌≡◌, ◌∷◌, [], IfOk};
ghost use Rattle.mr_master_model.specs.Past.{Runs};
ghost use Rattle.mr_master_model.specs.Sends.{kill_of};
ghost use Rattle.mr_master_calls.specs.Answering.{IsDue};
ghost use Rattle.mr_master_state.specs.Told.{with_deaths};
ghost use Rattle.mr_master_state.specs.Passing.{NoneLive};
ghost use Rattle.mr_master_state.specs.Prepared.{Plans, PlansDue};

use crate::flush::flush_packets;
use crate::mark::becoming;
use mr_ids::AttemptId;
use mr_master_model::StoreAnswer;
use mr_master_state::mr_master_phase::{Work, is_fine};
use mr_master_state::{Change, Machine, Prepared};
use std::alloc::AllocError;

// The call that is due while Running is answered: a bar, an append, a flush, or the creation of COMMIT_STARTED.
pub fn ready_running(
    master: &Machine,
    answer: &StoreAnswer,
    passed: usize,
) -> Result<Prepared, AllocError>
    requires runs { master.now.work ≡ Runs }
    requires due { IsDue master.now }
    requires none_live { NoneLive master.now passed }
    ensures { IfOk result (λ ready. PlansDue master.now answer.now ready) }
{
    if !is_fine(answer) {
        return becoming(master, Work::stopped());
    }
    if let Some(attempt) = master.first_bar(passed) {
        return ready_bar(master, attempt);
    }
    if let Some(appends) = master.writing.next() {
        if appends {
            return Ok(Prepared::silent(master.alloc, Change::Appends));
        }
        let packets = flush_packets(master)?;
        return Ok(Prepared::new(packets, Change::Flushes(Work::running())));
    }
    let work = Work::commits(&master.setting)?;
    becoming(master, work)
}

// The attempt is barred: it will end, and its container is asked to stop.
fn ready_bar(master: &Machine, attempt: AttemptId) -> Result<Prepared, AllocError>
    ensures { IfOk result (λ ready. Plans master.now ready (λ w s. kill_of w s attempt) (λ w s. with_deaths w s (attempt ∷ []))) }
{
    let mut packets = Vec::new(master.alloc);
    master.push_kill(&mut packets, attempt)?;
    Ok(Prepared::new(packets, Change::Dies(attempt)))
}
