//! What is ready for the answers of the calls that are due while Failing.
//! These are an append, a flush, and the abort of the job.
ghost use Rattle.std.specs.Prelude.{◌≡◌, IfOk};
ghost use Rattle.mr_master_model.specs.Past.{Fails};
ghost use Rattle.mr_master_calls.specs.Answering.{IsDue};
ghost use Rattle.mr_master_state.specs.Prepared.{PlansDue};

use crate::flush::flush_packets;
use crate::mark::becoming;
use mr_master_model::StoreAnswer;
use mr_master_state::mr_master_phase::{Work, aborted, is_fine};
use mr_master_state::mr_master_tables::either;
use mr_master_state::{Change, Machine, Prepared};
use std::alloc::AllocError;

// The call that is due while Failing is answered: an append, a flush, or the abort.
pub fn ready_failing(
    master: &Machine,
    is_stable: bool,
    answer: &StoreAnswer,
) -> Result<Prepared, AllocError>
    requires fails { master.now.work ≡ Fails is_stable }
    requires due { IsDue master.now }
    ensures { IfOk result (λ ready. PlansDue master.now answer.now ready) }
{
    let Some(appends) = master.writing.next() else {
        let ready = becoming(master, aborted(answer))?;
        return Ok(ready);
    };
    if !is_fine(answer) {
        let ready = becoming(master, Work::stopped())?;
        return Ok(ready);
    }
    if appends {
        return Ok(Prepared::silent(master.alloc, Change::Appends));
    }
    let unsuccessful = master.writing.is_unsuccessful();
    let work = Work::fails_so(either(is_stable, unsuccessful));
    let packets = flush_packets(master)?;
    Ok(Prepared::new(packets, Change::Flushes(work)))
}
