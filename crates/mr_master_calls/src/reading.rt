//! What is ready for the answer of the reading of the earlier segments.
//! By what the records tell the master sets the job up, or goes on failing; where the reading is refused, it stops.
ghost use Rattle.std.specs.Prelude.{◌≡◌, true, IfOk};
ghost use Rattle.mr_master_state.specs.mr_master_phase.specs.WorkKinds.{is_read};
ghost use Rattle.mr_master_state.specs.Prepared.{PlansDue};

use mr_master_model::StoreAnswer;
use mr_master_state::mr_master_phase::{Work, read_work, records_in};
use mr_master_state::mr_master_tables::Earlier;
use mr_master_state::{Boxed, Change, Machine, Prepared};
use std::alloc::AllocError;

// The earlier segments are read, or that is refused. Nothing is sent.
pub fn ready_read(master: &Machine, answer: StoreAnswer) -> Result<Prepared, AllocError>
    requires { is_read master.now.work ≡ true }
    ensures { IfOk result (λ ready. PlansDue master.now answer ready) }
{
    let Some(records) = records_in(answer) else {
        return Ok(Prepared::silent(master.alloc, Change::Becomes(Work::stopped())));
    };
    let read = Earlier::of(master.alloc, records)?;
    let next = read_work(&master.setting, read.as_slice())?;
    let earlier = Boxed::new(master.alloc, read)?;
    Ok(Prepared::silent(
        master.alloc,
        Change::HasRead {
            records: earlier,
            work: next,
        },
    ))
}
