//! What is next after the reading of the earlier segments. By what the records tell the master sets the job up, or goes
//! on failing.
ghost use Rattle.std.specs.Prelude.{◌≡◌, true, IfOk, if◌then◌else◌};
ghost use Rattle.std.specs.List.{list_any};
ghost use Rattle.mr_commit.specs.Tables.{setup_job};
ghost use Rattle.mr_master_model.specs.Past.{SetsUp, Fails};
ghost use Rattle.mr_master_model.specs.Answered.{is_unsuccessful};
ghost use Rattle.mr_master_phase.specs.WorkKinds.{records_in};

use crate::work::Work;
use mr_history::{Record, Records};
use mr_master_model::{Setting, StoreAnswer};
use mr_master_tables::tells_failure;
use std::alloc::AllocError;

/// What was read. None where the reading was refused.
pub fn records_in(answer: StoreAnswer) -> Option<Records>
    ensures { result ≡ records_in answer }
{
    match answer {
        StoreAnswer::Told(records) => Some(records),
        _ => None,
    }
}

/// What is next: a job that an earlier master recorded as failed goes on failing, each other one is set up.
pub fn read_work(setting: &Setting, records: &[Record]) -> Result<Work, AllocError>
    ensures { IfOk result (λ work. work ≡ (if list_any is_unsuccessful records.now then Fails true else SetsUp (setup_job setting.now.layout.dest setting.now.app))) }
{
    if tells_failure(records) {
        return Ok(Work::fails_so(true));
    }
    let next = Work::sets_up(setting)?;
    Ok(next)
}
