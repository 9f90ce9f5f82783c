//! The recovery plan of a master that starts: what it does with the work of earlier ones. It comes of the marks in the
//! staging folder and the records of the job history.
ghost use Rattle.std.specs.Prelude.{◌≡◌, IfOk, IsOkUnless};
ghost use Rattle.mr_recover.specs.Plan.{IsPlan};

use crate::fault::RecoverFault;
use crate::winner::Winners;
use mr_history::Record;
use std::alloc::Global;

/// Which of the marks of a job commit are in the staging folder.
#[derive(Clone, Copy, Debug, PartialEq, Eq)]
pub struct Staging {
    /// `COMMIT_SUCCESS`: the job succeeded.
    pub success: bool,
    /// `COMMIT_FAIL`: the job commit failed.
    pub fail: bool,
    /// `COMMIT_STARTED`: a job commit began.
    pub started: bool,
}

/// What a master that starts does with the work of the masters before it.
#[derive(Drop)]
pub enum Recovery {
    /// It takes over the reduces that have a winner, and goes on.
    Resume(Winners),
    /// It reports success.
    Succeeded,
    /// It reports failure.
    Failed,
}

impl Recovery {
    /// The plan, by the marks in the staging folder and the records of all earlier segments.
    ///
    /// The first mark decides, in the order `COMMIT_SUCCESS`, `COMMIT_FAIL`, `COMMIT_STARTED`: the job succeeded, or it failed. A
    /// job commit that began is not resumed. Where there is no mark, exactly the reduces that have a winner are taken over, each
    /// with the length that the winner's record tells, by rising task. The only fault is `NoMemory`.
    pub fn plan(
        alloc: Global,
        records: &[Record],
        staging: Staging,
    ) -> Result<Recovery, RecoverFault>
        ensures plan { IfOk result (λ plan. IsPlan records.now staging plan) }
        ensures memory { IsOkUnless result RecoverFault.NoMemory }
    {
        if staging.success {
            return Ok(Recovery::Succeeded);
        }
        if staging.fail || staging.started {
            return Ok(Recovery::Failed);
        }
        Ok(Recovery::Resume(Winners::of_records(alloc, records)?))
    }
}
