//! Identifiers as `text.parse()` reads them: by the type's own `parse`.
use crate::fault::IdFault;
use crate::id::{AttemptId, JobId, TaskId};
use std::str::FromStr;

impl FromStr for JobId {
    ghost use Rattle.mr_ids.specs.Text.{job_text, IsJob};
    ghost use Rattle.mr_ids.specs.Faults.{job_places};
    ghost use Rattle.mr_ids.specs.Reading.{Reads};

    type Err = IdFault;

    ghost from_str_gives = { Reads job_text IsJob job_places };

    fn from_str(text: &str) -> Result<JobId, IdFault> {
        JobId::parse(text)
    }
}

impl FromStr for TaskId {
    ghost use Rattle.mr_ids.specs.Text.{task_text, IsTask};
    ghost use Rattle.mr_ids.specs.Faults.{task_places};
    ghost use Rattle.mr_ids.specs.Reading.{Reads};

    type Err = IdFault;

    ghost from_str_gives = { Reads task_text IsTask task_places };

    fn from_str(text: &str) -> Result<TaskId, IdFault> {
        TaskId::parse(text)
    }
}

impl FromStr for AttemptId {
    ghost use Rattle.mr_ids.specs.Text.{attempt_text, IsAttempt};
    ghost use Rattle.mr_ids.specs.Faults.{attempt_places};
    ghost use Rattle.mr_ids.specs.Reading.{Reads};

    type Err = IdFault;

    ghost from_str_gives = { Reads attempt_text IsAttempt attempt_places };

    fn from_str(text: &str) -> Result<AttemptId, IdFault> {
        AttemptId::parse(text)
    }
}
