//! The texts of identifiers as `{}` writes them.
ghost use Rattle.std.specs.Prelude.{Some};
ghost use Rattle.mr_ids.specs.Text.{numeral, letter, job_text, task_text, attempt_text};

use crate::id::{AppAttempt, AttemptId, JobId, TaskId, TaskKind};
use std::fmt;

impl fmt::Display for TaskKind {
    ghost output = { λ k. Some (letter k) };

    fn fmt<W: fmt::Write>(&self, f: &mut fmt::Formatter<W>) -> fmt::Result {
        match self {
            TaskKind::Map => f.write_str("m"),
            TaskKind::Reduce => f.write_str("r"),
        }
    }
}

impl fmt::Display for JobId {
    ghost output = { λ j. Some (job_text j) };

    fn fmt<W: fmt::Write>(&self, f: &mut fmt::Formatter<W>) -> fmt::Result {
        let JobId { start, number } = *self;
        write!(f, "job_{start}_{number:04}")
    }
}

impl fmt::Display for TaskId {
    ghost output = { λ t. Some (task_text t) };

    fn fmt<W: fmt::Write>(&self, f: &mut fmt::Formatter<W>) -> fmt::Result {
        let start = self.job.start;
        let job = self.job.number;
        let kind = self.kind;
        let number = self.number;
        write!(f, "task_{start}_{job:04}_{kind}_{number:06}")
    }
}

impl fmt::Display for AttemptId {
    ghost output = { λ a. Some (attempt_text a) };

    fn fmt<W: fmt::Write>(&self, f: &mut fmt::Formatter<W>) -> fmt::Result {
        let task = self.task();
        let start = task.job.start;
        let job = task.job.number;
        let kind = task.kind;
        let number = task.number;
        let attempt = self.number();
        write!(f, "attempt_{start}_{job:04}_{kind}_{number:06}_{attempt}")
    }
}

impl fmt::Display for AppAttempt {
    ghost output = { λ k. Some (numeral 1 k) };

    fn fmt<W: fmt::Write>(&self, f: &mut fmt::Formatter<W>) -> fmt::Result {
        let number = self.number();
        write!(f, "{number}")
    }
}
