//! The identifiers as values: a job, a task, a task attempt, and an application attempt (the generation of a master), with their ranges and their texts.
ghost use Rattle.std.specs.Prelude.{◌≡◌, ◌<◌, ◌≤◌, ◌/◌, ◌+◌, ◌++◌, ◌∷◌, codes, SomeIff, IfOk, IfErr, OnOk, OnErr};
ghost use Rattle.std.specs.List.{slice_split};
ghost use Rattle.mr_ids.specs.Attempt.{Attempt};
ghost use Rattle.mr_ids.specs.Generations.{first_attempt_number, generation_of};
ghost use Rattle.mr_ids.specs.Kind.{is_map, is_reduce};
ghost use Rattle.mr_ids.specs.Text.{is_bar, numeral, job_fields, task_fields, attempt_fields, job_text, task_text, attempt_text, IsJob, IsTask, IsAttempt, IsPlain};
ghost use Rattle.mr_ids.specs.Faults.{first_fault, job_places, task_places, attempt_places};
ghost use Rattle.mr_ids.specs.Reading.{TakesAll};

use crate::fault::IdFault;
use crate::reading;
use std::alloc::AllocError;
use std::marker::Model;

/// A job: when its cluster started, as a number, and the job's number there.
///
/// Its text is `job_<start>_<number>`, the number in at least four digits, as
/// `job_200707121733_0003`: what `write` appends, `{}` prints and `parse` reads.
/// Jobs are ordered by start, then by number.
#[derive(Clone, Copy, Debug, PartialEq, Eq, PartialOrd, Ord, Hash)]
pub struct JobId {
    pub start: u64,
    pub number: u32,
}

impl JobId {
    /// Reads a job's text. Any other text is refused, another spelling of a number too, with the
    /// first fault from the left.
    pub fn parse(text: &str) -> Result<JobId, IdFault>
        // What is read is spelled so, and in range.
        ensures found { IfOk result (λ j. text.now ≡ job_text j) }
        ensures ranges { IfOk result IsJob }
        // What is spelled so is read.
        ensures only { (j : JobId) → IsJob j → text.now ≡ job_text j → result ≡ Ok j }
        // Which fault it is: the first from the left.
        ensures exact { IfErr result (λ fault.
            first_fault job_places (slice_split is_bar text.now) ≡ Some fault) }
    {
        JobId::read(text)
    }

    fn read(text: &str) -> Result<JobId, IdFault>
        ensures { TakesAll job_places (λ j. codes "job" ∷ job_fields j)
            (slice_split is_bar text.now) result }
    {
        let rest = reading::word(text, "job")?;
        let (job, rest) = reading::job(rest)?;
        reading::end(rest)?;
        Ok(job)
    }

    /// Appends the job's text. Where memory is refused, nothing is appended.
    pub fn write(&self, out: &mut Vec<u8>) -> Result<(), AllocError>
        ensures ok { OnOk result (out.new.items ≡ out.old.items ++ job_text self.now) }
        ensures err { OnErr result (out.new.items ≡ out.old.items) }
        ensures plain { IsPlain 35 (job_text self.now) }
    {
        self.ranges();
        let text = self.to_string(*out.allocator())?;
        out.extend_from_slice(text.as_bytes())
    }

    /// A law, which does nothing: the ranges of the numbers, as their types bound them.
    pub fn ranges(&self)
        ensures { IsJob self.now }
    {
        let _start = self.start;
        let _number = self.number;
    }
}

/// What a task does: `Map` comes before `Reduce`. In a task's text it is `m` or `r`.
#[derive(Clone, Copy, Debug, PartialEq, Eq, PartialOrd, Ord, Hash)]
pub enum TaskKind {
    Map,
    Reduce,
}

impl TaskKind {
    /// Whether a task of this kind is a map.
    pub fn is_map(self) -> bool
        ensures { result ≡ is_map self }
    {
        matches!(self, TaskKind::Map)
    }

    /// Whether a task of this kind is a reduce.
    pub fn is_reduce(self) -> bool
        ensures { result ≡ is_reduce self }
    {
        matches!(self, TaskKind::Reduce)
    }
}

/// A task: its job, its kind, and its number among the job's tasks of that kind.
///
/// Its text is `task_<start>_<job>_<m or r>_<number>`, the number in at least six digits, as
/// `task_200707121733_0003_m_000005`. Tasks are ordered by job, then by kind, then by number.
#[derive(Clone, Copy, Debug, PartialEq, Eq, PartialOrd, Ord, Hash)]
pub struct TaskId {
    pub job: JobId,
    pub kind: TaskKind,
    pub number: u32,
}

impl TaskId {
    /// Reads a task's text. Any other text is refused, another spelling of a number too, with the
    /// first fault from the left.
    pub fn parse(text: &str) -> Result<TaskId, IdFault>
        // What is read is spelled so, and in range.
        ensures found { IfOk result (λ t. text.now ≡ task_text t) }
        ensures ranges { IfOk result IsTask }
        // What is spelled so is read.
        ensures only { (t : TaskId) → IsTask t → text.now ≡ task_text t → result ≡ Ok t }
        // Which fault it is: the first from the left.
        ensures exact { IfErr result (λ fault.
            first_fault task_places (slice_split is_bar text.now) ≡ Some fault) }
    {
        TaskId::read(text)
    }

    fn read(text: &str) -> Result<TaskId, IdFault>
        ensures { TakesAll task_places (λ t. codes "task" ∷ task_fields t)
            (slice_split is_bar text.now) result }
    {
        let rest = reading::word(text, "task")?;
        let (task, rest) = reading::task(rest)?;
        reading::end(rest)?;
        Ok(task)
    }

    /// Appends the task's text. Where memory is refused, nothing is appended.
    pub fn write(&self, out: &mut Vec<u8>) -> Result<(), AllocError>
        ensures ok { OnOk result (out.new.items ≡ out.old.items ++ task_text self.now) }
        ensures err { OnErr result (out.new.items ≡ out.old.items) }
        ensures plain { IsPlain 49 (task_text self.now) }
    {
        self.ranges();
        let text = self.to_string(*out.allocator())?;
        out.extend_from_slice(text.as_bytes())
    }

    /// A law, which does nothing: the ranges of the numbers, as their types bound them.
    pub fn ranges(&self)
        ensures { IsTask self.now }
    {
        self.job.ranges();
        let _number = self.number;
    }
}

/// An attempt at a task: the task, and the attempt's number there, which is below 1,000,000.
///
/// Its text is `attempt_<start>_<job>_<m or r>_<task>_<number>`, as
/// `attempt_200707121733_0003_m_000005_0`. Attempts are ordered by task, then by number.
#[derive(Clone, Copy, Debug, PartialEq, Eq, PartialOrd, Ord, Hash)]
pub struct AttemptId {
    task: TaskId,
    number: u32,
}

impl Model for AttemptId {
    ghost use Rattle.std.specs.Prelude.{◌<◌};
    ghost use Rattle.mr_ids.specs.Attempt.{Attempt};

    ghost Value = { Attempt };

    ghost view = { λ a. record { task = a.task; number = a.number } };

    ghost invariant = { λ a. a.number < 1000000 };

    ghost inverse = { λ v. record { task = v.task; number = v.number } };
}

impl AttemptId {
    /// The attempt at a task with a number, if the number is below 1,000,000.
    pub fn new(task: TaskId, number: u32) -> Option<AttemptId>
        ensures { SomeIff result (number < 1000000) (record { task = task; number = number }) }
    {
        if number < 1_000_000 {
            Some(AttemptId { task, number })
        } else {
            None
        }
    }

    /// The task that is attempted.
    pub fn task(&self) -> TaskId
        ensures { result ≡ self.now.task }
    {
        self.task
    }

    /// The number of the attempt among those at its task, from 0.
    pub fn number(&self) -> u32
        ensures value { result ≡ self.now.number }
        ensures range { result < 1000000 }
    {
        self.number
    }

    /// The generation of the master that numbered this attempt: that whose numbers, a thousand from
    /// `AppAttempt::first_attempt_number` on, this number is among.
    pub fn generation(&self) -> AppAttempt
        ensures { result ≡ generation_of self.now.number }
    {
        AppAttempt {
            number: self.number / 1000 + 1,
        }
    }

    /// Reads an attempt's text. Any other text is refused, another spelling of a number too, with
    /// the first fault from the left.
    pub fn parse(text: &str) -> Result<AttemptId, IdFault>
        // What is read is spelled so, and in range.
        ensures found { IfOk result (λ a. text.now ≡ attempt_text a) }
        ensures ranges { IfOk result IsAttempt }
        // What is spelled so is read.
        ensures only { (a : Attempt) → IsAttempt a → text.now ≡ attempt_text a → result ≡ Ok a }
        // Which fault it is: the first from the left.
        ensures exact { IfErr result (λ fault.
            first_fault attempt_places (slice_split is_bar text.now) ≡ Some fault) }
    {
        AttemptId::read(text)
    }

    fn read(text: &str) -> Result<AttemptId, IdFault>
        ensures { TakesAll attempt_places (λ a. codes "attempt" ∷ attempt_fields a)
            (slice_split is_bar text.now) result }
    {
        let rest = reading::word(text, "attempt")?;
        let (task, rest) = reading::task(rest)?;
        let (number, rest) = reading::number(rest, 1, 999_999)?;
        reading::end(rest)?;
        let number = number as u32;
        Ok(AttemptId { task, number })
    }

    /// Appends the attempt's text. Where memory is refused, nothing is appended.
    pub fn write(&self, out: &mut Vec<u8>) -> Result<(), AllocError>
        ensures ok { OnOk result (out.new.items ≡ out.old.items ++ attempt_text self.now) }
        ensures err { OnErr result (out.new.items ≡ out.old.items) }
        ensures plain { IsPlain 59 (attempt_text self.now) }
    {
        self.ranges();
        let text = self.to_string(*out.allocator())?;
        out.extend_from_slice(text.as_bytes())
    }

    /// A law, which does nothing: the ranges of the numbers, as their types bound them.
    pub fn ranges(&self)
        ensures { IsAttempt self.now }
    {
        self.task.ranges();
        let _number = self.number;
    }
}

/// How many application attempts (generations of the master) a job has at most, which is the
/// greatest number of one. YARN has its limit (`yarn.resourcemanager.am.max-attempts`) for each
/// cluster; this one is our own.
pub const MAX_APP_ATTEMPTS: u32 = 1000;

/// An application attempt, or generation of the master: a number from 1 to `MAX_APP_ATTEMPTS`.
///
/// Its text is the number in decimal. A later generation is greater.
#[derive(Clone, Copy, Debug, PartialEq, Eq, PartialOrd, Ord, Hash)]
pub struct AppAttempt {
    number: u32,
}

impl Model for AppAttempt {
    ghost use Rattle.std.specs.Prelude.{ℕ, ◌≤◌};

    ghost Value = { ℕ };

    ghost view = { λ a. a.number };

    ghost invariant = { λ a. (1 ≤ a.number) × (a.number ≤ 1000) };

    ghost inverse = { λ n. record { number = n } };
}

impl AppAttempt {
    /// The generation with a number, if it is from 1 to `MAX_APP_ATTEMPTS`.
    pub fn new(number: u32) -> Option<AppAttempt>
        ensures { SomeIff result ((1 ≤ number) × (number ≤ 1000)) number }
    {
        if 1 <= number && number <= MAX_APP_ATTEMPTS {
            Some(AppAttempt { number })
        } else {
            None
        }
    }

    /// The number, from 1 to 1,000.
    pub fn number(&self) -> u32
        ensures value { result ≡ self.now }
        ensures range { (1 ≤ self.now) × (self.now ≤ 1000) }
    {
        self.number
    }

    /// The first number that this generation gives to an attempt at each task: `1000 * (k - 1)`.
    pub fn first_attempt_number(&self) -> u32
        ensures value { result ≡ first_attempt_number self.now }
        ensures range { result < 1000000 }
    {
        1000 * (self.number - 1)
    }

    /// Appends the number in decimal. Where memory is refused, nothing is appended.
    pub fn write(&self, out: &mut Vec<u8>) -> Result<(), AllocError>
        ensures ok { OnOk result (out.new.items ≡ out.old.items ++ numeral 1 self.now) }
        ensures err { OnErr result (out.new.items ≡ out.old.items) }
        ensures plain { IsPlain 4 (numeral 1 self.now) }
    {
        let text = self.number().to_string(*out.allocator())?;
        out.extend_from_slice(text.as_bytes())
    }
}
