//! Which operation is asked for, and its step value.
ghost use Rattle.std.specs.Prelude.{◌≡◌, IfOk, IsErr, MatchResult};
ghost use Rattle.std.specs.Option.{option_copied};
ghost use Rattle.mr_commit.specs.Recovery.{next_of, HearsOf};
ghost use Rattle.mr_commit.specs.Recovery.Recovery.{Left};
ghost use Rattle.mr_step.specs.Wish.{table};

use mr_commit::{CommitFault, RecoverTask, Step, StepDone};
use mr_ids::{AppAttempt, AttemptId, TaskId};
use mr_names::{Answer, NameFault, Op};
use mr_paths::Layout;
use std::alloc::AllocError;
use std::marker::Model;

/// An operation of the committer.
#[derive(Clone, Copy, Debug, PartialEq, Eq)]
pub enum Wish {
    /// The job attempt path is made.
    SetupJob,
    /// The attempt's output takes the place of what its task had committed.
    CommitTask(AttemptId),
    /// The attempt's output is deleted.
    AbortTask(AttemptId),
    /// All committed output goes to the destination, then comes the marker.
    CommitJob,
    /// What was temporary is deleted.
    AbortJob,
    /// What an earlier generation committed of the task is taken over; with the recorded length of its part file, if there is one.
    RecoverTask(TaskId, Option<u32>),
}

/// The calls of an operation that are left.
#[derive(Drop)]
pub struct Moves {
    left: Calls,
}

// The same, by whose they are.
#[derive(Drop)]
enum Calls {
    // Those of an operation of one generation alone.
    Plain(Step),
    // Those of a recovery.
    Recovery(RecoverTask),
}

impl Model for Moves {
    ghost use Rattle.mr_commit.specs.Recovery.{Recovery};
    ghost use Rattle.mr_step.specs.inner.Moves.{left_of};

    ghost Value = { Recovery };

    ghost view = { λ m. left_of m.left };
}

impl Moves {
    /// All calls of an operation of this generation.
    pub fn new(layout: &Layout, generation: AppAttempt, wish: Wish) -> Result<Moves, AllocError>
        ensures { IfOk result (λ moves. moves ≡ table wish layout.now.dest generation) }
    {
        match wish {
            Wish::SetupJob => plain(Step::setup_job(layout, generation)),
            Wish::CommitTask(attempt) => plain(Step::commit_task(layout, generation, attempt)),
            Wish::AbortTask(attempt) => plain(Step::abort_task(layout, generation, attempt)),
            Wish::CommitJob => plain(Step::commit_job(layout, generation)),
            Wish::AbortJob => plain(Step::abort_job(layout)),
            Wish::RecoverTask(task, bytes) => {
                let step = RecoverTask::new(layout, generation, task, bytes)?;
                Ok(Moves {
                    left: Calls::Recovery(step),
                })
            }
        }
    }

    /// The next call, if there is one.
    pub fn call(&self) -> Option<&Op>
        ensures { option_copied result ≡ next_of self.now }
    {
        match &self.left {
            Calls::Plain(step) => step.call(),
            Calls::Recovery(step) => step.call(),
        }
    }

    /// Hears the answer of the next call, and tells whether calls are left.
    pub fn took(&mut self, answer: Result<Answer, NameFault>) -> Result<StepDone, CommitFault>
        ensures { HearsOf self.old answer result self.new }
    {
        match &mut self.left {
            Calls::Plain(step) => step.took(answer),
            Calls::Recovery(step) => step.took(answer),
        }
    }
}

// The calls of an operation of one generation alone.
fn plain(step: Result<Step, AllocError>) -> Result<Moves, AllocError>
    ensures { MatchResult step (λ lines. IfOk result (λ moves. moves ≡ Left lines)) (λ _. IsErr result) }
{
    match step {
        Ok(step) => Ok(Moves {
            left: Calls::Plain(step),
        }),
        Err(error) => Err(error),
    }
}
