//! The recovery of a task (Hadoop's `recoverTask`): what the newest earlier generation committed of it is taken over; call by call, as a step value, and whole.
ghost use Rattle.std.specs.Prelude.{◌≡◌, ◌↔◌, [], ◌∷◌, IsTrue, IfOk};
ghost use Rattle.std.specs.Option.{option_copied};
ghost use Rattle.mr_commit.specs.Line.Line.{Seeks};
ghost use Rattle.mr_commit.specs.CommitterEffect.{Commits, HasEffect};
ghost use Rattle.mr_commit.specs.Halves.{FollowsOf, FitsOf, gone_on};
ghost use Rattle.mr_commit.specs.Recovery.{Left, recover_task, next_of, HearsOf, StepsOf, RecoveryHas, RecoveryMade};

use crate::checks::heard_generation;
use crate::fault::{CommitFault, StepDone};
use crate::line::{before, seeking};
use crate::step::{Following, Step};
use mr_ids::{AppAttempt, TaskId};
use mr_names::{Answer, Caller, NameFault, Namespace, Op};
use mr_paths::Layout;
use std::alloc::AllocError;
use std::collections::LinkedList;
use std::marker::Model;

/// A task's recovery, one call at a time: what the newest earlier generation committed of it takes the place of what this
/// one had committed.
///
/// The earlier generations are looked at from the newest down to the first. Where the length of the part file was
/// recorded, the file has to have it: `WrongLength`. Where nothing is found, or no file to be measured, it is
/// `OutputMissing`. Generation 1 has no earlier one: then no call is made.
#[derive(Drop)]
pub struct RecoverTask {
    step: Step,
    has_earlier: bool,
}

impl Model for RecoverTask {
    ghost use Rattle.mr_commit.specs.Recovery.{Recovery, recovery_of};

    ghost Value = { Recovery };

    ghost view = { λ s. recovery_of s.has_earlier s.step };
}

impl RecoverTask {
    /// The recovery of a task by the master's generation `k`. `bytes` is the recorded length of the part file, where it
    /// was recorded.
    pub fn new(
        layout: &Layout,
        k: AppAttempt,
        task: TaskId,
        bytes: Option<u32>,
    ) -> Result<RecoverTask, AllocError>
        ensures { IfOk result (λ step. step ≡ recover_task layout.now.dest k task bytes) }
    {
        match before(k) {
            None => Ok(RecoverTask {
                step: Step::of_table(LinkedList::new(layout.dest.allocator())),
                has_earlier: false,
            }),
            Some(j) => {
                let step = Step::of_table(seeking(layout, task, bytes, k, j)?);
                Ok(RecoverTask {
                    step,
                    has_earlier: true,
                })
            }
        }
    }

    /// The next call, or none where it is over or there is no earlier generation.
    pub fn call(&self) -> Option<&Op>
        ensures { option_copied result ≡ next_of self.now }
    {
        if self.has_earlier {
            self.step.call()
        } else {
            None
        }
    }

    /// Hears the answer of the next call, and tells whether calls are left.
    ///
    /// A fault is the end: from then on the answer is `Over`, as after `Finished`. But after `NoMemory` all is as
    /// before.
    pub fn took(&mut self, answer: Result<Answer, NameFault>) -> Result<StepDone, CommitFault>
        ensures { HearsOf self.old answer result self.new }
    {
        if self.has_earlier {
            self.step.took(answer)
        } else {
            Err(self.give_up())
        }
    }

    /// Makes ready for the answer of the next call, the lines that follow, and changes nothing. A fault is that of `took`,
    /// and `NoMemory` too.
    pub fn follow(&self, answer: &Result<Answer, NameFault>) -> Result<Following, CommitFault>
        ensures follows { FollowsOf self.now answer.now result }
        ensures fits { IfOk result (λ f. FitsOf f.lines self.now) }
    {
        if self.has_earlier {
            self.step.follow(answer)
        } else {
            Err(CommitFault::OutputMissing)
        }
    }

    /// Hears the answer that it was made ready for: the second half of `took`.
    pub fn go_on(&mut self, following: Following)
        requires { FitsOf following.lines self.old }
        ensures { self.new ≡ gone_on following.lines self.old }
    {
        if self.has_earlier {
            self.step.go_on(following);
        }
    }

    /// Makes the next call and hears its answer: `call`, `Namespace::perform` and `took` in one. Where there is no
    /// earlier generation it makes none and answers `OutputMissing`, also to a caller that is superseded or barred.
    ///
    /// After `NoMemory` the step value and the namespace are as before.
    pub fn next(&mut self, names: &mut Namespace, caller: Caller) -> Result<StepDone, CommitFault>
        ensures { StepsOf self.old names.old caller result self.new names.new }
    {
        if self.has_earlier {
            self.step.next(names, caller)
        } else {
            Err(self.give_up())
        }
    }

    // There is nothing to be recovered, and it is over.
    fn give_up(&mut self) -> CommitFault
        ensures told { result ≡ CommitFault.OutputMissing }
        ensures over { self.new ≡ Left [] }
    {
        self.has_earlier = true;
        self.step.clear();
        CommitFault::OutputMissing
    }

    /// An equal value.
    pub fn copy(&self) -> Result<RecoverTask, AllocError>
        ensures { IfOk result (λ step. step ≡ self.now) }
    {
        let step = self.step.copy()?;
        Ok(RecoverTask {
            step,
            has_earlier: self.has_earlier,
        })
    }

    /// Whether both have the same lines left, or both have no earlier generation. It takes no memory.
    pub fn is_same(&self, other: &RecoverTask) -> bool
        ensures { IsTrue result ↔ (self.now ≡ other.now) }
    {
        if self.has_earlier != other.has_earlier {
            return false;
        }
        if !self.has_earlier {
            return true;
        }
        self.step.is_same(&other.step)
    }
}

/// Recovers a task in the caller's generation: all calls of `RecoverTask`.
///
/// A fault, `NoMemory` too, leaves what the earlier calls did. `NoMemory` comes before the first call, or where the line
/// that is next may allocate. In generation 1 no call is made and the answer is `OutputMissing`, also to a caller that
/// is superseded or barred.
pub fn recover_task(
    names: &mut Namespace,
    caller: Caller,
    layout: &Layout,
    task: TaskId,
    bytes: Option<u32>,
) -> Result<(), CommitFault>
    ensures effect { RecoveryHas (recover_task layout.now.dest caller.app task bytes) names.old caller result names.new }
    ensures made { RecoveryMade (recover_task layout.now.dest caller.app task bytes) names.old caller result names.new }
{
    let by = &caller;
    match before(by.app) {
        None => Err(CommitFault::OutputMissing),
        Some(j) => recover_from(names, by, layout, task, bytes, j),
    }
}

// Recovers a task from generation j or the newest one before it.
fn recover_from(
    names: &mut Namespace,
    caller: &Caller,
    layout: &Layout,
    task: TaskId,
    bytes: Option<u32>,
    j: AppAttempt,
) -> Result<(), CommitFault>
    ensures effect { HasEffect (Seeks layout.now.dest task bytes caller.now.app j ∷ []) names.old caller.now result names.new }
    ensures made { Commits (Seeks layout.now.dest task bytes caller.now.app j ∷ []) names.old caller.now result names.new }
{
    let k = heard_generation(names, caller)?;
    let mut step = Step::of_table(seeking(layout, task, bytes, k, j)?);
    step.finish(names, *caller)
}
