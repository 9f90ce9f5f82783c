//! A step value: an operation of the committer as the lines of its table that are left. Which call is next, and what its answer puts in the place of the
//! first line. Each operation's file has the maker of its table.
ghost use Rattle.std.specs.Prelude.{◌≡◌, ◌↔◌, ◌<◌, [], ◌∷◌, ◌++◌, IsTrue, IfOk, OnOk, OnErr, length, drop};
ghost use Rattle.std.specs.Option.{option_copied};
ghost use Rattle.mr_commit.specs.Settles.{Settles};
ghost use Rattle.mr_commit.specs.Steps.{next_call, next_passes, done_at, Hears, Steps};
ghost use Rattle.mr_commit.specs.Halves.{Follows, Fits};
ghost use Rattle.mr_commit.specs.CommitterEffect.{Finishes, HasEffect};

use crate::fault::{CommitFault, StepDone};
use crate::line::TableLine;
use mr_names::{Answer, Caller, NameFault, Namespace, Op};
use std::alloc::AllocError;
use std::collections::LinkedList;
use std::marker::Model;

// One more than the most lines that there are.
const LIMIT: usize = 1 << 63;

/// The lines that follow from the answer of a step value's next call, ready to take the place of its line.
#[derive(Drop)]
pub struct Following {
    lines: LinkedList<TableLine>,
    done: StepDone,
}

impl Model for Following {
    ghost use Rattle.mr_commit.specs.Halves.{Following};

    ghost Value = { Following };

    ghost view = { λ f. record { lines = f.lines; done = f.done } };
}

impl Following {
    /// Whether calls are left once they took that place.
    pub fn done(&self) -> StepDone
        ensures { result ≡ self.now.done }
    {
        self.done
    }
}

/// An operation of the committer, one call at a time: the lines of its table that are left. `setup_job`, `commit_task`,
/// `commit_job`, `abort_task` and `abort_job` make it.
#[derive(Drop)]
pub struct Step {
    left: LinkedList<TableLine>,
}

impl Model for Step {
    ghost use Rattle.std.specs.Prelude.{List};
    ghost use Rattle.mr_commit.specs.Line.{Line};

    ghost Value = { List Line };

    ghost view = { λ s. s.left };
}

impl Step {
    // All lines of a table, in its order.
    pub(crate) fn of_table(table: LinkedList<TableLine>) -> Step
        ensures { result ≡ table }
    {
        Step { left: table }
    }

    // Takes all lines away.
    pub(crate) fn clear(&mut self)
        ensures { self.new ≡ [] }
    {
        self.left.clear();
    }

    /// The next call, or none where it is over.
    pub fn call(&self) -> Option<&Op>
        ensures { option_copied result ≡ next_call self.now }
    {
        self.left.front().map(|line| line.op())
    }

    /// Whether the next call is a deletion for which a missing path is accepted: in a job's commit, that of what was
    /// temporary.
    pub fn cleans_up(&self) -> bool
        ensures { result ≡ next_passes self.now }
    {
        match self.left.front() {
            Some(line) => line.passes_missing(),
            None => false,
        }
    }

    /// An equal value.
    pub fn copy(&self) -> Result<Step, AllocError>
        ensures { IfOk result (λ step. step ≡ self.now) }
    {
        let mut left = LinkedList::new(*self.left.allocator());
        for line in &self.left {
            left.push_back(line.copy()?)?;
        }
        Ok(Step { left })
    }

    /// Whether the same lines are left of both. It takes no memory.
    pub fn is_same(&self, other: &Step) -> bool
        ensures { IsTrue result ↔ (self.now ≡ other.now) }
    {
        let mut rest = other.left.iter();
        for line in &self.left {
            let Some(beside) = rest.next() else {
                return false;
            };
            if !line.is_same(beside) {
                return false;
            }
        }
        rest.next().is_none()
    }

    /// Makes ready for the answer of the next call, the lines that follow, and changes nothing. A fault is that of `took`,
    /// and `NoMemory` too.
    pub fn follow(&self, answer: &Result<Answer, NameFault>) -> Result<Following, CommitFault>
        ensures { Follows self.now answer.now result }
    {
        let Some(line) = self.left.front() else {
            return Err(CommitFault::Over);
        };
        let lines = line.replaced(*self.left.allocator(), answer)?;
        let following = self.following(lines)?;
        Ok(following)
    }

    // These lines, ready to take the place of the first one.
    fn following(&self, lines: LinkedList<TableLine>) -> Result<Following, AllocError>
        requires { 0 < length self.now }
        ensures ok { IfOk result (λ f. f ≡ record { lines = lines; done = done_at (lines ++ drop 1 self.now) }) }
        ensures fits { IfOk result (λ f. Fits f.lines self.now) }
        ensures memory { OnErr result (0 < length lines) }
    {
        if LIMIT - self.left.len() <= lines.len() {
            return Err(AllocError);
        }
        let done = self.done_after(&lines);
        Ok(Following { lines, done })
    }

    // Whether lines are left once these take the place of the first one.
    fn done_after(&self, lines: &LinkedList<TableLine>) -> StepDone
        ensures { result ≡ done_at (lines.now ++ drop 1 self.now) }
    {
        if !lines.is_empty() {
            return StepDone::More;
        }
        if 1 < self.left.len() {
            StepDone::More
        } else {
            StepDone::Finished
        }
    }

    /// Hears the answer that it was made ready for: the second half of `took`.
    pub fn go_on(&mut self, following: Following)
        requires { Fits following.lines self.old }
        ensures { self.new ≡ following.lines ++ drop 1 self.old }
    {
        let Following { lines, .. } = following;
        let mut left = lines;
        let _first = self.left.pop_front();
        let _joined = left.append(&mut self.left);
        self.left = left;
    }

    /// Hears the answer of the next call, and tells whether calls are left.
    ///
    /// A fault is the end: from then on the answer is `Over`, as after `Finished`. But after `NoMemory` all is as
    /// before.
    pub fn took(&mut self, answer: Result<Answer, NameFault>) -> Result<StepDone, CommitFault>
        ensures { Hears self.old answer result self.new }
    {
        match self.follow(&answer) {
            Ok(following) => {
                let done = following.done();
                self.go_on(following);
                Ok(done)
            }
            Err(CommitFault::NoMemory) => Err(CommitFault::NoMemory),
            Err(fault) => {
                self.left.clear();
                Err(fault)
            }
        }
    }

    /// Makes the next call and hears its answer: `call`, `Namespace::perform` and `took` in one.
    ///
    /// After `NoMemory` the step value and the namespace are as before.
    pub fn next(&mut self, names: &mut Namespace, caller: Caller) -> Result<StepDone, CommitFault>
        ensures { Steps self.old names.old caller result self.new names.new }
    {
        let Some(op) = self.call() else {
            return Err(CommitFault::Over);
        };
        let answer = names.perform(caller, op);
        self.took(answer)
    }

    // Makes all calls that are left. An allocation failure leaves what the earlier ones did, and comes only where the line
    // that is next may allocate.
    pub(crate) fn finish(
        &mut self,
        names: &mut Namespace,
        caller: Caller,
    ) -> Result<(), CommitFault>
        requires settles { Settles self.old }
        ensures effect { HasEffect self.old names.old caller result names.new }
        ensures made { Finishes self.old names.old caller result names.new }
    {
        'calls: while self.next(names, caller)? == StepDone::More {}
        Ok(())
    }
}
