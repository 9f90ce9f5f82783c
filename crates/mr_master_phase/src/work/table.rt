//! What comes of the answer of a call of a committer's table, and what is next after its last one.
ghost use Rattle.std.specs.Prelude.{◌≡◌, ◌++◌, drop, true, Err, IfOk, OnErr};
ghost use Rattle.mr_master_model.specs.Readings.{Seen};
ghost use Rattle.mr_master_phase.specs.WorkKinds.{left_of, with_left, refused_when, is_step, others_of, with_others, WantsMore, lines_of};
ghost use Rattle.mr_master_phase.specs.Coming.{IsComing, begun_by};
ghost use Rattle.mr_commit.specs.Steps.{MayWantOn};
ghost use Rattle.mr_commit.specs.Halves.{Fits};
ghost use Rattle.mr_master_model.specs.Answered.{is_superseded};

use crate::store::{Coming, coming_of, is_superseded, named};
use crate::winners::{first_winner, next_winner};
use crate::work::{At, Work};
use mr_commit::{Following, RecoverTask, Step};
use mr_history::Record;
use mr_master_model::{Setting, StoreAnswer};
use mr_master_tables::winners;
use mr_names::{Answer, NameFault};
use mr_recover::TaskWinner;
use std::alloc::{AllocError, Global};
use std::collections::VecDeque;
use std::mem;

impl Work {
    /// What is next after the last call of a table, by the records of earlier masters. Where a reduce was taken over,
    /// those that are left after the next one are not in it yet: `move_on` moves them.
    pub fn finished(
        &self,
        alloc: Global,
        setting: &Setting,
        earlier: &[Record],
    ) -> Result<Work, AllocError>
        requires { is_step self.now ≡ true }
        ensures { IfOk result (λ next. (s : Seen) → next ≡ begun_by setting.now (record s { earlier = earlier.now }) self.now) }
    {
        match &self.at {
            At::SetsUp(_) => {
                let winners = winners(alloc, earlier, setting)?;
                next_winner(setting, winners)
            }
            At::TakesOver { others, .. } => first_winner(alloc, setting, others),
            At::CommitsJob(_) => Ok(Work {
                at: At::TellsSuccess,
            }),
            _ => unreachable!(),
        }
    }

    /// The next work is gone on with: what it takes over next is the first of the reduces that are left, and the
    /// others are moved to it.
    pub fn move_on(&mut self, alloc: Global, next: Work)
        ensures { self.new ≡ with_others next (drop 1 (others_of self.old)) }
    {
        let mut others = self.take_others(alloc);
        let _ = others.pop_front();
        self.set(next);
        self.put_others(others);
    }

    // The reduces that are taken over after the one that is.
    fn take_others(&mut self, alloc: Global) -> VecDeque<TaskWinner>
        ensures { result.items ≡ others_of self.old }
    {
        match &mut self.at {
            At::TakesOver { others, .. } => mem::replace(others, VecDeque::new(alloc)),
            _ => VecDeque::new(alloc),
        }
    }

    // After the reduce that is taken over these are.
    fn put_others(&mut self, list: VecDeque<TaskWinner>)
        ensures { self.new ≡ with_others self.old list.items }
    {
        match &mut self.at {
            At::TakesOver { others, .. } => *others = list,
            _ => {}
        }
    }

    /// What comes of the answer of a committer's call, made ready. Nothing changes.
    pub fn follow(&self, answer: &StoreAnswer) -> Result<Coming, AllocError>
        requires { is_step self.now ≡ true }
        ensures coming { IfOk result (λ coming. IsComing (left_of self.now) answer.now coming) }
        ensures memory { OnErr result (WantsMore (left_of self.now) answer.now) }
    {
        let Some(r) = named(answer) else {
            return Ok(Coming::Refused);
        };
        match &self.at {
            At::SetsUp(step) | At::CommitsJob(step) => follow_step(step, r),
            At::TakesOver { step, .. } => follow_recovery(step, r),
            _ => unreachable!(),
        }
    }

    /// The lines that follow take the place of the one whose call was answered.
    pub fn go_on(&mut self, following: Following)
        requires { Fits following.lines (left_of self.old) }
        ensures { self.new ≡ with_left self.old (following.lines ++ drop 1 (left_of self.old)) }
    {
        match &mut self.at {
            At::SetsUp(step) => step.go_on(following),
            At::CommitsJob(step) => step.go_on(following),
            At::TakesOver { step, .. } => step.go_on(following),
            _ => {}
        }
    }

    /// What is next after a call of a table was refused, or its answer was lost.
    pub fn refused(&self, answer: &StoreAnswer) -> Work
        requires { is_step self.now ≡ true }
        ensures { result ≡ refused_when (is_superseded answer.now) self.now }
    {
        if is_superseded(answer) {
            return Work::stopped();
        }
        match self.at {
            At::CommitsJob(_) => Work { at: At::TellsFail },
            _ => Work::stopped(),
        }
    }
}

fn follow_step(step: &Step, r: &Result<Answer, NameFault>) -> Result<Coming, AllocError>
    requires { r.now ≡ Err NameFault.NoMemory → ⊥ }
    ensures coming { IfOk result (λ coming. IsComing step.now (StoreAnswer.Names r.now) coming) }
    ensures memory { OnErr result (MayWantOn step.now r.now) }
{
    let followed = step.follow(r);
    coming_of(followed)
}

fn follow_recovery(step: &RecoverTask, r: &Result<Answer, NameFault>) -> Result<Coming, AllocError>
    requires { r.now ≡ Err NameFault.NoMemory → ⊥ }
    ensures coming { IfOk result (λ coming. IsComing (lines_of step.now) (StoreAnswer.Names r.now) coming) }
    ensures memory { OnErr result (MayWantOn (lines_of step.now) r.now) }
{
    let followed = step.follow(r);
    coming_of(followed)
}
