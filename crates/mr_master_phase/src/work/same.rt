//! Whether two masters are at the same, with the same calls and reduces left.
ghost use Rattle.std.specs.Prelude.{◌≡◌, ◌↔◌, true, IsTrue};
ghost use Rattle.mr_master_model.specs.Past.{SetsUp, CommitsJob};
ghost use Rattle.mr_master_model.specs.Answered.{takes_over};
ghost use Rattle.mr_master_phase.specs.Work.{is_left};
ghost use Rattle.mr_master_phase.specs.WorkKinds.{number_of};

use crate::work::{At, Work};
use mr_commit::{RecoverTask, Step};
use mr_recover::TaskWinner;
use std::collections::VecDeque;

impl Work {
    /// Whether both are at the same, with the same calls and the same reduces left.
    pub fn is_same(&self, other: &Work) -> bool
        ensures { IsTrue result ↔ (self.now ≡ other.now) }
    {
        match &self.at {
            At::SetsUp(step) => other.sets_up_so(step),
            At::CommitsJob(step) => other.commits_so(step),
            At::TakesOver {
                winner,
                step,
                others,
            } => other.takes_over_so(winner, step, others),
            _ => self.number() == other.number(),
        }
    }

    // Whether it sets the job up, and has these calls left.
    fn sets_up_so(&self, step: &Step) -> bool
        ensures { IsTrue result ↔ (SetsUp step.now ≡ self.now) }
    {
        match &self.at {
            At::SetsUp(own) => step.is_same(own),
            _ => false,
        }
    }

    // Whether it commits the job, and has these calls left.
    fn commits_so(&self, step: &Step) -> bool
        ensures { IsTrue result ↔ (CommitsJob step.now ≡ self.now) }
    {
        match &self.at {
            At::CommitsJob(own) => step.is_same(own),
            _ => false,
        }
    }

    // Whether it takes this reduce over, has these calls left, and takes over these reduces then.
    fn takes_over_so(
        &self,
        winner: &TaskWinner,
        step: &RecoverTask,
        others: &VecDeque<TaskWinner>,
    ) -> bool
        requires { is_left step.now ≡ true }
        ensures { IsTrue result ↔ (takes_over winner.now step.now others.now.items ≡ self.now) }
    {
        match &self.at {
            At::TakesOver {
                winner: own,
                step: left,
                others: rest,
            } => winner == own && step.is_same(left) && are_same(others, rest),
            _ => false,
        }
    }

    // What it is at, as a number. Where calls of a table are left: 0.
    fn number(&self) -> u32
        ensures { result ≡ number_of self.now }
    {
        match &self.at {
            At::SetsUp(_) | At::TakesOver { .. } | At::CommitsJob(_) => 0,
            At::LooksForSuccess => 1,
            At::LooksForFail => 2,
            At::LooksForStarted => 3,
            At::Reads => 4,
            At::Runs => 5,
            At::TellsSuccess => 6,
            At::TellsFail => 7,
            At::AbortsCommit => 8,
            At::Fails(false) => 9,
            At::Fails(true) => 10,
            At::Ends(false) => 11,
            At::Ends(true) => 12,
            At::Stops => 13,
        }
    }
}

#[tactic(auto, using(crate::proofs::Comparing::winners_decide))]
fn are_same(winners: &VecDeque<TaskWinner>, others: &VecDeque<TaskWinner>) -> bool
    ensures { IsTrue result ↔ (winners.now.items ≡ others.now.items) }
{
    winners == others
}
