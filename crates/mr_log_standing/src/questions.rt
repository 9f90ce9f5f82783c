//! What standings answer of tasks and attempts.
ghost use Rattle.std.specs.Prelude.{Option, ◌≡◌, ◌<◌, ◌++◌, [], true, ◌&&◌, is_some, nat_lt, IfOk, OnOk, if◌then◌else◌};
ghost use Rattle.std.specs.List.{list_any, cons_option};
ghost use Rattle.mr_ids.specs.Same.{same_attempt, same_task};
ghost use Rattle.mr_log_entries.specs.Recorded.{lines_of};
ghost use Rattle.mr_log_standing.specs.Standing.{task_of, is_of_job, is_start_of, gives_up, winner_of, has_winner, failures, is_over, unwon, against, standing, is_under_way, under_way, next_attempt, numbered, begun_in, is_left, has_won_all, is_publishable, may_end};
ghost use Rattle.mr_log_standing.specs.inner.Notes.{under_way_in, start_in, starts_of};

use crate::attempts::Attempts;
use crate::notes::{self, Note};
use crate::standing::Standing;
use crate::standings::Standings;
use mr_ids::{AttemptId, TaskId, TaskKind};
use std::alloc::{AllocError, Global};

impl Standings {
    /// The winner of the task with this number.
    #[tactic(auto, using(crate::proofs::Asked::won, crate::proofs::Asked::unwon))]
    pub fn winner(&self, n: u32) -> Option<AttemptId>
        requires { n < self.now.job.tasks }
        ensures { result ≡ winner_of (lines_of self.now.entries) (task_of self.now.job.id n) }
    {
        match self.win(n) {
            Some(win) => Some(win.attempt),
            None => None,
        }
    }

    /// Whether the task with this number has a winner.
    pub fn has_winner(&self, n: u32) -> bool
        requires { n < self.now.job.tasks }
        ensures { result ≡ has_winner (lines_of self.now.entries) (task_of self.now.job.id n) }
    {
        self.winner(n).is_some()
    }

    /// How an attempt stands.
    #[tactic(auto, unfolding(crate::specs::Standing::standing))]
    pub fn standing(&self, a: &AttemptId) -> Standing
        ensures { result ≡ standing self.now.job (lines_of self.now.entries) a.now }
    {
        if self.is_of_job(a) {
            self.standing_at(a)
        } else {
            Standing::Unknown
        }
    }

    /// Whether an attempt is under way.
    pub fn is_under_way(&self, a: &AttemptId) -> bool
        ensures { result ≡ is_under_way (standing self.now.job (lines_of self.now.entries) a.now) }
    {
        match self.standing(a) {
            Standing::UnderWay => true,
            _ => false,
        }
    }

    /// Whether an attempt is at one of the job's tasks.
    pub fn is_of_job(&self, a: &AttemptId) -> bool
        ensures { result ≡ is_of_job self.now.job a.now }
    {
        let number = a.task().number;
        notes::is_same_task(&a.task(), &self.task(number)) && number < self.job().tasks
    }

    #[tactic(auto, using(crate::proofs::Asked::below, crate::proofs::Asked::its_task))]
    fn standing_at(&self, a: &AttemptId) -> Standing
        requires { is_of_job self.now.job a.now ≡ true }
        ensures { let ls = lines_of self.now.entries in
            result ≡ against (winner_of ls a.now.task) a.now (unwon ls a.now) }
    {
        match self.winner(a.task().number) {
            None => self.unwon(a),
            Some(winner) => against(&winner, a),
        }
    }

    fn unwon(&self, a: &AttemptId) -> Standing
        requires { is_of_job self.now.job a.now ≡ true }
        ensures { result ≡ unwon (lines_of self.now.entries) a.now }
    {
        if self.has_given_up(a) {
            return Standing::GivenUp;
        }
        if self.is_over() {
            return Standing::JobOver;
        }
        if self.has_started(a) {
            return Standing::UnderWay;
        }
        Standing::Unknown
    }

    #[tactic(auto, using(crate::proofs::Asked::given_is, crate::proofs::Asked::below))]
    fn has_given_up(&self, a: &AttemptId) -> bool
        requires { is_of_job self.now.job a.now ≡ true }
        ensures { result ≡ list_any (gives_up a.now) (lines_of self.now.entries) }
    {
        notes::has_given_up(self.notes(a.task().number), a)
    }

    #[tactic(auto, using(crate::proofs::Asked::started_is, crate::proofs::Asked::below))]
    fn has_started(&self, a: &AttemptId) -> bool
        requires { is_of_job self.now.job a.now ≡ true }
        ensures { result ≡ list_any (is_start_of a.now) (lines_of self.now.entries) }
    {
        notes::has_started(self.notes(a.task().number), a)
    }

    /// The boot in which an attempt of the job was begun, if it was.
    #[tactic(auto, using(crate::proofs::Asked::begun_is, crate::proofs::Asked::below))]
    pub fn begun_in(&self, a: &AttemptId) -> Option<u64>
        requires { is_of_job self.now.job a.now ≡ true }
        ensures { result ≡ begun_in self.now.entries a.now }
    {
        notes::begun_in(self.notes(a.task().number), a)
    }

    /// How often the task with this number has failed.
    #[tactic(auto, using(crate::proofs::Asked::failures_are))]
    pub fn failures(&self, n: u32) -> usize
        requires { n < self.now.job.tasks }
        ensures { result ≡ failures (lines_of self.now.entries) (task_of self.now.job.id n) }
    {
        notes::failures_at(self.notes(n), &self.task(n))
    }

    /// The attempt at the task with this number that comes next, where there is room for one.
    #[tactic(auto, unfolding(crate::specs::Standing::next_attempt))]
    pub fn next_attempt(&self, n: u32) -> Option<AttemptId>
        requires { n < self.now.job.tasks }
        ensures { result ≡ next_attempt (lines_of self.now.entries) (task_of self.now.job.id n) }
    {
        let task = self.task(n);
        numbered(task, self.starts(n))
    }

    #[tactic(auto, using(crate::proofs::Asked::starts_are))]
    fn starts(&self, n: u32) -> usize
        requires { n < self.now.job.tasks }
        ensures { result ≡ starts_of (lines_of self.now.entries) (task_of self.now.job.id n) }
    {
        notes::starts_at(self.notes(n), &self.task(n))
    }

    /// The attempts at the task with this number that are under way. Memory may be refused.
    pub fn under_way(&self, alloc: Global, n: u32) -> Result<Attempts, AllocError>
        requires { n < self.now.job.tasks }
        ensures { IfOk result (λ all.
            all ≡ under_way self.now.job (lines_of self.now.entries) (task_of self.now.job.id n)) }
    {
        let task = self.task(n);
        let mut all = Attempts::new(alloc);
        let kept = self.notes(n);
        for item in kept {
            push_found(&mut all, self.under_way_in(&task, item))?;
        }
        Ok(all)
    }

    pub(crate) fn under_way_in(&self, task: &TaskId, note: &Note) -> Option<AttemptId>
        ensures { result
            ≡ under_way_in self.now.job (lines_of self.now.entries) (start_in task.now note.now) }
    {
        match notes::start_in(task, note) {
            None => None,
            Some(a) => self.if_under_way(&a),
        }
    }

    fn if_under_way(&self, a: &AttemptId) -> Option<AttemptId>
        ensures { result
            ≡ under_way_in self.now.job (lines_of self.now.entries) (Option.Some a.now) }
    {
        if self.is_under_way(a) { Some(*a) } else { None }
    }
}

fn against(winner: &AttemptId, a: &AttemptId) -> Standing
    ensures { result ≡ (if same_attempt winner.now a.now then Standing.Won else Standing.Beaten) }
{
    if notes::is_same(winner, a) {
        Standing::Won
    } else {
        Standing::Beaten
    }
}

fn numbered(task: TaskId, number: usize) -> Option<AttemptId>
    ensures { result ≡ numbered task number }
{
    if number < 1_000_000 {
        AttemptId::new(task, number as u32)
    } else {
        None
    }
}

pub(crate) fn push_found(all: &mut Attempts, found: Option<AttemptId>) -> Result<(), AllocError>
    ensures { OnOk result (all.new ≡ all.old ++ cons_option found []) }
{
    match found {
        None => Ok(()),
        Some(a) => all.push(a),
    }
}
