//! A command of an output directory as a step machine: the call that it makes next, and what it does of the answer.
ghost use Rattle.std.specs.Prelude.{◌≡◌, ◌||◌, OnOk, IfOk, Some, None, is_some, if◌then◌else◌};
ghost use Rattle.mr_out_steps.specs.Standing.{standing, winners, is_over, has_winner, first_alive, has_failed_out, task_of};
ghost use Rattle.mr_out_steps.specs.Commands.{opening, next_call, outcome_in};
ghost use Rattle.mr_out_steps.specs.Steps.{heard, Takes, acts, turn, goes, begins, begins_with, own_work, publishes, lists, holds, ends, links, ends_or, empties, follows, noted, reads, listed, fails_now, answer_to, answer_early, is_under_way, is_settled, starts, starts_first, starts_beside, gives_up, starts_over, only_asks, is_to_end};

use crate::attempts::{
    first_alive, first_idle, has_failed_out, has_winner, is_busy, next_attempt, task_of,
};
use crate::orders::{only_asks, over_or, release};
use crate::standing::{is_over, standing_of, winners};
use mr_history::{Record, Records};
use mr_ids::{AttemptId, JobId};
use mr_out_disk::{Answer, Call, Reply};
use mr_out_steps::{Order, Outcome, Phase, Standing, Turn};
use std::alloc::{AllocError, Global};
use std::collections::LinkedList;
use std::marker::Model;

/// A command between two calls.
///
/// Whoever runs it holds the lock of the directory, makes the call that it names, and hands in the answer, until it has
/// ended. It may be let go between any two calls, as by a kill: the next command finishes what it left.
pub struct Command {
    alloc: Global,
    order: Order,
    job: JobId,
    tasks: u32,
    limit: Option<u32>,
    hold: bool,
    records: Records,
    left: LinkedList<AttemptId>,
    kept: LinkedList<AttemptId>,
    phase: Phase,
}

// Written by hand, so that the check takes the drop of a command as one call.
impl Drop for Command {
    fn drop(self) {
        let Command {
            alloc: _,
            order: _,
            job: _,
            tasks: _,
            limit: _,
            hold: _,
            records: _,
            left: _,
            kept: _,
            phase: _,
        } = self;
    }
}

impl Model for Command {
    ghost use Rattle.mr_out_steps.specs.Commands.{Command};

    ghost Value = { Command };

    ghost view = { λ c. record { order = c.order; job = c.job; tasks = c.tasks; limit = c.limit; hold = c.hold; records = c.records; left = c.left; kept = c.kept; phase = c.phase } };
}

impl Command {
    /// A command that begins, in a job of so many tasks, which ends where one of them has failed as often as the limit,
    /// if there is one. A job under `hold` is published once that is decided. It takes no memory.
    pub fn new(
        alloc: Global,
        order: Order,
        job: JobId,
        tasks: u32,
        limit: Option<u32>,
        hold: bool,
    ) -> Command
        ensures { result ≡ opening order job tasks limit hold }
    {
        Command {
            alloc,
            order,
            job,
            tasks,
            limit,
            hold,
            records: Records::new(alloc),
            left: LinkedList::new(alloc),
            kept: LinkedList::new(alloc),
            phase: Phase::Reading,
        }
    }

    /// The call that it makes next, where it has not ended.
    pub fn call(&self) -> Option<Call>
        ensures { result ≡ next_call self.now }
    {
        self.phase.call()
    }

    /// How it ended, where it has.
    pub fn outcome(&self) -> Option<Outcome>
        ensures { result ≡ outcome_in self.now.phase }
    {
        self.phase.outcome()
    }

    /// Its call was answered so. An answer of another call ends it as failed.
    ///
    /// It may allocate; where that is refused, the command ends as one that had no memory.
    pub fn took(&mut self, answer: Answer)
        ensures { Takes self.old answer self.new }
    {
        if self.hear(answer).is_err() {
            self.phase = Phase::Over(Outcome::NoMemory);
        }
    }

    fn hear(&mut self, answer: Answer) -> Result<(), AllocError>
        ensures { OnOk result (self.new ≡ heard self.old answer) }
    {
        match answer {
            Answer::Says(reply) => self.hear_word(reply),
            Answer::Told(records) => {
                self.read(records);
                Ok(())
            }
            Answer::Listed(attempts) => {
                self.list(attempts);
                Ok(())
            }
        }
    }

    fn hear_word(&mut self, reply: Reply) -> Result<(), AllocError>
        ensures { OnOk result (self.new ≡ acts (turn self.old.phase reply) self.old) }
    {
        match self.phase.hears(reply) {
            Turn::Goes(phase) => {
                self.phase = phase;
                Ok(())
            }
            Turn::Begins => self.begin(),
            Turn::Notes(told) => self.note(&told),
            Turn::Holds => {
                self.leave_held();
                Ok(())
            }
            Turn::LinksNext => {
                self.link_next();
                Ok(())
            }
            Turn::EmptiesNext => {
                self.empty_next();
                Ok(())
            }
        }
    }

    fn read(&mut self, records: Records)
        ensures { self.new ≡ heard self.old (Answer.Told records) }
    {
        if self.phase.is_reading() {
            self.records = records;
            self.phase = Phase::SyncingEnd;
        } else {
            self.phase = Phase::Over(Outcome::Failed);
        }
    }

    fn list(&mut self, attempts: LinkedList<AttemptId>)
        ensures { self.new ≡ heard self.old (Answer.Listed attempts) }
    {
        if !self.phase.is_listing() {
            self.phase = Phase::Over(Outcome::Failed);
        } else if attempts.is_empty() {
            self.end_or(Phase::FindingMarker);
        } else {
            self.kept = attempts;
            self.link_next();
        }
    }

    fn order(&self) -> Order
        ensures { result ≡ self.now.order }
    {
        self.order
    }

    // The job is ended, where a task has failed too often. Else its own work, where there is something to do.
    fn begin(&mut self) -> Result<(), AllocError>
        ensures { OnOk result (self.new ≡ begins self.old) }
    {
        if self.is_to_end()? {
            self.phase = Phase::Appending(Record::JobUnsuccessful);
            return Ok(());
        }
        self.work()
    }

    fn is_to_end(&self) -> Result<bool, AllocError>
        ensures { IfOk result (λ ends. ends ≡ is_to_end self.now) }
    {
        if only_asks(self.order) || !has_failed_out(self.limit, self.records.as_slice()) {
            return Ok(false);
        }
        let settled = self.is_settled()?;
        Ok(!settled)
    }

    fn work(&mut self) -> Result<(), AllocError>
        ensures { OnOk result (self.new ≡ begins_with (own_work self.old.order self.old) self.old) }
    {
        match self.order() {
            Order::Done(a) => self.begin_done(a),
            Order::Fail(a) => self.begin_fail(a),
            Order::Ask(a) => {
                self.begin_ask(a);
                Ok(())
            }
            Order::Resume | Order::Publish | Order::Forget => self.publish(),
            Order::Abort => self.begin_abort(),
            Order::StartNext => self.start_next(),
            Order::StartAt(number) => self.start_beside(number),
            Order::StartOver(number) => self.start_over(number),
        }
    }

    // Who only asks is answered at once.
    fn begin_ask(&mut self, a: AttemptId)
        ensures { self.new ≡ begins_with (own_work (Order.Ask a) self.old) self.old }
    {
        self.phase = Phase::Over(Outcome::Stands(self.standing(a)));
    }

    fn begin_done(&mut self, a: AttemptId) -> Result<(), AllocError>
        ensures { OnOk result (self.new ≡ begins_with (own_work (Order.Done a) self.old) self.old) }
    {
        if self.is_under_way(&a) {
            self.phase = Phase::FindingClaim(a);
            return Ok(());
        }
        self.publish()
    }

    fn begin_fail(&mut self, a: AttemptId) -> Result<(), AllocError>
        ensures { OnOk result (self.new ≡ begins_with (own_work (Order.Fail a) self.old) self.old) }
    {
        if self.is_under_way(&a) {
            self.phase = Phase::Appending(Record::AttemptFailed { attempt: a });
            return Ok(());
        }
        self.publish()
    }

    fn begin_abort(&mut self) -> Result<(), AllocError>
        ensures { OnOk result (self.new ≡ begins_with (own_work Order.Abort self.old) self.old) }
    {
        if self.is_settled()? {
            return self.publish();
        }
        self.phase = Phase::Appending(Record::JobUnsuccessful);
        Ok(())
    }

    fn start_next(&mut self) -> Result<(), AllocError>
        ensures { OnOk result (self.new ≡ begins_with (own_work Order.StartNext self.old) self.old) }
    {
        if is_over(self.records.as_slice()) {
            return self.publish();
        }
        match first_idle(self.alloc, self.job, self.records.as_slice(), self.tasks)? {
            Some(number) => {
                self.phase = self.start(number);
                Ok(())
            }
            None => self.wait(),
        }
    }

    // No task is idle.
    fn wait(&mut self) -> Result<(), AllocError>
        ensures { OnOk result (self.new ≡ begins_with (starts_first None self.old) self.old) }
    {
        if self.is_settled()? {
            return self.publish();
        }
        self.phase = Phase::Over(Outcome::Busy);
        Ok(())
    }

    fn start_beside(&mut self, number: u32) -> Result<(), AllocError>
        ensures { OnOk result (self.new ≡ begins_with (starts_beside number self.old) self.old) }
    {
        if self.is_decided(number) {
            return self.publish();
        }
        let task = task_of(self.job, number);
        self.phase = if is_busy(self.records.as_slice(), &task) {
            Phase::Over(Outcome::Busy)
        } else {
            self.start(number)
        };
        Ok(())
    }

    fn start_over(&mut self, number: u32) -> Result<(), AllocError>
        ensures { OnOk result (self.new ≡ begins_with (starts_over number self.old) self.old) }
    {
        if self.is_decided(number) {
            return self.publish();
        }
        self.phase = self.give_up(number);
        Ok(())
    }

    fn give_up(&self, number: u32) -> Phase
        ensures { result ≡ gives_up (first_alive self.now.records (task_of self.now.job number) self.now.records) number self.now }
    {
        let task = task_of(self.job, number);
        match first_alive(self.records.as_slice(), &task) {
            Some(a) => Phase::Appending(Record::AttemptFailed { attempt: a }),
            None => self.start(number),
        }
    }

    // Whether the job is over, or the task has a winner.
    fn is_decided(&self, number: u32) -> bool
        ensures { result ≡ (is_over self.now.records || has_winner self.now.records (task_of self.now.job number)) }
    {
        let task = task_of(self.job, number);
        is_over(self.records.as_slice()) || has_winner(self.records.as_slice(), &task)
    }

    fn start(&self, number: u32) -> Phase
        ensures { result ≡ starts number self.now }
    {
        let task = task_of(self.job, number);
        match next_attempt(self.records.as_slice(), task) {
            Some(a) => Phase::Appending(Record::AttemptStarted {
                attempt: a,
                node: 0,
            }),
            None => Phase::Over(Outcome::Full),
        }
    }

    // Whether the job is over, or every task has a winner.
    fn is_settled(&self) -> Result<bool, AllocError>
        ensures { IfOk result (λ settled. settled ≡ is_settled self.now) }
    {
        if is_over(self.records.as_slice()) {
            return Ok(true);
        }
        let winners = self.winners()?;
        Ok(winners.is_some())
    }

    fn is_under_way(&self, a: &AttemptId) -> bool
        ensures { result ≡ is_under_way (standing self.now.job self.now.tasks self.now.records a.now) }
    {
        match self.standing(*a) {
            Standing::UnderWay => true,
            _ => false,
        }
    }

    fn standing(&self, a: AttemptId) -> Standing
        ensures { result ≡ standing self.now.job self.now.tasks self.now.records a }
    {
        standing_of(self.job, self.tasks, self.records.as_slice(), a)
    }

    fn winners(&self) -> Result<Option<LinkedList<AttemptId>>, AllocError>
        ensures { IfOk result (λ all. all ≡ winners self.now.job self.now.records self.now.tasks) }
    {
        winners(self.alloc, self.job, self.records.as_slice(), self.tasks)
    }

    // A record is durable now.
    fn note(&mut self, told: &Record) -> Result<(), AllocError>
        ensures { OnOk result (self.new ≡ follows told.now (noted told.now self.old)) }
    {
        self.records.push(*told)?;
        self.follow(told)
    }

    // What follows from a record that was noted.
    fn follow(&mut self, told: &Record) -> Result<(), AllocError>
        ensures { OnOk result (self.new ≡ follows told.now self.old) }
    {
        match *told {
            Record::AttemptFailed { attempt } => {
                self.phase = Phase::DroppingClaim(attempt);
                Ok(())
            }
            Record::AttemptStarted { attempt, node: _ } => {
                self.phase = Phase::MakingFolder(attempt);
                Ok(())
            }
            _ => self.publish(),
        }
    }

    // Where every task has a winner, and the job is not over, it is published.
    #[tactic(auto, unfolding(mr_out_steps::specs::Steps::publishes))]
    fn publish(&mut self) -> Result<(), AllocError>
        ensures { OnOk result (self.new ≡ publishes self.old) }
    {
        if is_over(self.records.as_slice()) {
            self.end();
            return Ok(());
        }
        match self.winners()? {
            None => self.end_early(),
            Some(winners) => self.release(winners),
        }
        Ok(())
    }

    // Every task has a winner: a held job waits for the decision, which an order to publish makes.
    fn release(&mut self, winners: LinkedList<AttemptId>)
        ensures { self.new ≡ lists (Some winners) self.old }
    {
        self.left = winners;
        self.phase = release(self.hold, self.order);
    }

    // Some task has no winner.
    fn end_early(&mut self)
        ensures { self.new ≡ lists None self.old }
    {
        self.phase = Phase::Over(self.early_answer());
    }

    fn early_answer(&self) -> Outcome
        ensures { result ≡ answer_early self.now.order self.now }
    {
        match self.order {
            Order::Publish => Outcome::NotAllWon,
            _ => self.answer(),
        }
    }

    // Publishing a held job was not decided: the job may still be ended as failed, and nothing is published.
    fn leave_held(&mut self)
        ensures { self.new ≡ holds self.old.order self.old }
    {
        match self.order {
            Order::Abort => self.phase = Phase::Appending(Record::JobUnsuccessful),
            _ => self.end(),
        }
    }

    fn link_next(&mut self)
        ensures { self.new ≡ links self.old.left self.old }
    {
        match self.left.pop_front() {
            None => self.phase = Phase::SyncingParts,
            Some(a) => self.phase = Phase::FindingKept(a),
        }
    }

    fn empty_next(&mut self)
        ensures { self.new ≡ empties self.old.kept self.old }
    {
        match self.kept.pop_front() {
            None => self.end_or(Phase::Forgetting),
            Some(a) => self.phase = Phase::Emptying(a),
        }
    }

    // Nothing is left to publish: who forgets the history goes on with this phase.
    fn end_or(&mut self, phase: Phase)
        ensures { self.new ≡ ends_or phase self.old.order self.old }
    {
        match self.order {
            Order::Forget => self.phase = phase,
            _ => self.end(),
        }
    }

    fn end(&mut self)
        ensures { self.new ≡ ends self.old }
    {
        self.phase = Phase::Over(self.answer());
    }

    fn answer(&self) -> Outcome
        ensures { result ≡ answer_to self.now.order self.now }
    {
        match self.order {
            Order::Done(a) | Order::Fail(a) | Order::Ask(a) => Outcome::Stands(self.standing(a)),
            Order::Resume => Outcome::Finished,
            Order::Forget => Outcome::Unpublished,
            Order::Abort => over_or(self.records.as_slice(), Outcome::Finished, Outcome::AllWon),
            Order::Publish => over_or(self.records.as_slice(), Outcome::JobOver, Outcome::Finished),
            Order::StartNext | Order::StartAt(_) | Order::StartOver(_) => {
                over_or(self.records.as_slice(), Outcome::JobOver, Outcome::AllWon)
            }
        }
    }
}
