//! The machine of one task under one master: its attempts, which of them may commit, which was accepted, how many failed. A master keeps one for each task.
ghost use Rattle.std.specs.Prelude.{◌≡◌, ◌↔◌, ◌≤◌, ◌<◌, ◌+◌, [], ◌∷◌, length, if◌then◌else◌, true, false, Some, None, Ok, Err, IfOk, OnOk, OnErr, IfErr, IfNone, IsOkUnless, IsTrue, unwrap_or, not};
ghost use Rattle.mr_attempt.specs.Table.{is_live};
ghost use Rattle.mr_grant.specs.Attempts.{has, is_first};
ghost use Rattle.mr_task.specs.Calls.{Launches, Hears, Asks, Reports, Fails, Ends, Dies, Records, Recovers, Loses};
ghost use Rattle.mr_task.specs.Readings.{seen, named, is_named, failures, first_attempt_number, is_won, winner, launch_refusal, next_attempt, refusal_of, numbered_up_to};
ghost use Rattle.mr_task.specs.State.{StandsFor, StandsForSome, StandsAfterSome, Stands, Answers, known, launch_answer, done_answer, state_answer, fault_or, reply_or};
ghost use Rattle.mr_task.specs.Steps.{entry_in, if_there, noted, ended, asked, done};

use crate::attempts::{Attempts, Entry};
use crate::fault::TaskFault;
use crate::numbers::numbered_up_to;
use crate::reply::DoneReply;
use mr_attempt::{AttemptEvent, AttemptMachine, AttemptState, Reaction};
use mr_grant::Grant;
use mr_ids::{AppAttempt, AttemptId, TaskId, TaskKind};
use std::alloc::Global;
use std::marker::Model;

/// Most attempts at a task that one generation launches.
pub const MAX_LAUNCHES: u32 = 1000;

/// Most attempts at a task that are live at a time.
pub const MAX_LIVE: usize = 2;

/// One task as the master of one generation knows it: its attempts, which of them is named to commit, which is accepted.
///
/// An attempt that is ready to commit asks (`pending`) and then polls (`can_commit`). Yes is told to the named attempt alone: of
/// those that asked and did not end, the one that asked first. A reduce's `done` is accepted only from the named attempt, which
/// then is named for good; a map's from any live attempt while no other is Recording or Succeeded.
///
/// This restates `canCommit` of Apache Hadoop's application master: the first attempt to ask is the commit attempt, all
/// others are told no, and another may be when it fails. The order of those that wait, the name for good, the limits
/// and the numbers are our own profile.
pub struct TaskMachine {
    task: TaskId,
    app: AppAttempt,
    attempts: Attempts,
    grant: Grant,
    numbered: u32,
}

// Written by hand, so that the check takes the drop of a machine as one call. A derived drop it takes apart at each place where one is
// dropped.
impl Drop for TaskMachine {
    fn drop(self) {
        let TaskMachine {
            task: _,
            app: _,
            attempts: _,
            grant: _,
            numbered: _,
        } = self;
    }
}

impl Model for TaskMachine {
    ghost use Rattle.std.specs.Prelude.{◌≤◌, ◌+◌, length};
    ghost use Rattle.mr_task.specs.Steps.{Task};
    ghost use Rattle.mr_task.specs.State.{StandsForSome};

    ghost Value = { Task };

    ghost view = { λ m. record { task = m.task; app = m.app; attempts = m.attempts; grant = m.grant; numbered = m.numbered } };

    ghost invariant = { λ m. (m.numbered ≤ 1000) × (length m.attempts ≤ m.numbered + 1) × StandsForSome (record { task = m.task; app = m.app; attempts = m.attempts; grant = m.grant; numbered = m.numbered }) };
}

impl TaskMachine {
    /// The machine of a task under the master of a generation: no attempt yet.
    pub fn new(alloc: Global, task: TaskId, app: AppAttempt) -> TaskMachine
        ensures stands { StandsFor result task app [] }
        ensures task { result.task ≡ task }
        ensures app { result.app ≡ app }
        ensures none { result.attempts ≡ [] }
    {
        TaskMachine {
            task,
            app,
            attempts: Attempts::new(alloc),
            grant: Grant::new(alloc),
            numbered: 0,
        }
    }

    /// An equal machine. Where memory is refused: `NoMemory`.
    pub fn copy(&self) -> Result<TaskMachine, TaskFault>
        ensures copied { IfOk result (λ machine. machine ≡ self.now) }
        ensures memory { IsOkUnless result TaskFault.NoMemory }
    {
        Ok(TaskMachine {
            task: self.task,
            app: self.app,
            attempts: self.attempts.copy()?,
            grant: self.grant.copy()?,
            numbered: self.numbered,
        })
    }

    /// Whether both hold the same: they are of one task and one generation, and the attempts, the askers and the numbers are the same.
    #[tactic(auto, using(crate::proofs::Comparing::tasks_decide))]
    pub fn is_same(&self, other: &TaskMachine) -> bool
        ensures { IsTrue result ↔ (self.now ≡ other.now) }
    {
        self.numbered == other.numbered
            && self.task == other.task
            && self.app == other.app
            && self.grant.is_same(&other.grant)
            && self.attempts.is_same(&other.attempts)
    }

    /// A lemma, which does nothing: each machine stands for some calls. It tells a caller's proof the type's invariant.
    pub fn stands(&self)
        ensures { StandsForSome self.now }
    {
        let _task = &self.task;
    }

    /// The task that the machine is of.
    pub fn task(&self) -> TaskId
        ensures { result ≡ self.now.task }
    {
        self.task
    }

    /// The generation of the master that keeps the machine.
    pub fn app(&self) -> AppAttempt
        ensures { result ≡ self.now.app }
    {
        self.app
    }

    /// Launches an attempt, whose number is the next of this generation, from `AppAttempt::first_attempt_number` on.
    ///
    /// Refusals in order: `AlreadyWon` where an attempt is Recording or Succeeded, `TooManyLive` at two live attempts,
    /// `TooManyAttempts` after 1,000 numbers, `NoMemory`. A refused launch changes nothing.
    pub fn launch(&mut self) -> Result<AttemptId, TaskFault>
        ensures launched { IfOk result (λ attempt. Answers self.old launch_answer (Ok attempt)) }
        ensures stands { OnOk result (Stands self.old Launches self.new) }
        ensures refused { IfErr result (λ fault. Answers self.old (λ t k calls. unwrap_or (launch_refusal (seen t k calls)) TaskFault.NoMemory) fault) }
        ensures unchanged { OnErr result (self.new ≡ self.old) }
    {
        if let Some(fault) = self.launch_refusal() {
            return Err(fault);
        }
        let attempt = self.next_attempt();
        let mut machine = AttemptMachine::new(attempt);
        machine.on(AttemptEvent::Launch);
        self.attempts.push(
            attempt,
            Entry {
                machine,
                accepted: false,
            },
        )?;
        self.numbered += 1;
        Ok(attempt)
    }

    /// Why `launch` would refuse, memory aside: none where an attempt may be launched. It changes nothing.
    pub fn launch_refusal(&self) -> Option<TaskFault>
        ensures refusal { Answers self.now (λ t k calls. launch_refusal (seen t k calls)) result }
        ensures room { IfNone result (self.now.numbered < 1000) }
    {
        refusal(
            self.attempts.any_won(),
            self.attempts.live_count(),
            self.numbered,
        )
    }

    /// The attempt that the next `launch` gives, while this generation has numbers left (`launch_refusal` answers none).
    pub fn next_attempt(&self) -> AttemptId
        requires { self.now.numbered < 1000 }
        ensures attempt { result ≡ record { task = self.now.task; number = first_attempt_number self.now.app + self.now.numbered } }
        ensures next { Answers self.now (λ t k calls. next_attempt t k (seen t k calls)) result }
    {
        AttemptId::new(self.task, self.app.first_attempt_number() + self.numbered).unwrap()
    }

    /// The attempt was heard of.
    ///
    /// Refused `Unknown` where the machine never had it; that changes nothing.
    pub fn heard(&mut self, attempt: AttemptId) -> Result<(), TaskFault>
        ensures answer { Answers self.old (known attempt) result }
        ensures stands { Stands self.old (Hears attempt) self.new }
        ensures refused { OnErr result (self.new ≡ self.old) }
    {
        self.note(&attempt, AttemptEvent::Heard)
    }

    /// The attempt asks for permission to commit: from then on it waits for the name, unless it is over.
    ///
    /// Refusals in order: `Unknown` where the machine never had it, `NoMemory`. A refusal changes nothing.
    pub fn pending(&mut self, attempt: AttemptId) -> Result<(), TaskFault>
        ensures stands { OnOk result (Stands self.old (Asks attempt) self.new) }
        ensures known { OnOk result (Answers self.old (known attempt) (Ok tt)) }
        ensures refused { IfErr result (λ fault. Answers self.old (λ t k calls. fault_or (known attempt t k calls) TaskFault.NoMemory) fault) }
        ensures unchanged { OnErr result (self.new ≡ self.old) }
    {
        self.ask(&attempt)
    }

    /// Whether the attempt would be the named one once it asked. It changes nothing.
    pub fn would_name(&self, attempt: AttemptId) -> bool
        ensures { Answers self.now (λ t k calls. is_named (seen t k (Asks attempt ∷ calls)) attempt) result }
    {
        self.is_first_if_asked(&attempt)
    }

    /// What `done` of the attempt would be answered. It changes nothing.
    pub fn done_reply(&self, attempt: AttemptId) -> Result<DoneReply, TaskFault>
        ensures { Answers self.now (done_answer attempt) result }
    {
        self.reply_to_done(&attempt)
    }

    /// Whether the attempt is the named one, which may commit. Of one that the machine never had the answer is no.
    pub fn can_commit(&self, attempt: AttemptId) -> bool
        ensures { Answers self.now (λ t k calls. is_named (seen t k calls) attempt) result }
    {
        self.grant.can_commit(attempt)
    }

    /// The attempt says that it is done.
    ///
    /// A reduce's is accepted while the attempt is named, and from then on the name is for good. A map's is accepted
    /// while the attempt is live and no other is Recording or Succeeded. Refused `Unknown` where the machine never had
    /// it; that changes nothing.
    pub fn done(&mut self, attempt: AttemptId) -> Result<DoneReply, TaskFault>
        ensures answer { Answers self.old (done_answer attempt) result }
        ensures stands { Stands self.old (Reports attempt) self.new }
        ensures refused { OnErr result (self.new ≡ self.old) }
    {
        self.take_done(&attempt)
    }

    /// The attempt says that it is done, as [`TaskMachine::done`], where what it is answered was found before, by
    /// [`TaskMachine::done_reply`]: it is not looked for again. Of an attempt that the machine never had, that is `Ignored`.
    pub fn report(&mut self, attempt: AttemptId, reply: DoneReply)
        requires { Answers self.old (λ t k calls. reply_or (done_answer attempt t k calls) DoneReply.Ignored) reply }
        ensures { Stands self.old (Reports attempt) self.new }
    {
        let _ = &self.task;
        match reply {
            DoneReply::Accepted => self.accept(&attempt),
            DoneReply::Again | DoneReply::Ignored => {}
        }
    }

    /// The attempt failed: this counts towards the task's limit, where the attempt was live.
    ///
    /// Refused `Unknown` where the machine never had it; that changes nothing.
    pub fn failed(&mut self, attempt: AttemptId) -> Result<(), TaskFault>
        ensures answer { Answers self.old (known attempt) result }
        ensures stands { Stands self.old (Fails attempt) self.new }
        ensures refused { OnErr result (self.new ≡ self.old) }
    {
        self.end(&attempt, AttemptEvent::Fail)
    }

    /// The attempt's container ended. It counts as a failure where the attempt was live, unless the container was asked to stop.
    ///
    /// Refused `Unknown` where the machine never had it; that changes nothing.
    pub fn ended(&mut self, attempt: AttemptId, asked: bool) -> Result<(), TaskFault>
        ensures answer { Answers self.old (known attempt) result }
        ensures stands { Stands self.old (Ends attempt asked) self.new }
        ensures refused { OnErr result (self.new ≡ self.old) }
    {
        if asked {
            self.end(&attempt, AttemptEvent::Kill)
        } else {
            self.end(&attempt, AttemptEvent::Fail)
        }
    }

    /// The attempt ended, and that is no failure of it, as when its node restarted.
    ///
    /// Refused `Unknown` where the machine never had it; that changes nothing.
    pub fn killed(&mut self, attempt: AttemptId) -> Result<(), TaskFault>
        ensures answer { Answers self.old (known attempt) result }
        ensures stands { Stands self.old (Dies attempt) self.new }
        ensures refused { OnErr result (self.new ≡ self.old) }
    {
        self.end(&attempt, AttemptEvent::Kill)
    }

    /// The success of the accepted attempt is recorded.
    ///
    /// Refused `Unknown` where the machine never had it; that changes nothing.
    pub fn recorded(&mut self, attempt: AttemptId) -> Result<(), TaskFault>
        ensures answer { Answers self.old (known attempt) result }
        ensures stands { Stands self.old (Records attempt) self.new }
        ensures refused { OnErr result (self.new ≡ self.old) }
    {
        self.note(&attempt, AttemptEvent::Recorded)
    }

    /// The attempt succeeded under an earlier master: it is entered as Succeeded. Its only fault is `NoMemory`, which changes
    /// nothing.
    pub fn recovered(&mut self, attempt: AttemptId) -> Result<(), TaskFault>
        requires own { attempt.task ≡ self.old.task }
        requires first { self.old.attempts ≡ [] }
        ensures stands { OnOk result (Stands self.old (Recovers attempt) self.new) }
        ensures unchanged { OnErr result (self.new ≡ self.old) }
        ensures memory { IsOkUnless result TaskFault.NoMemory }
    {
        let mut machine = AttemptMachine::new(attempt);
        machine.on(AttemptEvent::Launch);
        machine.on(AttemptEvent::Done);
        machine.on(AttemptEvent::Recorded);
        self.attempts.push(
            attempt,
            Entry {
                machine,
                accepted: true,
            },
        )?;
        self.numbered = numbered_up_to(self.app, &attempt);
        Ok(())
    }

    /// The output of a map's Succeeded attempt is lost: it counts as killed. Of any other attempt nothing changes.
    ///
    /// Refused `Unknown` where the machine never had it; that changes nothing.
    pub fn lost(&mut self, attempt: AttemptId) -> Result<(), TaskFault>
        ensures answer { Answers self.old (known attempt) result }
        ensures stands { Stands self.old (Loses attempt) self.new }
        ensures refused { OnErr result (self.new ≡ self.old) }
    {
        self.note(&attempt, AttemptEvent::Lost)
    }

    /// The state of an attempt, by the table of attempts; none of one that the machine never had.
    pub fn state(&self, attempt: AttemptId) -> Option<AttemptState>
        ensures { Answers self.now (state_answer attempt) result }
    {
        match self.attempts.get(&attempt) {
            Some(entry) => Some(entry.machine.state()),
            None => None,
        }
    }

    /// The Succeeded attempt, if there is one.
    pub fn winner(&self) -> Option<AttemptId>
        ensures { Answers self.now winner result }
    {
        self.attempts.succeeded()
    }

    /// Whether an attempt is Recording or Succeeded.
    pub fn is_won(&self) -> bool
        ensures { Answers self.now (λ t k calls. is_won (seen t k calls)) result }
    {
        self.attempts.any_won()
    }

    /// How many attempts failed: at most 1,001.
    pub fn failures(&self) -> u32
        ensures { Answers self.now (λ t k calls. failures (seen t k calls)) result }
    {
        self.attempts.failed_count() as u32
    }

    /// How many numbers of this generation are given away: at most 1,000.
    pub fn numbered(&self) -> u32
        ensures count { Answers self.now (λ t k calls. (seen t k calls).numbered) result }
        ensures range { result ≤ 1000 }
    {
        self.numbered
    }

    /// The attempts, in order of arrival.
    pub fn arrived(&self) -> &[AttemptId]
        ensures { Answers self.now (λ t k calls. (seen t k calls).arrived) result.now }
    {
        self.attempts.names()
    }

    // The attempt takes an event, by some call.
    fn note(&mut self, attempt: &AttemptId, event: AttemptEvent) -> Result<(), TaskFault>
        requires { StandsAfterSome self.old (noted self.old attempt.now event) }
        ensures told { result ≡ if_there (entry_in self.old.attempts attempt.now) }
        ensures left { self.new ≡ noted self.old attempt.now event }
    {
        let Some(mut entry) = self.attempts.get(attempt) else {
            return Err(TaskFault::Unknown);
        };
        entry.machine.on(event);
        self.attempts.set(attempt, entry);
        Ok(())
    }

    // The attempt ends by some call, and is released if that moved it.
    fn end(&mut self, attempt: &AttemptId, event: AttemptEvent) -> Result<(), TaskFault>
        requires { StandsAfterSome self.old (ended self.old attempt.now event) }
        ensures told { result ≡ if_there (entry_in self.old.attempts attempt.now) }
        ensures left { self.new ≡ ended self.old attempt.now event }
    {
        let Some(mut entry) = self.attempts.get(attempt) else {
            return Err(TaskFault::Unknown);
        };
        if entry.machine.on(event) == Reaction::Moved {
            self.grant.release(*attempt);
        }
        self.attempts.set(attempt, entry);
        Ok(())
    }

    // The attempt asks, and waits unless it is over.
    fn ask(&mut self, attempt: &AttemptId) -> Result<(), TaskFault>
        ensures left { OnOk result (self.new ≡ asked self.old attempt.now) }
        ensures known { OnOk result (if_there (entry_in self.old.attempts attempt.now) ≡ Ok tt) }
        ensures refused { IfErr result (λ fault. fault ≡ fault_or (if_there (entry_in self.old.attempts attempt.now)) TaskFault.NoMemory) }
        ensures unchanged { OnErr result (self.new ≡ self.old) }
    {
        let Some(mut entry) = self.attempts.get(attempt) else {
            return Err(TaskFault::Unknown);
        };
        if !entry.is_over() {
            self.grant.pending(*attempt)?;
        }
        entry.machine.on(AttemptEvent::Pending);
        self.attempts.set(attempt, entry);
        Ok(())
    }

    // Whether the attempt is the first that waits, once it asked.
    fn is_first_if_asked(&self, attempt: &AttemptId) -> bool
        ensures { result ≡ is_first (asked self.now attempt.now).grant.attempts attempt.now }
    {
        let is_first = self.grant.can_commit(*attempt);
        match self.attempts.get(attempt) {
            Some(entry) => is_first || (!entry.is_over() && self.grant.first().is_none()),
            None => is_first,
        }
    }

    // What Done of the attempt is answered.
    fn reply_to_done(&self, attempt: &AttemptId) -> Result<DoneReply, TaskFault>
        ensures { result ≡ (done self.now attempt.now).0 }
    {
        let Some(entry) = self.attempts.get(attempt) else {
            return Err(TaskFault::Unknown);
        };
        if entry.accepted {
            return Ok(DoneReply::Again);
        }
        let may_accept = match attempt.task().kind {
            TaskKind::Map => !entry.is_over() && !self.attempts.any_won(),
            TaskKind::Reduce => self.grant.can_commit(*attempt),
        };
        if may_accept {
            Ok(DoneReply::Accepted)
        } else {
            Ok(DoneReply::Ignored)
        }
    }

    // The attempt says that it is done.
    fn take_done(&mut self, attempt: &AttemptId) -> Result<DoneReply, TaskFault>
        ensures told { result ≡ (done self.old attempt.now).0 }
        ensures left { self.new ≡ (done self.old attempt.now).1 }
    {
        let reply = self.reply_to_done(attempt)?;
        if reply == DoneReply::Accepted {
            self.accept(attempt);
        }
        Ok(reply)
    }

    // The attempt, whose Done is answered so, is accepted.
    fn accept(&mut self, attempt: &AttemptId)
        requires { (done self.old attempt.now).0 ≡ Ok DoneReply.Accepted }
        ensures { self.new ≡ (done self.old attempt.now).1 }
    {
        let Some(mut entry) = self.attempts.get(attempt) else {
            unreachable!();
        };
        if attempt.task().kind == TaskKind::Reduce {
            self.grant.fix(*attempt);
        }
        entry.machine.on(AttemptEvent::Done);
        entry.accepted = true;
        self.attempts.set(attempt, entry);
    }
}

// Why nothing is launched, by whether the task is won, the number of live attempts and the numbers given away.
fn refusal(won: bool, live: usize, numbered: u32) -> Option<TaskFault>
    ensures refusal { result ≡ refusal_of won live numbered }
    ensures room { IfNone result (numbered < 1000) }
{
    if won {
        Some(TaskFault::AlreadyWon)
    } else if live >= MAX_LIVE {
        Some(TaskFault::TooManyLive)
    } else if numbered >= MAX_LAUNCHES {
        Some(TaskFault::TooManyAttempts)
    } else {
        None
    }
}
