//! The machines of a master's tasks, by place.
ghost use Rattle.std.specs.Prelude.{◌≡◌, ◌↔◌, ◌<◌, ◌+◌, ◌&&◌, not, nat_le, length, true, [], ◌∷◌, Some, ℕ, slice_get, List, None, OnOk, IfOk, IfSome, IfNone, IsTrue, set, vec_len};
ghost use Rattle.std.specs.List.{find, list_all};
ghost use Rattle.std.specs.Option.{is_some, option_copied};
ghost use Rattle.mr_grant.specs.Attempts.{has};
ghost use Rattle.mr_ids.specs.declared.id.TaskId.{TaskId};
ghost use Rattle.mr_ids.specs.declared.id.TaskKind.{TaskKind};
ghost use Rattle.mr_task.specs.Calls.{TaskCall, Asks, Reports, Hears, Fails, Ends, Dies, Loses, Records};
ghost use Rattle.mr_task.specs.Readings.{seen, is_named, is_live, is_won, failures, succeeded};
ghost use Rattle.mr_task.specs.State.{Answers};
ghost use Rattle.mr_master_model.specs.declared.setting.Setting.{Setting};
ghost use Rattle.mr_master_model.specs.Job.{first_tasks, count_of};
ghost use Rattle.mr_master_tasks.specs.Told.{call_of};
ghost use Rattle.mr_master_tasks.specs.Progress.{waits, IsNextOf, IsProgress, HasTaken};
ghost use Rattle.mr_master_tasks.specs.Tasks.{IsTold};
ghost use Rattle.mr_master_tasks.specs.Tasks.{KeepsTasks, TakesAt, AnswersAt, Takes, ReadsAt, IsReplyAt, NewTasks};

use crate::ending::Ending;
use crate::progress::Progress;
use mr_ids::{AttemptId, TaskId, TaskKind};
use mr_master_model::Setting;
use mr_master_tables::both;
use mr_task::{DoneReply, TaskMachine};
use std::alloc::{AllocError, Global};
use std::marker::Model;

/// The machines of all tasks: maps, then reduces; and how far the tasks have come.
pub struct Tasks {
    pub(crate) machines: Vec<TaskMachine>,
    pub(crate) progress: Progress,
}

// By hand: one is dropped by this call.
impl Drop for Tasks {
    fn drop(self) {
        let Tasks {
            machines: _,
            progress: _,
        } = self;
    }
}

impl Model for Tasks {
    ghost use Rattle.mr_master_tasks.specs.Tasks.{Tasks};

    ghost Value = { Tasks };

    ghost view = { λ m. record { machines = m.machines.items } };

    ghost use Rattle.mr_master_tasks.specs.Progress.{IsProgress};

    ghost invariant = { λ m. IsProgress m.progress m.machines.items };
}

impl Tasks {
    /// The machines of a job's tasks, none of which got a call.
    pub fn new(alloc: Global, setting: &Setting) -> Result<Tasks, AllocError>
        ensures { IfOk result (λ tasks. KeepsTasks tasks setting.now (λ t. [])) }
    {
        let mut machines = Vec::new(alloc);
        push_tasks(alloc, &mut machines, setting, TaskKind::Map, setting.maps)?;
        push_tasks(
            alloc,
            &mut machines,
            setting,
            TaskKind::Reduce,
            setting.reduces,
        )?;
        let progress = Progress::of(alloc, &machines)?;
        Ok(Tasks { machines, progress })
    }

    /// Whether both have the same machines at the same places. How far the tasks have come is not compared: it follows from the machines.
    pub fn is_same(&self, other: &Tasks) -> bool
        ensures { IsTrue result ↔ (self.now ≡ other.now) }
    {
        are_same(&self.machines, &other.machines)
    }

    /// How many tasks there are.
    pub fn len(&self) -> usize
        ensures { result ≡ length self.now.machines }
    {
        self.machines.len()
    }

    /// The machine at a place.
    pub fn at(&self, place: usize) -> Option<&TaskMachine>
        ensures { option_copied result ≡ slice_get self.now.machines place }
    {
        self.machines.get(place)
    }

    /// Whether the task has the attempt. At a place where there is no machine: no.
    pub fn is_arrived(&self, place: usize, attempt: AttemptId) -> bool
        ensures arrived { AnswersAt self.now.machines place (λ t k calls. has (seen t k calls).arrived attempt) result }
        ensures within { result ≡ true → place < length self.now.machines }
    {
        is_arrived(&self.machines, place, attempt)
    }

    /// Whether the attempt would be the named one once it asked.
    pub fn would_name(&self, place: usize, attempt: AttemptId) -> bool
        requires { place < length self.now.machines }
        ensures { AnswersAt self.now.machines place (λ t k calls. is_named (seen t k (Asks attempt ∷ calls)) attempt) result }
    {
        let task = &self.machines[place];
        task.would_name(attempt)
    }

    /// What Done of the attempt would be answered. Of one that the task never had: ignored.
    pub fn done_reply(&self, place: usize, attempt: AttemptId) -> DoneReply
        requires { place < length self.now.machines }
        ensures { IsReplyAt self.now.machines place attempt result }
    {
        let task = &self.machines[place];
        task.done_reply(attempt).unwrap_or(DoneReply::Ignored)
    }

    /// Whether the attempt is live.
    pub fn is_live_at(&self, place: usize, attempt: AttemptId) -> bool
        requires { place < length self.now.machines }
        ensures { AnswersAt self.now.machines place (λ t k calls. is_live (seen t k calls) attempt) result }
    {
        let task = &self.machines[place];
        is_live(task, attempt)
    }

    /// The attempt says that it is done, which is answered so.
    pub fn report(&mut self, place: usize, attempt: AttemptId, reply: DoneReply)
        requires within { place < length self.old.machines }
        requires answered { IsReplyAt self.old.machines place attempt reply }
        ensures { Takes self.old place (Reports attempt) self.new }
    {
        report_at(&mut self.machines, place, attempt, reply);
        follow(&self.machines, &mut self.progress, place);
    }

    /// The attempt is heard of.
    pub fn note(&mut self, place: usize, attempt: AttemptId)
        requires { place < length self.old.machines }
        ensures { Takes self.old place (Hears attempt) self.new }
    {
        note_at(&mut self.machines, place, attempt);
        follow(&self.machines, &mut self.progress, place);
    }

    /// The attempt failed.
    pub fn fail(&mut self, place: usize, attempt: AttemptId)
        requires { place < length self.old.machines }
        ensures { Takes self.old place (Fails attempt) self.new }
    {
        fail_at(&mut self.machines, place, attempt);
        follow(&self.machines, &mut self.progress, place);
    }

    /// The attempt's container ended.
    pub fn end(&mut self, place: usize, attempt: AttemptId, was_killed: bool)
        requires { place < length self.old.machines }
        ensures { Takes self.old place (Ends attempt was_killed) self.new }
    {
        end_at(&mut self.machines, place, attempt, was_killed);
        follow(&self.machines, &mut self.progress, place);
    }

    /// The attempt ended so.
    pub fn tell_end(&mut self, place: usize, attempt: AttemptId, end: &Ending)
        requires { place < length self.old.machines }
        ensures { Takes self.old place (call_of end.now attempt) self.new }
    {
        match *end {
            Ending::Failure => self.fail(place, attempt),
            Ending::Exit(was_killed) => self.end(place, attempt, was_killed),
        }
    }

    /// Whether the task is not won, and would have failed as often as the limit once the attempt, which is live,
    /// failed.
    pub fn would_spend(&self, place: usize, attempt: AttemptId, limit: u32) -> bool
        requires { place < length self.now.machines }
        ensures { AnswersAt self.now.machines place (λ t k calls. is_live (seen t k calls) attempt && (not (is_won (seen t k calls)) && nat_le limit (failures (seen t k calls) + 1))) result }
    {
        let task = &self.machines[place];
        would_spend(task, attempt, limit)
    }

    /// The attempt ended, and that is no failure of it.
    pub fn die(&mut self, place: usize, attempt: AttemptId)
        requires { place < length self.old.machines }
        ensures { Takes self.old place (Dies attempt) self.new }
    {
        die_at(&mut self.machines, place, attempt);
        follow(&self.machines, &mut self.progress, place);
    }

    /// The output of the map's Succeeded attempt is lost.
    pub fn lose(&mut self, place: usize, attempt: AttemptId)
        requires { place < length self.old.machines }
        ensures { Takes self.old place (Loses attempt) self.new }
    {
        lose_at(&mut self.machines, place, attempt);
        follow(&self.machines, &mut self.progress, place);
    }

    /// The machine at the place is this one from then on: it is the old one once its task was told something.
    pub fn put(&mut self, place: usize, machine: TaskMachine)
        requires { (call : TaskCall) × IsTold self.old.machines place call machine }
        ensures { (call : TaskCall) → IsTold self.old.machines place call machine → Takes self.old place call self.new }
    {
        put_at(&mut self.machines, place, machine);
        follow(&self.machines, &mut self.progress, place);
    }

    /// The success of the attempt is recorded.
    pub fn record(&mut self, place: usize, attempt: AttemptId)
        requires { place < length self.old.machines }
        ensures { Takes self.old place (Records attempt) self.new }
    {
        record_at(&mut self.machines, place, attempt);
        follow(&self.machines, &mut self.progress, place);
    }
}

impl Tasks {
    /// The first task that waits for a launch, maps first.
    pub fn first_waiting(&self) -> Option<TaskId>
        ensures some { IfSome result (λ t. (w : Setting) (calls : TaskId → List TaskCall) → KeepsTasks self.now w calls → IsNextOf t.kind w (λ u. waits u w.app (calls u)) t) }
        ensures none { IfNone result ((w : Setting) (calls : TaskId → List TaskCall) (kind : TaskKind) → KeepsTasks self.now w calls → find (λ u. waits u w.app (calls u)) (first_tasks w kind (count_of w kind)) ≡ None) }
    {
        let Some(place) = self.progress.first_waiting() else {
            return None;
        };
        let machine = &self.machines[place];
        Some(machine.task())
    }

    /// Whether each task of a kind has a Succeeded attempt.
    pub fn all_succeeded(&self, kind: TaskKind) -> bool
        ensures { (w : Setting) (calls : TaskId → List TaskCall) → KeepsTasks self.now w calls → result ≡ list_all (λ t. is_some (succeeded (seen t w.app (calls t)))) (first_tasks w kind (count_of w kind)) }
    {
        match self.progress.first_open(kind) {
            Some(_place) => false,
            None => true,
        }
    }
}

// Whether the machines are the same, in the same order.
#[tactic(auto, using(crate::proofs::Comparing::one_more, crate::proofs::Comparing::at_place, crate::proofs::Comparing::all_places))]
fn are_same(machines: &[TaskMachine], others: &[TaskMachine]) -> bool
    ensures { IsTrue result ↔ (machines.now ≡ others.now) }
{
    if machines.len() != others.len() {
        return false;
    }
    for i in 0..machines.len() {
        if !machines[i].is_same(&others[i]) {
            return false;
        }
    }
    true
}

/// The machine at the place took a call: what is kept of how far the tasks have come follows.
pub fn follow(machines: &Vec<TaskMachine>, progress: &mut Progress, place: usize)
    requires { HasTaken progress.old place machines.now.items }
    ensures { IsProgress progress.new machines.now.items }
{
    let task = &machines[place];
    progress.note(place, task);
}

fn put_at(tasks: &mut Vec<TaskMachine>, place: usize, machine: TaskMachine)
    requires { place < vec_len tasks.old }
    ensures { tasks.new.items ≡ set tasks.old.items place machine }
{
    tasks[place] = machine;
}

fn is_arrived(tasks: &Vec<TaskMachine>, place: usize, attempt: AttemptId) -> bool
    ensures arrived { AnswersAt tasks.now.items place (λ t k calls. has (seen t k calls).arrived attempt) result }
    ensures within { result ≡ true → place < length tasks.now.items }
{
    if place >= tasks.len() {
        return false;
    }
    let task = &tasks[place];
    task.state(attempt).is_some()
}

// Adds the machines of the first `count` tasks of a kind.
fn push_tasks(
    alloc: Global,
    tasks: &mut Vec<TaskMachine>,
    setting: &Setting,
    kind: TaskKind,
    count: u32,
) -> Result<(), AllocError>
    ensures { OnOk result (NewTasks setting.now kind count tasks.old.items tasks.new.items) }
{
    for number in 0..count {
        let task = TaskId {
            job: setting.job,
            kind,
            number,
        };
        tasks.push(TaskMachine::new(alloc, task, setting.app))?;
    }
    Ok(())
}

/// Whether the attempt is live.
pub fn is_live(task: &TaskMachine, attempt: AttemptId) -> bool
    ensures { Answers task.now (λ t k calls. is_live (seen t k calls) attempt) result }
{
    match task.state(attempt) {
        Some(state) => state.is_live(),
        None => false,
    }
}

fn report_at(tasks: &mut Vec<TaskMachine>, place: usize, attempt: AttemptId, reply: DoneReply)
    requires within { place < vec_len tasks.old }
    requires answered { IsReplyAt tasks.old.items place attempt reply }
    ensures { TakesAt tasks.old.items place (Reports attempt) tasks.new.items }
{
    let task = &mut tasks[place];
    task.report(attempt, reply);
}

fn note_at(tasks: &mut Vec<TaskMachine>, place: usize, attempt: AttemptId)
    requires { place < vec_len tasks.old }
    ensures { TakesAt tasks.old.items place (Hears attempt) tasks.new.items }
{
    let task = &mut tasks[place];
    let _ = task.heard(attempt);
}

fn fail_at(tasks: &mut Vec<TaskMachine>, place: usize, attempt: AttemptId)
    requires { place < vec_len tasks.old }
    ensures { TakesAt tasks.old.items place (Fails attempt) tasks.new.items }
{
    let task = &mut tasks[place];
    let _ = task.failed(attempt);
}

fn die_at(tasks: &mut Vec<TaskMachine>, place: usize, attempt: AttemptId)
    requires { place < vec_len tasks.old }
    ensures { TakesAt tasks.old.items place (Dies attempt) tasks.new.items }
{
    let task = &mut tasks[place];
    let _ = task.killed(attempt);
}

fn lose_at(tasks: &mut Vec<TaskMachine>, place: usize, attempt: AttemptId)
    requires { place < vec_len tasks.old }
    ensures { TakesAt tasks.old.items place (Loses attempt) tasks.new.items }
{
    let task = &mut tasks[place];
    let _ = task.lost(attempt);
}

fn record_at(tasks: &mut Vec<TaskMachine>, place: usize, attempt: AttemptId)
    requires { place < vec_len tasks.old }
    ensures { TakesAt tasks.old.items place (Records attempt) tasks.new.items }
{
    let task = &mut tasks[place];
    let _ = task.recorded(attempt);
}

fn end_at(tasks: &mut Vec<TaskMachine>, place: usize, attempt: AttemptId, was_killed: bool)
    requires { place < vec_len tasks.old }
    ensures { TakesAt tasks.old.items place (Ends attempt was_killed) tasks.new.items }
{
    let task = &mut tasks[place];
    let _ = task.ended(attempt, was_killed);
}

fn would_spend(task: &TaskMachine, attempt: AttemptId, limit: u32) -> bool
    ensures { Answers task.now (λ t k calls. is_live (seen t k calls) attempt && (not (is_won (seen t k calls)) && nat_le limit (failures (seen t k calls) + 1))) result }
{
    let failures = u64::from(task.failures()) + 1;
    let is_won = task.is_won();
    both(
        is_live(task, attempt),
        both(!is_won, u64::from(limit) <= failures),
    )
}
