//! How far the tasks have come, kept where a task's machine changes, so that nobody has to look through all tasks.
ghost use Rattle.std.specs.Prelude.{◌≡◌, ◌≤◌, ◌+◌, ◌^◌, ◌&&◌, ℕ, length, false, is_none, not, nat_lt, IfOk, IfSome, IfNone};
ghost use Rattle.mr_grant.specs.Attempts.{first_of};
ghost use Rattle.mr_task.specs.Readings.{seen, live};
ghost use Rattle.mr_task.specs.State.{Answers};
ghost use Rattle.mr_master_model.specs.Readings.{wants_launch};
ghost use Rattle.mr_master_tables.specs.Marks.{is_marked, IsFirst};
ghost use Rattle.mr_master_tasks.specs.Progress.{is_open, open_of, same_kind, HasRoom, NotesAll, IsProgress};

use crate::tasks::is_live;
use mr_ids::TaskKind;
use mr_master_tables::{Marks, both};
use mr_task::{MAX_LAUNCHES, TaskMachine};
use std::alloc::{AllocError, Global};
use std::marker::Model;

/// Which places are those of tasks that wait for a launch, of maps that are not Succeeded, and of reduces that are
/// not.
#[derive(Drop)]
pub struct Progress {
    waiting: Marks,
    open_maps: Marks,
    open_reduces: Marks,
}

impl Model for Progress {
    ghost use Rattle.mr_master_tasks.specs.Progress.{Progress};

    ghost Value = { Progress };

    ghost view = { λ p. record { waiting = p.waiting; open_maps = p.open_maps; open_reduces = p.open_reduces } };
}

impl Progress {
    /// Of these machines.
    pub fn of(alloc: Global, machines: &Vec<TaskMachine>) -> Result<Progress, AllocError>
        requires { length machines.now.items ≤ 2 ^ 40 }
        ensures { IfOk result (λ progress. IsProgress progress machines.now.items) }
    {
        let mut progress = Progress::new(alloc, machines.len())?;
        for i in 0..machines.len() {
            progress.note(i, &machines[i]);
        }
        Ok(progress)
    }

    // `count` places at least, none of which is marked.
    fn new(alloc: Global, count: usize) -> Result<Progress, AllocError>
        requires { count ≤ 2 ^ 40 }
        ensures room { IfOk result (λ progress. HasRoom progress count) }
        ensures waiting { IfOk result (λ progress. (i : ℕ) → is_marked progress.waiting i ≡ false) }
        ensures open_maps { IfOk result (λ progress. (i : ℕ) → is_marked progress.open_maps i ≡ false) }
        ensures open_reduces { IfOk result (λ progress. (i : ℕ) → is_marked progress.open_reduces i ≡ false) }
    {
        Ok(Progress {
            waiting: Marks::new(alloc, count)?,
            open_maps: Marks::new(alloc, count)?,
            open_reduces: Marks::new(alloc, count)?,
        })
    }

    /// The same marks.
    pub fn copy(&self) -> Result<Progress, AllocError>
        ensures { IfOk result (λ progress. progress ≡ self.now) }
    {
        Ok(Progress {
            waiting: self.waiting.copy()?,
            open_maps: self.open_maps.copy()?,
            open_reduces: self.open_reduces.copy()?,
        })
    }

    /// This machine is at the place from then on.
    pub fn note(&mut self, place: usize, task: &TaskMachine)
        requires { HasRoom self.old (place + 1) }
        ensures { NotesAll self.old place task.now self.new }
    {
        self.waiting.set(place, wants_launch(task));
        self.open_maps.set(place, is_open(task, TaskKind::Map));
        self.open_reduces
            .set(place, is_open(task, TaskKind::Reduce));
    }

    /// The first place of a task that waits.
    pub fn first_waiting(&self) -> Option<usize>
        ensures first { IfSome result (λ i. IsFirst self.now.waiting i) }
        ensures none { IfNone result ((i : ℕ) → is_marked self.now.waiting i ≡ false) }
    {
        self.waiting.first()
    }

    /// The first place of a task of a kind that is not Succeeded.
    pub fn first_open(&self, kind: TaskKind) -> Option<usize>
        ensures first { IfSome result (λ i. IsFirst (open_of kind self.now) i) }
        ensures none { IfNone result ((i : ℕ) → is_marked (open_of kind self.now) i ≡ false) }
    {
        match kind {
            TaskKind::Map => self.open_maps.first(),
            TaskKind::Reduce => self.open_reduces.first(),
        }
    }
}

// Whether the task is of this kind, and not Succeeded.
fn is_open(task: &TaskMachine, kind: TaskKind) -> bool
    ensures { Answers task.now (is_open kind) result }
{
    let is_kind = same_kind(task.task().kind, kind);
    let none = task.winner().is_none();
    both(is_kind, none)
}

#[tactic(auto, using(crate::proofs::KindTests::map_is, crate::proofs::KindTests::reduce_is))]
fn same_kind(a: TaskKind, b: TaskKind) -> bool
    ensures { result ≡ same_kind a b }
{
    match a {
        TaskKind::Map => b.is_map(),
        TaskKind::Reduce => b.is_reduce(),
    }
}

// Whether no attempt is live, Recording or Succeeded, and numbers are left.
fn wants_launch(task: &TaskMachine) -> bool
    ensures { Answers task.now (λ t k calls. wants_launch (seen t k calls)) result }
{
    let idle = is_idle(task);
    let won = task.is_won();
    let numbered = task.numbered();
    all_hold(idle, won, numbered)
}

fn all_hold(idle: bool, won: bool, numbered: u32) -> bool
    ensures { result ≡ (idle && (not won && nat_lt numbered 1000)) }
{
    idle && !won && numbered < MAX_LAUNCHES
}

// Whether no attempt is live.
fn is_idle(task: &TaskMachine) -> bool
    ensures { Answers task.now (λ t k calls. is_none (first_of (live (seen t k calls)))) result }
{
    let arrived = task.arrived();
    for i in 0..arrived.len() {
        if is_live(task, arrived[i]) {
            return false;
        }
    }
    true
}
