//! The machine of a master, part by part.
ghost use Rattle.std.specs.Prelude.{◌<◌, true, length, option_map, Some, None, IfSome, IfOk, [], if◌then◌else◌};
ghost use Rattle.mr_grant.specs.Attempts.{has};
ghost use Rattle.mr_task.specs.Readings.{seen};
ghost use Rattle.mr_master_model.specs.Job.{is_task};
ghost use Rattle.mr_master_model.specs.Readings.{launch_of, is_known, launched_in};
ghost use Rattle.mr_master_tasks.specs.Places.{place_of};
ghost use Rattle.mr_master_tasks.specs.Tasks.{AnswersAt};
ghost use Rattle.mr_master_state.specs.State.{StandsFor, Reads};

use mr_ids::{AttemptId, TaskId};
use mr_master_model::{Launch, Setting};
use mr_master_phase::Work;
use mr_master_tables::{Bars, Earlier, Launches, Nodes, Writing};
use mr_master_tasks::{Tasks, place_of};
use mr_packet::ContainerId;
use std::alloc::{AllocError, Global};
use std::marker::Model;

/// What a master knows of its tasks, containers and nodes, and what is to be written down.
pub struct Machine {
    /// Where its memory comes from.
    pub alloc: Global,
    /// The job, and where it runs.
    pub setting: Setting,
    /// What it is at, in its phase.
    pub work: Work,
    /// The machines of the tasks.
    pub tasks: Tasks,
    /// What was launched, and which containers were sent a Kill.
    pub launches: Launches,
    /// In which incarnation each node is known.
    pub nodes: Nodes,
    /// What was read of the earlier segments.
    pub earlier: Earlier,
    /// The records that are due, and those that were appended and are not stable yet.
    pub writing: Writing,
    /// The attempts whose bars are due.
    pub bars: Bars,
}

// By hand, so that a machine is dropped by this call: a derived drop is taken apart by the check at each place where
// one is dropped.
impl Drop for Machine {
    fn drop(self) {
        let Machine {
            alloc: _,
            setting: _,
            work: _,
            tasks: _,
            launches: _,
            nodes: _,
            earlier: _,
            writing: _,
            bars: _,
        } = self;
    }
}

impl Model for Machine {
    ghost use Rattle.mr_master_state.specs.State.{Master};

    ghost Value = { Master };

    ghost view = { λ m. record { setting = m.setting; work = m.work; tasks = m.tasks; launches = m.launches; nodes = m.nodes; earlier = m.earlier; writing = m.writing; bars = m.bars } };
}

impl Machine {
    /// The machine of a new master: it stands for the empty past. Where memory is refused: an error.
    pub fn new(alloc: Global, setting: Setting) -> Result<Machine, AllocError>
        ensures { IfOk result (λ machine. StandsFor machine setting []) }
    {
        let tasks = Tasks::new(alloc, &setting)?;
        Ok(Machine {
            alloc,
            setting,
            work: Work::new(),
            tasks,
            launches: Launches::new(alloc),
            nodes: Nodes::new(alloc),
            earlier: Earlier::new(alloc),
            writing: Writing::new(alloc),
            bars: Bars::new(alloc),
        })
    }

    // Where the task of an attempt stands, if the attempt is known.
    fn place_if_known(&self, attempt: AttemptId) -> Option<usize>
        ensures known { Reads self.now (λ w s. if is_known w s attempt then Some (place_of w attempt.task) else None) result }
        ensures within { IfSome result (λ p. p < length self.now.tasks.machines) }
    {
        let place = place_of(&self.setting, attempt.task())?;
        if self.tasks.is_arrived(place, attempt) {
            Some(place)
        } else {
            None
        }
    }

    /// The attempt that a container was launched for, where its task stands, and what it was launched as.
    pub fn launched_in(&self, container: ContainerId) -> Option<(usize, (AttemptId, Launch))>
        ensures known { Reads self.now (λ w s. option_map (λ p. (place_of w p.0.task, p)) (launched_in w s container)) result }
        ensures within { IfSome result (λ p. p.0 < length self.now.tasks.machines) }
    {
        if container.app.number() != self.setting.app.number() {
            return None;
        }
        let launched = self.launches.at(container.number as usize)?;
        let place = self.place_if_known(launched.0)?;
        Some((place, launched))
    }

    /// Where the task of a known attempt stands, and what the attempt was launched as.
    pub fn known(&self, attempt: AttemptId) -> Option<(usize, Launch)>
        ensures known { Reads self.now (λ w s. option_map (λ l. (place_of w attempt.task, l)) (launch_of w s attempt)) result }
        ensures within { IfSome result (λ p. p.0 < length self.now.tasks.machines) }
        ensures arrived { IfSome result (λ p. AnswersAt self.now.tasks.machines p.0 (λ t k calls. has (seen t k calls).arrived attempt) true) }
    {
        let place = place_of(&self.setting, attempt.task())?;
        if !self.tasks.is_arrived(place, attempt) {
            return None;
        }
        let launch = self.launches.of(&attempt)?;
        Some((place, launch))
    }

    /// Where a task stands that is of the job.
    pub fn place_within(&self, task: TaskId) -> Option<usize>
        ensures place { Reads self.now (λ w s. if is_task w task then Some (place_of w task) else None) result }
        ensures within { IfSome result (λ place. place < length self.now.tasks.machines) }
    {
        let place = place_of(&self.setting, task)?;
        if place < self.tasks.len() {
            Some(place)
        } else {
            None
        }
    }
}
