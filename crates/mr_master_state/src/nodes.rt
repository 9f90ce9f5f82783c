//! What is gone with a node: its live attempts there, and the outputs that lay there.
ghost use Rattle.std.specs.Prelude.{length, ◌≡◌, ◌≤◌, flat_map, [], ◌∷◌, IfOk, IfSome, IfNone, OnOk};
ghost use Rattle.mr_master_model.specs.Job.{first_tasks, count_of, all_maps, all_tasks};
ghost use Rattle.mr_master_model.specs.Readings as reading;
ghost use Rattle.mr_master_model.specs.Readings.{succeeded_where};
ghost use Rattle.mr_master_state.specs.inner.Leaving.{without};
ghost use Rattle.mr_master_state.specs.inner.Outputs.{NoneLost, NoneLostFrom};
ghost use Rattle.mr_master_tables.specs.Bars.{all_added};
ghost use Rattle.mr_master_tables.specs.Gone.{gone_of, if_gone, of_job, is_lost, lost_of};
ghost use Rattle.mr_master_state.specs.State.{Adds, Reads, Moves};
ghost use Rattle.mr_master_state.specs.Told.{with_deaths, with_losses};

use crate::machine::Machine;
use mr_ids::{AttemptId, TaskId, TaskKind};
use mr_master_model::Setting;
use mr_master_tables::{Gone, lower};
use mr_master_tasks::place_of;
use std::alloc::AllocError;

impl Machine {
    // Adds the attempt, if it was launched and is gone.
    fn push_if_gone(
        &self,
        attempts: &mut Vec<AttemptId>,
        attempt: AttemptId,
        gone: &Gone,
    ) -> Result<(), AllocError>
        ensures { OnOk result (Adds self.now attempts.old.items (λ w s. if_gone w s gone.now attempt) attempts.new.items) }
    {
        if let Some((_place, launch)) = self.known(attempt) {
            if gone.has(&launch) {
                attempts.push(attempt)?;
            }
        }
        Ok(())
    }

    // Adds those of a task's live attempts that are gone, in order of arrival.
    fn push_gone(
        &self,
        attempts: &mut Vec<AttemptId>,
        task: TaskId,
        gone: &Gone,
    ) -> Result<(), AllocError>
        ensures { OnOk result (Adds self.now attempts.old.items (λ w s. of_job w task (gone_of w s gone.now task)) attempts.new.items) }
    {
        let live = self.live_of(task)?;
        for i in 0..live.len() {
            let attempt = live[i];
            self.push_if_gone(attempts, attempt, gone)?;
        }
        Ok(())
    }

    /// Adds the attempts at all tasks of a kind that are live and gone, by task number, then arrival.
    pub fn push_all_gone(
        &self,
        attempts: &mut Vec<AttemptId>,
        kind: TaskKind,
        gone: &Gone,
    ) -> Result<(), AllocError>
        ensures { OnOk result (Adds self.now attempts.old.items (λ w s. flat_map (gone_of w s gone.now) (first_tasks w kind (count_of w kind))) attempts.new.items) }
    {
        let count = count_of(&self.setting, kind);
        let mut from = 0;
        for _ in 0..count {
            let Some(number) = self.launches.next_on(kind, gone.node(), from) else {
                return Ok(());
            };
            if number >= count {
                return Ok(());
            }
            let task = TaskId {
                job: self.setting.job,
                kind,
                number,
            };
            self.push_gone(attempts, task, gone)?;
            from = number + 1;
        }
        Ok(())
    }

    // Whether the output of the attempt is lost.
    fn is_lost(&self, attempt: AttemptId, gone: &Gone) -> bool
        ensures { Reads self.now (λ w s. is_lost gone.now (reading.place_of w s attempt)) result }
    {
        match self.place(attempt) {
            Some(place) => gone.lies(place.0, place.1),
            None => false,
        }
    }

    // Adds the task's Succeeded attempt, if its output is lost.
    fn push_lost(
        &self,
        attempts: &mut Vec<AttemptId>,
        task: TaskId,
        gone: &Gone,
    ) -> Result<(), AllocError>
        ensures { OnOk result (Adds self.now attempts.old.items (λ w s. succeeded_where w s (λ a. is_lost gone.now (reading.place_of w s a)) task) attempts.new.items) }
    {
        if let Some(attempt) = self.succeeded(task) {
            if self.is_lost(attempt, gone) {
                attempts.push(attempt)?;
            }
        }
        Ok(())
    }

    // Adds the maps' Succeeded attempts whose outputs are lost, by map number.
    fn push_all_lost(&self, attempts: &mut Vec<AttemptId>, gone: &Gone) -> Result<(), AllocError>
        ensures { OnOk result (Adds self.now attempts.old.items (λ w s. flat_map (lost_of w s gone.now) (all_maps w)) attempts.new.items) }
    {
        let count = self.setting.maps;
        let mut from = 0;
        for _ in 0..count {
            let Some(number) = self.next_output(gone, from) else {
                return Ok(());
            };
            if number >= count {
                return Ok(());
            }
            let task = TaskId {
                job: self.setting.job,
                kind: TaskKind::Map,
                number,
            };
            self.push_lost(attempts, task, gone)?;
            from = number + 1;
        }
        Ok(())
    }

    // Of the maps from this number on, the first whose output may be lost. An attempt of it was launched on the node,
    // or it is told that the output of one lies there.
    fn next_output(&self, gone: &Gone, from: u32) -> Option<u32>
        ensures from { IfSome result (λ number. from ≤ number) }
        ensures first { IfSome result (λ number. NoneLost self.now gone.now from number) }
        ensures none { IfNone result (NoneLostFrom self.now gone.now from) }
    {
        let node = gone.node();
        let launched = self.launches.next_on(TaskKind::Map, node, from);
        let told = self.earlier.next_on(node, from);
        lower(launched, told)
    }

    /// The attempts at all tasks that are live and gone.
    pub fn all_gone(&self, gone: &Gone) -> Result<Vec<AttemptId>, AllocError>
        ensures { IfOk result (λ attempts. Reads self.now (λ w s. flat_map (gone_of w s gone.now) (all_tasks w)) attempts.items) }
    {
        let mut attempts = Vec::new(self.alloc);
        self.push_all_gone(&mut attempts, TaskKind::Map, gone)?;
        self.push_all_gone(&mut attempts, TaskKind::Reduce, gone)?;
        Ok(attempts)
    }

    /// The maps' Succeeded attempts whose outputs are lost.
    pub fn all_lost(&self, gone: &Gone) -> Result<Vec<AttemptId>, AllocError>
        ensures { IfOk result (λ attempts. Reads self.now (λ w s. flat_map (lost_of w s gone.now) (all_maps w)) attempts.items) }
    {
        let mut attempts = Vec::new(self.alloc);
        self.push_all_lost(&mut attempts, gone)?;
        Ok(attempts)
    }

    // Attempts end, and the outputs of others are lost.
    pub(crate) fn leave(&mut self, dead: &[AttemptId], lost: &[AttemptId])
        ensures { Moves self.old (λ w s. without w s dead.now lost.now) self.new }
    {
        self.tell_deaths(dead);
        self.tell_losses(lost);
    }

    // The attempt ends, and that is no failure of it.
    pub(crate) fn tell_death(&mut self, attempt: AttemptId)
        ensures { Moves self.old (λ w s. with_deaths w s (attempt ∷ [])) self.new }
    {
        if let Some(place) = place_of(&self.setting, attempt.task()) {
            if place < self.tasks.len() {
                self.tasks.die(place, attempt);
            }
        }
    }

    // The output of the attempt is lost.
    fn tell_loss(&mut self, attempt: AttemptId)
        ensures { Moves self.old (λ w s. with_losses w s (attempt ∷ [])) self.new }
    {
        if let Some(place) = place_of(&self.setting, attempt.task()) {
            if place < self.tasks.len() {
                self.tasks.lose(place, attempt);
            }
        }
    }

    // The attempts end, one after another.
    fn tell_deaths(&mut self, dead: &[AttemptId])
        ensures { Moves self.old (λ w s. with_deaths w s dead.now) self.new }
    {
        for i in 0..dead.len() {
            self.tell_death(dead[i]);
        }
    }

    // The outputs of the attempts are lost, one after another.
    fn tell_losses(&mut self, lost: &[AttemptId])
        ensures { Moves self.old (λ w s. with_losses w s lost.now) self.new }
    {
        for i in 0..lost.len() {
            self.tell_loss(lost[i]);
        }
    }

    // A node was given up: attempts ended, outputs are lost, and bars are due.
    pub(crate) fn has_given_up(
        &mut self,
        dead: Vec<AttemptId>,
        lost: Vec<AttemptId>,
        late: Vec<AttemptId>,
    )
        requires { length late.items ≤ self.old.bars.room }
        ensures { Moves self.old (λ w s. record (with_losses w (with_deaths w s dead.items) lost.items) { bars = all_added s.bars late.items }) self.new }
    {
        self.bars.add_all_reserved(&late);
        self.leave(&dead, &lost);
    }
}

// How many tasks of a kind the job has.
pub fn count_of(setting: &Setting, kind: TaskKind) -> u32
    ensures { result ≡ count_of setting.now kind }
{
    match kind {
        TaskKind::Map => setting.maps,
        TaskKind::Reduce => setting.reduces,
    }
}
