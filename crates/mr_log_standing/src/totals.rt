//! What standings answer of the whole job.
ghost use Rattle.std.specs.Prelude.{ℕ, ◌≡◌, ◌<◌, not, ◌&&◌, ◌||◌, IfOk, is_some};
ghost use Rattle.std.specs.List.{list_any};
ghost use Rattle.mr_log_entries.specs.Recorded.{lines_of};
ghost use Rattle.mr_log_standing.specs.inner.Notes.{is_picked};
ghost use Rattle.mr_log_standing.specs.Standing.{task_of, has_winner, is_left, left, is_run, run, has_won_all, is_over, is_released, is_publishable, may_end};

use crate::notes::Note;
use crate::standings::Standings;
use mr_ids::TaskId;
use std::alloc::{AllocError, Global};

impl Standings {
    /// The numbers of the tasks that have no winner, in order. Memory may be refused.
    #[tactic(auto, using(crate::proofs::Counting::passed_more, crate::proofs::Counting::failed_more, crate::proofs::Counting::none_below))]
    pub fn left(&self, alloc: Global) -> Result<Vec<u32>, AllocError>
        ensures { IfOk result (λ all.
            all.items ≡ left self.now.job (lines_of self.now.entries)) }
    {
        let mut all = Vec::new(alloc);
        for n in 0..self.job().tasks {
            if !self.has_winner(n) {
                all.push(n)?;
            }
        }
        Ok(all)
    }

    /// The numbers of the tasks at which an attempt is under way, in order. Memory may be refused.
    #[tactic(auto, using(crate::proofs::Counting::passed_more, crate::proofs::Counting::failed_more, crate::proofs::Counting::none_below))]
    pub fn run(&self, alloc: Global) -> Result<Vec<u32>, AllocError>
        ensures { IfOk result (λ all.
            all.items ≡ run self.now.job (lines_of self.now.entries)) }
    {
        let mut all = Vec::new(alloc);
        for n in 0..self.job().tasks {
            if self.is_run(n) {
                all.push(n)?;
            }
        }
        Ok(all)
    }

    /// Whether an attempt is under way at the task with this number.
    pub fn is_run(&self, n: u32) -> bool
        requires { n < self.now.job.tasks }
        ensures { result ≡ is_run self.now.job (lines_of self.now.entries) n }
    {
        let task = self.task(n);
        self.any_run(&task, self.notes(n))
    }

    fn any_run(&self, task: &TaskId, notes: &[Note]) -> bool
        ensures { result
            ≡ list_any (is_picked self.now.job (lines_of self.now.entries) task.now) notes.now }
    {
        notes.iter().any(|note| self.is_picked(task, note))
    }

    fn is_picked(&self, task: &TaskId, note: &Note) -> bool
        ensures { result
            ≡ is_picked self.now.job (lines_of self.now.entries) task.now note.now }
    {
        self.under_way_in(task, note).is_some()
    }

    /// Whether each task has a winner.
    #[tactic(auto, using(crate::proofs::Counting::won_more, crate::proofs::Counting::one_lacks, crate::proofs::Counting::none_below))]
    pub fn has_won_all(&self) -> bool
        ensures { result ≡ has_won_all self.now.job (lines_of self.now.entries) }
    {
        for n in 0..self.job().tasks {
            if !self.has_winner(n) {
                return false;
            }
        }
        true
    }

    /// Whether the job may be published.
    pub fn is_publishable(&self) -> bool
        ensures { result ≡ is_publishable self.now.job (lines_of self.now.entries) }
    {
        self.has_won_all() && (!self.is_over() && (!self.job().hold || self.is_released()))
    }

    /// Whether the job may be ended as failed.
    pub fn may_end(&self) -> bool
        ensures { result ≡ may_end self.now.job (lines_of self.now.entries) }
    {
        !self.has_won_all() || (self.job().hold && !self.is_released())
    }
}
