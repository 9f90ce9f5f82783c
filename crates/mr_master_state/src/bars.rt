//! Bars that are past: their attempts were accepted or are over, so none of them is live or ever will be.
ghost use Rattle.std.specs.Prelude.{◌≡◌, true};
ghost use Rattle.std.specs.List.{find};
ghost use Rattle.mr_task.specs.Readings.{seen};
ghost use Rattle.mr_task.specs.State.{Answers};
ghost use Rattle.mr_master_model.specs.Readings.{is_live};
ghost use Rattle.mr_master_state.specs.Passing.{is_out_of, is_out, NoneLive, Passes, IsPastAt};
ghost use Rattle.mr_master_state.specs.State.{Reads};

use crate::machine::Machine;
use mr_ids::AttemptId;
use mr_master_tasks::{is_live, place_of};
use mr_task::TaskMachine;

impl Machine {
    /// Of the attempts whose bar is due, the first that is live. None of the first `passed` ones is live.
    pub fn first_bar(&self, passed: usize) -> Option<AttemptId>
        requires { NoneLive self.now passed }
        ensures { Reads self.now (λ w s. find (is_live w s) s.bars) result }
    {
        for i in passed..self.bars.len() {
            if let Some(attempt) = self.bars.at(i) {
                if self.is_live(attempt) {
                    return Some(attempt);
                }
            }
        }
        None
    }

    /// How many of the first bars are past, where `first` of them are.
    pub fn passed(&self, first: usize) -> usize
        ensures { Passes self.now first result }
    {
        let mut passed = first;
        for i in first..self.bars.len() {
            if !self.is_past_at(i) {
                return passed;
            }
            passed = i + 1;
        }
        passed
    }

    // Whether there is a bar at the place, and it is past.
    fn is_past_at(&self, place: usize) -> bool
        ensures { result ≡ true → IsPastAt self.now place }
    {
        match self.bars.at(place) {
            Some(attempt) => self.is_out(attempt),
            None => false,
        }
    }

    // Whether the attempt was accepted or is over.
    fn is_out(&self, attempt: AttemptId) -> bool
        ensures { Reads self.now (λ w s. is_out w s attempt) result }
    {
        let Some(place) = place_of(&self.setting, attempt.task()) else {
            return false;
        };
        match self.tasks.at(place) {
            Some(task) => is_out(task, attempt),
            None => false,
        }
    }

    /// Whether the attempt is live.
    pub fn is_live(&self, attempt: AttemptId) -> bool
        ensures { Reads self.now (λ w s. is_live w s attempt) result }
    {
        let Some(place) = place_of(&self.setting, attempt.task()) else {
            return false;
        };
        match self.tasks.at(place) {
            Some(task) => is_live(task, attempt),
            None => false,
        }
    }
}

// Whether the attempt was accepted or is over.
fn is_out(task: &TaskMachine, attempt: AttemptId) -> bool
    ensures { Answers task.now (λ t k calls. is_out_of (seen t k calls) attempt) result }
{
    match task.state(attempt) {
        Some(state) => !state.is_live(),
        None => false,
    }
}
