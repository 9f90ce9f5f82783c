//! What an append changes, and what does once all that was appended is stable: an attempt whose success was appended is
//! Succeeded then.
ghost use Rattle.std.specs.Prelude.{◌≡◌, Some};
ghost use Rattle.mr_master_model.specs.Answered.{tell_recorded, recorded, success_in, flushed, moved_first};
ghost use Rattle.mr_master_state.specs.State.{Moves};

use crate::machine::Machine;
use mr_history::Record;
use mr_ids::AttemptId;
use mr_master_tasks::place_of;

impl Machine {
    // The success of an attempt is stable: it is Succeeded.
    fn record_success(&mut self, attempt: AttemptId)
        ensures moves { Moves self.old (λ w s. tell_recorded w s (Some attempt)) self.new }
        ensures writing { self.new.writing ≡ self.old.writing }
    {
        let Some(place) = place_of(&self.setting, attempt.task()) else {
            return;
        };
        if place < self.tasks.len() {
            self.tasks.record(place, attempt);
        }
    }

    // The success that a record tells is stable.
    fn record_one(&mut self, told: Record)
        ensures moves { Moves self.old (λ w s. tell_recorded w s (success_in told)) self.new }
        ensures writing { self.new.writing ≡ self.old.writing }
    {
        if let Some(attempt) = success_in(told) {
            self.record_success(attempt);
        }
    }

    // All successes that were appended are stable.
    fn record_tail(&mut self)
        ensures { Moves self.old (λ w s. recorded w s s.tail) self.new }
    {
        let len = self.writing.tail().len();
        for i in 0..len {
            let told = self.writing.tail()[i];
            self.record_one(told);
        }
    }

    // All that was appended is stable.
    pub(crate) fn flush(&mut self)
        ensures { Moves self.old (λ w s. flushed w s) self.new }
    {
        self.record_tail();
        self.writing.clear();
    }

    // The first record due was appended.
    pub(crate) fn append_first(&mut self)
        ensures { Moves self.old (λ w s. moved_first s s.due) self.new }
    {
        self.writing.append_first();
    }
}

// The attempt whose success a record tells.
fn success_in(told: Record) -> Option<AttemptId>
    ensures { result ≡ success_in told }
{
    match told {
        Record::MapSucceeded { attempt, .. } | Record::ReduceSucceeded { attempt, .. } => Some(
            attempt,
        ),
        Record::AttemptStarted { .. } | Record::AttemptFailed { .. } | Record::JobUnsuccessful =>
            None,
    }
}
