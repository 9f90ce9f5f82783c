//! What a packet that was heard changes: a task is told, records are due, a node is known in another incarnation.
ghost use Rattle.mr_task.specs.Calls.{Asks, Reports, Hears, Loses};
ghost use Rattle.mr_master_tasks.specs.Tasks.{IsTold, IsReplyAt};
ghost use Rattle.mr_master_tasks.specs.Told.{call_of};
ghost use Rattle.mr_master_model.specs.Readings.{tell};
ghost use Rattle.mr_master_model.specs.Hearing.{with_known};
ghost use Rattle.mr_master_state.specs.Told.{with_record, due_count, blamed, blame_count, with_deaths, with_losses};
ghost use Rattle.mr_master_state.specs.Prepared.{IsAt, HasRecordRoom, KnowsThen};
ghost use Rattle.mr_master_state.specs.State.{Moves};

use crate::blame::Blame;
use crate::boxed::Boxed;
use crate::machine::Machine;
use mr_history::Record;
use mr_ids::AttemptId;
use mr_master_tables::Nodes;
use mr_master_tasks::Ending;
use mr_task::{DoneReply, TaskMachine};

impl Machine {
    // The attempt asked.
    pub(crate) fn asks(&mut self, place: usize, attempt: AttemptId, machine: Boxed<TaskMachine>)
        requires at { IsAt self.old place attempt }
        requires told { IsTold self.old.tasks.machines place (Asks attempt) machine }
        ensures { Moves self.old (λ w s. tell s attempt.task (Asks attempt)) self.new }
    {
        self.tasks.put(place, machine.into_inner());
    }

    // The attempt reported, and was answered so.
    pub(crate) fn reports(
        &mut self,
        place: usize,
        attempt: AttemptId,
        reply: DoneReply,
        due: Option<Record>,
    )
        requires at { IsAt self.old place attempt }
        requires answered { IsReplyAt self.old.tasks.machines place attempt reply }
        requires room { HasRecordRoom self.old (due_count due) }
        ensures { Moves self.old (λ w s. with_record (tell s attempt.task (Reports attempt)) due) self.new }
    {
        self.tasks.report(place, attempt, reply);
        self.write(due);
    }

    // The record, if there is one, is due.
    fn write(&mut self, due: Option<Record>)
        requires { HasRecordRoom self.old (due_count due) }
        ensures { Moves self.old (λ w s. with_record s due) self.new }
    {
        if let Some(told) = due {
            self.writing.push_reserved(told);
        }
    }
}

impl Machine {
    // The attempt ended.
    pub(crate) fn ends(&mut self, place: usize, attempt: AttemptId, end: &Ending, blame: Blame)
        requires at { IsAt self.old place attempt }
        requires room { HasRecordRoom self.old (blame_count blame) }
        ensures { Moves self.old (λ w s. blamed (tell s attempt.task (call_of end.now attempt)) attempt blame) self.new }
    {
        self.tasks.tell_end(place, attempt, end);
        self.record_blame(attempt, blame);
    }

    // Its failure is to be recorded, and that of the job.
    fn record_blame(&mut self, attempt: AttemptId, blame: Blame)
        requires { HasRecordRoom self.old (blame_count blame) }
        ensures { Moves self.old (λ w s. blamed s attempt blame) self.new }
    {
        match blame {
            Blame::Nobody => {}
            Blame::Attempt => self.fail_attempt(attempt),
            Blame::Job => self.fail_job(attempt),
        }
    }

    // The attempt failed.
    fn fail_attempt(&mut self, attempt: AttemptId)
        requires { HasRecordRoom self.old 1 }
        ensures { Moves self.old (λ w s. blamed s attempt Blame.Attempt) self.new }
    {
        self.writing
            .push_reserved(Record::AttemptFailed { attempt });
    }

    // The attempt failed, and with it the job.
    fn fail_job(&mut self, attempt: AttemptId)
        requires { HasRecordRoom self.old 2 }
        ensures { Moves self.old (λ w s. blamed s attempt Blame.Job) self.new }
    {
        self.writing
            .push_reserved(Record::AttemptFailed { attempt });
        self.writing.push_reserved(Record::JobUnsuccessful);
        self.work.fail();
    }
}

impl Machine {
    // This is known of the nodes from then on; attempts end, and the outputs of others are lost.
    pub(crate) fn knows(
        &mut self,
        node: u32,
        incarnation: u32,
        nodes: Nodes,
        dead: Vec<AttemptId>,
        lost: Vec<AttemptId>,
    )
        requires { KnowsThen self.old node incarnation nodes }
        ensures { Moves self.old (λ w s. with_known (with_losses w (with_deaths w s dead.items) lost.items) node incarnation) self.new }
    {
        self.nodes = nodes;
        self.leave(&dead, &lost);
    }

    // The attempt is heard of.
    pub(crate) fn hears(&mut self, place: usize, attempt: AttemptId)
        requires { IsAt self.old place attempt }
        ensures { Moves self.old (λ w s. tell s attempt.task (Hears attempt)) self.new }
    {
        self.tasks.note(place, attempt);
    }

    // The output of the attempt is lost.
    pub(crate) fn loses(&mut self, place: usize, attempt: AttemptId)
        requires { IsAt self.old place attempt }
        ensures { Moves self.old (λ w s. tell s attempt.task (Loses attempt)) self.new }
    {
        self.tasks.lose(place, attempt);
    }
}
