//! Kills to the containers of attempts that are live: of one, of a task's, and of all but the one whose end failed
//! the job.
ghost use Rattle.std.specs.Prelude.{◌≡◌, flat_map, IfOk, OnOk};
ghost use Rattle.mr_grant.specs.Attempts.{same_attempt};
ghost use Rattle.mr_master_model.specs.Job.{first_tasks, count_of, all_tasks};
ghost use Rattle.mr_master_model.specs.Sends.{kill_of, kills_of};
ghost use Rattle.mr_master_state.specs.Kills.{kills_but};
ghost use Rattle.mr_master_state.specs.State.{Reads, Adds};

use crate::machine::Machine;
use crate::nodes::count_of;
use mr_ids::{AttemptId, TaskId, TaskKind};
use mr_master_tables::kill;
use mr_packet::Envelope;
use std::alloc::AllocError;

impl Machine {
    /// Asks the container of an attempt to stop, if the attempt is known.
    pub fn push_kill(
        &self,
        packets: &mut Vec<Envelope>,
        attempt: AttemptId,
    ) -> Result<(), AllocError>
        ensures { OnOk result (Adds self.now packets.old.items (λ w s. kill_of w s attempt) packets.new.items) }
    {
        if let Some((_place, launch)) = self.known(attempt) {
            packets.push(kill(&launch))?;
        }
        Ok(())
    }

    /// Asks the containers of these attempts to stop, one after another. Of an attempt that is not known nothing is sent.
    pub fn push_each_kill(
        &self,
        packets: &mut Vec<Envelope>,
        attempts: &[AttemptId],
    ) -> Result<(), AllocError>
        ensures { OnOk result (Adds self.now packets.old.items (λ w s. flat_map (kill_of w s) attempts.now) packets.new.items) }
    {
        for i in 0..attempts.len() {
            let attempt = attempts[i];
            self.push_kill(packets, attempt)?;
        }
        Ok(())
    }

    /// Asks the containers of a task's live attempts to stop, in order of arrival.
    pub fn push_kills(&self, packets: &mut Vec<Envelope>, task: TaskId) -> Result<(), AllocError>
        ensures { OnOk result (Adds self.now packets.old.items (λ w s. kills_of w s task) packets.new.items) }
    {
        let live = self.live_of(task)?;
        self.push_each_kill(packets, &live)
    }
}

impl Machine {
    // Asks the containers of a task's live attempts to stop, in order of arrival, but for one attempt.
    fn push_kills_but(
        &self,
        packets: &mut Vec<Envelope>,
        task: TaskId,
        ended: &AttemptId,
    ) -> Result<(), AllocError>
        ensures { OnOk result (Adds self.now packets.old.items (λ w s. kills_but w s ended.now task) packets.new.items) }
    {
        let live = self.live_of(task)?;
        for i in 0..live.len() {
            let attempt = live[i];
            if !is_same(ended, &attempt) {
                self.push_kill(packets, attempt)?;
            }
        }
        Ok(())
    }

    // The same at all tasks of a kind, by task number.
    fn push_all_kills_but(
        &self,
        packets: &mut Vec<Envelope>,
        kind: TaskKind,
        ended: &AttemptId,
    ) -> Result<(), AllocError>
        ensures { OnOk result (Adds self.now packets.old.items (λ w s. flat_map (kills_but w s ended.now) (first_tasks w kind (count_of w kind))) packets.new.items) }
    {
        let count = count_of(&self.setting, kind);
        for number in 0..count {
            let task = TaskId {
                job: self.setting.job,
                kind,
                number,
            };
            self.push_kills_but(packets, task, ended)?;
        }
        Ok(())
    }

    /// Kills to all live attempts but one, by maps, then reduces.
    pub fn kills_but(&self, ended: &AttemptId) -> Result<Vec<Envelope>, AllocError>
        ensures { IfOk result (λ packets. Reads self.now (λ w s. flat_map (kills_but w s ended.now) (all_tasks w)) packets.items) }
    {
        let mut packets = Vec::new(self.alloc);
        self.push_all_kills_but(&mut packets, TaskKind::Map, ended)?;
        self.push_all_kills_but(&mut packets, TaskKind::Reduce, ended)?;
        Ok(packets)
    }
}

pub fn is_same(a: &AttemptId, b: &AttemptId) -> bool
    ensures { result ≡ same_attempt a.now b.now }
{
    a == b
}
