//! A machine that stands for what another one stands for.
ghost use Rattle.std.specs.Prelude.{◌≡◌, IfOk};
ghost use Rattle.mr_master_state.specs.State.{Unchanged};
ghost use Rattle.mr_master_tables.specs.Launches.{SameLaunches};
ghost use Rattle.mr_master_tables.specs.Records.{SameRecords};

use crate::machine::Machine;
use mr_master_model::Setting;
use mr_master_phase::Work;
use mr_master_tables::{Bars, Earlier, Launches, Nodes, Writing};
use mr_master_tasks::Tasks;
use std::alloc::AllocError;

// The part of a machine that tells what the master is at, with its tasks and containers.
#[derive(Drop)]
struct Running {
    setting: Setting,
    work: Work,
    tasks: Tasks,
    launches: Launches,
}

// The part of a machine that tells what is known of nodes and of earlier masters, and what is to be written down and
// barred.
#[derive(Drop)]
struct Noted {
    nodes: Nodes,
    earlier: Earlier,
    writing: Writing,
    bars: Bars,
}

impl Machine {
    /// A machine that keeps what this one keeps. Spare room is not copied.
    pub fn copy(&self) -> Result<Machine, AllocError>
        ensures { IfOk result (Unchanged self.now) }
    {
        let running = self.copy_running()?;
        let noted = self.copy_noted()?;
        Ok(Machine {
            alloc: self.alloc,
            setting: running.setting,
            work: running.work,
            tasks: running.tasks,
            launches: running.launches,
            nodes: noted.nodes,
            earlier: noted.earlier,
            writing: noted.writing,
            bars: noted.bars,
        })
    }

    // In two halves, since each refusal drops what was copied before it.
    fn copy_running(&self) -> Result<Running, AllocError>
        ensures setting { IfOk result (λ part. part.setting ≡ self.now.setting) }
        ensures work { IfOk result (λ part. part.work ≡ self.now.work) }
        ensures tasks { IfOk result (λ part. part.tasks ≡ self.now.tasks) }
        ensures launches { IfOk result (λ part. SameLaunches self.now.launches part.launches) }
    {
        Ok(Running {
            setting: copied(&self.setting)?,
            work: self.work.copy(self.alloc)?,
            tasks: self.tasks.copy(self.alloc)?,
            launches: self.launches.copy()?,
        })
    }

    fn copy_noted(&self) -> Result<Noted, AllocError>
        ensures nodes { IfOk result (λ part. part.nodes ≡ self.now.nodes) }
        ensures earlier { IfOk result (λ part. part.earlier ≡ self.now.earlier) }
        ensures writing { IfOk result (λ part. SameRecords self.now.writing part.writing) }
        ensures bars { IfOk result (λ part. part.bars.due ≡ self.now.bars.due) }
    {
        Ok(Noted {
            nodes: self.nodes.copy()?,
            earlier: self.earlier.copy(self.alloc)?,
            writing: self.writing.copy()?,
            bars: self.bars.copy()?,
        })
    }
}

fn copied(setting: &Setting) -> Result<Setting, AllocError>
    ensures { IfOk result (λ copy. copy ≡ setting.now) }
{
    Ok(Setting {
        app: setting.app,
        job: setting.job,
        maps: setting.maps,
        reduces: setting.reduces,
        nodes: setting.nodes,
        limit: setting.limit,
        layout: setting.layout.copy()?,
    })
}
