//! What the master is at in its phase, with what is left of a committer's table, and the call that is due by it alone.
ghost use Rattle.std.specs.Prelude.{◌≡◌, true, false, IfOk, OnErr};
ghost use Rattle.std.specs.Option.{is_some};
ghost use Rattle.mr_master_model.specs.declared.setting.Setting as setting;
ghost use Rattle.mr_master_model.specs.Past.{Work, LooksForSuccess, SetsUp, Runs, CommitsJob, Fails, Ends, Stops, phase_of};
ghost use Rattle.mr_master_model.specs.Readings.{Seen, is_running, is_over};
ghost use Rattle.mr_master_model.specs.Duty.{duty_at, does, commit_name};
ghost use Rattle.mr_master_phase.specs.WorkKinds.{is_own, fails_as, is_read, is_look, ends_as, is_tell, is_step};
ghost use Rattle.mr_master_phase.specs.Taking.{winner_of};
ghost use Rattle.mr_commit.specs.Steps.{next_call};
ghost use Rattle.mr_commit.specs.Recovery.{recover_task};
ghost use Rattle.mr_master_model.specs.Answered.{name_of, takes_over};
ghost use Rattle.mr_commit.specs.Tables.{setup_job, commit_job};

mod mark;
mod same;
mod table;

use crate::duty::{abort_duty, name_of_line, of_line, of_look, of_mark};
use crate::marks::{fail_mark, started_mark, success_mark};
use mr_commit::{RecoverTask, Step};
use mr_master_model::{DutyName, Phase, Setting, StoreCall};
use mr_master_tables::Duty;
use mr_names::Op;
use mr_recover::TaskWinner;
use std::alloc::{AllocError, Global};
use std::collections::VecDeque;
use std::marker::Model;

/// What the master is at.
pub struct Work {
    at: At,
}

// By hand: one is dropped by this call.
impl Drop for Work {
    fn drop(self) {
        let Work { at: _ } = self;
    }
}

#[derive(Drop)]
enum At {
    LooksForSuccess,
    LooksForFail,
    LooksForStarted,
    Reads,
    SetsUp(Step),
    /// A reduce is taken over, and then the others.
    TakesOver {
        winner: TaskWinner,
        step: RecoverTask,
        others: VecDeque<TaskWinner>,
    },
    Runs,
    CommitsJob(Step),
    TellsSuccess,
    TellsFail,
    AbortsCommit,
    Fails(bool),
    Ends(bool),
    Stops,
}

impl Model for Work {
    ghost use Rattle.std.specs.Prelude.{◌≡◌, true};
    ghost use Rattle.mr_master_model.specs.Past.{Work};
    ghost use Rattle.mr_master_phase.specs.Work.{work_of, has_table};

    ghost Value = { Work };

    ghost view = { λ w. work_of w.at };

    ghost invariant = { λ w. has_table w.at ≡ true };
}

impl Work {
    /// What a new master is at: it looks for COMMIT_SUCCESS.
    pub fn new() -> Work
        ensures { result ≡ LooksForSuccess }
    {
        Work {
            at: At::LooksForSuccess,
        }
    }

    /// From now on the job failed, and nothing tells so yet.
    pub fn fail(&mut self)
        ensures { self.new ≡ Fails false }
    {
        *self = Work::failing();
    }

    /// From now on it is at this.
    pub fn set(&mut self, next: Work)
        ensures { self.new ≡ next }
    {
        *self = next;
    }

    /// The job failed, and nothing tells so yet.
    pub fn failing() -> Work
        ensures { result ≡ Fails false }
    {
        Work {
            at: At::Fails(false),
        }
    }

    /// The master runs.
    pub fn running() -> Work
        ensures { result ≡ Runs }
    {
        Work { at: At::Runs }
    }

    /// The master stopped: it makes no further call.
    pub fn stopped() -> Work
        ensures { result ≡ Stops }
    {
        Work { at: At::Stops }
    }

    /// A reduce is taken over, and then the others.
    pub(crate) fn takes_over(
        setting: &Setting,
        winner: TaskWinner,
        others: VecDeque<TaskWinner>,
    ) -> Result<Work, AllocError>
        ensures { IfOk result (λ work. work ≡ takes_over winner (recover_task setting.now.layout.dest setting.now.app winner.task winner.bytes) others.items) }
    {
        let step = RecoverTask::new(&setting.layout, setting.app, winner.task, winner.bytes)?;
        if step.call().is_none() {
            return Ok(Work::stopped());
        }
        Ok(Work {
            at: At::TakesOver {
                winner,
                step,
                others,
            },
        })
    }

    /// The phase.
    pub fn phase(&self) -> Phase
        ensures { result ≡ phase_of self.now }
    {
        match &self.at {
            At::LooksForSuccess | At::LooksForFail | At::LooksForStarted | At::Reads =>
                Phase::Opening,
            At::SetsUp(_) | At::TakesOver { .. } => Phase::Recovering,
            At::Runs => Phase::Running,
            At::CommitsJob(_) | At::TellsSuccess | At::TellsFail | At::AbortsCommit =>
                Phase::Committing,
            At::Fails(_) => Phase::Failing,
            At::Ends(_) => Phase::Ended,
            At::Stops => Phase::Stopped,
        }
    }

    /// Whether the master runs.
    pub fn is_running(&self) -> bool
        ensures { result ≡ is_running self.now }
    {
        match self.at {
            At::Runs => true,
            _ => false,
        }
    }

    /// While it is Failing: whether a JobUnsuccessful is stable.
    pub fn fails(&self) -> Option<bool>
        ensures { result ≡ fails_as self.now }
    {
        match self.at {
            At::Fails(is_stable) => Some(is_stable),
            _ => None,
        }
    }

    /// Whether it looks for a mark.
    pub fn is_look(&self) -> bool
        ensures { result ≡ is_look self.now }
    {
        match self.at {
            At::LooksForSuccess | At::LooksForFail | At::LooksForStarted => true,
            _ => false,
        }
    }

    /// Whether it reads the earlier segments.
    pub fn is_read(&self) -> bool
        ensures { result ≡ is_read self.now }
    {
        match self.at {
            At::Reads => true,
            _ => false,
        }
    }

    /// Whether it makes the calls of a committer's table.
    pub fn is_step(&self) -> bool
        ensures { result ≡ is_step self.now }
    {
        match &self.at {
            At::SetsUp(_) | At::TakesOver { .. } | At::CommitsJob(_) => true,
            _ => false,
        }
    }

    /// Whether it creates a mark, or aborts after COMMIT_FAIL.
    pub fn is_tell(&self) -> bool
        ensures { result ≡ is_tell self.now }
    {
        match self.at {
            At::TellsSuccess | At::TellsFail | At::AbortsCommit => true,
            _ => false,
        }
    }

    /// Whether the job ended or the master stopped.
    pub fn is_over(&self) -> bool
        ensures { result ≡ is_over self.now }
    {
        match self.at {
            At::Ends(_) | At::Stops => true,
            _ => false,
        }
    }

    /// The reduce that is taken over.
    pub fn winner(&self) -> Option<TaskWinner>
        ensures { result ≡ winner_of self.now }
    {
        match &self.at {
            At::TakesOver { winner, .. } => Some(*winner),
            _ => None,
        }
    }

    /// Where the job ended: whether it succeeded.
    pub fn outcome(&self) -> Option<bool>
        ensures { result ≡ ends_as self.now }
    {
        match self.at {
            At::Ends(succeeded) => Some(succeeded),
            _ => None,
        }
    }

    /// The job ended.
    pub fn ends(succeeded: bool) -> Work
        ensures { result ≡ Ends succeeded }
    {
        Work {
            at: At::Ends(succeeded),
        }
    }

    /// The job failed, and whether that is stable.
    pub fn fails_so(is_stable: bool) -> Work
        ensures { result ≡ Fails is_stable }
    {
        Work {
            at: At::Fails(is_stable),
        }
    }

    /// It sets the job up.
    pub(crate) fn sets_up(setting: &Setting) -> Result<Work, AllocError>
        ensures { IfOk result (λ work. work ≡ SetsUp (setup_job setting.now.layout.dest setting.now.app)) }
    {
        let step = Step::setup_job(&setting.layout, setting.app)?;
        Ok(Work {
            at: At::SetsUp(step),
        })
    }

    /// It commits the job.
    pub fn commits(setting: &Setting) -> Result<Work, AllocError>
        ensures { IfOk result (λ work. work ≡ CommitsJob (commit_job setting.now.layout.dest setting.now.app)) }
    {
        let step = Step::commit_job(&setting.layout, setting.app)?;
        Ok(Work {
            at: At::CommitsJob(step),
        })
    }
}

impl Work {
    /// The next call, for all that is told by the work alone.
    #[tactic(auto, unfolding(mr_master_model::specs::Duty::duty_at))]
    pub fn duty(&self, setting: &Setting) -> Result<Option<Duty>, AllocError>
        ensures due { IfOk result (λ due. (s : Seen) → is_own self.now ≡ true → due ≡ duty_at setting.now s self.now) }
        ensures due_on_memory { OnErr result ((s : Seen) → is_own self.now ≡ true → is_some (duty_at setting.now s self.now) ≡ true) }
    {
        let alloc = setting.layout.dest.allocator();
        match &self.at {
            At::LooksForSuccess => Ok(of_look(success_mark(alloc)?)),
            At::LooksForFail => Ok(of_look(fail_mark(alloc)?)),
            At::LooksForStarted => Ok(of_look(started_mark(alloc)?)),
            At::Reads => Ok(Some(Duty::new(DutyName::Read, StoreCall::Read))),
            At::SetsUp(step) => of_line(DutyName::Setup, step.call()),
            At::TakesOver { step, .. } => of_line(DutyName::Recover, step.call()),
            At::CommitsJob(step) => commit_duty(step),
            At::TellsSuccess => Ok(of_mark(DutyName::Success, success_mark(alloc)?)),
            At::TellsFail => Ok(of_mark(DutyName::Fail, fail_mark(alloc)?)),
            At::AbortsCommit => abort_duty(setting),
            At::Runs | At::Fails(_) | At::Ends(_) | At::Stops => Ok(None),
        }
    }

    /// What that call is for. The call is not made up.
    #[tactic(auto, unfolding(mr_master_model::specs::Duty::duty_at))]
    pub fn duty_name(&self) -> Option<DutyName>
        ensures { (w : setting.Setting) (s : Seen) → is_own self.now ≡ true → result ≡ name_of (duty_at w s self.now) }
    {
        match &self.at {
            At::LooksForSuccess | At::LooksForFail | At::LooksForStarted => Some(DutyName::Marks),
            At::Reads => Some(DutyName::Read),
            At::SetsUp(step) => name_of_line(DutyName::Setup, step.call()),
            At::TakesOver { step, .. } => name_of_line(DutyName::Recover, step.call()),
            At::CommitsJob(step) => name_of_line(commit_name(step), step.call()),
            At::TellsSuccess => Some(DutyName::Success),
            At::TellsFail => Some(DutyName::Fail),
            At::AbortsCommit => Some(DutyName::Abort),
            At::Runs | At::Fails(_) | At::Ends(_) | At::Stops => None,
        }
    }
}

impl Work {
    /// An equal work.
    pub fn copy(&self, alloc: Global) -> Result<Work, AllocError>
        ensures { IfOk result (λ work. work ≡ self.now) }
    {
        let at = match &self.at {
            At::LooksForSuccess => At::LooksForSuccess,
            At::LooksForFail => At::LooksForFail,
            At::LooksForStarted => At::LooksForStarted,
            At::Reads => At::Reads,
            At::SetsUp(step) => At::SetsUp(step.copy()?),
            At::TakesOver {
                winner,
                step,
                others,
            } => At::TakesOver {
                winner: *winner,
                step: step.copy()?,
                others: copied(alloc, others)?,
            },
            At::Runs => At::Runs,
            At::CommitsJob(step) => At::CommitsJob(step.copy()?),
            At::TellsSuccess => At::TellsSuccess,
            At::TellsFail => At::TellsFail,
            At::AbortsCommit => At::AbortsCommit,
            At::Fails(is_stable) => At::Fails(*is_stable),
            At::Ends(succeeded) => At::Ends(*succeeded),
            At::Stops => At::Stops,
        };
        Ok(Work { at })
    }
}

fn copied(alloc: Global, winners: &VecDeque<TaskWinner>) -> Result<VecDeque<TaskWinner>, AllocError>
    ensures { IfOk result (λ copy. copy.items ≡ winners.now.items) }
{
    let mut copy = VecDeque::new(alloc);
    for i in 0..winners.len() {
        copy.push_back(winners[i])?;
    }
    Ok(copy)
}

// The call of the line of the job commit that is next.
fn commit_duty(step: &Step) -> Result<Option<Duty>, AllocError>
    ensures due { IfOk result (λ due. due ≡ does (commit_name step.now) step.now) }
    ensures due_on_memory { OnErr result (is_some (next_call step.now) ≡ true) }
{
    of_line(commit_name(step), step.call())
}

fn commit_name(step: &Step) -> DutyName
    ensures { result ≡ commit_name step.now }
{
    if step.cleans_up() {
        return DutyName::Cleanup;
    }
    match step.call() {
        Some(Op::Create { .. }) => DutyName::Marker,
        _ => DutyName::Merge,
    }
}
