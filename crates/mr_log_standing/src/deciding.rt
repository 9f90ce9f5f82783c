//! What an order decides by the entries that were taken.
ghost use Rattle.std.specs.Prelude.{Option, ◌≡◌, ◌++◌, ◌∷◌, [], not, ◌&&◌, nat_lt, map, IfOk, OnOk};
ghost use Rattle.std.specs.List.{AllByRecursion};
ghost use Rattle.mr_log_entries.specs.Recorded.{lines_of};
ghost use Rattle.mr_log_standing.specs.Standing.{failures, is_failure_at, has_won_all, is_publishable, may_end, is_over, is_released, is_published, standing, is_under_way};
ghost use Rattle.mr_log_standing.specs.Deciding.{decided, concluded, conclusion, ends, reaches, with_end, failing, hands_in, of_attempt, aborts, releases_job, forgets};
ghost use Rattle.mr_log_standing.specs.Host.{Host};
ghost use Rattle.mr_log_standing.specs.inner.Choosing.{IsMine};

use crate::attempts::Attempts;
use crate::decision::{Conclusion, Decision};
use crate::host::Host;
use crate::notes;
use crate::order::{Order, Outcome};
use crate::standings::Standings;
use mr_ids::{AttemptId, TaskId};
use mr_log_entries::{Line, Lines};
use std::alloc::{AllocError, Global};

impl Standings {
    /// The end of an order that has nothing to put: what there is to publish is published first.
    pub fn ends(&self, outcome: Outcome) -> Decision
        ensures { result ≡ ends self.now.job (lines_of self.now.entries) outcome }
    {
        if self.is_publishable() && !self.is_published() {
            Decision::Publishes(outcome)
        } else {
            Decision::Ends(outcome)
        }
    }

    /// What `Forget` decides: the log of a published job is forgotten, with all else that the
    /// commands keep.
    #[tactic(auto, unfolding(crate::specs::Deciding::decided))]
    pub fn forget(&self) -> Decision
        ensures { (host : Host) →
            result ≡ decided Order.Forget self.now.job host self.now.entries }
    {
        if self.is_published() {
            Decision::Forgets
        } else {
            self.ends(Outcome::Unpublished)
        }
    }

    /// What `Abort` decides: the job is ended as failed, unless it is published or will be. Memory
    /// may be refused.
    #[tactic(auto, unfolding(crate::specs::Deciding::decided))]
    pub fn abort(&self, alloc: Global) -> Result<Decision, AllocError>
        ensures { IfOk result (λ d. (host : Host) →
            d ≡ decided Order.Abort self.now.job host self.now.entries) }
    {
        if self.is_over() {
            return Ok(Decision::Ends(Outcome::Finished));
        }
        if self.may_end() {
            return Ok(Decision::Puts(one_line(alloc, Line::Unsuccessful)?));
        }
        Ok(self.ends(Outcome::AllWon))
    }

    /// What `Publish` decides: a held job is published, if all of its tasks are won. Memory may be
    /// refused.
    #[tactic(auto, unfolding(crate::specs::Deciding::decided))]
    pub fn publish(&self, alloc: Global) -> Result<Decision, AllocError>
        ensures { IfOk result (λ d. (host : Host) →
            d ≡ decided Order.Publish self.now.job host self.now.entries) }
    {
        if self.is_over() {
            return Ok(Decision::Ends(Outcome::JobOver));
        }
        if !self.has_won_all() {
            return Ok(Decision::Ends(Outcome::NotAllWon));
        }
        if self.job().hold && !self.is_released() {
            return Ok(Decision::Puts(one_line(alloc, Line::Publish)?));
        }
        Ok(self.ends(Outcome::Finished))
    }

    // ---- orders about an attempt

    fn stands(&self, a: &AttemptId) -> Decision
        ensures { let ls = lines_of self.now.entries in
            result ≡ ends self.now.job ls (Outcome.Stands (standing self.now.job ls a.now)) }
    {
        self.ends(Outcome::Stands(self.standing(a)))
    }

    /// What `Done` decides on this host: an attempt that is under way is handed in, where it was
    /// begun in this boot.
    #[tactic(auto, using(crate::proofs::Choosings::open_of_job), unfolding(crate::specs::Deciding::decided))]
    pub fn done(&self, host: &Host, a: &AttemptId) -> Decision
        ensures { result ≡ decided (Order.Done a.now) self.now.job host.now self.now.entries }
    {
        if self.is_under_way(a) {
            self.hands_in(host, a)
        } else {
            self.stands(a)
        }
    }

    fn hands_in(&self, host: &Host, a: &AttemptId) -> Decision
        requires { IsMine self.now.job a.now }
        ensures { result ≡ hands_in self.now.job host.now self.now.entries a.now }
    {
        if host.is_this(self.begun_in(a)) {
            Decision::HandsIn(*a)
        } else {
            Decision::Ends(Outcome::OtherBoot)
        }
    }

    /// What `Fail` decides: an attempt that is under way fails, and the job where that is one
    /// failure too many. Memory may be refused.
    #[tactic(auto, using(crate::proofs::Choosings::open_of_job))]
    pub fn fail(&self, alloc: Global, a: &AttemptId) -> Result<Decision, AllocError>
        ensures { let ls = lines_of self.now.entries in
            IfOk result (λ d. d ≡ of_attempt self.now.job ls a.now
            (Decision.Puts (failing self.now.job ls (a.now ∷ [])))) }
    {
        if self.is_under_way(a) {
            self.fails_alone(alloc, a)
        } else {
            Ok(self.stands(a))
        }
    }

    #[tactic(auto, using(crate::proofs::Choosings::alone))]
    fn fails_alone(&self, alloc: Global, a: &AttemptId) -> Result<Decision, AllocError>
        requires { IsMine self.now.job a.now }
        ensures { IfOk result (λ d. d
            ≡ Decision.Puts (failing self.now.job (lines_of self.now.entries) (a.now ∷ []))) }
    {
        let mut failed = Attempts::new(alloc);
        failed.push(*a)?;
        self.puts_failed(alloc, &failed)
    }

    /// What is put once an attempt was handed in, which came to this. Memory may be refused.
    #[tactic(auto, unfolding(crate::specs::Deciding::concluded))]
    pub fn conclude(
        &self,
        alloc: Global,
        a: &AttemptId,
        conclusion: Conclusion,
    ) -> Result<Decision, AllocError>
        ensures { IfOk result (λ d.
            d ≡ concluded conclusion a.now self.now.job self.now.entries) }
    {
        match conclusion {
            Conclusion::Succeeded(handed) => {
                let won = Line::Won {
                    attempt: *a,
                    handed,
                };
                self.puts_of(alloc, a, won)
            }
            Conclusion::Failed => self.fail(alloc, a),
            Conclusion::Interrupted => self.puts_of(alloc, a, Line::Interrupted(*a)),
        }
    }

    fn puts_of(&self, alloc: Global, a: &AttemptId, line: Line) -> Result<Decision, AllocError>
        ensures { let ls = lines_of self.now.entries in
            IfOk result (λ d. d
            ≡ of_attempt self.now.job ls a.now (Decision.Puts (line ∷ []))) }
    {
        if self.is_under_way(a) {
            Ok(Decision::Puts(one_line(alloc, line)?))
        } else {
            Ok(self.stands(a))
        }
    }

    // ---- failures

    fn puts_failed(&self, alloc: Global, failed: &Attempts) -> Result<Decision, AllocError>
        requires { AllByRecursion (IsMine self.now.job) failed.now }
        ensures { IfOk result (λ d. d
            ≡ Decision.Puts (failing self.now.job (lines_of self.now.entries) failed.now)) }
    {
        let mut lines = Vec::new(alloc);
        add_failed(&mut lines, failed.as_slice())?;
        self.puts_with_end(lines, failed)
    }

    fn puts_with_end(&self, lines: Vec<Line>, failed: &Attempts) -> Result<Decision, AllocError>
        requires { AllByRecursion (IsMine self.now.job) failed.now }
        ensures { let ls = lines_of self.now.entries in
            IfOk result (λ d. d
            ≡ Decision.Puts (with_end self.now.job ls failed.now lines.items)) }
    {
        let mut lines = lines;
        if self.reaches(&lines, failed.as_slice()) {
            lines.push(Line::Unsuccessful)?;
            return Ok(Decision::Puts(Lines::from_vec(lines)));
        }
        Ok(Decision::Puts(Lines::from_vec(lines)))
    }

    // Whether with these lines one of these attempts' tasks has failed as often as the limit.
    pub(crate) fn reaches(&self, lines: &[Line], failed: &[AttemptId]) -> bool
        requires { AllByRecursion (IsMine self.now.job) failed.now }
        ensures { result ≡ reaches self.now.job.limit
            (lines_of self.now.entries ++ lines.now) failed.now }
    {
        match self.job().limit {
            None => false,
            Some(limit) => self.reaches_limit(limit, lines, failed),
        }
    }

    fn reaches_limit(&self, limit: u32, lines: &[Line], failed: &[AttemptId]) -> bool
        requires { AllByRecursion (IsMine self.now.job) failed.now }
        ensures { result ≡ reaches (Option.Some limit)
            (lines_of self.now.entries ++ lines.now) failed.now }
    {
        for a in failed {
            if self.has_failed_out(limit, lines, a) {
                return true;
            }
        }
        false
    }

    #[tactic(auto, using(crate::proofs::Asked::below))]
    fn has_failed_out(&self, limit: u32, lines: &[Line], a: &AttemptId) -> bool
        requires { IsMine self.now.job a.now }
        ensures { result ≡ not (nat_lt
            (failures (lines_of self.now.entries ++ lines.now) a.now.task) limit) }
    {
        let task = a.task();
        let before = self.failures(task.number);
        (limit as usize).saturating_sub(before) <= failures_in(lines, &task)
    }
}

fn one_line(alloc: Global, line: Line) -> Result<Lines, AllocError>
    ensures { IfOk result (λ lines. lines ≡ line ∷ []) }
{
    let mut lines = Vec::new(alloc);
    lines.push(line)?;
    Ok(Lines::from_vec(lines))
}

fn failures_in(lines: &[Line], task: &TaskId) -> usize
    ensures { result ≡ failures lines.now task.now }
{
    lines
        .iter()
        .filter(|line| is_failure_at(task, line))
        .count()
}

fn is_failure_at(task: &TaskId, line: &Line) -> bool
    ensures { result ≡ is_failure_at task.now line.now }
{
    match *line {
        Line::Failed(a) => notes::is_same_task(&a.task(), task),
        _ => false,
    }
}

pub(crate) fn add_failed(lines: &mut Vec<Line>, failed: &[AttemptId]) -> Result<(), AllocError>
    ensures { OnOk result (lines.new.items ≡ lines.old.items ++ map Line.Failed failed.now) }
{
    for a in failed {
        lines.push(Line::Failed(*a))?;
    }
    Ok(())
}

pub(crate) fn add_interrupted(lines: &mut Vec<Line>, cut: &[AttemptId]) -> Result<(), AllocError>
    ensures { OnOk result (lines.new.items ≡ lines.old.items ++ map Line.Interrupted cut.now) }
{
    for a in cut {
        lines.push(Line::Interrupted(*a))?;
    }
    Ok(())
}
