//! Which attempts an order begins, and which it gives up for that.
ghost use Rattle.std.specs.Prelude.{Option, ◌≡◌, ◌<◌, ◌++◌, ◌∷◌, [], not, ◌&&◌, count_by, length, map, IfOk, IfSome, OnOk, if◌then◌else◌};
ghost use Rattle.std.specs.List.{list_any, cons_option, AllByRecursion};
ghost use Rattle.mr_log_entries.specs.Recorded.{lines_of};
ghost use Rattle.mr_log_standing.specs.Standing.{task_of, has_winner, is_over, standing, is_under_way, next_attempt, is_cut_off};
ghost use Rattle.mr_log_standing.specs.Deciding.{decided, is_none, ends, cut_off, alive, is_idle, idle, then_begins, begins, settles, begins_first, at_task, begins_next_to, given_up, begins_over, reaches};
ghost use Rattle.mr_log_standing.specs.inner.Choosing.{IsMine, kept_if, chosen, choice, is_choice, apart, alike, first_of, begins_by};

use crate::attempts::Attempts;
use crate::deciding::{add_failed, add_interrupted};
use crate::decision::Decision;
use crate::host::Host;
use crate::notes::{self, Note};
use crate::order::{Order, Outcome};
use crate::questions::push_found;
use crate::standings::Standings;
use mr_ids::{AttemptId, TaskId};
use mr_log_entries::{Line, Lines};
use std::alloc::{AllocError, Global};

impl Standings {
    fn is_cut_off(&self, host: &Host, a: &AttemptId) -> bool
        requires { IsMine self.now.job a.now }
        ensures { result ≡ is_cut_off host.now self.now.entries a.now }
    {
        host.is_earlier(self.begun_in(a))
    }

    fn kept_if(&self, cut: bool, host: &Host, a: &AttemptId) -> Option<AttemptId>
        requires { IsMine self.now.job a.now }
        ensures { result ≡ kept_if cut host.now self.now.entries a.now }
    {
        if alike(cut, self.is_cut_off(host, a)) {
            Some(*a)
        } else {
            None
        }
    }

    #[tactic(auto, using(crate::proofs::Choosings::open_of_job))]
    fn chosen(&self, cut: bool, host: &Host, a: &AttemptId) -> Option<AttemptId>
        ensures { result ≡ chosen cut self.now.job host.now self.now.entries (Option.Some a.now) }
    {
        if self.is_under_way(a) {
            self.kept_if(cut, host, a)
        } else {
            None
        }
    }

    // The attempt that the line starts at the task, where it is under way, and was cut off or not.
    fn choice(&self, cut: bool, host: &Host, task: &TaskId, note: &Note) -> Option<AttemptId>
        ensures { result ≡ choice cut self.now.job host.now self.now.entries task.now note.now }
    {
        match notes::start_in(task, note) {
            None => None,
            Some(a) => self.chosen(cut, host, &a),
        }
    }

    fn is_choice(&self, host: &Host, task: &TaskId, note: &Note) -> bool
        ensures { result ≡ is_choice self.now.job host.now self.now.entries task.now note.now }
    {
        self.choice(false, host, task, note).is_some()
    }

    // Those who are under way at the task with this number, and were cut off or not.
    fn apart(&self, alloc: Global, cut: bool, host: &Host, n: u32) -> Result<Attempts, AllocError>
        requires { n < self.now.job.tasks }
        ensures is { IfOk result (λ all.
            all ≡ apart cut self.now.job host.now self.now.entries n) }
        ensures mine { IfOk result (λ all. AllByRecursion (IsMine self.now.job) all) }
    {
        let task = self.task(n);
        let mut all = Attempts::new(alloc);
        let kept = self.notes(n);
        for item in kept {
            push_found(&mut all, self.choice(cut, host, &task, item))?;
        }
        Ok(all)
    }

    fn count_alive(&self, host: &Host, n: u32) -> usize
        requires { n < self.now.job.tasks }
        ensures { result ≡ length (alive self.now.job host.now self.now.entries n) }
    {
        let task = self.task(n);
        self.count_choices(host, &task, self.notes(n))
    }

    fn count_choices(&self, host: &Host, task: &TaskId, notes: &[Note]) -> usize
        ensures { result
            ≡ count_by (is_choice self.now.job host.now self.now.entries task.now) notes.now }
    {
        notes
            .iter()
            .filter(|note| self.is_choice(host, task, note))
            .count()
    }

    fn is_idle(&self, host: &Host, n: u32) -> bool
        requires { n < self.now.job.tasks }
        ensures { result ≡ is_idle self.now.job host.now self.now.entries n }
    {
        !self.has_winner(n) && !self.is_any_alive(host, n)
    }

    fn is_any_alive(&self, host: &Host, n: u32) -> bool
        requires { n < self.now.job.tasks }
        ensures { result ≡ not (is_none (alive self.now.job host.now self.now.entries n)) }
    {
        let task = self.task(n);
        self.any_choice(host, &task, self.notes(n))
    }

    fn any_choice(&self, host: &Host, task: &TaskId, notes: &[Note]) -> bool
        ensures { result
            ≡ list_any (is_choice self.now.job host.now self.now.entries task.now) notes.now }
    {
        notes.iter().any(|note| self.is_choice(host, task, note))
    }

    // The first task that is idle.
    fn first_idle(&self, host: &Host) -> Option<u32>
        ensures first { result ≡ first_of (idle self.now.job host.now self.now.entries) }
        ensures below { IfSome result (λ n. n < self.now.job.tasks) }
    {
        for n in 0..self.job().tasks {
            if self.is_idle(host, n) {
                return Some(n);
            }
        }
        None
    }

    /// What `StartNext` decides on this host: an attempt is begun at the first task that has no
    /// winner and none under way. Memory may be refused.
    #[tactic(auto, unfolding(crate::specs::Deciding::decided))]
    pub fn start_next(&self, alloc: Global, host: &Host) -> Result<Decision, AllocError>
        ensures { IfOk result (λ d. d
            ≡ decided Order.StartNext self.now.job host.now self.now.entries) }
    {
        if self.is_over() {
            return Ok(Decision::Ends(Outcome::JobOver));
        }
        self.begins_first(alloc, host)
    }

    fn begins_first(&self, alloc: Global, host: &Host) -> Result<Decision, AllocError>
        ensures { IfOk result (λ d. d
            ≡ begins_first self.now.job host.now self.now.entries
            (idle self.now.job host.now self.now.entries)) }
    {
        self.begins_by(alloc, host, self.first_idle(host))
    }

    fn begins_by(
        &self,
        alloc: Global,
        host: &Host,
        first: Option<u32>,
    ) -> Result<Decision, AllocError>
        requires { IfSome first (λ n. n < self.now.job.tasks) }
        ensures { IfOk result (λ d. d
            ≡ begins_by self.now.job host.now self.now.entries first) }
    {
        match first {
            None => Ok(self.settles()),
            Some(n) => self.begins(alloc, host, n),
        }
    }

    // ---- one task

    fn begins(&self, alloc: Global, host: &Host, n: u32) -> Result<Decision, AllocError>
        requires { n < self.now.job.tasks }
        ensures { IfOk result (λ d. d ≡ begins self.now.job host.now self.now.entries n) }
    {
        let mut lines = Vec::new(alloc);
        let cut = self.apart(alloc, true, host, n)?;
        add_interrupted(&mut lines, cut.as_slice())?;
        then_begins(lines, self.next_attempt(n))
    }

    fn begins_next_to(&self, alloc: Global, host: &Host, n: u32) -> Result<Decision, AllocError>
        requires { n < self.now.job.tasks }
        ensures { IfOk result (λ d. d ≡ begins_next_to self.now.job host.now self.now.entries n) }
    {
        if self.count_alive(host, n) < 2 {
            self.begins(alloc, host, n)
        } else {
            Ok(Decision::Ends(Outcome::Busy))
        }
    }

    fn begins_over(&self, alloc: Global, host: &Host, n: u32) -> Result<Decision, AllocError>
        requires { n < self.now.job.tasks }
        ensures { IfOk result (λ d. d ≡ begins_over self.now.job host.now self.now.entries n) }
    {
        let mut lines = Vec::new(alloc);
        let cut = self.apart(alloc, true, host, n)?;
        add_interrupted(&mut lines, cut.as_slice())?;
        let alive = self.apart(alloc, false, host, n)?;
        add_failed(&mut lines, alive.as_slice())?;
        if self.reaches(&lines, alive.as_slice()) {
            lines.push(Line::Unsuccessful)?;
            return Ok(Decision::Puts(Lines::from_vec(lines)));
        }
        then_begins(lines, self.next_attempt(n))
    }

    /// What `StartAt` decides on this host: an attempt is begun at the task with this number, next
    /// to one that is under way at most. Memory may be refused.
    #[tactic(auto, unfolding(crate::specs::Deciding::decided))]
    pub fn start_at(&self, alloc: Global, host: &Host, n: u32) -> Result<Decision, AllocError>
        ensures { IfOk result (λ d. d
            ≡ decided (Order.StartAt n) self.now.job host.now self.now.entries) }
    {
        if !(n < self.job().tasks) {
            return Ok(Decision::Ends(Outcome::NoTask));
        }
        if self.is_over() {
            return Ok(Decision::Ends(Outcome::JobOver));
        }
        if self.has_winner(n) {
            return Ok(self.ends(Outcome::AllWon));
        }
        self.begins_next_to(alloc, host, n)
    }

    /// What `StartOver` decides on this host: what is under way at the task with this number is
    /// given up, and an attempt is begun there. Memory may be refused.
    #[tactic(auto, unfolding(crate::specs::Deciding::decided))]
    pub fn start_over(&self, alloc: Global, host: &Host, n: u32) -> Result<Decision, AllocError>
        ensures { IfOk result (λ d. d
            ≡ decided (Order.StartOver n) self.now.job host.now self.now.entries) }
    {
        if !(n < self.job().tasks) {
            return Ok(Decision::Ends(Outcome::NoTask));
        }
        if self.is_over() {
            return Ok(Decision::Ends(Outcome::JobOver));
        }
        if self.has_winner(n) {
            return Ok(self.ends(Outcome::AllWon));
        }
        self.begins_over(alloc, host, n)
    }

    fn settles(&self) -> Decision
        ensures { result ≡ settles self.now.job (lines_of self.now.entries) }
    {
        if self.has_won_all() {
            self.ends(Outcome::AllWon)
        } else {
            Decision::Ends(Outcome::Busy)
        }
    }
}

// These lines, then the attempt is begun, if there is one.
fn then_begins(lines: Vec<Line>, next: Option<AttemptId>) -> Result<Decision, AllocError>
    ensures { IfOk result (λ d. d ≡ then_begins lines.items next) }
{
    let mut lines = lines;
    match next {
        None => Ok(Decision::Ends(Outcome::Full)),
        Some(a) => {
            lines.push(Line::Started(a))?;
            Ok(Decision::Begins(Lines::from_vec(lines)))
        }
    }
}

fn alike(cut: bool, is_cut: bool) -> bool
    ensures { result ≡ alike cut is_cut }
{
    if cut { is_cut } else { !is_cut }
}
