//! One run of commands: which of them are stopped, and where, is chosen. At each moment what a reader sees is judged.
use crate::choices::Choices;
use crate::disk::FakeDisk;
use mr_history::Record;
use mr_ids::{AttemptId, JobId, TaskId, TaskKind};
use mr_out_disk::Place;
use mr_out_machine::{Command, winner};
use mr_out_steps::{Order, Outcome, Standing};
use std::alloc::Global;
use std::process::Abort;

pub const JOB: JobId = JobId {
    start: 200707121733,
    number: 3,
};

const TASKS: u32 = 2;

pub fn task(number: u32) -> TaskId {
    TaskId {
        job: JOB,
        kind: TaskKind::Reduce,
        number,
    }
}

/// The attempt with this number at a task.
pub fn attempt(rt: &impl Abort, number: u32, of: u32) -> AttemptId {
    AttemptId::new(task(of), number).expect(rt, "no attempt")
}

// The file that an attempt writes.
fn file_of(a: &AttemptId) -> u64 {
    let task = a.task().number;
    let number = a.number();
    if task == 0 {
        10 + u64::from(number % 8)
    } else {
        20
    }
}

/// How a command came to its end.
#[derive(Clone, Copy)]
enum End {
    Told(Outcome),
    Killed,
    Cut,
}

#[derive(Drop)]
pub struct Run {
    alloc: Global,
    disk: FakeDisk,
    /// What commands told of an attempt.
    told: Vec<(AttemptId, Standing)>,
    /// How many stops may still come.
    stops: u32,
    /// How many failures of one task end the job.
    limit: Option<u32>,
    /// Whether it is published only once that is decided.
    hold: bool,
    /// Whether a command was told to publish.
    is_released: bool,
}

impl Run {
    /// A job of two tasks. Two attempts at the first and one at the second have written their files.
    pub fn new(rt: &impl Abort, alloc: Global) -> Run {
        let mut disk = FakeDisk::new(rt, alloc);
        for &(number, of) in &[(0, 0), (1, 0), (0, 1)] {
            let a = attempt(rt, number, of);
            let started = Record::AttemptStarted {
                attempt: a,
                node: 0,
            };
            disk.record(rt, &started);
            disk.set(rt, &Place::Work(a), Some(file_of(&a)));
        }
        Run {
            alloc,
            disk,
            told: Vec::new(alloc),
            stops: 0,
            limit: None,
            hold: false,
            is_released: false,
        }
    }

    /// From now on the job is held.
    pub fn hold(&mut self) {
        self.hold = true;
    }

    /// A job of two tasks that was just begun, which so many failures of one task end.
    pub fn fresh(rt: &impl Abort, alloc: Global, limit: Option<u32>) -> Run {
        Run {
            alloc,
            disk: FakeDisk::new(rt, alloc),
            told: Vec::new(alloc),
            stops: 0,
            limit,
            hold: false,
            is_released: false,
        }
    }

    /// What a command answers that nobody stops.
    pub fn answer(&mut self, rt: &impl Abort, order: &Order) -> Outcome {
        let mut choices = Choices::new(self.alloc);
        let End::Told(outcome) = self.drive(rt, order, &mut choices) else {
            panic!(rt; "a command was stopped");
        };
        self.heard(rt, order, outcome)
    }

    // What a command told, once it is noted.
    fn heard(&mut self, rt: &impl Abort, order: &Order, outcome: Outcome) -> Outcome {
        let told = outcome;
        self.hear(rt, order, outcome);
        told
    }

    /// So many stops may come from now on.
    pub fn allow(&mut self, stops: u32) {
        self.stops = stops;
    }

    /// A command, which is said again where it was stopped and that is chosen.
    pub fn say(&mut self, rt: &impl Abort, order: &Order, choices: &mut Choices) {
        for _ in 0..4 {
            if self.is_forgotten() {
                return;
            }
            match self.drive(rt, order, choices) {
                End::Told(outcome) => {
                    self.hear(rt, order, outcome);
                    return self.between(rt, choices);
                }
                End::Killed => {
                    if choices.choose(rt, 2) == 0 {
                        return;
                    }
                }
                End::Cut => {}
            }
        }
    }

    // The calls of a command, until it has ended or is stopped.
    fn drive(&mut self, rt: &impl Abort, order: &Order, choices: &mut Choices) -> End {
        self.is_released = self.is_released || *order == Order::Publish;
        let mut command = Command::new(self.alloc, *order, JOB, TASKS, self.limit, self.hold);
        for _ in 0..100 {
            let Some(call) = command.call() else {
                return End::Told(command.outcome().expect(rt, "no outcome"));
            };
            let answer = self.disk.perform(rt, call);
            command.took(answer);
            match self.stop(rt, choices) {
                Some(end) => return end,
                None => {}
            }
        }
        panic!(rt; "a command without an end")
    }

    // Whether the command is stopped here, and how.
    fn stop(&mut self, rt: &impl Abort, choices: &mut Choices) -> Option<End> {
        if self.stops == 0 {
            return None;
        }
        match choices.choose(rt, 3) {
            0 => None,
            1 => {
                self.stops = self.stops.saturating_sub(1);
                self.judge(rt);
                Some(End::Killed)
            }
            _ => {
                self.stops = self.stops.saturating_sub(1);
                self.disk.cut(rt, choices);
                self.judge(rt);
                Some(End::Cut)
            }
        }
    }

    // A power cut between two commands, where it is chosen.
    fn between(&mut self, rt: &impl Abort, choices: &mut Choices) {
        if self.stops > 0 && choices.choose(rt, 2) == 1 {
            self.stops = self.stops.saturating_sub(1);
            self.disk.cut(rt, choices);
            self.judge(rt);
        }
    }

    // What a command told is noted; an attempt that was begun writes its file.
    fn hear(&mut self, rt: &impl Abort, order: &Order, outcome: Outcome) {
        if let Outcome::Started(a) = outcome {
            self.disk.set(rt, &Place::Work(a), Some(file_of(&a)));
        }
        if let Order::Done(a) = *order {
            if let Outcome::Stands(standing) = outcome {
                self.told.push((a, standing)).expect(rt, "no memory");
            }
        }
        if let Order::Fail(a) = *order {
            if let Outcome::Stands(standing) = outcome {
                self.told.push((a, standing)).expect(rt, "no memory");
            }
        }
        self.judge(rt);
    }

    /// Whether the history is forgotten: no command begins.
    pub fn is_forgotten(&self) -> bool {
        self.disk.seen(&Place::Home).is_none()
    }

    /// Whether the success marker is there.
    pub fn is_marked(&self) -> bool {
        self.disk.seen(&Place::Marker).is_some()
    }

    /// The end: nothing is left to do, and what was told is still so.
    pub fn end(&mut self, rt: &impl Abort, choices: &mut Choices) {
        self.stops = 0;
        self.say(rt, &Order::Resume, choices);
        let won = winner(self.disk.synced(), &task(0)).is_some()
            && winner(self.disk.synced(), &task(1)).is_some();
        let due = won && (!self.hold || self.disk.seen(&Place::Decision).is_some());
        confirm!(rt; self.disk.seen(&Place::Marker).is_some() == due);
    }

    // What a reader may see, and what was told.
    fn judge(&self, rt: &impl Abort) {
        let first = self.part(rt, 0);
        let second = self.part(rt, 1);
        confirm!(rt; !self.is_marked() || (first && second));
        confirm!(rt; !self.is_forgotten() || self.is_marked());
        self.judge_held(rt, first || second);
        for told in &self.told {
            let (a, standing) = *told;
            self.judge_told(rt, &a, standing);
        }
    }

    // Under hold, whatever is visible comes behind the decision, which comes behind a command that was told to publish.
    fn judge_held(&self, rt: &impl Abort, is_any_visible: bool) {
        let is_decided = self.disk.seen(&Place::Decision).is_some();
        confirm!(rt; !is_decided || self.is_released);
        confirm!(rt; !self.hold || !is_any_visible || is_decided);
    }

    fn judge_told(&self, rt: &impl Abort, a: &AttemptId, standing: Standing) {
        let is_winner = winner(self.disk.synced(), &a.task()) == Some(*a);
        confirm!(rt; is_winner == (standing == Standing::Won));
    }

    // Whether a part is visible; it is the winner's file then, and whole.
    fn part(&self, rt: &impl Abort, number: u32) -> bool {
        let Some(file) = self.disk.seen(&Place::Part(number)) else {
            return false;
        };
        let a = winner(self.disk.synced(), &task(number)).expect(rt, "a part without a winner");
        confirm!(rt; file == file_of(&a) && self.disk.is_whole(file));
        true
    }
}
