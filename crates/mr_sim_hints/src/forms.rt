//! How the commands of scripts are written, and which words stand where.
use mr_ids::{TaskId, TaskKind};
use mr_script::{attempt, event_named, generation, long_number, number, split_once};
use std::str;

/// Which scripts there are.
#[derive(Clone, Copy, Debug, PartialEq, Eq)]
pub enum Script {
    /// Of committer calls.
    Committer,
    /// Of a run.
    Play,
}

/// Most forms of a command.
pub const MOST_FORMS: usize = 5;

// The forms of each command, with a stroke between those of one command. A word in capitals stands for others, as `takes` has them.
const COMMITTER: [&str; 13] = [
    "as K",
    "raise K",
    "check",
    "setup",
    "write A TEXT",
    "needs A",
    "commit A",
    "abort A",
    "recover T|recover T B",
    "commitjob",
    "abortjob",
    "bar A",
    "by A|by none",
];

const PLAY: [&str; 13] = [
    "start K KEPT",
    "crash K KEPT",
    "duty K|duty K FAULT",
    "launch K m T N|launch K r T N",
    "deliver I",
    "step C|step C FAULT",
    "compute C",
    "die C",
    "restart N",
    "expire K N",
    "calm K|calm K all|calm K before NAME",
    "drop I",
    "expect r T A|expect r T none|expect marker yes|expect marker no|expect outcome WORD",
];

// What a calm may stop before.
const NAMES: &str =
    "NAME is launch, step, a master's call (marks, read, setup, recover, bar, append, flush, started, merge, \
    cleanup, marker, success, fail, abort) or a container's (compute, where, fetch, lost, mkdirs, create, write, close, needs, \
    pending, poll, look, clear, rename, report, abort, failed)";

impl Script {
    /// The forms of each of its commands.
    pub(crate) fn commands(&self) -> &'static [&'static str] {
        match self {
            Script::Committer => &COMMITTER,
            Script::Play => &PLAY,
        }
    }

    /// Whether a word of a form takes this word of a line.
    pub(crate) fn takes(&self, form: &str, part: &str, word: &[u8]) -> bool {
        match part {
            "K" => generation(word).is_some(),
            "KEPT" | "I" => long_number(word).is_some(),
            "N" | "B" => number(word).is_some(),
            "T" => self.takes_task(word),
            "A" => takes_attempt(form, word),
            "C" => is_container(word),
            "FAULT" => is_one_of(&["unavailable", "unanswered"], word),
            "NAME" => event_named(word).is_some(),
            "WORD" => is_one_of(&["succeeded", "failed", "none"], word),
            _ => word == part.as_bytes(),
        }
    }

    /// What a word of a form stands for, where it is in capitals.
    pub(crate) fn meaning(&self, part: &str) -> Option<&'static str> {
        match part {
            "K" => Some("K is a generation of the master, 1 to 1000 with no zero in front"),
            "KEPT" => Some("KEPT is how many bytes stay, a whole number below 2^64"),
            "I" => Some("I is a packet's place in the bag, a whole number below 2^64"),
            "N" => Some("N is a node's number, from 0"),
            "B" => Some("B is a file's length, a whole number below 2^32"),
            "T" => Some(self.task_meaning()),
            "A" => Some("A is an attempt, as attempt_200707121733_0003_r_000000_0"),
            "C" => Some("C is a container, as 1.0: its master, a full stop, its number"),
            "FAULT" => Some("FAULT is unavailable or unanswered"),
            "NAME" => Some(NAMES),
            "WORD" => Some("WORD is succeeded, failed or none"),
            _ => None,
        }
    }

    fn task_meaning(&self) -> &'static str {
        match self {
            Script::Committer => "T is a task, as task_200707121733_0003_r_000000",
            Script::Play => "T is a task's number, from 0",
        }
    }

    // A task's name, or in a script of a run, where its kind stands before, its number.
    fn takes_task(&self, word: &[u8]) -> bool {
        match self {
            Script::Committer => is_task(word),
            Script::Play => number(word).is_some(),
        }
    }
}

/// The first word of a form.
pub fn verb_of<'a>(form: &'a str) -> &'a str {
    match form.split_once(' ') {
        Some((verb, _)) => verb,
        None => form,
    }
}

// An attempt's name: of a reduce where it is to write.
fn takes_attempt(form: &str, word: &[u8]) -> bool {
    match attempt(word) {
        Some(attempt) => verb_of(form) != "write" || attempt.task().kind == TaskKind::Reduce,
        None => false,
    }
}

fn is_task(word: &[u8]) -> bool {
    match str::from_utf8(word) {
        Ok(text) => TaskId::parse(text).is_ok(),
        Err(_) => false,
    }
}

// A master's generation, a full stop, and a number.
fn is_container(word: &[u8]) -> bool {
    match split_once(word, b'.') {
        Some((k, n)) => generation(k).is_some() && number(n).is_some(),
        None => false,
    }
}

fn is_one_of(words: &[&str], word: &[u8]) -> bool {
    words.iter().any(|it| it.as_bytes() == word)
}
