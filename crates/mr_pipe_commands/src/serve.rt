//! One subcommand that serves another program, from the words to the exit status.
ghost use Rattle.std.specs.Prelude.{◌≡◌};

use crate::named;
use clap::ArgMatches;
use mr_ids::{AppAttempt, TaskId};
use mr_pipe::{Form, PipeFault, say};
use mr_recover::Staging;
use mr_sim_arguments::{
    COMMIT_FAIL, COMMIT_STARTED, COMMIT_SUCCESS, DEST, FILE, GENERATION, JSON, OPERATION, TASK_NAME,
};
use mr_step::Asked;
use std::alloc::{AllocError, Global};
use std::io;
use std::io::BufReader;

// No words.
const NOTHING: &[&str] = &[];

// The name of standard input.
const STANDARD_INPUT: &[&str] = &["-"];

/// Runs a subcommand that serves another program, and answers its exit status; none where the words name another one.
pub fn served(rt: &HostRuntime, matches: &ArgMatches<'_>) -> Option<u8> {
    match matches.subcommand() {
        Some(("step", words)) => Some(step(rt, words)),
        Some(("task", words)) => Some(task(rt, words)),
        Some(("judge", words)) => Some(judge(rt, words)),
        Some(("recovery", words)) => Some(recovery(rt, words)),
        _ => None,
    }
}

// The form of what is written, and, of a talk, of what is read.
fn form_of(words: &ArgMatches<'_>) -> Form {
    if words.get_flag(JSON) {
        Form::Json
    } else {
        Form::Text
    }
}

// The generation of the master.
fn generation_of(words: &ArgMatches<'_>) -> Option<AppAttempt> {
    AppAttempt::new(words.get_one::<u32>(GENERATION).unwrap_or(1))
}

// Refuses the command line, with what is wrong of it.
fn refuse(rt: &HostRuntime, word: &str, name: &str, why: &str) -> u8
    ensures { result ≡ 2 }
{
    let _ = eprintln!(rt; "error: invalid value '{word}' for '<{name}>': {why}");
    2
}

fn step(rt: &HostRuntime, words: &ArgMatches<'_>) -> u8 {
    let operation = words.get_strs(OPERATION).unwrap_or(NOTHING);
    match asked_of(rt.alloc(), words, operation) {
        Ok(Some(asked)) => step_of(rt, form_of(words), &asked),
        Ok(None) => refuse(
            rt,
            operation.first().copied().unwrap_or(""),
            OPERATION,
            "expected setup-job, commit-task ATTEMPT, abort-task ATTEMPT, commit-job, abort-job, or recover-task TASK [N], and a path for --dest",
        ),
        Err(AllocError) => no_memory(rt),
    }
}

fn asked_of(
    alloc: Global,
    words: &ArgMatches<'_>,
    operation: &[&str],
) -> Result<Option<Asked>, AllocError> {
    let dest = words.get_str(DEST).unwrap_or("/out");
    match generation_of(words) {
        Some(generation) => Asked::of(alloc, operation, dest, generation),
        None => Ok(None),
    }
}

fn step_of(rt: &HostRuntime, form: Form, asked: &Asked) -> u8 {
    let alloc: Global = rt.alloc();
    match BufReader::new(alloc, rt.stdin()) {
        Ok(mut reader) => mr_step::run(
            alloc,
            form,
            asked,
            &mut reader,
            &mut io::writer(rt),
            &mut rt.stderr(),
        ),
        Err(_) => no_memory(rt),
    }
}

fn task(rt: &HostRuntime, words: &ArgMatches<'_>) -> u8 {
    let word = words.get_str(TASK_NAME).unwrap_or("");
    match (TaskId::parse(word), generation_of(words)) {
        (Ok(task), Some(generation)) => task_of(rt, task, generation, form_of(words)),
        _ => refuse(
            rt,
            word,
            TASK_NAME,
            "expected a task, as task_200707121733_0003_r_000000",
        ),
    }
}

fn task_of(rt: &HostRuntime, task: TaskId, generation: AppAttempt, form: Form) -> u8 {
    let alloc: Global = rt.alloc();
    match BufReader::new(alloc, rt.stdin()) {
        Ok(mut reader) => mr_task_talk::run(
            alloc,
            task,
            generation,
            form,
            &mut reader,
            &mut io::writer(rt),
            &mut rt.stderr(),
        ),
        Err(_) => no_memory(rt),
    }
}

// The status of a lack of memory, when it is said.
fn no_memory(rt: &HostRuntime) -> u8
    ensures { result ≡ 5 }
{
    // Where it cannot be written it is dropped, and the status says it.
    let _ = say(&mut rt.stderr(), PipeFault::NoMemory);
    5
}

fn judge(rt: &HostRuntime, words: &ArgMatches<'_>) -> u8 {
    named::judge(
        rt.alloc(),
        rt,
        form_of(words),
        words.get_str(FILE).unwrap_or("-"),
        &mut io::writer(rt),
        &mut rt.stderr(),
    )
}

fn recovery(rt: &HostRuntime, words: &ArgMatches<'_>) -> u8 {
    let staging = Staging {
        success: words.get_flag(COMMIT_SUCCESS),
        fail: words.get_flag(COMMIT_FAIL),
        started: words.get_flag(COMMIT_STARTED),
    };
    named::recovery(
        rt.alloc(),
        rt,
        form_of(words),
        words.get_strs(FILE).unwrap_or(STANDARD_INPUT),
        staging,
        &mut io::writer(rt),
        &mut rt.stderr(),
    )
}
