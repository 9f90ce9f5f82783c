//! The words of the command line, by clap.
ghost use Rattle.std.specs.Prelude.{◌≡◌, codes, IfSome, IfNone};
ghost use Rattle.mr_out_words.specs.Asking.{text_in, IsFlag, IsNumber, IsFailingBy, IsCommandBy, IsNamedBy, IsAskedBy, IsNoCommand, name_of};

use crate::asked::{Asked, Command, Failing};
use crate::help::{about, ends, place_help};
use clap::builder::ValueParser;
use clap::{Arg, ArgAction, ArgMatches};
use std::alloc::{AllocError, Global};

const NAMES: &[&str] = &[
    "begin", "attempt", "done", "fail", "publish", "abort", "resume", "forget", "status",
];

const OF_TASK: &[&str] = &["task"];

const ONE_TASK: &[&str] = &["task", "over"];

const TASK_OR_ALL: &[&str] = &["task", "all"];

const ATTEMPT_OR_ALL: &[&str] = &["ATTEMPT", "all"];

const ATTEMPT_OR_TASK: &[&str] = &["ATTEMPT", "task"];

/// The command lines of the commands. Which name and words each has, no clause of clap says of a whole command line.
pub fn subcommands<'a>(alloc: Global) -> Result<Vec<clap::Command<'a>>, AllocError> {
    let mut commands = Vec::new(alloc);
    for name in NAMES {
        commands.push(subcommand(alloc, name)?)?;
    }
    Ok(commands)
}

fn subcommand<'a>(alloc: Global, name: &'static str) -> Result<clap::Command<'a>, AllocError> {
    let args = args_of(alloc, name)?;
    clap::Command::new(alloc, name)
        .about(about(name))
        .after_help(ends(name))
        .args(args)
}

fn args_of<'a>(alloc: Global, name: &str) -> Result<Vec<Arg<'a>>, AllocError> {
    let mut args = Vec::new(alloc);
    args.push(place(alloc, "DIR", true))?;
    args.push(number(
        alloc,
        "wait",
        "SECONDS",
        "Ends the wait for the lock",
        1,
        1_000_000,
    ))?;
    match name {
        "begin" => put_begin(alloc, &mut args)?,
        "attempt" => put_attempt(alloc, &mut args)?,
        "done" => args.push(place(alloc, "ATTEMPT", true))?,
        "fail" => put_fail(alloc, &mut args)?,
        "resume" => args.push(flag(alloc, "here", "DIR was moved to this host"))?,
        "status" => args.push(flag(alloc, "json", "Prints an object of JSON a line"))?,
        _ => {}
    }
    Ok(args)
}

fn put_begin(alloc: Global, args: &mut Vec<Arg<'_>>) -> Result<(), AllocError> {
    args.push(number(alloc, "tasks", "N", "How many tasks the job has", 1, 1000).required(true))?;
    args.push(number(
        alloc,
        "limit",
        "L",
        "This many failures of one task end the job for good; who is given up counts (default: none do)",
        1,
        100,
    ))?;
    args.push(text(
        alloc,
        "suffix",
        "S",
        "What ends the name of each part file, as .csv.gz",
    ))?;
    args.push(hold_word(alloc))?;
    args.push(flag(
        alloc,
        "again",
        "All is well where DIR is a job of the same words",
    ))?;
    Ok(())
}

fn hold_word<'a>(alloc: Global) -> Arg<'a> {
    flag(
        alloc,
        "hold",
        "The job is published by `mrout publish` alone",
    )
}

fn put_attempt(alloc: Global, args: &mut Vec<Arg<'_>>) -> Result<(), AllocError> {
    args.push(number(alloc, "task", "T", "Begins one at this task", 0, 999))?;
    args.push(beside(over_word(alloc), OF_TASK)?)?;
    args.push(apart(each_word(alloc), ONE_TASK)?)?;
    Ok(())
}

fn over_word<'a>(alloc: Global) -> Arg<'a> {
    flag(
        alloc,
        "over",
        "What is under way at the task is given up first, which counts against --limit",
    )
}

fn each_word<'a>(alloc: Global) -> Arg<'a> {
    flag(alloc, "all", "Begins one at each task that waits for one")
}

fn put_fail(alloc: Global, args: &mut Vec<Arg<'_>>) -> Result<(), AllocError> {
    args.push(unless(place(alloc, "ATTEMPT", false), TASK_OR_ALL)?)?;
    args.push(apart(task_word(alloc), ATTEMPT_OR_ALL)?)?;
    args.push(apart(all_word(alloc), ATTEMPT_OR_TASK)?)?;
    Ok(())
}

fn task_word<'a>(alloc: Global) -> Arg<'a> {
    number(
        alloc,
        "task",
        "T",
        "What is under way at this task is given up, which counts against --limit",
        0,
        999,
    )
}

fn all_word<'a>(alloc: Global) -> Arg<'a> {
    flag(
        alloc,
        "all",
        "All that is under way is given up, which counts against --limit",
    )
}

// The words beside which alone it stands.
fn beside<'a>(arg: Arg<'a>, ids: &[&'static str]) -> Result<Arg<'a>, AllocError> {
    arg.requires_all(ids)
}

// The words that it rules out.
fn apart<'a>(arg: Arg<'a>, ids: &[&'static str]) -> Result<Arg<'a>, AllocError> {
    arg.conflicts_with_all(ids)
}

// It may be left out beside any of these.
fn unless<'a>(arg: Arg<'a>, ids: &[&'static str]) -> Result<Arg<'a>, AllocError> {
    arg.required_unless_present_any(ids)
}

fn place<'a>(alloc: Global, name: &'static str, is_required: bool) -> Arg<'a> {
    Arg::new(alloc, name)
        .help(place_help(name))
        .action(ArgAction::Set)
        .required(is_required)
}

fn flag<'a>(alloc: Global, name: &'static str, help: &'static str) -> Arg<'a> {
    Arg::new(alloc, name)
        .long(name)
        .help(help)
        .action(ArgAction::SetTrue)
}

fn text<'a>(alloc: Global, name: &'static str, value: &'static str, help: &'static str) -> Arg<'a> {
    Arg::new(alloc, name)
        .long(name)
        .help(help)
        .action(ArgAction::Set)
        .value_name(value)
}

fn number<'a>(
    alloc: Global,
    name: &'static str,
    value: &'static str,
    help: &'static str,
    low: u64,
    high: u64,
) -> Arg<'a> {
    Arg::new(alloc, name)
        .long(name)
        .help(help)
        .action(ArgAction::Set)
        .value_name(value)
        .value_parser(ValueParser::Unsigned(low, high))
}

/// What the words ask for; nothing where they name none of these commands. A number is read as `str::parse` reads it.
pub fn asked_of<'a>(matches: &ArgMatches<'a>) -> Option<Asked<'a>>
    ensures asked { IfSome result (IsAskedBy matches.now) }
    ensures none { IfNone result (IsNoCommand matches.now) }
{
    let (name, words) = matches.subcommand()?;
    let command = command_of(name, words)?;
    Some(Asked {
        dir: text_in(words, "DIR"),
        wait: seconds_in(words, "wait"),
        command,
    })
}

fn command_of<'a>(name: &str, words: &ArgMatches<'a>) -> Option<Command<'a>>
    ensures asked { IfSome result (IsNamedBy name.now words.now) }
    ensures none { IfNone result ((command : Command) → name.now ≡ name_of command → ⊥) }
{
    match name {
        "begin" => Some(begin_of(words)),
        "attempt" => Some(attempt_of(words)),
        "done" => Some(Command::Done {
            attempt: text_in(words, "ATTEMPT"),
        }),
        "fail" => Some(Command::Fail(failing_of(words))),
        "publish" => Some(Command::Publish),
        "abort" => Some(Command::Abort),
        "resume" => Some(Command::Resume {
            here: flag_in(words, "here"),
        }),
        "forget" => Some(Command::Forget),
        "status" => Some(Command::Status {
            json: flag_in(words, "json"),
        }),
        _ => None,
    }
}

// The text behind a word, if there is any.
fn text_in<'a>(words: &ArgMatches<'a>, id: &str) -> &'a str
    ensures { result.now ≡ text_in words.now id.now }
{
    words.get_str(id).unwrap_or("")
}

// Whether a flag was said.
fn flag_in(words: &ArgMatches<'_>, id: &str) -> bool
    ensures { IsFlag words.now id.now result }
{
    words.get_flag(id)
}

// The number that a word tells, if it was said.
#[tactic(auto, using(crate::proofs::Numbers::told_so))]
fn number_in(words: &ArgMatches<'_>, id: &str) -> Option<u32>
    ensures { IsNumber 32 words.now id.now result }
{
    words.get_one::<u32>(id)
}

#[tactic(auto, using(crate::proofs::Numbers::told_so))]
fn seconds_in(words: &ArgMatches<'_>, id: &str) -> Option<u64>
    ensures { IsNumber 64 words.now id.now result }
{
    words.get_one::<u64>(id)
}

fn begin_of<'a>(words: &ArgMatches<'a>) -> Command<'a>
    ensures name { name_of result ≡ codes "begin" }
    ensures words { IsCommandBy words.now result }
{
    Command::Begin {
        tasks: number_in(words, "tasks").unwrap_or(1),
        limit: number_in(words, "limit"),
        suffix: text_in(words, "suffix"),
        hold: flag_in(words, "hold"),
        again: flag_in(words, "again"),
    }
}

fn attempt_of<'a>(words: &ArgMatches<'a>) -> Command<'a>
    ensures name { name_of result ≡ codes "attempt" }
    ensures words { IsCommandBy words.now result }
{
    if flag_in(words, "all") {
        return Command::AttemptAll;
    }
    Command::Attempt {
        task: number_in(words, "task"),
        over: flag_in(words, "over"),
    }
}

fn failing_of<'a>(words: &ArgMatches<'a>) -> Failing<'a>
    ensures { IsFailingBy words.now result }
{
    if flag_in(words, "all") {
        return Failing::All;
    }
    match number_in(words, "task") {
        Some(task) => Failing::Task(task),
        None => Failing::One(text_in(words, "ATTEMPT")),
    }
}
