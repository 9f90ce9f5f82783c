//! The program `mrsim`: its words by `clap`, then one run from standard input or a file to standard output.
#![tactic(auto)]

ghost use Rattle.std.specs.Prelude.{◌≡◌, ◌⊎◌, IfErr};
ghost use Rattle.std.specs.Process.{exit_status};
ghost use Rattle.mr_sim.specs.Fault.{exit_status_of};

mod command;

use crate::command::{command_of, ending_of, file_of, goal_word};
use clap::ArgMatches;
use clap::error::ErrorKind;
use mr_pipe_commands::{missing, served, why_unread};
use mr_sim::{Ending, Expectation, Help, Refusal, Remarks, SimFault, is_contrary, read_goal, run};
use mr_sim_arguments::command_line;
use std::alloc::Global;
use std::env::FillError;
use std::fs::File;
use std::io::Write;
use std::process::ExitCode;
use std::rt::{Clock, Env, Files};
use std::str::from_utf8;
use std::sync::Wait;
use std::thread::Threads;
use std::{env, io};

// What a goal of `explore` is.
const GOAL_HELP: &str =
    "expected lines of winners, the marker and the outcome, as \"marker yes, outcome failed\"";

// The same, where the goal names files.
const FILES_HELP: &str =
    "files can't be sought: expected lines of winners, the marker and the outcome, as \"marker yes, outcome failed\"";

// The exit code of a program that ended so, when it has said what failed.
fn code_of(rt: &impl Eprint, ending: Ending) -> ExitCode
    ensures { exit_status result ≡ exit_status_of ending }
{
    if let Ending::Failed(fault) = ending {
        let _ = rt.eprintln(fault);
    }
    ExitCode::from(mr_sim::exit_status(ending))
}

// The exit code of a run that has no output, when it has said why, and then what helps. The file is the one that it was to read, if not
// standard input.
fn code_of_refusal(rt: &impl Eprint, refusal: &Refusal, file: Option<&str>) -> ExitCode
    ensures { exit_status result ≡ exit_status_of (Ending.Failed refusal.now.fault) }
{
    if say(rt, refusal.fault, file).is_ok() {
        say_help(rt, &refusal.help);
    }
    ExitCode::from(mr_sim::exit_status(Ending::Failed(refusal.fault)))
}

// Says what failed on standard error: the fault's text, and behind that of a failed read the name of the file that was to be read.
// Where it cannot be printed it is dropped, and the exit status says it.
fn say(rt: &impl Eprint, fault: SimFault, file: Option<&str>) -> io::Result<()> {
    match (fault, file) {
        (SimFault::Read, Some(name)) => eprintln!(rt; "{fault}: {name}"),
        _ => rt.eprintln(fault),
    }
}

// Says what helps, if anything does, in a line behind the fault. Where it cannot be printed it is dropped.
fn say_help(rt: &impl Eprint, help: &Option<Help>) {
    if let Some(help) = help {
        let _ = eprintln!(rt; "  {help}");
    }
}

// What it is that a file could not be opened.
fn open_fault(error: &io::Error) -> SimFault {
    match error.kind() {
        io::ErrorKind::OutOfMemory => SimFault::NoMemory,
        _ => SimFault::Read,
    }
}

// Why this file could not be opened, where that is known.
fn open_help(error: &io::Error, name: &str) -> Option<Help> {
    match error.kind() {
        io::ErrorKind::NotFound => Some(Help::Words(missing(name))),
        io::ErrorKind::PermissionDenied => Some(Help::Words("it may not be read")),
        _ => None,
    }
}

// What came of a run over this file; where it was not read, with why: a folder is opened, and can't be read.
fn helped(rt: &impl Files, name: &str, ran: Result<Remarks, Refusal>) -> Result<Remarks, Refusal> {
    match ran {
        Ok(remarks) => Ok(remarks),
        Err(refusal) => match refusal.fault {
            SimFault::Read => Err(Refusal {
                fault: SimFault::Read,
                help: words_of(why_unread(rt, name)),
            }),
            _ => Err(refusal),
        },
    }
}

// These words as help, if there are any.
fn words_of(words: Option<&'static str>) -> Option<Help> {
    match words {
        Some(words) => Some(Help::Words(words)),
        None => None,
    }
}

// Prints what clap says of the words: help that was asked for to standard output, a refusal to standard error. A refusal that cannot
// be printed is dropped, and the exit status says it.
fn print_words(rt: &(impl Print + Eprint), error: &clap::Error, ending: Ending) -> Ending
    ensures either { (result ≡ ending) ⊎ (result ≡ Ending.Failed SimFault.Write) }
    ensures refused { ending ≡ Ending.RefusedWords → result ≡ Ending.RefusedWords }
{
    if let Ending::Failed(_) = ending {
        return ending;
    }
    match error.print(rt) {
        Err(_) if ending == Ending::Helped => Ending::Failed(SimFault::Write),
        Err(_) => ending,
        Ok(()) => {
            say_number(rt, error);
            ending
        }
    }
}

// What a value is to be that is refused. Only numbers have bounds.
const NO_NUMBER: &str = "  expected a whole number, in the range that --help tells";

// Says what was expected in place of a value, if one is refused: clap's own words say little. Where it cannot be printed it is dropped.
fn say_number(rt: &impl Eprint, error: &clap::Error) {
    if matches!(error.kind(), ErrorKind::ValueValidation) {
        let _ = rt.eprintln(NO_NUMBER);
    }
}

// What is wrong with a goal whose lines are each well written.
const CONTRARY: &str = "two of its lines can't be so at once";

// Refuses the goal, when it has said why. Where that cannot be said it is dropped, and the exit status says it.
fn refuse_goal(rt: &impl Eprint, word: &str, why: &str) -> Ending
    ensures { result ≡ Ending.RefusedWords }
{
    let _ = eprintln!(rt; "error: invalid value '{word}' for '--find <GOAL>': {why}");
    Ending::RefusedWords
}

// What a goal is, in place of this one.
fn goal_help(word: &str) -> &'static str {
    if word.find("file").is_some() || word.find("==").is_some() {
        FILES_HELP
    } else {
        GOAL_HELP
    }
}

// The end that is sought, if one is. Where no end can be so, the program ends, when it has said so.
fn goal_of(
    rt: &(impl AllocGlobal + Eprint),
    matches: &ArgMatches<'_>,
) -> Result<Option<Vec<Expectation>>, Ending>
    ensures { IfErr result (λ ending. (ending ≡ Ending.RefusedWords) ⊎ (ending ≡ Ending.Failed SimFault.NoMemory)) }
{
    let Some(word) = goal_word(matches) else {
        return Ok(None);
    };
    match read_goal(rt.alloc(), word) {
        Ok(Some(goal)) => sought(rt, word, goal),
        Ok(None) => Err(refuse_goal(rt, word, goal_help(word))),
        Err(_) => Err(Ending::Failed(SimFault::NoMemory)),
    }
}

// The same of a goal whose lines are well written.
fn sought(
    rt: &impl Eprint,
    word: &str,
    goal: Vec<Expectation>,
) -> Result<Option<Vec<Expectation>>, Ending>
    ensures { IfErr result (λ ending. (ending ≡ Ending.RefusedWords) ⊎ (ending ≡ Ending.Failed SimFault.NoMemory)) }
{
    if is_contrary(&goal) {
        return Err(refuse_goal(rt, word, CONTRARY));
    }
    Ok(Some(goal))
}

// The same, lent.
fn lent(goal: &Option<Vec<Expectation>>) -> Option<&[Expectation]> {
    match goal {
        Some(goal) => Some(goal.as_slice()),
        None => None,
    }
}

// What comes of a run over this file.
fn run_file<H: AllocGlobal + Clock + Eprint + Files + Print + Sync + Threads + Wait>(
    rt: &H,
    command: &mr_sim::Command<'_>,
    name: &str,
) -> Result<Remarks, Refusal> {
    match File::open(rt, name) {
        Ok(mut reader) => {
            let ran = run(rt, command, &mut reader, &mut io::writer(rt));
            helped(rt, name, ran)
        }
        Err(error) => Err(Refusal {
            fault: open_fault(&error),
            help: open_help(&error, name),
        }),
    }
}

// The exit code of a run, when its remarks or its refusal are said.
fn code_of_run<W: Write>(
    rt: &impl Eprint,
    stderr: &mut W,
    ran: Result<Remarks, Refusal>,
    file: Option<&str>,
) -> ExitCode {
    match ran {
        Ok(remarks) => {
            // Where they cannot be printed they are dropped, and the exit status says whether all is as expected.
            let _ = remarks.write(stderr);
            code_of(rt, remarks.ending())
        }
        Err(refusal) => code_of_refusal(rt, &refusal, file),
    }
}

// The number of the first argument that is no UTF-8, if one is; that of the program's name is 0.
fn odd_argument(rt: &impl Env) -> Option<usize> {
    let mut bytes = [0u8; 4096];
    for number in 0..usize::MAX {
        match rt.arg(number, &mut bytes) {
            Ok(len) if from_utf8(&bytes[..len]).is_err() => return Some(number),
            Ok(_) | Err(FillError::TooLong) => {}
            Err(FillError::NotPresent) => return None,
        }
    }
    None
}

// How the program ends that can't read its arguments, when it has said why.
fn args_ending(rt: &(impl Env + Eprint), error: &io::Error) -> Ending {
    if error.kind() == io::ErrorKind::OutOfMemory {
        return Ending::Failed(SimFault::NoMemory);
    }
    let _ = match odd_argument(rt) {
        Some(number) => eprintln!(rt; "error: argument {number} is no UTF-8"),
        None => eprintln!(rt; "error: an argument is no UTF-8"),
    };
    Ending::RefusedWords
}

fn main(rt: HostRuntime) -> ExitCode {
    let alloc: Global = rt.alloc();
    let args = match env::args(&rt) {
        Ok(args) => args,
        Err(error) => return code_of(&rt, args_ending(&rt, &error)),
    };
    let Ok(words): Result<Vec<String>, _> = args.collect(alloc) else {
        return code_of(&rt, Ending::Failed(SimFault::NoMemory));
    };
    let Ok(command) = command_line(alloc) else {
        return code_of(&rt, Ending::Failed(SimFault::NoMemory));
    };
    let matches = match command.try_get_matches_from(words.as_slice()) {
        Ok(matches) => matches,
        Err(error) => return code_of(&rt, print_words(&rt, &error, ending_of(&error))),
    };
    if let Some(status) = served(&rt, &matches) {
        return ExitCode::from(status);
    }
    let goal = match goal_of(&rt, &matches) {
        Ok(goal) => goal,
        Err(ending) => return code_of(&rt, ending),
    };
    let (command, file) = (command_of(&matches, lent(&goal)), file_of(&matches));
    let ran = match file {
        None => run(&rt, &command, &mut rt.reader(), &mut io::writer(&rt)),
        Some(name) => run_file(&rt, &command, name),
    };
    code_of_run(&rt, &mut rt.stderr(), ran, file)
}
