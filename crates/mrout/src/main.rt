//! The program `mrout`: its words by `clap`, then one command.
#![tactic(auto)]

mod check;
mod directory;
mod ending;
mod request;
mod walk;
mod winners;
mod words;

use crate::check::run_check;
use crate::directory::run_directory;
use crate::ending::Ending;
use crate::words::{NAMES, command_line, ending_of, request_of};
use clap::ArgMatches;
use mr_out_words::asked_of;
use std::alloc::Global;
use std::env::FillError;
use std::io::ErrorKind;
use std::process::ExitCode;
use std::rt::Env;
use std::str::from_utf8;
use std::{env, io};

// The exit code of a program that ended so.
fn code_of(rt: &impl Eprint, ending: Ending) -> ExitCode {
    if matches!(ending, Ending::NoMemory) {
        let _ = eprintln!(rt; "mrout: no memory");
    }
    ExitCode::from(ending.status())
}

// Prints what clap says of the words: help that was asked for to standard output, a refusal to standard error.
fn print_words(rt: &(impl Print + Eprint), error: &clap::Error) -> Ending {
    let ending = ending_of(error);
    if matches!(ending, Ending::NoMemory) {
        return ending;
    }
    match error.print(rt) {
        Err(_) if matches!(ending, Ending::Helped) => Ending::CallFailed,
        _ => ending,
    }
}

// May the directories that these words name be read?
fn look(rt: &HostRuntime, words: &ArgMatches<'_>) -> Ending {
    let names = words.get_strs(NAMES).unwrap_or(&[]);
    run_check(rt, &request_of(words, names.len()), names)
}

// Runs the command that the words name. Words without one are refused before.
fn run(rt: &HostRuntime, matches: &ArgMatches<'_>) -> Ending {
    match matches.subcommand() {
        Some(("check", words)) => look(rt, words),
        _ => match asked_of(matches) {
            Some(asked) => run_directory(rt, &asked),
            None => Ending::RefusedWords,
        },
    }
}

// The number of the first argument that is no UTF-8, if one is; that of the program's name is 0.
fn odd_argument(rt: &impl Env) -> Option<usize> {
    let mut bytes = [0u8; 4096];
    for number in 0..usize::MAX {
        match rt.arg(number, &mut bytes) {
            Ok(len) if from_utf8(&bytes[..len]).is_err() => return Some(number),
            Ok(_) | Err(FillError::TooLong) => {}
            Err(FillError::NotPresent) => return None,
        }
    }
    None
}

fn args_ending(rt: &(impl Env + Eprint), error: &io::Error) -> Ending {
    if matches!(error.kind(), ErrorKind::OutOfMemory) {
        return Ending::NoMemory;
    }
    let _ = match odd_argument(rt) {
        Some(number) => eprintln!(rt; "error: argument {number} is no UTF-8"),
        None => eprintln!(rt; "error: an argument is no UTF-8"),
    };
    Ending::RefusedWords
}

fn main(rt: HostRuntime) -> ExitCode {
    let alloc: Global = rt.alloc();
    let args = match env::args(&rt) {
        Ok(args) => args,
        Err(error) => return code_of(&rt, args_ending(&rt, &error)),
    };
    let Ok(words): Result<Vec<String>, _> = args.collect(alloc) else {
        return code_of(&rt, Ending::NoMemory);
    };
    let Ok(command) = command_line(alloc) else {
        return code_of(&rt, Ending::NoMemory);
    };
    match command.try_get_matches_from(words.as_slice()) {
        Ok(matches) => code_of(&rt, run(&rt, &matches)),
        Err(error) => code_of(&rt, print_words(&rt, &error)),
    }
}
