//! The subcommands of the program, and its command line.
use crate::committer::{COMMITTER, COMMITTER_HELP, committer_words};
use crate::explore::{EXPLORE, EXPLORE_HELP, explore_words};
use crate::history::{HISTORY, HISTORY_HELP, history_words};
use crate::pipe::{
    JUDGE, JUDGE_HELP, RECOVERY, RECOVERY_HELP, SEGMENTS, STEP, STEP_HELP, STEP_PLACE, TASK,
    TASK_HELP, TASK_OF, judge_words, recovery_words, step_words, task_words,
};
use crate::play::{PLAY, PLAY_HELP, play_words};
use crate::seq::{SEQ, SEQ_HELP};
use crate::table::{Place, Word, args_of};
use crate::threads::{THREADS, THREADS_HELP, threads_words};
use clap::Command;
use std::alloc::{AllocError, Global};

const ABOUT: &str =
    "Simulates the part of a Hadoop MapReduce cluster that decides whose output counts.";

// What `--version` says. `mrout` has the same number, and `tools/package` reads both. Whether a program was built of proved crates no text in it
// can say: the file BUILD of a package does.
const VERSION: &str = "0.2.0";

const STATUSES: &str = "\
Each subcommand but `step` and `task` reads standard input, or FILE, to its end, and then writes standard output.
`mrsim help play` has a first job to try, and the commands of its script.

Statuses:
  0  done
  1  `mrsim: job failed`; `step`: a fault; `judge`: a wrong answer
  2  the command line was refused
  3  the input was refused: `mrsim: line N: bad command`, `mrsim: history: bad line N`,
     `mrsim: job: KEY`, `mrsim: refused`, `mrsim: input too long`; or `mrsim: not as expected`,
     where the output was written, and an `expect` of a script of `play` was not met
  4  a stream failed: `mrsim: read`, `mrsim: write`, or FILE: `mrsim: read: FILE`
  5  `mrsim: no memory`
  6  `mrsim: turns spent`
  7  `mrsim: full`, `mrsim: thread`, `mrsim: journal mismatch`
Where an input is refused, a second line on standard error mostly says where, and what was expected.";

// A subcommand of the program.
#[derive(Clone, Copy)]
enum Subcommand {
    Committer,
    Play,
    Explore,
    Threads,
    History,
    Seq,
    Step,
    Task,
    Judge,
    Recovery,
}

impl Subcommand {
    // All, in the order of help.
    const ALL: &'static [Subcommand] = &[
        Subcommand::Committer,
        Subcommand::Play,
        Subcommand::Explore,
        Subcommand::Threads,
        Subcommand::History,
        Subcommand::Seq,
        Subcommand::Step,
        Subcommand::Task,
        Subcommand::Judge,
        Subcommand::Recovery,
    ];

    fn name<'a>(self) -> &'a str {
        match self {
            Subcommand::Committer => "committer",
            Subcommand::Play => "play",
            Subcommand::Explore => "explore",
            Subcommand::Threads => "threads",
            Subcommand::History => "history",
            Subcommand::Seq => "seq",
            Subcommand::Step => "step",
            Subcommand::Task => "task",
            Subcommand::Judge => "judge",
            Subcommand::Recovery => "recovery",
        }
    }

    // What it does, in a line.
    fn about<'a>(self) -> &'a str {
        match self {
            Subcommand::Committer => COMMITTER,
            Subcommand::Play => PLAY,
            Subcommand::Explore => EXPLORE,
            Subcommand::Threads => THREADS,
            Subcommand::History => HISTORY,
            Subcommand::Seq => SEQ,
            Subcommand::Step => STEP,
            Subcommand::Task => TASK,
            Subcommand::Judge => JUDGE,
            Subcommand::Recovery => RECOVERY,
        }
    }

    // What its help says behind its words.
    fn help<'a>(self) -> &'a str {
        match self {
            Subcommand::Committer => COMMITTER_HELP,
            Subcommand::Play => PLAY_HELP,
            Subcommand::Explore => EXPLORE_HELP,
            Subcommand::Threads => THREADS_HELP,
            Subcommand::History => HISTORY_HELP,
            Subcommand::Seq => SEQ_HELP,
            Subcommand::Step => STEP_HELP,
            Subcommand::Task => TASK_HELP,
            Subcommand::Judge => JUDGE_HELP,
            Subcommand::Recovery => RECOVERY_HELP,
        }
    }

    fn words(self) -> &'static [Word] {
        match self {
            Subcommand::Committer => committer_words(),
            Subcommand::Seq => &[],
            Subcommand::Play => play_words(),
            Subcommand::Explore => explore_words(),
            Subcommand::Threads => threads_words(),
            Subcommand::History => history_words(),
            Subcommand::Step => step_words(),
            Subcommand::Task => task_words(),
            Subcommand::Judge => judge_words(),
            Subcommand::Recovery => recovery_words(),
        }
    }

    // What stands behind them.
    fn place(self) -> Place {
        match self {
            Subcommand::Step => STEP_PLACE,
            Subcommand::Task => TASK_OF,
            Subcommand::Recovery => SEGMENTS,
            _ => Place::INPUT,
        }
    }

    // Its command line.
    fn to_command<'a>(self, alloc: Global) -> Result<Command<'a>, AllocError> {
        let args = args_of(alloc, self.words(), &self.place())?;
        Command::new(alloc, self.name())
            .about(self.about())
            .after_help(self.help())
            .args(args)
    }
}

// The command lines of all subcommands.
fn subcommands<'a>(alloc: Global) -> Result<Vec<Command<'a>>, AllocError> {
    let mut commands = Vec::new(alloc);
    for subcommand in Subcommand::ALL {
        commands.push(subcommand.to_command(alloc)?)?;
    }
    Ok(commands)
}

/// The program's command line.
pub fn command_line<'a>(alloc: Global) -> Result<Command<'a>, AllocError> {
    let subcommands = subcommands(alloc)?;
    Command::new(alloc, "mrsim")
        .version(VERSION)
        .about(ABOUT)
        .after_help(STATUSES)
        .subcommand_required(true)
        .subcommands(subcommands)
}
