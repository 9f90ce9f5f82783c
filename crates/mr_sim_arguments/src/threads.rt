//! The words of `threads`.
use crate::names::{DIAGRAM, FOLD, FROM, HISTORY_NAME, HOLD, JSON, ROWS, SCRIPT, TRACE, TURNS};
use crate::shown::{
    DRAWN, FIRST_DRAWN, FOLDED, FROM_BOUNDS, HISTORY_SHOWN, JSON_SHOWN, MOST_DRAWN, ROWS_BOUNDS,
    TRACE_SHOWN,
};
use crate::table::Word;
use clap::builder::ValueParser;

/// What `threads` does, in a line.
pub const THREADS: &str =
    "Runs a job by threads, with the faults that it plans, and prints its part files";

/// What the help of `threads` says behind its words.
pub const THREADS_HELP: &str = "\
Reads a job text (see `seq`) from standard input. There is a thread for each node, one for each master that the faults can
start, and one that starts masters and makes the faults. The faults are made in the order of their list, each as soon as there
are E events and those before it were made or dropped, before any other event. A fault that is not permitted then is dropped, and
so is one that did not come until the end.
Where the job succeeded, writes what `seq` writes. Else it ends with status 1, or 6 where a thread has made all its turns, or
no thread finds anything to do. What it shows of a run differs from one time to the next, as the run does.

  --trace     each event with the thread that made it, then what `play` writes of the run
  --history   what `play` writes of the run, then each master's history
  --diagram   a picture of the run, of its first 400 events or of those that --from and --rows tell (--fold: fewer rows)
  --json      lines of JSON: each event with the thread that made it, then what came of the run
  --script    the script by which `play` repeats the run, then what `play` writes of it, as comments
With these a run whose job failed is shown too, with status 0.

Examples:
  {\"id\":\"job_200707121733_0003\",\"job\":\"wordcount\",\"reduces\":1,\"splits\":[\"a b\",\"a\"],\"nodes\":2}
prints (with a tab between a word and its count)
  == part-r-00000 8
  a 2
  b 1
The same with \"faults\":[{\"after\":12,\"node\":0}] restarts node 0 behind 12 events, and prints the same. A file job.json that
has the job text on one line is run, and its run is repeated:
  mrsim threads --script job.json > script
  cat job.json script | mrsim play";

const TURNS_HELP: &str =
    "How many turns each thread has at most, 1 to 1000000000 (default: 100000, and 10 for each pair of a map and a reduce)";

const HOLD_HELP: &str =
    "Holds the first map's work until a second one has begun; it looks at most --turns times (for two splits or more, on two nodes or more)";

const SCRIPT_SHOWN: &str = "Prints the script by which `play` repeats the run";

const WORDS: &[Word] = &[
    Word {
        name: TURNS,
        help: TURNS_HELP,
        value_names: &["N"],
        bounds: ValueParser::Unsigned(1, 1_000_000_000),
        ..Word::TEXT
    },
    Word {
        name: HOLD,
        help: HOLD_HELP,
        ..Word::FLAG
    },
    Word {
        name: DIAGRAM,
        help: DRAWN,
        rules_out: &[HISTORY_NAME, TRACE, SCRIPT],
        ..Word::FLAG
    },
    Word {
        name: FOLD,
        help: FOLDED,
        rules_out: &[HISTORY_NAME, JSON, TRACE, SCRIPT],
        needs: &[DIAGRAM],
        ..Word::FLAG
    },
    Word {
        name: FROM,
        help: FIRST_DRAWN,
        value_names: &["N"],
        bounds: FROM_BOUNDS,
        rules_out: &[HISTORY_NAME, JSON, TRACE, SCRIPT],
        needs: &[DIAGRAM],
        ..Word::TEXT
    },
    Word {
        name: ROWS,
        help: MOST_DRAWN,
        value_names: &["N"],
        bounds: ROWS_BOUNDS,
        rules_out: &[HISTORY_NAME, JSON, TRACE, SCRIPT],
        needs: &[DIAGRAM],
        ..Word::TEXT
    },
    Word {
        name: SCRIPT,
        help: SCRIPT_SHOWN,
        rules_out: &[HISTORY_NAME, TRACE],
        ..Word::FLAG
    },
    Word {
        name: HISTORY_NAME,
        help: HISTORY_SHOWN,
        ..Word::FLAG
    },
    Word {
        name: JSON,
        help: JSON_SHOWN,
        rules_out: &[DIAGRAM, HISTORY_NAME, SCRIPT, TRACE],
        ..Word::FLAG
    },
    Word {
        name: TRACE,
        help: TRACE_SHOWN,
        ..Word::FLAG
    },
];

/// The words of `threads`.
pub fn threads_words() -> &'static [Word] {
    WORDS
}
