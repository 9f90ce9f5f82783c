//! The subcommand `committer`: the committer's calls.
use crate::names::{JSON, TRACE};
use crate::table::Word;

/// What `committer` does, in a line.
pub const COMMITTER: &str =
    "Runs a script of committer calls and lists the directory that they leave";

/// What the help of `committer` says behind its words.
pub const COMMITTER_HELP: &str = "\
Reads a script from standard input, one command a line:
  as K            the generation K of the master makes the calls from here on (1 at first)
  raise K         raises the fence to K: calls of older generations are refused
  check           refuses a destination that exists
  setup           sets the job up
  write A TEXT    the reduce attempt A writes TEXT and a line feed as its part file
  needs A         tells whether the attempt A has output to be committed
  commit A        commits the attempt A as its task's output
  abort A         deletes what the attempt A wrote
  recover T [B]   takes over what the newest earlier generation committed of the task T, if its part file has B bytes
  commitjob       commits the job: publishes what was committed, and the marker _SUCCESS
  abortjob        deletes what is temporary
  bar A           bars the attempt A: from here on each call made for it is refused
  by A, by none   the calls from here on are made for the attempt A, or for none (at first none)
  # ..            is a comment
Writes a line for each refused command and each `needs`, and then each path with its length.

Example:
  setup
  write attempt_200707121733_0003_r_000000_0 hello
  commit attempt_200707121733_0003_r_000000_0
  commitjob
prints
  out/
  out/_SUCCESS 0
  out/part-r-00000 6
and with --trace, as its first call behind the comment of its line, which `judge` reads too:
  # line 1: setup
  1 none mkdirs /out/_temporary/1: done";

const CALLS: &str =
    "Prints each call of the store with its answer, as `judge` reads them, in place of the rest";

const CALLS_JSON: &str =
    "Prints each call of the store with its answer as a line of JSON, in place of the rest";

const WORDS: &[Word] = &[
    Word {
        name: JSON,
        help: CALLS_JSON,
        rules_out: &[TRACE],
        ..Word::FLAG
    },
    Word {
        name: TRACE,
        help: CALLS,
        ..Word::FLAG
    },
];

/// The words of `committer`.
pub fn committer_words() -> &'static [Word] {
    WORDS
}
