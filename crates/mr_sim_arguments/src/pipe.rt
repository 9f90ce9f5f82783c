//! The words of the subcommands that serve a program in another language: `step`, `task`, `judge` and `recovery`.
use crate::names::{
    COMMIT_FAIL, COMMIT_STARTED, COMMIT_SUCCESS, DEST, FILE, GENERATION, JSON, OPERATION, TASK_NAME,
};
use crate::table::{Place, Word};
use clap::builder::ValueParser;

/// What `step` does, in a line.
pub const STEP: &str =
    "Makes one operation of the output committer over a pipe: writes its next store call, reads the store's answer";

/// What the help of `step` says behind its words.
pub const STEP_HELP: &str = "\
Operations:
  setup-job               makes the job attempt path
  commit-task ATTEMPT     puts the attempt's output in the place of what its task had committed
  abort-task ATTEMPT      deletes the attempt's output
  commit-job              puts all committed output to the destination, and then the marker
  abort-job               deletes what was temporary
  recover-task TASK [N]   takes over what an earlier generation committed of the task; with N, its part file has to have N bytes
Writes the next store call as a line, reads the store's answer as a line from standard input, and so on. Ends with `finished`, or with
`fault` and why (status 1). A line that is no answer changes nothing, and is named, as `no answer 3`. Status 3: the input ended first.
The calls of commit-task and abort-task are the attempt's, those of the others the master's. `raise` and `bar` are calls of your own.

Calls: mkdirs PATH, create PATH closed, delete PATH, rename FROM TO, list PATH, exists PATH, read PATH.
Answers: done; entries NAME/ NAME ..; nothing, a directory, a file; bytes BYTES; or a refusal, as Missing. Behind `bytes` stands a blank,
of an empty file too.
A byte of a path, a name or of BYTES that is no letter or digit and none of -._~/ is written %XX.

Example: `printf 'done\\n' | mrsim step setup-job` prints
  mkdirs /out/_temporary/1
  finished
and `printf '{\"answer\":\"done\"}\\n' | mrsim step --json setup-job`
  {\"call\":\"mkdirs\",\"words\":[\"/out/_temporary/1\"]}
  {\"end\":\"finished\",\"words\":[]}";

/// What `task` does, in a line.
pub const TASK: &str =
    "Decides over a pipe which attempt of a task may commit, and which one wins: reads what happens to them, writes answers";

/// What the help of `task` says behind its words.
pub const TASK_HELP: &str = "\
Reads a line, writes its answer, and so on to the end of the input:
  launch              an attempt is launched             launched ATTEMPT, or refused WHY
  pending ATTEMPT     it is ready to commit, and asks    noted
  poll ATTEMPT        may it commit?                     yes, no
  done ATTEMPT        it committed                       wins, wins already, ignored
  recorded ATTEMPT    its success is on record           noted
  failed ATTEMPT      it failed                          noted
  ended ATTEMPT       its container ended                noted
  killed ATTEMPT      it was stopped                     noted
  lost ATTEMPT        its output is lost (of a map)      noted
Yes is for one attempt alone: of those that asked and are not over, the one that asked first. An attempt that the task never had
is `refused Unknown`. A line that is none of these changes nothing, and is named, as `no line 3`.

Example: `printf 'launch\\n' | mrsim task task_200707121733_0003_r_000000` prints
  launched attempt_200707121733_0003_r_000000_0
and `printf '{\"event\":\"launch\"}\\n' | mrsim task --json task_200707121733_0003_r_000000`
  {\"answer\":\"launched\",\"words\":[\"attempt_200707121733_0003_r_000000_0\"]}";

/// What `judge` does, in a line.
pub const JUDGE: &str = "Judges a store by the trace of its calls: shows the first wrong answer";

/// What the help of `judge` says behind its words.
pub const JUDGE_HELP: &str = "\
Reads a trace, one call a line, from an empty namespace on:
  GENERATION ATTEMPT CALL: ANSWER   the master of this generation had the call made for the attempt, or for none (`none`)
  raise GENERATION                  the fence is raised: calls of older generations are refused
  # ..                              is a comment
Calls and answers are those of `step`, and append PATH BYTES, close PATH, bar ATTEMPT. Writes `right`, or the first wrong answer:
its line, what was answered, and what should have been (status 1). Status 3: a line is none of these, or there are more than
16777216 bytes.

Example:
  1 none mkdirs /out: done
  1 none rename /out/a /b: done
prints
  line 2: answered done, expected Missing";

/// What `recovery` does, in a line.
pub const RECOVERY: &str =
    "Plans what a new master takes over from those before it, by the segments of their history";

/// What the help of `recovery` says behind its words.
pub const RECOVERY_HELP: &str = "\
Reads the segments (see `history`), the oldest first: each FILE, or standard input as one. Writes `resume`, and for each task that is
taken over a line `recover TASK ATTEMPT`, with the bytes of its part file where they are recorded: what `step recover-task` takes.
Status 3: a line is no record, an attempt is of an earlier generation than one before it, or a segment has more than 16777216 bytes.
Where a mark of the job's commit is there: `report succeeded`, or `report failed` (a job commit that began is not made again).
Without a mark `report failed` tells that a segment has a line `unsuccessful`: make `step abort-job` first, then report it.

Example:
  {\"attempt\":\"attempt_200707121733_0003_r_000000_0\",\"event\":\"reduce\"}
prints
  resume
  recover task_200707121733_0003_r_000000 attempt_200707121733_0003_r_000000_0";

const GENERATION_WORD: Word = Word {
    name: GENERATION,
    help: "The generation of the master, 1 to 1000 (default 1)",
    value_names: &["K"],
    bounds: ValueParser::Signed(1, 1000),
    ..Word::TEXT
};

const JSON_WORD: Word = Word {
    name: JSON,
    help: "Prints lines of JSON in place of the rest",
    ..Word::FLAG
};

// The same of a talk, where what is read has that form too.
const JSON_TALK: Word = Word {
    name: JSON,
    help: "Reads and prints an object of JSON a line: the first word at a key, the rest at \"words\"",
    ..Word::FLAG
};

const STEP_WORDS: &[Word] = &[
    Word {
        name: DEST,
        help: "The destination (default /out)",
        value_names: &["PATH"],
        ..Word::TEXT
    },
    GENERATION_WORD,
    JSON_TALK,
];

const TASK_WORDS: &[Word] = &[GENERATION_WORD, JSON_TALK];

const JUDGE_WORDS: &[Word] = &[JSON_WORD];

const RECOVERY_WORDS: &[Word] = &[
    Word {
        name: COMMIT_SUCCESS,
        help: "The mark COMMIT_SUCCESS is in the staging folder",
        ..Word::FLAG
    },
    Word {
        name: COMMIT_FAIL,
        help: "The mark COMMIT_FAIL is there",
        ..Word::FLAG
    },
    Word {
        name: COMMIT_STARTED,
        help: "The mark COMMIT_STARTED is there",
        ..Word::FLAG
    },
    JSON_WORD,
];

/// The words of `step`.
pub fn step_words() -> &'static [Word] {
    STEP_WORDS
}

/// The words of `task`.
pub fn task_words() -> &'static [Word] {
    TASK_WORDS
}

/// The words of `judge`.
pub fn judge_words() -> &'static [Word] {
    JUDGE_WORDS
}

/// The words of `recovery`.
pub fn recovery_words() -> &'static [Word] {
    RECOVERY_WORDS
}

/// What stands behind the words of `step`.
pub const STEP_PLACE: Place = Place {
    name: OPERATION,
    help: "The operation, and what it is of",
    is_required: true,
    is_many: true,
};

/// What stands behind the words of `task`.
pub const TASK_OF: Place = Place {
    name: TASK_NAME,
    help: "The task, as task_200707121733_0003_r_000000",
    is_required: true,
    is_many: false,
};

/// What stands behind the words of `recovery`.
pub const SEGMENTS: Place = Place {
    name: FILE,
    help: "The segments, the oldest first, in place of standard input; - is standard input",
    is_required: false,
    is_many: true,
};
