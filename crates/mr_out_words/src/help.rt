//! What help says of each command.

const BEGIN: &str = "Makes DIR, the output directory of a job of N tasks";

const ATTEMPT: &str =
    "Begins an attempt: prints its task, its name, and the path of the file that it is to write";

const DONE: &str = "The attempt has written and closed its file: prints `won`, or `lost` and why";

const FAIL: &str = "The attempt failed, or is given up";

const PUBLISH: &str = "Publishes what `begin --hold` holds back, if each task is won";

const ABORT: &str = "Ends the job as failed";

const RESUME: &str =
    "Finishes what a killed command left; status 0 says that it did, and `mrout check` whether DIR is published";

const FORGET: &str = "Removes what mrout keeps in a published DIR";

const STATUS: &str = "Tells how the job stands; changes nothing";

const BEGIN_ENDS: &str = "\
Prints nothing. Status 3: DIR is there already; with --again only where it has a job of other words.

Example:
  mrout begin out --tasks 8 --again";

const ATTEMPT_ENDS: &str = "\
Prints `TASK ATTEMPT PATH`, with --all a line for each. Statuses:
  1   `none all-won`: there is nothing left to do
  6   `none over`: the job was ended as failed, for good
  75  `none busy`: each task that is left has an attempt under way

Example:
  mrout attempt out --task 3
prints
  3 attempt_1764309999000_0001_r_000003_0 /data/out/_mrout/work/attempt_1764309999000_0001_r_000003_0/part-r-00003";

const DONE_ENDS: &str = "\
Prints `won` (status 0); or `lost another`, `lost given-up` or `lost over` (status 1).
Said again it gives the same answer.";

const FAIL_ENDS: &str = "\
Prints nothing. Status 1, of an ATTEMPT alone: it has won, or is over.
An attempt that failed never wins, even where its process goes on.";

const PUBLISH_ENDS: &str = "Prints nothing. Status 1: not all tasks are won.";

const ABORT_ENDS: &str = "Prints nothing. Status 1: the job is published.";

const RESUME_ENDS: &str = "Prints nothing.";

const FORGET_ENDS: &str = "Prints nothing. Status 1: the job is not published.";

const STATUS_ENDS: &str = "\
Prints a line for each task, of a held job whether it is to be published, then whether the marker is there, and the outcome.";

/// What the command of this name does, in a line.
pub fn about<'a>(name: &str) -> &'a str {
    match name {
        "begin" => BEGIN,
        "attempt" => ATTEMPT,
        "done" => DONE,
        "fail" => FAIL,
        "publish" => PUBLISH,
        "abort" => ABORT,
        "resume" => RESUME,
        "forget" => FORGET,
        _ => STATUS,
    }
}

/// What it prints, and its statuses beside those of each command.
pub fn ends<'a>(name: &str) -> &'a str {
    match name {
        "begin" => BEGIN_ENDS,
        "attempt" => ATTEMPT_ENDS,
        "done" => DONE_ENDS,
        "fail" => FAIL_ENDS,
        "publish" => PUBLISH_ENDS,
        "abort" => ABORT_ENDS,
        "resume" => RESUME_ENDS,
        "forget" => FORGET_ENDS,
        _ => STATUS_ENDS,
    }
}

/// What a command's place `name` is.
pub fn place_help<'a>(name: &str) -> &'a str {
    match name {
        "ATTEMPT" => "The attempt, by the name that `mrout attempt` printed",
        _ => "The output directory of the job",
    }
}
