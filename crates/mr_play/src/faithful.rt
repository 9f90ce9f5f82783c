//! What a script hands in is what the job's definition gives. So the files that `play` prints behind `marker yes` are those that `seq` prints.
ghost use Rattle.std.specs.Prelude.{◌≡◌, IfErr, IfOk};
ghost use Rattle.std.specs.Cmp.Lexicographic.{slice_cmp};
ghost use Rattle.std.specs.Ordering.{nat_cmp};
ghost use Rattle.mr_user.specs.Codecs.{number_codec, position_codec, text_codec};
ghost use Rattle.mr_user.specs.Computation.{computation};
ghost use Rattle.mr_jobs.specs.LineIndex.{line_index};
ghost use Rattle.mr_jobs.specs.MaxByKey.{max_by_key};
ghost use Rattle.mr_jobs.specs.WordCount.{word_count};
ghost use Rattle.mr_world_files.specs.Jobs.{LawsOf};
ghost use Rattle.mr_sim_commands.specs.job.Text.{Fails, submission_of};
ghost use Rattle.mr_play.specs.Faithful.{MarkedShowsSeq, RefusedIsNeverMarked, ScriptsAreFaithful};
ghost use Rattle.mr_play.specs.Text.{job_line};

use mr_jobs::{LineIndex, MaxByKey, WordCount};
use mr_script::split_once;
use mr_sim_commands::{SimFault, read_job_text};
use mr_world_files::jobs_have_their_laws;
use std::alloc::Global;

/// The events of every script are faithful: whatever is handed in and taken is what the job's definition gives for that container's input.
pub fn scripts_are_faithful()
    ensures { ScriptsAreFaithful }
{}

/// **Where `play` prints `marker yes`, the files that it prints behind are those that `seq` prints for the same job
/// text**, whatever the script. A job text that `seq` refuses is never marked. The input is a job text, which is its
/// first line, and a script.
///
/// It reads the job text, and prints nothing. Its faults are those of reading it: the first bad key (`Job`), and `NoMemory`.
pub fn marked_files_are_those_of_seq(alloc: Global, input: &[u8]) -> Result<(), SimFault>
    ensures same { IfOk result (λ _. MarkedShowsSeq input.now) }
    ensures never { IfOk result (λ _. RefusedIsNeverMarked input.now) }
    ensures fault { IfErr result (λ e. Fails e (submission_of (job_line input.now))) }
{
    let submission = read_job_text(alloc, job_text(input))?;
    submission.splits.tell_bytes();
    known_laws();
    Ok(())
}

// The job text of an input, its first line.
fn job_text(input: &[u8]) -> &[u8]
    ensures { result.now ≡ job_line input.now }
{
    match split_once(input, b'\n') {
        Some((job, _script)) => job,
        None => input,
    }
}

// Tells a proof that each of the three jobs keeps the laws of a job. It does nothing.
fn known_laws()
    ensures word_count { LawsOf (computation (slice_cmp nat_cmp) text_codec number_codec word_count) }
    ensures max_by_key { LawsOf (computation (slice_cmp nat_cmp) text_codec number_codec max_by_key) }
    ensures line_index { LawsOf (computation (slice_cmp nat_cmp) text_codec position_codec line_index) }
{
    jobs_have_their_laws::<WordCount>();
    jobs_have_their_laws::<MaxByKey>();
    jobs_have_their_laws::<LineIndex>();
}
