//! How a job stands, by the records that are durable.
ghost use Rattle.std.specs.Prelude.{◌≡◌, ◌++◌, Bool, true, IfOk};
ghost use Rattle.std.specs.String.{string_bytes};
ghost use Rattle.mr_out_steps.specs.Standing.{task_of};
ghost use Rattle.std.specs.List.{filter};
ghost use Rattle.mr_out_machine.specs.Successes.{tells_success};
ghost use Rattle.mr_out_program.specs.Sayings.{yes_or_no, outcome_word};
ghost use Rattle.mr_out_program.specs.Asking.{to_give_up, won_line};
ghost use Rattle.mr_out_program.specs.inner.Running.{separator, with_more, with_running};
ghost use Rattle.mr_out_program.specs.Shown.{started_alive, running, attempt_word, running_text, state_word, unwon_line, IsTaskLine, AreTaskLines, hold_line, outcome_of, whole_object, whole_lines, whole_text, SyncsLast, IsShown};
ghost use Rattle.mr_out_files.specs.Made.{Keeps};
ghost use Rattle.mr_out_program.specs.Turns.{Reads, Syncs, OnlyAsks};

use crate::answering::Answered;
use mr_history::{Record, Records};
use mr_ids::{AttemptId, TaskId, TaskKind};
use mr_out_disk::{Answer, Call, Folder, Reply};
use mr_out_files::Directory;
use mr_out_layout::{DECISION, Fault, Job, MARKER, Why, kept_path, part_name};
use mr_out_machine::{first_alive, is_alive_at, is_over, successes, winner, winners};
use std::fs;

/// The records of the history, once they are durable.
#[tactic(auto, using(crate::proofs::Turning::reads_synced, crate::proofs::Turning::reads_failed))]
pub fn read_records(rt: &HostRuntime, directory: &mut Directory) -> Result<Records, Fault>
    ensures { Reads directory.old directory.new result }
{
    match directory.perform(rt, Call::ReadHistory) {
        Answer::Told(records) => synced(rt, directory, records),
        _ => Err(trouble(rt, directory)),
    }
}

#[tactic(auto, using(crate::proofs::Turning::syncs_failed))]
fn synced(rt: &HostRuntime, directory: &mut Directory, records: Records) -> Result<Records, Fault>
    ensures { Syncs records directory.old directory.new result }
{
    match directory.perform(rt, Call::SyncHistory) {
        Answer::Says(Reply::Done) => Ok(records),
        _ => Err(trouble(rt, directory)),
    }
}

fn trouble(rt: &HostRuntime, directory: &mut Directory) -> Fault
    ensures { Keeps directory.old directory.new }
{
    match directory.trouble() {
        Some(fault) => fault,
        None => Fault::refused(rt.alloc(), "_mrout", Why::Foreign),
    }
}

fn task_of(directory: &Directory, number: u32) -> TaskId
    ensures { result ≡ task_of directory.now.job.id number }
{
    TaskId {
        job: directory.job.id,
        kind: TaskKind::Reduce,
        number,
    }
}

/// The first attempt that is under way at a task that has no winner.
pub fn first_alive_of(directory: &Directory, records: &Records, task: u32) -> Option<AttemptId>
    ensures { result ≡ to_give_up records.now (task_of directory.now.job.id task) }
{
    let task = task_of(directory, task);
    let records = records.as_slice();
    if is_over(records) || winner(records, &task).is_some() {
        return None;
    }
    first_alive(records, &task)
}

fn has_marker(rt: &HostRuntime) -> bool {
    has_file(rt, MARKER)
}

fn has_file(rt: &HostRuntime, path: &str) -> bool {
    match fs::symlink_metadata(rt, path) {
        Ok(found) => found.is_file(),
        Err(_) => false,
    }
}

/// Tells how the job stands, by the records that are durable: a line a task, and the whole. The calls that are made read and
/// sync, and change nothing.
#[tactic(auto, using(crate::proofs::Turning::reads_asks, crate::proofs::Turning::asks_both, crate::proofs::Showing::shown))]
pub fn status(rt: &HostRuntime, directory: &mut Directory, json: bool) -> Result<Answered, Fault>
    ensures asks { OnlyAsks directory.old directory.new }
    ensures tells { IfOk result (IsShown json directory.old directory.new) }
{
    let records = read_records(rt, directory)?;
    let mut out = tasks_text(rt, directory, &records, json)?;
    put_whole(rt, &mut out, directory, &records, json)?;
    Ok(Answered::told(rt, out, 0))
}

// The lines of all tasks.
#[tactic(auto, using(crate::proofs::Showing::line_more))]
fn tasks_text(
    rt: &HostRuntime,
    directory: &Directory,
    records: &Records,
    json: bool,
) -> Result<String, Fault>
    ensures { IfOk result (λ text. AreTaskLines json directory.now.job records.now directory.now.job.tasks (string_bytes text)) }
{
    let successes = successes(rt.alloc(), records.as_slice())?;
    let mut out = String::new(rt.alloc());
    for number in 0..directory.job.tasks {
        let line = task_line(rt, directory, records, &successes, number, json)?;
        out.push_str(line.as_str())?;
    }
    Ok(out)
}

#[tactic(auto, using(crate::proofs::Showing::same_winner_by, crate::proofs::Showing::won_so, crate::proofs::Showing::unwon_so))]
fn task_line(
    rt: &HostRuntime,
    directory: &Directory,
    records: &Records,
    successes: &Records,
    number: u32,
    json: bool,
) -> Result<String, Fault>
    requires { successes.now ≡ filter tells_success records.now }
    ensures { IfOk result (λ line. IsTaskLine json directory.now.job records.now number (string_bytes line)) }
{
    let task = task_of(directory, number);
    match winner(successes.as_slice(), &task) {
        Some(a) => won_line(rt, number, a, len_of(rt, directory, a)?, json),
        None => unwon_of(rt, records, &task, json),
    }
}

fn won_line(
    rt: &HostRuntime,
    number: u32,
    a: AttemptId,
    bytes: u64,
    json: bool,
) -> Result<String, Fault>
    ensures { IfOk result (λ s. string_bytes s ≡ won_line json number a bytes) }
{
    if json {
        return Ok(format!(in rt.alloc();
            "{{\"task\":{number},\"state\":\"won\",\"attempt\":\"{a}\",\"bytes\":{bytes}}}\n"
        )?);
    }
    Ok(format!(in rt.alloc(); "{number} won {a} {bytes}\n")?)
}

// How many bytes a winner's file has: where it is visible, else where it is kept; 0 where it is at neither place.
fn len_of(rt: &HostRuntime, directory: &Directory, a: AttemptId) -> Result<u64, Fault> {
    let number = a.task().number;
    let kept = kept_path(rt.alloc(), a)?;
    if let Ok(found) = fs::symlink_metadata(rt, kept.as_str()) {
        return Ok(found.len());
    }
    let part = part_name(rt.alloc(), &directory.job, number)?;
    match fs::symlink_metadata(rt, part.as_str()) {
        Ok(found) => Ok(found.len()),
        Err(_) => Ok(0),
    }
}

// A task that nobody has won: who is under way.
fn unwon_of(rt: &HostRuntime, records: &Records, task: &TaskId, json: bool) -> Result<String, Fault>
    ensures { IfOk result (λ line. string_bytes line ≡ unwon_line json task.now.number (running_text json (running records.now task.now))) }
{
    let running = running_of(rt, records.as_slice(), task, json)?;
    unwon_line(rt, task.number, &running, json)
}

#[tactic(auto, unfolding(crate::specs::Shown::unwon_line))]
fn unwon_line(rt: &HostRuntime, number: u32, running: &str, json: bool) -> Result<String, Fault>
    ensures { IfOk result (λ line. string_bytes line ≡ unwon_line json number running.now) }
{
    if json {
        let state = state_word(running);
        return Ok(format!(in rt.alloc();
            "{{\"task\":{number},\"state\":\"{state}\",\"attempts\":[{running}]}}\n"
        )?);
    }
    if running.is_empty() {
        return Ok(format!(in rt.alloc(); "{number} waiting\n")?);
    }
    Ok(format!(in rt.alloc(); "{number} running {running}\n")?)
}

fn state_word(running: &str) -> &'static str
    ensures { result.now ≡ state_word running.now }
{
    if running.is_empty() {
        "waiting"
    } else {
        "running"
    }
}

// The attempts that are under way at a task, in a line.
#[tactic(auto, using(crate::proofs::Showing::one_running, crate::proofs::Showing::running_is))]
fn running_of(
    rt: &HostRuntime,
    records: &[Record],
    task: &TaskId,
    json: bool,
) -> Result<String, Fault>
    ensures { IfOk result (λ text. string_bytes text ≡ running_text json (running records.now task.now)) }
{
    let mut text = String::new(rt.alloc());
    if is_over(records) {
        return Ok(text);
    }
    for told in records {
        put_running(rt, &mut text, running_one(records, task, told), json)?;
    }
    Ok(text)
}

fn running_one(records: &[Record], task: &TaskId, told: &Record) -> Option<AttemptId>
    ensures { result ≡ started_alive records.now task.now told.now }
{
    match *told {
        Record::AttemptStarted { attempt, node: _ } if is_alive_at(records, task, told) => {
            Some(attempt)
        }
        _ => None,
    }
}

// Puts an attempt behind the others, if there is one.
fn put_running(
    rt: &HostRuntime,
    text: &mut String,
    running: Option<AttemptId>,
    json: bool,
) -> Result<(), Fault>
    ensures { IfOk result (λ done. string_bytes text.new ≡ with_running json (string_bytes text.old) running) }
{
    match running {
        Some(a) => put_one(rt, text, a, json),
        None => Ok(()),
    }
}

fn put_one(rt: &HostRuntime, text: &mut String, a: AttemptId, json: bool) -> Result<(), Fault>
    ensures { IfOk result (λ done. string_bytes text.new ≡ with_more json (string_bytes text.old) a) }
{
    let word = attempt_word(rt, a, json)?;
    if text.is_empty() {
        text.push_str(word.as_str())?;
        return Ok(());
    }
    text.push_str(separator(json))?;
    text.push_str(word.as_str())?;
    Ok(())
}

fn separator(json: bool) -> &'static str
    ensures { result.now ≡ separator json }
{
    if json { "," } else { " " }
}

fn attempt_word(rt: &HostRuntime, a: AttemptId, json: bool) -> Result<String, Fault>
    ensures { IfOk result (λ word. string_bytes word ≡ attempt_word json a) }
{
    if json {
        return Ok(format!(in rt.alloc(); "\"{a}\"")?);
    }
    Ok(format!(in rt.alloc(); "{a}")?)
}

#[tactic(auto, using(crate::proofs::Turning::asks_same))]
fn put_whole(
    rt: &HostRuntime,
    out: &mut String,
    directory: &mut Directory,
    records: &Records,
    json: bool,
) -> Result<(), Fault>
    ensures asks { OnlyAsks directory.old directory.new }
    ensures told { IfOk result (λ done. (marker : Bool) × (decided : Bool) × (decided ≡ true → SyncsLast directory.new) × (string_bytes out.new ≡ string_bytes out.old ++ whole_text json directory.old.job records.now marker decided)) }
{
    let marker = has_marker(rt);
    let decided = is_decided(rt, directory)?;
    let text = whole_text(rt, &directory.job, records, json, marker, decided)?;
    out.push_str(text.as_str())?;
    Ok(())
}

fn whole_text(
    rt: &HostRuntime,
    job: &Job,
    records: &Records,
    json: bool,
    marker: bool,
    decided: bool,
) -> Result<String, Fault>
    ensures { IfOk result (λ text. string_bytes text ≡ whole_text json job.now records.now marker decided) }
{
    let outcome = outcome_of(rt, job, records, marker)?;
    if json {
        return whole_object(rt, job, marker, decided, outcome);
    }
    whole_lines(rt, job.hold, marker, decided, outcome)
}

fn outcome_of(
    rt: &HostRuntime,
    job: &Job,
    records: &Records,
    marker: bool,
) -> Result<&'static str, Fault>
    ensures { IfOk result (λ word. word.now ≡ outcome_of job.now records.now marker) }
{
    let all = winners(rt.alloc(), job.id, records.as_slice(), job.tasks)?;
    Ok(outcome_word(is_over(records.as_slice()), all.is_some() && marker))
}

fn whole_object(
    rt: &HostRuntime,
    job: &Job,
    marker: bool,
    decided: bool,
    outcome: &str,
) -> Result<String, Fault>
    ensures { IfOk result (λ text. string_bytes text ≡ whole_object job.now marker decided outcome.now) }
{
    let (id, hold) = (job.id, job.hold);
    Ok(format!(in rt.alloc();
        "{{\"job\":\"{id}\",\"hold\":{hold},\"publish\":{decided},\"marker\":{marker},\"outcome\":\"{outcome}\"}}\n"
    )?)
}

fn whole_lines(
    rt: &HostRuntime,
    hold: bool,
    marker: bool,
    decided: bool,
    outcome: &str,
) -> Result<String, Fault>
    ensures { IfOk result (λ text. string_bytes text ≡ whole_lines hold marker decided outcome.now) }
{
    let hold = hold_line(rt, hold, decided)?;
    let marker = yes_or_no(marker);
    Ok(format!(in rt.alloc(); "{hold}marker {marker}\noutcome {outcome}\n")?)
}

// Of a job that is held, whether it was decided to publish it.
fn hold_line(rt: &HostRuntime, hold: bool, decided: bool) -> Result<String, Fault>
    ensures { IfOk result (λ text. string_bytes text ≡ hold_line hold decided) }
{
    if hold {
        let decided = yes_or_no(decided);
        return Ok(format!(in rt.alloc(); "publish {decided}\n")?);
    }
    Ok(String::new(rt.alloc()))
}

// Whether it was decided to publish, durably.
#[tactic(auto, using(crate::proofs::Turning::asks_none, crate::proofs::Turning::asks_folder, crate::proofs::Showing::synced_last))]
fn is_decided(rt: &HostRuntime, directory: &mut Directory) -> Result<bool, Fault>
    ensures asks { OnlyAsks directory.old directory.new }
    ensures durable { IfOk result (λ decided. decided ≡ true → SyncsLast directory.new) }
{
    if !has_file(rt, DECISION) {
        return Ok(false);
    }
    let answer = directory.perform(rt, Call::SyncFolder(Folder::Home));
    let decided = told_synced(rt, directory, &answer);
    drop(answer);
    decided
}

fn told_synced(rt: &HostRuntime, directory: &mut Directory, answer: &Answer) -> Result<bool, Fault>
    ensures same { Keeps directory.old directory.new }
    ensures done { IfOk result (λ synced. answer.now ≡ Answer.Says Reply.Done) }
{
    match answer {
        Answer::Says(Reply::Done) => Ok(true),
        _ => Err(trouble(rt, directory)),
    }
}

fn yes_or_no(is_so: bool) -> &'static str
    ensures { result.now ≡ yes_or_no is_so }
{
    if is_so { "yes" } else { "no" }
}

fn outcome_word(over: bool, published: bool) -> &'static str
    ensures { result.now ≡ outcome_word over published }
{
    if over {
        "failed"
    } else if published {
        "succeeded"
    } else {
        "none"
    }
}
