//! How what the store sees of a command is written.
ghost use Rattle.std.specs.Prelude.{◌≡◌, ◌++◌, ◌∷◌, [], IfOk, OnOk, codes, decimal};
ghost use Rattle.std.specs.List.{flat_map};
ghost use Rattle.serde_json.specs.Data.{put as with_member};
ghost use Rattle.serde_json.specs.View.{members_view, view};
ghost use Rattle.mr_script.specs.Words.{with_word};
ghost use Rattle.mr_sim_json.specs.Members.{count, line_of, text, with_all};
ghost use Rattle.mr_call_words.specs.Words.{call_line};
ghost use Rattle.mr_judge.specs.Trace.{told_line, who_word};
ghost use Rattle.mr_commit_trace.specs.Shown.{command_json, command_shown, command_text, name_of, told_members, told_object, told_text, who_members};

use itoa::Buffer;
use mr_call_words::put_call;
use mr_ids::{AppAttempt, AttemptId, Bytes};
use mr_judge::Told;
use mr_names::{Caller, Op};
use mr_pipe::Form;
use mr_sim_commands::ScriptCommand;
use mr_sim_json::{Object, into_value, put_count, put_line, put_text};
use serde_json::Value;
use std::alloc::{AllocError, Global};

/// What the store sees of the command of a line, in this form.
pub(crate) fn put_seen(
    out: &mut Vec<u8>,
    alloc: Global,
    form: Form,
    line: usize,
    command: &ScriptCommand,
    told: &[Told],
) -> Result<(), AllocError>
    ensures { OnOk result (out.new.items ≡ out.old.items ++ command_shown form ((line, command.now), told.now)) }
{
    match form {
        Form::Text => put_command(out, line, command, told),
        Form::Json => put_objects(out, alloc, line, command, told),
    }
}

// The word of a command.
fn name_of(command: &ScriptCommand) -> &'static str
    ensures { result.now ≡ name_of command.now }
{
    match command {
        ScriptCommand::As(_) => "as",
        ScriptCommand::Raise(_) => "raise",
        ScriptCommand::Check => "check",
        ScriptCommand::Setup => "setup",
        ScriptCommand::Write(_, _) => "write",
        ScriptCommand::Needs(_) => "needs",
        ScriptCommand::Commit(_) => "commit",
        ScriptCommand::Abort(_) => "abort",
        ScriptCommand::Recover(_, _) => "recover",
        ScriptCommand::CommitJob => "commitjob",
        ScriptCommand::AbortJob => "abortjob",
        ScriptCommand::Bar(_) => "bar",
        ScriptCommand::By(_) => "by",
    }
}

// ---- as text

// A comment with the line and the word of a command, and then its calls.
fn put_command(
    out: &mut Vec<u8>,
    line: usize,
    command: &ScriptCommand,
    told: &[Told],
) -> Result<(), AllocError>
    ensures { OnOk result (out.new.items ≡ out.old.items ++ command_text ((line, command.now), told.now)) }
{
    let mut buffer = Buffer::new();
    out.extend_from_slice(b"# line ")?;
    out.extend_from_slice(buffer.format(line).as_bytes())?;
    out.extend_from_slice(b": ")?;
    out.extend_from_slice(name_of(command).as_bytes())?;
    out.extend_from_slice(b"\n")?;
    put_all(out, told)
}

// Each of these, a line each.
fn put_all(out: &mut Vec<u8>, told: &[Told]) -> Result<(), AllocError>
    ensures { OnOk result (out.new.items ≡ out.old.items ++ flat_map told_text told.now) }
{
    for one in told {
        put_told(out, one)?;
    }
    Ok(())
}

// The line of a call, or of a raised fence.
fn put_told(out: &mut Vec<u8>, told: &Told) -> Result<(), AllocError>
    ensures { OnOk result (out.new.items ≡ out.old.items ++ told_text told.now) }
{
    put_words(out, told)?;
    out.extend_from_slice(b"\n")
}

// The same, without its line feed.
fn put_words(out: &mut Vec<u8>, told: &Told) -> Result<(), AllocError>
    ensures { OnOk result (out.new.items ≡ out.old.items ++ told_line told.now) }
{
    match told {
        Told::Raised(k) => {
            out.extend_from_slice(b"raise ")?;
            put_generation(out, *k)
        }
        Told::Called {
            caller,
            call,
            answer,
        } => {
            put_caller(out, caller)?;
            put_call(out, call)?;
            out.extend_from_slice(b": ")?;
            out.extend_from_slice(answer.as_slice())
        }
    }
}

fn put_generation(out: &mut Vec<u8>, k: AppAttempt) -> Result<(), AllocError>
    ensures { OnOk result (out.new.items ≡ out.old.items ++ decimal k) }
{
    let mut buffer = Buffer::new();
    out.extend_from_slice(buffer.format(k.number()).as_bytes())
}

// Who makes a call, and a space.
fn put_caller(out: &mut Vec<u8>, caller: &Caller) -> Result<(), AllocError>
    ensures { OnOk result (out.new.items ≡ out.old.items ++ with_word (decimal caller.now.app) (with_word (who_word caller.now.attempt) [])) }
{
    put_generation(out, caller.app)?;
    out.extend_from_slice(b" ")?;
    put_who(out, &caller.attempt)?;
    out.extend_from_slice(b" ")
}

#[tactic(auto, unfolding(mr_script::specs::Words::attempt_word))]
fn put_who(out: &mut Vec<u8>, attempt: &Option<AttemptId>) -> Result<(), AllocError>
    ensures { OnOk result (out.new.items ≡ out.old.items ++ who_word attempt.now) }
{
    match attempt {
        Some(attempt) => attempt.write(out),
        None => out.extend_from_slice(b"none"),
    }
}

// ---- as JSON

// The object of each of these.
fn put_objects(
    out: &mut Vec<u8>,
    alloc: Global,
    line: usize,
    command: &ScriptCommand,
    told: &[Told],
) -> Result<(), AllocError>
    ensures { OnOk result (out.new.items ≡ out.old.items ++ command_json ((line, command.now), told.now)) }
{
    for one in told {
        put_object(out, alloc, line, command, one)?;
    }
    Ok(())
}

// The object of a call, as a line.
#[tactic(auto, using(crate::proofs::Objects::is_plain))]
fn put_object(
    out: &mut Vec<u8>,
    alloc: Global,
    line: usize,
    command: &ScriptCommand,
    told: &Told,
) -> Result<(), AllocError>
    ensures { OnOk result (out.new.items ≡ out.old.items ++ line_of (told_object (line, command.now) told.now)) }
{
    let value = value_of(alloc, line, command, told)?;
    put_line(out, alloc, &value)
}

fn value_of(
    alloc: Global,
    line: usize,
    command: &ScriptCommand,
    told: &Told,
) -> Result<Value, AllocError>
    ensures { IfOk result (λ value. view value ≡ told_object (line, command.now) told.now) }
{
    let mut object = Object::new(alloc);
    put_count(&mut object, alloc, "line", line as u64)?;
    put_text(&mut object, alloc, "command", name_of(command).as_bytes())?;
    put_members(&mut object, alloc, told)?;
    Ok(into_value(object))
}

// What is told of a call, or of a raised fence.
fn put_members(object: &mut Object, alloc: Global, told: &Told) -> Result<(), AllocError>
    ensures { OnOk result (members_view object.new.entries ≡ with_all (told_members told.now) (members_view object.old.entries)) }
{
    match told {
        Told::Raised(k) => put_count(object, alloc, "fence", u64::from(k.number())),
        Told::Called {
            caller,
            call,
            answer,
        } => {
            put_app(object, alloc, caller.app)?;
            put_call_text(object, alloc, call)?;
            put_answer_text(object, alloc, answer)?;
            put_attempt(object, alloc, &caller.attempt)
        }
    }
}

fn put_app(object: &mut Object, alloc: Global, app: AppAttempt) -> Result<(), AllocError>
    ensures { OnOk result (members_view object.new.entries ≡ with_member (codes "generation") (count app) (members_view object.old.entries)) }
{
    put_count(object, alloc, "generation", u64::from(app.number()))
}

fn put_answer_text(object: &mut Object, alloc: Global, answer: &Bytes) -> Result<(), AllocError>
    ensures { OnOk result (members_view object.new.entries ≡ with_member (codes "answer") (text answer.now) (members_view object.old.entries)) }
{
    put_text(object, alloc, "answer", answer.as_slice())
}

fn put_call_text(object: &mut Object, alloc: Global, call: &Op) -> Result<(), AllocError>
    ensures { OnOk result (members_view object.new.entries ≡ with_member (codes "call") (text (call_line call.now)) (members_view object.old.entries)) }
{
    let mut words = Vec::new(alloc);
    put_call(&mut words, call)?;
    put_text(object, alloc, "call", &words)
}

#[tactic(auto, unfolding(mr_script::specs::Words::attempt_word))]
fn put_attempt(
    object: &mut Object,
    alloc: Global,
    attempt: &Option<AttemptId>,
) -> Result<(), AllocError>
    ensures { OnOk result (members_view object.new.entries ≡ with_all (who_members attempt.now) (members_view object.old.entries)) }
{
    match attempt {
        Some(attempt) => {
            let mut word = Vec::new(alloc);
            attempt.write(&mut word)?;
            put_text(object, alloc, "attempt", &word)
        }
        None => Ok(()),
    }
}
