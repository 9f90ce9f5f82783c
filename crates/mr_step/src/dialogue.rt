//! An operation over a pipe: its next call goes out as a line, the store's answer comes in as a line.
ghost use Rattle.std.specs.Prelude.{◌≡◌, ◌++◌, ◌∷◌, IfOk, OnOk, IfSome, List, ℕ, None, Some};
ghost use Rattle.std.specs.Io.KnownBytes.{Appends};
ghost use Rattle.std.specs.List.{flat_map};
ghost use Rattle.mr_commit.specs.Recovery.{next_of};
ghost use Rattle.mr_call_words.specs.Words.{word};
ghost use Rattle.mr_pipe.specs.Stream.{lines_in};
ghost use Rattle.mr_pipe_json.specs.Form.{told_as};
ghost use Rattle.mr_step.specs.Talk.{Begins, Follows, HearsLine, ReadsTold, Says, Takes, Talks, asks, commit_fault_words, no_answer, refusal};
ghost use Rattle.mr_step.specs.Talk.Next.{GoesOn};
ghost use Rattle.mr_step.specs.inner.Said.{Leads, next_at};

use crate::ending::Ending;
use crate::wish::Moves;
use itoa::Buffer;
use mr_call_words::{answer_in, put_call, put_fault, put_first, put_next};
use mr_commit::{CommitFault, StepDone};
use mr_names::{Answer, NameFault, Op};
use mr_pipe::{Form, PipeFault, next_line, send};
use mr_pipe_json::{Key, said_as, told_as};
use std::alloc::{AllocError, Global};
use std::io::{BufRead, Write};

/// Makes an operation over a pipe: writes its next call as a line, reads the store's answer as a line, and so on, each line flushed before
/// the next one is read. In the end it writes `finished`, or `fault` and the fault's words. A line that is no answer changes nothing: it is told by
/// its number (`no answer 3`), and the next line is read. Each line has the form that is asked for, both ways.
///
/// `Cut`: the input ended before the operation did. `Read`: a read failed. `Write`: a write or a flush failed. `NoMemory`: memory was refused, here or, by the
/// answer `NoMemory`, in the store. After a fault what was written is a front of what would have been.
pub fn talk<R: BufRead, W: Write>(
    alloc: Global,
    form: Form,
    moves: &mut Moves,
    reader: &mut R,
    writer: &mut W,
) -> Result<Ending, PipeFault>
    ensures { IfOk result (λ ending. IfSome (R.remaining reader.old) (λ input. (said : List ℕ)
        × Appends (W.contents writer.old) (W.contents writer.new) said × Says form moves.old (lines_in input) said ending)) }
{
    match ask_first(alloc, form, moves, writer)? {
        Some(ending) => Ok(ending),
        None => go_on(alloc, form, moves, reader, writer),
    }
}

// The first call is sent; or how the operation ended at once.
fn ask_first<W: Write>(
    alloc: Global,
    form: Form,
    moves: &mut Moves,
    writer: &mut W,
) -> Result<Option<Ending>, PipeFault>
    ensures { IfOk result (λ ending. (said : List ℕ)
        × Appends (W.contents writer.old) (W.contents writer.new) said × Begins form moves.old said (next_at ending moves.new)) }
{
    let reply = begin(alloc, form, moves)?;
    send(writer, &reply.text)?;
    Ok(reply.ending)
}

// From the first answer on.
#[tactic(auto, using(crate::proofs::Talking::kept_first, crate::proofs::Talking::kept_more, crate::proofs::Talking::kept_end))]
fn go_on<R: BufRead, W: Write>(
    alloc: Global,
    form: Form,
    moves: &mut Moves,
    reader: &mut R,
    writer: &mut W,
) -> Result<Ending, PipeFault>
    ensures { IfOk result (λ ending. IfSome (R.remaining reader.old) (λ input. (said : List ℕ)
        × Appends (W.contents writer.old) (W.contents writer.new) said × Talks form (GoesOn moves.old) 1 (lines_in input) said ending)) }
{
    for number in 1..u64::MAX {
        if let Some(ending) = turn(alloc, form, moves, number, reader, writer)? {
            return Ok(ending);
        }
    }
    Err(PipeFault::Read)
}

// A line is read and heard, and what follows is sent.
#[tactic(auto, using(crate::proofs::Talking::cut_leads, crate::proofs::Talking::turn_leads))]
fn turn<R: BufRead, W: Write>(
    alloc: Global,
    form: Form,
    moves: &mut Moves,
    number: u64,
    reader: &mut R,
    writer: &mut W,
) -> Result<Option<Ending>, PipeFault>
    ensures { IfOk result (λ ending. Leads form ending moves.old moves.new number (R.remaining reader.old) (R.remaining reader.new) (W.contents writer.old) (W.contents writer.new)) }
{
    let mut line = Vec::new(alloc);
    if !next_line(reader, &mut line)? {
        return Ok(Some(Ending::Cut));
    }
    let reply = hear(alloc, form, moves, number, &line)?;
    send(writer, &reply.text)?;
    Ok(reply.ending)
}

// What is said, and how the operation ended, if it has.
#[derive(Drop)]
struct Reply {
    text: Vec<u8>,
    ending: Option<Ending>,
}

// The first call; where there is none the operation is refused at once.
fn begin(alloc: Global, form: Form, moves: &mut Moves) -> Result<Reply, PipeFault>
    ensures { IfOk result (λ reply. Begins form moves.old reply.text.items (next_at reply.ending moves.new)) }
{
    match moves.call() {
        Some(call) => Ok(asking(alloc, form, call)?),
        None => take(alloc, form, moves, Ok(Answer::Done)),
    }
}

// Line n: it is an answer, or it is none.
#[tactic(auto, using(crate::proofs::Replies::is_answer, crate::proofs::Replies::is_none))]
fn hear(
    alloc: Global,
    form: Form,
    moves: &mut Moves,
    n: u64,
    line: &[u8],
) -> Result<Reply, PipeFault>
    ensures { IfOk result (λ reply. HearsLine form moves.old n line.now reply.text.items (next_at reply.ending moves.new)) }
{
    match heard(alloc, form, line)? {
        Some(answer) => take(alloc, form, moves, answer),
        None => Ok(Reply {
            text: no_answer(alloc, form, n)?,
            ending: None,
        }),
    }
}

// The answer of a line, if it is one's.
#[tactic(auto, using(crate::proofs::Replies::told, crate::proofs::Replies::nothing_told))]
fn heard(
    alloc: Global,
    form: Form,
    line: &[u8],
) -> Result<Option<Result<Answer, NameFault>>, AllocError>
    ensures { IfOk result (λ found. ReadsTold (told_as form Key.Answer line.now) found) }
{
    match told_as(alloc, form, Key::Answer, line)? {
        Some(line) => answer_in(alloc, &line),
        None => Ok(None),
    }
}

// An answer is heard.
#[tactic(auto, using(crate::proofs::Replies::taken))]
fn take(
    alloc: Global,
    form: Form,
    moves: &mut Moves,
    answer: Result<Answer, NameFault>,
) -> Result<Reply, PipeFault>
    ensures { IfOk result (λ reply. Takes form moves.old answer reply.text.items (next_at reply.ending moves.new)) }
{
    let done = moves.took(answer);
    follow(alloc, form, done, moves)
}

// What follows: the next call, or how it ended.
fn follow(
    alloc: Global,
    form: Form,
    done: Result<StepDone, CommitFault>,
    moves: &Moves,
) -> Result<Reply, PipeFault>
    ensures { IfOk result (λ reply. Follows form done moves.now reply.text.items (next_at reply.ending moves.now)) }
{
    match done {
        Ok(StepDone::More) => Ok(asking_next(alloc, form, moves)?),
        Ok(StepDone::Finished) => Ok(Reply {
            text: said_as(alloc, form, Key::End, b"finished")?,
            ending: Some(Ending::Finished),
        }),
        Err(CommitFault::NoMemory) => Err(PipeFault::NoMemory),
        Err(fault) => Ok(Reply {
            text: refusal(alloc, form, fault)?,
            ending: Some(Ending::Refused(fault)),
        }),
    }
}

// The next call is asked for, if there is one.
fn asking_next(alloc: Global, form: Form, moves: &Moves) -> Result<Reply, AllocError>
    ensures text { IfOk result (λ reply. reply.text.items ≡ asks form (next_of moves.now)) }
    ensures on { IfOk result (λ reply. reply.ending ≡ None) }
{
    match moves.call() {
        Some(call) => asking(alloc, form, call),
        None => Ok(Reply {
            text: Vec::new(alloc),
            ending: None,
        }),
    }
}

// A call is asked for.
fn asking(alloc: Global, form: Form, call: &Op) -> Result<Reply, AllocError>
    ensures text { IfOk result (λ reply. reply.text.items ≡ asks form (Some call.now)) }
    ensures on { IfOk result (λ reply. reply.ending ≡ None) }
{
    let mut line = Vec::new(alloc);
    put_call(&mut line, call)?;
    Ok(Reply {
        text: said_as(alloc, form, Key::Call, &line)?,
        ending: None,
    })
}

// That line n is no answer.
fn no_answer(alloc: Global, form: Form, n: u64) -> Result<Vec<u8>, AllocError>
    ensures { IfOk result (λ text. text.items ≡ no_answer form n) }
{
    let mut buffer = Buffer::new();
    let mut line = Vec::from_slice(alloc, b"no answer ")?;
    line.extend_from_slice(buffer.format(n).as_bytes())?;
    said_as(alloc, form, Key::Error, &line)
}

// Why it was refused.
fn refusal(alloc: Global, form: Form, fault: CommitFault) -> Result<Vec<u8>, AllocError>
    ensures { IfOk result (λ text. text.items ≡ refusal form fault) }
{
    let mut line = Vec::new(alloc);
    put_first(&mut line, b"fault")?;
    put_fault_words(&mut line, fault)?;
    said_as(alloc, form, Key::End, &line)
}

// The words of a fault, each behind a space.
fn put_fault_words(out: &mut Vec<u8>, fault: CommitFault) -> Result<(), AllocError>
    ensures { OnOk result (out.new.items ≡ out.old.items ++ flat_map (λ bytes. 32 ∷ word bytes) (commit_fault_words fault)) }
{
    match fault {
        CommitFault::Names(fault) => {
            out.extend_from_slice(b" ")?;
            put_fault(out, fault)
        }
        CommitFault::OutputMissing => put_next(out, b"OutputMissing"),
        CommitFault::WrongLength => put_next(out, b"WrongLength"),
        CommitFault::DestinationExists => put_next(out, b"DestinationExists"),
        CommitFault::WrongAnswer => put_next(out, b"WrongAnswer"),
        CommitFault::Over => put_next(out, b"Over"),
        CommitFault::NoMemory => put_next(out, b"NoMemory"),
    }
}
