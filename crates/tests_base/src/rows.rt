//! Calls of a namespace, by their names or as values, each with its answer, in one row.

use crate::fixtures::path;
use mr_ids::AttemptId;
use mr_names::{Answer, Bytes, Caller, Entries, Kind, NameFault, Namespace, Op};
use std::alloc::Global;
use std::process::Abort;

/// A call of a namespace. It is made at the path with its row's first text.
#[derive(Clone, Copy)]
pub enum Call {
    Mkdirs,
    Create,
    CreateClosed,
    /// The second text is added.
    Append,
    Close,
    Delete,
    /// The second text is that of the new path.
    Rename,
    Exists,
    /// The second text is what is read.
    Read,
    /// The second text has the names that are listed, a slash behind each, and two behind a directory's.
    List,
    /// The first text is that of the attempt.
    Bar,
}

/// What a call is answered.
#[derive(Clone, Copy, PartialEq, Eq)]
pub enum Is {
    Done,
    /// Nothing is there.
    Free,
    File,
    Dir,
    /// What the second text says was read or listed.
    Told,
    /// The second generation has the fence.
    Late,
    Barred,
    Missing,
    Exists,
    NotDir,
    NotFile,
    Closed,
    NoParent,
    IntoItself,
    Full,
    /// Anything else. No row says so.
    Other,
}

/// A call with its texts and its answer.
pub type Row<'a> = (Call, &'a str, &'a str, Is);

/// The calls of the rows are made in turn by their names, and each answer is its row's.
pub fn hold(rt: &impl Abort, alloc: Global, names: &mut Namespace, caller: &Caller, rows: &[Row]) {
    for row in rows {
        let op = op(rt, alloc, row);
        let answer = by_name(names, caller, &op);
        drop(op);
        is_told(rt, alloc, answer, row);
    }
}

/// The calls of the rows are foreseen and made in turn as values, and each answer is its row's.
pub fn perform(
    rt: &impl Abort,
    alloc: Global,
    names: &mut Namespace,
    caller: &Caller,
    rows: &[Row],
) {
    for row in rows {
        let op = op(rt, alloc, row);
        let refusal = names.foresee(*caller, &op);
        let answer = names.perform(*caller, &op);
        drop(op);
        confirm!(rt; refusal == answer.as_ref().err().copied(), &(refusal, &answer));
        is_told(rt, alloc, answer, row);
    }
}

/// The call of a row as a value.
pub fn op(rt: &impl Abort, alloc: Global, (call, text, other, _): &Row) -> Op {
    if let Call::Bar = call {
        return Op::Bar(AttemptId::parse(text).expect(rt, text));
    }
    let path = path(rt, alloc, text);
    match call {
        Call::Mkdirs => Op::Mkdirs(path),
        Call::Create => Op::Create {
            path,
            closed: false,
        },
        Call::CreateClosed => Op::Create { path, closed: true },
        Call::Append => Op::Append {
            path,
            bytes: bytes(rt, alloc, other),
        },
        Call::Close => Op::Close(path),
        Call::Delete => Op::Delete(path),
        Call::Rename => Op::Rename {
            from: path,
            to: crate::fixtures::path(rt, alloc, other),
        },
        Call::Exists => Op::Exists(path),
        Call::Read => Op::Read(path),
        _ => Op::List(path),
    }
}

fn bytes(rt: &impl Abort, alloc: Global, text: &str) -> Bytes {
    Bytes::from_slice(alloc, text.as_bytes()).expect(rt, "no memory")
}

// The call is made by its name.
fn by_name(names: &mut Namespace, caller: &Caller, op: &Op) -> Result<Answer, NameFault> {
    match op {
        Op::Mkdirs(path) => done(names.mkdirs(*caller, path)),
        Op::Create { path, closed } => done(names.create(*caller, path, *closed)),
        Op::Append { path, bytes } => done(names.append(*caller, path, bytes.as_slice())),
        Op::Close(path) => done(names.close(*caller, path)),
        Op::Delete(path) => done(names.delete(*caller, path)),
        Op::Rename { from, to } => done(names.rename(*caller, from, to)),
        Op::Bar(attempt) => done(names.bar(*caller, *attempt)),
        Op::Exists(path) => Ok(Answer::Found(names.exists(*caller, path)?)),
        Op::Read(path) => Ok(Answer::Contents(names.read(*caller, path)?)),
        Op::List(path) => Ok(Answer::Listed(names.list(*caller, path)?)),
    }
}

fn done(answer: Result<(), NameFault>) -> Result<Answer, NameFault> {
    answer?;
    Ok(Answer::Done)
}

// The answer is the row's.
fn is_told(
    rt: &impl Abort,
    alloc: Global,
    answer: Result<Answer, NameFault>,
    (_, text, other, is): &Row,
) {
    let told = match &answer {
        Ok(answer) => told(rt, alloc, answer, other),
        Err(fault) => refused(*fault),
    };
    confirm!(rt; told == *is, &(text, &answer));
    drop(answer);
}

fn told(rt: &impl Abort, alloc: Global, answer: &Answer, other: &str) -> Is {
    let is_so = match answer {
        Answer::Done => return Is::Done,
        Answer::Found(None) => return Is::Free,
        Answer::Found(Some(Kind::File)) => return Is::File,
        Answer::Found(Some(Kind::Dir)) => return Is::Dir,
        Answer::Contents(bytes) => bytes.as_slice() == other.as_bytes(),
        Answer::Listed(entries) => lists(rt, alloc, entries, other),
    };
    if is_so { Is::Told } else { Is::Other }
}

// Whether a listing has these names: a slash behind each, and two behind a directory's.
fn lists(rt: &impl Abort, alloc: Global, entries: &Entries, want: &str) -> bool {
    let mut text = Vec::new(alloc);
    for entry in entries.as_slice() {
        text.extend_from_slice(entry.name.as_bytes())
            .expect(rt, "no memory");
        let end: &[u8] = match entry.kind {
            Kind::File => b"/",
            Kind::Dir => b"//",
        };
        text.extend_from_slice(end).expect(rt, "no memory");
    }
    text.as_slice() == want.as_bytes()
}

fn refused(fault: NameFault) -> Is {
    match fault {
        NameFault::Superseded(2) => Is::Late,
        NameFault::Barred => Is::Barred,
        NameFault::Missing => Is::Missing,
        NameFault::Exists => Is::Exists,
        NameFault::NotDir => Is::NotDir,
        NameFault::NotFile => Is::NotFile,
        NameFault::Closed => Is::Closed,
        NameFault::NoParent => Is::NoParent,
        NameFault::IntoItself => Is::IntoItself,
        NameFault::Full => Is::Full,
        _ => Is::Other,
    }
}
