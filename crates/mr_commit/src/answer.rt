//! What an answer of the namespace tells to a line of a committer's table.
ghost use Rattle.std.specs.Prelude.{◌≡◌};
ghost use Rattle.mr_commit.specs.Line.{is_answer_to, found, listed, bytes_read};

use mr_names::{Answer, Entry, Kind, Op};

/// Whether an answer is one of a call.
pub fn is_answer_to(op: &Op, answer: &Answer) -> bool
    ensures { result ≡ is_answer_to op.now answer.now }
{
    match op {
        Op::List(_path) => matches!(answer, Answer::Listed(_entries)),
        Op::Exists(_path) => matches!(answer, Answer::Found(_there)),
        Op::Read(_path) => matches!(answer, Answer::Contents(_bytes)),
        _ => matches!(answer, Answer::Done),
    }
}

/// What an answer says is there.
pub fn found(answer: &Answer) -> Option<Kind>
    ensures { result ≡ found answer.now }
{
    match answer {
        Answer::Found(there) => *there,
        _ => None,
    }
}

/// What an answer lists.
pub fn listed(answer: &Answer) -> &[Entry]
    ensures { result.now ≡ listed answer.now }
{
    match answer {
        Answer::Listed(entries) => entries.as_slice(),
        _ => &[],
    }
}

/// What an answer reads.
pub fn bytes_read(answer: &Answer) -> &[u8]
    ensures { result.now ≡ bytes_read answer.now }
{
    match answer {
        Answer::Contents(bytes) => bytes.as_slice(),
        _ => &[],
    }
}
