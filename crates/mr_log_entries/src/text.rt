//! The text of an entry, and how long it is.
ghost use Rattle.std.specs.Prelude.{◌≡◌, ◌≤◌, ◌<◌, ◌+◌, ◌++◌, ◌∷◌, [], length, IfOk, OnOk};
ghost use Rattle.std.specs.String.{string_bytes};
ghost use Rattle.mr_log_entries.specs.Texts.{attempt_name, handed_text, line_text, lines_text, origin_text, entry_text, IsLinkText};
ghost use Rattle.mr_log_entries.specs.Numerals.{number_text};

use crate::entry::{Entry, Origin};
use crate::line::{Handed, Line};
use crate::numeral::{number_len, push_number};
use mr_ids::AttemptId;
use std::alloc::{AllocError, Global};

/// Most bytes of the text of an entry that is put.
pub const MAX_TEXT_LEN: usize = 1000;

/// Most bytes that a line takes in an entry, the semicolon that ends it included.
pub const MAX_LINE_LEN: usize = 46;

/// Most bytes of the text of an origin.
pub const MAX_ORIGIN_LEN: usize = 35;

impl Entry {
    /// The text of the entry: what its link holds. It can be read back where its attempts are of
    /// the log's job.
    pub fn text(&self, alloc: Global) -> Result<String, AllocError>
        ensures text { IfOk result (λ text. string_bytes text ≡ entry_text self.now) }
        // It can be printed, and can name a link's target.
        ensures plain { IsLinkText (entry_text self.now) }
    {
        let mut out = String::new(alloc);
        self.append_to(&mut out)?;
        Ok(out)
    }

    /// Appends the text of the entry.
    pub fn append_to(&self, out: &mut String) -> Result<(), AllocError>
        ensures { OnOk result (string_bytes out.new ≡ string_bytes out.old ++ entry_text self.now) }
    {
        push_lines(out, self.lines.as_slice())?;
        push_origin(out, &self.origin)
    }
}

impl Line {
    /// How many bytes the line takes in an entry, the semicolon that ends it included.
    pub fn len(&self) -> usize
        ensures len { result ≡ length (line_text self.now) + 1 }
        ensures small { result ≤ 100 }
    {
        match *self {
            Line::Started(a) => 9 + attempt_len(a),
            Line::Won { attempt, handed } => 6 + attempt_len(attempt) + handed_len(handed),
            Line::Failed(a) => 8 + attempt_len(a),
            Line::Interrupted(a) => 13 + attempt_len(a),
            Line::Unsuccessful => 13,
            Line::Publish => 8,
            Line::Published => 10,
        }
    }
}

fn attempt_len(a: AttemptId) -> usize
    ensures len { result ≡ length (attempt_name a) }
    ensures small { result ≤ 41 }
{
    decimal_len(a.task().number as u64) + 1 + decimal_len(a.number() as u64)
}

fn handed_len(handed: Handed) -> usize
    ensures len { result ≡ length (handed_text handed) }
    ensures small { result ≤ 23 }
{
    match handed {
        Handed::File { inode, bytes } => plain_len(bytes) + 1 + plain_len(inode),
        Handed::Folder { bytes } => plain_len(bytes),
    }
}

// How many digits a number has in decimal.
fn decimal_len(n: u64) -> usize
    ensures len { result ≡ length (number_text 10 n) }
    ensures small { result ≤ 20 }
{
    number_len(10, n)
}

// How many digits a number has in base 64.
fn plain_len(n: u64) -> usize
    ensures len { result ≡ length (number_text 64 n) }
    ensures small { result ≤ 11 }
{
    number_len(64, n)
}

fn push_lines(out: &mut String, lines: &[Line]) -> Result<(), AllocError>
    ensures { OnOk result (string_bytes out.new ≡ string_bytes out.old ++ lines_text lines.now) }
{
    for line in lines {
        push_line(out, line)?;
    }
    Ok(())
}

fn push_line(out: &mut String, line: &Line) -> Result<(), AllocError>
    ensures { OnOk result (string_bytes out.new ≡ string_bytes out.old ++ (line_text line.now ++ 59 ∷ [])) }
{
    push_words(out, line)?;
    out.push(';')
}

#[tactic(auto, unfolding(crate::specs::Texts::line_text))]
fn push_words(out: &mut String, line: &Line) -> Result<(), AllocError>
    ensures { OnOk result (string_bytes out.new ≡ string_bytes out.old ++ line_text line.now) }
{
    match *line {
        Line::Started(a) => push_attempt(out, "started ", a),
        Line::Won { attempt, handed } => push_won(out, attempt, handed),
        Line::Failed(a) => push_attempt(out, "failed ", a),
        Line::Interrupted(a) => push_attempt(out, "interrupted ", a),
        Line::Unsuccessful => out.push_str("unsuccessful"),
        Line::Publish => out.push_str("publish"),
        Line::Published => out.push_str("published"),
    }
}

fn push_attempt(out: &mut String, word: &str, a: AttemptId) -> Result<(), AllocError>
    ensures { OnOk result (string_bytes out.new ≡ string_bytes out.old ++ (word.now ++ attempt_name a)) }
{
    out.push_str(word)?;
    push_pair(out, 10, a.task().number as u64, '.', a.number() as u64)
}

#[tactic(auto, unfolding(crate::specs::Texts::line_text))]
fn push_won(out: &mut String, attempt: AttemptId, handed: Handed) -> Result<(), AllocError>
    ensures { OnOk result (string_bytes out.new ≡ string_bytes out.old ++ line_text (Line.Won attempt handed)) }
{
    push_attempt(out, "won ", attempt)?;
    out.push(' ')?;
    push_handed(out, handed)
}

fn push_handed(out: &mut String, handed: Handed) -> Result<(), AllocError>
    ensures { OnOk result (string_bytes out.new ≡ string_bytes out.old ++ handed_text handed) }
{
    match handed {
        Handed::File { inode, bytes } => push_pair(out, 64, bytes, ' ', inode),
        Handed::Folder { bytes } => push_number(out, 64, bytes),
    }
}

#[tactic(auto, unfolding(crate::specs::Texts::origin_text))]
fn push_origin(out: &mut String, origin: &Origin) -> Result<(), AllocError>
    ensures { OnOk result (string_bytes out.new ≡ string_bytes out.old ++ origin_text origin.now) }
{
    push_number(out, 64, origin.boot)?;
    out.push(' ')?;
    push_pair(out, 64, origin.time, ' ', origin.id)
}

// Appends two numbers, and a character between them.
fn push_pair(
    out: &mut String,
    base: u64,
    first: u64,
    between: char,
    second: u64,
) -> Result<(), AllocError>
    requires low { 2 ≤ base }
    requires high { base ≤ 64 }
    requires ascii { between < 128 }
    ensures { OnOk result (string_bytes out.new ≡ string_bytes out.old ++ (number_text base first ++ between ∷ number_text base second)) }
{
    push_number(out, base, first)?;
    out.push(between)?;
    push_number(out, base, second)
}
