//! The entry that a text tells: the bytes are gone over once.
ghost use Rattle.std.specs.Prelude.{◌≡◌, ◌≢◌, ◌<◌, ◌≤◌, ◌^◌, ◌++◌, ◌∷◌, ◌⊎◌, ℕ, List, All, IfOk, IfSome, IfNone, IsTrue, MatchOption, Some, codes};
ghost use Rattle.std.specs.List.{AllByRecursion};
ghost use Rattle.mr_ids.specs.declared.id.JobId.{JobId};
ghost use Rattle.mr_ids.specs.Attempt.{Attempt};
ghost use Rattle.mr_log_entries.specs.declared.line.Line.{Line};
ghost use Rattle.mr_log_entries.specs.declared.line.Handed.{Handed};
ghost use Rattle.mr_log_entries.specs.declared.entry.Entry.{Entry};
ghost use Rattle.mr_log_entries.specs.declared.entry.Origin.{Origin};
ghost use Rattle.mr_log_entries.specs.Numerals.{number_text};
ghost use Rattle.mr_log_entries.specs.Texts.{attempt_name, handed_text, line_text, lines_text, origin_text, entry_text, IsAttemptOf, IsHanded, IsLineOf, IsOrigin, IsEntryOf};

use crate::entry::{Entry, Lines, Origin};
use crate::line::{Handed, Line};
use crate::numeral::number_in;
use mr_ids::{AttemptId, JobId, TaskId, TaskKind};
use std::alloc::{AllocError, Global};

impl Entry {
    /// The entry of this job's log that has this text, if one has. Any other bytes are no entry,
    /// another spelling of a number too.
    pub fn read(alloc: Global, job: JobId, text: &[u8]) -> Result<Option<Entry>, AllocError>
        // What is read has this text, and is of the job.
        ensures found { IfOk result (λ told. IfSome told (λ e. IsEntryOf job e × (text.now ≡ entry_text e))) }
        // What has this text is read, unless memory runs out.
        ensures only { (e : Entry) → IsEntryOf job e → text.now ≡ entry_text e → IfOk result (λ told. told ≡ Some e) }
    {
        let Some((lines, rest)) = lines_in(alloc, &job, text)? else {
            return Ok(None);
        };
        let Some(origin) = origin_in(rest) else {
            return Ok(None);
        };
        Ok(Some(Entry {
            lines: Lines::from_vec(lines),
            origin,
        }))
    }
}

// The lines that end with semicolons, and the bytes after the last one.
fn lines_in<'t>(
    alloc: Global,
    job: &JobId,
    text: &'t [u8],
) -> Result<Option<(Vec<Line>, &'t [u8])>, AllocError>
    ensures found { IfOk result (λ told. IfSome told (λ p. AllByRecursion (IsLineOf job.now) p.0.items × (text.now ≡ lines_text p.0.items ++ p.1.now))) }
    ensures only { (lines : List Line) (end : List ℕ) → AllByRecursion (IsLineOf job.now) lines → All (λ b. b ≢ 59) end → text.now ≡ lines_text lines ++ end
        → IfOk result (λ told. MatchOption told ⊥ (λ p. (p.0.items ≡ lines) × (p.1.now ≡ end))) }
{
    let mut lines = Vec::new(alloc);
    let mut rest = text;
    while let Some((own, after)) = cut(rest, b';') {
        let Some(line) = line_in(job, own) else {
            return Ok(None);
        };
        lines.push(line)?;
        rest = after;
    }
    Ok(Some((lines, rest)))
}

// The line that has this text.
fn line_in(job: &JobId, text: &[u8]) -> Option<Line>
    ensures found { IfSome result (λ line. IsLineOf job.now line × (text.now ≡ line_text line)) }
    ensures only { (line : Line) → IsLineOf job.now line → text.now ≡ line_text line → result ≡ Some line }
{
    if let Some(rest) = after(text, "started ") {
        started(job, rest)
    } else if let Some(rest) = after(text, "won ") {
        won(job, rest)
    } else if let Some(rest) = after(text, "failed ") {
        failed(job, rest)
    } else if let Some(rest) = after(text, "interrupted ") {
        interrupted(job, rest)
    } else {
        decided(text)
    }
}

#[tactic(auto, unfolding(crate::specs::Texts::line_text))]
fn started(job: &JobId, rest: &[u8]) -> Option<Line>
    ensures found { IfSome result (λ line. IsLineOf job.now line × (codes "started " ++ rest.now ≡ line_text line)) }
    ensures only { (a : Attempt) → IsAttemptOf job.now a → rest.now ≡ attempt_name a → result ≡ Some (Line.Started a) }
{
    Some(Line::Started(attempt_in(job, rest)?))
}

#[tactic(auto, unfolding(crate::specs::Texts::line_text))]
fn failed(job: &JobId, rest: &[u8]) -> Option<Line>
    ensures found { IfSome result (λ line. IsLineOf job.now line × (codes "failed " ++ rest.now ≡ line_text line)) }
    ensures only { (a : Attempt) → IsAttemptOf job.now a → rest.now ≡ attempt_name a → result ≡ Some (Line.Failed a) }
{
    Some(Line::Failed(attempt_in(job, rest)?))
}

#[tactic(auto, unfolding(crate::specs::Texts::line_text))]
fn interrupted(job: &JobId, rest: &[u8]) -> Option<Line>
    ensures found { IfSome result (λ line. IsLineOf job.now line × (codes "interrupted " ++ rest.now ≡ line_text line)) }
    ensures only { (a : Attempt) → IsAttemptOf job.now a → rest.now ≡ attempt_name a → result ≡ Some (Line.Interrupted a) }
{
    Some(Line::Interrupted(attempt_in(job, rest)?))
}

#[tactic(auto, unfolding(crate::specs::Texts::line_text))]
fn won(job: &JobId, rest: &[u8]) -> Option<Line>
    ensures found { IfSome result (λ line. IsLineOf job.now line × (codes "won " ++ rest.now ≡ line_text line)) }
    ensures only { (a : Attempt) (h : Handed) → IsAttemptOf job.now a → IsHanded h → rest.now ≡ attempt_name a ++ 32 ∷ handed_text h → result ≡ Some (Line.Won a h) }
{
    let (name, rest) = cut(rest, b' ')?;
    let attempt = attempt_in(job, name)?;
    let handed = handed_in(rest)?;
    Some(Line::Won { attempt, handed })
}

// A decision that names no attempt.
#[tactic(auto, unfolding(crate::specs::Texts::line_text))]
fn decided(text: &[u8]) -> Option<Line>
    ensures found { IfSome result (λ line. ((job : JobId) → IsLineOf job line) × (text.now ≡ line_text line)) }
    ensures unsuccessful { text.now ≡ codes "unsuccessful" → result ≡ Some Line.Unsuccessful }
    ensures publish { text.now ≡ codes "publish" → result ≡ Some Line.Publish }
    ensures published { text.now ≡ codes "published" → result ≡ Some Line.Published }
{
    if is_word(text, "unsuccessful") {
        Some(Line::Unsuccessful)
    } else if is_word(text, "publish") {
        Some(Line::Publish)
    } else if is_word(text, "published") {
        Some(Line::Published)
    } else {
        None
    }
}

// The attempt at a reduce of the job that has this name.
fn attempt_in(job: &JobId, name: &[u8]) -> Option<AttemptId>
    ensures found { IfSome result (λ a. IsAttemptOf job.now a × (name.now ≡ attempt_name a)) }
    ensures only { (a : Attempt) → IsAttemptOf job.now a → name.now ≡ attempt_name a → result ≡ Some a }
{
    let (task, rest) = number_before(name, 10, b'.')?;
    let number = number_in(rest, 10)?;
    attempt_of(job, task, number)
}

fn attempt_of(job: &JobId, task: u64, number: u64) -> Option<AttemptId>
    ensures found { IfSome result (λ a. IsAttemptOf job.now a × (a.task.number ≡ task) × (a.number ≡ number)) }
    ensures only { (a : Attempt) → IsAttemptOf job.now a → a.task.number ≡ task → a.number ≡ number → result ≡ Some a }
{
    if task > u32::MAX as u64 || number > u32::MAX as u64 {
        return None;
    }
    let task = TaskId {
        job: *job,
        kind: TaskKind::Reduce,
        number: task as u32,
    };
    AttemptId::new(task, number as u32)
}

fn handed_in(text: &[u8]) -> Option<Handed>
    ensures found { IfSome result (λ h. IsHanded h × (text.now ≡ handed_text h)) }
    ensures only { (h : Handed) → IsHanded h → text.now ≡ handed_text h → result ≡ Some h }
{
    let Some((bytes, rest)) = number_before(text, 64, b' ') else {
        return folder_in(text);
    };
    let inode = number_in(rest, 64)?;
    Some(Handed::File { inode, bytes })
}

fn folder_in(text: &[u8]) -> Option<Handed>
    ensures found { IfSome result (λ h. IsHanded h × (text.now ≡ handed_text h)) }
    ensures only { (n : ℕ) → n < 2 ^ 64 → text.now ≡ number_text 64 n → result ≡ Some (Handed.Folder n) }
{
    let bytes = number_in(text, 64)?;
    Some(Handed::Folder { bytes })
}

// Where the entry came from that ends so.
#[tactic(auto, unfolding(crate::specs::Texts::origin_text))]
fn origin_in(text: &[u8]) -> Option<Origin>
    ensures found { IfSome result (λ o. IsOrigin o × (text.now ≡ origin_text o)) }
    ensures only { (o : Origin) → IsOrigin o → text.now ≡ origin_text o → result ≡ Some o }
{
    let (boot, rest) = number_before(text, 64, b' ')?;
    let (time, rest) = number_before(rest, 64, b' ')?;
    let id = number_in(rest, 64)?;
    Some(Origin { boot, time, id })
}

// The number before the first of these bytes, which stands for no digit, and the bytes after it.
fn number_before(text: &[u8], base: u64, end: u8) -> Option<(u64, &[u8])>
    requires low { 2 ≤ base }
    requires high { base ≤ 64 }
    requires apart { end < 45 ⊎ end ≡ 46 }
    ensures found { IfSome result (λ p. (p.0 < 2 ^ 64) × (text.now ≡ number_text base p.0 ++ end ∷ p.1.now)) }
    ensures only { (n : ℕ) (rest : List ℕ) → n < 2 ^ 64 → text.now ≡ number_text base n ++ end ∷ rest → MatchOption result ⊥ (λ p. (p.0 ≡ n) × (p.1.now ≡ rest)) }
{
    let (digits, rest) = cut(text, end)?;
    Some((number_in(digits, base)?, rest))
}

// Whether the bytes are these.
fn is_word(text: &[u8], word: &str) -> bool
    ensures yes { IsTrue result → text.now ≡ word.now }
    ensures no { text.now ≡ word.now → IsTrue result }
{
    text == word.as_bytes()
}

// The bytes after these first ones.
fn after<'t>(text: &'t [u8], word: &str) -> Option<&'t [u8]>
    ensures { MatchOption result ((rest : List ℕ) → text.now ≢ word.now ++ rest) (λ x. text.now ≡ word.now ++ x.now) }
{
    text.strip_prefix(word.as_bytes())
}

// The bytes before the first of these bytes, and those after it.
fn cut(text: &[u8], at: u8) -> Option<(&[u8], &[u8])>
    ensures some { IfSome result (λ p. All (λ b. b ≢ at) p.0.now × (text.now ≡ p.0.now ++ at ∷ p.1.now)) }
    ensures none { IfNone result (All (λ b. b ≢ at) text.now) }
{
    let at = text.iter().position(|b| *b == at)?;
    Some((&text[..at], &text[at + 1..]))
}
