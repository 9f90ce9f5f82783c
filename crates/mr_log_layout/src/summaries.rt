//! Summaries of the log: the texts of many entries in one file, so that whoever reads the log opens
//! few names.
ghost use Rattle.std.specs.Prelude.{◌≡◌, ◌≢◌, ◌++◌, ◌∷◌, [], ℕ, List, All, length, IfOk, IfSome, IfNone, OnOk, MatchOption, Some};
ghost use Rattle.std.specs.List.{AllByRecursion};
ghost use Rattle.std.specs.String.{string_bytes};
ghost use Rattle.mr_log_entries.specs.declared.entry.Entry.{Entry};
ghost use Rattle.mr_log_entries.specs.Texts.{entry_text, IsEntryOf};
ghost use Rattle.mr_log_layout.specs.Summaries.{summary_text};

use mr_ids::JobId;
use mr_log_entries::{Entries, Entry};
use std::alloc::{AllocError, Global};

/// How many entries a summary has.
pub const SUMMARY_LEN: usize = 256;

/// How many entries a summary of the second level has.
pub const LONG_SUMMARY_LEN: usize = 65536;

/// The text of a summary of these entries.
pub fn summary(alloc: Global, entries: &[Entry]) -> Result<String, AllocError>
    ensures { IfOk result (λ text. string_bytes text ≡ summary_text entries.now) }
{
    let mut out = String::new(alloc);
    for entry in entries {
        push_entry(&mut out, entry)?;
    }
    Ok(out)
}

fn push_entry(out: &mut String, entry: &Entry) -> Result<(), AllocError>
    ensures { OnOk result (string_bytes out.new ≡ string_bytes out.old ++ (entry_text entry.now ++ 10 ∷ [])) }
{
    entry.append_to(out)?;
    out.push('\n')
}

/// The entries of this job's log whose summary the text is, if it is one of so many. A text that is
/// torn, or longer, is none.
pub fn read_summary(
    alloc: Global,
    job: JobId,
    count: usize,
    text: &[u8],
) -> Result<Option<Entries>, AllocError>
    // What is read has this text.
    ensures found { IfOk result (λ told. IfSome told (λ es. AllByRecursion (IsEntryOf job) es × (length es ≡ count) × (text.now ≡ summary_text es))) }
    // What has this text is read, unless memory runs out.
    ensures only { (es : List Entry) → AllByRecursion (IsEntryOf job) es → length es ≡ count → text.now ≡ summary_text es → IfOk result (λ told. told ≡ Some es) }
{
    let Some((entries, rest)) = entries_in(alloc, &job, text)? else {
        return Ok(None);
    };
    if entries.as_slice().len() == count && rest.is_empty() {
        Ok(Some(entries))
    } else {
        Ok(None)
    }
}

// The entries that end with line feeds, and the bytes after the last one.
fn entries_in<'t>(
    alloc: Global,
    job: &JobId,
    text: &'t [u8],
) -> Result<Option<(Entries, &'t [u8])>, AllocError>
    ensures found { IfOk result (λ told. IfSome told (λ p. AllByRecursion (IsEntryOf job.now) p.0 × (text.now ≡ summary_text p.0 ++ p.1.now))) }
    ensures only { (es : List Entry) → AllByRecursion (IsEntryOf job.now) es → text.now ≡ summary_text es
        → IfOk result (λ told. MatchOption told ⊥ (λ p. (p.0 ≡ es) × (p.1.now ≡ []))) }
{
    let mut entries = Entries::new(alloc);
    let mut rest = text;
    while let Some((own, after)) = cut(rest) {
        let Some(entry) = Entry::read(alloc, *job, own)? else {
            return Ok(None);
        };
        entries.push(entry)?;
        rest = after;
    }
    Ok(Some((entries, rest)))
}

// The bytes before the first line feed, and those after it.
fn cut(text: &[u8]) -> Option<(&[u8], &[u8])>
    ensures some { IfSome result (λ p. All (λ b. b ≢ 10) p.0.now × (text.now ≡ p.0.now ++ 10 ∷ p.1.now)) }
    ensures none { IfNone result (All (λ b. b ≢ 10) text.now) }
{
    let at = text.iter().position(|b| *b == b'\n')?;
    Some((&text[..at], &text[at + 1..]))
}
