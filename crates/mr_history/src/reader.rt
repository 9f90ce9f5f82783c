//! The reader of a record's line: it goes over the bytes once, and takes no memory.
ghost use Rattle.std.specs.Prelude.{◌≡◌, ◌≢◌, ◌<◌, ◌^◌, ◌++◌, ◌∷◌, ℕ, List, All, IfSome, IfNone, IsTrue, MatchOption, Some, None, codes, decimal};
ghost use Rattle.mr_ids.specs.Attempt.{Attempt};
ghost use Rattle.mr_ids.specs.Text.{attempt_text, IsAttempt};
ghost use Rattle.mr_history.specs.declared.record.Record.{Record};
ghost use Rattle.mr_history.specs.declared.record.Record.TheVariants.{ReduceSucceeded, AttemptFailed, JobUnsuccessful};
ghost use Rattle.mr_history.specs.Line.{line_of, InRange};
ghost use Rattle.mr_history.specs.Reading.{record_of};
ghost use Rattle.mr_history.specs.inner.Ending.{Ends};

use crate::record::Record;
use itoa::Buffer;
use mr_ids::AttemptId;
use std::str;

/// The record whose line these bytes are in a segment of this version, if there is one.
pub fn record_of(version: u32, text: &[u8]) -> Option<Record>
    ensures { result ≡ record_of version text.now }
{
    let Some(record) = told_in(text) else {
        return None;
    };
    if record.fits() && record.is_of(version) {
        Some(record)
    } else {
        None
    }
}

// The record whose line these bytes are, whether it fits or not.
fn told_in(text: &[u8]) -> Option<Record>
    ensures found { IfSome result (λ r. InRange r × (text.now ≡ line_of r)) }
    ensures only { (r : Record) → InRange r → text.now ≡ line_of r → result ≡ Some r }
{
    let Some(rest) = after(text, "{\"attempt\":\"") else {
        return unsuccessful(text);
    };
    let Some((name, rest)) = cut(rest, b'"') else {
        return None;
    };
    let Some(attempt) = attempt_in(name) else {
        return None;
    };
    happened(attempt, rest)
}

fn unsuccessful(text: &[u8]) -> Option<Record>
    ensures found { IfSome result (λ r. InRange r × (text.now ≡ line_of r)) }
    ensures only { text.now ≡ codes "{\"event\":\"unsuccessful\"}" → result ≡ Some JobUnsuccessful }
{
    if is_word(text, "{\"event\":\"unsuccessful\"}") {
        Some(Record::JobUnsuccessful)
    } else {
        None
    }
}

fn attempt_in(name: &[u8]) -> Option<AttemptId>
    ensures found { IfSome result (λ a. IsAttempt a × (name.now ≡ attempt_text a)) }
    ensures only { (a : Attempt) → IsAttempt a → name.now ≡ attempt_text a → result ≡ Some a }
{
    let Ok(text) = str::from_utf8(name) else {
        return None;
    };
    match AttemptId::parse(text) {
        Ok(attempt) => Some(attempt),
        Err(_) => None,
    }
}

// What the bytes behind an attempt's text tell of it.
fn happened(attempt: AttemptId, text: &[u8]) -> Option<Record>
    ensures found { IfSome result (λ r. InRange r × Ends attempt text.now r) }
    ensures only { (r : Record) → InRange r → Ends attempt text.now r → result ≡ Some r }
{
    if let Some(rest) = after(text, ",\"event\":\"started\",\"node\":") {
        started(attempt, rest)
    } else if let Some(rest) = after(text, ",\"event\":\"map\",\"incarnation\":") {
        mapped(attempt, rest)
    } else if let Some(rest) = after(text, ",\"bytes\":") {
        measured(attempt, rest)
    } else {
        ended(attempt, text)
    }
}

fn started(attempt: AttemptId, text: &[u8]) -> Option<Record>
    ensures found { IfSome result (λ r. InRange r × Ends attempt (codes ",\"event\":\"started\",\"node\":" ++ text.now) r) }
    ensures only { (r : Record) → InRange r → Ends attempt (codes ",\"event\":\"started\",\"node\":" ++ text.now) r → result ≡ Some r }
{
    let Some(node) = number_before(text, "}") else {
        return None;
    };
    Some(Record::AttemptStarted { attempt, node })
}

fn mapped(attempt: AttemptId, text: &[u8]) -> Option<Record>
    ensures found { IfSome result (λ r. InRange r × Ends attempt (codes ",\"event\":\"map\",\"incarnation\":" ++ text.now) r) }
    ensures only { (r : Record) → InRange r → Ends attempt (codes ",\"event\":\"map\",\"incarnation\":" ++ text.now) r → result ≡ Some r }
{
    let Some((first, rest)) = cut(text, b',') else {
        return None;
    };
    let Some(incarnation) = number(first) else {
        return None;
    };
    let Some(node) = node_in(rest) else {
        return None;
    };
    Some(Record::MapSucceeded {
        attempt,
        node,
        incarnation,
    })
}

fn node_in(text: &[u8]) -> Option<u32>
    ensures found { IfSome result (λ n. (n < 2 ^ 32) × (text.now ≡ codes "\"node\":" ++ (decimal n ++ codes "}"))) }
    ensures only { (n : ℕ) → n < 2 ^ 32 → text.now ≡ codes "\"node\":" ++ (decimal n ++ codes "}") → result ≡ Some n }
{
    let Some(rest) = after(text, "\"node\":") else {
        return None;
    };
    number_before(rest, "}")
}

fn measured(attempt: AttemptId, text: &[u8]) -> Option<Record>
    ensures found { IfSome result (λ r. InRange r × Ends attempt (codes ",\"bytes\":" ++ text.now) r) }
    ensures only { (r : Record) → InRange r → Ends attempt (codes ",\"bytes\":" ++ text.now) r → result ≡ Some r }
{
    let Some(bytes) = number_before(text, ",\"event\":\"reduce\"}") else {
        return None;
    };
    Some(Record::ReduceSucceeded {
        attempt,
        bytes: Some(bytes),
    })
}

// What is told without a number.
fn ended(attempt: AttemptId, text: &[u8]) -> Option<Record>
    ensures found { IfSome result (λ r. InRange r × Ends attempt text.now r) }
    ensures reduce { text.now ≡ codes ",\"event\":\"reduce\"}" → result ≡ Some (ReduceSucceeded attempt None) }
    ensures failed { text.now ≡ codes ",\"event\":\"failed\"}" → result ≡ Some (AttemptFailed attempt) }
{
    if is_word(text, ",\"event\":\"reduce\"}") {
        Some(Record::ReduceSucceeded {
            attempt,
            bytes: None,
        })
    } else if is_word(text, ",\"event\":\"failed\"}") {
        Some(Record::AttemptFailed { attempt })
    } else {
        None
    }
}

// The number that stands before these last bytes.
fn number_before(text: &[u8], ending: &str) -> Option<u32>
    ensures found { IfSome result (λ n. (n < 2 ^ 32) × (text.now ≡ decimal n ++ ending.now)) }
    ensures only { (n : ℕ) → n < 2 ^ 32 → text.now ≡ decimal n ++ ending.now → result ≡ Some n }
{
    let Some(word) = before(text, ending) else {
        return None;
    };
    number(word)
}

// The number below 2^32 that the word is in decimal, with no zero in front.
fn number(word: &[u8]) -> Option<u32>
    ensures found { IfSome result (λ n. (n < 2 ^ 32) × (word.now ≡ decimal n)) }
    ensures only { (n : ℕ) → n < 2 ^ 32 → word.now ≡ decimal n → result ≡ Some n }
{
    let Ok(text) = str::from_utf8(word) else {
        return None;
    };
    let Ok(n) = text.parse::<u32>() else {
        return None;
    };
    let mut buffer = Buffer::new();
    if buffer.format(n) != text {
        return None;
    }
    Some(n)
}

// Whether the bytes are these.
fn is_word(text: &[u8], word: &str) -> bool
    ensures yes { IsTrue result → text.now ≡ word.now }
    ensures no { text.now ≡ word.now → IsTrue result }
{
    text == word.as_bytes()
}

// The bytes behind these first ones.
fn after<'t>(text: &'t [u8], word: &str) -> Option<&'t [u8]>
    ensures { MatchOption result ((rest : List ℕ) → text.now ≢ word.now ++ rest) (λ x. text.now ≡ word.now ++ x.now) }
{
    text.strip_prefix(word.as_bytes())
}

// The bytes before these last ones.
fn before<'t>(text: &'t [u8], word: &str) -> Option<&'t [u8]>
    ensures { MatchOption result ((front : List ℕ) → text.now ≢ front ++ word.now) (λ x. text.now ≡ x.now ++ word.now) }
{
    text.strip_suffix(word.as_bytes())
}

// The bytes before the first of these bytes, and those after it.
fn cut(text: &[u8], at: u8) -> Option<(&[u8], &[u8])>
    ensures some { IfSome result (λ p. All (λ b. b ≢ at) p.0.now × (text.now ≡ p.0.now ++ at ∷ p.1.now)) }
    ensures none { IfNone result (All (λ b. b ≢ at) text.now) }
{
    let at = text.iter().position(|b| *b == at)?;
    Some((&text[..at], &text[at + 1..]))
}
