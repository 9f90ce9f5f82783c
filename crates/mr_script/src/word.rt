//! The words of a line.
ghost use Rattle.std.specs.Prelude.{◌≡◌, ◌≢◌, ◌<◌, ◌^◌, ℕ, ◌∷◌, ◌++◌, All, IfSome, IfNone, Some, None, decimal};
ghost use Rattle.mr_ids.specs.Attempt.{Attempt};
ghost use Rattle.mr_ids.specs.Text.{IsAttempt};
ghost use Rattle.mr_packet.specs.declared.packet.ContainerId as container;
ghost use Rattle.mr_script.specs.Lines.{before, after};
ghost use Rattle.mr_script.specs.Script.{IsGeneration, IsContainer};
ghost use Rattle.mr_script.specs.Words.{attempt_word, container_word};

use itoa::Buffer;
use mr_ids::{AppAttempt, AttemptId};
use mr_packet::ContainerId;
use std::str;

/// The bytes before the first of these bytes, and those after it.
pub fn cut(bytes: &[u8], at: u8) -> Option<(&[u8], &[u8])>
    ensures some { IfSome result (λ p. All (λ b. b ≢ at) p.0.now × (bytes.now ≡ p.0.now ++ at ∷ p.1.now)) }
    ensures none { IfNone result (All (λ b. b ≢ at) bytes.now) }
{
    let at = bytes.iter().position(|b| *b == at)?;
    Some((&bytes[..at], &bytes[at + 1..]))
}

/// The bytes before the first of these bytes, and those after it, as the definition has them.
pub fn split_once(bytes: &[u8], at: u8) -> Option<(&[u8], &[u8])>
    ensures some { IfSome result (λ p. (before at bytes.now ≡ p.0.now) × (after at bytes.now ≡ Some p.1.now)) }
    ensures whole { IfSome result (λ p. bytes.now ≡ p.0.now ++ at ∷ p.1.now) }
    ensures none { IfNone result ((before at bytes.now ≡ bytes.now) × (after at bytes.now ≡ None)) }
{
    match cut(bytes, at) {
        Some((front, rest)) => Some((front, rest)),
        None => None,
    }
}

/// The number below 2^64 that the word is in decimal, with no zero in front.
pub fn long_number(word: &[u8]) -> Option<u64>
    ensures found { IfSome result (λ n. word.now ≡ decimal n) }
    ensures only { (n : ℕ) → n < 2 ^ 64 → word.now ≡ decimal n → result ≡ Some n }
{
    let Ok(text) = str::from_utf8(word) else {
        return None;
    };
    let Ok(n) = text.parse::<u64>() else {
        return None;
    };
    let mut buffer = Buffer::new();
    if buffer.format(n) != text {
        return None;
    }
    Some(n)
}

/// The number below 2^32 that the word is.
pub fn number(word: &[u8]) -> Option<u32>
    ensures found { IfSome result (λ n. word.now ≡ decimal n) }
    ensures only { (n : ℕ) → n < 2 ^ 32 → word.now ≡ decimal n → result ≡ Some n }
{
    let n = long_number(word)?;
    match u32::try_from(n) {
        Ok(n) => Some(n),
        Err(_) => None,
    }
}

/// The generation that the word numbers.
pub fn generation(word: &[u8]) -> Option<AppAttempt>
    ensures found { IfSome result (λ k. IsGeneration k × (word.now ≡ decimal k)) }
    ensures only { (k : ℕ) → IsGeneration k → word.now ≡ decimal k → result ≡ Some k }
{
    let n = number(word)?;
    AppAttempt::new(n)
}

/// The container that the word names.
pub fn container(word: &[u8]) -> Option<ContainerId>
    ensures some { IfSome result (λ c. IsContainer c × (word.now ≡ container_word c)) }
    ensures none { IfNone result ((c : container.ContainerId) → IsContainer c → word.now ≡ container_word c → ⊥) }
{
    let Some((front, rest)) = split_once(word, b'.') else {
        return None;
    };
    let Some(app) = generation(front) else {
        return None;
    };
    let Some(number) = number(rest) else {
        return None;
    };
    Some(ContainerId { app, number })
}

/// The attempt that the word names, in its canonical spelling.
pub fn attempt(word: &[u8]) -> Option<AttemptId>
    ensures found { IfSome result (λ a. IsAttempt a × (word.now ≡ attempt_word a)) }
    ensures only { (a : Attempt) → IsAttempt a → word.now ≡ attempt_word a → result ≡ Some a }
{
    let Ok(text) = str::from_utf8(word) else {
        return None;
    };
    match AttemptId::parse(text) {
        Ok(attempt) => Some(attempt),
        Err(_) => None,
    }
}
