//! A job: the greatest number of each key.
ghost use Rattle.std.specs.Prelude.{◌≡◌, ◌≤◌, ◌^◌, [], ◌∷◌, length, Some, None, IfOk, IfErr};
ghost use Rattle.std.specs.List.{list_all};
ghost use Rattle.std.specs.Char.{is_ascii_digit};
ghost use Rattle.mr_user.specs.Faults.{RefusedIf};
ghost use Rattle.mr_jobs.specs.Words.{words_of};
ghost use Rattle.mr_jobs.specs.MaxByKey.{max_by_key, numbered, number_of, greatest};
ghost use Rattle.mr_jobs.specs.inner.MaxByKeyProofs.{max_by_key_laws};

use crate::word::{word_partition, words};
use mr_user::{Job, Text, UserFault, one};
use std::alloc::{AllocError, Global};
use std::str;

/// The greatest number of each key. A line without a word gives nothing, and a line of two words, a key and a
/// number below 2^64 of 1 to 20 digits, gives that pair. Every other line is refused.
#[derive(Clone, Copy, Debug)]
pub struct MaxByKey;

impl Job for MaxByKey {
    type Key = Text;

    type Value = u64;

    ghost functions = { max_by_key };

    ghost laws = { max_by_key_laws };

    fn map(
        &self,
        alloc: Global,
        _split: u32,
        _line_no: u64,
        line: &[u8],
    ) -> Result<Vec<(Text, u64)>, UserFault> {
        numbered(alloc, line)
    }

    fn partition(&self, key: &Text, reduces: u32) -> u32 {
        word_partition(key, reduces)
    }

    fn combine(&self, alloc: Global, _key: &Text, values: &[u64]) -> Result<Vec<u64>, AllocError> {
        one(alloc, greatest(values))
    }

    fn reduce(
        &self,
        alloc: Global,
        _key: &Text,
        values: &[u64],
    ) -> Result<Vec<Vec<u8>>, AllocError> {
        one(alloc, greatest(values).to_string(alloc)?.into_bytes())
    }

    fn key_text(&self, alloc: Global, key: &Text) -> Result<Vec<u8>, AllocError> {
        Vec::from_slice(alloc, key.as_slice())
    }
}

// The greatest of numbers, 0 where there are none.
fn greatest(numbers: &[u64]) -> u64
    ensures { result ≡ greatest numbers.now }
{
    let mut greatest = 0u64;
    for number in numbers {
        greatest = greatest.max(*number);
    }
    greatest
}

// The pair of a line: its key and its number.
fn numbered(alloc: Global, line: &[u8]) -> Result<Vec<(Text, u64)>, UserFault>
    requires { length line.now ≤ 2 ^ 24 }
    ensures pairs { IfOk result (λ pairs. numbered (words_of line.now) ≡ Some pairs.items) }
    ensures refused { IfErr result (λ fault. RefusedIf fault (numbered (words_of line.now) ≡ None)) }
{
    let words = words(alloc, line)?;
    match words.as_slice() {
        [] => Ok(Vec::new(alloc)),
        [key, number] => pair(alloc, key, number),
        _ => Err(UserFault::Refused),
    }
}

// The pair of a key and of the number that a word writes.
fn pair(alloc: Global, key: &[u8], number: &[u8]) -> Result<Vec<(Text, u64)>, UserFault>
    requires { length key.now ≤ 2 ^ 24 }
    ensures pairs { IfOk result (λ pairs. numbered (key.now ∷ number.now ∷ []) ≡ Some pairs.items) }
    ensures refused { IfErr result (λ fault. RefusedIf fault (numbered (key.now ∷ number.now ∷ []) ≡ None)) }
{
    let Some(number) = number_of(number) else {
        return Err(UserFault::Refused);
    };
    Ok(one(alloc, (Text::from_slice(alloc, key)?, number))?)
}

// The number that a word of 1 to 20 digits writes, if it is below 2^64.
fn number_of(word: &[u8]) -> Option<u64>
    ensures { result ≡ number_of word.now }
{
    let Ok(text) = str::from_utf8(word) else {
        return None;
    };
    if text.len() > 20 || !is_digits(text) {
        return None;
    }
    match text.parse::<u64>() {
        Ok(number) => Some(number),
        Err(_) => None,
    }
}

fn is_digits(text: &str) -> bool
    ensures { result ≡ list_all is_ascii_digit text.now }
{
    text.bytes().all(|b| b.is_ascii_digit())
}
