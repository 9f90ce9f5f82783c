//! A job: how often each word stands.
ghost use Rattle.std.specs.Prelude.{◌≡◌, ◌≤◌, ◌^◌, length, map, IfOk};
ghost use Rattle.mr_jobs.specs.Words.{words_of};
ghost use Rattle.mr_jobs.specs.WordCount.{word_count, held_sum};
ghost use Rattle.mr_jobs.specs.inner.WordCountProofs.{word_count_laws};

use crate::word::{word_partition, word_texts};
use mr_user::{Job, Text, UserFault, one};
use std::alloc::{AllocError, Global};

/// Counts how often each word stands. A sum is held at 2^64 - 1.
#[derive(Clone, Copy, Debug)]
pub struct WordCount;

impl Job for WordCount {
    type Key = Text;

    type Value = u64;

    ghost functions = { word_count };

    ghost laws = { word_count_laws };

    fn map(
        &self,
        alloc: Global,
        _split: u32,
        _line_no: u64,
        line: &[u8],
    ) -> Result<Vec<(Text, u64)>, UserFault> {
        Ok(counted(alloc, line)?)
    }

    fn partition(&self, key: &Text, reduces: u32) -> u32 {
        word_partition(key, reduces)
    }

    fn combine(&self, alloc: Global, _key: &Text, values: &[u64]) -> Result<Vec<u64>, AllocError> {
        one(alloc, held_sum(values))
    }

    fn reduce(
        &self,
        alloc: Global,
        _key: &Text,
        values: &[u64],
    ) -> Result<Vec<Vec<u8>>, AllocError> {
        one(alloc, held_sum(values).to_string(alloc)?.into_bytes())
    }

    fn key_text(&self, alloc: Global, key: &Text) -> Result<Vec<u8>, AllocError> {
        Vec::from_slice(alloc, key.as_slice())
    }
}

// The sum, held at the greatest u64.
fn held_sum(counts: &[u64]) -> u64
    ensures { result ≡ held_sum counts.now }
{
    let mut total = 0u64;
    for count in counts {
        total = total.saturating_add(*count);
    }
    total
}

// Each word of a line with a one.
fn counted(alloc: Global, line: &[u8]) -> Result<Vec<(Text, u64)>, AllocError>
    requires { length line.now ≤ 2 ^ 24 }
    ensures { IfOk result (λ pairs. pairs.items ≡ map (λ word. (word, 1)) (words_of line.now)) }
{
    let mut pairs = Vec::new(alloc);
    for word in word_texts(alloc, line)? {
        pairs.push((word, 1))?;
    }
    Ok(pairs)
}
