//! The words of a line.
ghost use Rattle.std.specs.Prelude.{◌≡◌, ◌<◌, ◌≤◌, ◌^◌, length, sum, map, IfOk, All};
ghost use Rattle.mr_jobs.specs.Words.{words_of, word_partition};

use mr_user::Text;
use std::alloc::{AllocError, Global};

// The longest runs of bytes other than space and tab.
pub fn words(alloc: Global, line: &[u8]) -> Result<Vec<&[u8]>, AllocError>
    ensures words { IfOk result (λ words. map (λ word. word.now) words.items ≡ words_of line.now) }
    ensures short { IfOk result (λ words. All (λ word. length word.now ≤ length line.now) words.items) }
{
    let mut words = Vec::new(alloc);
    for word in line.split(|b| *b == b' ' || *b == b'\t') {
        if !word.is_empty() {
            words.push(word)?;
        }
    }
    Ok(words)
}

// Each word of a line as a text.
pub fn word_texts(alloc: Global, line: &[u8]) -> Result<Vec<Text>, AllocError>
    requires { length line.now < 2 ^ 32 }
    ensures { IfOk result (λ texts. texts.items ≡ words_of line.now) }
{
    let mut texts = Vec::new(alloc);
    for word in &words(alloc, line)? {
        texts.push(Text::from_slice(alloc, word)?)?;
    }
    Ok(texts)
}

// The sum of a word's bytes modulo the number of reduces.
pub fn word_partition(word: &Text, reduces: u32) -> u32
    requires { 0 < reduces }
    ensures is { result ≡ word_partition word.now reduces }
    ensures below { result < reduces }
{
    (byte_sum(word.as_slice()) % u64::from(reduces)) as u32
}

fn byte_sum(bytes: &[u8]) -> u64
    requires { length bytes.now < 2 ^ 32 }
    ensures { result ≡ sum bytes.now }
{
    bytes.iter().map(|b| u64::from(*b)).sum()
}
