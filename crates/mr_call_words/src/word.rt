//! One word of a line: its bytes escaped, and read back.
ghost use Rattle.std.specs.Prelude.{◌≡◌, ◌∷◌, ◌++◌, IfOk, OnOk, map};
ghost use Rattle.std.specs.List.{slice_split};
ghost use Rattle.percent_encoding.specs.Percent as spec;
ghost use Rattle.mr_call_words.specs.Words.{AreBytes, word};
ghost use Rattle.mr_call_words.specs.inner.Splits.{is_space};

use mr_ids::Bytes;
use percent_encoding::{AsciiSet, NON_ALPHANUMERIC, percent_decode, percent_encode};
use std::alloc::{AllocError, Global};

/// The ASCII bytes that are escaped in a word.
pub const ESCAPED: AsciiSet = percent_encoding::ascii_set!(
    NON_ALPHANUMERIC
        .remove(b'-')
        .remove(b'.')
        .remove(b'_')
        .remove(b'~')
        .remove(b'/')
);

/// The first word of a line.
pub fn put_first(out: &mut Vec<u8>, bytes: &[u8]) -> Result<(), AllocError>
    ensures { OnOk result (out.new.items ≡ out.old.items ++ word bytes.now) }
{
    let mut text = String::new(*out.allocator());
    percent_encode(bytes, ESCAPED).append_to(&mut text)?;
    out.extend_from_slice(text.as_bytes())
}

/// A space, and the next word.
pub fn put_next(out: &mut Vec<u8>, bytes: &[u8]) -> Result<(), AllocError>
    ensures { OnOk result (out.new.items ≡ out.old.items ++ 32 ∷ word bytes.now) }
{
    out.extend_from_slice(b" ")?;
    put_first(out, bytes)
}

/// Tells that each byte is below 256.
pub fn fits(bytes: &[u8])
    ensures { AreBytes bytes.now }
{
    let _ = bytes;
}

// The bytes that a word stands for. What is no escape stays.
fn decoded(alloc: Global, word: &[u8]) -> Result<Bytes, AllocError>
    ensures { IfOk result (λ bytes. bytes ≡ spec.percent_decode word.now) }
{
    let mut bytes = Vec::new(alloc);
    percent_decode(word).append_to(&mut bytes)?;
    Ok(Bytes::from_vec(bytes))
}

/// The bytes that each word of a line stands for.
pub fn words_in(alloc: Global, line: &[u8]) -> Result<Vec<Bytes>, AllocError>
    ensures { IfOk result (λ words. words.items ≡ map spec.percent_decode (slice_split is_space line.now)) }
{
    let mut words = Vec::new(alloc);
    for word in line.split(|b| *b == b' ') {
        words.push(decoded(alloc, word)?)?;
    }
    Ok(words)
}
