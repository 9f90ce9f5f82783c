//! Words that are nearly spelled as a key.
use std::alloc::{AllocError, Global};
use strsim::levenshtein;

// With so many letters added, left out or changed a word is still near, if these are at most a half of the key's.
const MOST_EDITS: usize = 2;

// Longer words are near to no key.
const MOST_LETTERS: usize = 16;

/// Whether a word of letters and digits is nearly spelled as this key. It fails where there is no memory.
pub(crate) fn is_near(alloc: Global, word: &str, key: &str) -> Result<bool, AllocError> {
    if word.len() > MOST_LETTERS || !is_plain(word) {
        return Ok(false);
    }
    let lower = word.to_ascii_lowercase(alloc)?;
    let edits = levenshtein(alloc, lower.as_str(), key)?;
    Ok(edits <= MOST_EDITS && edits <= key.len() / 2)
}

// Whether it has letters and digits alone, which are printed as they are.
fn is_plain(word: &str) -> bool {
    word.as_bytes()
        .iter()
        .all(|byte| byte.is_ascii_alphanumeric())
}
