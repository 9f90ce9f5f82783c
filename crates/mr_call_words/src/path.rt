//! A path as its text, and read from it, whatever bytes its names have.
ghost use Rattle.std.specs.Prelude.{◌≡◌, ◌∷◌, ◌++◌, IfOk, IfSome, IfNone, OnOk, All, List, ℕ, Some, flat_map};
ghost use Rattle.mr_call_words.specs.Words.{IsPath};
ghost use Rattle.mr_paths.specs.Path.{IsName};
ghost use Rattle.std.specs.List.{slice_split};
ghost use Rattle.mr_paths.specs.Text.{path_text, is_slash};

use crate::word::fits;
use mr_paths::{Name, Path, is_name};
use std::alloc::{AllocError, Global};

/// The text of a path.
#[tactic(auto, using(crate::proofs::PathWords::beneath_all))]
pub fn path_text(alloc: Global, path: &Path) -> Result<Vec<u8>, AllocError>
    ensures { IfOk result (λ text. text.items ≡ path_text path.now) }
{
    let names = path.names();
    if names.is_empty() {
        return Vec::from_slice(alloc, b"/");
    }
    let mut text = Vec::new(alloc);
    put_names(&mut text, names)?;
    Ok(text)
}

// Each of these names behind a slash.
fn put_names(out: &mut Vec<u8>, names: &[Name]) -> Result<(), AllocError>
    ensures { OnOk result (out.new.items ≡ out.old.items ++ flat_map (λ name. 47 ∷ name) names.now) }
{
    for name in names {
        out.extend_from_slice(b"/")?;
        out.extend_from_slice(name.as_bytes())?;
    }
    Ok(())
}

/// The path of which this is the text, if it is one's.
pub fn path_in(alloc: Global, text: &[u8]) -> Result<Option<Path>, AllocError>
    ensures fits { IfOk result (λ found. IfSome found IsPath) }
    ensures only { IfOk result (λ found. (path : List (List ℕ)) → All IsName path → text.now ≡ path_text path → found ≡ Some path) }
{
    let Some(rest) = behind_slash(text) else {
        return Ok(None);
    };
    if rest.is_empty() {
        return Ok(Some(Path::root(alloc)));
    }
    names_in(alloc, rest)
}

// What stands behind the first byte, if that is a slash.
fn behind_slash(text: &[u8]) -> Option<&[u8]>
    ensures some { IfSome result (λ rest. text.now ≡ 47 ∷ rest.now) }
    ensures none { IfNone result ((rest : List ℕ) → text.now ≡ 47 ∷ rest → ⊥) }
{
    match text {
        [b'/', rest @ ..] => Some(rest),
        _ => None,
    }
}

// The path of the names with a slash between each two, where they are names.
fn names_in(alloc: Global, text: &[u8]) -> Result<Option<Path>, AllocError>
    ensures fits { IfOk result (λ found. IfSome found IsPath) }
    ensures only { IfOk result (λ found. All IsName (slice_split is_slash text.now) → found ≡ Some (slice_split is_slash text.now)) }
{
    let mut path = Path::root(alloc);
    for name in text.split(|b| *b == b'/') {
        if !is_name(name) {
            return Ok(None);
        }
        fits(name);
        path.push(Name::new(alloc, name)?)?;
    }
    Ok(Some(path))
}
