//! A path of the namespace as the list of its names: how it is read from a text, extended, ordered, and compared with paths above it.
ghost use Rattle.std.specs.Prelude.{◌≡◌, ◌≤◌, ◌↔◌, ℕ, Some, refl, IfOk, OnOk, OnErr, [], ◌∷◌, ◌++◌, length, take, drop, is_some, IsTrue, All, nat_eq};
ghost use Rattle.std.specs.List.{slice_split};
ghost use Rattle.std.specs.Cmp.Lexicographic.{slice_cmp, pointwise};
ghost use Rattle.std.specs.Ordering.{nat_cmp};
ghost use Rattle.std.specs.Cmp.Rules.{comparing};
ghost use Rattle.std.proofs.Common.{rules};
ghost use Rattle.std.specs.Cmp.{partial_order_from_agreeing_total};
ghost use Rattle.std.specs.Option.{option_copied};
ghost use Rattle.mr_paths.specs.Path.{IsName, path_cmp, path_total, path_ties, strip, parent};
ghost use Rattle.std.specs.Str.{IsUtf8};
ghost use Rattle.mr_paths.specs.Text.{is_slash, shown_text, ReadsPath};

use crate::fault::PathFault;
use crate::name::{Name, is_name};
use std::alloc::{AllocError, Global};
use std::cmp::Ordering;
use std::marker::Model;

// A place beneath another one is made with room for so many names more: those of an attempt's directory.
const MORE: usize = 4;

/// A place in the namespace: the names on the way from the root, which is the empty list.
#[derive(Debug, Drop)]
pub struct Path {
    names: Vec<Name>,
}

impl Model for Path {
    ghost use Rattle.std.specs.Prelude.{List, ℕ};

    ghost Value = { List (List ℕ) };

    ghost view = { λ p. p.names.items };
}

impl Path {
    /// Reads a path: `/` is the root, and `/a/b` the place of `b` beneath `a`. All else is a `BadName`:
    /// the empty text, a text that does not begin with `/`, and one with `//` or a `/` at its end.
    pub fn parse(alloc: Global, text: &str) -> Result<Path, PathFault>
        ensures reads { ReadsPath text.now result }
        // What was read is shown as it was written.
        ensures shown { IfOk result (λ path. shown_text path ≡ text.now) }
    {
        let Some(rest) = text.strip_prefix('/') else {
            return Err(PathFault::BadName);
        };
        if rest.is_empty() {
            return Ok(Path::root(alloc));
        }
        if !are_names(rest) {
            return Err(PathFault::BadName);
        }
        Ok(read_names(alloc, rest)?)
    }

    /// The root: the path with no name.
    pub fn root(alloc: Global) -> Path
        ensures { result ≡ [] }
    {
        Path {
            names: Vec::new(alloc),
        }
    }

    /// Whether this is the root, which has no name.
    pub fn is_root(&self) -> bool
        ensures { IsTrue result ↔ (self.now ≡ []) }
    {
        self.names.is_empty()
    }

    /// The number of names.
    pub fn len(&self) -> usize
        ensures { result ≡ length self.now }
    {
        self.names.len()
    }

    /// The names, from the root on.
    pub fn names(&self) -> &[Name]
        ensures { result.now ≡ self.now }
    {
        &self.names
    }

    /// Adds a name at the end; without memory the path stays as it is.
    pub fn push(&mut self, name: Name) -> Result<(), AllocError>
        ensures ok { OnOk result (self.new ≡ self.old ++ name ∷ []) }
        ensures err { OnErr result (self.new ≡ self.old) }
    {
        self.names.push(name)?;
        Ok(())
    }

    /// The allocator that holds the names.
    pub fn allocator(&self) -> Global {
        *self.names.allocator()
    }

    /// The place of this name beneath this path.
    pub fn child(&self, name: Name) -> Result<Path, AllocError>
        ensures { IfOk result (λ path. path ≡ self.now ++ name ∷ []) }
    {
        let mut names = copy_names(self.allocator(), &self.names, MORE)?;
        names.push(name)?;
        Ok(Path { names })
    }

    /// The first `n` names.
    pub fn front(&self, n: usize) -> Result<Path, AllocError>
        requires { n ≤ length self.now }
        ensures { IfOk result (λ path. path ≡ take n self.now) }
    {
        let names = copy_names(self.allocator(), &self.names[..n], 0)?;
        Ok(Path { names })
    }

    /// An equal path.
    pub fn copy(&self) -> Result<Path, AllocError>
        ensures { IfOk result (λ path. path ≡ self.now) }
    {
        let names = copy_names(self.allocator(), &self.names, 0)?;
        Ok(Path { names })
    }
}

// Whether each part of the text between slashes is a name.
fn are_names(text: &str) -> bool
    ensures { IsTrue result ↔ All IsName (slice_split is_slash text.now) }
{
    text.split('/').all(|name| is_name(name.as_bytes()))
}

// The path of the parts between slashes.
fn read_names(alloc: Global, text: &str) -> Result<Path, AllocError>
    requires { All IsName (slice_split is_slash text.now) }
    ensures parts { IfOk result (λ path. path ≡ slice_split is_slash text.now) }
    ensures utf8 { IfOk result (All IsUtf8) }
{
    let mut path = Path::root(alloc);
    for name in text.split('/') {
        path.push(Name::new(alloc, name.as_bytes())?)?;
    }
    Ok(path)
}

/// The names of the path on which this one's entry stands.
pub fn parent(names: &[Name]) -> &[Name]
    ensures { result.now ≡ parent names.now }
{
    &names[..names.len().saturating_sub(1)]
}

/// Whether the names lead to `top`, or beneath it.
pub fn is_within(names: &[Name], top: &[Name]) -> bool
    ensures { result ≡ is_some (strip top.now names.now) }
{
    beneath(names, top).is_some()
}

/// What is left of the names beneath `top`.
#[tactic(auto, using(crate::proofs::Paths::beneath_found, crate::proofs::Paths::beneath_none))]
fn beneath<'a>(names: &'a [Name], top: &[Name]) -> Option<&'a [Name]>
    ensures { option_copied result ≡ strip top.now names.now }
{
    if names.starts_with(top) {
        Some(&names[top.len()..])
    } else {
        None
    }
}

// Equal names, in the same order, with room for some more.
fn copy_names(alloc: Global, names: &[Name], more: usize) -> Result<Vec<Name>, AllocError>
    ensures { IfOk result (λ copies. copies.items ≡ names.now) }
{
    let mut copies = Vec::with_capacity(alloc, names.len().saturating_add(more))?;
    for name in names {
        copies.push(name.copy()?)?;
    }
    Ok(copies)
}

impl Clone for Path {
    ghost is_clone = { λ a b. b ≡ a };

    fn clone(&self) -> Result<Path, AllocError> {
        self.copy()
    }
}

impl PartialEq for Path {
    ghost eq = { pointwise (pointwise nat_eq) };

    ghost laws = { Prim.search (comparing, rules) };

    fn eq(&self, other: &Path) -> bool {
        self.names.as_slice() == other.names.as_slice()
    }
}

impl Eq for Path {
    ghost laws = { Prim.search (comparing, rules) };
}

impl PartialOrd for Path {
    ghost partial_cmp = { λ x y. Some (path_cmp x y) };

    ghost laws = { partial_order_from_agreeing_total path_cmp path_total (λ x y. refl) path_ties };

    fn partial_cmp(&self, other: &Path) -> Option<Ordering> {
        Some(self.cmp(other))
    }
}

impl Ord for Path {
    ghost cmp = { path_cmp };

    ghost total = { path_total };

    ghost matches_partial_cmp = { λ x y. refl };

    ghost matches_eq = { path_ties };

    fn cmp(&self, other: &Path) -> Ordering {
        self.names.as_slice().cmp(other.names.as_slice())
    }
}
