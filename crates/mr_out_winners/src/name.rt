//! What is seen in a directory.
ghost use Rattle.std.specs.Prelude.{◌≡◌, map};
ghost use Rattle.std.specs.Str.{bytes_eq};
ghost use Rattle.mr_out_winners.specs.Tasks.{as_seen, look_at};

use mr_out_listing::Kind;

/// What stands at a name.
#[derive(Clone, Copy, Debug)]
pub struct Look {
    /// Of what kind it is.
    pub kind: Kind,
    /// How many bytes it has.
    pub len: u64,
}

/// A name in the directory itself, and what stands there.
#[derive(Debug, Drop)]
pub struct Name {
    /// The name.
    pub name: Vec<u8>,
    /// What stands there.
    pub look: Look,
}

// Whether the two names are one.
pub(crate) fn is_one(a: &[u8], b: &[u8]) -> bool
    ensures { result ≡ bytes_eq a.now b.now }
{
    a == b
}

// What stands at a name, if anything was seen there.
pub(crate) fn look_at(name: &[u8], names: &[Name]) -> Option<Look>
    ensures { result ≡ look_at name.now (map as_seen names.now) }
{
    for seen in names {
        if is_one(&seen.name, name) {
            return Some(seen.look);
        }
    }
    None
}
