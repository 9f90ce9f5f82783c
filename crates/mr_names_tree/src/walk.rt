//! All that a namespace holds, path by path: for programs that print it.
ghost use Rattle.std.specs.Prelude.{◌≡◌, ◌++◌, ◌∷◌, [], OnOk, OnErr};
ghost use Rattle.std.specs.Cmp.{partial_equiv_from_equiv};
ghost use Rattle.std.specs.Cmp.Lexicographic.{pointwise, lists_equiv};
ghost use Rattle.mr_names_tree.specs.contracts.walk.FoundPartialEq.TheImpl.{eq-value};
ghost use Rattle.mr_names_tree.specs.contracts.walk.FoundEq.TheImpl.Laws.{laws-law};

use mr_paths::Path;
use std::alloc::{AllocError, Global};
use std::marker::Model;

/// What stands at a path.
#[derive(Debug, PartialEq, Eq, Drop)]
pub struct Found {
    /// Where it stands.
    pub path: Path,
    /// A file's length in bytes, and none for a directory.
    pub length: Option<usize>,
}

/// What stands at each path, by the paths' names and bytes: a directory stands before its entries.
#[derive(Debug, Drop)]
pub struct Walk {
    items: Vec<Found>,
}

impl Model for Walk {
    ghost use Rattle.std.specs.Prelude.{List};
    ghost use Rattle.mr_names_tree.specs.declared.walk.Found.{Found};

    ghost Value = { List Found };

    ghost view = { λ w. w.items.items };
}

impl Walk {
    /// No path.
    pub fn new(alloc: Global) -> Walk
        ensures { result ≡ [] }
    {
        Walk {
            items: Vec::new(alloc),
        }
    }

    /// Adds a path at the end.
    pub fn push(&mut self, found: Found) -> Result<(), AllocError>
        ensures ok { OnOk result (self.new ≡ self.old ++ found ∷ []) }
        ensures err { OnErr result (self.new ≡ self.old) }
    {
        self.items.push(found)?;
        Ok(())
    }

    /// All paths, in order.
    pub fn as_slice(&self) -> &[Found]
        ensures { result.now ≡ self.now }
    {
        &self.items
    }
}

impl PartialEq for Walk {
    ghost eq = { pointwise eq-value.it };

    ghost laws = { partial_equiv_from_equiv (lists_equiv laws-law) };

    fn eq(&self, other: &Walk) -> bool {
        self.items.as_slice() == other.items.as_slice()
    }
}

impl Eq for Walk {
    ghost laws = { lists_equiv laws-law };
}
