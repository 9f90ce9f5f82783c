//! What stands at a path, a directory or a file with its bytes, and the entries that a directory lists.
ghost use Rattle.std.specs.Prelude.{◌≡◌, ◌↔◌, ◌++◌, ◌∷◌, [], IfOk, OnOk, OnErr, length, nat_eq, nat_lt, true, IsTrue};
ghost use Rattle.std.specs.Cmp.{partial_equiv_from_equiv};
ghost use Rattle.std.specs.Cmp.Lexicographic.{pointwise, lists_equiv};
ghost use Rattle.std.specs.Cmp.Rules.{comparing};
ghost use Rattle.std.proofs.Common.{rules};
ghost use Rattle.mr_names_tree.specs.contracts.node.EntryPartialEq.TheImpl.{eq-value};
ghost use Rattle.mr_names_tree.specs.contracts.node.EntryEq.TheImpl.Laws.{laws-law};
ghost use Rattle.mr_names_tree.specs.Walk.{length_of};
ghost use Rattle.mr_names_tree.specs.Node.{appended, closed_of, kind_of};

use mr_ids::Bytes;
use mr_paths::Name;
use std::alloc::{AllocError, Global};
use std::marker::Model;

/// What is at a path: a directory or a file.
#[derive(Debug, PartialEq, Eq, Drop)]
pub enum Node {
    Dir,
    File {
        /// What the file has so far.
        bytes: Bytes,
        /// Whether nothing more is added to it.
        closed: bool,
    },
}

impl Node {
    /// An equal node. It may allocate, and refuses nothing else.
    pub fn copy(&self) -> Result<Node, AllocError>
        ensures { IfOk result (λ node. node ≡ self.now) }
    {
        Ok(match self {
            Node::Dir => Node::Dir,
            Node::File { bytes, closed } => Node::File {
                bytes: bytes.copy()?,
                closed: *closed,
            },
        })
    }

    /// Adds bytes at the end of a file. A directory stays as it is.
    pub fn append(&mut self, more: &Bytes) -> Result<(), AllocError>
        ensures ok { OnOk result (self.new ≡ appended more.now self.old) }
        ensures err { OnErr result (self.new ≡ self.old) }
        ensures some { OnErr result (nat_lt 0 (length more.now) ≡ true) }
    {
        match self {
            Node::Dir => Ok(()),
            Node::File { bytes, .. } => bytes.append(more),
        }
    }

    /// Closes a file. A directory stays as it is.
    pub fn close(&mut self)
        ensures { self.new ≡ closed_of self.old }
    {
        if let Node::File { closed, .. } = self {
            *closed = true;
        }
    }

    /// Whether this is a directory or a file.
    pub fn kind(&self) -> Kind
        ensures { result ≡ kind_of self.now }
    {
        match self {
            Node::Dir => Kind::Dir,
            Node::File { .. } => Kind::File,
        }
    }

    /// A file's length in bytes, and none for a directory.
    pub fn length(&self) -> Option<usize>
        ensures { result ≡ length_of self.now }
    {
        match self {
            Node::Dir => None,
            Node::File { bytes, .. } => Some(bytes.len()),
        }
    }
}

/// Which of the two is at a path.
#[derive(Clone, Copy, Debug, PartialEq, Eq)]
pub enum Kind {
    Dir,
    File,
}

/// One entry of a listed directory.
#[derive(Debug, PartialEq, Eq, Drop)]
pub struct Entry {
    /// The last name of its path.
    pub name: Name,
    /// What it is.
    pub kind: Kind,
}

/// The entries of a listed directory, by the bytes of their names. Contracts see them as a list.
#[derive(Debug, Drop)]
pub struct Entries {
    items: Vec<Entry>,
}

impl Model for Entries {
    ghost use Rattle.std.specs.Prelude.{List, ℕ};
    ghost use Rattle.mr_names_tree.specs.declared.node.Entry.{Entry};

    ghost Value = { List Entry };

    ghost view = { λ e. e.items.items };
}

impl Entries {
    /// No entries.
    pub fn new(alloc: Global) -> Entries
        ensures { result ≡ [] }
    {
        Entries {
            items: Vec::new(alloc),
        }
    }

    pub fn from_vec(items: Vec<Entry>) -> Entries
        ensures { result ≡ items.items }
    {
        Entries { items }
    }

    pub fn into_vec(self) -> Vec<Entry>
        ensures { result.items ≡ self }
    {
        self.items
    }

    /// Adds an entry at the end.
    pub fn push(&mut self, entry: Entry) -> Result<(), AllocError>
        ensures ok { OnOk result (self.new ≡ self.old ++ entry ∷ []) }
        ensures err { OnErr result (self.new ≡ self.old) }
    {
        self.items.push(entry)?;
        Ok(())
    }

    pub fn as_slice(&self) -> &[Entry]
        ensures { result.now ≡ self.now }
    {
        &self.items
    }
}

impl PartialEq for Entries {
    ghost eq = { pointwise eq-value.it };

    ghost laws = { partial_equiv_from_equiv (lists_equiv laws-law) };

    fn eq(&self, other: &Entries) -> bool {
        self.items.as_slice() == other.items.as_slice()
    }
}

impl Eq for Entries {
    ghost laws = { lists_equiv laws-law };
}
