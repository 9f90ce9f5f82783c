//! The directory tree: directories and files by their paths. It knows no callers and no limits.
//!
//! # What is proved
//!
//! **The directory tree (`mr_names_tree`).** Contracts see what a tree holds as a content: a finite map from paths to nodes.
//! Proved, for each call:
//!
//! - it leaves exactly the content that the definitions of `specs/` say: `insert` one more node (`FinMap.insert`),
//!   `make_dirs` all directories that are missing (`with_dirs`), `rename` a subtree moved in one step (`renamed`),
//!   `append` and `close` one node changed (`changed_at`), `take_out` all but a path and what is beneath it (`without`);
//! - `get`, `len`, `missing`, `children` and `walk` answer what is read off the content. `children` has the entries
//!   directly beneath a path, by the bytes of their names, and `walk` all entries, in the order of their paths;
//! - it fails by an allocation failure alone, and then nothing has changed: `make_dirs` makes all or none, and `rename`
//!   moves the whole subtree or nothing;
//! - `take_out`, `close`, `get`, `len` and `missing` take no memory;
//! - a copy (`Tree::copy`) holds the same content, and `Tree::is_same` tells whether two trees do: which path has which
//!   entry, and of files the bytes and whether they are closed.
//!
//! `rename`, `insert`, `take_out` and `missing` ask something of the content, by a `requires`: `MayRename`, a path where
//! nothing is beneath one where something is, a path that is not the root, and a tree (`IsTree`). Whether a call is
//! refused, and by which fault, is said in `mr_names`, above.
//!
//! The nodes lie in a slab (`src/tree.rt`, `src/links.rt`). Each entry's node is reached from the root by exactly one
//! path, and each node that is kept is reached so. A rename moves one edge. No call recurses.
//!
//! Only tested: what `mr_names` says of it. Neither: speed, and how many requests for memory a call makes.
#![tactic(auto)]

mod links;
mod node;
mod place;
mod same;
mod tree;
mod walk;

pub use node::{Entries, Entry, Kind, Node};
pub use tree::Tree;
pub use walk::{Found, Walk};
