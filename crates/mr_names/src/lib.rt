//! The namespace: directories and files by their paths.
//!
//! # How to begin
//!
//! ```rust
//! fn move_directory(
//!     names: &mut Namespace,
//!     caller: &Caller,
//!     from: &Path,
//!     file: &Path,
//!     to: &Path,
//! ) -> Result<(), NameFault> {
//!     names.mkdirs(*caller, from)?;
//!     names.create(*caller, file, false)?;
//!     names.append(*caller, file, b"abc\n")?;
//!     names.close(*caller, file)?;
//!     names.rename(*caller, from, to)
//! }
//! ```
//!
//! (It is run in `crates/tests_guides`.)
//!
//! # What is proved
//!
//! **The namespace (`mr_names`).** Proved, for each call, by name (`mkdirs`, `create`, `append`, `close`, `delete`,
//! `rename`, `list`, `exists`, `read`, `bar`) and as a value (`perform`):
//!
//! - it answers and leaves exactly what the definition `call_of` says (contracts `Makes`, and `MakesAlways` for calls
//!   that never allocate). First comes the fence (`Superseded`), then whether the caller's attempt is barred
//!   (`Barred`), reads and bars too, then the call's own refusals in the written order. Then comes `Full`, exactly
//!   where the call would pass 65,536 entries without the root, 2^24 bytes of a file or 100,000 barred attempts.
//!   `NoMemory` is last;
//! - a refusal changes nothing, an allocation failure included; `mkdirs` makes all that is missing or nothing, `rename`
//!   moves the whole subtree or nothing;
//! - `foresee` tells exactly the refusal that the call would meet, an allocation failure aside. `raise` makes the fence
//!   the greater of the two, and keeps the content and the barred attempts;
//! - the barred attempts are a finite set, kept for good: `bar` adds one and changes no content, and nothing takes one
//!   out. Of one that is there a `bar` wants no memory and does nothing (clause `there`);
//! - memory may be taken by `mkdirs`, `create`, `append`, `rename`, `list`, `read`, `bar` and `perform` of these, and
//!   by `Namespace::new`, `walk`, `is_same` and the copies. No other call takes any. So `raise`, `fence`, `foresee`,
//!   `check_caller`, `exists`, `close`, `delete` never answer `NoMemory` (nor does `perform` of the last three: its
//!   clause `always`);
//! - each namespace's content is a tree: the root is a directory, and so is the parent of each other entry. It has at
//!   most 65,536 entries without the root, and each file at most 2^24 bytes. Its fence is at most 1,000, and at most
//!   100,000 attempts are barred (`fence`, clause `sound`).
//!
//! `Op::copy` gives an equal call. `Namespace::copy` gives a namespace of its own with the same content, fence and
//! barred attempts. Both refuse for want of memory alone. `NameFault::wants_memory` takes a fault of such a call: it is
//! proved that there is no other.
//!
//! `Namespace::is_same` tells whether two namespaces have the same content, fence and barred attempts, and refuses for
//! want of memory alone.
//!
//! Laws that follow from the definition alone stand on functions with empty bodies:
//! - what each path holds after each call that is answered (`each_path`);
//! - when exactly a call is answered (`answered`);
//! - what each path holds after a rename or a delete (`rename_moves`, `delete_takes_out`), and that trees stay trees
//!   (`stays_tree`);
//! - that a call leaves as it was whatever it does not name. Only `mkdirs`, `create` and `rename` put something where
//!   nothing was, only `delete` and `rename` take something away, and a closed file keeps its bytes (`others_stay`);
//! - that a caller below the fence, or whose attempt is barred, is refused whatever it asks, and that any two callers
//!   that are neither are answered alike (`settles`);
//! - that the barred attempts only grow, and only by `bar`. From a `bar` that was answered on, each call of a caller
//!   with that attempt is refused `Superseded` or `Barred` and changes nothing. That holds whoever called or raised the
//!   fence in between (`bars_stay`);
//! - that a listing has exactly what is directly beneath its path, each name once, by its bytes (`listings`);
//! - three runs of calls with their answers, computed (`runs`).
//!
//! Only tested: that the calls succeed with ample memory, and those runs on the built code
//! (`crates/tests_base/src/names.rt`). Neither: speed, and how many requests for memory a call makes (the rename of a
//! directory of 65,535 files makes fewer than 1,000: `tools/hostile`). No call recurses.
//!
//! The content is kept by `mr_names_tree`, beneath, as a tree of nodes in a slab. Its types that callers see (`Node`, `Kind`,
//! `Entry`, `Entries`, `Found`, `Walk`) are given on here.
#![tactic(auto)]

mod barred;
mod fault;
mod laws;
mod namespace;
mod op;

pub use fault::NameFault;
pub use laws::{
    answered, bars_stay, delete_takes_out, each_path, listings, others_stay, rename_moves, runs,
    settles, stays_tree,
};
pub use mr_ids::Bytes;
pub use mr_names_tree::{Entries, Entry, Found, Kind, Node, Walk};
pub use namespace::{MAX_BARRED, MAX_ENTRIES, MAX_FILE_LEN, Namespace};
pub use op::{Answer, Caller, Op};
