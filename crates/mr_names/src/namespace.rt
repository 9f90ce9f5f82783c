//! The namespace as its callers see it: each call, and its refusals in their order, with the fence and the barred attempts. What stands where is kept in a `Tree` of mr_names_tree.
ghost use Rattle.std.specs.Prelude.{IsOkUnless, IsTrue, ◌≡◌, ◌↔◌, ◌+◌, ℕ, [], ◌∷◌, ◌++◌, IfOk, OnOk, OnErr, length, nat_lt, ◌<◌, ◌^◌, if◌then◌else◌, Some, None, true, false};
ghost use Rattle.mr_names_tree.specs.Walk.{walk};
ghost use Rattle.mr_names.specs.Calls.{State, IsSound, opening, raised, Makes, MakesAlways, Refuses, unheard, refused, entry_count, may_want_memory};

use crate::barred::Barred;
use crate::fault::NameFault;
use crate::op::{Answer, Caller, Op};
use mr_ids::{AppAttempt, AttemptId, Bytes};
use mr_names_tree::{Entries, Kind, Node, Tree, Walk};
use mr_paths::{Path, is_within, parent};
use std::alloc::{AllocError, Global};
use std::marker::Model;

/// The most entries that a namespace has, the root aside.
pub const MAX_ENTRIES: usize = 65536;

/// The most bytes that a file has.
pub const MAX_FILE_LEN: usize = 16777216;

/// The most attempts that are barred.
pub const MAX_BARRED: usize = 100_000;

/// The directories and files of a cluster, the fence below which no caller is heard, and the attempts that are barred.
///
/// Contracts see its content, a finite map from paths to nodes, its fence, and the barred attempts, a finite set. The
/// root is always a directory, and so is the parent of each other entry. Each call first compares its caller with the
/// fence, then looks whether the caller's attempt is barred. Then it answers the first of its own refusals that
/// applies, then [`NameFault::Full`], and [`NameFault::NoMemory`] last. A refusal changes nothing.
pub struct Namespace {
    tree: Tree,
    fence: u32,
    barred: Barred,
    alloc: Global,
}

// Written by hand, so that the check takes the drop of a namespace as one call. A derived drop it takes apart at each place where one is
// dropped.
impl Drop for Namespace {
    fn drop(self) {
        let Namespace {
            tree: _,
            fence: _,
            barred: _,
            alloc: _,
        } = self;
    }
}

impl Model for Namespace {
    ghost use Rattle.mr_names.specs.Calls.{State, state_code};

    ghost Value = { State };

    ghost coded = { state_code };

    ghost view = { λ n. record { content = n.tree; fence = n.fence; barred = n.barred } };

    ghost use Rattle.mr_names.specs.Calls.{IsSound};

    ghost invariant = { λ n. IsSound (record { content = n.tree; fence = n.fence; barred = n.barred }) };
}

impl Namespace {
    /// A namespace with the root alone, fence 0, and no attempt barred. The root is an entry, so that this may want
    /// memory.
    pub fn new(alloc: Global) -> Result<Namespace, NameFault>
        ensures made { IfOk result (λ names. names ≡ opening) }
        ensures memory { IsOkUnless result NameFault.NoMemory }
    {
        Ok(Namespace {
            tree: Tree::new(alloc)?,
            fence: 0,
            barred: Barred::new(alloc),
            alloc,
        })
    }

    /// A namespace of its own, with the same content, fence and barred attempts. Its only fault is an allocation
    /// failure.
    pub fn copy(&self) -> Result<Namespace, AllocError>
        ensures { IfOk result (λ names. names ≡ self.now) }
    {
        Ok(Namespace {
            tree: self.tree.copy()?,
            fence: self.fence,
            barred: self.barred.copy()?,
            alloc: self.alloc,
        })
    }

    /// Whether both hold the same: the content, the fence and the barred attempts. It takes memory for a walk through
    /// one, where both have the same fence, as many entries and the same barred attempts.
    pub fn is_same(&self, other: &Namespace) -> Result<bool, AllocError>
        ensures { IfOk result (λ same. IsTrue same ↔ (self.now ≡ other.now)) }
    {
        if self.fence != other.fence {
            return Ok(false);
        }
        if !self.barred.is_same(&other.barred) {
            return Ok(false);
        }
        let same = self.tree.is_same(self.alloc, &other.tree)?;
        Ok(same)
    }

    /// The generation below which no caller is heard: 0 at first, and never above 1,000, so that a caller of
    /// generation 1,000 is always heard.
    pub fn fence(&self) -> u32
        ensures value { result ≡ self.now.fence }
        ensures sound { IsSound self.now }
    {
        self.fence
    }

    /// Refuses a caller that no call hears: `Superseded` below the fence, else `Barred`.
    pub fn check_caller(&self, caller: Caller) -> Result<(), NameFault>
        ensures { Refuses (unheard self.now caller) result }
    {
        if caller.app.number() < self.fence {
            Err(NameFault::Superseded(self.fence))
        } else if self.barred.bars(caller.attempt) {
            Err(NameFault::Barred)
        } else {
            Ok(())
        }
    }

    /// Sets the fence to a generation, if that is greater.
    pub fn raise(&mut self, app: AppAttempt)
        ensures { self.new ≡ raised self.old app }
    {
        self.fence = self.fence.max(app.number());
    }

    /// Makes a directory, and each directory that is missing on the way, all or none. Nothing happens where it is
    /// there. Refused `NotDir` where the path or one above it is a file, `Full`.
    pub fn mkdirs(&mut self, caller: Caller, path: &Path) -> Result<(), NameFault>
        ensures made { Makes (λ _. Answer.Done) self.old caller (Op.Mkdirs path.now) result self.new }
        // A directory that is there wants no memory.
        ensures always { may_want_memory self.old (Op.Mkdirs path.now) ≡ false → MakesAlways (λ _. Answer.Done) self.old caller (Op.Mkdirs path.now) result self.new }
    {
        self.check_mkdirs(caller, path)?;
        self.tree.make_dirs(self.alloc, path.names())?;
        Ok(())
    }

    /// Makes an empty file, closed at once if asked. Refused `Exists`, `NoParent`, `NotDir` where the parent is a
    /// file, `Full`.
    pub fn create(&mut self, caller: Caller, path: &Path, closed: bool) -> Result<(), NameFault>
        ensures { Makes (λ _. Answer.Done) self.old caller (Op.Create path.now closed) result self.new }
    {
        self.check_create(caller, path, closed)?;
        let file = Node::File {
            bytes: Bytes::new(self.alloc),
            closed,
        };
        self.tree.insert(self.alloc, path.names(), file)?;
        Ok(())
    }

    /// Adds bytes at the end of a file. Refused `Missing`, `NotFile`, `Closed`, `Full`.
    pub fn append(&mut self, caller: Caller, path: &Path, more: &[u8]) -> Result<(), NameFault>
        ensures made { Makes (λ _. Answer.Done) self.old caller (Op.Append path.now more.now) result self.new }
        // An append of no bytes wants no memory.
        ensures always { may_want_memory self.old (Op.Append path.now more.now) ≡ false → MakesAlways (λ _. Answer.Done) self.old caller (Op.Append path.now more.now) result self.new }
    {
        self.check_append(caller, path, more)?;
        self.append_bytes(caller, path, &Bytes::from_slice(self.alloc, more)?)
    }

    /// Closes a file: nothing more is added to it. Refused `Missing`, `NotFile`, `Closed`.
    pub fn close(&mut self, caller: Caller, path: &Path) -> Result<(), NameFault>
        ensures { MakesAlways (λ _. Answer.Done) self.old caller (Op.Close path.now) result self.new }
    {
        self.check_close(caller, path)?;
        self.tree.close(path.names());
        Ok(())
    }

    /// Removes a path and all beneath it. Refused `NoParent` where nothing is at the parent or the path is the root,
    /// `Missing`.
    pub fn delete(&mut self, caller: Caller, path: &Path) -> Result<(), NameFault>
        ensures { MakesAlways (λ _. Answer.Done) self.old caller (Op.Delete path.now) result self.new }
    {
        self.check_delete(caller, path)?;
        self.tree.take_out(path.names());
        Ok(())
    }

    /// Moves all that is at and beneath `from`, in one step. Refused `Missing` where nothing is at `from`,
    /// `IntoItself` where `to` is `from` or beneath it, `Exists` where something is at `to`, `NoParent` and `NotDir`
    /// for the parent of `to`.
    pub fn rename(&mut self, caller: Caller, from: &Path, to: &Path) -> Result<(), NameFault>
        ensures { Makes (λ _. Answer.Done) self.old caller (Op.Rename from.now to.now) result self.new }
    {
        self.check_rename(caller, from, to)?;
        self.tree.rename(from.names(), to.names())?;
        Ok(())
    }

    /// The entries of a directory, by the bytes of their names. Refused `Missing`, `NotDir`.
    pub fn list(&self, caller: Caller, path: &Path) -> Result<Entries, NameFault>
        ensures made { Makes Answer.Listed self.now caller (Op.List path.now) result self.now }
        // A directory without entries wants no memory.
        ensures always { may_want_memory self.now (Op.List path.now) ≡ false → MakesAlways Answer.Listed self.now caller (Op.List path.now) result self.now }
    {
        self.check_list(caller, path)?;
        Ok(self.tree.children(self.alloc, path.names())?)
    }

    /// What is at a path, if anything is. Only the fence and a bar refuse it.
    pub fn exists(&self, caller: Caller, path: &Path) -> Result<Option<Kind>, NameFault>
        ensures { MakesAlways Answer.Found self.now caller (Op.Exists path.now) result self.now }
    {
        self.check_caller(caller)?;
        Ok(self.tree.get(path.names()).map(|node| node.kind()))
    }

    /// The bytes of a file so far. Refused `Missing`, `NotFile`.
    pub fn read(&self, caller: Caller, path: &Path) -> Result<Bytes, NameFault>
        ensures made { Makes Answer.Contents self.now caller (Op.Read path.now) result self.now }
        // A file without bytes wants no memory.
        ensures always { may_want_memory self.now (Op.Read path.now) ≡ false → MakesAlways Answer.Contents self.now caller (Op.Read path.now) result self.now }
    {
        self.check_caller(caller)?;
        match self.tree.get(path.names()) {
            None => Err(NameFault::Missing),
            Some(Node::Dir) => Err(NameFault::NotFile),
            Some(Node::File { bytes, .. }) => Ok(bytes.copy()?),
        }
    }

    /// Bars an attempt, for good: from then on no call whose caller has it is heard. Nothing happens where it is barred.
    /// Refused `Full` where [`MAX_BARRED`] others are.
    pub fn bar(&mut self, caller: Caller, attempt: AttemptId) -> Result<(), NameFault>
        ensures made { Makes (λ _. Answer.Done) self.old caller (Op.Bar attempt) result self.new }
        // An attempt that is barred wants no memory.
        ensures always { may_want_memory self.old (Op.Bar attempt) ≡ false → MakesAlways (λ _. Answer.Done) self.old caller (Op.Bar attempt) result self.new }
    {
        self.check_bar(caller, attempt)?;
        self.barred.insert(attempt)?;
        Ok(())
    }

    /// Makes a call that is given as a value, and gives its answer as one.
    pub fn perform(&mut self, caller: Caller, op: &Op) -> Result<Answer, NameFault>
        ensures made { Makes (λ answer. answer) self.old caller op.now result self.new }
        // Where it adds nothing and hands nothing out it wants no memory.
        ensures always { may_want_memory self.old op.now ≡ false → MakesAlways (λ answer. answer) self.old caller op.now result self.new }
    {
        match op {
            Op::Mkdirs(path) => done(self.mkdirs(caller, path)),
            Op::Create { path, closed } => done(self.create(caller, path, *closed)),
            Op::Append { path, bytes } => done(self.append_bytes(caller, path, bytes)),
            Op::Close(path) => done(self.close(caller, path)),
            Op::Delete(path) => done(self.delete(caller, path)),
            Op::Rename { from, to } => done(self.rename(caller, from, to)),
            Op::List(path) => Ok(Answer::Listed(self.list(caller, path)?)),
            Op::Exists(path) => Ok(Answer::Found(self.exists(caller, path)?)),
            Op::Read(path) => Ok(Answer::Contents(self.read(caller, path)?)),
            Op::Bar(attempt) => done(self.bar(caller, *attempt)),
        }
    }

    /// The refusal that a call would meet now, an allocation failure aside. It changes nothing.
    pub fn foresee(&self, caller: Caller, op: &Op) -> Option<NameFault>
        ensures { result ≡ refused self.now caller op.now }
    {
        self.check(caller, op).err()
    }

    /// What stands at each path, in the order of the paths: for programs that print what a namespace holds. It has no
    /// caller, so nothing refuses it.
    pub fn walk(&self) -> Result<Walk, AllocError>
        ensures { IfOk result (λ found. found ≡ walk self.now.content) }
    {
        self.tree.walk(self.alloc)
    }
}

impl Namespace {
    // As `append`, of bytes that may be shared: a file that was empty shares them then.
    fn append_bytes(&mut self, caller: Caller, path: &Path, more: &Bytes) -> Result<(), NameFault>
        ensures made { Makes (λ _. Answer.Done) self.old caller (Op.Append path.now more.now) result self.new }
        ensures always { may_want_memory self.old (Op.Append path.now more.now) ≡ false → MakesAlways (λ _. Answer.Done) self.old caller (Op.Append path.now more.now) result self.new }
    {
        self.check_append(caller, path, more.as_slice())?;
        self.tree.append(path.names(), more)?;
        Ok(())
    }
}

// The refusals, memory aside.
impl Namespace {
    fn check(&self, caller: Caller, op: &Op) -> Result<(), NameFault>
        ensures { Refuses (refused self.now caller op.now) result }
    {
        match op {
            Op::Mkdirs(path) => self.check_mkdirs(caller, path),
            Op::Create { path, closed } => self.check_create(caller, path, *closed),
            Op::Append { path, bytes } => self.check_append(caller, path, bytes.as_slice()),
            Op::Close(path) => self.check_close(caller, path),
            Op::Delete(path) => self.check_delete(caller, path),
            Op::Rename { from, to } => self.check_rename(caller, from, to),
            Op::List(path) => self.check_list(caller, path),
            Op::Exists(_path) => self.check_caller(caller),
            Op::Read(path) => self.check_read(caller, path),
            Op::Bar(attempt) => self.check_bar(caller, *attempt),
        }
    }

    // Whether there is room for some more entries.
    fn check_room(&self, more: usize) -> Result<(), NameFault>
        ensures { Refuses (if nat_lt MAX_ENTRIES (entry_count self.now.content + more) then Some NameFault.Full else None) result }
    {
        let count = self.tree.len().saturating_sub(1);
        if MAX_ENTRIES - count < more {
            Err(NameFault::Full)
        } else {
            Ok(())
        }
    }

    fn check_mkdirs(&self, caller: Caller, path: &Path) -> Result<(), NameFault>
        ensures { Refuses (refused self.now caller (Op.Mkdirs path.now)) result }
    {
        self.check_caller(caller)?;
        match self.tree.missing(path.names()) {
            None => Err(NameFault::NotDir),
            Some(missing) => self.check_room(missing),
        }
    }

    fn check_create(&self, caller: Caller, path: &Path, closed: bool) -> Result<(), NameFault>
        ensures { Refuses (refused self.now caller (Op.Create path.now closed)) result }
    {
        self.check_caller(caller)?;
        if self.tree.get(path.names()).is_some() {
            return Err(NameFault::Exists);
        }
        match self.tree.get(parent(path.names())) {
            None => Err(NameFault::NoParent),
            Some(Node::File { .. }) => Err(NameFault::NotDir),
            Some(Node::Dir) => self.check_room(1),
        }
    }

    fn check_append(&self, caller: Caller, path: &Path, more: &[u8]) -> Result<(), NameFault>
        ensures { Refuses (refused self.now caller (Op.Append path.now more.now)) result }
    {
        self.check_caller(caller)?;
        match self.tree.get(path.names()) {
            None => Err(NameFault::Missing),
            Some(Node::Dir) => Err(NameFault::NotFile),
            Some(Node::File { bytes, closed }) => {
                if *closed {
                    Err(NameFault::Closed)
                } else if MAX_FILE_LEN - bytes.len() < more.len() {
                    Err(NameFault::Full)
                } else {
                    Ok(())
                }
            }
        }
    }

    fn check_close(&self, caller: Caller, path: &Path) -> Result<(), NameFault>
        ensures { Refuses (refused self.now caller (Op.Close path.now)) result }
    {
        self.check_caller(caller)?;
        match self.tree.get(path.names()) {
            None => Err(NameFault::Missing),
            Some(Node::Dir) => Err(NameFault::NotFile),
            Some(Node::File { closed: true, .. }) => Err(NameFault::Closed),
            Some(Node::File { closed: false, .. }) => Ok(()),
        }
    }

    fn check_delete(&self, caller: Caller, path: &Path) -> Result<(), NameFault>
        ensures { Refuses (refused self.now caller (Op.Delete path.now)) result }
    {
        self.check_caller(caller)?;
        if path.len() == 0 || self.tree.get(parent(path.names())).is_none() {
            return Err(NameFault::NoParent);
        }
        if self.tree.get(path.names()).is_none() {
            return Err(NameFault::Missing);
        }
        Ok(())
    }

    fn check_rename(&self, caller: Caller, from: &Path, to: &Path) -> Result<(), NameFault>
        ensures { Refuses (refused self.now caller (Op.Rename from.now to.now)) result }
    {
        self.check_caller(caller)?;
        if self.tree.get(from.names()).is_none() {
            return Err(NameFault::Missing);
        }
        if is_within(to.names(), from.names()) {
            return Err(NameFault::IntoItself);
        }
        if self.tree.get(to.names()).is_some() {
            return Err(NameFault::Exists);
        }
        match self.tree.get(parent(to.names())) {
            None => Err(NameFault::NoParent),
            Some(Node::File { .. }) => Err(NameFault::NotDir),
            Some(Node::Dir) => Ok(()),
        }
    }

    fn check_list(&self, caller: Caller, path: &Path) -> Result<(), NameFault>
        ensures { Refuses (refused self.now caller (Op.List path.now)) result }
    {
        self.check_caller(caller)?;
        match self.tree.get(path.names()) {
            None => Err(NameFault::Missing),
            Some(Node::File { .. }) => Err(NameFault::NotDir),
            Some(Node::Dir) => Ok(()),
        }
    }

    fn check_bar(&self, caller: Caller, attempt: AttemptId) -> Result<(), NameFault>
        ensures { Refuses (refused self.now caller (Op.Bar attempt)) result }
    {
        self.check_caller(caller)?;
        if !self.barred.contains(attempt) && self.barred.len() >= MAX_BARRED {
            Err(NameFault::Full)
        } else {
            Ok(())
        }
    }

    fn check_read(&self, caller: Caller, path: &Path) -> Result<(), NameFault>
        ensures { Refuses (refused self.now caller (Op.Read path.now)) result }
    {
        self.check_caller(caller)?;
        match self.tree.get(path.names()) {
            None => Err(NameFault::Missing),
            Some(Node::Dir) => Err(NameFault::NotFile),
            Some(Node::File { .. }) => Ok(()),
        }
    }
}

// The answer of a call that hands nothing out.
fn done(given: Result<(), NameFault>) -> Result<Answer, NameFault>
    ensures made { (old new : State) (caller : Caller) (op : Op) → Makes (λ _. Answer.Done) old caller op given new → Makes (λ answer. answer) old caller op result new }
    ensures always { (old new : State) (caller : Caller) (op : Op) → MakesAlways (λ _. Answer.Done) old caller op given new → MakesAlways (λ answer. answer) old caller op result new }
{
    given?;
    Ok(Answer::Done)
}
