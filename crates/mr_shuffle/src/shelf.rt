//! The map outputs that lie on a node.
ghost use Rattle.std.specs.Prelude.{◌≡◌, ◌↔◌, OnOk, OnErr, IfOk, IsTrue};
ghost use Rattle.std.specs.Option.{option_map};
ghost use Rattle.mr_shuffle.specs.Shelf.{with_output, without_outputs, block_there};

use indexmap::IndexMap;
use mr_ids::{AttemptId, Bytes};
use mr_mapside::{CutOutput, MapOutput};
use std::alloc::{AllocError, Global};
use std::marker::Model;

/// The outputs of the map attempts that ran on a node, from where reduces fetch their blocks. Contracts see how many
/// reduces the outputs are cut for, and a finite map from attempts to the bytes that were put of them.
#[derive(Drop)]
pub struct ShelfOfNode {
    reduces: u32,
    outputs: IndexMap<AttemptId, CutOutput>,
}

impl Model for ShelfOfNode {
    ghost use Rattle.std.specs.FinMap as finite;
    ghost use Rattle.mr_shuffle.specs.Shelf.{Shelf, shelf_code};

    ghost Value = { Shelf };

    ghost coded = { shelf_code };

    ghost view = { λ s. record { reduces = s.reduces; outputs = finite.from_entries s.outputs.entries } };
}

impl ShelfOfNode {
    /// An empty shelf, for outputs that are cut for this number of reduces.
    pub fn new(alloc: Global, reduces: u32) -> ShelfOfNode
        ensures { result ≡ without_outputs reduces }
    {
        ShelfOfNode {
            reduces,
            outputs: IndexMap::new(alloc),
        }
    }

    /// Puts the output of an attempt, and finds its blocks in one walk over it. It replaces one that was put of the
    /// attempt before. Answers no fault but an allocation failure, and then nothing has changed.
    pub fn put(&mut self, a: AttemptId, output: MapOutput) -> Result<(), AllocError>
        ensures ok { OnOk result (self.new ≡ with_output self.old a output) }
        ensures err { OnErr result (self.new ≡ self.old) }
    {
        let alloc = *self.outputs.allocator();
        self.outputs.insert(a, CutOutput::new(alloc, output)?)?;
        Ok(())
    }

    /// The block of a reduce in the output of an attempt. None where no output of the attempt was put since all were
    /// dropped. None too where it is not as many blocks as there are reduces, and where there is no such reduce.
    /// Nothing is walked over: each block costs a look-up.
    pub fn get(&self, a: AttemptId, reduce: u32) -> Option<&[u8]>
        ensures { option_map (λ block. block.now) result ≡ block_there self.now a reduce }
    {
        self.outputs.get(&a)?.block(self.reduces, reduce)
    }

    /// As `get`, as bytes of their own, which share those of the output. It may allocate, and refuses nothing else.
    pub fn share(&self, a: AttemptId, reduce: u32) -> Result<Option<Bytes>, AllocError>
        ensures { IfOk result (λ block. block ≡ block_there self.now a reduce) }
    {
        match self.outputs.get(&a) {
            Some(output) => output.share_block(self.reduces, reduce),
            None => Ok(None),
        }
    }

    /// An equal shelf.
    pub fn copy(&self) -> Result<ShelfOfNode, AllocError>
        ensures { IfOk result (λ shelf. shelf ≡ self.now) }
    {
        Ok(ShelfOfNode {
            reduces: self.reduces,
            outputs: self.outputs.clone()?,
        })
    }

    /// Whether both hold the same: outputs for as many reduces, and of each attempt the same bytes. In which order the
    /// outputs were put is not compared.
    #[tactic(auto, using(crate::proofs::Shelves::other_counts))]
    pub fn is_same(&self, other: &ShelfOfNode) -> bool
        ensures { IsTrue result ↔ (self.now ≡ other.now) }
    {
        if self.reduces != other.reduces {
            return false;
        }
        self.outputs == other.outputs
    }

    /// Drops all outputs, as a node that restarts.
    pub fn drop_all(&mut self)
        ensures { self.new ≡ without_outputs self.old.reduces }
    {
        self.outputs.clear();
    }
}
