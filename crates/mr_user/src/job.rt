//! What a job is: its map, partition, combine and reduce functions, and the laws that they keep. For whoever writes a job of their own.
ghost use Rattle.std.specs.Prelude.{◌≡◌, ◌≢◌, ◌<◌, ◌≤◌, ◌^◌, [], length, map, Some, None, IfOk, IfErr};
ghost use Rattle.mr_user.specs.Computation.{Functions, computation};
ghost use Rattle.mr_user.specs.Laws.{JobLaws};
ghost use Rattle.mr_user.specs.Faults.{RefusedIf};

use crate::fault::UserFault;
use crate::wire::Wire;
use std::alloc::{AllocError, Global};

/// A job: its functions, and the laws that they keep.
/// What the functions give depends on the type alone, and not on the value that is handed in.
pub trait Job {
    /// Keys are put in order, and keys that compare equal are one value.
    type Key: Wire + Ord;

    /// Values stand beside their keys. Those of one key keep their order.
    type Value: Wire;

    /// What the functions give, an allocation failure aside.
    ghost functions: { Functions Self.Key Self.Value };

    /// The pairs of a line, which stands at place `line_no` of split `split` (both from 0).
    /// Answers `Refused` where the job takes no such line.
    fn map(
        &self,
        alloc: Global,
        split: u32,
        line_no: u64,
        line: &[u8],
    ) -> Result<Vec<(Self::Key, Self::Value)>, UserFault>
        requires { length line.now ≤ 2 ^ 24 }
        ensures pairs { IfOk result (λ pairs. functions.mapped split line_no line.now ≡ Some pairs.items) }
        ensures refused { IfErr result (λ fault. RefusedIf fault (functions.mapped split line_no line.now ≡ None)) };

    /// The reduce that a key goes to: a number below `reduces`.
    fn partition(&self, key: &Self::Key, reduces: u32) -> u32
        requires { 0 < reduces }
        ensures is { result ≡ functions.partition_of key.now reduces }
        ensures below { result < reduces };

    /// A list that is reduced to the same as the values, mostly a shorter one. It is never empty.
    fn combine(
        &self,
        alloc: Global,
        key: &Self::Key,
        values: &[Self::Value],
    ) -> Result<Vec<Self::Value>, AllocError>
        requires { values.now ≢ [] }
        ensures { IfOk result (λ combined. combined.items ≡ functions.combined key.now values.now) };

    /// The value texts of a key and all its values. Each becomes a line.
    fn reduce(
        &self,
        alloc: Global,
        key: &Self::Key,
        values: &[Self::Value],
    ) -> Result<Vec<Vec<u8>>, AllocError>
        ensures { IfOk result (λ texts. map (λ text. text.items) texts.items ≡ functions.reduced key.now values.now) };

    /// The text of a key, as each of its lines begins.
    fn key_text(&self, alloc: Global, key: &Self::Key) -> Result<Vec<u8>, AllocError>
        ensures { IfOk result (λ text. text.items ≡ functions.key_text key.now) };

    /// The job laws.
    ghost laws: { JobLaws (computation Self.Key.cmp Self.Key.codec Self.Value.codec functions) };
}
