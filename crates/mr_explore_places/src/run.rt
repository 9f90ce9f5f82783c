//! What is searched: a run that can be compared with others.
ghost use Rattle.std.specs.Prelude.{◌≡◌, IsTrue, IfOk, IfErr};
ghost use Rattle.mr_explore_search.specs.Steps.{IsNotFull};

use mr_explore_alike::AlikeRun;
use mr_explore_search::WalkFault;
use std::alloc::Global;

/// A run that can be compared with others.
pub trait MarkedRun: AlikeRun {
    /// Whether a limit forbids its last fault.
    fn is_void(&self) -> bool
        ensures { result ≡ Self.void self.now };

    /// Whether its script comes before that of the other one.
    fn comes_before(&self, other: &Self) -> bool
        ensures { result ≡ Self.before self.now other.now };

    /// Where to look for runs that are like it: a number that they have too. What earlier faults put off, and has not come, is `owed`.
    fn mark(&self, alloc: Global, owed: &[Self::Fault]) -> Result<u64, WalkFault>
        ensures fault { IfErr result IsNotFull };

    /// Whether it is known that whatever comes of it comes of the other run too. A run may know less than is so.
    fn is_like(
        &self,
        alloc: Global,
        owed: &[Self::Fault],
        other: &Self,
        other_owed: &[Self::Fault],
    ) -> Result<bool, WalkFault>
        ensures is { IfOk result (λ known. IsTrue known → Self.like self.now owed.now other.now other_owed.now) }
        ensures fault { IfErr result IsNotFull };
}
