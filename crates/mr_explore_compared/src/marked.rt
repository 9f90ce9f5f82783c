//! What a search that leaves runs out knows of the runs of an exploration.
ghost use Rattle.std.specs.Prelude.{false};
ghost use Rattle.mr_explore_likeness.specs.Runs.{before, ends, like, rest, void};

use crate::compared::Compared;
use crate::comparing::is_like;
use crate::marking::mark_with;
use mr_explore::Fault;
use mr_explore_alike::AlikeRun;
use mr_explore_places::MarkedRun;
use mr_explore_search::WalkFault;
use mr_script_order::is_sooner;
use std::alloc::Global;

impl AlikeRun for Compared {
    ghost rest = { rest };

    ghost before = { before };

    ghost void = { void };

    ghost like = { like false };

    ghost ends = { ends };
}

impl MarkedRun for Compared {
    fn is_void(&self) -> bool {
        self.run().passes_limit()
    }

    fn comes_before(&self, other: &Compared) -> bool {
        is_sooner(self.run().world().journal(), other.run().world().journal())
    }

    fn mark(&self, _alloc: Global, owed: &[Fault]) -> Result<u64, WalkFault> {
        mark_with(self.run(), self.digest(), owed)
    }

    fn is_like(
        &self,
        _alloc: Global,
        owed: &[Fault],
        other: &Compared,
        other_owed: &[Fault],
    ) -> Result<bool, WalkFault> {
        is_like(self.run(), owed, other.run(), other_owed)
    }
}
