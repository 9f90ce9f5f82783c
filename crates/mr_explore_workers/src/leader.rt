//! The worker that takes the parts of the rounds too.
ghost use Rattle.std.specs.Prelude.{◌≡◌, [], IfOk};
ghost use Rattle.mr_explore_least.specs.Table.{empty};
ghost use Rattle.mr_explore_workers.specs.inner.Working.{HasWorked, Searches, TakesNext};

use crate::parts::{Round, take_round};
use crate::worker::Worker;
use mr_explore_noted::{Noted, NotedRun};
use mr_explore_places::{Bounds, Search};
use mr_explore_search::WalkFault;
use std::alloc::{AllocError, Global};

/// A worker, and the search that gives parts away. The runs that this search finds are noted beside it.
#[derive(Drop)]
pub struct Leader<R: NotedRun> {
    pub search: Search<R>,
    pub noted: Noted<R>,
    pub worker: Worker<R>,
}

impl<R: NotedRun> Leader<R> {
    /// A worker that has searched nothing yet, and keeps places in so many rows, and this search, which has given nothing away.
    pub fn new(
        alloc: Global,
        search: Search<R>,
        bounds: &Bounds,
        rows: usize,
    ) -> Result<Leader<R>, AllocError>
        ensures search { IfOk result (λ leader. (leader.search ≡ search) × (leader.noted ≡ empty)) }
        ensures worker { IfOk result (λ leader. (first : R) → HasWorked R.steps R.rest R.before R.void R.like R.ends R.end R.events bounds.now first [] leader.worker) }
    {
        let worker = Worker::new(alloc, bounds, rows)?;
        let noted = Noted::new(alloc);
        Ok(Leader {
            search,
            noted,
            worker,
        })
    }

    /// It takes the next round, for so many workers, unless this is the last one. Then it searches parts of this round.
    pub fn lead(
        &mut self,
        alloc: Global,
        round: &Round<R>,
        workers: usize,
    ) -> Result<Option<Round<R>>, WalkFault>
        ensures searched { Searches R.steps R.rest R.before R.void R.like R.ends R.end R.events round.now.parts.items self.old.worker self.new.worker }
        ensures next { TakesNext R.steps R.rest R.before R.void R.like R.ends R.end R.events (λ r. r.is_last) (λ r. r.parts.items) round.now.is_last result self.old.search self.old.noted self.new.search self.new.noted }
    {
        let next = self.take_next(alloc, round.is_last, workers);
        self.worker
            .work(alloc, &round.parts, &round.next, round.is_last);
        next
    }

    // It takes the next round unless the last one was taken.
    fn take_next(
        &mut self,
        alloc: Global,
        is_last: bool,
        workers: usize,
    ) -> Result<Option<Round<R>>, WalkFault>
        ensures worker { self.new.worker ≡ self.old.worker }
        ensures next { TakesNext R.steps R.rest R.before R.void R.like R.ends R.end R.events (λ r. r.is_last) (λ r. r.parts.items) is_last result self.old.search self.old.noted self.new.search self.new.noted }
    {
        if is_last {
            return Ok(None);
        }
        let round = take_round(alloc, &mut self.search, &mut self.noted, workers)?;
        Ok(Some(round))
    }
}
