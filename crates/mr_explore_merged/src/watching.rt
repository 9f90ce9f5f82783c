//! Who watches an exploration is told how far a search is.

use mr_explore::Watch;
use mr_explore_noted::Observer;

/// It tells what a search tells to who watches.
#[derive(Drop)]
pub(crate) struct Watching<'a, W: Watch> {
    pub(crate) watch: &'a W,
}

impl<W: Watch> Observer for Watching<'_, W> {
    fn tell(&self, runs: u64, ends: usize) {
        self.watch.tell(runs, ends);
    }
}
