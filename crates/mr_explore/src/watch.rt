//! Who is told how far an exploration is, and tells how long it took.

/// Is told how far an exploration is, while it goes on, and has a clock.
pub trait Watch {
    /// So far this many runs were made, and they came to this many ends.
    fn tell(&self, runs: u64, ends: usize);

    /// Whether so many seconds have passed since the exploration began.
    fn have_passed(&self, seconds: u64) -> bool;
}

/// Is told nothing, and has no clock: for it no time passes.
#[derive(Clone, Copy, Debug)]
pub struct Unwatched;

impl Watch for Unwatched {
    fn tell(&self, _runs: u64, _ends: usize) {}

    fn have_passed(&self, _seconds: u64) -> bool {
        false
    }
}
