//! Who is told how far a search is.

/// Is told how far a search is, while it goes on.
pub trait Observer {
    /// So far this many runs were found, and they came to this many ends.
    fn tell(&self, runs: u64, ends: usize);
}

/// Is told nothing.
#[derive(Clone, Copy, Debug)]
pub struct Unobserved;

impl Observer for Unobserved {
    fn tell(&self, _runs: u64, _ends: usize) {}
}
