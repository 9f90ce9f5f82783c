//! How far a search goes.

/// How far a search goes, and how many places it keeps. What is kept changes how many runs are found, and not which ends.
#[derive(Clone, Copy, Debug)]
pub struct Bounds {
    /// How many faults a run has at most.
    pub faults: u32,
    /// How many steps a run makes by itself at most, behind each departure. One that is not at its end then is a mismatch, though the definition calls that its end.
    pub steps: u64,
    /// In how many rows places are kept.
    pub rows: usize,
}
