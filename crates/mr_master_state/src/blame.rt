//! Whose failure the end of an attempt is, and how many records come due by it.
ghost use Rattle.std.specs.Prelude.{◌≡◌};
ghost use Rattle.mr_master_state.specs.Told.{blame_count};

/// Whose failure the end of an attempt is.
#[derive(Clone, Copy, Debug, PartialEq, Eq)]
pub enum Blame {
    /// Nobody's: the attempt was not live, or its container was asked to stop.
    Nobody,
    /// The attempt's: its failure is to be recorded.
    Attempt,
    /// The job's too: the task failed as often as the limit.
    Job,
}

impl Blame {
    // How many records come due by it.
    pub(crate) fn record_count(&self) -> usize
        ensures { result ≡ blame_count self.now }
    {
        match self {
            Blame::Nobody => 0,
            Blame::Attempt => 1,
            Blame::Job => 2,
        }
    }
}
