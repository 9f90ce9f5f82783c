//! The premises of an answer.
ghost use Rattle.std.specs.Prelude.{◌≡◌};
ghost use Rattle.mr_out_check.specs.Verdicts.{same_standing};

/// What has to hold for a directory to be read.
#[derive(Clone, Copy, Debug)]
pub enum Premise {
    /// `_SUCCESS` is there, an empty file.
    Marker,
    /// Nothing is left beneath `_temporary`, and that was listed.
    WorkDone,
    /// There is a part file for each task, and none more.
    Tasks,
    /// Each number up to the highest is there once.
    Numbers,
    /// The part files are of one family.
    Family,
    /// No other visible name is there.
    Names,
    /// The directory is none of `mrout`, whose history decides.
    Mrout,
    /// The job had one application attempt.
    AppAttempts,
    /// Each task had one attempt.
    TaskAttempts,
    /// Tasks published in the job commit: algorithm version 1.
    Algorithm,
    /// A rename of a folder happens whole.
    Store,
    /// The directory was listed only after the marker was seen.
    Order,
}

/// All premises, in the order in which they are told.
pub const PREMISES: [Premise; 12] = [
    Premise::Marker,
    Premise::WorkDone,
    Premise::Tasks,
    Premise::Numbers,
    Premise::Family,
    Premise::Names,
    Premise::Mrout,
    Premise::AppAttempts,
    Premise::TaskAttempts,
    Premise::Algorithm,
    Premise::Store,
    Premise::Order,
];

/// Whether a premise holds.
#[derive(Clone, Copy, Debug)]
pub enum Standing {
    /// It is shown, or told.
    Met,
    /// It is neither.
    Open,
    /// It does not hold.
    Broken,
}

impl Standing {
    // Whether the two are one.
    pub(crate) fn is(self, other: Standing) -> bool
        ensures { result ≡ same_standing self other }
    {
        match self {
            Standing::Met => matches!(other, Standing::Met),
            Standing::Open => matches!(other, Standing::Open),
            Standing::Broken => matches!(other, Standing::Broken),
        }
    }
}
