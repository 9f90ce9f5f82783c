//! What an order decides from a front of the log.
use crate::order::Outcome;
use mr_ids::AttemptId;
use mr_log_entries::{Handed, Lines};

/// What an order decides from a front of the log.
#[derive(Drop)]
pub enum Decision {
    /// The command ends so. It puts nothing, and publishes nothing.
    Ends(Outcome),
    /// The job is published: each winner's files get their visible names, and the marker is made;
    /// then `Published` is put. The command decides again from the longer front, or, where somebody
    /// else is at it, ends so.
    Publishes(Outcome),
    /// The attempt is under way in this boot: what it wrote is handed in, which comes to a
    /// `Conclusion`.
    HandsIn(AttemptId),
    /// These lines are put as one entry. The command decides again from the longer front.
    Puts(Lines),
    /// These lines are put as one entry, which begins the attempts of its `Started` lines: they get
    /// the folders in which they write. A command that is asked to begin one attempt ends with it.
    Begins(Lines),
    /// The job is published for good, and its log is to be forgotten.
    Forgets,
}

/// What handing in an attempt came to.
#[derive(Clone, Copy, Debug, PartialEq, Eq)]
pub enum Conclusion {
    /// All that it handed in is durable.
    Succeeded(Handed),
    /// A sync failed: a later one may answer that all is well, and not mean it.
    Failed,
    /// A command that handed it in before was stopped amid a sync, which may have failed unheard.
    Interrupted,
}
