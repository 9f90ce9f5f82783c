//! Marks: what an event decides, of whom.
ghost use Rattle.std.specs.Prelude.{◌≡◌};
ghost use Rattle.mr_trace_marks.specs.Marks.{is_attempts, is_deciding, is_minor, is_of, is_reduces, number_of};

use mr_ids::AttemptId;

/// Of whom a mark is.
#[derive(Clone, Copy, Debug, PartialEq, Eq)]
pub enum Subject {
    /// An attempt at a task.
    Attempt(AttemptId),
    /// The master of this generation.
    Master(u32),
    /// The node of this number.
    Node(u32),
    /// The job.
    Job,
}

/// What a mark says.
#[derive(Clone, Copy, Debug, PartialEq, Eq)]
pub enum Sign {
    /// A master sent its launch to a node.
    Launched,
    /// It heard that it may commit.
    Allowed,
    /// It heard that it may not commit.
    Denied,
    /// Its task commit was made.
    Committed,
    /// Its success was appended to the history.
    Recorded,
    /// It became the recorded winner: its success is stable.
    Won,
    /// Its success was cut from the history before it was stable.
    Lost,
    /// A store call of it was refused, and it heard so.
    Refused,
    /// The store barred it.
    Barred,
    /// It reported that it failed.
    Failed,
    /// Its container was killed.
    Killed,
    /// Its container died.
    Died,
    /// Its container ended with its node.
    Restarted,
    /// Its node was given up while it ran.
    GivenUp,
    /// A newer master started while it ran.
    Superseded,
    /// Its container came to its end.
    Ended,
    /// A master starts.
    Starts,
    /// A master crashes.
    Crashes,
    /// A master stops.
    Stops,
    /// A master begins the job commit.
    Begins,
    /// A master moved a file into the destination.
    Publishes,
    /// A master made the success marker.
    Completes,
    /// A node restarts.
    Restarts,
    /// A node is given up.
    Leaves,
    /// The job is reported succeeded.
    Succeeds,
    /// The job is reported failed.
    Fails,
}

/// What an event decides of a subject.
#[derive(Clone, Copy, Debug, PartialEq, Eq)]
pub struct Mark {
    /// The place of the event in the journal, from 0.
    pub place: u64,
    /// Of whom it is.
    pub subject: Subject,
    /// What it says.
    pub sign: Sign,
}

impl Sign {
    /// The number of a sign in the table, from 0.
    pub fn number(self) -> u8
        ensures { result ≡ number_of self }
    {
        match self {
            Sign::Launched => 0,
            Sign::Allowed => 1,
            Sign::Denied => 2,
            Sign::Committed => 3,
            Sign::Recorded => 4,
            Sign::Won => 5,
            Sign::Lost => 6,
            Sign::Refused => 7,
            Sign::Barred => 8,
            Sign::Failed => 9,
            Sign::Killed => 10,
            Sign::Died => 11,
            Sign::Restarted => 12,
            Sign::GivenUp => 13,
            Sign::Superseded => 14,
            Sign::Ended => 15,
            Sign::Starts => 16,
            Sign::Crashes => 17,
            Sign::Stops => 18,
            Sign::Begins => 19,
            Sign::Publishes => 20,
            Sign::Completes => 21,
            Sign::Restarts => 22,
            Sign::Leaves => 23,
            Sign::Succeeds => 24,
            Sign::Fails => 25,
        }
    }
}

/// Whether a mark is of this attempt, and has this sign.
pub fn is_of(mark: &Mark, attempt: &AttemptId, sign: Sign) -> bool
    ensures { result ≡ is_of mark.now attempt.now sign }
{
    is_attempts(&mark.subject, attempt) && mark.sign.number() == sign.number()
}

/// Whether a mark of this subject is of this attempt.
#[tactic(auto, unfolding(mr_ids::specs::Same::same_attempt))]
pub fn is_attempts(subject: &Subject, attempt: &AttemptId) -> bool
    ensures { result ≡ is_attempts subject.now attempt.now }
{
    match subject {
        Subject::Attempt(marked) => marked == attempt,
        Subject::Master(_) => false,
        Subject::Node(_) => false,
        Subject::Job => false,
    }
}

/// Whether a subject is not an attempt at a map.
pub fn is_reduces(subject: &Subject) -> bool
    ensures { result ≡ is_reduces subject.now }
{
    match subject {
        Subject::Attempt(attempt) => attempt.task().kind.is_reduce(),
        Subject::Master(_) => true,
        Subject::Node(_) => true,
        Subject::Job => true,
    }
}

/// Whether an event with this mark decides something: it is of no map, and no mere end of a container.
pub fn is_deciding(mark: &Mark) -> bool
    ensures { result ≡ is_deciding mark.now }
{
    is_reduces(&mark.subject) && !is_minor(mark.sign)
}

// The end of a container whose attempt is done, or was marked otherwise.
fn is_minor(sign: Sign) -> bool
    ensures { result ≡ is_minor sign }
{
    sign.number() == 15
}
