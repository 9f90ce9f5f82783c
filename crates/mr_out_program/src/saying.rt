//! What a command says of how it ended, and its exit status.
ghost use Rattle.std.specs.Prelude.{◌≡◌};
ghost use Rattle.mr_out_program.specs.Sayings.{text_of, message_of, status_of, standing_saying, done_saying, failing_saying, fail_saying, attempt_saying, publish_saying, order_saying};

use mr_out_steps::{Outcome, Standing};

/// What a command says of how it ended.
#[derive(Clone, Copy, Debug, PartialEq, Eq)]
pub(crate) enum Saying {
    /// It is done.
    Done,
    /// It is not done, as the job stands.
    Undone,
    /// The attempt won.
    Won,
    /// The attempt lost: another one at its task won.
    LostAnother,
    /// The attempt lost: it was given up.
    LostGivenUp,
    /// The attempt lost: the job was ended as failed.
    LostOver,
    /// No attempt was begun, since what was asked for is won.
    NoneAllWon,
    /// No attempt was begun, since enough are under way.
    NoneBusy,
    /// No attempt was begun, since the job was ended as failed.
    NoneOver,
    /// No attempt was begun, since there are as many as there may be.
    Full,
    /// Nothing is published, since some task has no winner.
    NotAllWon,
    /// Nothing is published, since the job was ended as failed.
    EndedAsFailed,
    /// The job is not ended as failed, since it is published.
    NotEnded,
    /// Nothing is forgotten, since the job is not published.
    NotForgotten,
}

impl Saying {
    /// What standard output is given.
    pub(crate) fn text(self) -> &'static str
        ensures { result.now ≡ text_of self }
    {
        match self {
            Saying::Done => "",
            Saying::Undone => "",
            Saying::Won => "won\n",
            Saying::LostAnother => "lost another\n",
            Saying::LostGivenUp => "lost given-up\n",
            Saying::LostOver => "lost over\n",
            Saying::NoneAllWon => "none all-won\n",
            Saying::NoneBusy => "none busy\n",
            Saying::NoneOver => "none over\n",
            Saying::Full => "",
            Saying::NotAllWon => "",
            Saying::EndedAsFailed => "",
            Saying::NotEnded => "",
            Saying::NotForgotten => "",
        }
    }

    /// What standard error is given.
    pub(crate) fn message(self) -> &'static str
        ensures { result.now ≡ message_of self }
    {
        match self {
            Saying::Full => "mrout: full\n",
            Saying::NotAllWon => "mrout: not all are won\n",
            Saying::EndedAsFailed => "mrout: the job was ended as failed\n",
            Saying::NotEnded =>
                "mrout: every task is won, and the job is published; nothing was ended\n",
            Saying::NotForgotten =>
                "mrout: the job is not published, so nothing was forgotten (see: mrout status)\n",
            _ => "",
        }
    }

    /// The exit status.
    pub(crate) fn status(self) -> u8
        ensures { result ≡ status_of self }
    {
        match self {
            Saying::Done | Saying::Won => 0,
            Saying::Undone => 1,
            Saying::LostAnother | Saying::LostGivenUp | Saying::LostOver => 1,
            Saying::NoneAllWon => 1,
            Saying::NoneBusy => 75,
            Saying::NoneOver => 6,
            Saying::Full => 7,
            Saying::NotAllWon | Saying::EndedAsFailed => 1,
            Saying::NotEnded | Saying::NotForgotten => 1,
        }
    }
}

/// What `done` says. Nothing: the job has no such attempt.
pub(crate) fn done_saying(outcome: Outcome) -> Option<Saying>
    ensures { result ≡ done_saying outcome }
{
    match outcome {
        Outcome::Stands(standing) => standing_saying(standing),
        _ => None,
    }
}

fn standing_saying(standing: Standing) -> Option<Saying>
    ensures { result ≡ standing_saying standing }
{
    match standing {
        Standing::Won => Some(Saying::Won),
        Standing::Beaten => Some(Saying::LostAnother),
        Standing::GivenUp => Some(Saying::LostGivenUp),
        Standing::JobOver => Some(Saying::LostOver),
        Standing::UnderWay => None,
        Standing::Unknown => None,
    }
}

/// What `fail` says of one attempt. Nothing: the job has no such attempt.
pub(crate) fn fail_saying(outcome: Outcome) -> Option<Saying>
    ensures { result ≡ fail_saying outcome }
{
    match outcome {
        Outcome::Stands(standing) => failing_saying(standing),
        _ => Some(Saying::Undone),
    }
}

fn failing_saying(standing: Standing) -> Option<Saying>
    ensures { result ≡ failing_saying standing }
{
    match standing {
        Standing::GivenUp => Some(Saying::Done),
        Standing::Unknown => None,
        _ => Some(Saying::Undone),
    }
}

/// What `attempt` says, where it began none.
pub(crate) fn attempt_saying(outcome: Outcome) -> Saying
    ensures { result ≡ attempt_saying outcome }
{
    match outcome {
        Outcome::Busy => Saying::NoneBusy,
        Outcome::JobOver => Saying::NoneOver,
        Outcome::Full => Saying::Full,
        _ => Saying::NoneAllWon,
    }
}

/// What `publish` says.
pub(crate) fn publish_saying(outcome: Outcome) -> Saying
    ensures { result ≡ publish_saying outcome }
{
    match outcome {
        Outcome::Finished => Saying::Done,
        Outcome::JobOver => Saying::EndedAsFailed,
        _ => Saying::NotAllWon,
    }
}

/// What `abort` and `forget` say.
pub(crate) fn order_saying(outcome: Outcome) -> Saying
    ensures { result ≡ order_saying outcome }
{
    match outcome {
        Outcome::Finished => Saying::Done,
        Outcome::AllWon => Saying::NotEnded,
        Outcome::Unpublished => Saying::NotForgotten,
        _ => Saying::Undone,
    }
}
