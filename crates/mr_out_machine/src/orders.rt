//! What an order decides by itself.
ghost use Rattle.std.specs.Prelude.{◌≡◌, if◌then◌else◌};
ghost use Rattle.mr_out_steps.specs.Standing.{is_over};
ghost use Rattle.mr_out_steps.specs.Steps.{only_asks, decides, releases};

use crate::standing::is_over;
use mr_history::Record;
use mr_out_steps::{Order, Outcome, Phase};

/// An order that changes nothing.
pub(crate) fn only_asks(order: Order) -> bool
    ensures { result ≡ only_asks order }
{
    match order {
        Order::Ask(_) => true,
        _ => false,
    }
}

/// How a job is published whose tasks all have winners: a held one once that is decided, which an order to publish does.
pub(crate) fn release(hold: bool, order: Order) -> Phase
    ensures { result ≡ releases hold order }
{
    if hold { decide(order) } else { Phase::Listing }
}

fn decide(order: Order) -> Phase
    ensures { result ≡ decides order }
{
    match order {
        Order::Publish => Phase::Deciding,
        _ => Phase::FindingDecision,
    }
}

/// The first where the job is over; else the second.
pub(crate) fn over_or(records: &[Record], over: Outcome, otherwise: Outcome) -> Outcome
    ensures { result ≡ (if is_over records.now then over else otherwise) }
{
    if is_over(records) { over } else { otherwise }
}
