//! Whether the same was put off in two plays.
ghost use Rattle.std.specs.Prelude.{◌≡◌, IsTrue};
ghost use Rattle.mr_explore_faults.specs.declared.fault.Fault.TheVariants as fault;
ghost use Rattle.mr_explore_compared.specs.inner.Compared.{AreOwedAlike, IsOwedAlike};

use crate::packets::is_one_packet;
use mr_explore::Fault;
use mr_play::Player;

/// Whether what was put off is the same, one by one.
pub fn are_owed_alike(here: &Player, owed: &[Fault], there: &Player, others: &[Fault]) -> bool
    ensures { IsTrue result → AreOwedAlike here.now there.now owed.now others.now }
{
    if owed.len() != others.len() {
        return false;
    }
    for i in 0..owed.len() {
        if !is_one_later(here, &owed[i], there, &others[i]) {
            return false;
        }
    }
    true
}

// A packet that may come late, or the next master's start.
fn is_one_later(here: &Player, fault: &Fault, there: &Player, other: &Fault) -> bool
    ensures { IsTrue result → IsOwedAlike here.now there.now fault.now other.now }
{
    match fault {
        Fault::Late(packet) => is_late(here, *packet, there, other),
        Fault::Next => is_next(other),
        _ => false,
    }
}

// The other one is this packet, late.
fn is_late(here: &Player, packet: u64, there: &Player, other: &Fault) -> bool
    ensures { IsTrue result → IsOwedAlike here.now there.now (fault.Late packet) other.now }
{
    match other {
        Fault::Late(late) => is_one_packet(here, there, packet, *late),
        _ => false,
    }
}

fn is_next(other: &Fault) -> bool
    ensures { IsTrue result → other.now ≡ fault.Next }
{
    matches!(other, Fault::Next)
}
