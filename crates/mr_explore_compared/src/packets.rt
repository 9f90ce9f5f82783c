//! Packets of two plays: which are one, which lie ahead, and how many lie last that only ask.
ghost use Rattle.std.specs.Prelude.{◌≡◌, ◌≤◌, ◌<◌, ◌-◌, IsTrue, Some, slice_get};
ghost use Rattle.mr_play.specs.Players.{cluster_in, state_in};
ghost use Rattle.mr_explore_likeness.specs.Plays.{asking_last};
ghost use Rattle.mr_explore_compared.specs.inner.Compared.{HaveOneAhead, IsOne};

use mr_explore::asks_in;
use mr_packet::Envelope;
use mr_play::Player;

/// Whether the packets at these places are one: both were passed over and are equal, or they lie as far ahead.
pub fn is_one_packet(here: &Player, there: &Player, i: u64, j: u64) -> bool
    ensures { IsTrue result → IsOne here.now there.now i j }
{
    if i < here.cursor() as u64 {
        return is_one_passed(here, there, i, j);
    }
    is_one_ahead(here, there, i, j)
}

// The same, where the first was passed over.
#[tactic(auto, using(crate::proofs::Ones::passed_is_one))]
fn is_one_passed(here: &Player, there: &Player, i: u64, j: u64) -> bool
    requires { i < (state_in here.now).cursor }
    ensures { IsTrue result → IsOne here.now there.now i j }
{
    if j < there.cursor() as u64 {
        return are_equal(here.world.bag(), i, there.world.bag(), j);
    }
    false
}

// The same, where it was not.
#[tactic(auto, using(crate::proofs::Ones::as_far_is_one))]
fn is_one_ahead(here: &Player, there: &Player, i: u64, j: u64) -> bool
    requires { (state_in here.now).cursor ≤ i }
    ensures { IsTrue result → IsOne here.now there.now i j }
{
    is_as_far(here.cursor() as u64, there.cursor() as u64, i, j)
}

// Whether two places lie as far behind these two.
fn is_as_far(m: u64, n: u64, i: u64, j: u64) -> bool
    requires { m ≤ i }
    ensures { IsTrue result → (n ≤ j) × (i - m ≡ j - n) }
{
    n <= j && i - m == j - n
}

// Whether packets lie at both places, and are equal.
fn are_equal(bag: &[Envelope], i: u64, other: &[Envelope], j: u64) -> bool
    ensures { IsTrue result → slice_get bag.now i ≡ slice_get other.now j }
{
    match bag.get(i as usize) {
        Some(packet) => lies_at(packet, other, j),
        None => false,
    }
}

// Whether the packet lies at this place.
fn lies_at(packet: &Envelope, other: &[Envelope], j: u64) -> bool
    ensures { IsTrue result → Some packet.now ≡ slice_get other.now j }
{
    match other.get(j as usize) {
        Some(there) => is_equal(packet, there),
        None => false,
    }
}

fn is_equal(packet: &Envelope, there: &Envelope) -> bool
    ensures { IsTrue result → packet.now ≡ there.now }
{
    packet == there
}

/// Whether calms have passed over no more than there is, and the same packets lie ahead.
pub fn have_one_ahead(here: &Player, there: &Player) -> bool
    ensures { IsTrue result → HaveOneAhead (cluster_in here.now).bag (cluster_in there.now).bag (state_in here.now).cursor (state_in there.now).cursor }
{
    are_one_ahead(
        here.world.bag(),
        here.cursor(),
        there.world.bag(),
        there.cursor(),
    )
}

// The same, of two bags.
fn are_one_ahead(bag: &[Envelope], m: usize, other: &[Envelope], n: usize) -> bool
    ensures { IsTrue result → HaveOneAhead bag.now other.now m n }
{
    if bag.len() < m || other.len() < n {
        return false;
    }
    are_packets(&bag[m..], &other[n..])
}

#[tactic(auto, using(crate::proofs::Ones::packets_are))]
fn are_packets(packets: &[Envelope], others: &[Envelope]) -> bool
    ensures { IsTrue result → packets.now ≡ others.now }
{
    packets == others
}

/// How many packets that only ask, or tell that a container may not commit yet, lie last.
pub fn asking_last(bag: &[Envelope]) -> usize
    ensures { result ≡ asking_last bag.now }
{
    for last in 0..bag.len() {
        if !asks_in(&bag[bag.len() - 1 - last]) {
            return last;
        }
    }
    bag.len()
}
