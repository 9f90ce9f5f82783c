//! Faults: what may befall a run that goes on by itself, and what that puts off.
ghost use Rattle.std.specs.Prelude.{◌≡◌};
ghost use Rattle.mr_explore_faults.specs.Kinds.{later};

use mr_ids::TaskId;
use mr_packet::ContainerId;
use mr_world_events::Weather;

/// One fault, or what comes of one later. `k` is the newest master where it befalls the run.
#[derive(Clone, Copy, Debug, PartialEq, Eq)]
pub enum Fault {
    /// The store call that is due at master `k` has this weather.
    Duty(Weather),
    /// The store call that a container makes next has this weather.
    Step(ContainerId, Weather),
    /// This packet is passed over: it comes late, or never.
    Lost(u64),
    /// A packet that was passed over comes. This is no fault.
    Late(u64),
    /// A packet that was delivered is delivered once more.
    Again(u64),
    /// Master `k` crashes, this number of bytes of its unflushed history stay, and master `k + 1` starts at once.
    Crash(u64),
    /// Master `k` crashes, and this number of bytes of its unflushed history stay. The next master starts later, or none does.
    Halt(u64),
    /// The next master starts where the newest one is not alive. Behind a halt this is no fault.
    Next,
    /// Master `k + 1` starts while `k` lives, and this number of bytes of what `k` did not flush stay.
    Superseded(u64),
    /// The same, and `k` makes the store call that is due behind it.
    SupersededLate(u64),
    /// The container ends.
    Death(ContainerId),
    /// The node restarts.
    Restart(u32),
    /// Master `k` gives the node up.
    Expiry(u32),
    /// Master `k` launches an attempt of the task on the node.
    Attempt(TaskId, u32),
}

/// What the fault puts off, if it does: that may come later, once, and is no fault then.
pub fn later(fault: &Fault) -> Option<Fault>
    ensures { result ≡ later fault.now }
{
    match *fault {
        Fault::Lost(packet) => Some(Fault::Late(packet)),
        Fault::Halt(_) => Some(Fault::Next),
        _ => None,
    }
}
