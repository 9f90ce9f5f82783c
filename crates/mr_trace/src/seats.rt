//! The threads that run a job, by the numbers of their seats.
ghost use Rattle.std.specs.Prelude.{◌≡◌, ◌++◌, OnOk};
ghost use Rattle.mr_trace.specs.Happened.{thread_of};
ghost use Rattle.mr_trace.specs.Trace.{maker_text, seat_text};
ghost use Rattle.mr_trace.specs.declared.makers.Maker.TheVariants.{Thread};

use crate::trace_words::put_small;
use std::alloc::AllocError;

/// A thread, by whom it acts for.
#[derive(Clone, Copy, Debug, PartialEq, Eq)]
pub enum Seat {
    /// That of starts and faults.
    Faults,
    /// That of the master of this generation.
    Master(u32),
    /// That of the node of this number.
    Node(u32),
}

/// The thread of the seat of this number, in a job with this many nodes. Those of the nodes come first, by their numbers, then that of starts and faults, then
/// those of the masters, by generation.
pub fn thread_of(nodes: u32, number: u32) -> Seat
    ensures { result ≡ thread_of nodes number }
{
    if number < nodes {
        Seat::Node(number)
    } else if number == nodes {
        Seat::Faults
    } else {
        Seat::Master(number - nodes)
    }
}

/// A thread in brackets: `(node 0)`, `(master 1)` or `(faults)`.
pub fn put_in_brackets(out: &mut Vec<u8>, seat: Seat) -> Result<(), AllocError>
    ensures { OnOk result (out.new.items ≡ out.old.items ++ maker_text (Thread seat)) }
{
    out.extend_from_slice(b" (")?;
    put_thread(out, seat)?;
    out.extend_from_slice(b")")
}

/// A thread's name: `node 0`, `master 1` or `faults`.
pub fn put_thread(out: &mut Vec<u8>, seat: Seat) -> Result<(), AllocError>
    ensures { OnOk result (out.new.items ≡ out.old.items ++ seat_text seat) }
{
    match seat {
        Seat::Faults => out.extend_from_slice(b"faults"),
        Seat::Master(k) => put_small(out, b"master ", k),
        Seat::Node(n) => put_small(out, b"node ", n),
    }
}
