//! What came of a run, in the words and lines that are printed of it, and in which a script expects it.
ghost use Rattle.std.specs.Prelude.{◌≡◌, ◌++◌, OnOk};
ghost use Rattle.mr_script.specs.Expected.{marker_word, outcome_word, winner_word};
ghost use Rattle.mr_script_writer.specs.Results.{line_of_marker, line_of_outcome, line_of_winner, winners_text};

use itoa::Buffer;
use mr_ids::AttemptId;
use std::alloc::AllocError;

/// A reduce's winner, or that there is none.
#[tactic(auto, unfolding(mr_script::specs::Words::attempt_word))]
pub fn put_winner(out: &mut Vec<u8>, winner: &Option<AttemptId>) -> Result<(), AllocError>
    ensures { OnOk result (out.new.items ≡ out.old.items ++ winner_word winner.now) }
{
    match winner {
        Some(attempt) => attempt.write(out),
        None => out.extend_from_slice(b"none"),
    }
}

/// Whether the marker is there.
pub fn put_marker(out: &mut Vec<u8>, marker: bool) -> Result<(), AllocError>
    ensures { OnOk result (out.new.items ≡ out.old.items ++ marker_word marker) }
{
    if marker {
        out.extend_from_slice(b"yes")
    } else {
        out.extend_from_slice(b"no")
    }
}

/// The outcome that was told, or that there is none.
pub fn put_outcome(out: &mut Vec<u8>, outcome: Option<bool>) -> Result<(), AllocError>
    ensures { OnOk result (out.new.items ≡ out.old.items ++ outcome_word outcome) }
{
    match outcome {
        None => out.extend_from_slice(b"none"),
        Some(true) => out.extend_from_slice(b"succeeded"),
        Some(false) => out.extend_from_slice(b"failed"),
    }
}

// The line of a reduce's winner, or that there is none.
fn put_winner_line(
    out: &mut Vec<u8>,
    reduce: usize,
    winner: &Option<AttemptId>,
) -> Result<(), AllocError>
    ensures { OnOk result (out.new.items ≡ out.old.items ++ line_of_winner reduce winner.now) }
{
    let mut buffer = Buffer::new();
    out.extend_from_slice(b"r ")?;
    out.extend_from_slice(buffer.format(reduce).as_bytes())?;
    out.extend_from_slice(b" ")?;
    put_winner(out, winner)?;
    out.extend_from_slice(b"\n")
}

/// A line for the winner of each reduce, in order.
pub fn put_winner_lines(out: &mut Vec<u8>, winners: &[Option<AttemptId>]) -> Result<(), AllocError>
    ensures { OnOk result (out.new.items ≡ out.old.items ++ winners_text 0 winners.now) }
{
    for (reduce, winner) in winners.iter().enumerate() {
        put_winner_line(out, reduce, winner)?;
    }
    Ok(())
}

/// The line of the marker.
pub fn put_marker_line(out: &mut Vec<u8>, marker: bool) -> Result<(), AllocError>
    ensures { OnOk result (out.new.items ≡ out.old.items ++ line_of_marker marker) }
{
    out.extend_from_slice(b"marker ")?;
    put_marker(out, marker)?;
    out.extend_from_slice(b"\n")
}

/// The line of the outcome that was told.
pub fn put_outcome_line(out: &mut Vec<u8>, outcome: Option<bool>) -> Result<(), AllocError>
    ensures { OnOk result (out.new.items ≡ out.old.items ++ line_of_outcome outcome) }
{
    out.extend_from_slice(b"outcome ")?;
    put_outcome(out, outcome)?;
    out.extend_from_slice(b"\n")
}
