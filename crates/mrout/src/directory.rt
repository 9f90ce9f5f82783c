//! The commands of a directory that the program makes and publishes.
use crate::ending::Ending;
use mr_out_program::answer;
use mr_out_words::Asked;
use std::io::{self, Write};

// Writes what was printed.
fn write_out<W: Write>(out: &mut W, text: &str) -> io::Result<()> {
    out.write_all(text.as_bytes())?;
    out.flush()
}

/// Carries out what is asked for, and prints what came of it. An answer that can't be written is a call that failed; what
/// was done stays done, and the same command tells it again.
pub fn run_directory(rt: &HostRuntime, asked: &Asked<'_>) -> Ending {
    let answered = answer(rt, asked);
    let _ = eprint!(rt; "{}", answered.message.as_str());
    if answered.output.is_empty() {
        return Ending::Carried(answered.status);
    }
    match write_out(&mut io::writer(rt), answered.output.as_str()) {
        Ok(()) => Ending::Carried(answered.status),
        Err(error) => {
            let _ = eprintln!(rt; "mrout: standard output: {error}");
            Ending::CallFailed
        }
    }
}
