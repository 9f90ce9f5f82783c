//! The command `check` of a directory of `mrout`: its history decides.
use crate::request::Request;
use crate::walk::{Marker, Walked};
use mr_out_check::Answer;
use mr_out_layout::{Length, Recorded};
use mr_out_machine::is_over;
use mr_out_winners::{Measured, find, put_answer, tasks_of};
use std::alloc::{AllocError, Global};

fn measured_of(alloc: Global, lengths: &[Length]) -> Result<Vec<Measured>, AllocError> {
    let mut measured = Vec::new(alloc);
    for length in lengths {
        measured.push(Measured {
            attempt: length.attempt,
            len: length.len,
        })?;
    }
    Ok(measured)
}

/// Prints the answer of a directory of `mrout` to `out`, and answers it. The marker was looked at first, and then the history was read; the directory was listed
/// last.
pub fn put_winners(
    out: &mut Vec<u8>,
    alloc: Global,
    request: &Request,
    dir: &str,
    marker: Marker,
    recorded: &Recorded,
    walked: &Walked,
) -> Result<Answer, AllocError> {
    let job = &recorded.job;
    let records = recorded.records.as_slice();
    let measured = measured_of(alloc, &recorded.lengths)?;
    let suffix = job.suffix.as_bytes();
    let tasks = tasks_of(alloc, &job.id, suffix, records, &measured, job.tasks)?;
    let is_marked = marker == Marker::Empty;
    let findings = find(
        alloc,
        is_marked,
        request.told.tasks,
        is_over(records),
        &tasks,
        &walked.names,
    )?;
    put_answer(out, alloc, request.shape, dir.as_bytes(), &findings)
}
