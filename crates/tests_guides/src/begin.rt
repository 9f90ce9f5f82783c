//! How to begin with each of the lower crates.

use mr_attempt::{AttemptEvent, AttemptMachine, AttemptState};
use mr_grant::Grant;
use mr_ids::{AppAttempt, AttemptId, IdFault, TaskId};
use mr_jobs::WordCount;
use mr_mapside::{WorkFault, blocks, map_work};
use mr_names::{Caller, NameFault, Namespace};
use mr_packet::{Bag, BagFault, Envelope};
use mr_paths::{Layout, Path, PathFault};
use mr_shuffle::{Bytes, Piece, reduce_work};
use mr_user::{MAX_SPLIT_LEN, OpenGate, UserFault, sequential};
use std::alloc::{AllocError, Global};

/// Which task an attempt's text is of, and which generation of the master launched it.
pub fn launched_by(text: &str) -> Result<(TaskId, AppAttempt), IdFault> {
    let attempt = AttemptId::parse(text)?;
    Ok((attempt.task(), attempt.generation()))
}

/// Where a committed task's output lies until its job is committed.
pub fn committed_path(
    alloc: Global,
    dest: &str,
    k: AppAttempt,
    task: TaskId,
) -> Result<Path, PathFault> {
    let layout = Layout {
        dest: Path::parse(alloc, dest)?,
    };
    Ok(layout.committed(k, task)?)
}

/// An attempt that is launched, heard of, and killed before it is done: its `Done` then does nothing.
pub fn killed_attempt(attempt: AttemptId) -> AttemptState {
    let mut machine = AttemptMachine::new(attempt);
    for event in [
        AttemptEvent::Launch,
        AttemptEvent::Heard,
        AttemptEvent::Kill,
        AttemptEvent::Done,
    ] {
        machine.on(event);
    }
    machine.state()
}

/// The attempt that asked first may commit, the other may not, and may once the first is released.
pub fn passes_on(alloc: Global, first: AttemptId, second: AttemptId) -> Result<bool, AllocError> {
    let mut grant = Grant::new(alloc);
    grant.pending(first)?;
    grant.pending(second)?;
    let kept_waiting = grant.can_commit(first) && !grant.can_commit(second);
    grant.release(first);
    Ok(kept_waiting && grant.can_commit(second))
}

/// Room first: then the packet is taken without a refusal.
pub fn put_packet(bag: &mut Bag, envelope: Envelope) -> Result<(), BagFault> {
    bag.reserve(1)?;
    bag.push(envelope)
}

/// The words of a text, counted: the files of two reduces.
pub fn count_words(alloc: Global, text: &[u8]) -> Result<Vec<Vec<u8>>, UserFault> {
    let split = Bytes::from_slice(alloc, text)?;
    if split.len() > MAX_SPLIT_LEN {
        return Err(UserFault::Refused);
    }
    sequential(alloc, &WordCount, &[split], 2)
}

/// The bytes of the block that a map hands to the first of two reduces.
pub fn first_block(alloc: Global, text: &[u8]) -> Result<usize, WorkFault> {
    if text.len() > MAX_SPLIT_LEN {
        return Err(WorkFault::Full);
    }
    let output = map_work(alloc, &WordCount, &OpenGate, 0, text, 2)?;
    match blocks(output.bytes(), 2) {
        Some(all) => Ok(all.get(0).map_or(0, |block| block.len())),
        None => Ok(0), // never so: an output is cut into its blocks
    }
}

/// The text of a reduce over the blocks of two maps.
pub fn reduced(alloc: Global, first: Vec<u8>, second: Vec<u8>) -> Result<Vec<u8>, WorkFault> {
    let mut pieces = Vec::new(alloc);
    for (map, bytes) in [(0, first), (1, second)] {
        let bytes = Bytes::from_vec(bytes);
        pieces.push(Piece {
            map,
            reduce: 0,
            bytes,
        })?;
    }
    reduce_work(alloc, &WordCount, &OpenGate, 0, &pieces)
}

/// A file is written in a directory that is there, closed, and moved with all that is in the directory.
pub fn move_directory(
    names: &mut Namespace,
    caller: &Caller,
    from: &Path,
    file: &Path,
    to: &Path,
) -> Result<(), NameFault> {
    names.mkdirs(*caller, from)?;
    names.create(*caller, file, false)?;
    names.append(*caller, file, b"abc\n")?;
    names.close(*caller, file)?;
    names.rename(*caller, from, to)
}
