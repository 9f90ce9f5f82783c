//! A history is read before its lock is held: its whole lines never change. Under the lock only what came since is read.
ghost use Rattle.std.specs.Prelude.{◌≡◌, ◌≤◌, ◌-◌, length, codes, IsTrue, IfOk, IfErr, IfSome};
ghost use Rattle.std.specs.List.{AllByRecursion};
ghost use Rattle.std.specs.Fs.{metadata_len};
ghost use Rattle.mr_out_layout.specs.Faults.{IsFailure};
ghost use Rattle.mr_out_layout.specs.Recorded.{IsOfLines};

use crate::fault::Fault;
use crate::layout::segment_path;
use crate::lines::front;
use mr_history::Records;
use std::alloc::Global;
use std::fs::{File, Metadata};
use std::io;
use std::io::Read;
use std::os::unix::fs::{FileExt, MetadataExt};

/// What was read of a segment.
#[derive(Drop)]
pub struct Ahead {
    disk: u64,
    file: u64,
    /// How many bytes its whole lines have.
    pub len: u64,
    /// The records of these lines.
    pub records: Records,
}

impl Ahead {
    /// Whether it was read of this file, which is no shorter. Which file that is, no clause of std says.
    pub fn is_of(&self, found: &Metadata) -> bool
        ensures { IsTrue result → self.now.len ≤ metadata_len found.now }
    {
        self.disk == found.dev() && self.file == found.ino() && self.len <= found.len()
    }
}

/// Reads the segments that are there, as many as `most`. A fault but for memory is left to whoever holds the lock.
#[tactic(auto, using(crate::proofs::Fronts::all_more))]
pub fn read_ahead(rt: &HostRuntime, most: u32) -> Result<Vec<Ahead>, Fault>
    ensures read { IfOk result (λ segments. AllByRecursion IsOfLines segments.items) }
    ensures failed { IfErr result (λ fault. fault ≡ Fault.NoMemory) }
{
    let mut segments = Vec::new(rt.alloc());
    for number in 1..=most {
        let path = segment_path(rt.alloc(), number)?;
        match ahead_of(rt, &path)? {
            Some(ahead) => segments.push(ahead)?,
            None => break,
        }
    }
    Ok(segments)
}

#[tactic(auto, using(crate::proofs::Fronts::front_len))]
fn ahead_of(rt: &HostRuntime, path: &str) -> Result<Option<Ahead>, Fault>
    ensures read { IfOk result (λ ahead. IfSome ahead IsOfLines) }
    ensures failed { IfErr result (λ fault. fault ≡ Fault.NoMemory) }
{
    let mut bytes = Vec::new(rt.alloc());
    match read_whole(rt, path, &mut bytes) {
        Ok(found) => {
            let (records, rest) = front(rt.alloc(), &bytes)?;
            let len = bytes.len().saturating_sub(rest.len());
            Ok(Some(Ahead {
                disk: found.dev(),
                file: found.ino(),
                len: len as u64,
                records,
            }))
        }
        Err(error) if error.kind() == io::ErrorKind::OutOfMemory => Err(Fault::NoMemory),
        Err(_) => Ok(None),
    }
}

// Reads a file, and tells which one it is.
fn read_whole(rt: &HostRuntime, path: &str, bytes: &mut Vec<u8>) -> io::Result<Metadata> {
    let mut file = File::open(rt, path)?;
    let found = file.metadata()?;
    file.read_to_end(bytes)?;
    Ok(found)
}

/// The bytes of a file behind so many, of a file of this length.
pub fn read_behind(rt: &HostRuntime, path: &str, from: u64, len: u64) -> Result<Vec<u8>, Fault>
    ensures read { IfOk result (λ bytes. length bytes.items ≡ len - from) }
    ensures failed { IfErr result (IsFailure (codes "read") path.now) }
{
    let count = len.saturating_sub(from) as usize;
    let mut bytes = zeros(rt.alloc(), count)?;
    if count == 0 {
        return Ok(bytes);
    }
    match read_at(rt, path, &mut bytes, from) {
        Ok(()) => Ok(bytes),
        Err(error) => Err(Fault::of_call(rt.alloc(), "read", path, error)),
    }
}

fn zeros(alloc: Global, count: usize) -> Result<Vec<u8>, Fault>
    ensures made { IfOk result (λ bytes. length bytes.items ≡ count) }
    ensures failed { IfErr result (λ fault. fault ≡ Fault.NoMemory) }
{
    let mut bytes = Vec::new(alloc);
    bytes.resize(count, 0u8)?;
    Ok(bytes)
}

// Fills the slice with the bytes of a file from there on.
fn read_at(rt: &HostRuntime, path: &str, bytes: &mut [u8], from: u64) -> io::Result<()>
    ensures { length bytes.new ≡ length bytes.old }
{
    let file = File::open(rt, path)?;
    file.read_exact_at(bytes, from)
}
