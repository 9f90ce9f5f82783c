//! The file of an attempt is made durable before the lock is held, so that nobody has to wait for that.
//!
//! It counts where the file was not changed since; then it is not synced again. Where that sync failed, the attempt has
//! failed: another sync may answer well, and not mean it.
ghost use Rattle.std.specs.Prelude.{◌≡◌, IfErr};
ghost use Rattle.mr_out_files.specs.inner.Syncing.{FailsSomewhere};

use mr_ids::AttemptId;
use mr_out_layout::{Fault, JOB, Job, is_changed, is_one, look, open, stat, told, work_path};
use std::alloc::Global;
use std::fs::{File, Metadata};
use std::io;
use std::os::unix::fs::MetadataExt;

/// A file that was synced before the lock was held.
#[derive(Drop)]
pub(crate) struct Early {
    // What it was before the sync.
    before: Metadata,
    path: String,
    synced: io::Result<()>,
}

impl Early {
    /// Whether it is this file, which was not changed since. A fault: its sync failed.
    #[tactic(auto, using(crate::proofs::Troubled::fails_somewhere))]
    pub(crate) fn is_still(self, alloc: Global, found: &Metadata) -> Result<bool, Fault>
        ensures { IfErr result FailsSomewhere }
    {
        let Early {
            before,
            path,
            synced,
        } = self;
        if !is_one(&before, found) {
            return Ok(false);
        }
        match synced {
            Ok(()) => Ok(!is_changed(&before, found)),
            Err(error) => Err(Fault::of_call(alloc, "sync", &path, error)),
        }
    }
}

/// Syncs the file that an attempt wrote, if there is one. Any other fault but for memory is left to whoever holds the lock.
pub(crate) fn sync_early(rt: &HostRuntime, a: AttemptId) -> Result<Option<Early>, Fault>
    ensures { IfErr result (λ fault. fault ≡ Fault.NoMemory) }
{
    let Some(path) = early_path(rt, a)? else {
        return Ok(None);
    };
    let Some(file) = early_file(rt, &path)? else {
        return Ok(None);
    };
    let Some(before) = if_made(stat(rt, &file, &path))? else {
        return Ok(None);
    };
    let synced = file.sync_all();
    Ok(Some(Early {
        before,
        path,
        synced,
    }))
}

// Where the attempt writes, by the job as it is told before the lock is held.
fn early_path(rt: &HostRuntime, a: AttemptId) -> Result<Option<String>, Fault>
    ensures { IfErr result (λ fault. fault ≡ Fault.NoMemory) }
{
    let Some(bytes) = told(rt, JOB)? else {
        return Ok(None);
    };
    match if_made(Job::read(rt.alloc(), &bytes))? {
        Some(job) => Ok(Some(work_path(rt.alloc(), &job, a)?)),
        None => Ok(None),
    }
}

fn early_file(rt: &HostRuntime, path: &str) -> Result<Option<File>, Fault>
    ensures { IfErr result (λ fault. fault ≡ Fault.NoMemory) }
{
    if is_written(rt, path)? {
        if_made(open(rt, path))
    } else {
        Ok(None)
    }
}

// Whether a regular file with one name stands there.
fn is_written(rt: &HostRuntime, path: &str) -> Result<bool, Fault>
    ensures { IfErr result (λ fault. fault ≡ Fault.NoMemory) }
{
    match look(rt, path) {
        Ok(Some(found)) => Ok(found.is_file() && found.nlink() == 1),
        Err(Fault::NoMemory) => Err(Fault::NoMemory),
        _ => Ok(false),
    }
}

fn if_made<T: Drop>(made: Result<T, Fault>) -> Result<Option<T>, Fault>
    ensures { IfErr result (λ fault. fault ≡ Fault.NoMemory) }
{
    match made {
        Ok(made) => Ok(Some(made)),
        Err(Fault::NoMemory) => Err(Fault::NoMemory),
        Err(_) => Ok(None),
    }
}
