//! Calls of the file system, each with a fault that names what was called and on which path.
ghost use Rattle.std.specs.Prelude.{◌≡◌, ◌⊎◌, false, codes, IfOk, IfErr, IfSome};
ghost use Rattle.std.specs.Fs.{metadata_len, file_type, IsFile};
ghost use Rattle.mr_out_layout.specs.Faults.{IsFailure, IsRefusal, LooksAs, is_absent};

use crate::fault::{Fault, Why};
use std::alloc::{AllocError, Global};
use std::fs::{File, Metadata};
use std::os::unix::fs::MetadataExt;
use std::{env, fs, io};

/// What stands at a path, if anything does. No link is followed.
pub fn look(rt: &HostRuntime, path: &str) -> Result<Option<Metadata>, Fault>
    ensures failed { IfErr result (IsFailure (codes "look") path.now) }
{
    looked(rt.alloc(), path, fs::symlink_metadata(rt, path))
}

// What a look tells that the system answered so.
fn looked(alloc: Global, path: &str, made: io::Result<Metadata>) -> Result<Option<Metadata>, Fault>
    ensures told { LooksAs path.now made result }
    ensures failed { IfErr result (IsFailure (codes "look") path.now) }
{
    match made {
        Ok(found) => Ok(Some(found)),
        Err(error) if is_absent(error.kind()) => Ok(None),
        Err(error) => Err(Fault::of_call(alloc, "look", path, error)),
    }
}

// Nothing stands at a path, or its folder is none.
fn is_absent(kind: io::ErrorKind) -> bool
    ensures { result ≡ is_absent kind }
{
    matches!(kind, io::ErrorKind::NotFound | io::ErrorKind::NotADirectory)
}

/// The regular file that stands at a path, if anything does.
pub fn look_file(rt: &HostRuntime, path: &str) -> Result<Option<Metadata>, Fault>
    ensures found { IfOk result (λ o. IfSome o (λ found. IsFile (file_type found))) }
    ensures failed { IfErr result (λ fault. IsFailure (codes "look") path.now fault ⊎ IsRefusal path.now Why.Foreign fault) }
{
    match look(rt, path)? {
        None => Ok(None),
        Some(found) => {
            if found.is_file() {
                Ok(Some(found))
            } else {
                Err(Fault::refused(rt.alloc(), path, Why::Foreign))
            }
        }
    }
}

/// Whether both looks were at one file. Which file a look was at, no clause of std says.
pub fn is_one(a: &Metadata, b: &Metadata) -> bool {
    a.dev() == b.dev() && a.ino() == b.ino()
}

/// The file was written between two looks.
pub fn is_changed(a: &Metadata, b: &Metadata) -> bool
    ensures { result ≡ false → metadata_len a.now ≡ metadata_len b.now }
{
    a.len() != b.len() || a.mtime() != b.mtime() || a.mtime_nsec() != b.mtime_nsec()
}

/// Opens a file, to read it.
pub fn open(rt: &HostRuntime, path: &str) -> Result<File, Fault>
    ensures failed { IfErr result (IsFailure (codes "open") path.now) }
{
    match File::open(rt, path) {
        Ok(file) => Ok(file),
        Err(error) => Err(Fault::of_call(rt.alloc(), "open", path, error)),
    }
}

/// Syncs a file: what was written to it is durable once this has answered.
pub fn sync(rt: &HostRuntime, file: &File, path: &str) -> Result<(), Fault>
    ensures failed { IfErr result (IsFailure (codes "sync") path.now) }
{
    match file.sync_all() {
        Ok(()) => Ok(()),
        Err(error) => Err(Fault::of_call(rt.alloc(), "sync", path, error)),
    }
}

/// Syncs a folder: which names are in it is durable once this has answered.
#[tactic(auto, using(crate::proofs::Fronts::synced_last))]
pub fn sync_folder(rt: &HostRuntime, path: &str) -> Result<(), Fault>
    ensures failed { IfErr result (λ fault. IsFailure (codes "open") path.now fault ⊎ IsFailure (codes "sync") path.now fault) }
{
    let folder = open(rt, path)?;
    sync(rt, &folder, path)
}

/// What a file that is open is.
pub fn stat(rt: &HostRuntime, file: &File, path: &str) -> Result<Metadata, Fault>
    ensures failed { IfErr result (IsFailure (codes "look") path.now) }
{
    match file.metadata() {
        Ok(found) => Ok(found),
        Err(error) => Err(Fault::of_call(rt.alloc(), "look", path, error)),
    }
}

/// All bytes of a file.
pub fn read(rt: &HostRuntime, path: &str) -> Result<Vec<u8>, Fault>
    ensures failed { IfErr result (IsFailure (codes "read") path.now) }
{
    match fs::read(rt, path) {
        Ok(bytes) => Ok(bytes),
        Err(error) => Err(Fault::of_call(rt.alloc(), "read", path, error)),
    }
}

/// A path as an absolute one: that of the directory in which the process stands, where it is a full stop.
pub fn absolute(rt: &HostRuntime, path: &str) -> Result<String, AllocError> {
    let alloc = rt.alloc();
    let path = path.trim_end_matches('/');
    let Ok(here) = env::current_dir(rt) else {
        return String::from_str(alloc, path);
    };
    let here = here.as_str().trim_end_matches('/');
    let path = path.strip_prefix("./").unwrap_or(path);
    if path == "." {
        String::from_str(alloc, if here.is_empty() { "/" } else { here })
    } else if path.is_empty() || path.starts_with('/') {
        String::from_str(alloc, if path.is_empty() { "/" } else { path })
    } else {
        format!(in alloc; "{here}/{path}")
    }
}

/// Goes into a directory.
pub fn enter(rt: &HostRuntime, path: &str) -> Result<(), Fault>
    ensures failed { IfErr result (λ fault. IsFailure (codes "enter") path.now fault ⊎ (IsRefusal path.now Why.NoDirectory fault ⊎ IsRefusal path.now Why.NotAJob fault)) }
{
    match env::set_current_dir(rt, path) {
        Ok(()) => Ok(()),
        Err(error) if error.kind() == io::ErrorKind::NotFound => {
            Err(Fault::refused(rt.alloc(), path, Why::NoDirectory))
        }
        Err(error) if error.kind() == io::ErrorKind::NotADirectory => {
            Err(Fault::refused(rt.alloc(), path, Why::NotAJob))
        }
        Err(error) => Err(Fault::of_call(rt.alloc(), "enter", path, error)),
    }
}
