//! What comes of a world for those outside.
//! The outcome of the job, the success marker, and the files that a reader of the destination sees.
ghost use Rattle.std.specs.Prelude.{◌≡◌, IfOk, IfErr, OnOk, None, map};
ghost use Rattle.std.specs.List.{flat_map};
ghost use Rattle.std.specs.Option.{option_map, option_to_list};
ghost use Rattle.mr_names.specs.Calls.{IsSound, unheard};
ghost use Rattle.mr_world_model.specs.Ids.{marker};
ghost use Rattle.mr_world_model.specs.Content.{entry_at, is_file, children, option_kind};
ghost use Rattle.mr_world_model.specs.Results.{first_told, outcome, visible};
ghost use Rattle.mr_world_model.specs.World.{World};
ghost use Rattle.mr_world_state.specs.declared.fault.WorldFault.TheVariants.{NoMemory};
ghost use Rattle.mr_world.specs.VisibleFiles.{as_pair, contents, is_file_kind, seen_beneath};
ghost use Rattle.mr_world_state.specs.Standing.{Standing};

use mr_ids::AppAttempt;
use mr_names::{Bytes, Caller, Entries, Kind, NameFault, Namespace};
use mr_packet::{Envelope, Packet};
use mr_paths::{Name, Path, is_hidden};
use mr_world_state::{Parts, WorldFault};
use std::alloc::{AllocError, Global};

/// A file that a reader of the destination sees.
#[derive(Debug, PartialEq, Eq, Drop)]
pub struct VisibleFile {
    /// Its name in the destination.
    pub name: Name,
    /// All its bytes.
    pub bytes: Bytes,
}

/// The outcome of the job that was told first, if one was told: whether the job succeeded.
pub fn outcome(parts: &Parts) -> Option<bool>
    ensures { (w : World) → Standing parts.now w → result ≡ outcome w }
{
    first_told(parts.bag.packets())
}

/// Whether the success marker is there. Its only fault is an allocation failure.
pub fn marker(parts: &Parts) -> Result<bool, WorldFault>
    ensures is { IfOk result (λ marked. (w : World) → Standing parts.now w → marked ≡ is_file (entry_at w.content marker)) }
    ensures memory { IfErr result (λ fault. fault ≡ WorldFault.NoMemory) }
{
    let path = parts.layout.marker()?;
    Ok(is_file(kind_at(&parts.names, &path)))
}

/// The files directly beneath the destination whose names are not hidden, by rising name. Its only fault is an
/// allocation failure.
pub fn visible(parts: &Parts) -> Result<Vec<VisibleFile>, WorldFault>
    ensures is { IfOk result (λ files. (w : World) → Standing parts.now w → map as_pair files.items ≡ visible w) }
    ensures memory { IfErr result (λ fault. fault ≡ WorldFault.NoMemory) }
{
    let dest = &parts.layout.dest;
    let entries = entries_at(dest.allocator(), &parts.names, dest)?;
    let files = visible_files(dest.allocator(), &parts.names, dest, &entries)?;
    Ok(files)
}

// The outcome that is told first by these packets.
fn first_told(packets: &[Envelope]) -> Option<bool>
    ensures { result ≡ first_told packets.now }
{
    for envelope in packets {
        if let Packet::Outcome { succeeded } = &envelope.body {
            return Some(*succeeded);
        }
    }
    None
}

// Who looks on from outside: no fence and no bar stops it.
fn onlooker(names: &Namespace) -> Caller
    ensures heard { unheard names.now result ≡ None }
    ensures sound { IsSound names.now }
{
    // For the prover: a namespace keeps its limits, and its fence is at most 1,000.
    let _fence = names.fence();
    Caller {
        app: AppAttempt::new(1000).unwrap(),
        attempt: None,
    }
}

// An error where memory was refused.
fn check_memory(fault: NameFault) -> Result<(), AllocError>
    ensures { OnOk result (fault ≡ NameFault.NoMemory → ⊥) }
{
    match fault {
        NameFault::NoMemory => Err(AllocError),
        _ => Ok(()),
    }
}

// What is at a path, if anything is.
fn kind_at(names: &Namespace, path: &Path) -> Option<Kind>
    ensures { result ≡ option_kind (entry_at names.now.content path.now) }
{
    match names.exists(onlooker(names), path) {
        Ok(found) => found,
        Err(_) => unreachable!(),
    }
}

fn is_file(found: Option<Kind>) -> bool
    ensures { result ≡ is_file_kind found }
{
    matches!(found, Some(Kind::File))
}

// The entries directly beneath a path.
fn entries_at(alloc: Global, names: &Namespace, path: &Path) -> Result<Entries, AllocError>
    ensures { IfOk result (λ entries. entries ≡ children names.now.content path.now) }
{
    match names.list(onlooker(names), path) {
        Ok(entries) => Ok(entries),
        Err(fault) => {
            check_memory(fault)?;
            Ok(Entries::new(alloc))
        }
    }
}

// The bytes of the file at a path; none where there is no file.
fn bytes_at(names: &Namespace, path: &Path) -> Result<Option<Bytes>, AllocError>
    ensures { IfOk result (λ bytes. bytes ≡ contents (entry_at names.now.content path.now)) }
{
    match names.read(onlooker(names), path) {
        Ok(bytes) => Ok(Some(bytes)),
        Err(fault) => {
            check_memory(fault)?;
            Ok(None)
        }
    }
}

// The file of this name beneath the destination, if it is visible.
fn visible_file(
    names: &Namespace,
    dest: &Path,
    name: &Name,
) -> Result<Option<VisibleFile>, AllocError>
    ensures { IfOk result (λ file. option_to_list (option_map as_pair file) ≡ seen_beneath names.now.content dest.now name.now) }
{
    if is_hidden(name) {
        return Ok(None);
    }
    let path = dest.child(name.copy()?)?;
    match bytes_at(names, &path)? {
        Some(bytes) => Ok(Some(VisibleFile {
            name: name.copy()?,
            bytes,
        })),
        None => Ok(None),
    }
}

// Those of the entries of the destination that are visible files.
fn visible_files(
    alloc: Global,
    names: &Namespace,
    dest: &Path,
    entries: &Entries,
) -> Result<Vec<VisibleFile>, AllocError>
    ensures { IfOk result (λ files. map as_pair files.items ≡ flat_map (λ line. seen_beneath names.now.content dest.now line.name) entries.now) }
{
    let mut files = Vec::new(alloc);
    for entry in entries.as_slice() {
        if let Some(file) = visible_file(names, dest, &entry.name)? {
            files.push(file)?;
        }
    }
    Ok(files)
}
