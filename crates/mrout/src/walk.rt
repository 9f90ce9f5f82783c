//! A directory of this machine, as it is listed.
use mr_out_check::Seen;
use mr_out_listing::{Entry, Kind};
use mr_out_winners::{Look, Name};
use std::alloc::Global;
use std::fs::{self, DirEntry, Metadata, ReadDir};
use std::io;
use std::rt::Files;

/// What stands at the marker's name.
#[derive(Clone, Copy, Debug, PartialEq, Eq)]
pub enum Marker {
    /// No regular file.
    Missing,
    /// An empty file.
    Empty,
    /// A file with bytes.
    Filled,
}

/// What was seen of a directory.
#[derive(Drop)]
pub struct Walked {
    /// What was listed.
    pub seen: Seen,
    /// The names in the directory itself, if they were asked for.
    pub names: Vec<Name>,
}

// A directory that is walked: what was seen, and which folders are left, each by its name with a slash behind it.
#[derive(Drop)]
struct Walk {
    seen: Seen,
    folders: Vec<String>,
    names: Vec<Name>,
    with_names: bool,
}

fn kind_of(metadata: &Metadata) -> Kind {
    if metadata.is_file() {
        return Kind::File;
    }
    if metadata.is_dir() {
        return Kind::Directory;
    }
    Kind::Other
}

fn put_name(alloc: Global, names: &mut Vec<Name>, name: &[u8], look: Look) -> io::Result<()> {
    let name = Vec::from_slice(alloc, name)?;
    names.push(Name { name, look })?;
    Ok(())
}

// What is listed in a folder.
fn walk_entry<R: Files + AllocGlobal + Clone + Drop>(
    alloc: Global,
    walk: Walk,
    folder: &str,
    entry: &DirEntry<R, Global>,
) -> io::Result<Walk> {
    let metadata = entry.metadata()?;
    let look = Look {
        kind: kind_of(&metadata),
        len: metadata.len(),
    };
    walk_name(alloc, walk, folder, entry.file_name(), look)
}

// A name in a folder, and what stands there.
fn walk_name(alloc: Global, walk: Walk, folder: &str, name: &str, look: Look) -> io::Result<Walk> {
    let with_names = walk.with_names;
    let kind = look.kind;
    let name = format!(in alloc; "{folder}{name}")?;
    let listed = Entry {
        kind,
        empty: look.len == 0,
        path: name.as_bytes(),
    };
    let seen = walk.seen.with(alloc, &listed)?;
    let mut names = walk.names;
    if with_names && folder.is_empty() {
        put_name(alloc, &mut names, name.as_bytes(), look)?;
    }
    let mut folders = walk.folders;
    if kind == Kind::Directory && name.as_str() != "_mrout" {
        folders.push(format!(in alloc; "{name}/")?)?;
    }
    Ok(Walk {
        seen,
        folders,
        names,
        with_names,
    })
}

// In place of a name that is no UTF-8.
const NO_TEXT: &str = "(a name that is no UTF-8)";

// What is listed in a folder, if its name is UTF-8. Of another name it is not asked what stands there, since paths are UTF-8 here. Neither the
// committer of a job nor `mrout` makes such a name.
fn walk_next<R: Files + AllocGlobal + Clone + Drop>(
    alloc: Global,
    walk: Walk,
    folder: &str,
    entry: io::Result<DirEntry<R, Global>>,
) -> io::Result<Walk> {
    match entry {
        Ok(entry) => walk_entry(alloc, walk, folder, &entry),
        Err(error) if error.kind() == io::ErrorKind::InvalidFilename => {
            let look = Look {
                kind: Kind::Other,
                len: 0,
            };
            walk_name(alloc, walk, folder, NO_TEXT, look)
        }
        Err(error) => Err(error),
    }
}

// All that is listed in a folder.
fn walk_folder<R: Files + AllocGlobal + Clone + Drop>(
    alloc: Global,
    walk: Walk,
    folder: &str,
    listing: ReadDir<R, Global>,
) -> io::Result<Walk> {
    let mut walk = walk;
    for entry in listing {
        walk = walk_next(alloc, walk, folder, entry)?;
    }
    Ok(walk)
}

fn marker_of(metadata: &Metadata) -> Marker {
    if !metadata.is_file() {
        Marker::Missing
    } else if metadata.len() == 0 {
        Marker::Empty
    } else {
        Marker::Filled
    }
}

/// What stands at the marker's name.
pub fn look_at_marker(rt: &impl Files, alloc: Global, dir: &str) -> io::Result<Marker> {
    let marker = format!(in alloc; "{dir}/_SUCCESS")?;
    match fs::symlink_metadata(rt, marker.as_str()) {
        Ok(metadata) => Ok(marker_of(&metadata)),
        Err(error) if error.kind() == io::ErrorKind::NotFound => Ok(Marker::Missing),
        Err(error) => Err(error),
    }
}

/// Lists a directory and all beneath it, but for what stands in `_mrout`. With its names, if they are asked for.
pub fn list<R: Files + AllocGlobal + Clone + Drop>(
    rt: &R,
    alloc: Global,
    dir: &str,
    with_names: bool,
) -> io::Result<Walked> {
    let mut folders = Vec::new(alloc);
    folders.push(String::new(alloc))?;
    let mut walk = Walk {
        seen: Seen::new(alloc),
        folders,
        names: Vec::new(alloc),
        with_names,
    };
    for _ in 0..u64::MAX {
        let Some(folder) = walk.folders.pop() else {
            break;
        };
        let path = format!(in alloc; "{dir}/{folder}")?;
        let listing = fs::read_dir(rt, path.as_str())?;
        walk = walk_folder(alloc, walk, folder.as_str(), listing)?;
    }
    Ok(Walked {
        seen: walk.seen,
        names: walk.names,
    })
}
