//! On which kind of disk a folder lies, by what the system tells of its mounts.
ghost use Rattle.std.specs.Prelude.{◌≡◌, codes, IfErr};
ghost use Rattle.mr_out_layout.specs.Faults.{IsFailure};

use mr_out_layout::{Fault, told};
use std::env;

// What the system tells of mounts: a line each.
const MOUNTS: &str = "/proc/self/mountinfo";

// The file systems whose files lie on another machine, or behind a program: a lock may not hold there, nor a sync.
const NETWORK: &[&str] = &[
    "nfs",
    "nfs4",
    "cifs",
    "smb3",
    "smbfs",
    "9p",
    "afs",
    "beegfs",
    "ceph",
    "coda",
    "davfs",
    "fuse",
    "gfs2",
    "glusterfs",
    "gpfs",
    "lustre",
    "ocfs2",
    "orangefs",
    "panfs",
    "vboxsf",
    "virtiofs",
    "vmhgfs",
];

/// The kind of network disk on which the process stands, if it does on one. Where the system tells nothing, it does not.
/// What the system tells, no clause of std says.
pub(crate) fn network_disk(rt: &HostRuntime) -> Result<Option<&'static str>, Fault>
    ensures { IfErr result (IsFailure (codes "look") (codes ".")) }
{
    let Some(bytes) = told(rt, MOUNTS)? else {
        return Ok(None);
    };
    let here = match env::current_dir(rt) {
        Ok(here) => here,
        Err(error) => return Err(Fault::of_call(rt.alloc(), "look", ".", error)),
    };
    let mut longest = 0usize;
    let mut kind = None;
    for line in bytes.as_slice().split(|byte| *byte == b'\n') {
        if let Some((len, its_kind)) = told_by(rt, line, here.as_str())? {
            if longest <= len {
                longest = len;
                kind = its_kind;
            }
        }
    }
    Ok(kind)
}

// What a line tells of a mount on the way to a folder: how long its place is, and which kind of network disk it is.
fn told_by(
    rt: &HostRuntime,
    line: &[u8],
    here: &str,
) -> Result<Option<(usize, Option<&'static str>)>, Fault>
    ensures { IfErr result (λ fault. fault ≡ Fault.NoMemory) }
{
    let Ok(line) = str::from_utf8(line) else {
        return Ok(None);
    };
    let Some((mount, disk)) = line.split_once(" - ") else {
        return Ok(None);
    };
    let Some(place) = mount.split(' ').nth(4) else {
        return Ok(None);
    };
    let place = plain(rt, place)?;
    if !is_beneath(place.as_str(), here) {
        return Ok(None);
    }
    let kind = disk.split(' ').next().and_then(network_kind);
    Ok(Some((place.len(), kind)))
}

// A folder is the place of a mount, or lies beneath it.
fn is_beneath(place: &str, here: &str) -> bool {
    match here.strip_prefix(place) {
        Some(rest) => place == "/" || rest.is_empty() || rest.starts_with('/'),
        None => false,
    }
}

fn network_kind(kind: &str) -> Option<&'static str> {
    for network in NETWORK {
        if is_of_kind(kind, network) {
            return Some(*network);
        }
    }
    None
}

// A kind may tell more behind a full stop, as `fuse.sshfs`.
fn is_of_kind(kind: &str, network: &str) -> bool {
    match kind.split_once('.') {
        Some((front, _)) => front == network,
        None => kind == network,
    }
}

// The place of a mount: blanks, tabs, line feeds and backslashes are told in octal there, as `\040`.
fn plain(rt: &HostRuntime, told: &str) -> Result<String, Fault>
    ensures { IfErr result (λ fault. fault ≡ Fault.NoMemory) }
{
    let mut place = String::new(rt.alloc());
    let mut parts = told.split('\\');
    place.push_str(parts.next().unwrap_or(""))?;
    for part in parts {
        match part.split_at_checked(3).and_then(unescaped) {
            Some((letter, rest)) => {
                place.push(letter)?;
                place.push_str(rest)?;
            }
            None => {
                place.push('\\')?;
                place.push_str(part)?;
            }
        }
    }
    Ok(place)
}

// The letter that three octal digits tell, and what stands behind them.
fn unescaped<'a>(parts: (&'a str, &'a str)) -> Option<(char, &'a str)> {
    let (digits, rest) = parts;
    match u8::from_str_radix(digits, 8) {
        Ok(byte) => Some((char::from(byte), rest)),
        Err(_) => None,
    }
}
