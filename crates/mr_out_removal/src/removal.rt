//! A folder is removed into which others may write meanwhile.
//!
//! It is renamed into `_mrout/removed` first, where its name is a number: who writes into it by its path no longer finds it. Then it is
//! emptied there: its files are removed, and each folder in it that holds something is given a number too. So a folder is
//! reached by a short path, whatever stands in it; it is listed a few times at most, and no link is followed. Who stands in
//! such a folder may write there all the while: what is in it then is left, and whoever removes something next removes that
//! too.
ghost use Rattle.std.specs.Prelude.{◌≡◌, ◌≤◌, ◌++◌, codes, decimal, IfOk};
ghost use Rattle.std.specs.String.{string_bytes};
ghost use Rattle.mr_out_removal.specs.Beneath.{IsBeneath, IsWithin};

use mr_out_layout::REMOVED;
use std::alloc::AllocError;
use std::{fs, io};

/// How often a folder is listed that somebody writes into while it is removed.
const LISTINGS: u32 = 16;

/// Most folders that are emptied in one go, and most names that are taken of one listing. What is behind them is left.
const MOST: u64 = 1_000_000;

/// Removes a folder of what attempts write, or the file that stands in its place; and what was left of others. What is
/// written all the while is left. What is gone then, and why a call failed, no clause of std says.
#[tactic(auto, using(crate::proofs::Lying::name_beneath, crate::proofs::Lying::same_within))]
pub fn clear(rt: &HostRuntime, path: &str) -> io::Result<()> {
    make_removed(rt)?;
    let next = first_free(rt, REMOVED)?;
    let renamed = put_aside(rt, REMOVED, path, next);
    empty(rt, REMOVED, next.saturating_add(1))?;
    renamed
}

/// Removes a folder with all that it holds, or the file that stands in its place. `DirectoryNotEmpty`: it is written into
/// all the while. What is gone then, and why a call failed, no clause of std says.
#[tactic(auto, using(crate::proofs::Lying::same_within))]
pub fn remove_folder(rt: &HostRuntime, path: &str) -> io::Result<()> {
    if !is_folder(rt, path)? {
        return remove_file(rt, path, path);
    }
    let mut next = first_free(rt, path)?;
    take_out(rt, path, path, &mut next)?;
    empty(rt, path, next)?;
    remove_dir(rt, path, path)
}

// ---- the calls that remove: each of what lies in the folder that is removed

fn remove_file(rt: &HostRuntime, top: &str, path: &str) -> io::Result<()>
    requires { IsWithin top.now path.now }
{
    fs::remove_file(rt, path)
}

fn remove_dir(rt: &HostRuntime, top: &str, path: &str) -> io::Result<()>
    requires { IsWithin top.now path.now }
{
    fs::remove_dir(rt, path)
}

// Names that are no text can't be told; std goes through them.
fn remove_all(rt: &HostRuntime, top: &str, path: &str) -> io::Result<()>
    requires { IsBeneath top.now path.now }
{
    fs::remove_dir_all(rt, path)
}

// Gives what stands at a path a number in the folder.
fn put_aside(rt: &HostRuntime, top: &str, path: &str, number: u64) -> io::Result<()> {
    let aside = numbered(rt, top, number)?;
    fs::rename(rt, path, aside.as_str())
}

fn numbered(rt: &HostRuntime, top: &str, number: u64) -> Result<String, AllocError>
    ensures { IfOk result (λ path. string_bytes path ≡ top.now ++ (codes "/" ++ decimal number)) }
{
    format!(in rt.alloc(); "{top}/{number}")
}

// ---- what is removed

// Makes the folder of what is being removed, where it is not there.
fn make_removed(rt: &HostRuntime) -> io::Result<()> {
    match fs::create_dir(rt, REMOVED) {
        Err(error) if error.kind() == io::ErrorKind::AlreadyExists => check_removed(rt),
        made => made,
    }
}

fn check_removed(rt: &HostRuntime) -> io::Result<()> {
    if is_folder(rt, REMOVED)? {
        Ok(())
    } else {
        Err(io::Error::from(io::ErrorKind::NotADirectory))
    }
}

// Whether what stands at a path is a folder, and no link to one.
fn is_folder(rt: &HostRuntime, path: &str) -> io::Result<bool> {
    let found = fs::symlink_metadata(rt, path)?;
    Ok(found.is_dir())
}

// The number behind each that is a name in a folder.
fn first_free(rt: &HostRuntime, top: &str) -> io::Result<u64> {
    let mut next = 0u64;
    for entry in fs::read_dir(rt, top)? {
        match entry {
            Ok(entry) => next = behind(next, entry.file_name()),
            Err(error) if error.kind() == io::ErrorKind::InvalidFilename => {}
            Err(error) => return Err(error),
        }
    }
    Ok(next)
}

fn behind(next: u64, name: &str) -> u64
    ensures { next ≤ result }
{
    match name.parse::<u64>() {
        Ok(number) => next.max(number.saturating_add(1)),
        Err(_) => next,
    }
}

// Removes what has a number before `next`, and what gets one meanwhile. What is written into all the while is left.
fn empty(rt: &HostRuntime, top: &str, next: u64) -> io::Result<()> {
    let mut next = next;
    for number in 0..MOST {
        if number >= next {
            return Ok(());
        }
        remove_numbered(rt, top, number, &mut next)?;
    }
    Ok(())
}

#[tactic(auto, using(crate::proofs::Lying::name_beneath, crate::proofs::Lying::beneath_within))]
fn remove_numbered(rt: &HostRuntime, top: &str, number: u64, next: &mut u64) -> io::Result<()> {
    let path = numbered(rt, top, number)?;
    match is_folder(rt, &path) {
        Ok(true) => remove_listed(rt, top, &path, next),
        Ok(false) => remove_file(rt, top, &path),
        Err(error) if error.kind() == io::ErrorKind::NotFound => Ok(()),
        Err(error) => Err(error),
    }
}

// Takes out what stands in a folder and removes it, a few times over where somebody writes into it.
#[tactic(auto, using(crate::proofs::Lying::beneath_within))]
fn remove_listed(rt: &HostRuntime, top: &str, folder: &str, next: &mut u64) -> io::Result<()>
    requires { IsBeneath top.now folder.now }
{
    for _ in 0..LISTINGS {
        let is_odd = take_out(rt, top, folder, next)?;
        match remove_rest(rt, top, folder, is_odd) {
            Err(error) if error.kind() == io::ErrorKind::DirectoryNotEmpty => {}
            removed => return removed,
        }
    }
    Ok(())
}

#[tactic(auto, using(crate::proofs::Lying::beneath_within))]
fn remove_rest(rt: &HostRuntime, top: &str, folder: &str, is_odd: bool) -> io::Result<()>
    requires { IsBeneath top.now folder.now }
{
    if is_odd {
        remove_all(rt, top, folder)
    } else {
        remove_dir(rt, top, folder)
    }
}

// Takes each name out of a folder, and says whether there are names that are no text, and no others.
fn take_out(rt: &HostRuntime, top: &str, folder: &str, next: &mut u64) -> io::Result<bool>
    requires { IsWithin top.now folder.now }
{
    let mut taken = 0u64;
    let mut is_odd = false;
    for entry in fs::read_dir(rt, folder)? {
        match entry {
            Ok(entry) => {
                take_name(rt, top, folder, entry.file_name(), next)?;
                taken = taken.saturating_add(1);
            }
            Err(error) if error.kind() == io::ErrorKind::InvalidFilename => is_odd = true,
            Err(error) => return Err(error),
        }
        if taken >= MOST {
            break;
        }
    }
    Ok(is_odd && taken == 0)
}

// A file is removed, and so is an empty folder. What has a number already is not taken out.
#[tactic(auto, using(crate::proofs::Lying::name_beneath, crate::proofs::Lying::beneath_within))]
fn take_name(
    rt: &HostRuntime,
    top: &str,
    folder: &str,
    name: &str,
    next: &mut u64,
) -> io::Result<()>
    requires { IsWithin top.now folder.now }
{
    if folder == top && name.parse::<u64>().is_ok() {
        return Ok(());
    }
    let path = format!(in rt.alloc(); "{folder}/{name}")?;
    match remove_file(rt, top, &path) {
        Err(error) if error.kind() == io::ErrorKind::IsADirectory => {
            take_folder(rt, top, &path, next)
        }
        Err(error) if error.kind() == io::ErrorKind::NotFound => Ok(()),
        removed => removed,
    }
}

#[tactic(auto, using(crate::proofs::Lying::beneath_within))]
fn take_folder(rt: &HostRuntime, top: &str, path: &str, next: &mut u64) -> io::Result<()>
    requires { IsBeneath top.now path.now }
{
    match remove_dir(rt, top, path) {
        Err(error) if error.kind() == io::ErrorKind::DirectoryNotEmpty => {
            give_number(rt, top, path, next)
        }
        Err(error) if is_gone(error.kind()) => Ok(()),
        removed => removed,
    }
}

// A folder gets a number of its own.
fn give_number(rt: &HostRuntime, top: &str, path: &str, next: &mut u64) -> io::Result<()>
    requires { IsBeneath top.now path.now }
    ensures { next.old ≤ next.new }
{
    let number = *next;
    *next = number.saturating_add(1);
    match put_aside(rt, top, path, number) {
        Err(error) if is_gone(error.kind()) => Ok(()),
        renamed => renamed,
    }
}

// Somebody took the folder away meanwhile, or put something else there.
fn is_gone(kind: io::ErrorKind) -> bool {
    matches!(kind, io::ErrorKind::NotFound | io::ErrorKind::NotADirectory)
}
