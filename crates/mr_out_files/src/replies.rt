//! What a call replies, by what the system answered or what stands at a name.
ghost use Rattle.std.specs.Prelude.{◌≡◌, codes, IfOk, IfErr};
ghost use Rattle.mr_out_layout.specs.Faults.{IsFailure, IsRefusal};
ghost use Rattle.mr_out_files.specs.Troubles.{IsSweepTrouble, AnswersAs, IsMade, attempt_at, folder_path};

use crate::spares::SPARE;
use mr_ids::AttemptId;
use mr_out_disk::{Answer, Folder, Place, Reply};
use mr_out_layout::{Fault, HOME, KEPT, WORK, Why, length_named};
use mr_out_removal::clear;
use std::collections::LinkedList;
use std::fs::Metadata;
use std::io;
use std::os::unix::fs::MetadataExt;

pub(crate) fn done() -> Answer
    ensures said { result ≡ Answer.Says Reply.Done }
    ensures made { IsMade result }
{
    Answer::Says(Reply::Done)
}

/// What a call answers that may find nothing, or something in its way.
pub(crate) fn answered(
    rt: &HostRuntime,
    what: &'static str,
    path: &str,
    made: io::Result<()>,
) -> Result<Answer, Fault>
    ensures told { AnswersAs what.now path.now made result }
    ensures made { IfOk result IsMade }
    ensures failed { IfErr result (IsFailure what.now path.now) }
{
    match made {
        Ok(()) => Ok(done()),
        Err(error) if error.kind() == io::ErrorKind::NotFound => Ok(Answer::Says(Reply::Missing)),
        Err(error) if error.kind() == io::ErrorKind::AlreadyExists => Ok(Answer::Says(
            Reply::Taken,
        )),
        Err(error) => Err(Fault::of_call(rt.alloc(), what, path, error)),
    }
}

/// The attempt whose file has this name.
pub(crate) fn attempt_at(place: &Place) -> Option<AttemptId>
    ensures { result ≡ attempt_at place.now }
{
    match *place {
        Place::Work(a) => Some(a),
        Place::Kept(a) => Some(a),
        _ => None,
    }
}

/// The attempt whose handed-in file has this name.
pub(crate) fn kept_attempt(place: &Place) -> Option<AttemptId> {
    match *place {
        Place::Kept(a) => Some(a),
        _ => None,
    }
}

/// Removes what attempts wrote, and the folders that were kept for more of them.
#[tactic(auto, using(crate::proofs::Troubled::swept_work, crate::proofs::Troubled::swept_spare))]
pub(crate) fn sweep(rt: &HostRuntime) -> Result<(), Fault>
    ensures { IfErr result IsSweepTrouble }
{
    match clear(rt, WORK) {
        Ok(()) => clear_spare(rt),
        Err(error) if error.kind() == io::ErrorKind::NotFound => clear_spare(rt),
        Err(error) => Err(Fault::of_call(rt.alloc(), "remove", WORK, error)),
    }
}

fn clear_spare(rt: &HostRuntime) -> Result<(), Fault>
    ensures { IfErr result (IsFailure (codes "remove") (codes "_mrout/spare")) }
{
    match clear(rt, SPARE) {
        Ok(()) => Ok(()),
        Err(error) if error.kind() == io::ErrorKind::NotFound => Ok(()),
        Err(error) => Err(Fault::of_call(rt.alloc(), "remove", SPARE, error)),
    }
}

/// What a look at a name answers.
pub(crate) fn seen_at(place: &Place, found: Option<Metadata>) -> Answer
    ensures { IsMade result }
{
    match found {
        None => Answer::Says(Reply::Missing),
        Some(found) => {
            if is_right(place, &found) {
                Answer::Says(Reply::Found(found.ino()))
            } else {
                Answer::Says(Reply::Odd)
            }
        }
    }
}

pub(crate) fn folder_path(folder: Folder) -> &'static str
    ensures { result.now ≡ folder_path folder }
{
    match folder {
        Folder::Output => ".",
        Folder::Kept => KEPT,
        Folder::Work => WORK,
        Folder::Home => HOME,
    }
}

// A regular file; one that an attempt writes has no other name.
fn is_right(place: &Place, found: &Metadata) -> bool {
    match *place {
        Place::Work(_) => found.is_file() && found.nlink() == 1,
        _ => found.is_file(),
    }
}

/// Adds the attempt that a name tells; one that tells a length is passed over.
pub(crate) fn put_kept(
    rt: &HostRuntime,
    attempts: &mut LinkedList<AttemptId>,
    name: &str,
) -> Result<(), Fault>
    ensures { IfErr result (IsRefusal name.now Why.Foreign) }
{
    match AttemptId::parse(name) {
        Ok(a) => Ok(attempts.push_back(a)?),
        Err(_) => refuse_foreign(rt, name),
    }
}

fn refuse_foreign(rt: &HostRuntime, name: &str) -> Result<(), Fault>
    ensures { IfErr result (IsRefusal name.now Why.Foreign) }
{
    match length_named(rt.alloc(), name)? {
        Some(_) => Ok(()),
        None => Err(Fault::refused(rt.alloc(), name, Why::Foreign)),
    }
}
