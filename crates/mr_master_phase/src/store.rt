//! What the answer of a store call says.
//! Whether nothing was refused, whether something is at a path, and whether calls of a committer's table are left.
ghost use Rattle.std.specs.Prelude.{◌≡◌, List, IfSome, IfNone, IfOk, OnOk, OnErr, Ok, Err};
ghost use Rattle.mr_commit.specs.Line.{Line};
ghost use Rattle.mr_master_model.specs.Past.{Work};
ghost use Rattle.mr_master_model.specs.Answered.{is_fine, is_superseded, looked, heard_by};
ghost use Rattle.mr_master_phase.specs.Heard.{chosen};
ghost use Rattle.mr_master_phase.specs.Coming.{coming_by, IsComing};

use mr_commit::{CommitFault, Following, StepDone};
use mr_master_model::StoreAnswer;
use mr_names::{Answer, NameFault};
use std::alloc::AllocError;

/// What a look at a path found.
#[derive(Clone, Copy, Debug, PartialEq, Eq)]
pub enum Look {
    There,
    Absent,
    /// A refusal, a fault, or the answer of another call.
    Unclear,
}

/// What comes of the answer of a committer's call.
#[derive(Drop)]
pub enum Coming {
    /// Calls are left: these lines take the place of the one whose call was answered.
    More(Following),
    /// It was the last one.
    Finished,
    /// A refusal or a fault.
    Refused,
}

/// Whether the call was applied and nothing was refused.
pub fn is_fine(answer: &StoreAnswer) -> bool
    ensures { result ≡ is_fine answer.now }
{
    match answer {
        StoreAnswer::Names(Ok(_)) | StoreAnswer::Wrote(Ok(())) => true,
        _ => false,
    }
}

/// Whether the caller was refused as one of an earlier generation.
pub fn is_superseded(answer: &StoreAnswer) -> bool
    ensures { result ≡ is_superseded answer.now }
{
    match answer {
        StoreAnswer::Names(Err(NameFault::Superseded(_))) => true,
        _ => false,
    }
}

/// What was found, for the one who looked.
pub fn looked(answer: &StoreAnswer) -> Look
    ensures { (there absent : Work) → looked answer.now there absent ≡ chosen result there absent }
{
    match answer {
        StoreAnswer::Names(Ok(told)) => found(told),
        _ => Look::Unclear,
    }
}

fn found(told: &Answer) -> Look
    ensures { (there absent : Work) → looked (StoreAnswer.Names (Ok told.now)) there absent ≡ chosen result there absent }
{
    match told {
        Answer::Found(kind) => match kind {
            Some(_) => Look::There,
            None => Look::Absent,
        },
        _ => Look::Unclear,
    }
}

/// What a committer's table hears. None where it hears nothing, as after a fault, or where the namespace had no
/// memory.
pub fn named(answer: &StoreAnswer) -> Option<&Result<Answer, NameFault>>
    ensures some { IfSome result (λ r. answer.now ≡ StoreAnswer.Names r.now) }
    ensures wanting { IfSome result (λ r. r.now ≡ Err NameFault.NoMemory → ⊥) }
    ensures none { IfNone result ((left : List Line) → IsComing left answer.now Coming.Refused) }
{
    match answer {
        StoreAnswer::Names(Err(NameFault::NoMemory)) => None,
        StoreAnswer::Names(r) => Some(r),
        _ => None,
    }
}

/// What comes of it. An error where memory was wanted.
pub fn coming_of(followed: Result<Following, CommitFault>) -> Result<Coming, AllocError>
    ensures coming { IfOk result (λ coming. coming ≡ coming_by followed) }
    ensures done { OnOk result (followed ≡ Err CommitFault.NoMemory → ⊥) }
    ensures wanting { OnErr result (followed ≡ Err CommitFault.NoMemory) }
{
    match followed {
        Ok(following) => Ok(more_or_finished(following)),
        Err(CommitFault::NoMemory) => Err(AllocError),
        Err(_) => Ok(Coming::Refused),
    }
}

fn more_or_finished(following: Following) -> Coming
    ensures { result ≡ coming_by (Ok following) }
{
    match following.done() {
        StepDone::More => Coming::More(following),
        StepDone::Finished => Coming::Finished,
    }
}
