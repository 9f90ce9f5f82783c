//! Which path each name of an output directory has, from the directory itself.
ghost use Rattle.std.specs.Prelude.{◌≡◌, ◌++◌, codes, IfOk, IfSome};
ghost use Rattle.std.specs.String.{string_bytes};
ghost use Rattle.mr_ids.specs.Text.{attempt_text};
ghost use Rattle.mr_out_layout.specs.Layout.{part_name, kept_path, work_folder, work_path, boot_path, segment_name, segment_path, path_of};

use crate::job::Job;
use mr_ids::AttemptId;
use mr_out_disk::Place;
use std::alloc::{AllocError, Global};

/// The folder of all that a reader does not look at.
pub const HOME: &str = "_mrout";

/// That folder, once it was forgotten, until it is removed.
pub const GONE: &str = "_mrout.forgotten";

/// The success marker.
pub const MARKER: &str = "_SUCCESS";

/// The folder of what attempts write.
pub const WORK: &str = "_mrout/work";

/// The folder of what is being removed.
pub const REMOVED: &str = "_mrout/removed";

/// The folder of what was handed in.
pub const KEPT: &str = "_mrout/kept";

/// The file that tells the job.
pub const JOB: &str = "_mrout/job";

/// The decision that a held job is published.
pub const DECISION: &str = "_mrout/publish";

/// The name of a task's part file.
pub fn part_name(alloc: Global, job: &Job, number: u32) -> Result<String, AllocError>
    ensures { IfOk result (λ s. string_bytes s ≡ part_name (string_bytes job.now.suffix) number) }
{
    name_of_part(alloc, job.suffix.as_str(), number)
}

fn name_of_part(alloc: Global, suffix: &str, number: u32) -> Result<String, AllocError>
    ensures { IfOk result (λ s. string_bytes s ≡ part_name suffix.now number) }
{
    let text = format!(in alloc; "part-r-{number:05}{suffix}")?;
    Ok(text)
}

/// The file that an attempt handed in.
pub fn kept_path(alloc: Global, a: AttemptId) -> Result<String, AllocError>
    ensures { IfOk result (λ s. string_bytes s ≡ kept_path a) }
{
    format!(in alloc; "_mrout/kept/{a}")
}

/// The folder in which an attempt writes.
pub fn work_folder(alloc: Global, a: AttemptId) -> Result<String, AllocError>
    ensures { IfOk result (λ s. string_bytes s ≡ work_folder a) }
{
    format!(in alloc; "_mrout/work/{a}")
}

/// The note of the boot of the machine in which an attempt was begun, beside its folder.
pub fn boot_path(alloc: Global, a: AttemptId) -> Result<String, AllocError>
    ensures { IfOk result (λ s. string_bytes s ≡ boot_path a) }
{
    format!(in alloc; "_mrout/work/{a}.boot")
}

/// The file that an attempt writes.
pub fn work_path(alloc: Global, job: &Job, a: AttemptId) -> Result<String, AllocError>
    ensures { IfOk result (λ s. string_bytes s ≡ work_path (string_bytes job.now.suffix) a) }
{
    let name = part_name(alloc, job, a.task().number)?;
    path_of_work(alloc, a, &name)
}

fn path_of_work(alloc: Global, a: AttemptId, name: &str) -> Result<String, AllocError>
    ensures { IfOk result (λ s. string_bytes s ≡ codes "_mrout/work/" ++ (attempt_text a ++ (codes "/" ++ name.now))) }
{
    format!(in alloc; "_mrout/work/{a}/{name}")
}

/// The segment of the history with this number, from 1.
pub fn segment_path(alloc: Global, number: u32) -> Result<String, AllocError>
    ensures { IfOk result (λ s. string_bytes s ≡ segment_path number) }
{
    format!(in alloc; "_mrout/history.{number}")
}

/// The number of the segment with this name in the folder `_mrout`, if it is one's.
pub fn segment_named(alloc: Global, name: &str) -> Result<Option<u32>, AllocError>
    ensures { IfOk result (λ told. IfSome told (λ n. name.now ≡ segment_name n)) }
{
    let Some(digits) = name.strip_prefix("history.") else {
        return Ok(None);
    };
    match digits.parse::<u32>() {
        Ok(number) => spelled(alloc, name, number),
        Err(_) => Ok(None),
    }
}

// The number, where the name is spelled as it is.
fn spelled(alloc: Global, name: &str, number: u32) -> Result<Option<u32>, AllocError>
    ensures { IfOk result (λ told. IfSome told (λ n. name.now ≡ segment_name n)) }
{
    let own = segment_name(alloc, number)?;
    Ok(if own.as_str() == name {
        Some(number)
    } else {
        None
    })
}

fn segment_name(alloc: Global, number: u32) -> Result<String, AllocError>
    ensures { IfOk result (λ s. string_bytes s ≡ segment_name number) }
{
    format!(in alloc; "history.{number}")
}

/// The path of a name.
pub fn path_of(alloc: Global, job: &Job, place: &Place) -> Result<String, AllocError>
    ensures { IfOk result (λ s. string_bytes s ≡ path_of (string_bytes job.now.suffix) place.now) }
{
    match *place {
        Place::Part(number) => part_name(alloc, job, number),
        Place::Marker => String::from_str(alloc, MARKER),
        Place::Kept(a) => kept_path(alloc, a),
        Place::Work(a) => work_path(alloc, job, a),
        Place::Decision => String::from_str(alloc, DECISION),
        Place::Home => String::from_str(alloc, HOME),
    }
}
