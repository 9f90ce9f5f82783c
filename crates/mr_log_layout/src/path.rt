//! The path of each name of an output directory, from the directory itself.
ghost use Rattle.std.specs.Prelude.{◌≡◌, ◌++◌, codes, IfOk};
ghost use Rattle.std.specs.String.{string_bytes};
ghost use Rattle.std.specs.List.{list_all};
ghost use Rattle.mr_log_layout.specs.Paths.{part_name, entry_path, summary_path, boot_path, work_path, kept_path, list_path, sync_path, path_below, is_suffix, begins_well, is_suffix_byte};

use mr_ids::AttemptId;
use mr_log_entries::push_number;
use std::alloc::{AllocError, Global};

/// The folder of all that a reader does not look at.
pub const HOME: &str = "_mrout";

/// The file that tells the job.
pub const JOB: &str = "_mrout/job";

/// The names of the tasks, a line each, where they have names of their own.
pub const NAMES: &str = "_mrout/names";

/// The empty file of which the success marker is a further name: so a marker that others made is
/// none.
pub const MARKER: &str = "_mrout/marker";

/// The success marker, as readers see it.
pub const SUCCESS: &str = "_SUCCESS";

/// The folder of the entries, and of their summaries.
pub const LOG: &str = "_mrout/log";

/// The folder of what the short forms of boots stand for.
pub const BOOTS: &str = "_mrout/boots";

/// The folder of what attempts write.
pub const WORK: &str = "_mrout/work";

/// The folder of what was handed in.
pub const KEPT: &str = "_mrout/kept";

/// Most bytes of what ends each part file's name.
pub const MAX_SUFFIX_LEN: usize = 64;

/// Whether a text may end the names of part files: it is empty, or begins with a full stop, and has
/// only letters, digits, full stops, hyphens and low lines, at most `MAX_SUFFIX_LEN` of them.
pub fn is_suffix(text: &str) -> bool
    ensures { result ≡ is_suffix text.now }
{
    begins_well(text.as_bytes()) && text.len() <= MAX_SUFFIX_LEN && is_all_plain(text)
}

fn begins_well(bytes: &[u8]) -> bool
    ensures { result ≡ begins_well bytes.now }
{
    matches!(bytes.first(), None | Some(b'.'))
}

fn is_all_plain(text: &str) -> bool
    ensures { result ≡ list_all is_suffix_byte text.now }
{
    text.bytes().all(|byte| is_plain(byte))
}

fn is_plain(byte: u8) -> bool
    ensures { result ≡ is_suffix_byte byte }
{
    byte.is_ascii_alphanumeric() || byte == b'.' || byte == b'-' || byte == b'_'
}

/// A task's name for readers where it has none of its own, by what ends the job's names.
pub fn part_name(alloc: Global, suffix: &str, number: u32) -> Result<String, AllocError>
    ensures { IfOk result (λ s. string_bytes s ≡ part_name suffix.now number) }
{
    let text = format!(in alloc; "part-r-{number:05}{suffix}")?;
    Ok(text)
}

/// The entry of the log with this number, from 1.
pub fn entry_path(alloc: Global, number: u32) -> Result<String, AllocError>
    ensures { IfOk result (λ s. string_bytes s ≡ entry_path number) }
{
    let text = format!(in alloc; "_mrout/log/{number:08}")?;
    Ok(text)
}

/// The summary of the entries up to this one.
pub fn summary_path(alloc: Global, number: u32) -> Result<String, AllocError>
    ensures { IfOk result (λ s. string_bytes s ≡ summary_path number) }
{
    format!(in alloc; "_mrout/log/upto.{number}")
}

/// What the short form of a boot stands for.
pub fn boot_path(alloc: Global, boot: u64) -> Result<String, AllocError>
    ensures { IfOk result (λ s. string_bytes s ≡ boot_path boot) }
{
    let mut path = String::from_str(alloc, "_mrout/boots/")?;
    push_number(&mut path, 16, boot)?;
    Ok(path)
}

/// The folder in which an attempt writes.
pub fn work_path(alloc: Global, a: AttemptId) -> Result<String, AllocError>
    ensures { IfOk result (λ s. string_bytes s ≡ work_path a) }
{
    format!(in alloc; "_mrout/work/{a}")
}

/// The folder of what an attempt handed in.
pub fn kept_path(alloc: Global, a: AttemptId) -> Result<String, AllocError>
    ensures { IfOk result (λ s. string_bytes s ≡ kept_path a) }
{
    format!(in alloc; "_mrout/kept/{a}")
}

/// The list of what an attempt handed in, by the id of the entry that records it.
pub fn list_path(alloc: Global, a: AttemptId, id: u64) -> Result<String, AllocError>
    ensures { IfOk result (λ s. string_bytes s ≡ list_path a id) }
{
    let mut path = format!(in alloc; "_mrout/kept/{a}.")?;
    push_number(&mut path, 16, id)?;
    Ok(path)
}

/// The note that what an attempt handed in is being synced.
pub fn sync_path(alloc: Global, a: AttemptId) -> Result<String, AllocError>
    ensures { IfOk result (λ s. string_bytes s ≡ sync_path a) }
{
    format!(in alloc; "_mrout/kept/{a}.sync")
}

/// The path below a folder, as of an attempt's file below the folder in which it writes.
pub fn path_below(alloc: Global, folder: &str, path: &str) -> Result<String, AllocError>
    ensures { IfOk result (λ s. string_bytes s ≡ path_below folder.now path.now) }
{
    format!(in alloc; "{folder}/{path}")
}
