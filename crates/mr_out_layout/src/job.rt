//! The job of an output directory: one line of JSON, which is written once.
ghost use Rattle.std.specs.Prelude.{◌≡◌, Some, codes, true, option_map, IfOk, IfErr, IfSome};
ghost use Rattle.std.specs.String.{string_bytes};
ghost use Rattle.std.specs.List.{list_all};
ghost use Rattle.serde_json.specs.Data.{Data};
ghost use Rattle.serde_json.specs.Read.{read};
ghost use Rattle.serde_json.specs.View.{view};
ghost use Rattle.mr_ids.specs.Text.{job_text};
ghost use Rattle.mr_out_layout.specs.Layout.{is_suffix, begins_well, is_suffix_byte, IsPlain};
ghost use Rattle.mr_out_layout.specs.Jobs.{IsJobOf, IsTold, text_at, flag_at, number_at, limit_text, line_front, line_back, job_line};
ghost use Rattle.mr_out_layout.specs.Faults.{IsRefusal};

use crate::fault::{Fault, Why};
use crate::layout::JOB;
use mr_ids::JobId;
use serde_json::Value;
use std::alloc::{AllocError, Global};
use std::{fs, io};

/// Most tasks of a job.
pub const MAX_TASKS: u32 = 1000;

/// Most failures of one task.
pub const MAX_LIMIT: u32 = 100;

/// Most bytes of what ends each part file's name.
pub const MAX_SUFFIX_LEN: usize = 64;

/// The job of an output directory.
#[derive(Debug, Drop)]
pub struct Job {
    /// Its identifier: the milliseconds since 1970 when it was begun, and a random number below 10,000.
    pub id: JobId,
    /// How many tasks it has, 1 to `MAX_TASKS`.
    pub tasks: u32,
    /// How many failures of one task end it, 1 to `MAX_LIMIT`, if any number does.
    pub limit: Option<u32>,
    /// What ends each part file's name: nothing, or a full stop and more (`is_suffix`).
    pub suffix: String,
    /// Whether it is published only once that is decided.
    pub hold: bool,
    /// The host on which it was begun.
    pub host: String,
}

/// Whether a text may end the names of part files: it is empty, or begins with a full stop, and has only letters,
/// digits, full stops, hyphens and low lines, at most `MAX_SUFFIX_LEN` of them.
pub fn is_suffix(text: &str) -> bool
    ensures { result ≡ is_suffix text.now }
{
    begins_well(text.as_bytes()) && text.len() <= MAX_SUFFIX_LEN && is_all_plain(text)
}

fn begins_well(bytes: &[u8]) -> bool
    ensures { result ≡ begins_well bytes.now }
{
    matches!(bytes.first(), None | Some(b'.'))
}

fn is_all_plain(text: &str) -> bool
    ensures { result ≡ list_all is_suffix_byte text.now }
{
    text.bytes().all(|byte| is_plain(byte))
}

fn is_plain(byte: u8) -> bool
    ensures { result ≡ is_suffix_byte byte }
{
    byte.is_ascii_alphanumeric() || byte == b'.' || byte == b'-' || byte == b'_'
}

/// The host: its machine number, or its name where it has none, or nothing. It needs no escape in JSON.
pub fn host_of(rt: &HostRuntime) -> Result<String, Fault>
    ensures plain { IfOk result (λ host. IsPlain (string_bytes host)) }
    ensures failed { IfErr result (λ fault. fault ≡ Fault.NoMemory) }
{
    let alloc = rt.alloc();
    match first_line(rt, "/etc/machine-id")? {
        Some(host) => Ok(host),
        None => match first_line(rt, "/proc/sys/kernel/hostname")? {
            Some(host) => Ok(host),
            None => Ok(String::new(alloc)),
        },
    }
}

/// The bytes of a file by which the system tells something, if it can be read. Which they are, no clause of std says.
pub fn told(rt: &HostRuntime, path: &str) -> Result<Option<Vec<u8>>, Fault>
    ensures failed { IfErr result (λ fault. fault ≡ Fault.NoMemory) }
{
    match fs::read(rt, path) {
        Ok(bytes) => Ok(Some(bytes)),
        Err(error) if error.kind() == io::ErrorKind::OutOfMemory => Err(Fault::NoMemory),
        Err(_) => Ok(None),
    }
}

// The plain bytes of a file's first line, if it has any.
pub fn first_line(rt: &HostRuntime, path: &str) -> Result<Option<String>, Fault>
    ensures plain { IfOk result (λ line. IfSome line (λ text. IsPlain (string_bytes text))) }
    ensures failed { IfErr result (λ fault. fault ≡ Fault.NoMemory) }
{
    let Some(bytes) = told(rt, path)? else {
        return Ok(None);
    };
    let text = plain_front(rt.alloc(), &bytes)?;
    if text.is_empty() {
        return Ok(None);
    }
    Ok(Some(text))
}

// The plain bytes that these begin with.
#[tactic(auto, using(crate::proofs::Fronts::plain_more))]
fn plain_front(alloc: Global, bytes: &[u8]) -> Result<String, AllocError>
    ensures { IfOk result (λ text. IsPlain (string_bytes text)) }
{
    let mut text = String::new(alloc);
    for byte in bytes {
        if !is_plain(*byte) {
            break;
        }
        text.push(char::from(*byte))?;
    }
    Ok(text)
}

impl Job {
    /// The line that tells the job.
    pub fn line(&self, alloc: Global) -> Result<String, AllocError>
        ensures { IfOk result (λ line. string_bytes line ≡ job_line self.now) }
    {
        let limit = limit_text(alloc, self.limit)?;
        let front = line_front(alloc, self.id, self.tasks, &limit)?;
        let back = line_back(alloc, &self.suffix, self.hold, &self.host)?;
        format!(in alloc; "{front}{back}")
    }

    /// The job that the bytes of the file tell. Whatever else they hold is of another version.
    pub fn read(alloc: Global, bytes: &[u8]) -> Result<Job, Fault>
        ensures told { IfOk result (λ job. (value : Data) × ((read bytes.now ≡ Some value) × IsJobOf value job)) }
        ensures job { IfOk result IsTold }
        ensures refused { IfErr result (IsRefusal (codes "_mrout/job") Why.OtherVersion) }
    {
        match value_of(alloc, bytes)? {
            Some(value) => match job_in(alloc, &value)? {
                Some(job) => Ok(job),
                None => Err(Fault::refused(alloc, JOB, Why::OtherVersion)),
            },
            None => Err(Fault::refused(alloc, JOB, Why::OtherVersion)),
        }
    }
}

fn limit_text(alloc: Global, limit: Option<u32>) -> Result<String, AllocError>
    ensures { IfOk result (λ text. string_bytes text ≡ limit_text limit) }
{
    match limit {
        Some(limit) => format!(in alloc; "{limit}"),
        None => String::from_str(alloc, "null"),
    }
}

// What stands before the suffix.
#[tactic(auto, unfolding(crate::specs::Jobs::line_front))]
fn line_front(alloc: Global, id: JobId, tasks: u32, limit: &str) -> Result<String, AllocError>
    ensures { IfOk result (λ text. string_bytes text ≡ line_front id tasks limit.now) }
{
    format!(in alloc; "{{\"version\":1,\"job\":\"{id}\",\"tasks\":{tasks},\"limit\":{limit}")
}

// What stands from the suffix on.
#[tactic(auto, unfolding(crate::specs::Jobs::line_back))]
fn line_back(alloc: Global, suffix: &str, hold: bool, host: &str) -> Result<String, AllocError>
    ensures { IfOk result (λ text. string_bytes text ≡ line_back suffix.now hold host.now) }
{
    format!(in alloc; ",\"suffix\":\"{suffix}\",\"hold\":{hold},\"host\":\"{host}\"}}\n")
}

fn value_of(alloc: Global, bytes: &[u8]) -> Result<Option<Value>, Fault>
    ensures told { IfOk result (λ o. IfSome o (λ v. read bytes.now ≡ Some (view v))) }
    ensures memory { IfErr result (λ e. e ≡ Fault.NoMemory) }
{
    match Value::from_slice(alloc, bytes) {
        Ok(value) => Ok(Some(value)),
        Err(error) if error.is_memory() => Err(Fault::NoMemory),
        Err(_) => Ok(None),
    }
}

fn job_in(alloc: Global, value: &Value) -> Result<Option<Job>, Fault>
    ensures told { IfOk result (λ o. IfSome o (λ job. IsJobOf (view value.now) job)) }
    ensures memory { IfErr result (λ e. e ≡ Fault.NoMemory) }
{
    if number_at(value, "version", 1, 1).is_none() {
        return Ok(None);
    }
    let (Some(id), Some(tasks), Some(hold)) = (
        job_at(value),
        number_at(value, "tasks", 1, MAX_TASKS),
        flag_at(value, "hold"),
    ) else {
        return Ok(None);
    };
    let (Some(suffix), Some(host)) = (suffix_at(value), text_at(value, "host")) else {
        return Ok(None);
    };
    Ok(Some(Job {
        id,
        tasks,
        limit: number_at(value, "limit", 1, MAX_LIMIT),
        suffix: String::from_str(alloc, suffix)?,
        hold,
        host: String::from_str(alloc, host)?,
    }))
}

fn job_at(value: &Value) -> Option<JobId>
    ensures { IfSome result (λ id. text_at (codes "job") (view value.now) ≡ Some (job_text id)) }
{
    let text = text_at(value, "job")?;
    match JobId::parse(text) {
        Ok(job) => Some(job),
        Err(_) => None,
    }
}

fn suffix_at(value: &Value) -> Option<&str>
    ensures told { IfSome result (λ s. text_at (codes "suffix") (view value.now) ≡ Some s.now) }
    ensures suits { IfSome result (λ s. is_suffix s.now ≡ true) }
{
    let text = text_at(value, "suffix")?;
    if is_suffix(text) { Some(text) } else { None }
}

fn text_at<'v>(value: &'v Value, key: &str) -> Option<&'v str>
    ensures { option_map (λ s. s.now) result ≡ text_at key.now (view value.now) }
{
    value.get(key)?.as_str()
}

fn flag_at(value: &Value, key: &str) -> Option<bool>
    ensures { result ≡ flag_at key.now (view value.now) }
{
    value.get(key)?.as_bool()
}

// The number, where it is in range.
fn number_at(value: &Value, key: &str, low: u32, high: u32) -> Option<u32>
    ensures { result ≡ number_at key.now low high (view value.now) }
{
    let number = value.get(key)?.as_u64()?;
    if u64::from(low) <= number && number <= u64::from(high) {
        Some(number as u32)
    } else {
        None
    }
}
