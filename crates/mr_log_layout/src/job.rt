//! The job of an output directory: one line of JSON, which is written once.
ghost use Rattle.std.specs.Prelude.{◌≡◌, ◌≢◌, ◌≤◌, ◌++◌, ◌∷◌, ◌⊎◌, [], ℕ, List, Bool, true, Option, Some, None, codes, option_map, IfOk, IfErr, IfSome, OnOk, MatchOption, MatchResult, IsUtf8};
ghost use Rattle.std.specs.String.{string_bytes};
ghost use Rattle.serde_json.specs.Data.{number, unsigned, string, boolean, put as with_member};
ghost use Rattle.serde_json.specs.Find.{get};
ghost use Rattle.serde_json.specs.Read.{read};
ghost use Rattle.serde_json.specs.View.{view, members_view};
ghost use Rattle.mr_ids.specs.declared.id.JobId.{JobId};
ghost use Rattle.mr_ids.specs.Text.{job_text, IsJob};
ghost use Rattle.mr_log_layout.specs.declared.job.Job.{Job};
ghost use Rattle.mr_log_layout.specs.Jobs.{data_of, limit_data, job_line, version_of, fault_of_version, fault_in, IsLimit, IsTold, IsLineIn, IsFaultOf};
ghost use Rattle.mr_log_layout.specs.Paths.{is_suffix};

use crate::fault::JobFault;
use crate::path::is_suffix;
use mr_ids::JobId;
use serde_json::{Map, Value, put};
use std::alloc::{AllocError, Global};

/// Most tasks of a job.
pub const MAX_TASKS: u32 = 100000;

/// Most failures of one task.
pub const MAX_LIMIT: u32 = 100;

/// The job of an output directory.
#[derive(Debug, Drop)]
pub struct Job {
    /// Its identifier: the milliseconds since 1970 when it was begun, and a random number below
    /// 10,000.
    pub id: JobId,
    /// The user who began it: nobody else may change the directory.
    pub uid: u32,
    /// How many tasks it has, 1 to `MAX_TASKS`.
    pub tasks: u32,
    /// How many failures of one task end it, 1 to `MAX_LIMIT`, if any number does.
    pub limit: Option<u32>,
    /// What ends each part file's name: nothing, or a full stop and more (`is_suffix`).
    pub suffix: String,
    /// Whether it is published only once that is decided.
    pub hold: bool,
    /// Whether each attempt hands in a folder, and not one file.
    pub folders: bool,
    /// Whether it stands on a disk that other hosts write too.
    pub shared: bool,
}

impl Job {
    /// The line that tells the job, with its line feed.
    #[tactic(auto, unfolding(crate::specs::Jobs::job_line))]
    pub fn line(&self, alloc: Global) -> Result<String, AllocError>
        ensures { IfOk result (λ line. string_bytes line ≡ job_line (data_of self.now)) }
    {
        let mut line = compact(alloc, self)?;
        line.push('\n')?;
        Ok(line)
    }

    /// The job whose line the bytes of the file are. Any other bytes are refused, another spelling
    /// of the same values too.
    pub fn read(alloc: Global, bytes: &[u8]) -> Result<Job, JobFault>
        // What is read has this line.
        ensures found { IfOk result (λ job. IsTold job × (bytes.now ≡ job_line (data_of job))) }
        // What has this line is read, unless memory runs out.
        ensures only { (job : Job) → IsTold job → bytes.now ≡ job_line (data_of job) → MatchResult result (λ j. data_of j ≡ data_of job) (λ e. e ≡ JobFault.NoMemory) }
        // Why it is refused: a version that is another comes first.
        ensures exact { IfErr result (λ e. (e ≡ JobFault.NoMemory) ⊎ ((line : List ℕ) × IsLineIn bytes.now line × IsFaultOf line e)) }
    {
        match job_of(alloc, line_in(bytes)) {
            Ok(job) => told_by(alloc, job, bytes),
            Err(fault) => Err(fault),
        }
    }
}

// The job, if the bytes are its line.
fn told_by(alloc: Global, job: Job, bytes: &[u8]) -> Result<Job, JobFault>
    ensures found { IfOk result (λ j. (j ≡ job) × (bytes.now ≡ job_line (data_of job))) }
    ensures only { bytes.now ≡ job_line (data_of job) → MatchResult result (λ j. j ≡ job) (λ e. e ≡ JobFault.NoMemory) }
    ensures exact { IfErr result (λ e. (e ≡ JobFault.NoMemory) ⊎ (e ≡ JobFault.Damaged)) }
{
    if is_line_of(alloc, &job, bytes)? {
        Ok(job)
    } else {
        Err(JobFault::Damaged)
    }
}

fn is_line_of(alloc: Global, job: &Job, bytes: &[u8]) -> Result<bool, AllocError>
    ensures yes { IfOk result (λ b. b ≡ true → bytes.now ≡ job_line (data_of job.now)) }
    ensures no { IfOk result (λ b. bytes.now ≡ job_line (data_of job.now) → b ≡ true) }
{
    let line = job.line(alloc)?;
    Ok(line.as_bytes() == bytes)
}

fn compact(alloc: Global, job: &Job) -> Result<String, AllocError>
    ensures { IfOk result (λ line. string_bytes line ++ 10 ∷ [] ≡ job_line (data_of job.now)) }
{
    let value = value_of(alloc, job)?;
    value.to_string(alloc)
}

// The job as a value of JSON.
fn value_of(alloc: Global, job: &Job) -> Result<Value, AllocError>
    ensures { IfOk result (λ v. view v ≡ data_of job.now) }
{
    let members = with_flags(alloc, Map::new(alloc), job)?;
    let members = with_texts(alloc, members, job)?;
    let members = with_numbers(alloc, members, job)?;
    Ok(Value::Object(members))
}

fn with_flags(
    alloc: Global,
    mut members: Map<String, Value>,
    job: &Job,
) -> Result<Map<String, Value>, AllocError>
    ensures { IfOk result (λ m. members_view m.entries ≡ with_member (codes "shared") (boolean job.now.shared) (with_member (codes "hold") (boolean job.now.hold) (with_member (codes "folders") (boolean job.now.folders) (members_view members.entries)))) }
{
    put(&mut members, alloc, "folders", Value::Bool(job.folders))?;
    put(&mut members, alloc, "hold", Value::Bool(job.hold))?;
    put(&mut members, alloc, "shared", Value::Bool(job.shared))?;
    Ok(members)
}

fn with_texts(
    alloc: Global,
    mut members: Map<String, Value>,
    job: &Job,
) -> Result<Map<String, Value>, AllocError>
    ensures { IfOk result (λ m. members_view m.entries ≡ with_member (codes "suffix") (string (string_bytes job.now.suffix)) (with_member (codes "job") (string (job_text job.now.id)) (members_view members.entries))) }
{
    let text = text_of(alloc, job.id)?;
    put_text(&mut members, alloc, "job", text.as_str())?;
    put_text(&mut members, alloc, "suffix", job.suffix.as_str())?;
    Ok(members)
}

fn with_numbers(
    alloc: Global,
    mut members: Map<String, Value>,
    job: &Job,
) -> Result<Map<String, Value>, AllocError>
    ensures { IfOk result (λ m. members_view m.entries ≡ with_member (codes "version") (number (unsigned 2)) (with_member (codes "uid") (number (unsigned job.now.uid)) (with_member (codes "tasks") (number (unsigned job.now.tasks)) (with_member (codes "limit") (limit_data job.now.limit) (members_view members.entries))))) }
{
    put(&mut members, alloc, "limit", limit_value(job.limit))?;
    put(&mut members, alloc, "tasks", Value::from(job.tasks))?;
    put(&mut members, alloc, "uid", Value::from(job.uid))?;
    put(&mut members, alloc, "version", Value::from(2u32))?;
    Ok(members)
}

fn text_of(alloc: Global, id: JobId) -> Result<String, AllocError>
    ensures { IfOk result (λ s. string_bytes s ≡ job_text id) }
{
    format!(in alloc; "{id}")
}

fn put_text(
    members: &mut Map<String, Value>,
    alloc: Global,
    key: &str,
    text: &str,
) -> Result<(), AllocError>
    ensures { OnOk result (members_view members.new.entries ≡ with_member key.now (string text.now) (members_view members.old.entries)) }
{
    let value = Value::try_from_str(alloc, text)?;
    put(members, alloc, key, value)
}

fn limit_value(limit: Option<u32>) -> Value
    ensures { view result ≡ limit_data limit }
{
    match limit {
        Some(limit) => Value::from(limit),
        None => Value::Null,
    }
}

// The bytes before the line feed at their end, if there is one.
fn line_in(bytes: &[u8]) -> &[u8]
    ensures { IsLineIn bytes.now result.now }
{
    match before(bytes, "\n") {
        Some(line) => line,
        None => bytes,
    }
}

// The bytes before these last ones.
fn before<'t>(text: &'t [u8], word: &str) -> Option<&'t [u8]>
    ensures { MatchOption result ((front : List ℕ) → text.now ≢ front ++ word.now) (λ x. text.now ≡ x.now ++ word.now) }
{
    text.strip_suffix(word.as_bytes())
}

// The job that a line tells, in whatever spelling.
#[tactic(auto, using(crate::proofs::Told::no_json, crate::proofs::Told::told_fault))]
fn job_of(alloc: Global, line: &[u8]) -> Result<Job, JobFault>
    ensures found { IfOk result (λ job. IsTold job × IsFaultOf line.now JobFault.Damaged) }
    ensures only { (job : Job) → IsTold job → IsUtf8 line.now → read line.now ≡ Some (data_of job) → MatchResult result (λ j. data_of j ≡ data_of job) (λ e. e ≡ JobFault.NoMemory) }
    ensures exact { IfErr result (λ e. (e ≡ JobFault.NoMemory) ⊎ IsFaultOf line.now e) }
{
    match parsed(alloc, line)? {
        Some(value) => of_version(alloc, &value),
        None => Err(JobFault::Damaged),
    }
}

fn parsed(alloc: Global, line: &[u8]) -> Result<Option<Value>, JobFault>
    ensures told { IfOk result (λ o. MatchOption o (IsUtf8 line.now → read line.now ≡ None) (λ v. IsUtf8 line.now × (read line.now ≡ Some (view v)))) }
    ensures memory { IfErr result (λ e. e ≡ JobFault.NoMemory) }
{
    match Value::from_slice(alloc, line) {
        Ok(value) => Ok(Some(value)),
        Err(error) if error.is_memory() => Err(JobFault::NoMemory),
        Err(_) => Ok(None),
    }
}

fn of_version(alloc: Global, value: &Value) -> Result<Job, JobFault>
    ensures found { IfOk result (λ job. IsTold job × (fault_of_version (version_of (view value.now)) ≡ JobFault.Damaged)) }
    ensures only { (job : Job) → IsTold job → view value.now ≡ data_of job → MatchResult result (λ j. data_of j ≡ data_of job) (λ e. e ≡ JobFault.NoMemory) }
    ensures exact { IfErr result (λ e. (e ≡ JobFault.NoMemory) ⊎ (e ≡ fault_of_version (version_of (view value.now)))) }
{
    match version_of(value) {
        Some(1) => Err(JobFault::FirstForm),
        Some(2) => job_in(alloc, value),
        Some(_) => Err(JobFault::OtherVersion),
        None => Err(JobFault::Damaged),
    }
}

fn version_of(value: &Value) -> Option<u64>
    ensures { result ≡ version_of (view value.now) }
{
    value.get("version")?.as_u64()
}

fn job_in(alloc: Global, value: &Value) -> Result<Job, JobFault>
    ensures found { IfOk result IsTold }
    ensures only { (job : Job) → IsTold job → view value.now ≡ data_of job → MatchResult result (λ j. data_of j ≡ data_of job) (λ e. e ≡ JobFault.NoMemory) }
    ensures exact { IfErr result (λ e. (e ≡ JobFault.NoMemory) ⊎ (e ≡ JobFault.Damaged)) }
{
    let Some(id) = id_in(value) else {
        return Err(JobFault::Damaged);
    };
    let Some(numbers) = numbers_in(value) else {
        return Err(JobFault::Damaged);
    };
    let Some(flags) = flags_in(value) else {
        return Err(JobFault::Damaged);
    };
    let Some(suffix) = suffix_in(value) else {
        return Err(JobFault::Damaged);
    };
    let suffix = String::from_str(alloc, suffix)?;
    Ok(Job {
        id,
        uid: numbers.uid,
        tasks: numbers.tasks,
        limit: numbers.limit,
        suffix,
        hold: flags.hold,
        folders: flags.folders,
        shared: flags.shared,
    })
}

#[derive(Clone, Copy)]
struct Numbers {
    uid: u32,
    tasks: u32,
    limit: Option<u32>,
}

#[derive(Clone, Copy)]
struct Flags {
    hold: bool,
    folders: bool,
    shared: bool,
}

fn id_in(value: &Value) -> Option<JobId>
    ensures found { IfSome result IsJob }
    ensures only { (id : JobId) → IsJob id → get (codes "job") (view value.now) ≡ Some (string (job_text id)) → result ≡ Some id }
{
    let text = value.get("job")?.as_str()?;
    match JobId::parse(text) {
        Ok(job) => Some(job),
        Err(_) => None,
    }
}

fn suffix_in(value: &Value) -> Option<&str>
    ensures found { IfSome result (λ s. is_suffix s.now ≡ true) }
    ensures only { (s : List ℕ) → is_suffix s ≡ true → get (codes "suffix") (view value.now) ≡ Some (string s) → option_map (λ t. t.now) result ≡ Some s }
{
    let text = value.get("suffix")?.as_str()?;
    if is_suffix(text) { Some(text) } else { None }
}

fn numbers_in(value: &Value) -> Option<Numbers>
    ensures found { IfSome result (λ n. (n.uid ≤ 4294967295) × (1 ≤ n.tasks) × (n.tasks ≤ 100000) × IsLimit n.limit) }
    ensures only { (job : Job) → IsTold job → view value.now ≡ data_of job → result ≡ Some (record { uid = job.uid; tasks = job.tasks; limit = job.limit }) }
{
    let uid = number_at(value, "uid", 0, u32::MAX)?;
    let tasks = number_at(value, "tasks", 1, MAX_TASKS)?;
    let limit = limit_in(value)?;
    Some(Numbers { uid, tasks, limit })
}

fn flags_in(value: &Value) -> Option<Flags>
    ensures { (job : Job) → view value.now ≡ data_of job → result ≡ Some (record { hold = job.hold; folders = job.folders; shared = job.shared }) }
{
    let hold = flag_at(value, "hold")?;
    let folders = flag_at(value, "folders")?;
    let shared = flag_at(value, "shared")?;
    Some(Flags {
        hold,
        folders,
        shared,
    })
}

fn limit_in(value: &Value) -> Option<Option<u32>>
    ensures found { IfSome result IsLimit }
    ensures only { (limit : Option ℕ) → IsLimit limit → get (codes "limit") (view value.now) ≡ Some (limit_data limit) → result ≡ Some limit }
{
    if value.get("limit")?.is_null() {
        return Some(None);
    }
    Some(Some(number_at(value, "limit", 1, MAX_LIMIT)?))
}

fn flag_at(value: &Value, key: &str) -> Option<bool>
    ensures { (flag : Bool) → get key.now (view value.now) ≡ Some (boolean flag) → result ≡ Some flag }
{
    value.get(key)?.as_bool()
}

// The number, where it is in range.
fn number_at(value: &Value, key: &str, low: u32, high: u32) -> Option<u32>
    ensures found { IfSome result (λ n. (low ≤ n) × (n ≤ high)) }
    ensures only { (n : ℕ) → low ≤ n → n ≤ high → get key.now (view value.now) ≡ Some (number (unsigned n)) → result ≡ Some n }
{
    let number = value.get(key)?.as_u64()?;
    if low as u64 <= number && number <= high as u64 {
        Some(number as u32)
    } else {
        None
    }
}
