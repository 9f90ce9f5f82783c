//! A job text, read as the job that is submitted.
ghost use Rattle.std.specs.Prelude.{◌≡◌, ◌≤◌, ◌^◌, [], codes, IfOk, IfSome, All, length, map, option_map, option_and_then};
ghost use Rattle.serde_json.specs.Find.{get};
ghost use Rattle.serde_json.specs.View.{view, items_view};
ghost use Rattle.mr_sim_commands.specs.job.Text.{Gives, each, act_of, fault_of, faults_of, job_named, kind_named, number_in, optional, required, split_of, splits_of, submission_in, submission_of, text_at};
ghost use Rattle.mr_sim_commands.specs.job.Submission.{IsOfNodes, IsPlanned, IsWithinLimits};

use crate::fault::{JobTextFault, SimFault};
use crate::job::idle_keys::idle_keys_in;
use crate::job::submission::{JobKind, Submission};
use mr_ids::{Bytes, JobId, MAX_APP_ATTEMPTS};
use mr_user::{MAX_REDUCES, MAX_SPLIT_LEN, MAX_SPLITS, Splits};
use mr_world_events::{PlanAct, PlanFault, PlanFaults};
use serde_json::Value;
use std::alloc::Global;

/// Most nodes.
const MAX_NODES: u32 = 64;

/// Most failed attempts of a task.
const MAX_LIMIT: u32 = 100;

/// Most faults of a plan.
const MAX_FAULTS: usize = 100;

/// Most events before a fault.
const MAX_AFTER: u32 = 1_000_000;

/// The whole number that a value is, from `low` to `high`.
fn number_in(value: &Value, low: u64, high: u64) -> Option<u64>
    ensures { result ≡ number_in low high (view value.now) }
{
    value.as_u64().filter(|n| low <= *n && *n <= high)
}

/// The same, of numbers below 2^32.
fn small_in(value: &Value, low: u32, high: u32) -> Option<u32>
    ensures said { result ≡ number_in low high (view value.now) }
    ensures range { IfSome result (λ n. (low ≤ n) × (n ≤ high)) }
{
    match number_in(value, u64::from(low), u64::from(high)) {
        Some(n) => Some(n as u32),
        None => None,
    }
}

/// The text at a key.
fn text_at<'v>(value: &'v Value, key: &str) -> Option<&'v str>
    ensures { option_map (λ text. text.now) result ≡ text_at key.now (view value.now) }
{
    value.get(key).and_then(Value::as_str)
}

/// The job whose text this is.
fn job_named(text: &str) -> Option<JobId>
    ensures { result ≡ job_named text.now }
{
    match JobId::parse(text) {
        Ok(job) => Some(job),
        Err(_) => None,
    }
}

fn id_in(value: &Value) -> Result<JobId, SimFault>
    ensures { Gives result (required JobTextFault.Id (option_and_then job_named (text_at (codes "id") (view value.now)))) }
{
    match text_at(value, "id").and_then(job_named) {
        Some(id) => Ok(id),
        None => Err(SimFault::Job(JobTextFault::Id)),
    }
}

/// The job of this name.
fn kind_named(name: &str) -> Option<JobKind>
    ensures { result ≡ kind_named name.now }
{
    match name {
        "wordcount" => Some(JobKind::WordCount),
        "maxbykey" => Some(JobKind::MaxByKey),
        "lineindex" => Some(JobKind::LineIndex),
        _ => None,
    }
}

fn job_in(value: &Value) -> Result<JobKind, SimFault>
    ensures { Gives result (required JobTextFault.Job (option_and_then kind_named (text_at (codes "job") (view value.now)))) }
{
    match text_at(value, "job").and_then(kind_named) {
        Some(kind) => Ok(kind),
        None => Err(SimFault::Job(JobTextFault::Job)),
    }
}

fn reduces_in(value: &Value) -> Result<u32, SimFault>
    ensures said { Gives result (required JobTextFault.Reduces (option_and_then (number_in 1 1000) (get (codes "reduces") (view value.now)))) }
    ensures range { IfOk result (λ n. (1 ≤ n) × (n ≤ 1000)) }
{
    match value.get("reduces") {
        Some(number) => small_in(number, 1, MAX_REDUCES).ok_or(SimFault::Job(
            JobTextFault::Reduces,
        )),
        None => Err(SimFault::Job(JobTextFault::Reduces)),
    }
}

/// The text of a split, if it is not too long.
fn split_of(value: &Value) -> Option<&str>
    ensures said { option_map (λ text. text.now) result ≡ split_of (view value.now) }
    ensures short { IfSome result (λ text. length text.now ≤ 2 ^ 24) }
{
    value.as_str().filter(|text| text.len() <= MAX_SPLIT_LEN)
}

/// The splits that these values are.
fn each_split(alloc: Global, values: &[Value]) -> Result<Splits, SimFault>
    ensures said { Gives result (required JobTextFault.Splits (each split_of (items_view values.now))) }
    ensures count { IfOk result (λ splits. length splits ≡ length values.now) }
    ensures short { IfOk result (λ splits. All (λ split. length split ≤ 2 ^ 24) splits) }
{
    let mut splits = Vec::new(alloc);
    for value in values {
        let Some(text) = split_of(value) else {
            return Err(SimFault::Job(JobTextFault::Splits));
        };
        let mut split = Bytes::from_slice(alloc, text.as_bytes())?;
        split.share();
        splits.push(split)?;
    }
    Ok(Splits::from_vec(splits))
}

/// The splits that a value is.
fn splits_of(alloc: Global, value: &Value) -> Result<Splits, SimFault>
    ensures said { Gives result (required JobTextFault.Splits (splits_of (view value.now))) }
    ensures few { IfOk result (λ splits. length splits ≤ 1000) }
    ensures short { IfOk result (λ splits. All (λ split. length split ≤ 2 ^ 24) splits) }
{
    let Some(values) = value.as_array() else {
        return Err(SimFault::Job(JobTextFault::Splits));
    };
    if values.len() > MAX_SPLITS {
        return Err(SimFault::Job(JobTextFault::Splits));
    }
    each_split(alloc, values)
}

fn splits_in(alloc: Global, value: &Value) -> Result<Splits, SimFault>
    ensures said { Gives result (required JobTextFault.Splits (option_and_then splits_of (get (codes "splits") (view value.now)))) }
    ensures few { IfOk result (λ splits. length splits ≤ 1000) }
    ensures short { IfOk result (λ splits. All (λ split. length split ≤ 2 ^ 24) splits) }
{
    match value.get("splits") {
        Some(list) => splits_of(alloc, list),
        None => Err(SimFault::Job(JobTextFault::Splits)),
    }
}

fn nodes_in(value: &Value) -> Result<u32, SimFault>
    ensures said { Gives result (required JobTextFault.Nodes (optional 1 (number_in 1 64) (get (codes "nodes") (view value.now)))) }
    ensures range { IfOk result (λ n. (1 ≤ n) × (n ≤ 64)) }
{
    match value.get("nodes") {
        Some(number) => small_in(number, 1, MAX_NODES).ok_or(SimFault::Job(JobTextFault::Nodes)),
        None => Ok(1),
    }
}

fn limit_in(value: &Value) -> Result<u32, SimFault>
    ensures said { Gives result (required JobTextFault.Limit (optional 4 (number_in 1 100) (get (codes "limit") (view value.now)))) }
    ensures range { IfOk result (λ n. (1 ≤ n) × (n ≤ 100)) }
{
    match value.get("limit") {
        Some(number) => small_in(number, 1, MAX_LIMIT).ok_or(SimFault::Job(JobTextFault::Limit)),
        None => Ok(4),
    }
}

/// What the fault does that this value tells, in a job with this many nodes.
#[tactic(auto, unfolding(crate::specs::job::Text::act_of))]
fn act_of(value: &Value, nodes: u32) -> Option<PlanAct>
    requires { 1 ≤ nodes }
    ensures said { result ≡ act_of nodes (view value.now) }
    ensures of_nodes { IfSome result (IsOfNodes nodes) }
{
    match (value.get("node"), value.get("master"), value.get("expire")) {
        (Some(node), None, None) => Some(PlanAct::Node(small_in(node, 0, nodes - 1)?)),
        (None, Some(kept), None) => Some(PlanAct::Master(number_in(kept, 0, u64::MAX)?)),
        (None, None, Some(node)) => Some(PlanAct::Expire(small_in(node, 0, nodes - 1)?)),
        _ => None,
    }
}

/// The fault that this value tells, in a job with this many nodes.
#[tactic(auto, unfolding(crate::specs::job::Text::fault_of))]
fn fault_of(value: &Value, nodes: u32) -> Option<PlanFault>
    requires { 1 ≤ nodes }
    ensures said { result ≡ fault_of nodes (view value.now) }
    ensures planned { IfSome result (IsPlanned nodes) }
{
    let after = small_in(value.get("after")?, 0, MAX_AFTER)?;
    let act = act_of(value, nodes)?;
    Some(PlanFault { after, act })
}

/// The faults that these values tell, one each.
fn each_fault(alloc: Global, values: &[Value], nodes: u32) -> Result<PlanFaults, SimFault>
    requires { 1 ≤ nodes }
    ensures said { Gives result (required JobTextFault.Faults (each (fault_of nodes) (items_view values.now))) }
    ensures count { IfOk result (λ faults. length faults ≡ length values.now) }
    ensures planned { IfOk result (All (IsPlanned nodes)) }
{
    let mut faults = Vec::new(alloc);
    for value in values {
        let Some(fault) = fault_of(value, nodes) else {
            return Err(SimFault::Job(JobTextFault::Faults));
        };
        faults.push(fault)?;
    }
    Ok(PlanFaults::from_vec(faults))
}

/// The faults that this value tells, in a job with this many nodes.
fn faults_of(alloc: Global, value: &Value, nodes: u32) -> Result<PlanFaults, SimFault>
    requires { 1 ≤ nodes }
    ensures said { Gives result (required JobTextFault.Faults (faults_of nodes (view value.now))) }
    ensures few { IfOk result (λ faults. length faults ≤ 100) }
    ensures planned { IfOk result (All (IsPlanned nodes)) }
{
    let Some(values) = value.as_array() else {
        return Err(SimFault::Job(JobTextFault::Faults));
    };
    if values.len() > MAX_FAULTS {
        return Err(SimFault::Job(JobTextFault::Faults));
    }
    each_fault(alloc, values, nodes)
}

fn faults_in(alloc: Global, value: &Value, nodes: u32) -> Result<PlanFaults, SimFault>
    requires { 1 ≤ nodes }
    ensures said { Gives result (required JobTextFault.Faults (optional [] (faults_of nodes) (get (codes "faults") (view value.now)))) }
    ensures few { IfOk result (λ faults. length faults ≤ 100) }
    ensures planned { IfOk result (All (IsPlanned nodes)) }
{
    match value.get("faults") {
        Some(list) => faults_of(alloc, list, nodes),
        None => Ok(PlanFaults::from_vec(Vec::new(alloc))),
    }
}

fn v2_from_in(value: &Value) -> Result<u32, SimFault>
    ensures said { Gives result (required JobTextFault.V2From (optional 1 (number_in 1 1000) (get (codes "v2from") (view value.now)))) }
    ensures range { IfOk result (λ n. (1 ≤ n) × (n ≤ 1000)) }
{
    match value.get("v2from") {
        Some(number) => {
            small_in(number, 1, MAX_APP_ATTEMPTS).ok_or(SimFault::Job(JobTextFault::V2From))
        }
        None => Ok(1),
    }
}

/// The keys of a job text, in their order.
#[tactic(auto, unfolding(crate::specs::job::Text::submission_in))]
fn submission_in(alloc: Global, value: &Value) -> Result<Submission, SimFault>
    ensures said { Gives result (submission_in (view value.now)) }
    ensures limits { IfOk result IsWithinLimits }
{
    if !value.is_object() {
        return Err(SimFault::Job(JobTextFault::Text));
    }
    let id = id_in(value)?;
    let job = job_in(value)?;
    let reduces = reduces_in(value)?;
    let splits = splits_in(alloc, value)?;
    let nodes = nodes_in(value)?;
    let limit = limit_in(value)?;
    let faults = faults_in(alloc, value, nodes)?;
    let v2_from = v2_from_in(value)?;
    let idle_keys = idle_keys_in(alloc, value)?;
    Ok(Submission {
        id,
        job,
        reduces,
        splits,
        nodes,
        limit,
        faults,
        v2_from,
        idle_keys,
    })
}

/// Reads a job text: one JSON object with the keys `id`, `job`, `reduces`, `splits`, and, where they are there, `nodes`,
/// `limit`, `faults` and `v2from`. Other keys say nothing of the job, and are told beside it.
///
/// `Job` names the first of these keys, in this order, that is missing or bad, or tells that there is no JSON object.
/// Nothing else is answered but `NoMemory`, which may come at any text that is not empty.
#[tactic(auto, unfolding(crate::specs::job::Text::submission_of))]
pub fn read_job_text(alloc: Global, text: &[u8]) -> Result<Submission, SimFault>
    // The job that the text says, or its first bad key.
    ensures said { Gives result (submission_of text.now) }

    // What a job may say.
    ensures limits { IfOk result IsWithinLimits }
{
    match Value::from_slice(alloc, text) {
        Ok(value) => submission_in(alloc, &value),
        Err(error) if error.is_memory() => Err(SimFault::NoMemory),
        Err(_) => Err(SimFault::Job(JobTextFault::Text)),
    }
}
