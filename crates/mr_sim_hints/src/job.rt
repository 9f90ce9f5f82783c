//! What is wrong with a job text that is refused: where the JSON breaks off, which key is missing, which split or fault is bad, and
//! which line a job refuses.
use crate::near::is_near;
use arrayvec::ArrayString;
use mr_jobs::MaxByKey;
use mr_script::split_once;
use mr_sim_commands::{JobKind, JobTextFault, read_job_text};
use mr_user::{Job, MAX_SPLIT_LEN, UserFault};
use serde_json::Value;
use std::alloc::{AllocError, Global};
use std::fmt;

/// A key of a job text that is nearly spelled as one of a job. Longer ones are near to none.
pub type Near = ArrayString<16>;

// Most faults of a plan.
const MOST_FAULTS: usize = 100;

// Most events before a fault.
const MOST_EVENTS: u64 = 1_000_000;

/// Why a job text is refused, more closely than its fault tells. Splits are counted from 0, as maps are, faults from 1.
#[derive(Clone, Copy, Debug, PartialEq, Eq)]
pub enum JobTrouble {
    /// It begins with a byte order mark.
    ByteOrderMark,
    /// It is no JSON, as is seen at this line and column, both from 1.
    NoJson { line: usize, column: usize },
    /// The first line is a line of a script; and whether it is the only line.
    NoJobText { is_alone: bool },
    /// The key is missing.
    NoKey,
    /// The key is missing, and this one is there.
    Misspelt(Near),
    /// The value of the key is bad.
    Bad,
    /// So many splits, or faults, are too many.
    TooMany(usize),
    /// This split is no text.
    BadSplit(usize),
    /// This fault is bad.
    BadFault(usize, FaultTrouble),
}

/// A key of a fault that tells a node.
#[derive(Clone, Copy, Debug, PartialEq, Eq)]
pub enum NodeKey {
    /// `node`: it restarts.
    Node,
    /// `expire`: the newest master gives it up.
    Expire,
}

impl fmt::Display for NodeKey {
    fn fmt<W: fmt::Write>(&self, f: &mut fmt::Formatter<W>) -> fmt::Result {
        f.write_str(match self {
            NodeKey::Node => "node",
            NodeKey::Expire => "expire",
        })
    }
}

/// Why a fault of a plan is refused.
#[derive(Clone, Copy, Debug, PartialEq, Eq)]
pub enum FaultTrouble {
    /// It does not tell after how many events it comes.
    After,
    /// It has not just one of the keys that tell what it does.
    Act,
    /// What this key tells is none of so many nodes.
    Node { key: NodeKey, nodes: u64 },
    /// It does not tell how many bytes a master keeps.
    Kept,
}

/// What is told of a job text that is refused. It is written as a line, without a line feed.
#[derive(Clone, Copy, Debug, PartialEq, Eq)]
pub struct JobHint {
    pub trouble: JobTrouble,
    fault: JobTextFault,
    // Whether the text has to be the first line of a longer input.
    is_line: bool,
}

impl JobHint {
    /// What is to be told of the job text of an input with this fault. Where `is_line` says so it is the first line, and a script may stand
    /// behind it. Where there is no memory less is told.
    pub fn of(alloc: Global, input: &[u8], fault: JobTextFault, is_line: bool) -> JobHint {
        let trouble = match trouble_of(alloc, input, fault, is_line) {
            Ok(trouble) => trouble,
            Err(_) => JobTrouble::Bad,
        };
        JobHint {
            trouble,
            fault,
            is_line,
        }
    }
}

// The job text of an input, and the script behind it, if it is the first line.
fn parts_of(input: &[u8], is_line: bool) -> (&[u8], &[u8]) {
    match split_once(input, b'\n') {
        Some((text, script)) if is_line => (text, script),
        _ => (input, &b""[..]),
    }
}

fn trouble_of(
    alloc: Global,
    input: &[u8],
    fault: JobTextFault,
    is_line: bool,
) -> Result<JobTrouble, AllocError> {
    let (text, script) = parts_of(input, is_line);
    if text.starts_with(b"\xef\xbb\xbf") {
        return Ok(JobTrouble::ByteOrderMark);
    }
    match Value::from_slice(alloc, text) {
        Ok(value) => trouble_in(alloc, &value, fault),
        Err(error) if error.is_memory() => Err(AllocError),
        Err(_) if is_line && !text.starts_with(b"{") => Ok(JobTrouble::NoJobText {
            is_alone: script.is_empty(),
        }),
        Err(error) => Ok(JobTrouble::NoJson {
            line: error.line(),
            column: error.column(),
        }),
    }
}

// Why a text is refused that is JSON.
fn trouble_in(alloc: Global, value: &Value, fault: JobTextFault) -> Result<JobTrouble, AllocError> {
    let key = fault.to_string(alloc)?;
    match (fault, value.get(key.as_str())) {
        (JobTextFault::Text, _) => Ok(JobTrouble::Bad),
        (_, None) => missing(alloc, value, key.as_str()),
        (JobTextFault::Splits, Some(splits)) => Ok(split_trouble(splits)),
        (JobTextFault::Faults, Some(faults)) => Ok(plan_trouble(faults, nodes_of(value))),
        (_, Some(_)) => Ok(JobTrouble::Bad),
    }
}

// A key is missing: whether one is there that is nearly spelled so.
fn missing(alloc: Global, value: &Value, key: &str) -> Result<JobTrouble, AllocError> {
    let Some(members) = value.as_object() else {
        return Ok(JobTrouble::Bad);
    };
    for name in members.keys() {
        if is_near(alloc, name.as_str(), key)? {
            if let Ok(near) = ArrayString::<16>::from(name.as_str()) {
                return Ok(JobTrouble::Misspelt(near));
            }
        }
    }
    Ok(JobTrouble::NoKey)
}

fn split_trouble(splits: &Value) -> JobTrouble {
    let Some(splits) = splits.as_array() else {
        return JobTrouble::Bad;
    };
    for (number, split) in splits.iter().enumerate() {
        if !split.is_string() {
            return JobTrouble::BadSplit(number);
        }
    }
    JobTrouble::TooMany(splits.len())
}

// How many nodes the job has.
fn nodes_of(value: &Value) -> u64 {
    match value.get("nodes") {
        Some(nodes) => nodes.as_u64().unwrap_or(1),
        None => 1,
    }
}

fn plan_trouble(faults: &Value, nodes: u64) -> JobTrouble {
    let Some(faults) = faults.as_array() else {
        return JobTrouble::Bad;
    };
    if faults.len() > MOST_FAULTS {
        return JobTrouble::TooMany(faults.len());
    }
    for (place, fault) in faults.iter().enumerate() {
        if let Some(trouble) = fault_trouble(fault, nodes) {
            return JobTrouble::BadFault(place.saturating_add(1), trouble);
        }
    }
    JobTrouble::Bad
}

// What is wrong with a fault of a plan, if anything is.
fn fault_trouble(fault: &Value, nodes: u64) -> Option<FaultTrouble> {
    match fault.get("after").and_then(Value::as_u64) {
        Some(after) if after <= MOST_EVENTS => {}
        _ => return Some(FaultTrouble::After),
    }
    match (fault.get("node"), fault.get("master"), fault.get("expire")) {
        (Some(node), None, None) => node_trouble(node, NodeKey::Node, nodes),
        (None, Some(kept), None) if kept.is_u64() => None,
        (None, Some(_), None) => Some(FaultTrouble::Kept),
        (None, None, Some(node)) => node_trouble(node, NodeKey::Expire, nodes),
        _ => Some(FaultTrouble::Act),
    }
}

fn node_trouble(node: &Value, key: NodeKey, nodes: u64) -> Option<FaultTrouble> {
    match node.as_u64() {
        Some(node) if node < nodes => None,
        _ => Some(FaultTrouble::Node { key, nodes }),
    }
}

impl fmt::Display for JobHint {
    fn fmt<W: fmt::Write>(&self, f: &mut fmt::Formatter<W>) -> fmt::Result {
        let fault = self.fault;
        match self.trouble {
            JobTrouble::ByteOrderMark => f.write_str("it begins with a byte order mark: ")?,
            JobTrouble::NoJson { line, column } => write!(f, "line {line}, column {column}: ")?,
            JobTrouble::NoJobText { is_alone } => f.write_str(no_job_text(is_alone))?,
            JobTrouble::NoKey => write!(f, "there is no key \"{fault}\": ")?,
            JobTrouble::Misspelt(near) => {
                write!(f, "there is no key \"{fault}\", but there is \"{near}\": ")?
            }
            JobTrouble::Bad => {}
            JobTrouble::TooMany(count) => write!(f, "there are {count}: ")?,
            JobTrouble::BadSplit(number) => write!(f, "split {number} is no text: ")?,
            JobTrouble::BadFault(number, trouble) => return write!(f, "fault {number}: {trouble}"),
        }
        f.write_str(expected(fault))?;
        if self.is_line && fault == JobTextFault::Text {
            f.write_str(", all of it on line 1")?;
        }
        Ok(())
    }
}

// What is told of a first line that is no job text.
fn no_job_text(is_alone: bool) -> &'static str {
    if is_alone {
        "line 1 is no job text: "
    } else {
        "line 1 is no job text, and a script begins on line 2: "
    }
}

impl fmt::Display for FaultTrouble {
    fn fmt<W: fmt::Write>(&self, f: &mut fmt::Formatter<W>) -> fmt::Result {
        match self {
            FaultTrouble::After => f.write_str(
                "expected \"after\", a whole number from 0 to 1000000",
            ),
            FaultTrouble::Act => f.write_str(
                "expected one of the keys \"node\", \"master\" and \"expire\"",
            ),
            FaultTrouble::Node { key, nodes } => {
                write!(
                    f,
                    "\"{key}\" has to be a node, and the job has nodes 0 to {}",
                    nodes.saturating_sub(1)
                )
            }
            FaultTrouble::Kept => f.write_str(
                "expected \"master\", how many bytes stay: a whole number below 2^64",
            ),
        }
    }
}

// What was expected at a key of a job text, or of the whole text.
fn expected(key: JobTextFault) -> &'static str {
    match key {
        JobTextFault::Text => "expected one JSON object, in UTF-8",
        JobTextFault::Id => "expected a job's name, as \"id\":\"job_200707121733_0003\"",
        JobTextFault::Job => "expected \"job\":\"wordcount\", \"maxbykey\" or \"lineindex\"",
        JobTextFault::Reduces => "expected a whole number from 1 to 1000, as \"reduces\":2",
        JobTextFault::Splits =>
            "expected a list of at most 1000 texts, as \"splits\":[\"a b\",\"a\"]",
        JobTextFault::Nodes =>
            "expected a whole number from 1 to 64, as \"nodes\":2, or no such key",
        JobTextFault::Limit =>
            "expected a whole number from 1 to 100, as \"limit\":4, or no such key",
        JobTextFault::Faults => {
            "expected a list of at most 100 faults, as \"faults\":[{\"after\":12,\"node\":0}], or no such key"
        }
        JobTextFault::V2From =>
            "expected a whole number from 1 to 1000, as \"v2from\":1, or no such key",
    }
}

/// The line that a job refuses first. It is written as a line, without a line feed. Splits are counted from 0, as maps are, lines from 1.
#[derive(Clone, Copy, Debug, PartialEq, Eq)]
pub struct RefusedLine {
    pub split: usize,
    pub line: usize,
}

impl fmt::Display for RefusedLine {
    fn fmt<W: fmt::Write>(&self, f: &mut fmt::Formatter<W>) -> fmt::Result {
        let RefusedLine { split, line } = self;
        write!(
            f,
            "split {split}, line {line}: expected a key and a number below 2^64, or no word"
        )
    }
}

/// The first line of a split that the job of a job text refuses, if there is one, and memory to find it.
pub fn refused_line(alloc: Global, text: &[u8]) -> Option<RefusedLine> {
    let Ok(submission) = read_job_text(alloc, text) else {
        return None;
    };
    if submission.job != JobKind::MaxByKey {
        return None;
    }
    for (split, bytes) in submission.splits.as_slice().iter().enumerate() {
        for (place, line) in bytes.as_slice().split(|byte| *byte == b'\n').enumerate() {
            if is_refused(alloc, line)? {
                return Some(RefusedLine {
                    split,
                    line: place.saturating_add(1),
                });
            }
        }
    }
    None
}

// Whether the job refuses it; nothing where there is no memory to find out.
fn is_refused(alloc: Global, line: &[u8]) -> Option<bool> {
    if line.len() > MAX_SPLIT_LEN {
        return Some(false);
    }
    match MaxByKey.map(alloc, 0, 0, line) {
        Ok(_) => Some(false),
        Err(UserFault::Refused) => Some(true),
        Err(_) => None,
    }
}
