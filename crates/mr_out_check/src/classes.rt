//! Of which class a name is.
ghost use Rattle.std.specs.Prelude.{◌≡◌, ◌==◌, option_copied};
ghost use Rattle.std.specs.List.{list_any};
ghost use Rattle.mr_script.specs.Lines.{after};
ghost use Rattle.mr_paths.specs.Layout.{is_hidden};
ghost use Rattle.mr_out_check.specs.Classes.{attempt_class, below_class, class_by, class_of, file_class, folder_class, hidden_class, is_commit_mark, is_hive, is_spark, marker_class, task_class, temporary_class, top_class, visible_class, work_class};

use crate::class::Class;
use crate::part::part_behind;
use mr_out_listing::{Kind, before, behind, has_digits};
use mr_script::split_once;

const MARKER: &[u8] = b"_SUCCESS";

const TEMPORARY: &[u8] = b"_temporary";

const MROUT: &[u8] = b"_mrout";

const DELTA_LOG: &[u8] = b"_delta_log";

// What stands behind the first slash.
fn beneath(name: &[u8]) -> Option<&[u8]>
    ensures { option_copied result ≡ after 47 name.now }
{
    match split_once(name, b'/') {
        Some((_, rest)) => Some(rest),
        None => None,
    }
}

fn is_hidden(name: &[u8]) -> bool
    ensures { result ≡ is_hidden name.now }
{
    matches!(name.first(), Some(b'_' | b'.'))
}

// Whether the name is `part-00000-UUID-c000.snappy.parquet`, or the like.
fn is_spark(name: &[u8]) -> bool
    ensures { result ≡ is_spark name.now }
{
    if !name.starts_with(b"part-") {
        return false;
    }
    let tail = &name[5..];
    has_digits(before(tail, b'-'), 5) && 0 < behind(tail, b'-').len()
}

// Whether the name is `000000_0`, or the like.
fn is_hive(name: &[u8]) -> bool
    ensures { result ≡ is_hive name.now }
{
    has_digits(before(name, b'_'), 6) && 0 < behind(name, b'_').len()
}

fn is_commit_mark(name: &[u8]) -> bool
    ensures { result ≡ is_commit_mark name.now }
{
    name.starts_with(b"_committed_") || name.starts_with(b"_started_")
}

fn marker_class(kind: Kind, empty: bool) -> Class
    ensures { result ≡ marker_class kind empty }
{
    match kind {
        Kind::File if empty => Class::Marker,
        Kind::File => Class::MarkerWithBytes,
        Kind::Directory | Kind::Closed | Kind::Other => Class::MarkerFolder,
    }
}

fn file_class(name: &[u8]) -> Class
    ensures { result ≡ file_class name.now }
{
    if part_behind(b"part-r-", name).is_some() {
        return Class::ReducePart;
    }
    if part_behind(b"part-m-", name).is_some() {
        return Class::MapPart;
    }
    if part_behind(b"part-", name).is_some() {
        return Class::PlainPart;
    }
    if is_spark(name) {
        return Class::Spark;
    }
    if is_hive(name) {
        return Class::Hive;
    }
    Class::Foreign
}

fn has_equals_sign(name: &[u8]) -> bool
    ensures { result ≡ list_any (λ b. b == 61) name.now }
{
    name.iter().any(|byte| *byte == b'=')
}

fn folder_class(name: &[u8]) -> Class
    ensures { result ≡ folder_class name.now }
{
    if has_equals_sign(name) {
        Class::Partition
    } else {
        Class::Folder
    }
}

fn visible_class(kind: Kind, name: &[u8]) -> Class
    ensures { result ≡ visible_class kind name.now }
{
    match kind {
        Kind::File => file_class(name),
        Kind::Directory | Kind::Closed => folder_class(name),
        Kind::Other => Class::Foreign,
    }
}

// The folder of a job's work: what stands in it was listed too, or it is not told.
fn temporary_class(kind: Kind) -> Class
    ensures { result ≡ temporary_class kind }
{
    match kind {
        Kind::Closed => Class::TemporaryClosed,
        Kind::File | Kind::Directory | Kind::Other => Class::Temporary,
    }
}

fn hidden_class(kind: Kind, name: &[u8]) -> Class
    ensures { result ≡ hidden_class kind name.now }
{
    if name == TEMPORARY {
        return temporary_class(kind);
    }
    if name == MROUT {
        return Class::Mrout;
    }
    if name == DELTA_LOG {
        return Class::DeltaLog;
    }
    if is_commit_mark(name) {
        return Class::CommitMark;
    }
    Class::Hidden
}

// A name in the directory itself.
fn top_class(kind: Kind, empty: bool, name: &[u8]) -> Class
    ensures { result ≡ top_class kind empty name.now }
{
    if name == MARKER {
        return marker_class(kind, empty);
    }
    if is_hidden(name) {
        return hidden_class(kind, name);
    }
    visible_class(kind, name)
}

// A name in a folder of a generation.
fn attempt_class(front: &[u8], rest: Option<&[u8]>) -> Class
    ensures { result ≡ attempt_class front.now (option_copied rest.entry) }
{
    if rest.is_none() && front == TEMPORARY {
        Class::TaskAttempt
    } else {
        Class::OtherWork
    }
}

// A name in a generation.
fn task_class(name: &[u8]) -> Class
    ensures { result ≡ task_class name.now (after 47 name.now) }
{
    match beneath(name) {
        None if name.starts_with(b"task_") => Class::CommittedTask,
        None => Class::OtherWork,
        Some(rest) => attempt_class(before(name, b'/'), beneath(rest)),
    }
}

// A name in `_temporary`.
fn work_class(name: &[u8]) -> Class
    ensures { result ≡ work_class (after 47 name.now) }
{
    match beneath(name) {
        None => Class::Generation,
        Some(rest) => task_class(rest),
    }
}

// A name beneath a folder.
fn below_class(front: &[u8], rest: &[u8]) -> Class
    ensures { result ≡ below_class front.now rest.now }
{
    if front == TEMPORARY {
        return work_class(rest);
    }
    if front == MROUT {
        return Class::Mrout;
    }
    if front == DELTA_LOG {
        return Class::DeltaLog;
    }
    if is_hidden(front) {
        return Class::Hidden;
    }
    Class::InFolder
}

/// What is listed by this name, from the directory on.
pub fn class_of(kind: Kind, empty: bool, name: &[u8]) -> Class
    ensures { result ≡ class_of kind empty name.now }
{
    match beneath(name) {
        None => top_class(kind, empty, name),
        Some(rest) => below_class(before(name, b'/'), rest),
    }
}
