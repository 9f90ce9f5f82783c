//! Names, paths and their texts, and the paths of a job's committer.

use crate::fixtures::{JOB, attempt, generation, path};
use mr_ids::{TaskId, TaskKind};
use mr_paths::{
    Layout, Name, Path, PathFault, is_hidden, is_name, is_within, parent, part_name, staging,
};
use std::alloc::{AllocError, Global};
use std::process::Abort;

// A reduce of the job.
const REDUCE_5: TaskId = TaskId {
    job: JOB,
    kind: TaskKind::Reduce,
    number: 5,
};

fn name(rt: &impl Abort, alloc: Global, bytes: &[u8]) -> Name {
    Name::parse(alloc, bytes).expect(rt, "no name")
}

// It is refused as no name.
fn is_bad(rt: &impl Abort, fault: Option<PathFault>, text: &[u8]) {
    confirm!(rt; fault == Some(PathFault::BadName), &(text, fault));
}

// The bytes are no name's.
fn is_no_name(rt: &impl Abort, alloc: Global, bytes: &[u8]) {
    confirm!(rt; !is_name(bytes), &bytes);
    is_bad(rt, Name::parse(alloc, bytes).err(), bytes);
}

// Neither is the text a path's.
fn is_no_path(rt: &impl Abort, alloc: Global, text: &str) {
    is_bad(rt, Path::parse(alloc, text).err(), text.as_bytes());
}

// This is the path's text.
fn shows(rt: &impl Abort, alloc: Global, path: &Path, text: &str) {
    let shown = path.to_string(alloc).expect(rt, "no memory");
    confirm_eq!(rt; shown.as_str(), text);
    drop(shown);
}

// The text is that of a path of so many names.
fn is_text(rt: &impl Abort, alloc: Global, text: &str, names: usize) {
    let path = path(rt, alloc, text);
    confirm!(rt; path.len() == names, &text);
    shows(rt, alloc, &path, text);
    drop(path);
}

#[test]
fn path_texts(rt: HostRuntime) {
    let rt = &rt;
    let alloc = rt.alloc();
    let long = [b'n'; 255];
    for (text, names) in &[
        ("/", 0),
        ("/a", 1),
        ("/a/b", 2),
        ("/out/part-r-00000", 2),
        ("/é/./..", 3),
    ] {
        is_text(rt, alloc, text, *names);
    }
    confirm!(rt; is_name(&long));
    let longest = name(rt, alloc, &long);
    confirm_eq!(rt; longest.as_bytes(), long.as_slice());
    drop(longest);
    let odd = name(rt, alloc, b"a\xff");
    let shown = odd.to_string(alloc).expect(rt, "no memory");
    drop(odd);
    confirm_eq!(rt; shown.as_str(), "a\u{fffd}");
    drop(shown);
}

#[test]
fn path_refusals(rt: HostRuntime) {
    let rt = &rt;
    let alloc = rt.alloc();
    for text in &["", "a", "a/b", "//", "/a/", "/a//b", "//a"] {
        is_no_path(rt, alloc, text);
    }
    let long = [b'n'; 256];
    let mut text = String::from_str(alloc, "/").expect(rt, "no memory");
    for _i in 0..256 {
        text.push('n').expect(rt, "no memory");
    }
    is_no_path(rt, alloc, &text);
    drop(text);
    is_no_name(rt, alloc, b"");
    is_no_name(rt, alloc, b"a/b");
    is_no_name(rt, alloc, &long);
}

// The path that was made has this text.
fn is_path(rt: &impl Abort, alloc: Global, made: Result<Path, AllocError>, text: &str) {
    let path = made.expect(rt, "no memory");
    shows(rt, alloc, &path, text);
    drop(path);
}

// The layout of the output at `/out`, as its copy has it.
fn layout(rt: &impl Abort, alloc: Global) -> Layout {
    let layout = Layout {
        dest: path(rt, alloc, "/out"),
    };
    let copy = layout.copy().expect(rt, "no memory");
    drop(layout);
    copy
}

// Where the generation of this number works, and an attempt at its first reduce.
fn works_at(rt: &impl Abort, alloc: Global, number: u32, texts: [&str; 3]) {
    let layout = layout(rt, alloc);
    let k = generation(rt, number);
    let first = attempt(rt, REDUCE_5, k.first_attempt_number());
    is_path(rt, alloc, layout.job_attempt(k), texts[0]);
    is_path(rt, alloc, layout.task_attempt(k, first), texts[1]);
    is_path(rt, alloc, layout.committed(k, REDUCE_5), texts[2]);
    drop(layout);
}

#[test]
fn committer_layout(rt: HostRuntime) {
    let rt = &rt;
    let alloc = rt.alloc();
    let layout = layout(rt, alloc);
    is_path(rt, alloc, layout.temporary(), "/out/_temporary");
    is_path(rt, alloc, layout.marker(), "/out/_SUCCESS");
    drop(layout);
    let first = [
        "/out/_temporary/1",
        "/out/_temporary/1/_temporary/attempt_200707121733_0003_r_000005_0",
        "/out/_temporary/1/task_200707121733_0003_r_000005",
    ];
    works_at(rt, alloc, 1, first);
    let last = [
        "/out/_temporary/1000",
        "/out/_temporary/1000/_temporary/attempt_200707121733_0003_r_000005_999000",
        "/out/_temporary/1000/task_200707121733_0003_r_000005",
    ];
    works_at(rt, alloc, 1000, last);
    let started = staging(alloc, name(rt, alloc, b"COMMIT_STARTED"));
    is_path(rt, alloc, started, "/staging/COMMIT_STARTED");
    are_part_names(rt, alloc);
}

// The names of parts have five digits, or more where the number has.
fn are_part_names(rt: &impl Abort, alloc: Global) {
    for (reduce, text) in &[
        (0, "part-r-00000"),
        (5, "part-r-00005"),
        (99_999, "part-r-99999"),
        (123_456, "part-r-123456"),
    ] {
        let part = part_name(alloc, *reduce).expect(rt, "no memory");
        confirm_eq!(rt; part.as_bytes(), text.as_bytes());
        confirm!(rt; !is_hidden(&part), &text);
        drop(part);
    }
}

#[test]
fn hidden_names(rt: HostRuntime) {
    let rt = &rt;
    let alloc = rt.alloc();
    for (text, hidden) in &[
        ("_SUCCESS", true),
        ("_temporary", true),
        (".crc", true),
        ("_", true),
        ("part-r-00000", false),
        ("a_b.c", false),
    ] {
        let name = name(rt, alloc, text.as_bytes());
        confirm!(rt; is_hidden(&name) == *hidden, text);
        drop(name);
    }
}

#[test]
fn paths_are_made(rt: HostRuntime) {
    let rt = &rt;
    let alloc = rt.alloc();
    let a = Name::new(alloc, b"a").expect(rt, "no memory");
    let b = a.copy().expect(rt, "no memory");
    confirm_eq!(rt; a, b);
    let clone = a.clone().expect(rt, "no memory");
    confirm_eq!(rt; clone, b);
    drop(clone);
    let root = Path::root(alloc);
    let top = root.child(a).expect(rt, "no memory");
    drop(root);
    let mut leaf = top.copy().expect(rt, "no memory");
    leaf.push(b).expect(rt, "no memory");
    shows(rt, alloc, &leaf, "/a/a");
    is_child(rt, &leaf, &top);
    drop(leaf);
    drop(top);
}

// The path is one of two names, beneath the other, which has one.
fn is_child(rt: &impl Abort, leaf: &Path, top: &Path) {
    confirm!(rt; *top < *leaf);
    let clone = leaf.clone().expect(rt, "no memory");
    confirm_eq!(rt; clone, *leaf);
    drop(clone);
    confirm!(rt; is_within(leaf.names(), top.names()));
    confirm_eq!(rt; parent(leaf.names()), top.names());
    assert!(rt; leaf.len() == 2);
    let front = leaf.front(1).expect(rt, "no memory");
    confirm_eq!(rt; front, *top);
    drop(front);
}
