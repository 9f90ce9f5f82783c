//! Each call of the namespace once, by name and as a value, and the walk.

use crate::fixtures::{TASK, attempt, by_generation, generation, new_namespace, path};
use crate::rows::{Call, Is, Row, hold, op, perform};
use mr_names::{Caller, Found, NameFault, Namespace};
use std::alloc::Global;
use std::process::Abort;

#[test]
fn namespace_read_and_foresee(rt: HostRuntime) {
    let rt = &rt;
    let alloc = rt.alloc();
    let one = &by_generation(rt, 1);
    let mut names = new_namespace(rt, alloc);
    let by_name = &[
        (Call::Create, "/f", "", Is::Done),
        (Call::Append, "/f", "x", Is::Done),
        (Call::Read, "/f", "x", Is::Told),
        (Call::Read, "/", "", Is::NotFile),
    ];
    hold(rt, alloc, &mut names, one, by_name);
    let as_values = &[
        (Call::Read, "/g", "", Is::Missing),
        (Call::List, "/", "f/", Is::Told),
    ];
    perform(rt, alloc, &mut names, one, as_values);
    drop(names);
}

// Each call once by name, with its answer.
#[test]
fn namespace_calls(rt: HostRuntime) {
    let rt = &rt;
    let two = &by_generation(rt, 2);
    let mut names = new_namespace(rt, rt.alloc());
    names.raise(two.app);
    names.raise(generation(rt, 1));
    confirm_eq!(rt; names.fence(), 2);
    let rows = &[
        (Call::Mkdirs, "/d/c/x", "", Is::Done),
        (Call::Create, "/d/b", "", Is::Done),
        (Call::Append, "/d/b", "12", Is::Done),
        (Call::Close, "/d/b", "", Is::Done),
        (Call::Close, "/d/b", "", Is::Closed),
        (Call::Mkdirs, "/e", "", Is::Done),
        (Call::Rename, "/d", "/e/d", Is::Done),
        (Call::Exists, "/d", "", Is::Free),
        (Call::Exists, "/e/d/c/x", "", Is::Dir),
        (Call::List, "/e/d", "b/c//", Is::Told),
        (Call::Read, "/e/d/b", "12", Is::Told),
        (Call::Delete, "/e/d", "", Is::Done),
        (Call::Exists, "/e/d/b", "", Is::Free),
        (Call::Delete, "/e/d", "", Is::Missing),
    ];
    hold(rt, rt.alloc(), &mut names, two, rows);
    drop(names);
}

// Changes that are given as values, each of them done.
const CHANGES: &[Row] = &[
    (Call::Mkdirs, "/a/b", "", Is::Done),
    (Call::Create, "/a/f", "", Is::Done),
    (Call::Append, "/a/f", "xy", Is::Done),
    (Call::Close, "/a/f", "", Is::Done),
    (Call::Delete, "/a/b", "", Is::Done),
    (Call::Rename, "/a", "/c", Is::Done),
];

// Each call once as a value, with its answer.
#[test]
fn namespace_calls_as_values(rt: HostRuntime) {
    let rt = &rt;
    let one = &by_generation(rt, 1);
    let mut names = new_namespace(rt, rt.alloc());
    perform(rt, rt.alloc(), &mut names, one, CHANGES);
    let reads = &[
        (Call::Exists, "/c", "", Is::Dir),
        (Call::Read, "/c/f", "xy", Is::Told),
        (Call::List, "/c", "f/", Is::Told),
    ];
    perform(rt, rt.alloc(), &mut names, one, reads);
    drop(names);
}

// What is found is at this path, and has this length.
fn is_found(rt: &impl Abort, alloc: Global, found: &Found, text: &str, length: Option<usize>) {
    let place = path(rt, alloc, text);
    confirm!(rt; found.path == place, &text);
    drop(place);
    confirm!(rt; found.length == length, &text);
}

// The walk over all that is there: a directory before its entries, each file with its length.
#[test]
fn namespace_is_walked(rt: HostRuntime) {
    let rt = &rt;
    let alloc = rt.alloc();
    let mut names = new_namespace(rt, alloc);
    perform(rt, alloc, &mut names, &by_generation(rt, 1), CHANGES);
    let walk = names.walk().expect(rt, "no memory");
    drop(names);
    let found = walk.as_slice();
    assert!(rt; found.len() == 3);
    is_found(rt, alloc, &found[0], "/", None);
    is_found(rt, alloc, &found[1], "/c", None);
    is_found(rt, alloc, &found[2], "/c/f", Some(2));
    drop(walk);
}

// A copy of the call is equal to it.
#[test]
fn calls_are_copied(rt: HostRuntime) {
    let rt = &rt;
    for row in &[
        (Call::Append, "/a/f", "xy", Is::Done),
        (Call::Rename, "/a", "/c", Is::Done),
    ] {
        let op = op(rt, rt.alloc(), row);
        let copy = op.copy().expect(rt, "no memory");
        confirm_eq!(rt; copy, op);
        drop(copy);
        drop(op);
    }
}

// Both hold the same entries, walked path by path.
fn are_alike(rt: &impl Abort, names: &Namespace, copy: &Namespace) {
    let first = names.walk().expect(rt, "no memory");
    let second = copy.walk().expect(rt, "no memory");
    confirm_eq!(rt; first, second);
    drop(first);
    drop(second);
    is_same(rt, names, copy, true);
}

// Whether both hold the same: this.
fn is_same(rt: &impl Abort, names: &Namespace, other: &Namespace, want: bool) {
    let same = names.is_same(other).expect(rt, "no memory");
    confirm_eq!(rt; same, want);
}

// The copy of the second generation's namespace has the same entries, the same fence and the same barred attempt.
fn is_copy(rt: &impl Abort, names: &Namespace, copy: &Namespace, by_container: &Caller) {
    are_alike(rt, names, copy);
    confirm_eq!(rt; copy.fence(), 2);
    confirm_eq!(rt; copy.check_caller(*by_container), Err(NameFault::Barred));
}

// The copy has the same bytes. What it deletes stays in the first one.
#[test]
fn namespace_copy(rt: HostRuntime) {
    let rt = &rt;
    let alloc = rt.alloc();
    let one = &by_generation(rt, 1);
    let mut names = new_namespace(rt, alloc);
    perform(rt, alloc, &mut names, one, CHANGES);
    let bar = &[(
        Call::Bar,
        "attempt_200707121733_0003_r_000000_0",
        "",
        Is::Done,
    )];
    perform(rt, alloc, &mut names, one, bar);
    names.raise(generation(rt, 2));
    let two = &by_generation(rt, 2);
    let by_container = &Caller {
        app: two.app,
        attempt: Some(attempt(rt, TASK, 0)),
    };
    let mut copy = names.copy().expect(rt, "no memory");
    is_copy(rt, &names, &copy, by_container);
    let rows = &[
        (Call::Read, "/c/f", "xy", Is::Told),
        (Call::Delete, "/c", "", Is::Done),
    ];
    hold(rt, alloc, &mut copy, two, rows);
    is_same(rt, &names, &copy, false);
    drop(copy);
    let first = &[(Call::Read, "/c/f", "xy", Is::Told)];
    hold(rt, alloc, &mut names, two, first);
    drop(names);
}
