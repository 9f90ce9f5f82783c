//! The namespace: what is refused, bars, limits, and the listing and the rename of a large directory.

use crate::fixtures::{TASK, attempt, by_generation, generation, new_namespace, path};
use crate::rows::{Call, Is, Row, hold, perform};
use mr_names::{
    Caller, Entries, Kind, MAX_BARRED, MAX_ENTRIES, MAX_FILE_LEN, NameFault, Namespace,
};
use std::alloc::Global;
use std::process::Abort;

#[test]
fn namespace_refusals(rt: HostRuntime) {
    let rt = &rt;
    let one = &by_generation(rt, 1);
    let mut names = new_namespace(rt, rt.alloc());
    let rows = &[
        (Call::Create, "/a/b", "", Is::NoParent),
        (Call::Mkdirs, "/a/b", "", Is::Done),
        (Call::Rename, "/a", "/a/b/c", Is::IntoItself),
        (Call::Rename, "/x", "/y", Is::Missing),
        (Call::CreateClosed, "/f", "", Is::Done),
        (Call::Append, "/f", "1", Is::Closed),
        (Call::Mkdirs, "/f/g", "", Is::NotDir),
        (Call::Rename, "/a", "/f", Is::Exists),
        (Call::Delete, "/", "", Is::NoParent),
    ];
    hold(rt, rt.alloc(), &mut names, one, rows);
    names.raise(generation(rt, 2));
    let late = &[(Call::Exists, "/a", "", Is::Late)];
    hold(rt, rt.alloc(), &mut names, one, late);
    drop(names);
}

// The file at `/f` takes more bytes.
fn takes(rt: &impl Abort, alloc: Global, names: &mut Namespace, caller: &Caller, bytes: &[u8]) {
    let place = path(rt, alloc, "/f");
    let answer = names.append(*caller, &place, bytes);
    drop(place);
    confirm_eq!(rt; answer, Ok(()));
}

// The file at `/f` has so many bytes.
fn has(rt: &impl Abort, alloc: Global, names: &Namespace, caller: &Caller, want: usize) {
    let place = path(rt, alloc, "/f");
    let bytes = names.read(*caller, &place).expect(rt, "not read");
    drop(place);
    confirm_eq!(rt; bytes.len(), want);
    drop(bytes);
}

// A million bytes at once, and calls that have nothing to add or to make.
#[test]
fn long_appends_and_empty_ones(rt: HostRuntime) {
    let rt = &rt;
    let alloc = rt.alloc();
    let one = &by_generation(rt, 1);
    let mut names = new_namespace(rt, alloc);
    let million = vec![in alloc; b'x'; 1_000_000].expect(rt, "no memory");
    let empty = &[
        (Call::Mkdirs, "/", "", Is::Done),
        (Call::Create, "/f", "", Is::Done),
        (Call::Append, "/f", "", Is::Done),
        (Call::Read, "/f", "", Is::Told),
    ];
    hold(rt, alloc, &mut names, one, empty);
    takes(rt, alloc, &mut names, one, &million);
    has(rt, alloc, &names, one, 1_000_000);
    drop(million);
    drop(names);
}

// `tools/hostile` refuses each request for memory behind the first one of this size. Between the second and the third are those of the rename.
const MARK: usize = 1_000_003;

fn mark(rt: &impl Abort, alloc: Global) {
    let mut room = Vec::with_capacity(alloc, MARK).expect(rt, "no memory");
    room.push(0u8).expect(rt, "no memory");
    drop(room);
}

// A row that finds the namespace full, and one that makes the same file once there is room.
const FULL: Row = (Call::CreateClosed, "/c", "", Is::Full);

const ROOM: Row = (Call::CreateClosed, "/c", "", Is::Done);

// A namespace with a directory of as many files as it has room for.
fn full(rt: &impl Abort, alloc: Global, one: &Caller) -> Namespace {
    let mut names = new_namespace(rt, alloc);
    hold(
        rt,
        alloc,
        &mut names,
        one,
        &[(Call::Mkdirs, "/a", "", Is::Done)],
    );
    for file in 0..MAX_ENTRIES - 1 {
        let text = format!(in alloc; "/a/{file}").expect(rt, "no memory");
        let row = (Call::CreateClosed, text.as_str(), "", Is::Done);
        hold(rt, alloc, &mut names, one, &[row]);
    }
    names
}

#[test]
fn large_directory_rename(rt: HostRuntime) {
    let rt = &rt;
    let alloc = rt.alloc();
    let one = &by_generation(rt, 1);
    let mut names = full(rt, alloc, one);
    let a = path(rt, alloc, "/a");
    let b = path(rt, alloc, "/b");
    mark(rt, alloc);
    hold(rt, alloc, &mut names, one, &[FULL]);
    mark(rt, alloc);
    let renamed = names.rename(*one, &a, &b);
    mark(rt, alloc);
    drop(a);
    drop(b);
    confirm_eq!(rt; renamed, Ok(()));
    let rows = &[
        (Call::Exists, "/a/0", "", Is::Free),
        (Call::Exists, "/b/65534", "", Is::File),
        (Call::Delete, "/b", "", Is::Done),
        ROOM,
    ];
    hold(rt, alloc, &mut names, one, rows);
    drop(names);
}

// The text of the path of so many directories, one beneath the other.
fn deep(rt: &impl Abort, alloc: Global, first: &str, count: usize) -> String {
    let mut text = String::from_str(alloc, first).expect(rt, "no memory");
    for _ in 1..count {
        text.push_str("/a").expect(rt, "no memory");
    }
    text
}

// As many directories as there may be, one beneath the other: the deepest is found, they are moved, and they are deleted.
#[test]
fn deepest_directory(rt: HostRuntime) {
    let rt = &rt;
    let alloc = rt.alloc();
    let one = &by_generation(rt, 1);
    let mut names = new_namespace(rt, alloc);
    let all = deep(rt, alloc, "/a", MAX_ENTRIES);
    let moved = deep(rt, alloc, "/b", MAX_ENTRIES);
    let rows = &[
        (Call::Mkdirs, all.as_str(), "", Is::Done),
        FULL,
        (Call::Exists, all.as_str(), "", Is::Dir),
        (Call::Rename, "/a", all.as_str(), Is::IntoItself),
        (Call::Rename, "/a", "/b", Is::Done),
        (Call::Exists, moved.as_str(), "", Is::Dir),
    ];
    hold(rt, alloc, &mut names, one, rows);
    drop(all);
    drop(moved);
    hold(
        rt,
        alloc,
        &mut names,
        one,
        &[(Call::Delete, "/b", "", Is::Done), ROOM],
    );
    drop(names);
}

// Whether a listing has each file that `full` makes, by the bytes of their names: each name once, from 0 to 9999.
fn lists_all(entries: &Entries) -> bool {
    let files = entries.as_slice();
    let (Some(first), Some(last)) = (files.first(), files.last()) else {
        return false;
    };
    let mut are_so = first.kind == Kind::File;
    for (one, next) in files.iter().zip(files.iter().skip(1)) {
        are_so = are_so && one.name < next.name && next.kind == Kind::File;
    }
    are_so
        && files.len() == MAX_ENTRIES - 1
        && first.name.as_bytes() == b"0".as_slice()
        && last.name.as_bytes() == b"9999".as_slice()
}

// A full namespace: its directory is listed whole, and there is room again once a file is gone.
#[test]
fn large_directory_is_listed(rt: HostRuntime) {
    let rt = &rt;
    let alloc = rt.alloc();
    let one = &by_generation(rt, 1);
    let mut names = full(rt, alloc, one);
    let more = &[(Call::CreateClosed, "/a/more", "", Is::Full)];
    hold(rt, alloc, &mut names, one, more);
    let a = path(rt, alloc, "/a");
    let entries = names.list(*one, &a).expect(rt, "not listed");
    drop(a);
    confirm!(rt; lists_all(&entries));
    drop(entries);
    let rows = &[
        (Call::Delete, "/a/0", "", Is::Done),
        (Call::CreateClosed, "/a/more", "", Is::Done),
    ];
    hold(rt, alloc, &mut names, one, rows);
    drop(names);
}

// A container of the attempt of this number asks for the root, and is answered so.
fn finds_the_root(rt: &impl Abort, alloc: Global, names: &mut Namespace, number: u32, is: Is) {
    let caller = &Caller {
        app: generation(rt, 1),
        attempt: Some(attempt(rt, TASK, number)),
    };
    hold(rt, alloc, names, caller, &[(Call::Exists, "/", "", is)]);
}

// Once an attempt is barred, its container's calls are refused, a second bar of it changes nothing, and nobody else is refused. One is
// barred by name, one by a call as a value.
#[test]
fn barred_attempts(rt: HostRuntime) {
    let rt = &rt;
    let alloc = rt.alloc();
    let master = &by_generation(rt, 1);
    let mut names = new_namespace(rt, alloc);
    let second = &[(
        Call::Bar,
        "attempt_200707121733_0003_r_000000_1",
        "",
        Is::Done,
    )];
    perform(rt, alloc, &mut names, master, second);
    let first = &[(
        Call::Bar,
        "attempt_200707121733_0003_r_000000_0",
        "",
        Is::Done,
    ); 2];
    hold(rt, alloc, &mut names, master, first);
    finds_the_root(rt, alloc, &mut names, 0, Is::Barred);
    finds_the_root(rt, alloc, &mut names, 1, Is::Barred);
    finds_the_root(rt, alloc, &mut names, 2, Is::Dir);
    drop(names);
}

// A file takes 2^24 bytes, and no byte more.
#[test]
fn file_is_full(rt: HostRuntime) {
    let rt = &rt;
    let alloc = rt.alloc();
    let one = &by_generation(rt, 1);
    let mut names = new_namespace(rt, alloc);
    let mebibyte = vec![in alloc; b'x'; 1_048_576].expect(rt, "no memory");
    let create = &[(Call::Create, "/f", "", Is::Done)];
    hold(rt, alloc, &mut names, one, create);
    for _ in 0..16 {
        takes(rt, alloc, &mut names, one, &mebibyte);
    }
    drop(mebibyte);
    let rows = &[
        (Call::Append, "/f", "x", Is::Full),
        (Call::Append, "/f", "", Is::Done),
    ];
    hold(rt, alloc, &mut names, one, rows);
    has(rt, alloc, &names, one, MAX_FILE_LEN);
    drop(names);
}

// The attempt of this number is barred, or refused so.
fn bars(
    rt: &impl Abort,
    names: &mut Namespace,
    caller: &Caller,
    number: u32,
    want: Result<(), NameFault>,
) {
    let answer = names.bar(*caller, attempt(rt, TASK, number));
    confirm_eq!(rt; answer, want);
}

// As many attempts are barred as there is room for. One more is refused; one that is barred is not.
#[test]
fn bars_run_out(rt: HostRuntime) {
    let rt = &rt;
    let alloc = rt.alloc();
    let one = &by_generation(rt, 1);
    let mut names = new_namespace(rt, alloc);
    for number in 0..MAX_BARRED as u32 {
        bars(rt, &mut names, one, number, Ok(()));
    }
    bars(rt, &mut names, one, 100_000, Err(NameFault::Full));
    bars(rt, &mut names, one, 99_999, Ok(()));
    drop(names);
}
