//! Paths, the line of a job, and summaries.

use crate::fixtures::{JOB, ORIGIN, attempt, lines};
use mr_log_entries::{Entries, Entry, Line};
use mr_log_layout::{
    Job, JobFault, boot_path, entry_path, kept_path, list_path, part_name, path_below,
    read_summary, summary, summary_path, sync_path, work_path,
};
use std::alloc::{AllocError, Global};
use std::process::Abort;

// The text is this one.
fn is(rt: &impl Abort, told: Result<String, AllocError>, text: &str) {
    let own = told.expect(rt, "no memory");
    confirm_eq!(rt; own.as_str(), text);
    drop(own);
}

#[test]
fn paths(rt: HostRuntime) {
    let rt = &rt;
    let alloc = rt.alloc();
    let a = attempt(rt, 15, 0);
    is(rt, part_name(alloc, ".csv", 15), "part-r-00015.csv");
    is(rt, entry_path(alloc, 1), "_mrout/log/00000001");
    is(rt, entry_path(alloc, 99999999), "_mrout/log/99999999");
    is(rt, summary_path(alloc, 256), "_mrout/log/upto.256");
    is(rt, boot_path(alloc, 31), "_mrout/boots/1f");
    is(
        rt,
        work_path(alloc, a),
        "_mrout/work/attempt_200707121733_0003_r_000015_0",
    );
    is(
        rt,
        kept_path(alloc, a),
        "_mrout/kept/attempt_200707121733_0003_r_000015_0",
    );
    is(
        rt,
        list_path(alloc, a, 255),
        "_mrout/kept/attempt_200707121733_0003_r_000015_0.ff",
    );
    is(
        rt,
        sync_path(alloc, a),
        "_mrout/kept/attempt_200707121733_0003_r_000015_0.sync",
    );
    is(rt, path_below(alloc, "a", "b/c"), "a/b/c");
}

const LINE: &str =
    "{\"folders\":false,\"hold\":true,\"job\":\"job_200707121733_0003\",\"limit\":4,\"shared\":false,\"suffix\":\".csv\",\"tasks\":3,\"uid\":1000,\"version\":2}\n";

#[test]
fn the_line_of_a_job(rt: HostRuntime) {
    let rt = &rt;
    let alloc = rt.alloc();
    let job = Job {
        id: JOB,
        uid: 1000,
        tasks: 3,
        limit: Some(4),
        suffix: String::from_str(alloc, ".csv").expect(rt, "no memory"),
        hold: true,
        folders: false,
        shared: false,
    };
    is(rt, job.line(alloc), LINE);
    drop(job);
    let read = Job::read(alloc, LINE.as_bytes()).expect(rt, "no job");
    is(rt, read.line(alloc), LINE);
    confirm_eq!(rt; read.limit, Some(4));
    drop(read);
}

// The text is refused for this.
fn is_refused(rt: &impl Abort, alloc: Global, text: &str, fault: JobFault) {
    match Job::read(alloc, text.as_bytes()) {
        Ok(job) => {
            confirm_eq!(rt; "a job", text);
            drop(job);
        }
        Err(other) => confirm_eq!(rt; other, fault),
    }
}

#[test]
fn refused_jobs(rt: HostRuntime) {
    let rt = &rt;
    for (text, fault) in &[
        ("", JobFault::Damaged),
        ("{\"version\":2}\n", JobFault::Damaged),
        ("{\"version\":3}\n", JobFault::OtherVersion),
        ("{}\n", JobFault::Damaged),
        (
            "{\"version\":1,\"job\":\"job_200707121733_0003\",\"tasks\":3,\"limit\":null,\"suffix\":\"\",\"hold\":false,\"host\":\"h\"}\n",
            JobFault::FirstForm,
        ),
        (
            "{\"folders\":false,\"hold\":true,\"job\":\"job_200707121733_0003\",\"limit\":4,\"shared\":false,\"suffix\":\".csv\",\"tasks\":0,\"uid\":1000,\"version\":2}\n",
            JobFault::Damaged,
        ),
        (
            "{\"folders\":false,\"hold\":true,\"job\":\"job_200707121733_0003\",\"limit\":4,\"shared\":false,\"suffix\":\"/x\",\"tasks\":3,\"uid\":1000,\"version\":2}\n",
            JobFault::Damaged,
        ),
        (
            "{\"folders\":false,\"hold\":true,\"job\":\"job_200707121733_0003\",\"limit\":4,\"shared\":false,\"suffix\":\".csv\",\"tasks\":3,\"uid\":1000,\"version\":2}",
            JobFault::Damaged,
        ),
        (
            "{\"folders\": false,\"hold\":true,\"job\":\"job_200707121733_0003\",\"limit\":4,\"shared\":false,\"suffix\":\".csv\",\"tasks\":3,\"uid\":1000,\"version\":2}\n",
            JobFault::Damaged,
        ),
    ] {
        is_refused(rt, rt.alloc(), text, *fault);
    }
}

// How many entries a summary of so many has, if it is one's.
fn count(rt: &impl Abort, alloc: Global, wanted: usize, text: &str) -> Option<usize> {
    let read = read_summary(alloc, JOB, wanted, text.as_bytes()).expect(rt, "no memory");
    match read {
        Some(entries) => {
            let found = entries.as_slice().len();
            drop(entries);
            Some(found)
        }
        None => None,
    }
}

fn entry(rt: &impl Abort, alloc: Global, line: Line) -> Entry {
    Entry {
        lines: lines(rt, alloc, &[line]),
        origin: ORIGIN,
    }
}

#[test]
fn summaries(rt: HostRuntime) {
    let rt = &rt;
    let alloc = rt.alloc();
    let mut entries = Entries::new(alloc);
    let first = Line::Started(attempt(rt, 0, 0));
    entries
        .push(entry(rt, alloc, first))
        .expect(rt, "no memory");
    entries
        .push(entry(rt, alloc, Line::Publish))
        .expect(rt, "no memory");
    let text = "started 0.0;1 1Bk_40 10\npublish;1 1Bk_40 10\n";
    is(rt, summary(alloc, entries.as_slice()), text);
    drop(entries);
    confirm_eq!(rt; count(rt, alloc, 2, text), Some(2));
    confirm_eq!(rt; count(rt, alloc, 1, text), None);
    confirm_eq!(rt; count(rt, alloc, 2, "started 0.0;1 1Bk_40 10\npublish;1 1Bk_40 10"), None);
    confirm_eq!(rt; count(rt, alloc, 1, "started 0.0;1 1Bk_40 10\npubl"), None);
}
