//! Identifiers and their texts.

use crate::fixtures::{JOB, attempt, generation};
use mr_ids::{AppAttempt, AttemptId, IdFault, JobId, MAX_APP_ATTEMPTS, TaskId, TaskKind};
use std::alloc::Global;
use std::fmt::Display;
use std::process::Abort;

const LAST_JOB: JobId = JobId {
    start: 18446744073709551615,
    number: 4294967295,
};

const ZERO_JOB: JobId = JobId {
    start: 0,
    number: 0,
};

fn task(job: JobId, kind: TaskKind, number: u32) -> TaskId {
    TaskId { job, kind, number }
}

// `{}` writes this text of a value.
fn shows<T: Display>(rt: &impl Abort, alloc: Global, value: &T, text: &str) {
    let shown = value.to_string(alloc).expect(rt, "no memory");
    confirm_eq!(rt; shown.as_str(), text);
    drop(shown);
}

#[test]
fn attempt_text(rt: HostRuntime) {
    let rt = &rt;
    let read = AttemptId::parse("attempt_200707121733_0003_r_000005_1000");
    let wanted = attempt(rt, task(JOB, TaskKind::Reduce, 5), 1000);
    confirm_eq!(rt; read, Ok(wanted));
    confirm_eq!(rt; wanted.generation().number(), 2);
    is_no_attempt(rt, "attempt_200707121733_0003_r_00005_1000", IdFault::Width);
}

// The text is no attempt's, for this reason.
fn is_no_attempt(rt: &impl Abort, text: &str, fault: IdFault) {
    confirm_eq!(rt; AttemptId::parse(text), Err(fault));
}

// Nor is it a job's.
fn is_no_job(rt: &impl Abort, text: &str, fault: IdFault) {
    confirm_eq!(rt; JobId::parse(text), Err(fault));
}

// Nor is it a task's.
fn is_no_task(rt: &impl Abort, text: &str, fault: IdFault) {
    confirm_eq!(rt; TaskId::parse(text), Err(fault));
}

#[test]
fn identifier_faults(rt: HostRuntime) {
    let rt = &rt;
    for (text, fault) in &[
        ("job_0200707121733_0003", IdFault::Width),
        ("job_200707121733_003", IdFault::Width),
        ("job_200707121733_00003", IdFault::Width),
        ("job_200707121733_0003_1", IdFault::Trailing),
        ("job_18446744073709551616_0001", IdFault::Number),
        ("jobs_1_0001", IdFault::Prefix),
        ("", IdFault::Prefix),
        ("job", IdFault::Number),
        ("job_1_", IdFault::Number),
        ("job_1_+001", IdFault::Number),
        ("job_1_4294967296", IdFault::Number),
        ("job_00_0001", IdFault::Width),
        ("job_01_001_1", IdFault::Width),
    ] {
        is_no_job(rt, text, *fault);
    }
    let more = JobId {
        start: 200707121733,
        number: 10000,
    };
    confirm_eq!(rt; JobId::parse("job_200707121733_10000"), Ok(more));
    is_no_task(rt, "task_200707121733_0003_x_000005", IdFault::Kind);
    is_no_task(rt, "task_200707121733_003_x_000005", IdFault::Width);
    is_no_attempt(rt, "attempt_200707121733_0003_m_000005", IdFault::Number);
    is_no_attempt(
        rt,
        "attempt_200707121733_0003_m_000005_1000000",
        IdFault::Number,
    );
}

// Adds a blank and an attempt's text.
fn put_attempt(rt: &impl Abort, out: &mut Vec<u8>, attempt: AttemptId) {
    out.push(b' ').expect(rt, "no memory");
    attempt.write(out).expect(rt, "no memory");
}

#[test]
fn identifiers_are_written(rt: HostRuntime) {
    let rt = &rt;
    let alloc = rt.alloc();
    let map = task(JOB, TaskKind::Map, 5);
    let last = task(LAST_JOB, TaskKind::Reduce, 4294967295);
    let mut out = Vec::from_slice(alloc, b"<").expect(rt, "no memory");
    JOB.write(&mut out).expect(rt, "no memory");
    out.push(b' ').expect(rt, "no memory");
    map.write(&mut out).expect(rt, "no memory");
    put_attempt(rt, &mut out, attempt(rt, map, 0));
    put_attempt(rt, &mut out, attempt(rt, last, 999999));
    out.push(b' ').expect(rt, "no memory");
    let k = generation(rt, 1000);
    k.write(&mut out).expect(rt, "no memory");
    let wanted = "<job_200707121733_0003 task_200707121733_0003_m_000005 \
        attempt_200707121733_0003_m_000005_0 \
        attempt_18446744073709551615_4294967295_r_4294967295_999999 1000";
    confirm_eq!(rt; out.as_slice(), wanted.as_bytes());
    drop(out);
}

#[test]
fn identifiers_are_shown_and_read(rt: HostRuntime) {
    let rt = &rt;
    let alloc = rt.alloc();
    for (job, text) in &[(ZERO_JOB, "job_0_0000"), (JOB, "job_200707121733_0003")] {
        shows(rt, alloc, job, text);
        confirm!(rt; text.parse::<JobId>() == Ok(*job), text);
    }
    let reduce = task(ZERO_JOB, TaskKind::Reduce, 1234567);
    let text = "task_0_0000_r_1234567";
    shows(rt, alloc, &reduce, text);
    confirm_eq!(rt; text.parse::<TaskId>(), Ok(reduce));
    confirm_eq!(rt; text.parse::<AttemptId>(), Err(IdFault::Prefix));
    let tried = attempt(rt, reduce, 7);
    let text = "attempt_0_0000_r_1234567_7";
    shows(rt, alloc, &tried, text);
    confirm_eq!(rt; text.parse::<AttemptId>(), Ok(tried));
    shows(rt, alloc, &generation(rt, 1), "1");
    shows(rt, alloc, &TaskKind::Map, "m");
    shows(rt, alloc, &IdFault::Trailing, "a field is left over");
}

#[test]
fn generations_of_attempts(rt: HostRuntime) {
    let rt = &rt;
    confirm!(rt; AppAttempt::new(0).is_none());
    confirm!(rt; AppAttempt::new(1001).is_none());
    let map = task(JOB, TaskKind::Map, 0);
    confirm!(rt; AttemptId::new(map, 1_000_000).is_none());
    for (number, wanted) in &[(0, 1), (999, 1), (1000, 2), (999_999, 1000)] {
        let tried = attempt(rt, map, *number);
        confirm_eq!(rt; tried.generation(), generation(rt, *wanted));
        confirm_eq!(rt; tried.task(), map);
        confirm_eq!(rt; tried.number(), *number);
    }
}

// The attempt of this number at map 0 is of this generation.
fn is_of(rt: &impl Abort, number: u32, k: AppAttempt) {
    let map = task(JOB, TaskKind::Map, 0);
    confirm_eq!(rt; attempt(rt, map, number).generation(), k);
}

// The numbers of a generation's attempts, from the first to the last.
#[test]
fn numbers_of_generations(rt: HostRuntime) {
    let rt = &rt;
    for (number, first, last) in &[(1, 0, 999), (2, 1000, 1999), (1000, 999_000, 999_999)] {
        let k = generation(rt, *number);
        confirm_eq!(rt; k.first_attempt_number(), *first);
        is_of(rt, *first, k);
        is_of(rt, *last, k);
    }
    confirm_eq!(rt; MAX_APP_ATTEMPTS, 1000);
    confirm_eq!(rt; generation(rt, MAX_APP_ATTEMPTS).number(), 1000);
    confirm!(rt; AppAttempt::new(MAX_APP_ATTEMPTS + 1).is_none());
}

#[test]
fn kinds_of_tasks(rt: HostRuntime) {
    let rt = &rt;
    confirm!(rt; TaskKind::Map.is_map());
    confirm!(rt; !TaskKind::Map.is_reduce());
    confirm!(rt; TaskKind::Reduce.is_reduce());
    confirm!(rt; !TaskKind::Reduce.is_map());
}

#[test]
fn identifiers_in_order(rt: HostRuntime) {
    let rt = &rt;
    let map = task(JOB, TaskKind::Map, 9);
    let reduce = task(JOB, TaskKind::Reduce, 0);
    confirm!(rt; JOB < LAST_JOB);
    confirm!(rt; map < reduce);
    confirm!(rt; attempt(rt, map, 2) < attempt(rt, map, 10));
    confirm!(rt; attempt(rt, map, 10) < attempt(rt, reduce, 0));
    confirm!(rt; generation(rt, 2) < generation(rt, 10));
}
