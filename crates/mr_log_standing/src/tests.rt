//! Each public call once with ample memory, and the worked rows.
use crate::{Attempts, Job, Standing, Standings, Win};
use mr_ids::{AttemptId, JobId, TaskId, TaskKind};
use mr_log_entries::{Entry, Handed, Line, Lines, Origin};
use std::alloc::Global;
use std::process::Abort;

const JOB: Job = Job {
    id: JobId {
        start: 200707121733,
        number: 3,
    },
    tasks: 3,
    limit: Some(2),
    hold: true,
};

const FILE: Handed = Handed::File {
    inode: 77,
    bytes: 1000,
};

// Ends the test where two values are not alike.
fn alike<T: PartialEq>(rt: &impl Abort, one: &T, other: &T, text: &str) {
    (one == other).then_some(()).expect(rt, text)
}

fn attempt(rt: &impl Abort, task: u32, number: u32) -> AttemptId {
    let task = TaskId {
        job: JOB.id,
        kind: TaskKind::Reduce,
        number: task,
    };
    AttemptId::new(task, number).expect(rt, "no attempt")
}

// The log goes on with an entry of these lines, put in a boot, with an id.
fn after(
    rt: &impl Abort,
    alloc: Global,
    log: Standings,
    boot: u64,
    id: u64,
    lines: &[Line],
) -> Standings {
    let mut all = Vec::new(alloc);
    all.extend_from_slice(lines).expect(rt, "no memory");
    let entry = Entry {
        lines: Lines::from_vec(all),
        origin: Origin { boot, time: 0, id },
    };
    log.take(entry).expect(rt, "no memory")
}

// Task 0: its attempt 1 has won, after attempt 0 failed. Task 1: cut off in boot 5, begun anew in
// boot 6. Task 2: nothing.
fn worked(rt: &impl Abort, alloc: Global) -> Standings {
    let log = Standings::new(alloc, JOB).expect(rt, "no memory");
    let log = after(
        rt,
        alloc,
        log,
        5,
        1,
        &[
            Line::Started(attempt(rt, 0, 0)),
            Line::Started(attempt(rt, 1, 0)),
        ],
    );
    let log = after(
        rt,
        alloc,
        log,
        6,
        2,
        &[
            Line::Failed(attempt(rt, 0, 0)),
            Line::Started(attempt(rt, 0, 1)),
        ],
    );
    let log = after(
        rt,
        alloc,
        log,
        6,
        3,
        &[
            Line::Interrupted(attempt(rt, 1, 0)),
            Line::Started(attempt(rt, 1, 1)),
        ],
    );
    let won = Line::Won {
        attempt: attempt(rt, 0, 1),
        handed: FILE,
    };
    after(rt, alloc, log, 6, 4, &[won])
}

fn win(log: &Standings, n: u32) -> Option<Win> {
    if n < log.job().tasks {
        log.win(n)
    } else {
        None
    }
}

fn winner(log: &Standings, n: u32) -> Option<AttemptId> {
    if n < log.job().tasks {
        log.winner(n)
    } else {
        None
    }
}

fn next_attempt(log: &Standings, n: u32) -> Option<AttemptId> {
    if n < log.job().tasks {
        log.next_attempt(n)
    } else {
        None
    }
}

fn failures(log: &Standings, n: u32) -> usize {
    if n < log.job().tasks {
        log.failures(n)
    } else {
        99
    }
}

fn begun_in(log: &Standings, a: &AttemptId) -> Option<u64> {
    if log.is_of_job(a) {
        log.begun_in(a)
    } else {
        None
    }
}

fn under_way(rt: &impl Abort, log: &Standings, alloc: Global, n: u32) -> Attempts {
    if n < log.job().tasks {
        log.under_way(alloc, n).expect(rt, "no memory")
    } else {
        Attempts::new(alloc)
    }
}

#[test]
fn attempts_stand_as_recorded(rt: HostRuntime) {
    let rt = &rt;
    let log = worked(rt, rt.alloc());
    alike(
        rt,
        &log.standing(&attempt(rt, 0, 0)),
        &Standing::Beaten,
        "the failed attempt of a won task",
    );
    alike(
        rt,
        &log.standing(&attempt(rt, 0, 1)),
        &Standing::Won,
        "the winner",
    );
    alike(
        rt,
        &log.standing(&attempt(rt, 1, 0)),
        &Standing::GivenUp,
        "who was cut off",
    );
    alike(
        rt,
        &log.standing(&attempt(rt, 1, 1)),
        &Standing::UnderWay,
        "who is under way",
    );
    alike(
        rt,
        &log.standing(&attempt(rt, 2, 0)),
        &Standing::Unknown,
        "who was not started",
    );
    alike(
        rt,
        &log.standing(&attempt(rt, 3, 0)),
        &Standing::Unknown,
        "who is of no task of the job",
    );
    let log = after(rt, rt.alloc(), log, 6, 5, &[Line::Unsuccessful]);
    alike(
        rt,
        &log.standing(&attempt(rt, 0, 1)),
        &Standing::Won,
        "the winner in a failed job",
    );
    alike(
        rt,
        &log.standing(&attempt(rt, 1, 0)),
        &Standing::GivenUp,
        "who was cut off in a failed job",
    );
    alike(
        rt,
        &log.standing(&attempt(rt, 1, 1)),
        &Standing::JobOver,
        "who was under way in a failed job",
    );
    drop(log);
}

#[test]
fn tasks_stand_as_recorded(rt: HostRuntime) {
    let rt = &rt;
    let log = worked(rt, rt.alloc());
    let win = win(&log, 0).expect(rt, "no winner");
    alike(rt, &win.attempt, &attempt(rt, 0, 1), "the winner of task 0");
    alike(rt, &win.handed, &FILE, "what it handed in");
    alike(rt, &win.id, &4, "the id of its entry");
    alike(
        rt,
        &winner(&log, 1).is_none(),
        &true,
        "task 1 has no winner",
    );
    alike(
        rt,
        &begun_in(&log, &attempt(rt, 1, 0)),
        &Some(5),
        "the boot of the first attempt",
    );
    alike(
        rt,
        &begun_in(&log, &attempt(rt, 1, 1)),
        &Some(6),
        "the boot of the second attempt",
    );
    alike(
        rt,
        &begun_in(&log, &attempt(rt, 1, 2)),
        &None,
        "nothing was begun",
    );
    alike(rt, &failures(&log, 0), &1, "one failure");
    alike(rt, &failures(&log, 1), &0, "who is cut off has not failed");
    alike(
        rt,
        &next_attempt(&log, 1),
        &Some(attempt(rt, 1, 2)),
        "the next attempt",
    );
    let running = under_way(rt, &log, rt.alloc(), 1);
    alike(rt, &running.as_slice().len(), &1, "one is under way");
    drop(running);
    drop(log);
}

#[test]
fn the_job_stands_as_recorded(rt: HostRuntime) {
    let rt = &rt;
    let log = worked(rt, rt.alloc());
    let left = log.left(rt.alloc()).expect(rt, "no memory");
    alike(
        rt,
        &left.as_slice(),
        &[1, 2].as_slice(),
        "tasks 1 and 2 are left",
    );
    let run = log.run(rt.alloc()).expect(rt, "no memory");
    alike(rt, &run.as_slice(), &[1].as_slice(), "task 1 is run");
    alike(rt, &log.has_won_all(), &false, "not all have won");
    alike(rt, &log.may_end(), &true, "the job may fail");
    let one = Line::Won {
        attempt: attempt(rt, 1, 1),
        handed: FILE,
    };
    let two = Line::Won {
        attempt: attempt(rt, 2, 0),
        handed: Handed::Folder { bytes: 5 },
    };
    let log = after(rt, rt.alloc(), log, 6, 5, &[one, two]);
    alike(rt, &log.has_won_all(), &true, "all have won");
    alike(rt, &log.is_publishable(), &false, "the job is held");
    alike(rt, &log.may_end(), &true, "a held job may fail");
    let log = after(rt, rt.alloc(), log, 6, 6, &[Line::Publish]);
    alike(rt, &log.is_publishable(), &true, "it is released");
    alike(rt, &log.may_end(), &false, "it may not fail any more");
    alike(rt, &log.is_published(), &false, "it is not published");
    let log = after(rt, rt.alloc(), log, 6, 7, &[Line::Published]);
    alike(rt, &log.is_published(), &true, "it is published");
    drop(log);
}
