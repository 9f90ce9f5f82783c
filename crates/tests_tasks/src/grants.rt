//! The permission to commit.

use crate::fixtures::{are_attempts, attempt};
use mr_grant::Grant;
use mr_ids::{AttemptId, TaskKind};
use std::process::Abort;

// A call of a grant for an attempt, or what is read of it.
#[derive(Clone, Copy)]
enum Call {
    Pending,
    Release,
    CanCommit,
    Fix,
    IsFirst,
    IsNobodys,
    IsFixed,
}

// A call, the number of its attempt, and whether it is answered yes, as a call is that answers nothing.
type Row = (Call, u32, bool);

// The calls of the rows are made in turn, and each row is so.
fn hold(rt: &impl Abort, grant: &mut Grant, rows: &[Row]) {
    for (place, row) in rows.iter().enumerate() {
        let (call, number, want) = *row;
        let a = attempt(rt, TaskKind::Reduce, number);
        confirm!(rt; answer(rt, grant, call, a) == want, &place);
    }
}

fn answer(rt: &impl Abort, grant: &mut Grant, call: Call, a: AttemptId) -> bool {
    match call {
        Call::Pending => {
            grant.pending(a).expect(rt, "no memory");
            true
        }
        Call::Release => {
            grant.release(a);
            true
        }
        Call::CanCommit => grant.can_commit(a),
        Call::Fix => grant.fix(a),
        Call::IsFirst => grant.first() == Some(a),
        Call::IsNobodys => grant.first() == None,
        Call::IsFixed => grant.is_fixed(),
    }
}

// Nobody asked: nobody has the permission, and a release changes nothing. Then two ask, and the first has it.
fn first_of_two(rt: &impl Abort, grant: &mut Grant) {
    hold(
        rt,
        grant,
        &[
            (Call::CanCommit, 0, false),
            (Call::Fix, 0, false),
            (Call::IsNobodys, 0, true),
            (Call::Release, 0, true),
            (Call::Pending, 0, true),
            (Call::Pending, 1, true),
            (Call::Pending, 0, true),
        ],
    );
    are_attempts(rt, grant.attempts(), TaskKind::Reduce, &[0, 1]);
    hold(
        rt,
        grant,
        &[
            (Call::CanCommit, 0, true),
            (Call::CanCommit, 1, false),
            (Call::Fix, 1, false),
            (Call::IsFixed, 0, false),
        ],
    );
}

// The second waits, has the permission when the first is released, and keeps it once the grant is fixed; the copy goes on.
#[test]
fn grant_is_fixed(rt: HostRuntime) {
    let rt = &rt;
    let mut grant = Grant::new(rt.alloc());
    first_of_two(rt, &mut grant);
    let mut copy = grant.copy().expect(rt, "no memory");
    confirm!(rt; copy.is_same(&grant));
    hold(
        rt,
        &mut copy,
        &[
            (Call::Release, 0, true),
            (Call::IsFirst, 1, true),
            (Call::CanCommit, 1, true),
            (Call::Fix, 1, true),
            (Call::IsFixed, 1, true),
            (Call::Release, 1, true),
            (Call::Pending, 0, true),
            (Call::CanCommit, 1, true),
            (Call::Fix, 1, true),
            (Call::Fix, 0, false),
        ],
    );
    confirm!(rt; !copy.is_same(&grant));
    drop(copy);
    hold(
        rt,
        &mut grant,
        &[(Call::IsFirst, 0, true), (Call::IsFixed, 0, false)],
    );
    drop(grant);
}

// Its copy, which has the same attempts in the same order, and is fixed where it is.
fn copied(rt: &impl Abort, grant: &Grant) -> Grant {
    let copy = grant.copy().expect(rt, "no memory");
    confirm_eq!(rt; copy.attempts(), grant.attempts());
    confirm_eq!(rt; copy.is_fixed(), grant.is_fixed());
    copy
}

// The copy of it once this row is so.
fn copied_after(rt: &impl Abort, mut grant: Grant, row: Row) -> Grant {
    hold(rt, &mut grant, &[row]);
    let copy = copied(rt, &grant);
    drop(grant);
    copy
}

// A grant is copied before anyone asked, with one that asked, with two, and fixed.
#[test]
fn grant_is_copied(rt: HostRuntime) {
    let rt = &rt;
    let new = Grant::new(rt.alloc());
    let nobody = copied(rt, &new);
    drop(new);
    let one = copied_after(rt, nobody, (Call::Pending, 0, true));
    let two = copied_after(rt, one, (Call::Pending, 1, true));
    let mut fixed = copied_after(rt, two, (Call::Fix, 0, true));
    hold(
        rt,
        &mut fixed,
        &[(Call::CanCommit, 0, true), (Call::CanCommit, 1, false)],
    );
    drop(fixed);
}

// Of a thousand that asked, the first has the permission, and the last waits.
fn last_waits(rt: &impl Abort, grant: &mut Grant) {
    hold(
        rt,
        grant,
        &[(Call::CanCommit, 0, true), (Call::CanCommit, 999, false)],
    );
}

// A thousand attempts ask: the first has the permission, the last waits, and a copy has them all.
#[test]
fn thousand_ask(rt: HostRuntime) {
    let rt = &rt;
    let mut grant = Grant::new(rt.alloc());
    for number in 0..1000 {
        hold(rt, &mut grant, &[(Call::Pending, number, true)]);
    }
    confirm_eq!(rt; grant.attempts().len(), 1000);
    let mut copy = copied(rt, &grant);
    last_waits(rt, &mut grant);
    last_waits(rt, &mut copy);
    drop(copy);
    drop(grant);
}
