//! Several threads find what one finds.

use crate::trip::Trip;
use mr_explore_least::LeastTable;
use mr_explore_noted::{Unobserved, least_runs};
use mr_explore_places::Bounds;
use mr_explore_search::WalkFault;
use mr_explore_workers::least_runs_by_threads;
use mr_script_order::is_sooner;

fn bounds(faults: u32, steps: u64) -> Bounds {
    Bounds {
        faults,
        steps,
        rows: 4,
    }
}

// As many rows, and in each the same run.
fn are_same(table: &LeastTable, other: &LeastTable) -> bool {
    let rows = table.rows();
    let others = other.rows();
    if rows.len() != others.len() || table.is_past_limit() != other.is_past_limit() {
        return false;
    }
    for place in 0..rows.len() {
        let row = &rows[place];
        let other = &others[place];
        if !row.end.is_same(&other.end)
            || row.faults != other.faults
            || is_sooner(&row.events, &other.events)
            || is_sooner(&other.events, &row.events)
        {
            return false;
        }
    }
    true
}

#[test]
fn threads_find_what_one_finds(rt: HostRuntime) {
    let rt = &rt;
    let alloc = rt.alloc();
    for faults in 0..4 {
        let bounds = bounds(faults, 5);
        let one = least_runs(alloc, Trip::new(alloc), bounds, &Unobserved).expect(rt, "no runs");
        for threads in 0..5 {
            let run = Trip::new(alloc);
            let all = least_runs_by_threads(rt, alloc, threads, run, bounds, &Unobserved).expect(
                rt, "no runs",
            );
            assert!(rt; are_same(&one, &all));
            drop(all);
        }
        drop(one);
    }
}

// A run that makes more steps than the bounds say is a mismatch, whichever thread makes it.
#[test]
fn threads_tell_too_few_steps(rt: HostRuntime) {
    let rt = &rt;
    let alloc = rt.alloc();
    for threads in 0..4 {
        let run = Trip::new(alloc);
        let result = least_runs_by_threads(rt, alloc, threads, run, bounds(2, 2), &Unobserved);
        assert!(rt; matches!(result, Err(WalkFault::Mismatch)));
    }
}
