//! The least runs to the ends of all, and what is told while they are sought. The rows were worked out by hand.

use crate::trip::Trip;
use mr_explore_least::{Least, LeastTable};
use mr_explore_noted::{Noted, Observer, Unobserved, least_runs, note_all};
use mr_explore_places::{Bounds, Next, Search};
use mr_explore_search::{Ended, WalkFault};
use mr_script_order::is_sooner;
use mr_world_events::Event;
use std::alloc::Global;
use std::process::Abort;
use std::sync::atomic::{AtomicU64, Ordering};

fn bounds(faults: u32, steps: u64) -> Bounds {
    Bounds {
        faults,
        steps,
        rows: 4,
    }
}

// A row has this many faults, and this script.
fn is_row(row: &Least, marker: bool, faults: u32, events: &[Event]) -> bool {
    row.end.marker() == marker
        && row.faults == faults
        && !is_sooner(&row.events, events)
        && !is_sooner(events, &row.events)
}

fn plain() -> [Event; 2] {
    [Event::Deliver { packet: 0 }, Event::Deliver { packet: 1 }]
}

fn marked() -> [Event; 3] {
    [
        Event::Crash {
            generation: 1,
            kept: 0,
        },
        Event::Deliver { packet: 0 },
        Event::Deliver { packet: 1 },
    ]
}

// The run with no fault and the first of those that are marked, and one that is lost would pass a limit.
fn has_both(rt: &impl Abort, table: &LeastTable) {
    assert!(rt; table.is_past_limit());
    let rows = table.rows();
    assert!(rt; rows.len() == 2);
    assert!(rt; is_row(&rows[0], false, 0, &plain()));
    assert!(rt; is_row(&rows[1], true, 1, &marked()));
}

#[test]
fn least_runs_by_faults(rt: HostRuntime) {
    let rt = &rt;
    let alloc = rt.alloc();
    let table = least_runs(alloc, Trip::new(alloc), bounds(0, 5), &Unobserved).expect(
        rt, "no runs",
    );
    assert!(rt; !table.is_past_limit());
    assert!(rt; table.rows().len() == 1);
    assert!(rt; is_row(&table.rows()[0], false, 0, &plain()));
    drop(table);
    let table = least_runs(alloc, Trip::new(alloc), bounds(1, 5), &Unobserved).expect(
        rt, "no runs",
    );
    has_both(rt, &table);
    drop(table);
}

// A run that makes more steps than the bounds say is a mismatch.
#[test]
fn too_few_steps(rt: HostRuntime) {
    let alloc = rt.alloc();
    let result = least_runs(alloc, Trip::new(alloc), bounds(0, 2), &Unobserved);
    assert!(&rt; matches!(result, Err(WalkFault::Mismatch)));
}

// One search gives its parts away, another one takes them, and their tables are joined.
#[test]
fn parts_are_noted_apart(rt: HostRuntime) {
    let rt = &rt;
    let alloc = rt.alloc();
    let bounds = bounds(1, 5);
    let mut search = Search::new(alloc, Trip::new(alloc), bounds).expect(rt, "no search");
    let mut other = Search::idle(alloc, bounds, 4).expect(rt, "no search");
    let mut noted = Noted::new(alloc);
    let mut more = Noted::new(alloc);
    for _ in 0..100 {
        match search.next_apart(alloc).expect(rt, "no run") {
            Some(Next::Run(ended)) => noted.note(alloc, &ended).expect(rt, "no memory"),
            Some(Next::Part(part)) => other.take_part(part).expect(rt, "no memory"),
            None => {}
        }
    }
    note_all(alloc, &mut other, &mut more, &Unobserved).expect(rt, "no runs");
    assert!(rt; noted.runs() == 1 && noted.ends() == 1);
    assert!(rt; more.ends() == 1);
    let mut table = noted.into_table();
    table.join(more.into_table()).expect(rt, "no memory");
    has_both(rt, &table);
    drop(table);
}

// Remembers what it was told last, and how often.
#[derive(Drop)]
struct Told {
    times: AtomicU64,
    runs: AtomicU64,
    ends: AtomicU64,
}

impl Observer for Told {
    fn tell(&self, runs: u64, ends: usize) {
        self.times.fetch_add(1, Ordering::SeqCst);
        self.runs.store(runs, Ordering::SeqCst);
        self.ends.store(ends as u64, Ordering::SeqCst);
    }
}

// It is told each time that 100,000 runs more were noted.
#[test]
fn observer_is_told(rt: HostRuntime) {
    let rt = &rt;
    let alloc = rt.alloc();
    let told = Told {
        times: AtomicU64::new(0),
        runs: AtomicU64::new(0),
        ends: AtomicU64::new(0),
    };
    let ended = Ended {
        run: Trip::new(alloc),
        faults: 0,
    };
    let mut noted = Noted::new(alloc);
    for _ in 0..200_000 {
        noted.note(alloc, &ended).expect(rt, "no memory");
        noted.tell(&told);
    }
    assert!(rt; noted.runs() == 200_000);
    assert!(rt; told.times.load(Ordering::SeqCst) == 2);
    assert!(rt; told.runs.load(Ordering::SeqCst) == 200_000);
    assert!(rt; told.ends.load(Ordering::SeqCst) == 1);
}
