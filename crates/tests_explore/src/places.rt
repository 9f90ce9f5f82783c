//! The runs that a search over places finds.

use crate::trial::Trial;
use mr_explore_places::{Bounds, Next, Part, Search};
use mr_explore_search::{Ended, Walk, WalkFault};
use std::alloc::Global;
use std::process::Abort;

// It counts as so many characters of script.
const FAULT: u64 = 1_000;

// No run came to this end.
const NEVER: u64 = 1_000_000;

fn first() -> Trial {
    Trial {
        at: 0,
        number: 0,
        size: 0,
        limit: 1_000,
    }
}

fn bounds(faults: u32, rows: usize) -> Bounds {
    Bounds {
        faults,
        steps: 10,
        rows,
    }
}

fn no_ends(rt: &impl Abort, alloc: Global) -> Vec<u64> {
    let mut least = Vec::new(alloc);
    for _ in 0..11 {
        least.push(NEVER).expect(rt, "no memory");
    }
    least
}

// The least script to each end is noted.
fn note(least: &mut Vec<u64>, ended: &Ended<Trial>) {
    let script = (ended.faults as u64)
        .wrapping_mul(FAULT)
        .wrapping_add(ended.run.size);
    if let Some(old) = least.get_mut(ended.run.number as usize) {
        if script < *old {
            *old = script;
        }
    }
}

// The least script to each end, by all runs, and how many these are.
fn by_walk(rt: &impl Abort, alloc: Global, faults: u32) -> (Vec<u64>, u64) {
    let mut least = no_ends(rt, alloc);
    let mut walk = Walk::new(alloc, first(), faults, 10).expect(rt, "no walk");
    for count in 0..1_000_000 {
        match walk.next_run(alloc).expect(rt, "no run") {
            Some(ended) => note(&mut least, &ended),
            None => return (least, count),
        }
    }
    panic!(rt; "too many runs")
}

// What a search finds is noted, and it is told how many runs these are.
fn note_all(
    rt: &impl Abort,
    alloc: Global,
    least: &mut Vec<u64>,
    search: &mut Search<Trial>,
) -> u64 {
    for count in 0..1_000_000 {
        match search.next_run(alloc).expect(rt, "no run") {
            Some(ended) => note(least, &ended),
            None => return count,
        }
    }
    panic!(rt; "too many runs")
}

// The same of a search that gives its parts away, each of which is then searched apart.
fn note_by_parts(
    rt: &impl Abort,
    alloc: Global,
    least: &mut Vec<u64>,
    mut search: Search<Trial>,
    bounds: Bounds,
) -> u64 {
    let mut parts = Vec::new(alloc);
    let mut count: u64 = 0;
    for _ in 0..1_000_000 {
        match search.next_apart(alloc).expect(rt, "no run") {
            Some(Next::Run(ended)) => {
                note(least, &ended);
                count = count.wrapping_add(1);
            }
            Some(Next::Part(part)) => parts.push(part).expect(rt, "no memory"),
            None => return count.wrapping_add(note_parts(rt, alloc, least, &parts, bounds)),
        }
    }
    panic!(rt; "too many runs")
}

fn note_parts(
    rt: &impl Abort,
    alloc: Global,
    least: &mut Vec<u64>,
    parts: &[Part<Trial, u32>],
    bounds: Bounds,
) -> u64 {
    let mut count: u64 = 0;
    for part in parts {
        let fork = part.fork(alloc).expect(rt, "no part");
        let mut search = Search::of_part(alloc, fork, bounds).expect(rt, "no search");
        count = count.wrapping_add(note_all(rt, alloc, least, &mut search));
    }
    count
}

// The same, where one other search takes the parts, and keeps its places. Some parts it searches at once, others with those that come behind them.
fn note_by_another(
    rt: &impl Abort,
    alloc: Global,
    least: &mut Vec<u64>,
    mut search: Search<Trial>,
    bounds: Bounds,
) -> u64 {
    let mut other = Search::idle(alloc, bounds, bounds.rows).expect(rt, "no search");
    let mut count: u64 = 0;
    for turn in 0..1_000_000_u64 {
        match search.next_apart(alloc).expect(rt, "no run") {
            Some(Next::Run(ended)) => {
                note(least, &ended);
                count = count.wrapping_add(1);
            }
            Some(Next::Part(part)) => {
                other.take_part(part).expect(rt, "no memory");
                if turn % 2 == 0 {
                    count = count.wrapping_add(note_all(rt, alloc, least, &mut other));
                }
            }
            None => return count.wrapping_add(note_all(rt, alloc, least, &mut other)),
        }
    }
    panic!(rt; "too many runs")
}

// Whatever is kept, each end is found that has one, and its least script. So it is by parts, whoever searches them.
fn finds_all(rt: &impl Abort, alloc: Global, faults: u32, rows: usize) {
    let (all, runs) = by_walk(rt, alloc, faults);
    let bounds = bounds(faults, rows);
    let mut found = no_ends(rt, alloc);
    let mut search = Search::new(alloc, first(), bounds).expect(rt, "no search");
    assert!(rt; note_all(rt, alloc, &mut found, &mut search) <= runs);
    assert!(rt; found.as_slice() == all.as_slice());
    let mut apart = no_ends(rt, alloc);
    let search = Search::new(alloc, first(), bounds).expect(rt, "no search");
    assert!(rt; note_by_parts(rt, alloc, &mut apart, search, bounds) <= runs);
    assert!(rt; apart.as_slice() == all.as_slice());
    let mut shared = no_ends(rt, alloc);
    let search = Search::new(alloc, first(), bounds).expect(rt, "no search");
    assert!(rt; note_by_another(rt, alloc, &mut shared, search, bounds) <= runs);
    assert!(rt; shared.as_slice() == all.as_slice());
}

#[test]
fn each_end_is_found(rt: HostRuntime) {
    let rt = &rt;
    let alloc = rt.alloc();
    for faults in 0..4 {
        for rows in &[0, 1, 64] {
            finds_all(rt, alloc, faults, *rows);
        }
    }
}

// How many runs are found.
fn runs_found(rt: &impl Abort, alloc: Global, rows: usize) -> u64 {
    let mut found = no_ends(rt, alloc);
    let mut search = Search::new(alloc, first(), bounds(2, rows)).expect(rt, "no search");
    note_all(rt, alloc, &mut found, &mut search)
}

// Where no place is kept, all runs are found; else fewer.
#[test]
fn runs_are_left_out(rt: HostRuntime) {
    let rt = &rt;
    assert!(rt; runs_found(rt, rt.alloc(), 0) == 206);
    assert!(rt; runs_found(rt, rt.alloc(), 64) < 100);
}

// A part of a search: the faults along its first run.
fn first_part(rt: &impl Abort, alloc: Global) -> Part<Trial, u32> {
    let mut search = Search::new(alloc, first(), bounds(1, 4)).expect(rt, "no search");
    for _ in 0..2 {
        if let Some(Next::Part(part)) = search.next_apart(alloc).expect(rt, "no run") {
            return part;
        }
    }
    panic!(rt; "no part")
}

// Where a run passes a limit, that is told, and told again. No part is taken then.
#[test]
fn limit_is_told(rt: HostRuntime) {
    let rt = &rt;
    let alloc = rt.alloc();
    let run = Trial {
        at: 0,
        number: 0,
        size: 0,
        limit: 3,
    };
    let mut search = Search::new(alloc, run, bounds(1, 4)).expect(rt, "no search");
    assert!(rt; matches!(search.next_run(alloc), Err(WalkFault::Full)));
    assert!(rt; matches!(search.next_run(alloc), Err(WalkFault::Full)));
    let part = first_part(rt, alloc);
    assert!(rt; matches!(search.take_part(part), Err(WalkFault::Full)));
    assert!(rt; matches!(search.next_apart(alloc), Err(WalkFault::Full)));
}

// A search that has nothing before it finds nothing.
#[test]
fn idle_search_finds_nothing(rt: HostRuntime) {
    let rt = &rt;
    let alloc = rt.alloc();
    let mut search: Search<Trial> = Search::idle(alloc, bounds(2, 4), 4).expect(rt, "no search");
    assert!(rt; search.next_run(alloc).expect(rt, "no run").is_none());
    assert!(rt; search.next_apart(alloc).expect(rt, "no run").is_none());
}

// The least script to each end, as a search notes it that takes all parts of another one, and how many runs it found of these, or why there was none. It may keep the
// places along which the faults of the parts are tried.
fn by_two(alloc: Global, bounds: Bounds, keeps: bool) -> Result<(Vec<u64>, u64), WalkFault> {
    let mut least = Vec::new(alloc);
    for _ in 0..11 {
        least.push(NEVER)?;
    }
    let mut search = Search::new(alloc, first(), bounds)?;
    let mut other = Search::idle(alloc, bounds, bounds.rows)?;
    for _ in 0..1_000_000 {
        match search.next_apart(alloc)? {
            Some(Next::Run(ended)) => note(&mut least, &ended),
            Some(Next::Part(part)) => take(alloc, &mut other, part, keeps)?,
            None => return with_rest(alloc, least, other),
        }
    }
    Err(WalkFault::Mismatch)
}

// The search takes a part, and may keep the places along which its faults are tried.
fn take(
    alloc: Global,
    search: &mut Search<Trial>,
    part: Part<Trial, u32>,
    keeps: bool,
) -> Result<(), WalkFault> {
    let copy = part.fork(alloc)?;
    search.take_part(copy)?;
    if keeps {
        search.keep_trail(alloc, &part)?;
    }
    Ok(())
}

// The same, and what this search finds.
fn with_rest(
    alloc: Global,
    mut least: Vec<u64>,
    mut search: Search<Trial>,
) -> Result<(Vec<u64>, u64), WalkFault> {
    for count in 0..1_000_000 {
        match search.next_run(alloc)? {
            Some(ended) => note(&mut least, &ended),
            None => return Ok((least, count)),
        }
    }
    Err(WalkFault::Mismatch)
}

// The least script to each end by two faults at most, as another program finds it that makes all runs.
const LEAST: [u64; 11] = [
    4, 1_005, 2_006, 1_005, 2_006, 1_006, 2_005, NEVER, 2_007, 2_007, 2_008,
];

// Where memory is refused, that is told, and nothing else is. (To be run with each allocation refused in turn.)
#[test]
fn refused_memory_is_told(rt: HostRuntime) {
    match by_two(rt.alloc(), bounds(2, 8), true) {
        Ok((least, _)) => assert!(rt; least.as_slice() == LEAST.as_slice()),
        Err(fault) => assert!(rt; fault == WalkFault::NoMemory),
    }
}

// A search that keeps the places along which faults are tried finds the same ends by fewer runs.
#[test]
fn trails_are_kept(rt: HostRuntime) {
    let rt = &rt;
    let (least, runs) = by_two(rt.alloc(), bounds(2, 64), true).expect(rt, "no runs");
    let (same, more) = by_two(rt.alloc(), bounds(2, 64), false).expect(rt, "no runs");
    assert!(rt; least.as_slice() == LEAST.as_slice());
    assert!(rt; same.as_slice() == LEAST.as_slice());
    assert!(rt; runs < more);
}

// A run that is not at its end behind as many steps as are told is a mismatch.
#[test]
fn too_few_steps(rt: HostRuntime) {
    let alloc = rt.alloc();
    let few = Bounds {
        faults: 0,
        steps: 4,
        rows: 4,
    };
    let mut search = Search::new(alloc, first(), few).expect(&rt, "no search");
    assert!(rt; matches!(search.next_run(alloc), Err(WalkFault::Mismatch)));
}
