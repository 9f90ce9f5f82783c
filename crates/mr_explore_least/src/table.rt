//! A table of the ends that came, each with the least run to it.
ghost use Rattle.std.specs.Prelude.{◌≡◌, ◌<◌, true, map, OnOk, OnErr};
ghost use Rattle.std.specs.List.{list_any};
ghost use Rattle.std.specs.Option.{option_map};
ghost use Rattle.std.specs.Vec.{vec_capacity, vec_len};
ghost use Rattle.mr_explore_least.specs.Rows.{as_arrival};
ghost use Rattle.mr_explore_least.specs.Table.{all_noted, empty, is_told, joined, least_of, noted, placed, without};
ghost use Rattle.mr_explore_least.specs.inner.Places.{behind_from, place_from};

use crate::least::{Least, copied};
use mr_explore_ends::{Outcome, meets};
use mr_script::Expectation;
use mr_world_events::Event;
use std::alloc::{AllocError, Global};
use std::marker::Model;

/// The ends that runs came to, each with the least of these runs, in the order of runs. Contracts see it as its rows, and whether a run would pass a limit.
#[derive(Debug, Drop)]
pub struct LeastTable {
    rows: Vec<Least>,
    past_limit: bool,
}

impl Model for LeastTable {
    ghost use Rattle.std.specs.Prelude.{map};
    ghost use Rattle.mr_explore_least.specs.Rows.{as_arrival};
    ghost use Rattle.mr_explore_least.specs.Table as least;

    ghost Value = { least.Table };

    ghost view = { λ t. record { rows = map as_arrival t.rows.items; past_limit = t.past_limit } };
}

impl LeastTable {
    /// A table of no run.
    pub fn new(alloc: Global) -> LeastTable
        ensures { result ≡ empty }
    {
        LeastTable {
            rows: Vec::new(alloc),
            past_limit: false,
        }
    }

    /// A run was made that came to this end, with this many faults and these events. It fails where there is no memory,
    /// and leaves the table as it was.
    pub fn note(
        &mut self,
        alloc: Global,
        end: Outcome,
        faults: u32,
        events: &[Event],
    ) -> Result<(), AllocError>
        ensures noted { OnOk result (self.new ≡ record self.old { rows = noted (record { end = end; faults = faults; events = events.now }) self.old.rows }) }
        ensures stays { OnErr result (self.new ≡ self.old) }
    {
        note_in(alloc, &mut self.rows, end, faults, events)
    }

    /// A run was made that came to no end, since its last fault would pass a limit.
    pub fn pass_limit(&mut self)
        ensures { self.new ≡ record self.old { past_limit = true } }
    {
        self.past_limit = true;
    }

    /// The runs of another table were made too. It fails where there is no memory; then some of its rows may be in this one.
    pub fn join(&mut self, other: LeastTable) -> Result<(), AllocError>
        ensures { OnOk result (self.new ≡ joined self.old other) }
    {
        let LeastTable { rows, past_limit } = other;
        let past_limit = self.past_limit || past_limit;
        join_rows(&mut self.rows, rows)?;
        self.past_limit = past_limit;
        Ok(())
    }

    /// The least run to each end, in the order of runs.
    pub fn rows(&self) -> &[Least]
        ensures { map as_arrival result.now ≡ self.now.rows }
    {
        &self.rows
    }

    /// Whether a run came to no end, since its last fault would pass a limit.
    pub fn is_past_limit(&self) -> bool
        ensures { result ≡ self.now.past_limit }
    {
        self.past_limit
    }

    /// The least run to an end that meets a goal, if one does.
    pub fn goal(&self, goal: &[Expectation]) -> Option<&Least>
        ensures { option_map (λ row. as_arrival row.now) result ≡ least_of goal.now self.now.rows }
    {
        first_that_meets(&self.rows, goal)
    }
}

// The first row that meets a goal.
fn first_that_meets<'a>(rows: &'a [Least], goal: &[Expectation]) -> Option<&'a Least>
    ensures { option_map (λ row. as_arrival row.now) result ≡ least_of goal.now (map as_arrival rows.now) }
{
    for row in rows {
        if meets(goal, &row.end) {
            return Some(row);
        }
    }
    None
}

// A run is told by a row already, or gets one.
fn note_in(
    alloc: Global,
    rows: &mut Vec<Least>,
    end: Outcome,
    faults: u32,
    events: &[Event],
) -> Result<(), AllocError>
    ensures noted { OnOk result (map as_arrival rows.new.items ≡ noted (record { end = end; faults = faults; events = events.now }) (map as_arrival rows.old.items)) }
    ensures stays { OnErr result (rows.new.items ≡ rows.old.items) }
{
    if is_told(rows, &end, faults, events) {
        return Ok(());
    }
    let events = copied(alloc, events)?;
    put_row(
        rows,
        Least {
            end,
            faults,
            events,
        },
    )
}

// Rows are joined, each in its turn.
fn join_rows(rows: &mut Vec<Least>, more: Vec<Least>) -> Result<(), AllocError>
    ensures { OnOk result (map as_arrival rows.new.items ≡ all_noted (map as_arrival more.items) (map as_arrival rows.old.items)) }
{
    for row in more {
        join_row(rows, row)?;
    }
    Ok(())
}

fn join_row(rows: &mut Vec<Least>, row: Least) -> Result<(), AllocError>
    ensures { OnOk result (map as_arrival rows.new.items ≡ noted (as_arrival row) (map as_arrival rows.old.items)) }
{
    if is_told(rows, &row.end, row.faults, &row.events) {
        return Ok(());
    }
    put_row(rows, row)
}

// Whether a run is told by one of the rows already.
fn is_told(rows: &[Least], end: &Outcome, faults: u32, events: &[Event]) -> bool
    ensures { result ≡ list_any (is_told (record { end = end.now; faults = faults; events = events.now })) (map as_arrival rows.now) }
{
    for row in rows {
        if row.tells(end, faults, events) {
            return true;
        }
    }
    false
}

// A row among those of other ends: it takes the place of the one of its end.
fn put_row(rows: &mut Vec<Least>, row: Least) -> Result<(), AllocError>
    ensures placed { OnOk result (map as_arrival rows.new.items ≡ placed (as_arrival row) (without row.end (map as_arrival rows.old.items))) }
    ensures stays { OnErr result (rows.new.items ≡ rows.old.items) }
{
    rows.reserve(1)?;
    take_out(rows, &row.end);
    place(rows, row);
    Ok(())
}

// The rows without the first of an end.
fn take_out(rows: &mut Vec<Least>, end: &Outcome)
    ensures rows { map as_arrival rows.new.items ≡ without end.now (map as_arrival rows.old.items) }
    ensures room { vec_len rows.old < vec_capacity rows.old → vec_len rows.new < vec_capacity rows.new }
{
    if let Some(place) = place_of(rows, end) {
        drop(rows.remove(place));
    }
}

// A row behind those that come before it, where there is room.
fn place(rows: &mut Vec<Least>, row: Least)
    requires { vec_len rows.old < vec_capacity rows.old }
    ensures { map as_arrival rows.new.items ≡ placed (as_arrival row) (map as_arrival rows.old.items) }
{
    let place = place_behind(rows, &row);
    if rows.insert(place, row).is_err() {
        unreachable!()
    }
}

// Where the first row of an end stands.
fn place_of(rows: &[Least], end: &Outcome) -> Option<usize>
    ensures { result ≡ place_from end.now 0 (map as_arrival rows.now) }
{
    for (place, row) in rows.iter().enumerate() {
        if row.end.is_same(end) {
            return Some(place);
        }
    }
    None
}

// The place behind the rows that come before this one.
fn place_behind(rows: &[Least], new: &Least) -> usize
    ensures { result ≡ behind_from (as_arrival new.now) 0 (map as_arrival rows.now) }
{
    for (place, row) in rows.iter().enumerate() {
        if !row.is_before(new) {
            return place;
        }
    }
    rows.len()
}
