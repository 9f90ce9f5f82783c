//! The runs that were found so far.
ghost use Rattle.std.specs.Prelude.{◌≡◌, OnOk, OnErr};
ghost use Rattle.mr_explore_least.specs.Table.{empty};
ghost use Rattle.mr_explore_noted.specs.Noting.{noted_run};

use crate::observer::Observer;
use crate::run::NotedRun;
use mr_explore_least::LeastTable;
use mr_explore_search::Ended;
use std::alloc::{AllocError, Global};
use std::marker::Model;

/// An observer is told each time that so many runs more were found.
pub const STRIDE: u64 = 100_000;

/// The runs that were found so far. Contracts see it as its table.
#[derive(Drop)]
pub struct Noted<R: NotedRun> {
    table: LeastTable,
    notes: R::Notes,
    runs: u64,
}

impl<R: NotedRun> Model for Noted<R> {
    ghost use Rattle.mr_explore_least.specs.Table as least;

    ghost Value = { least.Table };

    ghost view = { λ n. n.table };
}

impl<R: NotedRun> Noted<R> {
    /// Of no run.
    pub fn new(alloc: Global) -> Noted<R>
        ensures { result ≡ empty }
    {
        Noted {
            table: LeastTable::new(alloc),
            notes: R::notes(alloc),
            runs: 0,
        }
    }

    /// A run was found that came to its end, or that is void. It fails where there is no memory, and leaves the table as it was.
    pub fn note(&mut self, alloc: Global, ended: &Ended<R>) -> Result<(), AllocError>
        ensures noted { OnOk result (self.new ≡ noted_run R.void R.end R.events ended.now.faults ended.now.run self.old) }
        ensures stays { OnErr result (self.new ≡ self.old) }
    {
        self.runs = self.runs.wrapping_add(1);
        note_run(
            alloc,
            &mut self.table,
            &mut self.notes,
            &ended.run,
            ended.faults,
        )
    }

    /// How many runs were found.
    pub fn runs(&self) -> u64 {
        self.runs
    }

    /// To how many ends they came.
    pub fn ends(&self) -> usize {
        self.table.rows().len()
    }

    /// The table of these runs.
    pub fn into_table(self) -> LeastTable
        ensures { result ≡ self }
    {
        let Noted {
            table,
            notes: _,
            runs: _,
        } = self;
        table
    }

    /// Tells how far it is, every 100,000 runs.
    pub fn tell<W: Observer>(&self, observer: &W) {
        if self.runs % STRIDE == 0 {
            observer.tell(self.runs, self.ends());
        }
    }
}

// A run with so many faults is noted.
fn note_run<R: NotedRun>(
    alloc: Global,
    table: &mut LeastTable,
    notes: &mut R::Notes,
    run: &R,
    faults: u32,
) -> Result<(), AllocError>
    ensures noted { OnOk result (table.new ≡ noted_run R.void R.end R.events faults run.now table.old) }
    ensures stays { OnErr result (table.new ≡ table.old) }
{
    if run.is_void() {
        table.pass_limit();
        return Ok(());
    }
    let end = run.end(alloc, notes)?;
    table.note(alloc, end, faults, run.events())
}
