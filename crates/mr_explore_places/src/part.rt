//! Parts of a search.
ghost use Rattle.std.specs.Prelude.{◌≡◌, IfOk, IfErr};
ghost use Rattle.mr_explore_search.specs.Steps.{IsNotFull};

use crate::level::{Level, fork_level};
use crate::run::MarkedRun;
use mr_explore_search::{Ended, WalkFault};
use std::alloc::Global;
use std::marker::Model;

/// A part of a search that can be searched apart from the rest: the last faults of a run, at each of its places. Contracts see it as where it leads.
///
/// It holds one run.
#[derive(Drop)]
pub struct Part<R, F> {
    level: Level<R, F>,
}

impl<R, F> Model for Part<R, F> {
    ghost use Rattle.mr_explore_places.specs.declared.level.Level.{Level};

    ghost Value = { Level R F };

    ghost view = { λ p. p.level };
}

impl<R: Drop, F: Drop> Part<R, F> {
    /// The part that is left of a level.
    pub(crate) fn of(level: Level<R, F>) -> Part<R, F>
        ensures { result ≡ level }
    {
        Part { level }
    }

    /// The level that is left to be searched.
    pub(crate) fn level(&self) -> &Level<R, F>
        ensures { result.now ≡ self.now }
    {
        &self.level
    }

    /// The same.
    pub(crate) fn into_level(self) -> Level<R, F>
        ensures { result ≡ self }
    {
        self.level
    }
}

impl<R: MarkedRun> Part<R, R::Fault> {
    /// A part of its own, as this one. It fails where there is no memory, or where a run's own call fails.
    pub fn fork(&self, alloc: Global) -> Result<Part<R, R::Fault>, WalkFault>
        ensures is { IfOk result (λ fork. fork ≡ self.now) }
        ensures fault { IfErr result IsNotFull }
    {
        let level = fork_level(alloc, &self.level)?;
        Ok(Part { level })
    }
}

/// What comes next of a search in parts.
#[derive(Drop)]
pub enum Next<R, F> {
    /// A run at its end.
    Run(Ended<R>),
    /// A part, which is to be searched apart.
    Part(Part<R, F>),
}
