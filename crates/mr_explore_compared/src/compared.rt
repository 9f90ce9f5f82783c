//! Runs of an exploration that can be compared with each other.
ghost use Rattle.std.specs.Prelude.{◌≡◌};
ghost use Rattle.mr_explore.specs.Runs.{explored};

use crate::digest::Digest;
use mr_explore::{Explored, Fault};
use mr_explore_search::{Run, WalkFault};
use std::alloc::Global;
use std::collections::LinkedList;
use std::marker::Model;

/// A run of a job that can be compared with others. Contracts see what they see of an `Explored`.
#[derive(Drop)]
pub struct Compared {
    run: Explored,
    // For its mark: what its events tell up to its last fault. No contract speaks of it.
    digest: Digest,
}

impl Model for Compared {
    ghost use Rattle.mr_explore.specs.Runs.{Exploring};

    ghost Value = { Exploring };

    ghost view = { λ c. c.run };
}

impl Compared {
    /// The same run, to be compared with others.
    pub fn new(run: Explored) -> Compared
        ensures { result ≡ run }
    {
        Compared {
            run,
            digest: Digest::new(),
        }
    }

    /// The same run.
    pub fn into_run(self) -> Explored
        ensures { result ≡ self }
    {
        let Compared { run, digest: _ } = self;
        run
    }

    /// The same run.
    pub fn run(&self) -> &Explored
        ensures { result.now ≡ self.now }
    {
        &self.run
    }

    // What its events tell, up to its last fault.
    pub(crate) fn digest(&self) -> Digest {
        self.digest
    }

    // Its events are looked at.
    fn look(&mut self)
        ensures { self.new ≡ self.old }
    {
        self.digest = self.digest.of_all(self.run.world());
    }
}

impl Run for Compared {
    type Fault = Fault;

    ghost steps = { explored };

    fn fork(&self, alloc: Global) -> Result<Compared, WalkFault> {
        match self.run.fork(alloc) {
            Ok(run) => Ok(Compared {
                run,
                digest: self.digest,
            }),
            Err(fault) => Err(fault),
        }
    }

    fn go_on(&mut self, alloc: Global) -> Result<bool, WalkFault> {
        self.run.go_on(alloc)
    }

    fn faults(&self, alloc: Global) -> Result<LinkedList<Fault>, WalkFault> {
        self.run.faults(alloc)
    }

    fn may_befall(&self, fault: &Fault) -> Result<bool, WalkFault> {
        self.run.may_befall(fault)
    }

    fn later(&self, fault: &Fault) -> Option<Fault> {
        self.run.later(fault)
    }

    fn befall(&mut self, alloc: Global, fault: Fault) -> Result<bool, WalkFault> {
        let befell = self.run.befall(alloc, fault);
        self.look();
        befell
    }
}
