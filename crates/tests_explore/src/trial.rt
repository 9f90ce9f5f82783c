//! A run of four steps that remembers a number. Its faults set it back, change the number, or put off that it is changed.
ghost use Rattle.tests_explore.specs.Trials.{are_one, comes_before, has_no_end, steps_left, trial, two_alike};

use mr_explore_alike::AlikeRun;
use mr_explore_places::MarkedRun;
use mr_explore_search::{Run, WalkFault};
use std::alloc::Global;
use std::collections::LinkedList;

/// The number that no run goes on with.
pub const VOID: u32 = 6;

/// How far it is, what it remembers, how long its script is, and how long it may be at most.
#[derive(Clone, Copy, Debug, PartialEq, Eq)]
pub struct Trial {
    pub at: u32,
    pub number: u32,
    pub size: u64,
    pub limit: u64,
}

impl Run for Trial {
    type Fault = u32;

    ghost steps = { trial };

    fn fork(&self, _alloc: Global) -> Result<Trial, WalkFault> {
        Ok(*self)
    }

    fn go_on(&mut self, _alloc: Global) -> Result<bool, WalkFault> {
        if self.number == VOID || self.at >= 4 {
            return Ok(false);
        }
        if self.size >= self.limit {
            return Err(WalkFault::Full);
        }
        self.at += 1;
        self.size = self.size.wrapping_add(1);
        if self.at == 3 {
            self.number = self.number.wrapping_mul(3) % 11;
        }
        Ok(true)
    }

    fn faults(&self, alloc: Global) -> Result<LinkedList<u32>, WalkFault> {
        let mut faults = LinkedList::new(alloc);
        faults.push_front(0)?;
        faults.push_front(1)?;
        faults.push_front(2)?;
        Ok(faults)
    }

    fn later(&self, fault: &u32) -> Option<u32> {
        if *fault == 0 { Some(3) } else { None }
    }

    fn befall(&mut self, _alloc: Global, fault: u32) -> Result<bool, WalkFault> {
        if self.number == VOID {
            return Ok(false);
        }
        self.size = self.size.wrapping_add(1);
        match fault {
            0 => Ok(self.at > 1),
            1 => {
                if self.at == 0 {
                    return Ok(false);
                }
                self.at -= 1;
                Ok(true)
            }
            2 => {
                self.number = self.number.wrapping_add(1) % 11;
                Ok(true)
            }
            _ => {
                self.number = self.number.wrapping_add(5) % 11;
                Ok(true)
            }
        }
    }
}

impl AlikeRun for Trial {
    ghost rest = { steps_left };

    ghost before = { comes_before };

    ghost void = { has_no_end };

    ghost like = { two_alike };

    ghost ends = { are_one };
}

impl MarkedRun for Trial {
    fn is_void(&self) -> bool {
        self.number == VOID
    }

    fn comes_before(&self, other: &Trial) -> bool {
        self.size <= other.size
    }

    fn mark(&self, _alloc: Global, owed: &[u32]) -> Result<u64, WalkFault> {
        Ok((self.number % 4) as u64 + owed.len() as u64)
    }

    fn is_like(
        &self,
        _alloc: Global,
        owed: &[u32],
        other: &Trial,
        other_owed: &[u32],
    ) -> Result<bool, WalkFault> {
        Ok(self.at == other.at && self.number == other.number && owed == other_owed)
    }
}
