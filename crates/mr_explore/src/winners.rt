//! What runs came to, with winners that were read of histories. Of a history that comes again they are not read again: that takes longer than all else that is read of a world.
ghost use Rattle.std.specs.Prelude.{◌≡◌, true, map, IfSome, IfOk};
ghost use Rattle.std.specs.List.{flat_map};
ghost use Rattle.mr_history.specs.Reading.{records_of};
ghost use Rattle.mr_world_model.specs.Claims.{records};
ghost use Rattle.mr_play.specs.mr_world.specs.Journal.{world_in};
ghost use Rattle.mr_play.specs.WorldText.{won_in};
ghost use Rattle.mr_explore.specs.Exploring.{outcome_of};

use mr_explore_ends::Outcome;
use mr_ids::{AttemptId, JobId};
use mr_play::mr_world::World;
use mr_play::{print_visible, read};
use std::alloc::{AllocError, Global};
use std::marker::Model;

// Of more histories no winners are kept.
const MOST_KNOWN: usize = 64;

/// The winners of the reduces of a job, and the stable bytes of the history of which they were read.
#[derive(Drop)]
struct Known {
    job: JobId,
    reduces: u32,
    segments: Vec<Vec<u8>>,
    winners: Vec<Option<AttemptId>>,
}

impl Model for Known {
    ghost use Rattle.std.specs.Prelude.{◌≡◌, List, Option, map};
    ghost use Rattle.mr_ids.specs.Attempt.{Attempt};
    ghost use Rattle.mr_explore.specs.inner.Winners.{told_winners};

    ghost Value = { List (Option Attempt) };

    ghost view = { λ k. k.winners.items };

    ghost invariant = { λ k. k.winners.items ≡ told_winners k.job k.reduces (map (λ v. v.items) k.segments.items) };
}

impl Known {
    // Those of a world.
    fn read(alloc: Global, world: &World) -> Result<Known, AllocError>
        ensures { IfOk result (λ known. known ≡ won_in world.now.config (world_in world.now)) }
    {
        let segments = segments_of(alloc, world)?;
        let winners = winners_of(world)?;
        let config = world.config();
        Ok(Known {
            job: config.job,
            reduces: config.reduces,
            segments,
            winners,
        })
    }

    // Whether a world's history has the same bytes. Then its winners are these.
    fn is_of(&self, world: &World) -> bool
        ensures { result ≡ true → self.now ≡ won_in world.now.config (world_in world.now) }
    {
        let config = world.config();
        if self.job.start != config.job.start || self.job.number != config.job.number {
            return false;
        }
        if self.reduces != config.reduces {
            return false;
        }
        are_stable(world, &self.segments)
    }

    // Equal winners.
    fn winners(&self, alloc: Global) -> Result<Vec<Option<AttemptId>>, AllocError>
        ensures { IfOk result (λ all. all.items ≡ self.now) }
    {
        Ok(Vec::from_slice(alloc, &self.winners)?)
    }
}

fn winners_of(world: &World) -> Result<Vec<Option<AttemptId>>, AllocError>
    ensures { IfOk result (λ all. all.items ≡ won_in world.now.config (world_in world.now)) }
{
    Ok(read(world.winners())?)
}

// The stable bytes of each generation up to the newest, from 0, of which there are none.
fn segments_of(alloc: Global, world: &World) -> Result<Vec<Vec<u8>>, AllocError>
    ensures { IfOk result (λ all. flat_map records_of (map (λ v. v.items) all.items) ≡ records (world_in world.now)) }
{
    let mut all = Vec::new(alloc);
    for k in 0..u64::from(world.newest()) + 1 {
        all.push(Vec::from_slice(alloc, world.stable(k as u32))?)?;
    }
    Ok(all)
}

// Whether these are the stable bytes of each generation up to the newest.
fn are_stable(world: &World, segments: &[Vec<u8>]) -> bool
    ensures { result ≡ true → flat_map records_of (map (λ v. v.items) segments.now) ≡ records (world_in world.now) }
{
    if segments.len() as u64 != u64::from(world.newest()) + 1 {
        return false;
    }
    for (k, segment) in segments.iter().enumerate() {
        let same = world.stable(k as u32) == segment.as_slice();
        if !same {
            return false;
        }
    }
    true
}

/// Winners of some histories.
#[derive(Drop)]
pub struct Winners {
    known: Vec<Known>,
}

impl Winners {
    /// Of no history.
    pub fn new(alloc: Global) -> Winners {
        Winners {
            known: Vec::new(alloc),
        }
    }

    /// What the run of a world came to. It fails by an allocation failure.
    pub fn outcome_of(&mut self, alloc: Global, world: &World) -> Result<Outcome, AllocError>
        ensures { IfOk result (λ outcome. outcome ≡ outcome_of world.now.config (world_in world.now)) }
    {
        let winners = self.winners_of(alloc, world)?;
        outcome_with(alloc, world, winners)
    }

    // The winners of a world, which are read where its history was not read before.
    fn winners_of(
        &mut self,
        alloc: Global,
        world: &World,
    ) -> Result<Vec<Option<AttemptId>>, AllocError>
        ensures { IfOk result (λ all. all.items ≡ won_in world.now.config (world_in world.now)) }
    {
        if let Some(known) = self.of(world) {
            return Ok(known.winners(alloc)?);
        }
        let known = Known::read(alloc, world)?;
        let winners = known.winners(alloc)?;
        self.keep(known)?;
        Ok(winners)
    }

    // Those of a world, if its history was read before.
    fn of(&self, world: &World) -> Option<&Known>
        ensures { IfSome result (λ known. known.now ≡ won_in world.now.config (world_in world.now)) }
    {
        for known in &self.known {
            if known.is_of(world) {
                return Some(known);
            }
        }
        None
    }

    // Where there are too many, those that were read before are forgotten.
    fn keep(&mut self, known: Known) -> Result<(), AllocError> {
        if self.known.len() == MOST_KNOWN {
            self.known.clear();
        }
        self.known.push(known)?;
        Ok(())
    }
}

// What the run of a world came to, whose winners were read before.
fn outcome_with(
    alloc: Global,
    world: &World,
    winners: Vec<Option<AttemptId>>,
) -> Result<Outcome, AllocError>
    requires { winners.items ≡ won_in world.now.config (world_in world.now) }
    ensures { IfOk result (λ outcome. outcome ≡ outcome_of world.now.config (world_in world.now)) }
{
    let marker = read(world.marker())?;
    let mut files = Vec::new(alloc);
    print_visible(&mut files, world)?;
    Ok(Outcome::new(winners, marker, world.outcome(), files))
}
