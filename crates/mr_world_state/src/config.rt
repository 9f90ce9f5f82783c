//! What a world is made for. It is the job with its splits and reduces, the nodes, the limit of failures, and from
//! which generation on the history has version 2.
ghost use Rattle.std.specs.Prelude.{◌≡◌, IfOk, length, option_map, slice_get};
ghost use Rattle.mr_shuffle.specs.SequentialText.{AreSplits};
ghost use Rattle.mr_world_state.specs.Ranges.{IsInRange};

use mr_ids::{Bytes, JobId};
use mr_user::Splits;
use std::alloc::AllocError;
use std::marker::Model;

/// The job that a world runs, its nodes and its limits. Contracts see it as the cluster's config in `mr_world_model`.
#[derive(Debug, PartialEq, Eq, Drop)]
pub struct Config {
    /// The job's identifier.
    pub job: JobId,
    /// At most 1,000 splits, each of at most 2^24 bytes.
    pub splits: Splits,
    /// How many reduces there are, from 1 to 1,000.
    pub reduces: u32,
    /// How many nodes there are, from 1 to 64.
    pub nodes: u32,
    /// How many failed attempts of a task fail the job, from 1 to 100.
    pub limit: u32,
    /// The first generation of the master that writes its history in version 2, from 1 to 1,000.
    pub v2_from: u32,
}

impl Model for Config {
    ghost use Rattle.mr_world_model.specs.Packets.{Config as Described};
    ghost use Rattle.mr_world_state.specs.Ranges.{IsInRange};

    ghost Value = { Described };

    ghost view = { λ c. record { job = c.job; splits = c.splits; reduces = c.reduces; nodes = c.nodes; limit = c.limit; v2_from = c.v2_from } };

    ghost inverse = { λ c. record { job = c.job; splits = c.splits; reduces = c.reduces; nodes = c.nodes; limit = c.limit; v2_from = c.v2_from } };

    ghost invariant = { λ c. IsInRange (record { job = c.job; splits = c.splits; reduces = c.reduces; nodes = c.nodes; limit = c.limit; v2_from = c.v2_from }) };
}

impl Config {
    /// The numbers of a config are in their ranges. Its splits are those of a job: at most 1,000, each of bytes and
    /// at most 2^24 long. This call does nothing: it tells the caller so.
    pub fn ranges(&self)
        ensures numbers { IsInRange self.now }
        ensures splits { AreSplits self.now.splits }
    {
        // For the prover: each split is of bytes.
        self.splits.tell_bytes();
    }

    /// An equal config. Its only fault is an allocation failure.
    pub fn copy(&self) -> Result<Config, AllocError>
        ensures { IfOk result (λ config. config ≡ self.now) }
    {
        Ok(Config {
            job: self.job,
            splits: self.splits.copy()?,
            reduces: self.reduces,
            nodes: self.nodes,
            limit: self.limit,
            v2_from: self.v2_from,
        })
    }

    /// The job's identifier.
    pub fn job_id(&self) -> JobId
        ensures { result ≡ self.now.job }
    {
        self.job
    }

    /// How many reduces there are.
    pub fn reduce_count(&self) -> u32
        ensures { result ≡ self.now.reduces }
    {
        self.reduces
    }

    /// How many maps there are: one for each split.
    pub fn maps(&self) -> u32
        ensures { result ≡ length self.now.splits }
    {
        // For the prover: a config has at most 1,000 splits.
        self.ranges();
        self.splits.len() as u32
    }

    /// The bytes of the split of this number, from 0; none where there is no such split.
    pub fn split(&self, number: u32) -> Option<&Bytes>
        ensures { option_map (λ bytes. bytes.now) result ≡ slice_get self.now.splits number }
    {
        self.splits.get(number as usize)
    }
}
