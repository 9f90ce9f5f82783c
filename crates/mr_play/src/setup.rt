//! What a submission sets up. This is the one place where a world's config is made of one.
ghost use Rattle.std.specs.Prelude.{◌≡◌};
ghost use Rattle.mr_sim_commands.specs.job.Submission.{IsWithinLimits};
ghost use Rattle.mr_play.specs.Text.{config_of};

use mr_sim_commands::{IdleKeys, JobKind, Submission};
use mr_world::Config;
use mr_world_events::PlanFaults;

/// What a submission sets up.
#[derive(Drop)]
pub struct Setup {
    /// What is computed.
    pub job: JobKind,
    /// The config of the world in which it is.
    pub config: Config,
    /// The faults that are planned for its threads.
    pub faults: PlanFaults,
    /// The keys of its text that say nothing.
    pub idle_keys: IdleKeys,
}

/// What a submission sets up, without a copy.
pub fn setup_of(submission: Submission) -> Setup
    requires { IsWithinLimits submission }
    ensures job { result.job ≡ submission.job }
    ensures config { result.config ≡ config_of submission }
    ensures faults { result.faults ≡ submission.faults }
    ensures idle { result.idle_keys ≡ submission.idle_keys }
{
    let config = Config {
        job: submission.id,
        splits: submission.splits,
        reduces: submission.reduces,
        nodes: submission.nodes,
        limit: submission.limit,
        v2_from: submission.v2_from,
    };
    Setup {
        job: submission.job,
        config,
        faults: submission.faults,
        idle_keys: submission.idle_keys,
    }
}
