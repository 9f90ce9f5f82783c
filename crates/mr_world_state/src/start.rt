//! The event by which a master starts as the next generation, and both stores are fenced against older ones.
ghost use Rattle.std.specs.Prelude.{◌≡◌, IfOk, OnOk, OnErr};
ghost use Rattle.mr_history.specs.Calls.{raised};
ghost use Rattle.mr_world_model.specs.World.{Start};
ghost use Rattle.mr_world_model.specs.Effect.{version_of};
ghost use Rattle.mr_master_refinement.specs.Steps.{setting};
ghost use Rattle.mr_world_state.specs.Standing.{Foresees, Tries};

use crate::config::Config;
use crate::fault::WorldFault;
use crate::parts::Parts;
use mr_ids::AppAttempt;
use mr_master::MasterMachine;
use mr_master_model::Setting;
use mr_paths::Layout;
use mr_world_actors::Shared;
use mr_world_events::Why;
use std::alloc::AllocError;

impl Parts {
    /// Whether the master of this generation can start now.
    pub(crate) fn check_start(&self, k: u32, kept: u64) -> Result<AppAttempt, WorldFault>
        ensures foresees { Foresees self.now (Start k kept) result }
        ensures is { IfOk result (λ app. app ≡ k) }
    {
        if k != self.fence() + 1 {
            return Err(WorldFault::NotNow(Why::WrongGeneration));
        }
        let Some(app) = AppAttempt::new(k) else {
            return Err(WorldFault::Full);
        };
        Ok(app)
    }

    /// The master of the next generation starts: both stores hear no older one from then on.
    pub(crate) fn start(&mut self, k: u32, kept: u64) -> Result<(), WorldFault>
        ensures tries { Tries self.old (Start k kept) result self.new }
        ensures config { self.new.config ≡ self.old.config }
        ensures raises { OnOk result (self.new.history ≡ raised k kept (version_of self.old.config k) self.old.history) }
        ensures kept { OnErr result (self.new.history ≡ self.old.history) }
    {
        let app = self.check_start(k, kept)?;
        let setting = setting(&self.config, &self.layout, app)?;
        let alloc = self.allocator();
        let machine = MasterMachine::new(alloc, setting)?;
        let names = self.names.own()?;
        let history = self.history.own()?;
        self.masters.begin(alloc, machine)?;
        names.raise(app);
        history.raise(app, kept as usize, version(&self.config, app));
        Ok(())
    }
}

fn setting(
    config: &Shared<Config>,
    layout: &Shared<Layout>,
    app: AppAttempt,
) -> Result<Setting, AllocError>
    ensures { IfOk result (λ made. made ≡ record (setting config.now app) { layout = layout.now }) }
{
    let config: &Config = config;
    Ok(Setting {
        app,
        job: config.job,
        maps: config.splits.len() as u32,
        reduces: config.reduces,
        nodes: config.nodes,
        limit: config.limit,
        layout: Layout {
            dest: layout.dest.copy()?,
        },
    })
}

fn version(config: &Shared<Config>, app: AppAttempt) -> u32
    ensures { result ≡ version_of config.now app }
{
    let config: &Config = config;
    if app.number() >= config.v2_from { 2 } else { 1 }
}
