//! A script that is played: a world, and how far the script is.
ghost use Rattle.std.specs.Prelude.{◌≡◌, [], ◌∷◌, ◌++◌, length, Some, OnOk, IfOk, IfErr};
ghost use Rattle.mr_play.specs.Text.{config_of, job_as};
ghost use Rattle.mr_play.specs.Played.{begun, computing, expecting, losing, made, most_of, obeyed, played, stepped_by, stop_of};
ghost use Rattle.mr_play.specs.Players.{calm_of, cluster_in, job_in, state_in, Goes, GoesNoting, IsEvent, Applies};
ghost use Rattle.mr_play.specs.Sources.{is_calm, stretch_of, stretches};
ghost use Rattle.mr_sim_commands.specs.job.Submission.{IsWithinLimits};
ghost use Rattle.mr_world.specs.Limits.{within};

use crate::expectations::{is_expected, print_unmet, value_of};
use crate::fault::PlayerFault;
use crate::memory::read;
use crate::refused::print_refused;
use crate::setup::setup_of;
use crate::sources::{Source, Stretch};
use crate::works::computed;
use mr_packet::ContainerId;
use mr_script::{Command, Expectation, Until};
use mr_sim_commands::{IdleKeys, JobKind, Submission};
use mr_world::{Config, World, WorldFault};
use mr_world_events::{Event, Why};
use std::alloc::{AllocError, Global};
use std::collections::BTreeSet;

/// A world in which a script happens.
#[derive(Drop)]
pub struct Player {
    /// What the job computes.
    pub(crate) job: JobKind,
    pub world: World,
    /// How many packets of the bag the calms have delivered or passed over.
    pub(crate) cursor: usize,
    /// The packets that no calm delivers, since the script dropped them, by their places in the bag.
    pub(crate) dropped: BTreeSet<u64>,
    /// The container that a calm or the script stepped last.
    pub(crate) stepped: Option<ContainerId>,
    /// The lines of refused events, and of expectations that were not met.
    pub told: Vec<u8>,
    /// Whether every expectation so far was met.
    pub met: bool,
    /// Which line of the script made which events.
    pub stretches: Vec<Stretch>,
    /// Lines for standard error: which calms ended otherwise than the script asks.
    pub notes: Vec<u8>,
    /// The keys of the job text that say nothing.
    pub idle_keys: IdleKeys,
}

impl Player {
    /// The opening world of a job.
    pub(crate) fn new(alloc: Global, submission: Submission) -> Result<Player, AllocError>
        requires { IsWithinLimits submission }
        ensures job { IfOk result (λ player. player.job ≡ submission.job) }
        ensures config { IfOk result (λ player. player.world.config ≡ config_of submission) }
        ensures state { IfOk result (λ player. state_in player ≡ begun) }
        ensures noted { IfOk result (λ player. player.stretches.items ≡ []) }
    {
        let setup = setup_of(submission);
        let job = setup.job;
        let world = read(World::new(alloc, setup.config))?;
        Ok(Player {
            job,
            world,
            cursor: 0,
            dropped: BTreeSet::new(alloc),
            stepped: None,
            told: Vec::new(alloc),
            met: true,
            stretches: Vec::new(alloc),
            notes: Vec::new(alloc),
            idle_keys: setup.idle_keys,
        })
    }

    /// What the job computes.
    pub fn job(&self) -> JobKind
        ensures { result ≡ job_in self.now }
    {
        self.job
    }

    /// How many packets of the bag the calms have delivered or passed over.
    pub fn cursor(&self) -> usize
        ensures { result ≡ (state_in self.now).cursor }
    {
        self.cursor
    }

    /// The packets that no calm delivers, since the script dropped them, by their places in the bag.
    pub fn dropped(&self) -> &BTreeSet<u64>
        ensures { result.now.keys ≡ (state_in self.now).dropped }
    {
        &self.dropped
    }

    /// The container that a calm or the script stepped last.
    pub fn stepped(&self) -> Option<ContainerId>
        ensures { result ≡ (state_in self.now).stepped }
    {
        self.stepped
    }

    /// Plays commands in turn, each with the number of its line, and notes which events each made.
    pub(crate) fn play(
        &mut self,
        alloc: Global,
        commands: Vec<(usize, Command)>,
    ) -> Result<(), PlayerFault>
        ensures { GoesNoting self.old (played (job_as self.old.job) self.old.world.config (within self.old.world.config) commands.items (state_in self.old))
            (stretches (job_as self.old.job) self.old.world.config (within self.old.world.config) commands.items (state_in self.old)) result self.new }
    {
        for (line, command) in commands {
            self.play_line(alloc, line, command)?;
        }
        Ok(())
    }

    /// Plays the command of a line, and notes which events it made.
    fn play_line(&mut self, alloc: Global, line: usize, command: Command) -> Result<(), PlayerFault>
        ensures { GoesNoting self.old (obeyed (job_as self.old.job) self.old.world.config (within self.old.world.config) line command (state_in self.old))
            (stretch_of line command (length self.new.world.events) ∷ []) result self.new }
    {
        let source = Source {
            line: line as u64,
            is_calm: is_calm(&command),
        };
        self.carry_out(alloc, line, command)?;
        self.note(source)?;
        Ok(())
    }

    /// Carries out one command.
    fn carry_out(&mut self, alloc: Global, line: usize, command: Command) -> Result<(), PlayerFault>
        ensures { Goes self.old (obeyed (job_as self.old.job) self.old.world.config (within self.old.world.config) line command (state_in self.old)) result self.new }
    {
        match command {
            Command::Makes(event) => self.happen(line, event),
            Command::Compute(c) => self.compute_at(alloc, line, c),
            Command::Calm(k, until) => self.calm_at(alloc, line, k, until),
            Command::Drop(packet) => self.lose(packet),
            Command::Expect(expectation) => self.expect(alloc, line, &expectation),
        }
    }

    /// Calms, and notes how the calm ended where that is not as the line asks.
    fn calm_at(
        &mut self,
        alloc: Global,
        line: usize,
        k: u32,
        until: Until,
    ) -> Result<(), PlayerFault>
        ensures { Goes self.old (calm_of self.old k (stop_of until) (most_of until)) result self.new }
    {
        let before = self.world.journal().len();
        self.calm(alloc, k, until)?;
        self.note_calm(line, k, until, before)?;
        Ok(())
    }

    /// From here on no calm delivers the packet at this place of the bag.
    fn lose(&mut self, packet: u64) -> Result<(), PlayerFault>
        ensures { Goes self.old (Some (losing (job_as self.old.job) self.old.world.config (within self.old.world.config) packet (state_in self.old))) result self.new }
    {
        self.drop_packet(packet)?;
        Ok(())
    }

    /// Looks whether what a line expects is so now, and tells the line where it is not.
    fn expect(
        &mut self,
        alloc: Global,
        line: usize,
        expectation: &Expectation,
    ) -> Result<(), PlayerFault>
        ensures { Goes self.old (Some (expecting (job_as self.old.job) self.old.world.config (within self.old.world.config) line expectation.now (state_in self.old))) result self.new }
    {
        let value = value_of(alloc, &self.world, expectation)?;
        if is_expected(alloc, expectation, &value)? {
            return Ok(());
        }
        print_unmet(&mut self.told, line, expectation, &value)?;
        self.met = false;
        Ok(())
    }

    /// Notes what made the events since the last note.
    fn note(&mut self, source: Source) -> Result<(), AllocError>
        ensures rests { self.new ≡ record self.old { stretches = self.new.stretches } }
        ensures noted { OnOk result (self.new.stretches.items ≡ self.old.stretches.items ++ record { source = source; end = length self.old.world.events } ∷ []) }
    {
        let end = self.world.journal().len() as u64;
        self.stretches.push(Stretch { source, end })?;
        Ok(())
    }

    /// Makes the event that a line names.
    fn happen(&mut self, line: usize, event: Event) -> Result<(), PlayerFault>
        ensures { Goes self.old (obeyed (job_as self.old.job) self.old.world.config (within self.old.world.config) line (Command.Makes event) (state_in self.old)) result self.new }
    {
        let stepped = self.stepped_by(&event);
        self.make(line, event, stepped)
    }

    /// The container of a line computes.
    fn compute_at(&mut self, alloc: Global, line: usize, c: ContainerId) -> Result<(), PlayerFault>
        ensures { Goes self.old (obeyed (job_as self.old.job) self.old.world.config (within self.old.world.config) line (Command.Compute c) (state_in self.old)) result self.new }
    {
        let event = self.computing(alloc, &c)?;
        self.make(line, event, Some(c))
    }

    /// Makes the event of a line, or prints why it is not permitted.
    fn make(
        &mut self,
        line: usize,
        event: Event,
        stepped: Option<ContainerId>,
    ) -> Result<(), PlayerFault>
        ensures { Goes self.old (made (job_as self.old.job) self.old.world.config (within self.old.world.config) line event stepped (state_in self.old)) result self.new }
    {
        match self.apply(event, stepped)? {
            None => Ok(()),
            Some(why) => {
                print_refused(&mut self.told, line, why)?;
                Ok(())
            }
        }
    }

    /// Makes an event, or tells why it is not permitted now.
    pub(crate) fn apply(
        &mut self,
        event: Event,
        stepped: Option<ContainerId>,
    ) -> Result<Option<Why>, PlayerFault>
        ensures { Applies self.old event stepped result self.new }
    {
        match self.world.apply(event) {
            Ok(_took) => {
                self.stepped = stepped;
                Ok(None)
            }
            Err(WorldFault::NotNow(why)) => Ok(Some(why)),
            Err(WorldFault::Full) => Err(PlayerFault::Full),
            Err(WorldFault::NoMemory) => Err(PlayerFault::NoMemory),
        }
    }

    /// Who has stepped last, after an event of the script.
    pub(crate) fn stepped_by(&self, event: &Event) -> Option<ContainerId>
        ensures { result ≡ stepped_by (job_as self.now.job) self.now.world.config (within self.now.world.config) event.now self.now.stepped }
    {
        match event {
            Event::ContainerStep { container: c, .. } => Some(*c),
            _ => self.stepped,
        }
    }

    /// What `compute` is an event of.
    #[tactic(auto, using(crate::proofs::Working::inputs_are_short))]
    pub(crate) fn computing(&self, alloc: Global, c: &ContainerId) -> Result<Event, PlayerFault>
        ensures { IsEvent (computing (job_as self.now.job) self.now.world.config (within self.now.world.config) (cluster_in self.now) c.now) result }
    {
        let config = self.world.config();
        config.ranges();
        computed(alloc, self.job, config, *c, self.world.input(c))
    }
}

// Whether the command is a calm.
fn is_calm(command: &Command) -> bool
    ensures { result ≡ is_calm command.now }
{
    matches!(command, Command::Calm(..))
}
