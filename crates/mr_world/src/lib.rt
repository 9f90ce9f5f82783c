//! The world: a cluster that is run, event by event, in one process. It has a namespace, a history, a bag of packets,
//! and the machines of masters, nodes and containers. It is at each point what `mr_world_model` defines to be the run of
//! the events that it took, its *journal*.
//!
//! # How to begin
//!
//! A job is run to its end, where nothing goes wrong:
//!
//! ```rust
//! fn run_job(
//!     alloc: Global,
//!     world: &mut World,
//!     map_made: &[u8],
//!     reduce_made: &[u8],
//! ) -> Result<Option<bool>, WorldFault> {
//!     world.apply(Event::Start {
//!         generation: 1,
//!         kept: 0,
//!     })?;
//!     let (mut next, mut last) = (0, None);
//!     for _ in 0..10_000 {
//!         let event = if next < world.bag().len() {
//!             let packet = next as u64;
//!             next += 1;
//!             Event::Deliver { packet }
//!         } else if world.duty(1)?.is_some() {
//!             Event::Duty {
//!                 generation: 1,
//!                 weather: Weather::Calm,
//!             }
//!         } else if let Some(task) = world.wanted(1) {
//!             Event::LaunchOn {
//!                 generation: 1,
//!                 task,
//!                 node: 0,
//!             }
//!         } else if let Some(container) = world.next_living(last) {
//!             last = Some(container);
//!             step_of(alloc, world, container, map_made, reduce_made)?
//!         } else {
//!             break; // nothing is left to do
//!         };
//!         match world.apply(event) {
//!             Ok(_) | Err(WorldFault::NotNow(_)) => {} // who is gone hears no packet
//!             Err(fault) => return Err(fault),
//!         }
//!     }
//!     Ok(world.outcome())
//! }
//! ```
//!
//! ```rust
//! fn step_of(
//!     alloc: Global,
//!     world: &World,
//!     container: ContainerId,
//!     map_made: &[u8],
//!     reduce_made: &[u8],
//! ) -> Result<Event, AllocError> {
//!     let made = match world.input(&container) {
//!         Some(Input::Map { .. }) => map_made,
//!         Some(Input::Reduce { .. }) => reduce_made,
//!         None => {
//!             return Ok(Event::ContainerStep {
//!                 container,
//!                 weather: Weather::Calm,
//!             });
//!         }
//!     };
//!     let bytes = Bytes::from_vec(Vec::from_slice(alloc, made)?);
//!     Ok(Event::Computed { container, bytes })
//! }
//! ```
//!
//! (Both are run in `crates/tests_guides`.) Events, weather and reasons are those of `mr_world_events`, which this crate
//! gives on.
//!
//! # What is proved
//!
//! Contracts see a `World` as its config and its journal (`specs/Journal`). `world_in` of that is the world of the
//! definitions, under the limits of `specs/Limits`. For every world, every event and every list of events:
//!
//! - `World::new` has an empty journal, and `journal` and `config` lend what contracts see. A `Config` is copied and
//!   compared. It tells that its splits are those of a job (`Config::ranges`), so that
//!   `mr_world_files::jobs_have_their_laws` holds of each world;
//! - `World::copy` gives a world of its own with the same config and the same journal, from where it goes on by itself.
//!   It refuses for want of memory alone;
//! - `World::is_alike` answers true only of worlds that are alike (`Alike` of mr_world_alike), of one config, and whose
//!   histories have the same bytes: from there the same events lead both to the same ends. How near each is to a limit
//!   it does not tell. `launches` tells how many containers were launched;
//! - `apply` refuses an event with the first reason why it is not permitted, else `Full` where it would pass a limit,
//!   else `NoMemory`. Then nothing has changed. Else the event is the journal's last, the world after it is the
//!   definitions', and the packets that it added are told (`Applies`);
//! - `foresee` tells the refusal beforehand and changes nothing (`Foretells`). `foresee_computed` does so of bytes
//!   that a container computed, without a copy of them and without memory (`foretold_in`);
//! - `run` passes over what is not permitted and over nothing else, and leads to the world of the journal and all its
//!   events. It stops at the first event that is `Full` or meets an allocation failure, and those before it have
//!   happened (`Runs`);
//! - **the headline** stands on `apply` and `run` themselves, of the world before and after (`HeadlineHolds`). A
//!   recorded winner stays, and every node told of it is told the same. Where the success marker is, a reader sees
//!   each reduce's winner's whole file and nothing else, from then on. One outcome is told. With deterministic
//!   functions the files are the sequential execution's. Recovery finds the winners, and a barred attempt's calls are
//!   refused from then on;
//! - what is read is what the definitions read (`specs/Readings`). Those outside read `winner`, `winners`, `marker`,
//!   `outcome` and `visible`. Programs read `bag`, `undeliverable`, `newest`, `phase`, `duty`, `wanted`, `unflushed`,
//!   `stable`, `living`, `next_living`, `place`, `wish` and `input`;
//! - the bytes of `stable` are those that the calls of the journal's events leave in the history, a torn end among
//!   them (`specs/Histories`);
//! - the events of a journal can happen once more, each in turn, in a world of their own that has the same config
//!   (`repeats`, by `CanFollow`);
//! - `asks` tells the store call that an event would make now, by whom, and what its caller would hear
//!   (`specs/Asks`);
//! - memory may be taken by `World::new`, `World::copy`, `World::is_alike`, `Config::copy`, `apply`, `foresee` and `run`,
//!   and by `winner`, `winners`, `marker`, `visible`, `duty`, `living` and `asks`. No other call takes any. Where a call can be refused nothing but
//!   memory, `WorldFault::wants_memory` takes its fault: it is proved to be that.
//!
//! A world's invariant is that its parts (`Parts`) *stand for* the world of its journal (`specs/Standing`): one
//! clause a part, each machine for its past there. Each event's call keeps it (`Tries`), and everything that can fail
//! comes before the first change that can't be taken back.
//!
//! A reason is always answered before an allocation failure, and so is `Full`, but for one exception. It takes memory
//! to find out which paths a container's store call names, and which packets a step of a master would send. Such a
//! step is a packet that the master hears, a duty or an expiry. Where that memory was refused, an allocation failure
//! may be answered though a limit of the bag or of a store is passed. All other limits are found without memory
//! (`fits_counted` of `specs/Limits`).
//!
//! A master is told what a store answers, a refusal too; only where a store is full the whole event is refused.
#![tactic(auto)]

mod alike;
mod copy;
mod happen;
mod inputs;
mod limits;
mod living_ones;
mod reading;
mod results;
mod took;
mod winners;
mod world;

pub use inputs::Input;
pub use limits::MAX_EVENTS;
pub use mr_user::Splits;
pub use mr_world_events::{Event, Weather, Why};
pub use mr_world_state::{Asked, Config, MAX_CONTAINERS, WorldFault};
pub use results::VisibleFile;
pub use took::Took;
pub use world::World;
