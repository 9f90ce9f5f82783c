//! What the threads share, under one lock: the run, and who finds nothing to do. No function here waits.
use crate::actor::{Actor, Role};
use crate::condition_variables::{Call, Sleepers};
use crate::fault::DriveFault;
use crate::fetching::Fetching;
use crate::hand_in::hand_in;
use crate::made::turn_of;
use crate::master_turns::master_turn;
use crate::node_turns::node_turn;
use crate::turn::{Next, Turn};
use mr_board::mr_world::World;
use mr_board::{Finished, Seat};
use mr_board_report::Run;
use mr_mapside::WorkFault;
use mr_master_model::Phase;
use mr_packet::{Address, ContainerId, Packet};
use mr_user::Job;
use std::alloc::{AllocError, Global};

/// What the threads share.
#[derive(Drop)]
pub(crate) struct SharedState<J: Job> {
    run: Run<J>,
    fetching: Fetching,
    stop: Option<DriveFault>,
    // Whether an outcome was told, or the newest master is Stopped, and how many packets were looked at for that.
    over: bool,
    looked: usize,
    changes: u64,
    idle: u32,
    threads: u32,
    sleepers: Sleepers,
    // How often all threads found nothing to do, and the count of changes when that was so last.
    round: u64,
    round_at: u64,
}

impl<J: Job> SharedState<J> {
    pub(crate) fn new(
        alloc: Global,
        run: Run<J>,
        threads: u32,
    ) -> Result<SharedState<J>, AllocError> {
        Ok(SharedState {
            run,
            fetching: Fetching::new(),
            stop: None,
            over: false,
            looked: 0,
            changes: 0,
            idle: 0,
            threads,
            sleepers: Sleepers::new(alloc, threads)?,
            round: 0,
            round_at: 0,
        })
    }

    /// The run, and why the threads stopped where that was not the end.
    pub(crate) fn ends(self) -> (Run<J>, Option<DriveFault>) {
        let SharedState {
            run,
            fetching: _,
            stop,
            over: _,
            looked: _,
            changes: _,
            idle: _,
            threads: _,
            sleepers: _,
            round: _,
            round_at: _,
        } = self;
        (run, stop)
    }

    fn has_ended(&self) -> bool {
        self.over || self.stop.is_some()
    }

    fn is_due(&self) -> bool {
        self.run.is_held()
    }

    /// Whether a fault is due, so that what a work gave has to wait.
    pub(crate) fn is_held(&self) -> bool {
        !self.has_ended() && self.is_due()
    }

    // Whether who saw this count of changes has nothing new to look at.
    fn is_still(&self, changes: u64) -> bool {
        self.changes == changes && !self.has_ended()
    }

    /// Lets every thread end, for this reason.
    pub(crate) fn stop(&mut self, fault: DriveFault) {
        if !self.has_ended() {
            self.stop = Some(fault);
        }
    }

    /// Whom to wake once the lock is given back.
    pub(crate) fn take_call(&mut self) -> Call {
        if self.has_ended() {
            self.sleepers.call(Call::Everyone);
        }
        self.sleepers.take_call()
    }

    // Something changed: whoever found nothing to do may look again.
    fn changed(&mut self) {
        self.changes = self.changes.wrapping_add(1);
        self.idle = 0;
    }

    // Looks at the packets that are new, and at the newest master. Whom a packet is for is called.
    fn look(&mut self) {
        let world = self.run.world();
        for place in self.looked..world.bag().len() {
            if let Some(envelope) = world.bag().get(place) {
                self.over = self.over || matches!(&envelope.body, Packet::Outcome { .. });
                self.sleepers.call(call_of(world, &envelope.to));
            }
        }
        self.looked = world.bag().len();
        self.over = self.over || world.phase(world.newest()) == Some(Phase::Stopped);
        if self.is_due() {
            let faults = seat_of(Role::Faults, self.run.world());
            self.sleepers.call(Call::Seat(faults));
        }
    }

    // Nothing to do. Where that is so for all threads, those that wait for an answer ask again; where nothing came of that, nothing ever will.
    fn rests(&mut self) -> Next {
        self.idle = self.idle.saturating_add(1);
        if self.idle < self.threads {
            return Next::Waits(self.changes);
        }
        if self.round > 0 && self.round_at == self.changes {
            self.stop(DriveFault::TurnsSpent);
            return Next::Ends;
        }
        self.changed();
        self.sleepers.call(Call::Everyone);
        self.round = self.round.wrapping_add(1);
        self.round_at = self.changes;
        Next::Goes
    }

    /// Looks for something to do, unless nothing changed since the last look, and makes at most one event. True where there was nothing to do.
    pub(crate) fn waits(
        &mut self,
        alloc: Global,
        actor: &mut Actor,
        seat: &mut Seat,
        next: &mut Next,
    ) -> bool {
        let sleeps_on = match next {
            Next::Waits(changes) => self.is_still(*changes),
            _ => false,
        };
        if !sleeps_on {
            self.sleepers.wakes(seat.number());
            *next = self.turn(alloc, actor, seat);
        }
        matches!(next, Next::Waits(_))
    }

    /// The thread of a seat falls asleep: whom it wakes before.
    pub(crate) fn falls_asleep(&mut self, seat: &Seat) -> Call {
        self.sleepers.falls_asleep(seat.number())
    }

    // Makes at most one event. Only who makes the faults acts while one is due.
    fn turn(&mut self, alloc: Global, actor: &mut Actor, seat: &mut Seat) -> Next {
        if self.has_ended() {
            return Next::Ends;
        }
        if self.is_due() && actor.role != Role::Faults {
            return self.rests();
        }
        match self.found(alloc, actor, seat) {
            Ok(Turn::Made) => {
                self.changed();
                self.look();
                if actor.role == Role::Faults {
                    self.sleepers.call(Call::Everyone);
                }
                Next::Goes
            }
            Ok(Turn::Compute(c, work)) => {
                self.idle = 0;
                // It may be the last reduce that fetched, so works that wait may begin.
                self.sleepers.call(Call::Everyone);
                Next::Computes(c, work)
            }
            Ok(Turn::Nothing) => self.rests(),
            Err(fault) => {
                self.stop(fault);
                Next::Ends
            }
        }
    }

    // What a role finds to do.
    fn found(
        &mut self,
        alloc: Global,
        actor: &mut Actor,
        seat: &mut Seat,
    ) -> Result<Turn, DriveFault> {
        match actor.role {
            Role::Node(n) => {
                actor.begin(self.run.world(), n, self.round)?;
                node_turn(alloc, &mut self.run, &mut self.fetching, seat, actor)
            }
            Role::Master(k) => master_turn(&mut self.run, &mut self.fetching, seat, actor, k),
            Role::Faults => turn_of(self.run.make_due(seat)),
        }
    }

    /// What a work gave is handed in, unless all has ended.
    pub(crate) fn hand_in(
        &mut self,
        actor: &mut Actor,
        seat: &mut Seat,
        c: &ContainerId,
        done: Result<Finished<J>, WorkFault>,
    ) {
        if self.has_ended() {
            return;
        }
        self.changed();
        if let Err(fault) = hand_in(&mut self.run, seat, c, done) {
            self.stop(fault);
        }
        if actor.is_ready(c).is_err() {
            self.stop(DriveFault::NoMemory);
        }
        self.look();
    }
}

// Whom a packet to this address gives something to do.
fn call_of(world: &World, to: &Address) -> Call {
    let role = match to {
        Address::Node(n) => Role::Node(*n),
        Address::Master(k) => Role::Master(k.number()),
        Address::Container(c) => match world.place(c) {
            Some(place) => Role::Node(place.node),
            None => return Call::Nobody,
        },
    };
    Call::Seat(seat_of(role, world))
}

// The number of the seat whose thread acts for a role: nodes, then faults, then masters.
fn seat_of(role: Role, world: &World) -> u32 {
    let nodes = world.config().nodes;
    match role {
        Role::Node(n) => n,
        Role::Faults => nodes,
        Role::Master(k) => nodes.saturating_add(k),
    }
}
