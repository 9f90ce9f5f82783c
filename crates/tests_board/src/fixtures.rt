//! What the tests begin with: a board over a job of the words of one split, and two seats.

ghost use Rattle.std.specs.Prelude.{◌≡◌, []};

use mr_board::{Board, Finished, Seat, Work};
use mr_drive::Plan;
use mr_ids::{AppAttempt, Bytes, JobId, TaskKind};
use mr_jobs::WordCount;
use mr_packet::ContainerId;
use mr_play::setup_of;
use mr_sim_commands::read_job_text;
use mr_user::{Gate, GateFault, OpenGate};
use mr_world::{Config, Splits, Took, World, WorldFault};
use mr_world_events::{Event, Weather};
use std::alloc::Global;
use std::process::Abort;

/// What the map of `a b a` makes for one reduce: the length of its block, then `a` with 2 and `b` with 1.
pub const BLOCK: [u8; 30] = [
    0, 0, 0, 26, 0, 0, 0, 1, 97, 0, 0, 0, 0, 0, 0, 0, 2, 0, 0, 0, 1, 98, 0, 0, 0, 0, 0, 0, 0, 1,
];

/// What the one reduce makes of its block.
pub const TEXT: &[u8] = b"a\t2\nb\t1\n";

/// The gate that lets no work pass.
#[derive(Drop)]
pub struct ShutGate;

impl Gate for ShutGate {
    fn enter(&self, _kind: TaskKind) -> Result<(), GateFault> {
        Err(GateFault::Spent)
    }
}

/// A board, its two seats, and how far its run is: how many packets were delivered or passed over, and who stepped last.
pub struct Table {
    pub board: Board<WordCount>,
    pub masters: Seat,
    pub nodes: Seat,
    pub next: usize,
    pub last: Option<ContainerId>,
}

// By hand, so that a table is dropped by one call.
impl Drop for Table {
    fn drop(self) {
        let Table {
            board: _,
            masters: _,
            nodes: _,
            next: _,
            last: _,
        } = self;
    }
}

/// The container of this number of the first master.
pub fn container(rt: &impl Abort, number: u32) -> ContainerId {
    let app = AppAttempt::new(1).expect(rt, "no generation 1");
    ContainerId { app, number }
}

// The world of a job of this one split and one reduce, on one node.
fn world(rt: &impl Abort, alloc: Global, text: &[u8]) -> World
    ensures { result.events ≡ [] }
{
    let mut splits = Vec::new(alloc);
    let split = Bytes::from_slice(alloc, text).expect(rt, "no memory");
    assert!(rt; split.len() <= 16_777_216);
    splits.push(split).expect(rt, "no memory");
    let config = Config {
        job: JobId {
            start: 200707121733,
            number: 3,
        },
        splits: Splits::from_vec(splits),
        reduces: 1,
        nodes: 1,
        limit: 4,
        v2_from: 1,
    };
    World::new(alloc, config).expect(rt, "no memory")
}

/// The board of number 1 over a job of the words of this one split, with two seats, before its first event.
pub fn opened(rt: &impl Abort, alloc: Global, text: &[u8]) -> Table {
    numbered(rt, alloc, 1, text)
}

/// The same of another number.
pub fn numbered(rt: &impl Abort, alloc: Global, number: u64, text: &[u8]) -> Table {
    let world = world(rt, alloc, text);
    let (board, mut seats) = Board::new(alloc, &WordCount, number, world, 2).expect(
        rt,
        "no memory",
    );
    let nodes = seats.pop().expect(rt, "no second seat");
    let masters = seats.pop().expect(rt, "no first seat");
    confirm!(*rt; masters.number() == 0);
    confirm!(*rt; nodes.number() == 1);
    Table {
        board,
        masters,
        nodes,
        next: 0,
        last: None,
    }
}

/// The plan of a job text with these parts, of one reduce.
pub fn plan(rt: &impl Abort, alloc: Global, parts: &str) -> Plan {
    let text = format!(in alloc;
        "{{\"id\":\"job_200707121733_0003\",\"reduces\":1,{parts}}}"
    ).expect(rt, "no memory");
    match read_job_text(alloc, text.as_bytes()) {
        Ok(submission) => {
            let setup = setup_of(submission);
            Plan {
                config: setup.config,
                faults: setup.faults,
            }
        }
        Err(fault) => panic!(rt; "{fault}"),
    }
}

/// What this work gives, behind a gate that is open.
pub fn done(rt: &impl Abort, alloc: Global, work: Work) -> Finished<WordCount> {
    work.run(alloc, &WordCount, &OpenGate)
        .expect(rt, "the work is refused")
}

/// The world of a job of `a b a` that ran to its end by itself.
pub fn ended(rt: &impl Abort, alloc: Global) -> World {
    let mut table = opened(rt, alloc, b"a b a");
    table.launches_the_map(rt);
    table.calms(rt, alloc);
    let (board, masters, nodes) = table.apart();
    drop(masters);
    drop(nodes);
    board.into_world()
}

/// A copy of the event.
fn copied(rt: &impl Abort, event: &Event) -> Event {
    match event.copy() {
        Ok(copy) => copy,
        Err(_) => event.copy().expect(rt, "no memory"),
    }
}

impl Table {
    /// Its board, the seat of its masters, and that of its nodes.
    pub fn apart(self) -> (Board<WordCount>, Seat, Seat) {
        let Table {
            board,
            masters,
            nodes,
            next: _,
            last: _,
        } = self;
        (board, masters, nodes)
    }

    /// The event is taken from the masters' seat.
    pub fn takes(&mut self, rt: &impl Abort, event: Event) {
        let length = self.board.world().journal().len();
        let made = self.masters.made().len();
        self.applied(rt, event).expect(rt, "refused");
        confirm!(*rt; self.board.world().journal().len() > length);
        confirm!(*rt; self.masters.made().len() > made);
    }

    /// What comes of the event from the masters' seat. Where memory is refused, world and list are as before, and it is applied again.
    fn applied(&mut self, rt: &impl Abort, event: Event) -> Result<Took, WorldFault> {
        let before = self.look();
        let copy = copied(rt, &event);
        match self.board.apply_as(&mut self.masters, event) {
            Err(WorldFault::NoMemory) => {
                confirm!(*rt; self.look() == before);
                self.board.apply_as(&mut self.masters, copy)
            }
            answer => answer,
        }
    }

    /// How long journal, bag and the two lists are.
    pub fn look(&self) -> [usize; 4] {
        let world = self.board.world();
        [
            world.journal().len(),
            world.bag().len(),
            self.masters.made().len(),
            self.nodes.made().len(),
        ]
    }

    /// The work of a container, done behind an open gate.
    pub fn done_at(&self, rt: &impl Abort, alloc: Global, c: &ContainerId) -> Finished<WordCount> {
        let work = self.board.work(alloc, c).expect(rt, "it does not compute");
        done(rt, alloc, work)
    }

    /// What a work gave is handed in from the nodes' seat. Where memory is refused, world and list are as before, and it is handed in again.
    pub fn hands_in(
        &mut self,
        rt: &impl Abort,
        work: &Finished<WordCount>,
    ) -> Result<usize, WorldFault> {
        let before = self.look();
        match self.board.computed_as(&mut self.nodes, work) {
            Err(WorldFault::NoMemory) => {
                confirm!(*rt; self.look() == before);
                let took = self.board.computed_as(&mut self.nodes, work)?;
                Ok(took.count)
            }
            answer => Ok(answer?.count),
        }
    }

    /// The first master starts, runs, and launches the map, whose container lives and wishes to compute.
    pub fn launches_the_map(&mut self, rt: &impl Abort) {
        self.takes(
            rt,
            Event::Start {
                generation: 1,
                kept: 0,
            },
        );
        for _ in 0..20 {
            if self.board.world().input(&container(rt, 0)).is_some() {
                return;
            }
            self.goes_on(rt);
        }
    }

    /// What happens by itself until the master is through, or nothing is left to do. Each work is done by hand.
    pub fn calms(&mut self, rt: &impl Abort, alloc: Global) {
        for _ in 0..1000 {
            if !self.goes_on(rt) && !self.steps(rt, alloc) {
                return;
            }
        }
    }

    // One event of a packet, a store call or a launch, the first that is there; false where none is there.
    fn goes_on(&mut self, rt: &impl Abort) -> bool {
        if self.delivers(rt) {
            return true;
        }
        if self.is_due(rt) {
            self.takes(
                rt,
                Event::Duty {
                    generation: 1,
                    weather: Weather::Calm,
                },
            );
            return true;
        }
        let Some(task) = self.board.world().wanted(1) else {
            return false;
        };
        self.takes(
            rt,
            Event::LaunchOn {
                generation: 1,
                task,
                node: 0,
            },
        );
        true
    }

    // Whether the first master makes a store call next.
    fn is_due(&self, rt: &impl Abort) -> bool {
        let world = self.board.world();
        match world.duty(1) {
            Ok(duty) => duty.is_some(),
            Err(_) => world.duty(1).expect(rt, "no memory").is_some(),
        }
    }

    // The next packet that goes to somebody who is alive is delivered.
    fn delivers(&mut self, rt: &impl Abort) -> bool {
        for place in self.next..self.board.world().bag().len() {
            self.next = place + 1;
            if self.board.world().undeliverable(place).is_none() {
                self.takes(
                    rt,
                    Event::Deliver {
                        packet: place as u64,
                    },
                );
                return true;
            }
        }
        false
    }

    // The next living container steps or computes; false where none lives.
    fn steps(&mut self, rt: &impl Abort, alloc: Global) -> bool {
        let Some(c) = self.board.world().next_living(self.last) else {
            return false;
        };
        self.last = Some(c);
        if self.board.world().input(&c).is_some() {
            let work = self.done_at(rt, alloc, &c);
            self.hands_in(rt, &work).expect(rt, "refused");
            drop(work);
        } else {
            self.takes(
                rt,
                Event::ContainerStep {
                    container: c,
                    weather: Weather::Calm,
                },
            );
        }
        true
    }
}
