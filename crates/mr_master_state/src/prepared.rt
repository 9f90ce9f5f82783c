//! What is prepared before a step is taken.
//! Each step goes the same way: it is prepared, room is made for it, and it is taken.
ghost use Rattle.std.specs.Prelude.{◌≡◌, ◌↔◌, [], ◌∷◌, ◌++◌, drop, IsTrue, IfOk, OnOk, OnErr};
ghost use Rattle.mr_master_tables.specs.Earlier.{listed};
ghost use Rattle.mr_commit.specs.Halves.{Fits};
ghost use Rattle.mr_master_model.specs.Answered.{flushed};
ghost use Rattle.mr_master_model.specs.Next.{with_kills};
ghost use Rattle.mr_master_state.specs.Prepared.{changed_by, room_of, IsNothing, IsSound, HasRoom, HasLaunchRoom, IsExpiry};
ghost use Rattle.mr_master_state.specs.State.{Moves, MovesOn, Unchanged};
ghost use Rattle.mr_master_phase.specs.WorkKinds.{left_of, with_left, others_of, with_others};
ghost use Rattle.mr_master_phase.specs.Taking.{winner_of, after_winner, after_table};
ghost use Rattle.mr_master_state.specs.Taking.{EntersAt, KeepsAfter};
ghost use Rattle.mr_master_model.specs.Readings.{is_running};

use crate::boxed::Boxed;
use crate::change::{Change, Room};
use crate::machine::Machine;
use mr_commit::Following;
use mr_ids::TaskId;
use mr_master_phase::Work;
use mr_master_tables::Earlier;
use mr_master_tasks::Tasks;
use mr_packet::Envelope;
use mr_task::TaskMachine;
use std::alloc::{AllocError, Global};
use std::marker::Model;

/// The packets that a master will send once it takes a step, and what will change then. As long as it has not taken
/// it, nothing has changed.
pub struct Prepared {
    packets: Vec<Envelope>,
    change: Change,
}

// By hand, as a master's.
impl Drop for Prepared {
    fn drop(self) {
        let Prepared {
            packets: _,
            change: _,
        } = self;
    }
}

impl Model for Prepared {
    ghost use Rattle.mr_master_state.specs.Prepared.{Prepared};

    ghost Value = { Prepared };

    ghost view = { λ p. record { packets = p.packets.items; change = p.change } };
}

impl Prepared {
    /// These packets will be sent, and this will change.
    pub fn new(packets: Vec<Envelope>, change: Change) -> Prepared
        ensures { result ≡ record { packets = packets.items; change = change } }
    {
        Prepared { packets, change }
    }

    /// Nothing will be sent.
    pub fn silent(alloc: Global, change: Change) -> Prepared
        ensures { result ≡ record { packets = []; change = change } }
    {
        Prepared {
            packets: Vec::new(alloc),
            change,
        }
    }

    /// One packet will be sent.
    pub fn of_one(alloc: Global, packet: Envelope, change: Change) -> Result<Prepared, AllocError>
        ensures { IfOk result (λ prepared. prepared ≡ record { packets = packet ∷ []; change = change }) }
    {
        let packets = one(alloc, packet)?;
        Ok(Prepared { packets, change })
    }

    /// One packet will be sent, or none.
    pub fn of_some(
        alloc: Global,
        packet: Option<Envelope>,
        change: Change,
    ) -> Result<Prepared, AllocError>
        ensures { IfOk result (λ prepared. prepared ≡ record { packets = listed packet; change = change }) }
    {
        match packet {
            Some(packet) => Prepared::of_one(alloc, packet, change),
            None => Ok(Prepared::silent(alloc, change)),
        }
    }

    // The packets, and what changes.
    fn into_parts(self) -> (Vec<Envelope>, Change)
        ensures packets { result.0.items ≡ self.packets }
        ensures change { result.1 ≡ self.change }
    {
        let Prepared { packets, change } = self;
        (packets, change)
    }

    // What room it wants.
    fn room(&self) -> Room
        ensures { result ≡ room_of self.now.change }
    {
        self.change.room()
    }

    /// Whether nothing will be sent, and nothing will change.
    pub fn is_nothing(&self) -> bool
        ensures { IsTrue result ↔ IsNothing self.now }
    {
        self.packets.is_empty() && self.change.is_nothing()
    }

    /// The packets that will be sent, in order.
    pub fn packets(&self) -> &[Envelope]
        ensures { result.now ≡ self.now.packets }
    {
        self.packets.as_slice()
    }
}

fn one(alloc: Global, packet: Envelope) -> Result<Vec<Envelope>, AllocError>
    ensures { IfOk result (λ packets. packets.items ≡ packet ∷ []) }
{
    let mut packets = Vec::new(alloc);
    packets.push(packet)?;
    Ok(packets)
}

impl Machine {
    /// Makes room for what is planned. Nothing else changes. Where a node is given up and memory is refused, nothing
    /// at all changes.
    pub fn reserve(&mut self, prepared: &Prepared) -> Result<(), AllocError>
        ensures same { Unchanged self.old self.new }
        ensures room { OnOk result (HasRoom self.new prepared.now.change) }
        ensures expiry { OnErr result (IsExpiry prepared.now.change → self.new ≡ self.old) }
    {
        match prepared.room() {
            Room::Records(count) => self.writing.reserve(count),
            Room::Launch(task, node) => self.reserve_launch(task, node),
            Room::Bars(count) => self.bars.reserve(count),
        }
    }

    // Makes room for a launch of the task on the node, and for its record.
    fn reserve_launch(&mut self, task: TaskId, node: u32) -> Result<(), AllocError>
        ensures same { Unchanged self.old self.new }
        ensures room { OnOk result (HasLaunchRoom self.new) }
    {
        self.writing.reserve(1)?;
        self.launches.reserve(node, task)?;
        Ok(())
    }

    /// What was prepared is done. Gives the packets.
    pub fn take(&mut self, prepared: Prepared) -> Vec<Envelope>
        requires sound { IsSound self.old prepared.change }
        requires room { HasRoom self.old prepared.change }
        ensures packets { result.items ≡ prepared.packets }
        ensures moves { MovesOn self.old (λ w s. with_kills prepared.packets (changed_by w s prepared.change)) self.new }
    {
        let (packets, change) = prepared.into_parts();
        self.make(change);
        self.note(&packets);
        packets
    }

    // The change is made.
    fn make(&mut self, change: Change)
        requires sound { IsSound self.old change }
        requires room { HasRoom self.old change }
        ensures { MovesOn self.old (λ w s. changed_by w s change) self.new }
    {
        match change {
            Change::Nothing => {}
            Change::Becomes(work) => self.set_work(work),
            Change::GoesOn(following) => self.goes_on(following),
            Change::HasRead { records, work } => self.has_read(records, work),
            Change::EntersOne {
                place,
                machine,
                work,
            } => self.enters_one(place, machine, work),
            Change::Enters { tasks, work } => self.enters(tasks, work),
            Change::Dies(attempt) => self.tell_death(attempt),
            Change::Appends => self.append_first(),
            Change::Flushes(work) => self.flushes(work),
            Change::Hears { place, attempt } => self.hears(place, attempt),
            Change::Asks {
                place,
                attempt,
                machine,
            } => self.asks(place, attempt, machine),
            Change::Reports {
                place,
                attempt,
                reply,
                due,
            } => {
                self.reports(place, attempt, reply, due);
            }
            Change::Ends {
                place,
                attempt,
                end,
                blame,
            } => self.ends(place, attempt, &end, blame),
            Change::Loses { place, attempt } => self.loses(place, attempt),
            Change::Knows {
                node,
                incarnation,
                nodes,
                dead,
                lost,
            } => {
                self.knows(node, incarnation, nodes, dead, lost);
            }
            Change::Launches {
                place,
                attempt,
                machine,
                launch,
            } => {
                self.has_launched(place, attempt, machine, launch);
            }
            Change::GivesUp { dead, lost, late } => self.has_given_up(dead, lost, late),
        }
    }

    // Notes which containers are sent a Kill.
    fn note(&mut self, packets: &[Envelope])
        ensures { Moves self.old (λ w s. with_kills packets.now s) self.new }
    {
        self.launches.note(packets);
    }

    // The work changes.
    fn set_work(&mut self, work: Work)
        ensures { Moves self.old (λ w s. record s { work = work }) self.new }
    {
        self.work.set(work);
    }

    // The committer's table goes on with these lines.
    fn goes_on(&mut self, following: Following)
        requires { Fits following.lines (left_of self.old.work) }
        ensures { Moves self.old (λ w s. record s { work = with_left s.work (following.lines ++ drop 1 (left_of s.work)) }) self.new }
    {
        self.work.go_on(following);
    }

    // The earlier segments were read.
    fn has_read(&mut self, records: Boxed<Earlier>, work: Work)
        ensures { Moves self.old (λ w s. record s { earlier = records; work = work }) self.new }
    {
        self.earlier = records.into_inner();
        self.work.set(work);
    }

    // The task at this place has this machine from then on: a reduce was taken over, and others are left.
    fn enters_one(&mut self, place: usize, machine: Boxed<TaskMachine>, work: Work)
        requires { EntersAt self.old place machine }
        ensures { Moves self.old (λ w s. record s { calls = (after_winner s (winner_of s.work)).calls; work = with_others work (drop 1 (others_of s.work)) }) self.new }
    {
        let alloc = self.alloc;
        self.tasks.put(place, machine.into_inner());
        self.work.move_on(alloc, work);
    }

    // The tasks have these machines from then on.
    fn enters(&mut self, tasks: Boxed<Tasks>, work: Work)
        requires { KeepsAfter self.old (winner_of self.old.work) (is_running work) tasks }
        ensures { Moves self.old (λ w s. record s { calls = (after_table w s (winner_of s.work) (is_running work)).calls; work = work }) self.new }
    {
        self.tasks = tasks.into_inner();
        self.work.set(work);
    }

    // All that was appended is stable.
    fn flushes(&mut self, work: Work)
        ensures { Moves self.old (λ w s. record (flushed w s) { work = work }) self.new }
    {
        self.flush();
        self.set_work(work);
    }
}
