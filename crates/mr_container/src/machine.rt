//! The machine of a container: what it wishes to do next, as a packet or a namespace call, and where each answer leads it. For whoever runs containers.
ghost use Rattle.std.specs.Prelude.{◌≡◌, ◌<◌, ◌+◌, ◌++◌, [], ◌∷◌, Some, None, IfOk, OnOk, OnErr, length, List, ℕ};
ghost use Rattle.mr_ids.specs.declared.id.TaskKind.TheVariants.{Map};
ghost use Rattle.mr_packet.specs.declared.packet.Packet.{Packet};
ghost use Rattle.mr_packet.specs.declared.packet.Envelope.{Envelope};
ghost use Rattle.mr_packet.specs.Sends.{to_node};
ghost use Rattle.mr_names.specs.declared.op.Op.{Op};
ghost use Rattle.mr_container.specs.Past.{Hears, Sends, Computes, Calls, launched_as};
ghost use Rattle.mr_container.specs.Readings.{opening, first_wish, ask_next, next_seen, after_packet, after_ready, after_piece, with_piece, is_awaited, after_lost, after_answer, after_ack, wish_sent, wish_called, after_bytes, with_result, with_wish};
ghost use Rattle.mr_container.specs.Wished.{caller_of, calling_attempt, wished_op, wished_packet, reported, told_length, end_of, step_packets};
ghost use Rattle.mr_container.specs.State.{StandsFor, Stands, after};

use crate::namespace_call::wished_op;
use crate::pieces::Pieces;
use crate::place::Place;
use crate::reply::Reply;
use crate::wish::{Wish, is_same};
use mr_ids::{AttemptId, TaskKind};
use mr_names::{Caller, Op};
use mr_packet::{Address, Bag, Bytes, ContainerId, Envelope, Packet};
use mr_paths::Layout;
use std::alloc::{AllocError, Global};
use std::marker::Model;

/// One container: what it was launched as, and how far it came.
///
/// It tells what it wishes to do next (`wish`), and what that is as a namespace call (`call`, made as `caller`) or as a
/// packet (`packet`). Whoever runs it does one of three things. It makes the call and hands in the answer (`on`). It
/// sends the packet (`send`, or `sent` after it was put into the bag by another way). Or it computes and hands in the
/// bytes (`computed`). What is delivered to it is handed to `hear`.
///
/// A map's wishes are to compute and to report. A reduce's are, for each map in turn, to ask where its output lies and
/// to fetch its block of it. Then it computes, and writes its part file into its task attempt path. It asks for
/// permission to commit until it is told yes, makes the three calls of the task's commit, and reports. Any refusal or
/// fault of a call leads to the task's abort and then to `Failed` (Hadoop's `YarnChild` and task runs over an output
/// committer).
///
/// `call`, `hear` and `copy` may allocate, and where that is refused nothing has changed. No other call takes memory, so
/// nothing can be refused after a store was changed.
#[derive(PartialEq, Eq)]
pub struct ContainerMachine {
    id: ContainerId,
    place: Place,
    maps: u32,
    wish: Wish,
    pieces: Pieces,
    result: Bytes,
}

// Written by hand, so that the check takes the drop of a container as one call. A derived drop it takes apart at each place where one is
// dropped.
impl Drop for ContainerMachine {
    fn drop(self) {
        let ContainerMachine {
            id: _,
            place: _,
            maps: _,
            wish: _,
            pieces: _,
            result: _,
        } = self;
    }
}

impl Model for ContainerMachine {
    ghost use Rattle.mr_container.specs.State.{Container};

    ghost Value = { Container };

    ghost view = { λ m. record { id = m.id; place = m.place; maps = m.maps; seen = record { wish = m.wish; pieces = m.pieces; result = m.result } } };

    ghost inverse = { λ m. record { id = m.id; place = m.place; maps = m.maps; wish = m.seen.wish; pieces = m.seen.pieces; result = m.seen.result } };
}

impl ContainerMachine {
    /// A container that was launched as `place`, in a job with `maps` maps.
    pub fn new(alloc: Global, id: ContainerId, place: Place, maps: u32) -> ContainerMachine
        ensures stands { StandsFor result id maps (launched_as place) }
        ensures made { result ≡ record { id = id; place = place; maps = maps; seen = opening maps place.attempt } }
    {
        ContainerMachine::open(alloc, id, place, maps)
    }

    fn open(alloc: Global, id: ContainerId, place: Place, maps: u32) -> ContainerMachine
        ensures { result ≡ record { id = id; place = place; maps = maps; seen = opening maps place.attempt } }
    {
        let wish = first_wish(place.attempt.task().kind, maps);
        ContainerMachine {
            id,
            place,
            maps,
            wish,
            pieces: Pieces::new(alloc),
            result: Bytes::new(alloc),
        }
    }

    /// Which container it is.
    pub fn id(&self) -> ContainerId
        ensures { result ≡ self.now.id }
    {
        self.id
    }

    /// What it was launched as.
    pub fn place(&self) -> Place
        ensures { result ≡ self.now.place }
    {
        self.place
    }

    /// What it wishes to do next.
    pub fn wish(&self) -> Wish
        ensures { result ≡ self.now.seen.wish }
    {
        self.wish
    }

    /// The blocks that were fetched, in the order of their maps: what a reduce computes from, lent without a copy.
    pub fn blocks(&self) -> &[Bytes]
        ensures { result.now ≡ self.now.seen.pieces.blocks }
    {
        self.pieces.blocks()
    }

    /// The caller of its namespace calls: the generation of the master that launched it, below whose fence no call is
    /// heard. A reduce's caller has its attempt too, so that it is refused once that is barred.
    pub fn caller(&self) -> Caller
        ensures { result ≡ caller_of self.now.id self.now.place.attempt }
    {
        Caller {
            app: self.id.app,
            attempt: self.calling_attempt(),
        }
    }

    fn calling_attempt(&self) -> Option<AttemptId>
        ensures { result ≡ calling_attempt self.now.place.attempt.task.kind self.now.place.attempt }
    {
        match self.place.attempt.task().kind {
            TaskKind::Map => None,
            TaskKind::Reduce => Some(self.place.attempt),
        }
    }

    /// The namespace call that it wishes to make, if its wish is one, with the layout of the job's destination.
    ///
    /// It may allocate for paths and for the bytes to write, and refuses nothing else.
    pub fn call(&self, layout: &Layout) -> Result<Option<Op>, AllocError>
        ensures { IfOk result (λ op. op ≡ wished_op layout.now.dest self.now.id.app self.now.place.attempt self.now.seen.result self.now.seen.wish) }
    {
        wished_op(
            layout,
            self.id.app,
            self.place.attempt,
            &self.result,
            &self.wish,
        )
    }

    /// The packet that it wishes to send, if its wish is one.
    #[tactic(auto, unfolding(crate::specs::Wished::wished_packet))]
    pub fn packet(&self) -> Option<Envelope>
        ensures { result ≡ wished_packet self.now.id self.now.place.attempt self.now.seen self.now.seen.wish }
    {
        let attempt = self.place.attempt;
        match self.wish {
            Wish::Where { map } => Some(self.to_master(Packet::Where {
                container: self.id,
                map,
            })),
            Wish::Fetch {
                a: from,
                node,
                incarnation,
            } => Some(self.to_node(node, from, incarnation)),
            Wish::Lost { a: gone } => Some(self.to_master(Packet::FetchLost {
                container: self.id,
                attempt: gone,
            })),
            Wish::Pending => Some(self.to_master(Packet::Pending { attempt })),
            Wish::Poll => Some(self.to_master(Packet::Poll { attempt })),
            Wish::Report => Some(self.to_master(Packet::Done {
                attempt,
                bytes: self.reported(),
            })),
            Wish::Failed => Some(self.to_master(Packet::Failed { attempt })),
            Wish::Compute
            | Wish::Mkdirs
            | Wish::Create
            | Wish::Write
            | Wish::Close
            | Wish::Needs
            | Wish::Look
            | Wish::Clear
            | Wish::Rename
            | Wish::Abort
            | Wish::Over => None,
        }
    }

    // It fetches its block of an attempt's output from the node of this incarnation, behind what it got.
    fn to_node(&self, node: u32, from: AttemptId, incarnation: u32) -> Envelope
        ensures { result ≡ to_node node (Packet.Fetch self.now.id from self.now.place.attempt.task.number incarnation (length self.now.seen.pieces.got)) }
    {
        Envelope {
            to: Address::Node(node),
            body: Packet::Fetch {
                container: self.id,
                attempt: from,
                reduce: self.place.attempt.task().number,
                incarnation,
                offset: self.pieces.got_len() as u64,
            },
        }
    }

    fn to_master(&self, body: Packet) -> Envelope
        ensures { result ≡ record { to = Address.Master self.now.id.app; body = body } }
    {
        Envelope {
            to: Address::Master(self.id.app),
            body,
        }
    }

    fn reported(&self) -> Option<u32>
        ensures { result ≡ reported self.now.place.attempt.task.kind self.now.seen.result }
    {
        match self.place.attempt.task().kind {
            TaskKind::Map => None,
            TaskKind::Reduce => Some(told_length(self.result.len())),
        }
    }

    /// Hears a packet. One that its wish does not wait for does nothing.
    ///
    /// It may allocate where a `Piece` comes that is waited for; where that is refused nothing changes, and nothing else is refused.
    #[tactic(auto, unfolding(crate::specs::Readings::next_seen))]
    pub fn hear(&mut self, packet: &Packet) -> Result<(), AllocError>
        ensures stands { OnOk result (Stands self.old (Hears packet.now) self.new) }
        ensures after { OnOk result (self.new ≡ after self.old (Hears packet.now)) }
        ensures err { OnErr result (self.new ≡ self.old) }
    {
        self.hear_packet(packet)?;
        Ok(())
    }

    #[tactic(auto, unfolding(crate::specs::Readings::after_packet))]
    fn hear_packet(&mut self, packet: &Packet) -> Result<(), AllocError>
        ensures heard { OnOk result (self.new ≡ record self.old { seen = after_packet self.old.maps self.old.place.attempt self.old.seen packet.now }) }
        ensures err { OnErr result (self.new ≡ self.old) }
    {
        match packet {
            Packet::MapReady {
                map,
                attempt,
                node,
                incarnation,
            } => self.hear_ready(*map, *attempt, *node, *incarnation),
            Packet::Piece {
                attempt,
                reduce,
                offset,
                total,
                bytes,
            } => self.hear_piece(attempt, *reduce, *offset, *total, bytes)?,
            Packet::FetchLost {
                container: _,
                attempt,
            } => self.hear_lost(*attempt),
            Packet::Answer { attempt, yes } => self.hear_answer(attempt, *yes),
            Packet::DoneAck { attempt } => self.hear_ack(attempt),
            _ => {}
        }
        Ok(())
    }

    fn hear_ready(&mut self, map: u32, a: AttemptId, node: u32, incarnation: u32)
        ensures { self.new ≡ record self.old { seen = after_ready self.old.seen map a node incarnation } }
    {
        if self.wish.asks_where(map) {
            self.wish = Wish::Fetch {
                a,
                node,
                incarnation,
            };
        }
    }

    fn hear_piece(
        &mut self,
        a: &AttemptId,
        reduce: u32,
        offset: u64,
        total: u64,
        bytes: &Bytes,
    ) -> Result<(), AllocError>
        ensures ok { OnOk result (self.new ≡ record self.old { seen = after_piece self.old.maps self.old.place.attempt self.old.seen a.now reduce offset total bytes.now }) }
        ensures err { OnErr result (self.new ≡ self.old) }
    {
        if !self.awaits(a, reduce, offset) {
            return Ok(());
        }
        if self.pieces.take(total, bytes)? {
            self.wish = ask_next(self.maps, self.pieces.count());
        }
        Ok(())
    }

    fn awaits(&self, a: &AttemptId, reduce: u32, offset: u64) -> bool
        ensures { result ≡ is_awaited self.now.place.attempt self.now.seen a.now reduce offset }
    {
        self.wish.fetches(a)
            && reduce == self.place.attempt.task().number
            && offset == self.pieces.got_len() as u64
    }

    fn hear_lost(&mut self, a: AttemptId)
        ensures { self.new ≡ record self.old { seen = after_lost self.old.seen a } }
    {
        if self.wish.fetches(&a) {
            self.wish = Wish::Lost { a };
            self.pieces.drop_got();
        }
    }

    fn hear_answer(&mut self, a: &AttemptId, is_yes: bool)
        ensures { self.new ≡ record self.old { seen = after_answer self.old.place.attempt self.old.seen a.now is_yes } }
    {
        if is_same(&self.place.attempt, a) {
            self.wish = self.wish.answered(is_yes);
        }
    }

    fn hear_ack(&mut self, a: &AttemptId)
        ensures { self.new ≡ record self.old { seen = after_ack self.old.place.attempt self.old.seen a.now } }
    {
        if self.wish.is_reporting() && is_same(&self.place.attempt, a) {
            self.wish = Wish::Over;
        }
    }

    /// Sends the packet that it wishes to send, if its wish is one. If that was its last, `Ended` follows it. The room
    /// is the bag's.
    #[tactic(auto, unfolding(crate::specs::Readings::next_seen))]
    pub fn send(&mut self, bag: &mut Bag)
        requires room { 1 < bag.old.spare }
        requires few { length bag.old.packets + 1 < 1000000 }
        ensures bag { bag.new.packets ≡ bag.old.packets ++ step_packets self.old.maps self.old.id self.old.place.attempt self.old.seen }
        ensures after { (e : Envelope) → wished_packet self.old.id self.old.place.attempt self.old.seen self.old.seen.wish ≡ Some e → self.new ≡ after self.old (Sends e.body) }
        // A place for each packet that was put; where its wish is no packet, none.
        ensures spare { bag.old.spare ≡ bag.new.spare + length (step_packets self.old.maps self.old.id self.old.place.attempt self.old.seen) }
        // Where its wish is no packet, nothing changes.
        ensures none { wished_packet self.old.id self.old.place.attempt self.old.seen self.old.seen.wish ≡ None → self.new ≡ self.old }
    {
        if let Some(envelope) = self.packet() {
            bag.push_reserved(envelope);
            self.sent();
            self.tell_end(bag);
        }
    }

    /// If it came to its end, its master is told so. It is called once for a container that ended: by `send`, and by whoever delivers a packet
    /// to it, after `hear`. The room is the bag's.
    pub fn tell_end(&self, bag: &mut Bag)
        requires room { 0 < bag.old.spare }
        requires few { length bag.old.packets < 1000000 }
        ensures bag { bag.new.packets ≡ bag.old.packets ++ end_of self.now.id self.now.seen.wish }
        ensures spare { bag.old.spare ≡ bag.new.spare + length (end_of self.now.id self.now.seen.wish) }
    {
        if let Wish::Over = self.wish {
            bag.push_reserved(self.to_master(Packet::Ended { container: self.id }));
        }
    }

    /// The packet that it wished to send was sent.
    #[tactic(auto, unfolding(crate::specs::Readings::next_seen))]
    pub fn sent(&mut self)
        ensures stands { (packet : Packet) → Stands self.old (Sends packet) self.new }
        ensures after { (packet : Packet) → self.new ≡ after self.old (Sends packet) }
    {
        self.note_sent();
    }

    fn note_sent(&mut self)
        ensures { self.new ≡ record self.old { seen = with_wish self.old.seen (wish_sent self.old.maps self.old.seen.pieces.blocks self.old.seen.wish) } }
    {
        match self.wish {
            Wish::Lost { .. } => self.wish = ask_next(self.maps, self.pieces.count()),
            Wish::Failed => self.wish = Wish::Over,
            _ => {}
        }
    }

    /// The namespace call that it wished to make was answered so.
    ///
    /// An allocation failure, or a limit of the namespace that refuses a whole event, is no answer of a call. It is not
    /// handed in: it would be taken for a refusal, and the attempt be aborted.
    #[tactic(auto, unfolding(crate::specs::Readings::next_seen))]
    pub fn on(&mut self, reply: Reply)
        ensures stands { (op : Op) → Stands self.old (Calls op reply) self.new }
        ensures after { (op : Op) → self.new ≡ after self.old (Calls op reply) }
    {
        self.note_reply(&reply);
    }

    fn note_reply(&mut self, reply: &Reply)
        ensures { self.new ≡ record self.old { seen = with_wish self.old.seen (wish_called self.old.seen.wish reply.now) } }
    {
        self.wish = self.wish.called(reply);
    }

    /// Its bytes are handed in. Those of a reduce are kept, to be written; those of a map are let go, since they lie on its node's shelf.
    /// At another wish than to compute it does nothing.
    #[tactic(auto, unfolding(crate::specs::Readings::next_seen))]
    pub fn computed(&mut self, bytes: Bytes)
        ensures stands { Stands self.old (Computes bytes) self.new }
        ensures after { self.new ≡ after self.old (Computes bytes) }
        // Of a map it does not matter which bytes they are: they are not kept.
        ensures of_map { self.old.place.attempt.task.kind ≡ Map → (others : List ℕ) → self.new ≡ after self.old (Computes others) }
    {
        self.note_bytes(bytes);
    }

    fn note_bytes(&mut self, bytes: Bytes)
        ensures { self.new ≡ record self.old { seen = after_bytes self.old.place.attempt self.old.seen bytes } }
    {
        if self.wish.is_computing() {
            match self.place.attempt.task().kind {
                TaskKind::Map => self.wish = Wish::Report,
                TaskKind::Reduce => {
                    self.wish = Wish::Mkdirs;
                    self.result = bytes;
                }
            }
        }
    }

    /// An equal machine. It may allocate, and refuses nothing else.
    pub fn copy(&self) -> Result<ContainerMachine, AllocError>
        ensures { IfOk result (λ machine. machine ≡ self.now) }
    {
        Ok(ContainerMachine {
            id: self.id,
            place: self.place,
            maps: self.maps,
            wish: self.wish,
            pieces: self.pieces.copy()?,
            result: self.result.copy()?,
        })
    }
}

impl Clone for ContainerMachine {
    ghost is_clone = { λ a b. b ≡ a };

    fn clone(&self) -> Result<ContainerMachine, AllocError> {
        self.copy()
    }
}

fn first_wish(kind: TaskKind, maps: u32) -> Wish
    ensures { result ≡ first_wish maps kind }
{
    match kind {
        TaskKind::Map => Wish::Compute,
        TaskKind::Reduce => ask_next(maps, 0),
    }
}

// The wish after `count` blocks were fetched.
fn ask_next(maps: u32, count: usize) -> Wish
    ensures next { (blocks : List (List ℕ)) → length blocks ≡ count → result ≡ ask_next maps blocks }
    ensures first { count ≡ 0 → result ≡ ask_next maps [] }
{
    if count < maps as usize {
        Wish::Where { map: count as u32 }
    } else {
        Wish::Compute
    }
}

// A length as a packet tells it.
#[tactic(auto, unfolding(crate::specs::Wished::told_length))]
fn told_length(len: usize) -> u32
    ensures { result ≡ told_length len }
{
    if len < 4_294_967_296 {
        len as u32
    } else {
        u32::MAX
    }
}
