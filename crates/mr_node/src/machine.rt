//! The machine of a node: which containers it launched or was asked to kill, the map outputs on its shelf, and what it does for a packet. For whoever runs nodes.
ghost use Rattle.std.specs.Prelude.{◌≡◌, ◌↔◌, ◌<◌, ◌≤◌, ◌+◌, [], ◌∷◌, IfOk, OnOk, OnErr, IsTrue, length, take, drop, Bool, false};
ghost use Rattle.mr_node.specs.Past.{Hears, Shelves, Ends, Restarts};
ghost use Rattle.mr_ids.specs.Attempt.{Attempt};
ghost use Rattle.mr_ids.specs.declared.id.TaskId.{TaskId};
ghost use Rattle.mr_node.specs.Readings.{opening, with_shelved, restarted, after_launch, after_packet, reaction, launched, fetched, up, lost, piece_of, piece_limit};
ghost use Rattle.mr_packet.specs.Sends.{ended};
ghost use Rattle.mr_packet.specs.Same.{has};
ghost use Rattle.mr_node.specs.State.{StandsFor, Stands, after};

use crate::known::Known;
use crate::reaction::Reaction;
use mr_ids::{AppAttempt, AttemptId};
use mr_mapside::MapOutput;
use mr_packet::{Address, Bytes, ContainerId, Envelope, Packet};
use mr_shuffle::ShelfOfNode;
use std::alloc::{AllocError, Global};
use std::marker::Model;

/// Most bytes of a piece (own profile).
pub const MAX_PIECE_LEN: usize = 65_536;

/// One node: which incarnation it runs in, which containers it knows, what lies on its shelf.
///
/// Its living containers are not kept here. The machine tells what a packet makes the node do: whether a container begins to
/// live, and which packet is added. It remembers each container that it launched or was asked to kill, over restarts, so that no
/// launch that comes late or twice is obeyed.
///
/// That a node launches, kills and serves map outputs to reduces is Hadoop's node manager with its shuffle handler.
/// That a lost node's map outputs are lost is Dean and Ghemawat 2004, section 3.3. Incarnations and what is remembered
/// over restarts are own profile.
pub struct NodeMachine {
    alloc: Global,
    number: u32,
    incarnation: u32,
    known: Known,
    shelf: ShelfOfNode,
}

// Written by hand, so that the check takes the drop of a node as one call. A derived drop it takes apart at each place where one is
// dropped.
impl Drop for NodeMachine {
    fn drop(self) {
        let NodeMachine {
            alloc: _,
            number: _,
            incarnation: _,
            known: _,
            shelf: _,
        } = self;
    }
}

impl Model for NodeMachine {
    ghost use Rattle.mr_node.specs.State.{Node, node_code};

    ghost Value = { Node };

    ghost coded = { node_code };

    ghost view = { λ m. record { number = m.number; seen = record { incarnation = m.incarnation; known = m.known; shelf = m.shelf } } };
}

impl NodeMachine {
    /// A node that begins, in its first incarnation.
    pub fn new(alloc: Global, number: u32, reduces: u32) -> NodeMachine
        ensures stands { StandsFor result number reduces [] }
        ensures made { result ≡ record { number = number; seen = opening reduces } }
    {
        NodeMachine::open(alloc, number, reduces)
    }

    fn open(alloc: Global, number: u32, reduces: u32) -> NodeMachine
        ensures { result ≡ record { number = number; seen = opening reduces } }
    {
        NodeMachine {
            alloc,
            number,
            incarnation: 1,
            known: Known::new(alloc),
            shelf: ShelfOfNode::new(alloc, reduces),
        }
    }

    /// The node's number.
    pub fn number(&self) -> u32
        ensures { result ≡ self.now.number }
    {
        self.number
    }

    /// The incarnation that it runs in.
    pub fn incarnation(&self) -> u32
        ensures { result ≡ self.now.seen.incarnation }
    {
        self.incarnation
    }

    /// Whether it launched this container or was asked to kill it, in whichever incarnation.
    pub fn knows(&self, c: &ContainerId) -> bool
        ensures { result ≡ has self.now.seen.known c.now }
    {
        self.known.has(c)
    }

    /// It is asked to launch a container for an attempt, in this incarnation. A container that it knows is not launched, and one for another
    /// incarnation is not either: then the container's master is told of the node's.
    ///
    /// It may allocate where the launch is obeyed; where that is refused nothing changes, and nothing else is refused.
    #[tactic(auto, unfolding(crate::specs::Readings::next_seen))]
    pub fn launch(
        &mut self,
        c: ContainerId,
        a: AttemptId,
        incarnation: u32,
    ) -> Result<Reaction, AllocError>
        ensures reaction { IfOk result (λ r. r ≡ launched self.old.number self.old.seen c a incarnation) }
        ensures stands { OnOk result (Stands self.old (Hears (Packet.Launch c a incarnation)) self.new) }
        ensures after { OnOk result (self.new ≡ after self.old (Hears (Packet.Launch c a incarnation))) }
        ensures err { OnErr result (self.new ≡ self.old) }
        ensures memory { OnErr result (has self.old.seen.known c ≡ false) }
    {
        let reaction = self.note_launch(c, a, incarnation)?;
        Ok(reaction)
    }

    fn note_launch(
        &mut self,
        c: ContainerId,
        a: AttemptId,
        incarnation: u32,
    ) -> Result<Reaction, AllocError>
        ensures reaction { IfOk result (λ r. r ≡ launched self.old.number self.old.seen c a incarnation) }
        ensures seen { OnOk result (self.new ≡ record { number = self.old.number; seen = after_launch self.old.seen c incarnation }) }
        ensures err { OnErr result (self.new ≡ self.old) }
        ensures memory { OnErr result (has self.old.seen.known c ≡ false) }
    {
        if self.known.has(&c) {
            return Ok(Reaction::Nothing);
        }
        if incarnation != self.incarnation {
            return Ok(Reaction::Adds(self.up(c.app)));
        }
        let starts = starts(&c, a);
        self.known.add(c)?;
        Ok(starts)
    }

    /// It is asked to end a container. Whether it lived or not, or never was launched, one `Ended` is added, and it is known.
    ///
    /// It may allocate where it does not know the container; where that is refused nothing changes, and nothing else is refused.
    #[tactic(auto, unfolding(crate::specs::Readings::next_seen))]
    pub fn kill(&mut self, c: ContainerId) -> Result<Envelope, AllocError>
        ensures added { IfOk result (λ envelope. envelope ≡ ended c) }
        ensures stands { OnOk result (Stands self.old (Hears (Packet.Kill c)) self.new) }
        ensures after { OnOk result (self.new ≡ after self.old (Hears (Packet.Kill c))) }
        ensures err { OnErr result (self.new ≡ self.old) }
        ensures memory { OnErr result (has self.old.seen.known c ≡ false) }
    {
        let ended = self.note_kill(c)?;
        Ok(ended)
    }

    fn note_kill(&mut self, c: ContainerId) -> Result<Envelope, AllocError>
        ensures added { IfOk result (λ envelope. envelope ≡ ended c) }
        ensures seen { OnOk result (self.new ≡ record { number = self.old.number; seen = after_packet self.old.seen (Packet.Kill c) }) }
        ensures err { OnErr result (self.new ≡ self.old) }
        ensures memory { OnErr result (has self.old.seen.known c ≡ false) }
    {
        let ended = ended(&c);
        self.known.add(c)?;
        Ok(ended)
    }

    /// The packet of a container's end, for whatever reason but a restart of the node.
    pub fn died(&self, c: ContainerId) -> Envelope
        ensures added { result ≡ ended c }
        ensures stands { Stands self.now (Ends c) self.now }
    {
        ended(&c)
    }

    /// It is told of a winner (`Won`) or of the outcome, which makes it do nothing.
    pub fn told(&self)
        ensures won { (t : TaskId) (a : Attempt) → Stands self.now (Hears (Packet.Won t a)) self.now }
        ensures outcome { (succeeded : Bool) → Stands self.now (Hears (Packet.Outcome succeeded)) self.now }
    {}

    /// The packet by which a master is told of the node's incarnation.
    pub fn up(&self, master: AppAttempt) -> Envelope
        ensures { result ≡ up self.now.number self.now.seen.incarnation master }
    {
        Envelope {
            to: Address::Master(master),
            body: Packet::NodeUp {
                node: self.number,
                incarnation: self.incarnation,
            },
        }
    }

    /// What is answered to a container that wants the block of a reduce in an attempt's output, from an offset in bytes
    /// on. It is at most `MAX_PIECE_LEN` bytes of it, with the block's length. `FetchLost` where the incarnation is not
    /// the node's own, the output is not on its shelf, or the offset is above the block's length.
    ///
    /// It may allocate for the bytes, and refuses nothing else. It changes nothing. No byte is copied.
    pub fn fetch(
        &self,
        c: ContainerId,
        a: AttemptId,
        reduce: u32,
        incarnation: u32,
        offset: u64,
    ) -> Result<Envelope, AllocError>
        ensures added { IfOk result (λ envelope. envelope ≡ fetched self.now.seen c a reduce incarnation offset) }
        ensures stands { Stands self.now (Hears (Packet.Fetch c a reduce incarnation offset)) self.now }
    {
        self.fetch_piece(c, a, reduce, incarnation, offset)
    }

    fn fetch_piece(
        &self,
        c: ContainerId,
        a: AttemptId,
        reduce: u32,
        incarnation: u32,
        offset: u64,
    ) -> Result<Envelope, AllocError>
        ensures { IfOk result (λ envelope. envelope ≡ fetched self.now.seen c a reduce incarnation offset) }
    {
        if incarnation != self.incarnation {
            return Ok(lost(&c, a));
        }
        match self.shelf.share(a, reduce)? {
            Some(block) => piece(c, a, reduce, offset, &block),
            None => Ok(lost(&c, a)),
        }
    }

    /// Hears a packet that is addressed to the node: what it makes the node do, by `launch`, `kill` or `fetch`. All others, `Won`
    /// and `Outcome` among them, make it do nothing.
    ///
    /// It may allocate; where that is refused nothing changes, and nothing else is refused.
    #[tactic(auto, unfolding(crate::specs::Readings::next_seen))]
    pub fn hear(&mut self, packet: &Packet) -> Result<Reaction, AllocError>
        ensures reaction { IfOk result (λ r. r ≡ reaction self.old.number self.old.seen packet.now) }
        ensures stands { OnOk result (Stands self.old (Hears packet.now) self.new) }
        ensures after { OnOk result (self.new ≡ after self.old (Hears packet.now)) }
        ensures err { OnErr result (self.new ≡ self.old) }
    {
        let reaction = self.hear_packet(packet)?;
        Ok(reaction)
    }

    #[tactic(auto, unfolding(crate::specs::Readings::reaction))]
    fn hear_packet(&mut self, packet: &Packet) -> Result<Reaction, AllocError>
        ensures reaction { IfOk result (λ r. r ≡ reaction self.old.number self.old.seen packet.now) }
        ensures heard { OnOk result (self.new ≡ record { number = self.old.number; seen = after_packet self.old.seen packet.now }) }
        ensures err { OnErr result (self.new ≡ self.old) }
    {
        Ok(match packet {
            Packet::Launch {
                container,
                attempt,
                incarnation,
            } => self.note_launch(*container, *attempt, *incarnation)?,
            Packet::Kill { container } => Reaction::Adds(self.note_kill(*container)?),
            Packet::Fetch {
                container,
                attempt,
                reduce,
                incarnation,
                offset,
            } => Reaction::Adds(self.fetch_piece(
                *container,
                *attempt,
                *reduce,
                *incarnation,
                *offset,
            )?),
            _ => Reaction::Nothing,
        })
    }

    /// The output of a map attempt that ran here is put on the shelf.
    ///
    /// It may allocate; where that is refused nothing changes, and nothing else is refused. The output is dropped then.
    #[tactic(auto, unfolding(crate::specs::Readings::next_seen))]
    pub fn put(&mut self, a: AttemptId, output: MapOutput) -> Result<(), AllocError>
        ensures stands { OnOk result (Stands self.old (Shelves a output) self.new) }
        ensures after { OnOk result (self.new ≡ after self.old (Shelves a output)) }
        ensures err { OnErr result (self.new ≡ self.old) }
    {
        self.put_output(a, output)?;
        Ok(())
    }

    fn put_output(&mut self, a: AttemptId, output: MapOutput) -> Result<(), AllocError>
        ensures ok { OnOk result (self.new ≡ record { number = self.old.number; seen = with_shelved self.old.seen a output }) }
        ensures err { OnErr result (self.new ≡ self.old) }
    {
        self.shelf.put(a, output)
    }

    /// Begins anew: in the next incarnation, with an empty shelf. Which containers it knows stays.
    ///
    /// Whoever runs it lets its containers end without a packet, and adds `up` for each living master.
    #[tactic(auto, unfolding(crate::specs::Readings::next_seen))]
    pub fn restart(&mut self)
        requires { self.old.seen.incarnation < 4294967295 }
        ensures stands { Stands self.old Restarts self.new }
        ensures after { self.new ≡ after self.old Restarts }
    {
        self.begin_anew();
    }

    fn begin_anew(&mut self)
        requires { self.old.seen.incarnation < 4294967295 }
        ensures { self.new ≡ record { number = self.old.number; seen = restarted self.old.seen } }
    {
        self.incarnation += 1;
        self.shelf.drop_all();
    }

    /// An equal machine. It may allocate, and refuses nothing else.
    pub fn copy(&self) -> Result<NodeMachine, AllocError>
        ensures { IfOk result (λ machine. machine ≡ self.now) }
    {
        Ok(NodeMachine {
            alloc: self.alloc,
            number: self.number,
            incarnation: self.incarnation,
            known: self.known.copy()?,
            shelf: self.shelf.copy()?,
        })
    }

    /// Whether both hold the same: the number, the incarnation, the containers that they know, in their order of
    /// arrival, and what lies on the shelf.
    #[tactic(auto, using(crate::proofs::Comparing::shelves_left, crate::proofs::Comparing::other_number, crate::proofs::Comparing::other_incarnation))]
    pub fn is_same(&self, other: &NodeMachine) -> bool
        ensures { IsTrue result ↔ (self.now ≡ other.now) }
    {
        self.number == other.number
            && self.incarnation == other.incarnation
            && self.known.is_same(&other.known)
            && self.shelf.is_same(&other.shelf)
    }
}

fn lost(c: &ContainerId, a: AttemptId) -> Envelope
    ensures { result ≡ lost c.now a }
{
    Envelope {
        to: Address::Container(*c),
        body: Packet::FetchLost {
            container: *c,
            attempt: a,
        },
    }
}

fn starts(c: &ContainerId, a: AttemptId) -> Reaction
    ensures { result ≡ Reaction.Starts c.now a }
{
    Reaction::Starts { c: *c, a }
}

fn ended(c: &ContainerId) -> Envelope
    ensures { result ≡ ended c.now }
{
    Envelope {
        to: Address::Master(c.app),
        body: Packet::Ended { container: *c },
    }
}

// A block from an offset on.
fn piece(
    c: ContainerId,
    a: AttemptId,
    reduce: u32,
    offset: u64,
    block: &Bytes,
) -> Result<Envelope, AllocError>
    ensures { IfOk result (λ envelope. envelope ≡ piece_of c a reduce offset block.now) }
{
    let total = block.len();
    if offset > total as u64 {
        return Ok(lost(&c, a));
    }
    let bytes = cut_piece(block, offset as usize)?;
    Ok(Envelope {
        to: Address::Container(c),
        body: Packet::Piece {
            attempt: a,
            reduce,
            offset,
            total: total as u64,
            bytes,
        },
    })
}

#[tactic(auto, unfolding(crate::specs::Readings::piece_limit))]
fn max_piece_len() -> usize
    ensures { result ≡ piece_limit }
{
    MAX_PIECE_LEN
}

// What a piece holds of a block, from a byte on.
#[tactic(auto, using(crate::proofs::Taking::front_taken, crate::proofs::Taking::rest_taken))]
fn cut_piece(block: &Bytes, start: usize) -> Result<Bytes, AllocError>
    requires { start ≤ length block.now }
    ensures { IfOk result (λ bytes. bytes ≡ take piece_limit (drop start block.now)) }
{
    let most = max_piece_len();
    if block.len() - start > most {
        block.part(start, start + most)
    } else {
        block.part(start, block.len())
    }
}
