//! A run as a drawing: its lanes, rows and arrows, apart from how they are written.
use crate::part::Part;
use mr_ids::AppAttempt;
use mr_packet::{Address, ContainerId};

/// Where the life of a lane begins.
#[derive(Clone, Copy, Debug, PartialEq, Eq)]
pub enum Begin {
    /// Before the rows that are drawn.
    Before,
    /// In this row.
    At(usize),
}

/// How the life of a lane ends.
#[derive(Clone, Copy, Debug, PartialEq, Eq)]
pub enum End {
    /// It came to its end by itself.
    Over,
    /// It was ended: by a crash, a death, a kill or a restart of its node.
    Died,
}

/// A master, a node or a container, from the row in which it begins to the row in which it ends.
#[derive(Drop)]
pub struct Lane {
    /// Who it is.
    pub who: Address,
    /// Its name, for the head of the lane.
    pub name: Vec<u8>,
    /// The attempt that a container runs, without its job; else nothing.
    pub attempt: Vec<u8>,
    /// Where it begins.
    pub begins: Option<Begin>,
    /// The row in which it ends, and how.
    pub ends: Option<(usize, End)>,
}

/// What an event shows of itself in its row.
#[derive(Clone, Copy, Debug, PartialEq, Eq)]
pub enum Sign {
    /// An event as any other.
    Dot,
    /// A master starts.
    Start,
    /// A master crashes.
    Crash,
    /// A container dies.
    Death,
    /// A node restarts.
    Restart,
    /// A master gives a node up.
    Expiry,
    /// A container hears that its attempt may commit.
    Permission,
    /// An attempt's output becomes its task's.
    TaskCommit,
    /// A success is stable: a reduce has its winner.
    Winner,
    /// The job commit begins.
    JobCommit,
    /// The success marker is there.
    Marker,
    /// It is told that the job succeeded.
    Success,
    /// It is told that the job failed.
    Failure,
    /// A call of a container was refused, or not answered: its attempt aborts.
    Refusal,
    /// A master stops: a call of it was refused, or not answered.
    Stop,
}

/// An event, or parts of fetches that follow one another.
#[derive(Drop)]
pub struct Row {
    /// The place of the event, or of the first one, in the journal.
    pub event: usize,
    /// How many events it shows.
    pub events: usize,
    /// The lane of the one who acts.
    pub lane: Option<usize>,
    /// The lane of the node that is given up.
    pub other: Option<usize>,
    /// The event in the words of a script, with the name of the duty or the wish.
    pub words: Vec<u8>,
    /// What stands beside its sign in the lane.
    pub label: Vec<u8>,
    /// Whether that stands on the left, since the packet came from the right.
    pub leftwards: bool,
    /// What stands out of it.
    pub note: Vec<u8>,
    /// The store call with its answer, or the packet that is delivered.
    pub detail: Vec<u8>,
    /// Its sign.
    pub sign: Sign,
}

/// What an arrow shows of its packet.
#[derive(Clone, Copy, Debug, PartialEq, Eq)]
pub enum Tone {
    /// A packet as any other.
    Plain,
    /// Permission to commit.
    Yes,
    /// No permission to commit.
    No,
}

/// Where in a run a packet is sent.
#[derive(Clone, Copy, Debug, PartialEq, Eq)]
pub enum Sending {
    /// Before the rows that are drawn, at this place of the journal.
    Before(usize),
    /// In this row.
    At(usize),
}

/// Where in a run a packet is delivered.
#[derive(Clone, Copy, Debug, PartialEq, Eq)]
pub enum Delivery {
    /// Before the rows that are drawn.
    Before,
    /// In this row.
    At(usize),
    /// Behind the rows that are drawn.
    Later,
    /// Nowhere.
    Never,
}

/// A packet: from which lane it was sent and where, to which lane it goes, and where it is delivered.
#[derive(Clone, Copy, Debug, PartialEq, Eq)]
pub struct Arrow {
    pub from: Option<usize>,
    pub sent: Sending,
    pub to: Option<usize>,
    pub delivery: Delivery,
    pub tone: Tone,
}

/// Events of a run that are not drawn.
#[derive(Drop)]
pub struct Rest {
    /// How many there are.
    pub count: usize,
    /// How many of each kind, in words.
    pub kinds: Vec<u8>,
}

/// A run as it is drawn.
#[derive(Drop)]
pub struct Drawing {
    /// The job's text.
    pub job: Vec<u8>,
    /// How many events the run has.
    pub events: usize,
    /// Masters, then nodes, then containers.
    pub lanes: Vec<Lane>,
    /// The events that are drawn, in order.
    pub rows: Vec<Row>,
    /// The packets that were sent before the end of the rows, in the order of their sending.
    pub arrows: Vec<Arrow>,
    /// Deliveries, in the rows, of packets that had been delivered before.
    pub repeats: Vec<Arrow>,
    /// Which part of the run was asked for.
    pub part: Part,
    /// The events before the rows.
    pub before: Rest,
    /// The events behind the rows.
    pub behind: Rest,
    /// What came of the whole run, a line each.
    pub ending: Vec<u8>,
}

/// The lane of a master, a node or a container.
pub fn lane_of(lanes: &[Lane], who: &Address) -> Option<usize> {
    lanes.iter().position(|lane| lane.who == *who)
}

/// The lane of the master of a generation.
pub fn master_lane(lanes: &[Lane], k: u32) -> Option<usize> {
    match AppAttempt::new(k) {
        Some(app) => lane_of(lanes, &Address::Master(app)),
        None => None,
    }
}

/// The lane of a container.
pub fn container_lane(lanes: &[Lane], c: &ContainerId) -> Option<usize> {
    lane_of(lanes, &Address::Container(*c))
}
