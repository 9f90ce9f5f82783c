//! What is told to the first master, row by row, and how much it sends for that.

use crate::masters::{MAP, REDUCE, attempt, container};
use mr_master::MasterMachine;
use mr_packet::{Envelope, Packet};
use std::process::Abort;

/// What is told to it, of the attempt at the reduce or the container of a number.
#[derive(Clone, Copy, Debug)]
pub enum Told {
    Pending,
    Poll,
    /// With 4 bytes.
    Done,
    Failed,
    Ended,
    /// Where the map's output is.
    Where,
    FetchLost,
    /// That the attempt of this number at the map is done.
    MapDone,
    /// That node 0 runs, in the incarnation of this number.
    NodeUp,
}

/// What is told, of which number, and how many packets are sent for it.
pub type Row = (Told, u32, usize);

/// The master hears of all this in turn, and sends so much.
pub fn hears(rt: &impl Abort, master: &mut MasterMachine, rows: &[Row]) {
    for row in rows {
        let (told, number, count) = *row;
        let sent = heard(rt, master, told, number);
        confirm!(rt; sent.len() == count, row);
        drop(sent);
    }
}

/// The master hears of this. Gives the packets that are sent for it.
pub fn heard(
    rt: &impl Abort,
    master: &mut MasterMachine,
    told: Told,
    number: u32,
) -> Vec<Envelope> {
    let packet = packet(rt, told, number);
    master.hear(&packet).expect(rt, "no memory")
}

/// Whether that leaves the master as it is, and nothing is sent for it.
pub fn leaves(rt: &impl Abort, master: &MasterMachine, told: Told, number: u32) -> bool {
    let packet = packet(rt, told, number);
    let prepared = master.prepare_packet(&packet).expect(rt, "no memory");
    let leaves = master.is_left_by(&prepared);
    drop(prepared);
    leaves
}

// The packet that tells it.
fn packet(rt: &impl Abort, told: Told, number: u32) -> Packet {
    let c = container(rt, number);
    let a = attempt(rt, REDUCE, number);
    match told {
        Told::Pending => Packet::Pending { attempt: a },
        Told::Poll => Packet::Poll { attempt: a },
        Told::Done => Packet::Done {
            attempt: a,
            bytes: Some(4),
        },
        Told::Failed => Packet::Failed { attempt: a },
        Told::Ended => Packet::Ended { container: c },
        Told::Where => Packet::Where {
            container: c,
            map: 0,
        },
        Told::FetchLost => Packet::FetchLost {
            container: c,
            attempt: a,
        },
        Told::MapDone => Packet::Done {
            attempt: attempt(rt, MAP, number),
            bytes: None,
        },
        Told::NodeUp => Packet::NodeUp {
            node: 0,
            incarnation: number,
        },
    }
}
