//! By which number runs are looked up that may be like each other.
ghost use Rattle.std.specs.Prelude.{IfErr};
ghost use Rattle.mr_explore_search.specs.Steps.{IsNotFull};

use crate::digest::Digest;
use crate::packets::asking_last;
use mr_container::Wish;
use mr_explore::{Explored, Fault};
use mr_explore_search::WalkFault;
use mr_master_model::DutyName;
use mr_packet::{Address, ContainerId, Envelope, Packet};
use mr_play::Player;
use mr_play::mr_world::World;

// 2 ^ 64 divided by the golden ratio: it spreads what is multiplied by it.
const SPREAD: u64 = 0x9E37_79B9_7F4A_7C15;

/// A number that runs which are like each other mostly share, where the same came to both, and others mostly do not. Its only fault is an allocation failure.
pub fn mark(run: &Explored, owed: &[Fault]) -> Result<u64, WalkFault>
    ensures fault { IfErr result IsNotFull }
{
    mark_with(run, Digest::new(), owed)
}

/// The same, where this is told by its first events.
pub fn mark_with(run: &Explored, digest: Digest, owed: &[Fault]) -> Result<u64, WalkFault>
    ensures fault { IfErr result IsNotFull }
{
    let player = run.player();
    let so_far = of_packets(player, owed.len() as u64);
    let so_far = of_numbers(so_far, digest.of_all(&player.world).numbers());
    let so_far = of_master(&player.world, so_far)?;
    of_living(&player.world, so_far)
}

// One number more.
fn mix(so_far: u64, number: u64) -> u64 {
    (so_far ^ number).wrapping_mul(SPREAD).rotate_left(23)
}

// Numbers more.
fn of_numbers(first: u64, numbers: [u64; 3]) -> u64 {
    let [one, other, last] = numbers;
    mix(mix(mix(first, one), other), last)
}

// What is ahead, who stepped last, and how many packets lie last that only ask.
fn of_packets(player: &Player, first: u64) -> u64 {
    let bag = player.world.bag();
    let mut so_far = mix(first, asking_last(bag) as u64);
    if let Some(container) = player.stepped() {
        so_far = of_container(so_far, &container);
    }
    for place in player.cursor()..bag.len() {
        so_far = of_packet(so_far, &bag[place]);
    }
    so_far
}

fn of_container(so_far: u64, container: &ContainerId) -> u64 {
    let generation = u64::from(container.app.number());
    mix(mix(so_far, generation), u64::from(container.number))
}

/// What is told, and to whom.
pub fn of_packet(so_far: u64, packet: &Envelope) -> u64 {
    let so_far = match &packet.to {
        Address::Master(app) => mix(so_far, u64::from(app.number())),
        Address::Container(container) => of_container(so_far, container),
        Address::Node(node) => mix(so_far, u64::from(*node)),
    };
    mix(so_far, number_of(&packet.body))
}

fn number_of(packet: &Packet) -> u64 {
    match packet {
        Packet::Launch { .. } => 1,
        Packet::Kill { .. } => 2,
        Packet::Fetch { .. } => 3,
        Packet::Won { .. } => 4,
        Packet::Outcome { .. } => 5,
        Packet::Pending { .. } => 6,
        Packet::Poll { .. } => 7,
        Packet::Done { .. } => 8,
        Packet::Failed { .. } => 9,
        Packet::Ended { .. } => 10,
        Packet::NodeUp { .. } => 11,
        Packet::Where { .. } => 12,
        Packet::FetchLost { .. } => 13,
        Packet::Answer { .. } => 14,
        Packet::DoneAck { .. } => 15,
        Packet::MapReady { .. } => 16,
        Packet::Piece { .. } => 17,
    }
}

// How far the newest master is, and the histories of all.
fn of_master(world: &World, first: u64) -> Result<u64, WalkFault>
    ensures fault { IfErr result IsNotFull }
{
    let newest = world.newest();
    let mut so_far = mix(first, u64::from(newest));
    if let Some(bytes) = world.unflushed(newest) {
        so_far = mix(so_far, bytes as u64);
    }
    if let Some(task) = world.wanted(newest) {
        so_far = mix(so_far, u64::from(task.number));
    }
    if let Some(succeeded) = world.outcome() {
        so_far = mix(so_far, u64::from(succeeded));
    }
    for k in 0..u64::from(newest) + 1 {
        so_far = of_segment(so_far, world.stable(k as u32));
    }
    match world.duty(newest) {
        Ok(duty) => Ok(mix(so_far, number_of_duty(duty))),
        Err(_fault) => Err(WalkFault::NoMemory),
    }
}

// What its next store call is for.
fn number_of_duty(duty: Option<DutyName>) -> u64 {
    match duty {
        None => 0,
        Some(DutyName::Marks) => 1,
        Some(DutyName::Read) => 2,
        Some(DutyName::Setup) => 3,
        Some(DutyName::Recover) => 4,
        Some(DutyName::Bar) => 5,
        Some(DutyName::Append) => 6,
        Some(DutyName::Flush) => 7,
        Some(DutyName::Started) => 8,
        Some(DutyName::Merge) => 9,
        Some(DutyName::Cleanup) => 10,
        Some(DutyName::Marker) => 11,
        Some(DutyName::Success) => 12,
        Some(DutyName::Fail) => 13,
        Some(DutyName::Abort) => 14,
    }
}

// How long it is, and the sum of its bytes: another attempt changes that, and to add is all that it takes.
fn of_segment(first: u64, bytes: &[u8]) -> u64 {
    let mut sum: u64 = 0;
    for byte in bytes {
        sum = sum.wrapping_add(u64::from(*byte));
    }
    mix(mix(first, bytes.len() as u64), sum)
}

// Who lives, and what each wishes to do.
fn of_living(world: &World, first: u64) -> Result<u64, WalkFault>
    ensures fault { IfErr result IsNotFull }
{
    match world.living() {
        Ok(living) => Ok(of_wishes(world, first, &living)),
        Err(_) => Err(WalkFault::NoMemory),
    }
}

fn of_wishes(world: &World, first: u64, living: &[ContainerId]) -> u64 {
    let mut so_far = first;
    for container in living {
        so_far = of_container(so_far, container);
        if let Some(wish) = world.wish(container) {
            so_far = mix(so_far, number_of_wish(&wish));
        }
    }
    so_far
}

fn number_of_wish(wish: &Wish) -> u64 {
    match wish {
        Wish::Where { map } => 100 + u64::from(*map),
        Wish::Fetch { .. } => 1,
        Wish::Lost { .. } => 2,
        Wish::Compute => 3,
        Wish::Mkdirs => 4,
        Wish::Create => 5,
        Wish::Write => 6,
        Wish::Close => 7,
        Wish::Needs => 8,
        Wish::Pending => 9,
        Wish::Poll => 10,
        Wish::Look => 11,
        Wish::Clear => 12,
        _ => 13,
    }
}
