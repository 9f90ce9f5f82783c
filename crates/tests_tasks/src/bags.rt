//! The bag of packets, and bytes.

use crate::fixtures::{bytes_of, container, shows};
use mr_packet::{Address, Bag, BagFault, Bytes, Envelope, Packet};
use std::alloc::Global;
use std::process::Abort;

// A packet to the node of this number goes into the bag.
fn push(rt: &impl Abort, bag: &mut Bag, number: u32) {
    let kill = Envelope {
        to: Address::Node(number),
        body: Packet::Kill {
            container: container(rt, 0),
        },
    };
    bag.push(kill).expect(rt, "no memory");
}

#[test]
fn bag_grows(rt: HostRuntime) {
    let rt = &rt;
    let mut bag = Bag::new(rt.alloc());
    bag.reserve(2).expect(rt, "no memory");
    push(rt, &mut bag, 0);
    push(rt, &mut bag, 1);
    push(rt, &mut bag, 2);
    confirm_eq!(rt; bag.len(), 3);
    confirm_eq!(rt; bag.packets().len(), 3);
    confirm!(rt; bag.get(3).is_none());
    let last = bag.get(2).expect(rt, "no packet");
    confirm_eq!(rt; last.to, Address::Node(2));
    drop(bag);
}

// A bag with packets to the nodes of these numbers.
fn bag_of(rt: &impl Abort, alloc: Global, numbers: &[u32]) -> Bag {
    let mut bag = Bag::new(alloc);
    for number in numbers {
        push(rt, &mut bag, *number);
    }
    bag
}

// Two bags of one end: from their second packet on they are the same, from the first on they are not.
#[test]
fn bags_of_one_end(rt: HostRuntime) {
    let rt = &rt;
    let bag = bag_of(rt, rt.alloc(), &[0, 1, 2]);
    let other = bag_of(rt, rt.alloc(), &[1, 2]);
    confirm!(rt; bag.is_same_from(1, &other, 0));
    confirm!(rt; !bag.is_same_from(0, &other, 0));
    confirm!(rt; !bag.is_same_from(1, &other, 1));
    confirm!(rt; bag.is_same_from(3, &other, 5));
    drop(bag);
    drop(other);
}

// These are the bytes.
fn are(rt: &impl Abort, bytes: &Bytes, want: &[u8]) {
    confirm_eq!(rt; bytes.as_slice(), want);
}

// More bytes are added.
fn extend(rt: &impl Abort, bytes: &mut Bytes, more: &[u8]) {
    bytes.extend(more).expect(rt, "no memory")
}

fn append(rt: &impl Abort, bytes: &mut Bytes, more: &Bytes) {
    bytes.append(more).expect(rt, "no memory")
}

#[test]
fn bytes_are_added(rt: HostRuntime) {
    let rt = &rt;
    let mut bytes = bytes_of(rt, rt.alloc(), b"ab");
    extend(rt, &mut bytes, b"c");
    let copy = bytes.copy().expect(rt, "no memory");
    confirm_eq!(rt; copy.len(), 3);
    are(rt, &copy, b"abc");
    confirm_eq!(rt; bytes, copy);
    confirm!(rt; !bytes.is_empty());
    confirm!(rt; Bytes::new(rt.alloc()).is_empty());
    extend(rt, &mut bytes, b"d");
    confirm!(rt; bytes != copy);
    are(rt, &bytes, b"abcd");
    drop(copy);
    drop(bytes);
}

// Four bytes that are shared.
fn shared(rt: &impl Abort, alloc: Global) -> Bytes {
    let mut bytes = bytes_of(rt, alloc, b"abcd");
    bytes.share();
    bytes
}

// The part of four bytes from this place on up to that one.
fn part(rt: &impl Abort, bytes: &Bytes, from: usize, to: usize) -> Bytes {
    assert!(rt; bytes.len() == 4 && from <= to && to <= 4);
    bytes.part(from, to).expect(rt, "no memory")
}

#[test]
fn shared_bytes_outlive_their_first_holder(rt: HostRuntime) {
    let rt = &rt;
    let bytes = shared(rt, rt.alloc());
    let middle = part(rt, &bytes, 1, 3);
    drop(bytes);
    let mut other = middle.copy().expect(rt, "no memory");
    extend(rt, &mut other, b"e");
    are(rt, &middle, b"bc");
    are(rt, &other, b"bce");
    let mut joined = Bytes::new(middle.allocator());
    append(rt, &mut joined, &middle);
    append(rt, &mut joined, &other);
    drop(middle);
    drop(other);
    let want = bytes_of(rt, rt.alloc(), b"bcbce");
    confirm_eq!(rt; joined, want);
    drop(want);
    drop(joined);
}

// Parts that follow one another, and one that does not, as it was added before.
#[test]
fn part_grows_over_what_follows(rt: HostRuntime) {
    let rt = &rt;
    let bytes = shared(rt, rt.alloc());
    let mut grown = part(rt, &bytes, 0, 1);
    let middle = part(rt, &bytes, 1, 3);
    append(rt, &mut grown, &middle);
    are(rt, &grown, b"abc");
    append(rt, &mut grown, &middle);
    are(rt, &grown, b"abcbc");
    are(rt, &bytes, b"abcd");
    drop(middle);
    drop(grown);
    drop(bytes);
}

#[test]
fn bytes_are_copied_in_their_order(rt: HostRuntime) {
    let rt = &rt;
    let mut all = Vec::new(rt.alloc());
    for bytes in &[b"ab".as_slice(), b"c".as_slice()] {
        all.push(bytes_of(rt, rt.alloc(), bytes))
            .expect(rt, "no memory");
    }
    let copies = Bytes::copies(rt.alloc(), &all).expect(rt, "no memory");
    confirm_eq!(rt; copies.as_slice(), all.as_slice());
    drop(copies);
    drop(all);
}

#[test]
fn bag_fault_texts(rt: HostRuntime) {
    let rt = &rt;
    shows(rt, rt.alloc(), &BagFault::Full, "Full");
    shows(rt, rt.alloc(), &BagFault::NoMemory, "NoMemory");
}
