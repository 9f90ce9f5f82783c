//! Packets in words, for the trace of a run.
ghost use Rattle.std.specs.Prelude.{◌≡◌, ◌++◌, ◌∷◌, OnOk, codes};
ghost use Rattle.mr_ids.specs.Text.{attempt_text};
ghost use Rattle.mr_packet.specs.declared.packet.Packet.TheVariants.{Answer, Done, Fetch, Launch, MapReady, NodeUp, Outcome, Piece, Where};
ghost use Rattle.mr_script.specs.Words.{container_word};
ghost use Rattle.mr_trace.specs.Words.{packet_text, succeeded_word, yes_word};

use crate::trace_words::{put_attempt, put_container, put_number, put_small};
use mr_ids::{AttemptId, Bytes};
use mr_packet::{ContainerId, Packet};
use std::alloc::AllocError;

/// A packet: its name and its fields, in their order. Of a piece it tells how many bytes it has.
pub fn put_packet(out: &mut Vec<u8>, packet: &Packet) -> Result<(), AllocError>
    ensures { OnOk result (out.new.items ≡ out.old.items ++ packet_text packet.now) }
{
    match packet {
        Packet::Launch {
            container,
            attempt,
            incarnation,
        } => put_launch(out, container, attempt, *incarnation),
        Packet::Kill { container } => put_container(out, b"Kill ", container),
        Packet::Fetch {
            container,
            attempt,
            reduce,
            incarnation,
            offset,
        } => put_fetch(out, container, attempt, *reduce, *incarnation, *offset),
        Packet::Won { task: _, attempt } => put_attempt(out, b"Won ", attempt),
        Packet::Outcome { succeeded } => put_outcome(out, *succeeded),
        Packet::Pending { attempt } => put_attempt(out, b"Pending ", attempt),
        Packet::Poll { attempt } => put_attempt(out, b"Poll ", attempt),
        Packet::Done { attempt, bytes } => put_done(out, attempt, *bytes),
        Packet::Failed { attempt } => put_attempt(out, b"Failed ", attempt),
        Packet::Ended { container } => put_container(out, b"Ended ", container),
        Packet::NodeUp { node, incarnation } => put_node_up(out, *node, *incarnation),
        Packet::Where { container, map } => put_where(out, container, *map),
        Packet::FetchLost { container, attempt } => put_of(out, b"FetchLost ", container, attempt),
        Packet::Answer { attempt, yes } => put_answer(out, attempt, *yes),
        Packet::DoneAck { attempt } => put_attempt(out, b"DoneAck ", attempt),
        Packet::MapReady {
            map,
            attempt,
            node,
            incarnation,
        } => put_map_ready(out, *map, attempt, *node, *incarnation),
        Packet::Piece {
            attempt,
            reduce,
            offset,
            total,
            bytes,
        } => put_piece(out, attempt, *reduce, *offset, *total, bytes),
    }
}

// A word, a container and its attempt.
fn put_of(out: &mut Vec<u8>, word: &[u8], c: &ContainerId, a: &AttemptId) -> Result<(), AllocError>
    ensures { OnOk result (out.new.items ≡ out.old.items ++ word.now ++ container_word c.now ++ 32 ∷ attempt_text a.now) }
{
    put_container(out, word, c)?;
    put_attempt(out, b" ", a)
}

fn put_launch(
    out: &mut Vec<u8>,
    c: &ContainerId,
    a: &AttemptId,
    incarnation: u32,
) -> Result<(), AllocError>
    ensures { OnOk result (out.new.items ≡ out.old.items ++ packet_text (Launch c.now a.now incarnation)) }
{
    put_of(out, b"Launch ", c, a)?;
    put_small(out, b" incarnation ", incarnation)
}

fn put_fetch(
    out: &mut Vec<u8>,
    c: &ContainerId,
    a: &AttemptId,
    reduce: u32,
    incarnation: u32,
    offset: u64,
) -> Result<(), AllocError>
    ensures { OnOk result (out.new.items ≡ out.old.items ++ packet_text (Fetch c.now a.now reduce incarnation offset)) }
{
    put_of(out, b"Fetch ", c, a)?;
    put_small(out, b" reduce ", reduce)?;
    put_small(out, b" incarnation ", incarnation)?;
    put_number(out, b" offset ", offset)
}

fn put_outcome(out: &mut Vec<u8>, succeeded: bool) -> Result<(), AllocError>
    ensures { OnOk result (out.new.items ≡ out.old.items ++ packet_text (Outcome succeeded)) }
{
    out.extend_from_slice(outcome_words(succeeded))
}

// That an attempt is done, with the length of its part file where it has one.
fn put_done(out: &mut Vec<u8>, a: &AttemptId, bytes: Option<u32>) -> Result<(), AllocError>
    ensures { OnOk result (out.new.items ≡ out.old.items ++ packet_text (Done a.now bytes)) }
{
    put_attempt(out, b"Done ", a)?;
    match bytes {
        Some(bytes) => put_small(out, b" bytes ", bytes),
        None => Ok(()),
    }
}

fn put_node_up(out: &mut Vec<u8>, n: u32, incarnation: u32) -> Result<(), AllocError>
    ensures { OnOk result (out.new.items ≡ out.old.items ++ packet_text (NodeUp n incarnation)) }
{
    put_small(out, b"NodeUp ", n)?;
    put_small(out, b" incarnation ", incarnation)
}

fn put_where(out: &mut Vec<u8>, c: &ContainerId, map: u32) -> Result<(), AllocError>
    ensures { OnOk result (out.new.items ≡ out.old.items ++ packet_text (Where c.now map)) }
{
    put_container(out, b"Where ", c)?;
    put_small(out, b" map ", map)
}

fn put_answer(out: &mut Vec<u8>, a: &AttemptId, yes: bool) -> Result<(), AllocError>
    ensures { OnOk result (out.new.items ≡ out.old.items ++ packet_text (Answer a.now yes)) }
{
    put_attempt(out, b"Answer ", a)?;
    out.extend_from_slice(yes_words(yes))
}

fn put_map_ready(
    out: &mut Vec<u8>,
    map: u32,
    a: &AttemptId,
    n: u32,
    incarnation: u32,
) -> Result<(), AllocError>
    ensures { OnOk result (out.new.items ≡ out.old.items ++ packet_text (MapReady map a.now n incarnation)) }
{
    put_small(out, b"MapReady ", map)?;
    put_attempt(out, b" ", a)?;
    put_small(out, b" node ", n)?;
    put_small(out, b" incarnation ", incarnation)
}

fn put_piece(
    out: &mut Vec<u8>,
    a: &AttemptId,
    reduce: u32,
    offset: u64,
    total: u64,
    bytes: &Bytes,
) -> Result<(), AllocError>
    ensures { OnOk result (out.new.items ≡ out.old.items ++ packet_text (Piece a.now reduce offset total bytes.now)) }
{
    put_attempt(out, b"Piece ", a)?;
    put_small(out, b" reduce ", reduce)?;
    put_number(out, b" offset ", offset)?;
    put_number(out, b" total ", total)?;
    put_number(out, b" bytes ", bytes.len() as u64)
}

fn outcome_words(succeeded: bool) -> &'static [u8]
    ensures { result.now ≡ codes "Outcome " ++ succeeded_word succeeded }
{
    if succeeded {
        b"Outcome succeeded"
    } else {
        b"Outcome failed"
    }
}

fn yes_words(yes: bool) -> &'static [u8]
    ensures { result.now ≡ codes " " ++ yes_word yes }
{
    if yes { b" yes" } else { b" no" }
}
