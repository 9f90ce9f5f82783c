//! Events in words, and to whom packets go, for the trace of a run.
ghost use Rattle.std.specs.Prelude.{◌≡◌, ◌++◌, OnOk, decimal};
ghost use Rattle.mr_ids.specs.Text.{attempt_text};
ghost use Rattle.mr_script.specs.Words.{container_word};
ghost use Rattle.mr_trace.specs.Words.{address_text, envelope_text, event_text};

use crate::packet_words::put_packet;
use mr_ids::AttemptId;
use mr_packet::{Address, ContainerId, Envelope};
use mr_script_writer::put_command;
use mr_world_events::Event;
use std::alloc::AllocError;

/// A word and a number behind it.
pub fn put_number(out: &mut Vec<u8>, word: &[u8], number: u64) -> Result<(), AllocError>
    ensures { OnOk result (out.new.items ≡ out.old.items ++ word.now ++ decimal number) }
{
    out.extend_from_slice(word)?;
    mr_script_writer::put_number(out, number)
}

/// A word and a small number behind it.
pub fn put_small(out: &mut Vec<u8>, word: &[u8], number: u32) -> Result<(), AllocError>
    ensures { OnOk result (out.new.items ≡ out.old.items ++ word.now ++ decimal number) }
{
    put_number(out, word, u64::from(number))
}

/// A word, and an attempt behind it.
pub fn put_attempt(out: &mut Vec<u8>, word: &[u8], attempt: &AttemptId) -> Result<(), AllocError>
    ensures { OnOk result (out.new.items ≡ out.old.items ++ word.now ++ attempt_text attempt.now) }
{
    out.extend_from_slice(word)?;
    attempt.write(out)
}

/// A word and a container behind it, as scripts name it.
pub fn put_container(out: &mut Vec<u8>, word: &[u8], c: &ContainerId) -> Result<(), AllocError>
    ensures { OnOk result (out.new.items ≡ out.old.items ++ word.now ++ container_word c.now) }
{
    out.extend_from_slice(word)?;
    mr_script_writer::put_container(out, c)
}

/// An event in the words of the script's command that makes it again. Of a computed result, whose bytes no command says, it tells their number too.
pub fn put_event(out: &mut Vec<u8>, event: &Event) -> Result<(), AllocError>
    ensures { OnOk result (out.new.items ≡ out.old.items ++ event_text event.now) }
{
    match event {
        Event::Computed { bytes, .. } => {
            put_command(out, event)?;
            put_number(out, b" bytes ", bytes.len() as u64)
        }
        Event::Start { .. }
        | Event::Crash { .. }
        | Event::Duty { .. }
        | Event::LaunchOn { .. }
        | Event::Deliver { .. }
        | Event::ContainerStep { .. }
        | Event::Die { .. }
        | Event::NodeRestart { .. }
        | Event::Expire { .. } => put_command(out, event),
    }
}

/// To whom a packet goes.
pub fn put_address(out: &mut Vec<u8>, to: &Address) -> Result<(), AllocError>
    ensures { OnOk result (out.new.items ≡ out.old.items ++ address_text to.now) }
{
    match to {
        Address::Master(k) => put_small(out, b"master ", k.number()),
        Address::Container(c) => put_container(out, b"container ", c),
        Address::Node(n) => put_small(out, b"node ", *n),
    }
}

/// A packet, with its place in the bag and to whom it goes.
pub fn put_envelope(out: &mut Vec<u8>, place: usize, e: &Envelope) -> Result<(), AllocError>
    ensures { OnOk result (out.new.items ≡ out.old.items ++ envelope_text place e.now) }
{
    put_number(out, b" | ", place as u64)?;
    out.extend_from_slice(b" to ")?;
    put_address(out, &e.to)?;
    out.extend_from_slice(b": ")?;
    put_packet(out, &e.body)
}
