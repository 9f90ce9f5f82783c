//! Who makes the events of a run, which is told beside each.
ghost use Rattle.std.specs.Prelude.{◌≡◌, ◌≤◌, ◌++◌, ℕ, OnOk, length};
ghost use Rattle.mr_play.specs.mr_world.specs.Journal.{Journal};
ghost use Rattle.mr_trace.specs.Happened.{maker_of, source_at};
ghost use Rattle.mr_trace.specs.Trace.{maker_text};
ghost use Rattle.mr_trace.specs.declared.makers.Maker.TheVariants.{Line};

use crate::seats::{Seat, put_in_brackets, thread_of};
use crate::trace_words::put_number;
use mr_play::mr_world::World;
use mr_play::{Source, Stretch};
use std::alloc::AllocError;

/// Who made the events of a run, which is told beside each.
#[derive(Clone, Copy, Debug, PartialEq, Eq)]
pub enum Makers<'a> {
    /// Lines of a script, and their calms.
    Lines(&'a [Stretch]),
    /// Threads: one for each node, one for each master, and one for starts and faults. For each event of the journal
    /// there is the number of the seat that was noted for it.
    Threads(&'a [u32]),
}

/// Who made one event.
#[derive(Clone, Copy, Debug, PartialEq, Eq)]
pub enum Maker {
    /// A line of a script, or its calm.
    Line(Source),
    /// A thread.
    Thread(Seat),
    /// Nobody is known of.
    Unknown,
}

/// Who makes the event that comes next in this world.
pub fn maker_of(world: &World, makers: &Makers<'_>) -> Maker
    ensures { result ≡ maker_of makers.now world.now }
{
    match makers {
        Makers::Lines(stretches) => match source_at(stretches, world.journal().len()) {
            Some(source) => Maker::Line(source),
            None => Maker::Unknown,
        },
        Makers::Threads(by) => match by.get(world.journal().len()) {
            Some(number) => Maker::Thread(thread_of(world.config().nodes, *number)),
            None => Maker::Unknown,
        },
    }
}

/// The same makers without the stretches that ended at this place of the journal or before it, which made none of the events from here on.
pub fn left_at<'a>(makers: &Makers<'a>, place: usize) -> Makers<'a>
    ensures { (j : Journal) → place ≤ length j.events → maker_of result j ≡ maker_of makers.now j }
{
    match makers {
        Makers::Lines(stretches) => Makers::Lines(stretches_left(stretches, place)),
        Makers::Threads(by) => Makers::Threads(by),
    }
}

// Those from the first on that ends behind this place.
fn stretches_left<'a>(stretches: &'a [Stretch], place: usize) -> &'a [Stretch]
    ensures { (n : ℕ) → place ≤ n → source_at result.now n ≡ source_at stretches.now n }
{
    let mut left = stretches;
    while let Some((first, rest)) = left.split_first() {
        if (place as u64) < first.end {
            return left;
        }
        left = rest;
    }
    left
}

// What made the event at this place of the journal: the first stretch that ends behind it.
fn source_at(stretches: &[Stretch], place: usize) -> Option<Source>
    ensures { result ≡ source_at stretches.now place }
{
    for stretch in stretches {
        if (place as u64) < stretch.end {
            return Some(stretch.source);
        }
    }
    None
}

/// The line of the script in brackets, with whether its calm made the event, or the thread.
pub fn put_maker(out: &mut Vec<u8>, maker: Maker) -> Result<(), AllocError>
    ensures { OnOk result (out.new.items ≡ out.old.items ++ maker_text maker) }
{
    match maker {
        Maker::Line(source) => put_source(out, source),
        Maker::Thread(seat) => put_in_brackets(out, seat),
        Maker::Unknown => Ok(()),
    }
}

// The line of the script that an event came of.
fn put_source(out: &mut Vec<u8>, source: Source) -> Result<(), AllocError>
    ensures { OnOk result (out.new.items ≡ out.old.items ++ maker_text (Line source)) }
{
    put_number(out, b" (line ", source.line)?;
    if source.is_calm {
        out.extend_from_slice(b", calm)")
    } else {
        out.extend_from_slice(b")")
    }
}
