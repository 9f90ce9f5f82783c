//! What a script expects, and what is so.
ghost use Rattle.std.specs.Prelude.{◌≡◌, ◌++◌, IfOk, OnOk, nat_lt, if◌then◌else◌, codes};
ghost use Rattle.std.specs.Str.{bytes_eq};
ghost use Rattle.mr_world_model.specs.Claims.{winner};
ghost use Rattle.mr_world_model.specs.Ids.{reduce_of};
ghost use Rattle.mr_script.specs.Expected.{subject_words, value_word, winner_word};
ghost use Rattle.mr_world.specs.Journal.{world_in};
ghost use Rattle.mr_play.specs.Expectations.{unmet_line, value_in};

use crate::memory::read;
use itoa::Buffer;
use mr_ids::{TaskId, TaskKind};
use mr_script::Expectation;
use mr_script_writer::{put_marker, put_outcome, put_winner};
use mr_world::World;
use std::alloc::{AllocError, Global};

/// What is so of what a script expects.
pub fn value_of(
    alloc: Global,
    world: &World,
    expectation: &Expectation,
) -> Result<Vec<u8>, AllocError>
    ensures { IfOk result (λ v. v.items ≡ value_in world.now.config (world_in world.now) expectation.now) }
{
    let mut value = Vec::new(alloc);
    match expectation {
        Expectation::Winner(reduce, _) => put_winner_of(&mut value, world, *reduce)?,
        Expectation::Marker(_) => put_marker(&mut value, read(world.marker())?)?,
        Expectation::Outcome(_) => put_outcome(&mut value, world.outcome())?,
    }
    Ok(value)
}

// The winner of the reduce of this number, or that there is no such reduce.
fn put_winner_of(out: &mut Vec<u8>, world: &World, reduce: u32) -> Result<(), AllocError>
    ensures { OnOk result (out.new.items ≡ out.old.items ++ (if nat_lt reduce world.now.config.reduces then winner_word (winner (world_in world.now) (reduce_of world.now.config.job reduce)) else codes "no reduce")) }
{
    let config = world.config();
    if reduce >= config.reduce_count() {
        out.extend_from_slice(b"no reduce")?;
        return Ok(());
    }
    let task = TaskId {
        job: config.job_id(),
        kind: TaskKind::Reduce,
        number: reduce,
    };
    let won = read(world.winner(task))?;
    put_winner(out, &won)?;
    Ok(())
}

/// Whether the value is the one that is expected.
pub fn is_expected(
    alloc: Global,
    expectation: &Expectation,
    value: &[u8],
) -> Result<bool, AllocError>
    ensures { IfOk result (λ met. met ≡ bytes_eq value.now (value_word expectation.now)) }
{
    let mut expected = Vec::new(alloc);
    put_value(&mut expected, expectation)?;
    Ok(value == expected.as_slice())
}

/// The line of an expectation that is not met, with the number of its line in the input, and with what is so.
pub fn print_unmet(
    out: &mut Vec<u8>,
    line: usize,
    expectation: &Expectation,
    value: &[u8],
) -> Result<(), AllocError>
    ensures { OnOk result (out.new.items ≡ out.old.items ++ unmet_line line expectation.now value.now) }
{
    let mut buffer = Buffer::new();
    out.extend_from_slice(buffer.format(line).as_bytes())?;
    out.extend_from_slice(b": expected ")?;
    put_subject(out, expectation)?;
    out.extend_from_slice(b" ")?;
    put_value(out, expectation)?;
    out.extend_from_slice(b", is ")?;
    out.extend_from_slice(value)?;
    out.extend_from_slice(b"\n")
}

// What the expectation speaks of.
fn put_subject(out: &mut Vec<u8>, expectation: &Expectation) -> Result<(), AllocError>
    ensures { OnOk result (out.new.items ≡ out.old.items ++ subject_words expectation.now) }
{
    match expectation {
        Expectation::Winner(reduce, _) => {
            let mut buffer = Buffer::new();
            out.extend_from_slice(b"r ")?;
            out.extend_from_slice(buffer.format(*reduce).as_bytes())
        }
        Expectation::Marker(_) => out.extend_from_slice(b"marker"),
        Expectation::Outcome(_) => out.extend_from_slice(b"outcome"),
    }
}

// What is expected of it.
fn put_value(out: &mut Vec<u8>, expectation: &Expectation) -> Result<(), AllocError>
    ensures { OnOk result (out.new.items ≡ out.old.items ++ value_word expectation.now) }
{
    match expectation {
        Expectation::Winner(_, won) => put_winner(out, won),
        Expectation::Marker(there) => put_marker(out, *there),
        Expectation::Outcome(told) => put_outcome(out, *told),
    }
}
