//! The line of a script that makes an event again.
ghost use Rattle.std.specs.Prelude.{◌≡◌, ◌++◌, ◌∷◌, OnOk, codes, decimal};
ghost use Rattle.mr_script.specs.Words.{and_words, container_word, fault_word, task_words, with_word};
ghost use Rattle.mr_script_writer.specs.Repeating.{behind, command_line};

use crate::word::{put_container, put_kind, put_number, put_small, put_space};
use mr_ids::TaskId;
use mr_packet::ContainerId;
use mr_world_events::{Event, Weather};
use std::alloc::AllocError;

// How the store fares, where it does not fare well.
fn put_weather(out: &mut Vec<u8>, weather: Weather) -> Result<(), AllocError>
    ensures { OnOk result (out.new.items ≡ out.old.items ++ behind (fault_word weather)) }
{
    match weather {
        Weather::Calm => Ok(()),
        Weather::Unavailable => out.extend_from_slice(b" unavailable"),
        Weather::Unanswered => out.extend_from_slice(b" unanswered"),
    }
}

// A word and a number.
fn put_one(out: &mut Vec<u8>, word: &[u8], number: u64) -> Result<(), AllocError>
    ensures { OnOk result (out.new.items ≡ out.old.items ++ word.now ++ decimal number) }
{
    out.extend_from_slice(word)?;
    put_number(out, number)
}

// A duty of a master.
fn put_duty(out: &mut Vec<u8>, generation: u32, weather: Weather) -> Result<(), AllocError>
    ensures { OnOk result (out.new.items ≡ out.old.items ++ with_word (codes "duty") (and_words (decimal generation) (fault_word weather))) }
{
    put_one(out, b"duty ", u64::from(generation))?;
    put_weather(out, weather)
}

// A step of a container.
fn put_step(out: &mut Vec<u8>, c: &ContainerId, weather: Weather) -> Result<(), AllocError>
    ensures { OnOk result (out.new.items ≡ out.old.items ++ with_word (codes "step") (and_words (container_word c.now) (fault_word weather))) }
{
    put_of(out, b"step ", c)?;
    put_weather(out, weather)
}

// A word, the generation of a master and a number.
fn put_pair(out: &mut Vec<u8>, word: &[u8], generation: u32, number: u64) -> Result<(), AllocError>
    ensures { OnOk result (out.new.items ≡ out.old.items ++ word.now ++ with_word (decimal generation) (decimal number)) }
{
    out.extend_from_slice(word)?;
    put_small(out, generation)?;
    put_space(out)?;
    put_number(out, number)
}

// A space, and a number behind it.
fn put_next(out: &mut Vec<u8>, number: u32) -> Result<(), AllocError>
    ensures { OnOk result (out.new.items ≡ out.old.items ++ 32 ∷ decimal number) }
{
    put_space(out)?;
    put_small(out, number)
}

// A task and a node.
fn put_task(out: &mut Vec<u8>, task: &TaskId, node: u32) -> Result<(), AllocError>
    ensures { OnOk result (out.new.items ≡ out.old.items ++ task_words task.now (decimal node)) }
{
    put_kind(out, task.kind)?;
    put_next(out, task.number)?;
    put_next(out, node)
}

// A launch.
fn put_launch(
    out: &mut Vec<u8>,
    generation: u32,
    task: &TaskId,
    node: u32,
) -> Result<(), AllocError>
    ensures { OnOk result (out.new.items ≡ out.old.items ++ with_word (codes "launch") (with_word (decimal generation) (task_words task.now (decimal node)))) }
{
    put_one(out, b"launch ", u64::from(generation))?;
    put_space(out)?;
    put_task(out, task, node)
}

// A word and a container.
fn put_of(out: &mut Vec<u8>, word: &[u8], c: &ContainerId) -> Result<(), AllocError>
    ensures { OnOk result (out.new.items ≡ out.old.items ++ word.now ++ container_word c.now) }
{
    out.extend_from_slice(word)?;
    put_container(out, c)
}

/// The command that makes an event again, without its line feed.
pub fn put_command(out: &mut Vec<u8>, event: &Event) -> Result<(), AllocError>
    ensures { OnOk result (out.new.items ≡ out.old.items ++ command_line event.now) }
{
    match event {
        Event::Start { generation, kept } => put_pair(out, b"start ", *generation, *kept),
        Event::Crash { generation, kept } => put_pair(out, b"crash ", *generation, *kept),
        Event::Duty {
            generation,
            weather,
        } => put_duty(out, *generation, *weather),
        Event::LaunchOn {
            generation,
            task,
            node,
        } => put_launch(out, *generation, task, *node),
        Event::Deliver { packet } => put_one(out, b"deliver ", *packet),
        Event::ContainerStep { container, weather } => put_step(out, container, *weather),
        Event::Computed { container, .. } => put_of(out, b"compute ", container),
        Event::Die { container } => put_of(out, b"die ", container),
        Event::NodeRestart { node } => put_one(out, b"restart ", u64::from(*node)),
        Event::Expire { generation, node } => {
            put_pair(out, b"expire ", *generation, u64::from(*node))
        }
    }
}
