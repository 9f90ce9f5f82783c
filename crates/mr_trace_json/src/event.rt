//! The members of an event's object: its fields by name, who made it, its store call with the answer, and its packets.
ghost use Rattle.std.specs.Prelude.{◌≡◌, ◌∷◌, [], IfOk, OnOk, codes, drop, map, Some};
ghost use Rattle.mr_ids.specs.Text.{task_text};
ghost use Rattle.mr_script.specs.Words.{container_word};
ghost use Rattle.mr_trace.specs.Happened.{happened, maker_of};
ghost use Rattle.mr_trace.specs.Trace.{call_text, heard_text, weather_of};
ghost use Rattle.mr_trace.specs.mr_world.specs.Asks.{asked_in};
ghost use Rattle.serde_json.specs.View.{members_view, view};
ghost use Rattle.mr_sim_json.specs.Members.{count, text, with_all};
ghost use Rattle.mr_trace_json.specs.Objects.{asked_members, at_node, by_container, event_members, in_weather, maker_members, name_members, of_master, packet_object, packet_objects, packets_member, weather_word, with_beginning};

use mr_ids::TaskId;
use mr_packet::{ContainerId, Envelope};
use mr_script::{EventName, event_word};
use mr_script_writer::put_container;
use mr_sim_json::{Object, into_value, put_count, put_flag, put_list, put_text, put_word};
use mr_trace::mr_play::read;
use mr_trace::mr_world::{Asked, World};
use mr_trace::{
    Maker, Makers, maker_of, name_of, put_address, put_call_of, put_heard, put_packet, put_thread,
};
use mr_world_events::{Event, Weather};
use serde_json::Value;
use std::alloc::{AllocError, Global};

/// What is known of an event before it happens in this world.
pub fn put_beginning(
    object: &mut Object,
    alloc: Global,
    world: &World,
    event: &Event,
    makers: &Makers<'_>,
) -> Result<(), AllocError>
    ensures { OnOk result (members_view object.new.entries ≡ with_beginning (happened (maker_of makers.now) world.now event.now) (members_view object.old.entries)) }
{
    put_count(object, alloc, "place", world.journal().len() as u64)?;
    put_event(object, alloc, event)?;
    put_name(object, alloc, name_of(world, event)?)?;
    put_maker(object, alloc, maker_of(world, makers))?;
    put_asked(object, alloc, world, event)
}

// What happens, and its fields.
fn put_event(object: &mut Object, alloc: Global, event: &Event) -> Result<(), AllocError>
    ensures { OnOk result (members_view object.new.entries ≡ with_all (event_members event.now) (members_view object.old.entries)) }
{
    match event {
        Event::Start { generation, kept } => put_kept(object, alloc, "start", *generation, *kept),
        Event::Crash { generation, kept } => put_kept(object, alloc, "crash", *generation, *kept),
        Event::Duty {
            generation,
            weather,
        } => {
            put_master(object, alloc, "duty", *generation)?;
            put_weather(object, alloc, *weather)
        }
        Event::LaunchOn {
            generation,
            task,
            node,
        } => put_launch(object, alloc, *generation, task, *node),
        Event::Deliver { packet } => {
            put_word(object, alloc, "event", "deliver")?;
            put_count(object, alloc, "packet", *packet)
        }
        Event::ContainerStep { container, weather } => {
            put_of_container(object, alloc, "step", container)?;
            put_weather(object, alloc, *weather)
        }
        Event::Computed { container, bytes } => {
            put_of_container(object, alloc, "compute", container)?;
            put_count(object, alloc, "bytes", bytes.len() as u64)
        }
        Event::Die { container } => put_of_container(object, alloc, "die", container),
        Event::NodeRestart { node } => {
            put_word(object, alloc, "event", "restart")?;
            put_node(object, alloc, *node)
        }
        Event::Expire { generation, node } => {
            put_master(object, alloc, "expire", *generation)?;
            put_node(object, alloc, *node)
        }
    }
}

// What happens, and the master of whom.
fn put_master(
    object: &mut Object,
    alloc: Global,
    word: &str,
    generation: u32,
) -> Result<(), AllocError>
    ensures { OnOk result (members_view object.new.entries ≡ with_all (of_master word.now generation []) (members_view object.old.entries)) }
{
    put_word(object, alloc, "event", word)?;
    put_count(object, alloc, "generation", u64::from(generation))
}

// The same, with how much of the history is kept.
fn put_kept(
    object: &mut Object,
    alloc: Global,
    word: &str,
    generation: u32,
    kept: u64,
) -> Result<(), AllocError>
    ensures { OnOk result (members_view object.new.entries ≡ with_all (of_master word.now generation ((codes "kept", count kept) ∷ [])) (members_view object.old.entries)) }
{
    put_master(object, alloc, word, generation)?;
    put_count(object, alloc, "kept", kept)
}

// A launch, by the master of this generation.
fn put_launch(
    object: &mut Object,
    alloc: Global,
    generation: u32,
    task: &TaskId,
    node: u32,
) -> Result<(), AllocError>
    ensures { OnOk result (members_view object.new.entries ≡ with_all (of_master (codes "launch") generation ((codes "task", text (task_text task.now)) ∷ at_node node ∷ [])) (members_view object.old.entries)) }
{
    put_master(object, alloc, "launch", generation)?;
    put_task(object, alloc, task)?;
    put_node(object, alloc, node)
}

// What happens, and the container that it is of.
fn put_of_container(
    object: &mut Object,
    alloc: Global,
    word: &str,
    c: &ContainerId,
) -> Result<(), AllocError>
    ensures { OnOk result (members_view object.new.entries ≡ with_all (by_container word.now (container_word c.now) []) (members_view object.old.entries)) }
{
    let mut name = Vec::new(alloc);
    put_container(&mut name, c)?;
    put_word(object, alloc, "event", word)?;
    put_text(object, alloc, "container", &name)
}

fn put_node(object: &mut Object, alloc: Global, node: u32) -> Result<(), AllocError>
    ensures { OnOk result (members_view object.new.entries ≡ with_all (at_node node ∷ []) (members_view object.old.entries)) }
{
    put_count(object, alloc, "node", u64::from(node))
}

fn put_task(object: &mut Object, alloc: Global, task: &TaskId) -> Result<(), AllocError>
    ensures { OnOk result (members_view object.new.entries ≡ with_all ((codes "task", text (task_text task.now)) ∷ []) (members_view object.old.entries)) }
{
    let mut name = Vec::new(alloc);
    task.write(&mut name)?;
    put_text(object, alloc, "task", &name)
}

fn put_weather(object: &mut Object, alloc: Global, weather: Weather) -> Result<(), AllocError>
    ensures { OnOk result (members_view object.new.entries ≡ with_all (in_weather weather ∷ []) (members_view object.old.entries)) }
{
    put_word(object, alloc, "weather", weather_word(weather))
}

fn weather_word(weather: Weather) -> &'static str
    ensures { result.now ≡ weather_word weather }
{
    match weather {
        Weather::Calm => "calm",
        Weather::Unavailable => "unavailable",
        Weather::Unanswered => "unanswered",
    }
}

// What the duty or the wish was.
fn put_name(object: &mut Object, alloc: Global, name: Option<EventName>) -> Result<(), AllocError>
    ensures { OnOk result (members_view object.new.entries ≡ with_all (name_members name) (members_view object.old.entries)) }
{
    match name {
        Some(name) => put_text(object, alloc, "name", event_word(name)),
        None => Ok(()),
    }
}

// The line of the script and whether a calm of it made the event, or the thread.
fn put_maker(object: &mut Object, alloc: Global, maker: Maker) -> Result<(), AllocError>
    ensures { OnOk result (members_view object.new.entries ≡ with_all (maker_members maker) (members_view object.old.entries)) }
{
    match maker {
        Maker::Line(source) => {
            put_count(object, alloc, "line", source.line)?;
            put_flag(object, alloc, "calm", source.is_calm)
        }
        Maker::Thread(seat) => {
            let mut name = Vec::new(alloc);
            put_thread(&mut name, seat)?;
            put_text(object, alloc, "thread", &name)
        }
        Maker::Unknown => Ok(()),
    }
}

// The store call of an event, and what its caller heard. Nothing where it makes none.
fn put_asked(
    object: &mut Object,
    alloc: Global,
    world: &World,
    event: &Event,
) -> Result<(), AllocError>
    ensures { OnOk result (members_view object.new.entries ≡ with_all (asked_members (weather_of event.now) (asked_in world.now event.now)) (members_view object.old.entries)) }
{
    match read(world.asks(event))? {
        Some(asked) => put_told(object, alloc, event, &asked),
        None => Ok(()),
    }
}

fn put_told(
    object: &mut Object,
    alloc: Global,
    event: &Event,
    asked: &Asked,
) -> Result<(), AllocError>
    ensures { OnOk result (members_view object.new.entries ≡ with_all (asked_members (weather_of event.now) (Some asked.now)) (members_view object.old.entries)) }
{
    let mut call = Vec::new(alloc);
    put_call_of(&mut call, asked)?;
    put_text(object, alloc, "call", &call)?;
    let mut answer = Vec::new(alloc);
    put_heard(&mut answer, event, asked)?;
    put_text(object, alloc, "answer", &answer)
}

/// The packets from this place of the bag on.
pub fn put_packets(
    object: &mut Object,
    alloc: Global,
    bag: &[Envelope],
    first: usize,
) -> Result<(), AllocError>
    ensures { OnOk result (members_view object.new.entries ≡ with_all (packets_member first (drop first bag.now) ∷ []) (members_view object.old.entries)) }
{
    put_list(object, alloc, "packets", packet_values(alloc, bag, first)?)
}

#[tactic(auto, using(crate::proofs::Telling::one_packet))]
fn packet_values(alloc: Global, bag: &[Envelope], first: usize) -> Result<Vec<Value>, AllocError>
    ensures { IfOk result (λ all. map view all.items ≡ packet_objects first (drop first bag.now)) }
{
    let mut all = Vec::new(alloc);
    for place in first..bag.len() {
        all.push(packet_value(alloc, place, &bag[place])?)?;
    }
    Ok(all)
}

// A packet: its place in the bag, to whom it goes, and what it says.
fn packet_value(alloc: Global, place: usize, e: &Envelope) -> Result<Value, AllocError>
    ensures { IfOk result (λ v. view v ≡ packet_object place e.now) }
{
    let mut to = Vec::new(alloc);
    put_address(&mut to, &e.to)?;
    let mut says = Vec::new(alloc);
    put_packet(&mut says, &e.body)?;
    let mut object = Object::new(alloc);
    put_count(&mut object, alloc, "place", place as u64)?;
    put_text(&mut object, alloc, "to", &to)?;
    put_text(&mut object, alloc, "says", &says)?;
    Ok(into_value(object))
}
