//! Which of two scripts comes first.
ghost use Rattle.std.specs.Prelude.{◌≡◌, [], ◌∷◌};
ghost use Rattle.std.specs.Cmp.Lexicographic.{slice_cmp};
ghost use Rattle.std.specs.Ordering.{nat_cmp};
ghost use Rattle.mr_script_order.specs.Order.{event_cmp, kind_number, script_cmp, sooner, weather_number};
ghost use Rattle.mr_script_order.specs.inner.Words.{bytes_of, words};

use mr_ids::{TaskId, TaskKind};
use mr_packet::ContainerId;
use mr_world_events::{Event, Weather};
use std::cmp::Ordering;

/// Whether a script comes before another: it has fewer events, or as many, and of the first two that differ its own is
/// the lesser one, by their numbers. It takes no memory.
#[tactic(auto, unfolding(crate::specs::Order::sooner))]
pub fn is_sooner(a: &[Event], b: &[Event]) -> bool
    ensures { result ≡ sooner a.now b.now }
{
    script_cmp(a, b).is_lt()
}

fn script_cmp(a: &[Event], b: &[Event]) -> Ordering
    ensures { result ≡ script_cmp a.now b.now }
{
    match a.len().cmp(&b.len()) {
        Ordering::Less => Ordering::Less,
        Ordering::Equal => events_cmp(a, b),
        Ordering::Greater => Ordering::Greater,
    }
}

// The first two events that differ decide.
fn events_cmp(a: &[Event], b: &[Event]) -> Ordering
    ensures { result ≡ slice_cmp event_cmp a.now b.now }
{
    let mut rest = a;
    let mut left = b;
    while let (Some((one, more)), Some((other, later))) = (rest.split_first(), left.split_first()) {
        match event_cmp(one, other) {
            Ordering::Less => return Ordering::Less,
            Ordering::Equal => {}
            Ordering::Greater => return Ordering::Greater,
        }
        rest = more;
        left = later;
    }
    rest.len().cmp(&left.len())
}

// Most are equal, which is told at once.
#[tactic(auto, using(crate::proofs::Numbers::by_words))]
fn event_cmp(a: &Event, b: &Event) -> Ordering
    ensures { result ≡ event_cmp a.now b.now }
{
    if a == b {
        return Ordering::Equal;
    }
    match words(a).cmp(&words(b)) {
        Ordering::Less => Ordering::Less,
        Ordering::Equal => bytes_of(a).cmp(bytes_of(b)),
        Ordering::Greater => Ordering::Greater,
    }
}

// The numbers of an event before computed bytes, with zeros behind them.
fn words(event: &Event) -> [u64; 7]
    ensures { result ≡ words event.now }
{
    match *event {
        Event::Crash { generation, kept } => of_two(0, u64::from(generation), kept),
        Event::Start { generation, kept } => of_two(1, u64::from(generation), kept),
        Event::Die { container } => of_container(2, container, 0),
        Event::NodeRestart { node } => of_two(3, u64::from(node), 0),
        Event::Expire { generation, node } => of_two(4, u64::from(generation), u64::from(node)),
        Event::LaunchOn {
            generation,
            task,
            node,
        } => of_launch(5, generation, task, node),
        Event::Deliver { packet } => of_two(6, packet, 0),
        Event::Duty {
            generation,
            weather,
        } => of_two(7, u64::from(generation), weather_number(weather)),
        Event::ContainerStep { container, weather } => {
            of_container(8, container, weather_number(weather))
        }
        Event::Computed {
            container,
            ref bytes,
        } => of_container(9, container, bytes.len() as u64),
    }
}

// A kind and two numbers.
fn of_two(kind: u64, first: u64, second: u64) -> [u64; 7]
    ensures { result ≡ kind ∷ first ∷ second ∷ 0 ∷ 0 ∷ 0 ∷ 0 ∷ [] }
{
    [kind, first, second, 0, 0, 0, 0]
}

// A kind, a container, and one number more.
fn of_container(kind: u64, container: ContainerId, more: u64) -> [u64; 7]
    ensures { result ≡ kind ∷ container.app ∷ container.number ∷ more ∷ 0 ∷ 0 ∷ 0 ∷ [] }
{
    [
        kind,
        u64::from(container.app.number()),
        u64::from(container.number),
        more,
        0,
        0,
        0,
    ]
}

// A kind, and a task that is launched on a node.
fn of_launch(kind: u64, generation: u32, task: TaskId, node: u32) -> [u64; 7]
    ensures { result ≡ kind ∷ generation ∷ task.job.start ∷ task.job.number ∷ kind_number task.kind ∷ task.number ∷ node ∷ [] }
{
    [
        kind,
        u64::from(generation),
        task.job.start,
        u64::from(task.job.number),
        kind_number(task.kind),
        u64::from(task.number),
        u64::from(node),
    ]
}

// What was computed, if that is what happens.
fn bytes_of(event: &Event) -> &[u8]
    ensures { result.now ≡ bytes_of event.now }
{
    match event {
        Event::Computed { bytes, .. } => bytes.as_slice(),
        _ => &[],
    }
}

fn weather_number(weather: Weather) -> u64
    ensures { result ≡ weather_number weather }
{
    match weather {
        Weather::Unavailable => 0,
        Weather::Unanswered => 1,
        Weather::Calm => 2,
    }
}

fn kind_number(kind: TaskKind) -> u64
    ensures { result ≡ kind_number kind }
{
    match kind {
        TaskKind::Map => 0,
        TaskKind::Reduce => 1,
    }
}
