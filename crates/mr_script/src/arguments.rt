//! What stands behind the first word of a command.
ghost use Rattle.std.specs.Prelude.{◌≡◌, ◌<◌, ◌^◌, ℕ, IfSome, IfNone, Option, Some, None, decimal};
ghost use Rattle.mr_ids.specs.declared.id.TaskId as task;
ghost use Rattle.mr_ids.specs.declared.id.TaskKind as kind;
ghost use Rattle.mr_packet.specs.declared.packet.ContainerId as container;
ghost use Rattle.mr_world_events.specs.declared.event.Weather as weather;
ghost use Rattle.mr_script.specs.declared.command.Until as extent;
ghost use Rattle.mr_script.specs.declared.event_name.EventName as name;
ghost use Rattle.mr_script.specs.Script.{IsGeneration, IsContainer, IsTaskOf};
ghost use Rattle.mr_script.specs.Words.{with_word, kind_word, task_words, container_word, and_words, fault_word, name_words, until_words};

use crate::command::Until;
use crate::event_name::{EventName, event_named};
use crate::word::{container, generation, long_number, number, split_once};
use mr_ids::{AppAttempt, JobId, TaskId, TaskKind};
use mr_packet::ContainerId;
use mr_world_events::Weather;

/// A generation, and a number below 2^64.
pub fn with_long(rest: &[u8]) -> Option<(AppAttempt, u64)>
    ensures some { IfSome result (λ p. IsGeneration p.0 × (rest.now ≡ with_word (decimal p.0) (decimal p.1))) }
    ensures none { IfNone result ((k n : ℕ) → IsGeneration k → n < 2 ^ 64 → rest.now ≡ with_word (decimal k) (decimal n) → ⊥) }
{
    let Some((word, more)) = split_once(rest, b' ') else {
        return None;
    };
    let Some(k) = generation(word) else {
        return None;
    };
    let Some(n) = long_number(more) else {
        return None;
    };
    Some((k, n))
}

/// A generation, and a number below 2^32.
pub fn with_number(rest: &[u8]) -> Option<(AppAttempt, u32)>
    ensures some { IfSome result (λ p. IsGeneration p.0 × (rest.now ≡ with_word (decimal p.0) (decimal p.1))) }
    ensures none { IfNone result ((k n : ℕ) → IsGeneration k → n < 2 ^ 32 → rest.now ≡ with_word (decimal k) (decimal n) → ⊥) }
{
    let Some((word, more)) = split_once(rest, b' ') else {
        return None;
    };
    let Some(k) = generation(word) else {
        return None;
    };
    let Some(n) = number(more) else {
        return None;
    };
    Some((k, n))
}

/// How the store fares, where it does not fare well.
fn fault(word: &[u8]) -> Option<Weather>
    ensures some { IfSome result (λ w. fault_word w ≡ Some word.now) }
    ensures none { IfNone result ((w : weather.Weather) → fault_word w ≡ Some word.now → ⊥) }
{
    if word == b"unavailable".as_slice() {
        Some(Weather::Unavailable)
    } else if word == b"unanswered".as_slice() {
        Some(Weather::Unanswered)
    } else {
        None
    }
}

/// A generation, and how the store fares.
pub fn with_fault(rest: &[u8]) -> Option<(AppAttempt, Weather)>
    ensures some { IfSome result (λ p. IsGeneration p.0 × (rest.now ≡ and_words (decimal p.0) (fault_word p.1))) }
    ensures none { IfNone result ((k : ℕ) (w : weather.Weather) → IsGeneration k → rest.now ≡ and_words (decimal k) (fault_word w) → ⊥) }
{
    let Some((word, more)) = split_once(rest, b' ') else {
        let Some(k) = generation(rest) else {
            return None;
        };
        return Some((k, Weather::Calm));
    };
    let Some(k) = generation(word) else {
        return None;
    };
    let Some(fault) = fault(more) else {
        return None;
    };
    Some((k, fault))
}

/// The kind of a task.
fn kind(word: &[u8]) -> Option<TaskKind>
    ensures some { IfSome result (λ k. word.now ≡ kind_word k) }
    ensures none { IfNone result ((k : kind.TaskKind) → word.now ≡ kind_word k → ⊥) }
{
    if word == b"m".as_slice() {
        Some(TaskKind::Map)
    } else if word == b"r".as_slice() {
        Some(TaskKind::Reduce)
    } else {
        None
    }
}

/// The task of the job and the node behind it.
fn task_and_node(job: JobId, rest: &[u8]) -> Option<(TaskId, u32)>
    ensures some { IfSome result (λ p. IsTaskOf job p.0 × (rest.now ≡ task_words p.0 (decimal p.1))) }
    ensures none { IfNone result ((t : task.TaskId) (n : ℕ) → IsTaskOf job t → n < 2 ^ 32 → rest.now ≡ task_words t (decimal n) → ⊥) }
{
    let Some((word, more)) = split_once(rest, b' ') else {
        return None;
    };
    let Some(kind) = kind(word) else {
        return None;
    };
    let Some((front, last)) = split_once(more, b' ') else {
        return None;
    };
    let Some(t) = number(front) else {
        return None;
    };
    let Some(n) = number(last) else {
        return None;
    };
    let task = TaskId {
        job,
        kind,
        number: t,
    };
    Some((task, n))
}

/// A generation, a task of the job, and a node.
pub fn launching(job: JobId, rest: &[u8]) -> Option<(AppAttempt, TaskId, u32)>
    ensures some { IfSome result (λ p. IsGeneration p.0 × (IsTaskOf job p.1 × (rest.now ≡ with_word (decimal p.0) (task_words p.1 (decimal p.2))))) }
    ensures none { IfNone result ((k : ℕ) (t : task.TaskId) (n : ℕ) → IsGeneration k → IsTaskOf job t → n < 2 ^ 32 → rest.now ≡ with_word (decimal k) (task_words t (decimal n)) → ⊥) }
{
    let Some((word, more)) = split_once(rest, b' ') else {
        return None;
    };
    let Some(k) = generation(word) else {
        return None;
    };
    let Some((task, node)) = task_and_node(job, more) else {
        return None;
    };
    Some((k, task, node))
}

/// A container, and how the store fares.
pub fn stepping(rest: &[u8]) -> Option<(ContainerId, Weather)>
    ensures some { IfSome result (λ p. IsContainer p.0 × (rest.now ≡ and_words (container_word p.0) (fault_word p.1))) }
    ensures none { IfNone result ((d : container.ContainerId) (w : weather.Weather) → IsContainer d → rest.now ≡ and_words (container_word d) (fault_word w) → ⊥) }
{
    let Some((word, more)) = split_once(rest, b' ') else {
        let Some(c) = container(rest) else {
            return None;
        };
        return Some((c, Weather::Calm));
    };
    let Some(c) = container(word) else {
        return None;
    };
    let Some(fault) = fault(more) else {
        return None;
    };
    Some((c, fault))
}

/// Before which event a calm stops.
fn stop(words: &[u8]) -> Option<EventName>
    ensures some { IfSome result (λ n. words.now ≡ name_words n) }
    ensures none { IfNone result ((n : name.EventName) → words.now ≡ name_words n → ⊥) }
{
    let Some((word, more)) = split_once(words, b' ') else {
        return None;
    };
    if word != b"before".as_slice() {
        return None;
    }
    event_named(more)
}

/// How far a calm goes, where more stands behind its generation.
fn until(words: &[u8]) -> Option<Until>
    ensures some { IfSome result (λ u. until_words u ≡ Some words.now) }
    ensures none { IfNone result ((u : extent.Until) → until_words u ≡ Some words.now → ⊥) }
{
    if words == b"all".as_slice() {
        return Some(Until::Through);
    }
    match stop(words) {
        Some(name) => Some(Until::Before(name)),
        None => None,
    }
}

/// A generation, and how far a calm goes.
pub fn calming(rest: &[u8]) -> Option<(AppAttempt, Until)>
    ensures some { IfSome result (λ p. IsGeneration p.0 × (rest.now ≡ and_words (decimal p.0) (until_words p.1))) }
    ensures none { IfNone result ((k : ℕ) (u : extent.Until) → IsGeneration k → rest.now ≡ and_words (decimal k) (until_words u) → ⊥) }
{
    let Some((word, more)) = split_once(rest, b' ') else {
        let Some(k) = generation(rest) else {
            return None;
        };
        return Some((k, Until::Most));
    };
    let Some(k) = generation(word) else {
        return None;
    };
    let Some(until) = until(more) else {
        return None;
    };
    Some((k, until))
}
