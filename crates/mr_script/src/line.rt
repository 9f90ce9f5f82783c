//! One line of a script.
ghost use Rattle.std.specs.Prelude.{◌≡◌, IfSome, IfNone, Some, true, false};
ghost use Rattle.mr_script.specs.declared.command.Command as command;
ghost use Rattle.mr_script.specs.Script.{rest_of, IsCommand, IsLine, IsBad};
ghost use Rattle.mr_script.specs.Verb.{text_of, verb_of, is_of_master, is_of_node, is_of_play};

use crate::arguments::{calming, launching, stepping, with_fault, with_long, with_number};
use crate::command::Command;
use crate::expectation::expected;
use crate::word::{container, long_number, number, split_once};
use mr_ids::JobId;
use mr_world_events::Event;

/// The first word of a command.
#[derive(Clone, Copy, Debug, PartialEq, Eq)]
pub enum Verb {
    Start,
    Crash,
    Duty,
    Launch,
    Deliver,
    Step,
    Compute,
    Die,
    Restart,
    Expire,
    Calm,
    Drop,
    Expect,
}

/// All verbs.
const VERBS: [Verb; 13] = [
    Verb::Start,
    Verb::Crash,
    Verb::Duty,
    Verb::Launch,
    Verb::Deliver,
    Verb::Step,
    Verb::Compute,
    Verb::Die,
    Verb::Restart,
    Verb::Expire,
    Verb::Calm,
    Verb::Drop,
    Verb::Expect,
];

/// The word of a verb.
fn word_of(verb: Verb) -> &'static [u8]
    ensures { result.now ≡ text_of verb }
{
    match verb {
        Verb::Start => b"start",
        Verb::Crash => b"crash",
        Verb::Duty => b"duty",
        Verb::Launch => b"launch",
        Verb::Deliver => b"deliver",
        Verb::Step => b"step",
        Verb::Compute => b"compute",
        Verb::Die => b"die",
        Verb::Restart => b"restart",
        Verb::Expire => b"expire",
        Verb::Calm => b"calm",
        Verb::Drop => b"drop",
        Verb::Expect => b"expect",
    }
}

/// The verb that the word is.
fn verb_named(word: &[u8]) -> Option<Verb>
    ensures some { IfSome result (λ v. word.now ≡ text_of v) }
    ensures none { IfNone result ((v : Verb) → word.now ≡ text_of v → ⊥) }
{
    for verb in &VERBS {
        if word == word_of(*verb) {
            return Some(*verb);
        }
    }
    None
}

/// The command of a verb that tells a master, and no node.
fn of_master(job: JobId, verb: Verb, rest: &[u8]) -> Option<Command>
    ensures some { IfSome result (λ c. IsCommand job c × (verb_of c ≡ Some verb) × (rest_of c ≡ rest.now)) }
    ensures none { IfNone result (is_of_master verb ≡ true → (c : command.Command) → IsCommand job c → verb_of c ≡ Some verb → rest_of c ≡ rest.now → ⊥) }
{
    match verb {
        Verb::Start => match with_long(rest) {
            Some((k, kept)) => Some(Command::Makes(Event::Start {
                generation: k.number(),
                kept,
            })),
            None => None,
        },
        Verb::Crash => match with_long(rest) {
            Some((k, kept)) => Some(Command::Makes(Event::Crash {
                generation: k.number(),
                kept,
            })),
            None => None,
        },
        Verb::Duty => match with_fault(rest) {
            Some((k, weather)) => Some(Command::Makes(Event::Duty {
                generation: k.number(),
                weather,
            })),
            None => None,
        },
        Verb::Calm => match calming(rest) {
            Some((k, until)) => Some(Command::Calm(k.number(), until)),
            None => None,
        },
        _ => None,
    }
}

/// The command of a verb that tells a node.
fn of_node(job: JobId, verb: Verb, rest: &[u8]) -> Option<Command>
    ensures some { IfSome result (λ c. IsCommand job c × (verb_of c ≡ Some verb) × (rest_of c ≡ rest.now)) }
    ensures none { IfNone result (is_of_node verb ≡ true → (c : command.Command) → IsCommand job c → verb_of c ≡ Some verb → rest_of c ≡ rest.now → ⊥) }
{
    match verb {
        Verb::Launch => match launching(job, rest) {
            Some((k, task, node)) => Some(Command::Makes(Event::LaunchOn {
                generation: k.number(),
                task,
                node,
            })),
            None => None,
        },
        Verb::Expire => match with_number(rest) {
            Some((k, node)) => Some(Command::Makes(Event::Expire {
                generation: k.number(),
                node,
            })),
            None => None,
        },
        Verb::Restart => match number(rest) {
            Some(node) => Some(Command::Makes(Event::NodeRestart { node })),
            None => None,
        },
        _ => None,
    }
}

/// The command of a verb that tells a packet or a container.
fn of_others(job: JobId, verb: Verb, rest: &[u8]) -> Option<Command>
    ensures some { IfSome result (λ c. IsCommand job c × (verb_of c ≡ Some verb) × (rest_of c ≡ rest.now)) }
    ensures none { IfNone result (is_of_master verb ≡ false → is_of_node verb ≡ false → is_of_play verb ≡ false → (c : command.Command) → IsCommand job c → verb_of c ≡ Some verb → rest_of c ≡ rest.now → ⊥) }
{
    match verb {
        Verb::Deliver => match long_number(rest) {
            Some(packet) => Some(Command::Makes(Event::Deliver { packet })),
            None => None,
        },
        Verb::Step => match stepping(rest) {
            Some((container, weather)) => {
                Some(Command::Makes(Event::ContainerStep { container, weather }))
            }
            None => None,
        },
        Verb::Compute => match container(rest) {
            Some(c) => Some(Command::Compute(c)),
            None => None,
        },
        Verb::Die => match container(rest) {
            Some(container) => Some(Command::Makes(Event::Die { container })),
            None => None,
        },
        _ => None,
    }
}

/// The command of a verb of the play alone.
fn of_play(job: JobId, verb: Verb, rest: &[u8]) -> Option<Command>
    ensures some { IfSome result (λ c. IsCommand job c × (verb_of c ≡ Some verb) × (rest_of c ≡ rest.now)) }
    ensures none { IfNone result (is_of_play verb ≡ true → (c : command.Command) → IsCommand job c → verb_of c ≡ Some verb → rest_of c ≡ rest.now → ⊥) }
{
    match verb {
        Verb::Drop => match long_number(rest) {
            Some(packet) => Some(Command::Drop(packet)),
            None => None,
        },
        Verb::Expect => match expected(rest) {
            Some(expectation) => Some(Command::Expect(expectation)),
            None => None,
        },
        _ => None,
    }
}

/// The command of a verb.
fn with_rest(job: JobId, verb: Verb, rest: &[u8]) -> Option<Command>
    ensures some { IfSome result (λ c. IsCommand job c × (verb_of c ≡ Some verb) × (rest_of c ≡ rest.now)) }
    ensures none { IfNone result ((c : command.Command) → IsCommand job c → verb_of c ≡ Some verb → rest_of c ≡ rest.now → ⊥) }
{
    match verb {
        Verb::Start | Verb::Crash | Verb::Duty | Verb::Calm => of_master(job, verb, rest),
        Verb::Launch | Verb::Restart | Verb::Expire => of_node(job, verb, rest),
        Verb::Deliver | Verb::Step | Verb::Compute | Verb::Die => of_others(job, verb, rest),
        Verb::Drop | Verb::Expect => of_play(job, verb, rest),
    }
}

/// The command that the line is, in a script for a run of the job.
pub fn command_in(job: JobId, line: &[u8]) -> Option<Command>
    ensures some { IfSome result (IsLine job line.now) }
    ensures none { IfNone result (IsBad job line.now) }
{
    let Some((word, rest)) = split_once(line, b' ') else {
        return None;
    };
    let Some(verb) = verb_named(word) else {
        return None;
    };
    with_rest(job, verb, rest)
}
