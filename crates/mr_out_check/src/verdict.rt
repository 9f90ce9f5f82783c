//! The answer to: may this directory be read?
ghost use Rattle.std.specs.Prelude.{◌≡◌, map};
ghost use Rattle.std.specs.List.{list_any};
ghost use Rattle.mr_out_check.specs.Classes.{is_strange, is_work, same_class};
ghost use Rattle.mr_out_check.specs.Printed.{status_of, worse};
ghost use Rattle.mr_out_check.specs.Seen.{Noted, as_noted};
ghost use Rattle.mr_out_check.specs.Verdicts.{answer, came, families_mix, is_even, is_one, lacks, marker_standing, met_if, renames_whole, same_standing, some_stands, standing, strange_came, tasks_standing, work_came, work_standing};

use crate::class::Class;
use crate::numbers::{all_once, any_never};
use crate::premise::{PREMISES, Premise, Standing};
use crate::seen::{Note, Seen};
use crate::told::{Store, Told};

/// May the directory be read?
#[derive(Clone, Copy, Debug, PartialEq, Eq)]
pub enum Answer {
    /// All premises are shown or told.
    Yes,
    /// A premise does not hold.
    No,
    /// Some premises are neither shown nor told, and none is broken.
    ItDepends,
}

impl Answer {
    /// The status with which the program ends: 0 for yes, 1 for no, 8 where it depends.
    pub fn status(self) -> u8
        ensures { result ≡ status_of self }
    {
        match self {
            Answer::Yes => 0,
            Answer::No => 1,
            Answer::ItDepends => 8,
        }
    }

    /// The answer of two directories together.
    pub fn worse(self, other: Answer) -> Answer
        ensures { result ≡ worse self other }
    {
        match self {
            Answer::No => Answer::No,
            Answer::Yes => other,
            Answer::ItDepends => match other {
                Answer::No => Answer::No,
                Answer::Yes | Answer::ItDepends => Answer::ItDepends,
            },
        }
    }
}

// Whether a note is of the class.
fn notes_class(notes: &[Note], class: Class) -> bool
    ensures { result ≡ list_any (λ (n : Noted). same_class n.class class) (map as_noted notes.now) }
{
    for note in notes {
        if note.class.is(class) {
            return true;
        }
    }
    false
}

fn notes_work(notes: &[Note]) -> bool
    ensures { result ≡ list_any (λ (n : Noted). is_work n.class) (map as_noted notes.now) }
{
    for note in notes {
        if note.class.is_work() {
            return true;
        }
    }
    false
}

fn notes_strange(notes: &[Note]) -> bool
    ensures { result ≡ list_any (λ (n : Noted). is_strange n.class) (map as_noted notes.now) }
{
    for note in notes {
        if note.class.is_strange() {
            return true;
        }
    }
    false
}

fn came(seen: &Seen, class: Class) -> bool
    ensures { result ≡ came class seen.now }
{
    notes_class(seen.notes(), class)
}

fn work_came(seen: &Seen) -> bool
    ensures { result ≡ work_came seen.now }
{
    notes_work(seen.notes())
}

fn strange_came(seen: &Seen) -> bool
    ensures { result ≡ strange_came seen.now }
{
    notes_strange(seen.notes())
}

// Whether there are part files of more than one family.
fn families_mix(seen: &Seen) -> bool
    ensures { result ≡ families_mix seen.now }
{
    let reduces = came(seen, Class::ReducePart);
    let maps = came(seen, Class::MapPart);
    let plain = came(seen, Class::PlainPart);
    (reduces && maps) || (reduces && plain) || (maps && plain)
}

// Whether a part of the first `tasks` is missing.
fn lacks(seen: &Seen, tasks: u32) -> bool
    ensures { result ≡ lacks tasks seen.now }
{
    let tally = seen.tally();
    let tasks = tasks as usize;
    tally.len() < tasks || any_never(&tally[..tasks])
}

// Whether there are part files, and each number up to the highest came once.
fn is_even(seen: &Seen) -> bool
    ensures { result ≡ is_even seen.now }
{
    let tally = seen.tally();
    0 < tally.len() && all_once(tally)
}

fn met_if(shown: bool) -> Standing
    ensures { result ≡ met_if shown }
{
    if shown { Standing::Met } else { Standing::Open }
}

fn is_one(number: Option<u32>) -> bool
    ensures { result ≡ is_one number }
{
    matches!(number, Some(1))
}

fn renames_whole(store: Option<Store>) -> bool
    ensures { result ≡ renames_whole store }
{
    matches!(store, Some(Store::Local | Store::Hdfs))
}

fn marker_standing(seen: &Seen) -> Standing
    ensures { result ≡ marker_standing seen.now }
{
    if came(seen, Class::Marker) {
        return Standing::Met;
    }
    if came(seen, Class::MarkerWithBytes) {
        return Standing::Open;
    }
    Standing::Broken
}

fn tasks_standing(seen: &Seen, tasks: Option<u32>) -> Standing
    ensures { result ≡ tasks_standing tasks seen.now }
{
    let Some(tasks) = tasks else {
        return Standing::Open;
    };
    if lacks(seen, tasks) {
        return Standing::Broken;
    }
    met_if(seen.tally().len() <= tasks as usize)
}

fn work_standing(seen: &Seen) -> Standing
    ensures { result ≡ work_standing seen.now }
{
    if work_came(seen) {
        Standing::Broken
    } else {
        met_if(!came(seen, Class::TemporaryClosed))
    }
}

/// Whether a premise is met, open or broken by what was seen and what is told.
pub fn standing(premise: Premise, seen: &Seen, told: &Told) -> Standing
    ensures { result ≡ standing premise seen.now told.now }
{
    match premise {
        Premise::Marker => marker_standing(seen),
        Premise::WorkDone => work_standing(seen),
        Premise::Tasks => tasks_standing(seen, told.tasks),
        Premise::Numbers => met_if(is_even(seen)),
        Premise::Family => met_if(!families_mix(seen)),
        Premise::Names => met_if(!strange_came(seen)),
        Premise::Mrout => met_if(!came(seen, Class::Mrout)),
        Premise::AppAttempts => met_if(is_one(told.app_attempts)),
        Premise::TaskAttempts => met_if(is_one(told.task_attempts)),
        Premise::Algorithm => met_if(is_one(told.algorithm)),
        Premise::Store => met_if(renames_whole(told.store)),
        Premise::Order => met_if(told.listed_after_marker),
    }
}

// Whether some premise stands so.
fn some_stands(at: Standing, seen: &Seen, told: &Told) -> bool
    ensures { result ≡ some_stands at seen.now told.now }
{
    some_of_stands(&PREMISES, at, seen, told)
}

fn some_of_stands(premises: &[Premise], at: Standing, seen: &Seen, told: &Told) -> bool
    ensures { result ≡ list_any (λ p. same_standing (standing p seen.now told.now) at) premises.now }
{
    for premise in premises {
        if standing(*premise, seen, told).is(at) {
            return true;
        }
    }
    false
}

/// May the directory be read? No where a premise is broken; it depends where one is open; else yes.
pub fn judge(seen: &Seen, told: &Told) -> Answer
    ensures { result ≡ answer seen.now told.now }
{
    if some_stands(Standing::Broken, seen, told) {
        return Answer::No;
    }
    if some_stands(Standing::Open, seen, told) {
        return Answer::ItDepends;
    }
    Answer::Yes
}
