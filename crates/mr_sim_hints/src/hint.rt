//! Where a line that is no command goes wrong.
ghost use Rattle.std.specs.Prelude.{◌≡◌};
ghost use Rattle.mr_sim_hints.specs.Places.{place_of};

use crate::forms::{MOST_FORMS, Script, verb_of};
use std::fmt;

/// What is wrong with a line. Words are counted from 1.
#[derive(Clone, Copy, Debug, PartialEq, Eq)]
pub enum Trouble {
    /// It ends with a carriage return.
    CarriageReturn,
    /// Its first word begins no command.
    NoCommand,
    /// This word does not fit.
    Bad(usize),
    /// It ends before this word.
    Missing(usize),
    /// This word is one too many.
    TooMany(usize),
    /// This word begins a comment, where none may stand.
    Comment(usize),
    /// This word is empty, since there is a space before or behind it that should not be there.
    Empty(usize),
    /// This word has a tab.
    Tab(usize),
}

impl Trouble {
    /// Which word it is about: the first one, where it is about the whole line.
    pub fn place(&self) -> usize
        ensures { result ≡ place_of self.now }
    {
        match self {
            Trouble::CarriageReturn | Trouble::NoCommand => 1,
            Trouble::Bad(word)
            | Trouble::Missing(word)
            | Trouble::TooMany(word)
            | Trouble::Comment(word)
            | Trouble::Empty(word)
            | Trouble::Tab(word) => *word,
        }
    }
}

impl fmt::Display for Trouble {
    fn fmt<W: fmt::Write>(&self, f: &mut fmt::Formatter<W>) -> fmt::Result {
        match self {
            Trouble::CarriageReturn => f.write_str("the line ends with a carriage return"),
            Trouble::NoCommand => f.write_str("word 1 is no command"),
            Trouble::Bad(word) => write!(f, "word {word} does not fit"),
            Trouble::Missing(word) => write!(f, "word {word} is missing"),
            Trouble::TooMany(word) => write!(f, "word {word} is one too many"),
            Trouble::Comment(word) => {
                write!(
                    f,
                    "word {word} begins with #, but a comment is a line of its own"
                )
            }
            Trouble::Empty(word) => write!(f, "word {word} is empty, by a space too many"),
            Trouble::Tab(word) => write!(f, "word {word} has a tab, where a space parts words"),
        }
    }
}

/// What is told of a line that is no command: what is wrong with it, and what was expected. It is written as a line, without a line feed.
#[derive(Clone, Copy, Debug, PartialEq, Eq)]
pub struct Hint {
    pub trouble: Trouble,
    script: Script,
    // What was expected, where its first word begins a command.
    expected: Option<Expected>,
}

// What was expected in a line.
#[derive(Clone, Copy, Debug, PartialEq, Eq)]
struct Expected {
    // The forms of its command.
    forms: &'static str,
    // With which of them, in their order, the line goes furthest.
    fitting: [bool; MOST_FORMS],
    // What the word stands for at which it goes wrong.
    meaning: Option<&'static str>,
}

impl Expected {
    // Whether the line goes furthest with the form of this number.
    fn fits(&self, number: usize) -> bool {
        match self.fitting.get(number) {
            Some(fits) => *fits,
            None => false,
        }
    }
}

impl fmt::Display for Hint {
    fn fmt<W: fmt::Write>(&self, f: &mut fmt::Formatter<W>) -> fmt::Result {
        let trouble = self.trouble;
        if trouble == Trouble::CarriageReturn {
            return write!(f, "{trouble}");
        }
        write!(f, "{trouble}: expected ")?;
        match &self.expected {
            Some(expected) => put_expected(f, expected),
            None => put_verbs(f, self.script.commands()),
        }
    }
}

// The first words of all commands.
fn put_verbs<W: fmt::Write>(f: &mut fmt::Formatter<W>, commands: &[&str]) -> fmt::Result {
    let mut is_first = true;
    for forms in commands {
        if !is_first {
            f.write_str(", ")?;
        }
        f.write_str(verb_of(forms))?;
        is_first = false;
    }
    f.write_str(" or # ..")
}

// The forms that fit, and what the word stands for that is to be changed.
fn put_expected<W: fmt::Write>(f: &mut fmt::Formatter<W>, expected: &Expected) -> fmt::Result {
    let mut is_first = true;
    for (number, form) in expected.forms.split('|').enumerate() {
        if expected.fits(number) {
            if !is_first {
                f.write_str(", or ")?;
            }
            f.write_str(form)?;
            is_first = false;
        }
    }
    match expected.meaning {
        Some(meaning) => write!(f, "; {meaning}"),
        None => Ok(()),
    }
}

/// What is to be told of a line of a script that is no command; nothing where each of its words fits.
pub fn hint_of(script: Script, line: &[u8]) -> Option<Hint> {
    let forms = forms_for(&script, line);
    let trouble = match forms {
        Some(forms) => trouble_among(&script, forms, line)?,
        None => at_word(first_word(line), Trouble::NoCommand),
    };
    let expected = match forms {
        Some(forms) => Some(expected_at(&script, forms, line, trouble.place())),
        None => None,
    };
    Some(Hint {
        trouble: if line.ends_with(b"\r") {
            Trouble::CarriageReturn
        } else {
            trouble
        },
        script,
        expected,
    })
}

// The first word of a line.
fn first_word(line: &[u8]) -> &[u8] {
    match line.split(|byte| *byte == b' ').next() {
        Some(word) => word,
        None => line,
    }
}

// The forms of the command that the line's first word begins.
fn forms_for(script: &Script, line: &[u8]) -> Option<&'static str> {
    let word = first_word(line);
    for forms in script.commands() {
        if word == verb_of(forms).as_bytes() {
            return Some(*forms);
        }
    }
    None
}

// What is wrong with the line, by the last of the forms with which it goes furthest; nothing where one of them takes it all.
fn trouble_among(script: &Script, forms: &str, line: &[u8]) -> Option<Trouble> {
    let mut furthest = Trouble::NoCommand;
    for form in forms.split('|') {
        let trouble = trouble_with(script, form, line)?;
        if furthest.place() <= trouble.place() {
            furthest = trouble;
        }
    }
    Some(furthest)
}

// The forms with which the line goes as far as to the word at this place.
fn expected_at(script: &Script, forms: &'static str, line: &[u8], place: usize) -> Expected {
    let mut fitting = [false; MOST_FORMS];
    let mut meaning = None;
    for (number, form) in forms.split('|').enumerate() {
        let fits = goes_to(script, form, line, place);
        if fits && meaning.is_none() {
            meaning = meaning_at(script, form, place);
        }
        if let Some(flag) = fitting.get_mut(number) {
            *flag = fits;
        }
    }
    Expected {
        forms,
        fitting,
        meaning,
    }
}

// Whether the line goes wrong at this place, where its command has this form alone.
fn goes_to(script: &Script, form: &str, line: &[u8], place: usize) -> bool {
    match trouble_with(script, form, line) {
        Some(trouble) => trouble.place() == place,
        None => false,
    }
}

// What the word of a form at this place stands for.
fn meaning_at(script: &Script, form: &str, place: usize) -> Option<&'static str> {
    script.meaning(form.split(' ').nth(place.saturating_sub(1))?)
}

// What is wrong with the line, where its command has this form alone; nothing where the form takes it all.
fn trouble_with(script: &Script, form: &str, line: &[u8]) -> Option<Trouble> {
    let mut words = line.split(|byte| *byte == b' ');
    let mut place = 0usize;
    for part in form.split(' ') {
        place = place.saturating_add(1);
        let Some(word) = words.next() else {
            return Some(Trouble::Missing(place));
        };
        if part == "TEXT" {
            return None;
        }
        if !script.takes(form, part, word) {
            return Some(at_word(word, Trouble::Bad(place)));
        }
    }
    match words.next() {
        Some(word) => Some(at_word(word, Trouble::TooMany(place.saturating_add(1)))),
        None => None,
    }
}

// The trouble with a word, which is told otherwise where the word is empty, has a tab, or begins a comment behind a command.
fn at_word(word: &[u8], trouble: Trouble) -> Trouble {
    if word.is_empty() {
        Trouble::Empty(trouble.place())
    } else if word.starts_with(b"#") && matches!(trouble, Trouble::TooMany(_)) {
        Trouble::Comment(trouble.place())
    } else if word.contains(&b'\t') {
        Trouble::Tab(trouble.place())
    } else {
        trouble
    }
}
