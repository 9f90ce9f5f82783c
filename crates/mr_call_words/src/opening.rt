//! The first word of a line: which call it is, or which answer.
ghost use Rattle.std.specs.Prelude.{◌≡◌, Some};
ghost use Rattle.mr_call_words.specs.declared.opening.Opening.{Opening};
ghost use Rattle.mr_call_words.specs.inner.Opening.{opening_text};

/// The first word of a call's or an answer's line.
#[derive(Clone, Copy, Debug, PartialEq, Eq)]
pub enum Opening {
    Mkdirs,
    Create,
    Append,
    Close,
    Delete,
    Rename,
    List,
    Exists,
    Read,
    Bar,
    Done,
    Entries,
    Nothing,
    A,
    Bytes,
    Superseded,
    Barred,
    Missing,
    AlreadyThere,
    NotDir,
    NotFile,
    Closed,
    NoParent,
    IntoItself,
    Full,
    NoMemory,
}

/// All first words.
const OPENINGS: [Opening; 26] = [
    Opening::Mkdirs,
    Opening::Create,
    Opening::Append,
    Opening::Close,
    Opening::Delete,
    Opening::Rename,
    Opening::List,
    Opening::Exists,
    Opening::Read,
    Opening::Bar,
    Opening::Done,
    Opening::Entries,
    Opening::Nothing,
    Opening::A,
    Opening::Bytes,
    Opening::Superseded,
    Opening::Barred,
    Opening::Missing,
    Opening::AlreadyThere,
    Opening::NotDir,
    Opening::NotFile,
    Opening::Closed,
    Opening::NoParent,
    Opening::IntoItself,
    Opening::Full,
    Opening::NoMemory,
];

/// The text of a first word.
fn opening_text(opening: Opening) -> &'static [u8]
    ensures { result.now ≡ opening_text opening }
{
    match opening {
        Opening::Mkdirs => b"mkdirs",
        Opening::Create => b"create",
        Opening::Append => b"append",
        Opening::Close => b"close",
        Opening::Delete => b"delete",
        Opening::Rename => b"rename",
        Opening::List => b"list",
        Opening::Exists => b"exists",
        Opening::Read => b"read",
        Opening::Bar => b"bar",
        Opening::Done => b"done",
        Opening::Entries => b"entries",
        Opening::Nothing => b"nothing",
        Opening::A => b"a",
        Opening::Bytes => b"bytes",
        Opening::Superseded => b"Superseded",
        Opening::Barred => b"Barred",
        Opening::Missing => b"Missing",
        Opening::AlreadyThere => b"Exists",
        Opening::NotDir => b"NotDir",
        Opening::NotFile => b"NotFile",
        Opening::Closed => b"Closed",
        Opening::NoParent => b"NoParent",
        Opening::IntoItself => b"IntoItself",
        Opening::Full => b"Full",
        Opening::NoMemory => b"NoMemory",
    }
}

/// The first word that this is, if it is one.
pub fn opening_named(word: &[u8]) -> Option<Opening>
    ensures { (o : Opening) → word.now ≡ opening_text o → result ≡ Some o }
{
    for opening in &OPENINGS {
        if word == opening_text(*opening) {
            return Some(*opening);
        }
    }
    None
}
