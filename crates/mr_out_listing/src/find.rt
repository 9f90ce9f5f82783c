//! A line of `find`.
ghost use Rattle.std.specs.Prelude.{◌≡◌};
ghost use Rattle.std.specs.Option.{option_map};
ghost use Rattle.mr_out_listing.specs.Lines.{as_sight, find_sight, kind_of_letter, kind_of_word};

use crate::entry::{Entry, Kind};
use crate::fields::{before, behind, is_number, is_zero};

fn kind_of_letter(letter: u8) -> Option<Kind>
    ensures { result ≡ kind_of_letter letter }
{
    match letter {
        b'f' => Some(Kind::File),
        b'd' => Some(Kind::Directory),
        b'l' | b'p' | b's' | b'b' | b'c' => Some(Kind::Other),
        _ => None,
    }
}

fn kind_of_word(word: &[u8]) -> Option<Kind>
    ensures { result ≡ kind_of_word word.now }
{
    match word {
        [letter] => kind_of_letter(*letter),
        _ => None,
    }
}

// What the line lists: the kind, a blank, the size, a blank, and the path.
pub(crate) fn find_entry(line: &[u8]) -> Option<Entry<'_>>
    ensures { option_map as_sight result ≡ find_sight line.now }
{
    let sized = behind(line, b' ');
    let size = before(sized, b' ');
    let path = behind(sized, b' ');
    if !is_number(size) || path.is_empty() {
        return None;
    }
    let kind = kind_of_word(before(line, b' '))?;
    Some(Entry {
        kind,
        empty: is_zero(size),
        path,
    })
}
