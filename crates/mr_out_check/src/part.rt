//! Part files, by their names.
ghost use Rattle.std.specs.Prelude.{◌≡◌, ◌-◌, ◌≤◌};
ghost use Rattle.std.specs.List.{list_all};
ghost use Rattle.mr_out_listing.specs.Lines.{is_digit};
ghost use Rattle.mr_out_check.specs.Classes.{digits_number, number_in, part_behind, part_of};

use crate::class::Class;
use mr_out_listing::{are_digits, before};

// The value of a digit.
fn digit(byte: u8) -> u32
    ensures value { result ≡ byte - 48 }
    ensures small { result ≤ 255 }
{
    u32::from(byte).saturating_sub(48)
}

// The number of five digits, or of six or seven with no zero in front.
fn number_in(digits: &[u8]) -> Option<u32>
    ensures { result ≡ number_in digits.now }
{
    match digits {
        [a, b, c, d, e] => Some(
            (((digit(*a) * 10 + digit(*b)) * 10 + digit(*c)) * 10 + digit(*d)) * 10 + digit(*e),
        ),
        [f, a, b, c, d, e] => {
            if *f == b'0' {
                return None;
            }
            Some(
                ((((digit(*f) * 10 + digit(*a)) * 10 + digit(*b)) * 10 + digit(*c)) * 10
                    + digit(*d))
                    * 10
                    + digit(*e),
            )
        }
        [g, f, a, b, c, d, e] => {
            if *g == b'0' {
                return None;
            }
            Some(
                (((((digit(*g) * 10 + digit(*f)) * 10 + digit(*a)) * 10 + digit(*b)) * 10
                    + digit(*c))
                    * 10
                    + digit(*d))
                    * 10
                    + digit(*e),
            )
        }
        _ => None,
    }
}

fn digits_number(word: &[u8]) -> Option<u32>
    ensures { result ≡ digits_number word.now }
{
    if are_digits(word) {
        number_in(word)
    } else {
        None
    }
}

// The number of a part file whose name begins so.
pub(crate) fn part_behind(front: &[u8], name: &[u8]) -> Option<u32>
    ensures { result ≡ part_behind front.now name.now }
{
    if name.starts_with(front) {
        digits_number(before(&name[front.len()..], b'.'))
    } else {
        None
    }
}

/// The number of a name of this class, where it is a part file: from 0 to 9,999,999.
pub fn part_of(class: Class, name: &[u8]) -> Option<u32>
    ensures { result ≡ part_of class name.now }
{
    match class {
        Class::ReducePart => part_behind(b"part-r-", name),
        Class::MapPart => part_behind(b"part-m-", name),
        Class::PlainPart => part_behind(b"part-", name),
        _ => None,
    }
}
