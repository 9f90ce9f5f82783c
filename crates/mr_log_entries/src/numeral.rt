//! Numbers in a base of at most 64, written and read back.
ghost use Rattle.std.specs.Prelude.{◌≡◌, ◌≤◌, ◌<◌, ◌+◌, ◌*◌, ◌^◌, ◌++◌, ◌∷◌, ◌&&◌, ◌||◌, [], ℕ, List, not, nat_eq, nat_lt, map, length, slice_index, OnOk, IfSome, Some};
ghost use Rattle.std.specs.String.{string_bytes};
ghost use Rattle.std.specs.Int.Digits.{number_from_digits, AllBelowBase};
ghost use Rattle.mr_log_entries.specs.Numerals.{digit_byte, number_text};

use std::alloc::AllocError;

/// Appends a number in a base of at most 64: its digits are `0` to `9`, `a` to `z`, `A` to `Z`, `-`
/// and `_`.
pub fn push_number(out: &mut String, base: u64, n: u64) -> Result<(), AllocError>
    requires low { 2 ≤ base }
    requires high { base ≤ 64 }
    ensures { OnOk result (string_bytes out.new ≡ string_bytes out.old ++ number_text base n) }
{
    if n < base {
        return push_digit(out, n);
    }
    push_number(out, base, n / base)?;
    push_digit(out, n % base)
}

fn push_digit(out: &mut String, digit: u64) -> Result<(), AllocError>
    requires { digit < 64 }
    ensures { OnOk result (string_bytes out.new ≡ string_bytes out.old ++ digit_byte digit ∷ []) }
{
    out.push(char::from(digit_byte(digit as u8)))
}

fn digit_byte(digit: u8) -> u8
    requires { digit < 64 }
    ensures is { result ≡ digit_byte digit }
    ensures ascii { result < 128 }
{
    match digit {
        0..=9 => b'0' + digit,
        10..=35 => b'a' + (digit - 10),
        36..=61 => b'A' + (digit - 36),
        62 => b'-',
        _ => b'_',
    }
}

// How many bytes a number takes.
pub(crate) fn number_len(base: u64, n: u64) -> usize
    requires low { 2 ≤ base }
    requires high { base ≤ 64 }
    ensures len { result ≡ length (number_text base n) }
    ensures small { result ≤ n + 1 }
{
    if n < base {
        1
    } else {
        number_len(base, n / base) + 1
    }
}

/// The number whose text in this base the bytes are, if they are one's below 2^64. Any other
/// spelling is none.
pub fn number_in(bytes: &[u8], base: u64) -> Option<u64>
    requires low { 2 ≤ base }
    requires high { base ≤ 64 }
    ensures found { IfSome result (λ n. (n < 2 ^ 64) × (bytes.now ≡ number_text base n)) }
    ensures only { (n : ℕ) → n < 2 ^ 64 → bytes.now ≡ number_text base n → result ≡ Some n }
{
    if is_tight(bytes) {
        value_of(bytes, base)
    } else {
        None
    }
}

// Whether there is a byte, and no zero in front of another.
fn is_tight(bytes: &[u8]) -> bool
    ensures { result ≡ (nat_eq (length bytes.now) 1 || (nat_lt 1 (length bytes.now) && not (nat_eq (slice_index bytes.now 0) 48))) }
{
    bytes.len() == 1 || (bytes.len() > 1 && bytes[0] != b'0')
}

// The number that digits are, whether zeros stand in front or not.
fn value_of(bytes: &[u8], base: u64) -> Option<u64>
    requires low { 2 ≤ base }
    requires high { base ≤ 64 }
    ensures found { IfSome result (λ n. (n < 2 ^ 64) × (ds : List ℕ) × (bytes.now ≡ map digit_byte ds) × AllBelowBase base ds × (n ≡ number_from_digits base ds)) }
    ensures only { (ds : List ℕ) → AllBelowBase base ds → bytes.now ≡ map digit_byte ds → number_from_digits base ds < 2 ^ 64 → result ≡ Some (number_from_digits base ds) }
{
    let mut value = 0u64;
    let mut rest = bytes;
    while let Some((byte, others)) = rest.split_first() {
        value = with_digit(value, base, *byte)?;
        rest = others;
    }
    Some(value)
}

// The number with one digit more.
fn with_digit(value: u64, base: u64, byte: u8) -> Option<u64>
    requires high { base ≤ 64 }
    ensures found { IfSome result (λ n. (n < 2 ^ 64) × (d : ℕ) × (d < base) × (byte ≡ digit_byte d) × (n ≡ value * base + d)) }
    ensures only { (d : ℕ) → d < base → byte ≡ digit_byte d → value * base + d < 2 ^ 64 → result ≡ Some (value * base + d) }
{
    let digit = digit_in(byte)?;
    if digit >= base {
        return None;
    }
    value.checked_mul(base)?.checked_add(digit)
}

// The digit that a byte stands for.
fn digit_in(byte: u8) -> Option<u64>
    ensures found { IfSome result (λ d. (d < 64) × (byte ≡ digit_byte d)) }
    ensures only { (d : ℕ) → d < 64 → byte ≡ digit_byte d → result ≡ Some d }
{
    match byte {
        b'0'..=b'9' => Some((byte - b'0') as u64),
        b'a'..=b'z' => Some((byte - b'a') as u64 + 10),
        b'A'..=b'Z' => Some((byte - b'A') as u64 + 36),
        b'-' => Some(62),
        b'_' => Some(63),
        _ => None,
    }
}
