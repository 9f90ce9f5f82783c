//! The ends of lines, and the fronts of paths.
ghost use Rattle.std.specs.Prelude.{◌≡◌, ◌-◌, length, slice_get, option_copied, IfOk};
ghost use Rattle.mr_out_listing.specs.Lines.{is_crlf, line_in, without_last, without_return};
ghost use Rattle.mr_out_listing.specs.Reading.{beneath, folder_of, is_slash, slashed};

use crate::format::Format;
use std::alloc::{AllocError, Global};

// Without the last byte, where that is this one.
fn without_last(bytes: &[u8], last: u8) -> Option<&[u8]>
    ensures { option_copied result ≡ without_last last bytes.now }
{
    match bytes.last() {
        Some(byte) if *byte == last => Some(&bytes[..bytes.len() - 1]),
        _ => None,
    }
}

// The line of a piece that ends as lines do here.
pub(crate) fn line_in(format: Format, crlf: bool, piece: &[u8]) -> Option<&[u8]>
    ensures { option_copied result ≡ line_in format crlf piece.now }
{
    let line = without_last(piece, format.end())?;
    if crlf {
        without_last(line, b'\r')
    } else {
        Some(line)
    }
}

// Whether a line ends with a carriage return and a line feed.
pub(crate) fn is_crlf(format: Format, piece: &[u8]) -> bool
    ensures { result ≡ is_crlf format piece.now }
{
    format.may_be_crlf() && line_in(format, true, piece).is_some()
}

// What is left of a path beneath the directory of this front.
pub(crate) fn beneath<'a>(path: &'a [u8], top: &[u8]) -> Option<&'a [u8]>
    ensures { option_copied result ≡ beneath top.now path.now }
{
    if path.starts_with(top) {
        Some(&path[top.len()..])
    } else {
        None
    }
}

fn ends_with_slash(path: &[u8]) -> bool
    ensures { result ≡ is_slash (slice_get path.now (length path.now - 1)) }
{
    match path.last() {
        Some(byte) => *byte == b'/',
        None => false,
    }
}

// The path with a slash behind it, if there is none.
pub(crate) fn slashed(alloc: Global, path: &[u8]) -> Result<Vec<u8>, AllocError>
    ensures { IfOk result (λ top. top.items ≡ slashed path.now) }
{
    let mut top = Vec::from_slice(alloc, path)?;
    if !ends_with_slash(path) {
        top.push(b'/')?;
    }
    Ok(top)
}

// How much of a path stands up to its last slash, and with it.
pub(crate) fn folder_of(path: &[u8]) -> &[u8]
    ensures { result.now ≡ folder_of path.now }
{
    let mut len = path.len();
    while 0 < len && path[len - 1] != b'/' {
        len -= 1;
    }
    &path[..len]
}
