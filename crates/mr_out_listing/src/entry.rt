//! What a line lists.
ghost use Rattle.std.specs.Prelude.{◌≡◌};
ghost use Rattle.std.specs.Option.{option_map};
ghost use Rattle.mr_out_listing.specs.Lines.{as_sight, sight_in};

use crate::find::find_entry;
use crate::format::Format;
use crate::hdfs::hdfs_entry;

/// What is listed.
#[derive(Clone, Copy, Debug, PartialEq, Eq)]
pub enum Kind {
    /// A file.
    File,
    /// A directory.
    Directory,
    /// A directory, in a listing that is not recursive: it is not told what stands in it.
    Closed,
    /// A link, a pipe, a socket or a device.
    Other,
}

/// What a line lists.
#[derive(Clone, Copy, Drop)]
pub struct Entry<'a> {
    /// Of what kind it is.
    pub kind: Kind,
    /// Whether it has no byte.
    pub empty: bool,
    /// Its path, or its name beneath the directory.
    pub path: &'a [u8],
}

/// What a line without its end lists, in this format. None where it is no such line.
pub fn listed(format: Format, line: &[u8]) -> Option<Entry<'_>>
    ensures { option_map as_sight result ≡ sight_in format line.now }
{
    match format {
        Format::Hdfs => hdfs_entry(line),
        Format::Find | Format::Find0 => find_entry(line),
    }
}
