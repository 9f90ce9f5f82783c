//! The forms of a listing.
ghost use Rattle.std.specs.Prelude.{◌≡◌};
ghost use Rattle.mr_out_listing.specs.Lines.{end_of, may_be_crlf};

/// In which form a directory is listed.
#[derive(Clone, Copy, Debug, PartialEq, Eq)]
pub enum Format {
    /// The lines of `hdfs dfs -ls -R DIR`; or those of `hdfs dfs -ls DIR`, which list nothing of what stands in a folder.
    Hdfs,
    /// Those of `find DIR -printf '%y %s %p\n'`.
    Find,
    /// Those of `find DIR -printf '%y %s %p\0'`, each ended by a zero byte.
    Find0,
}

impl Format {
    /// The byte that ends a line.
    pub fn end(self) -> u8
        ensures { result ≡ end_of self }
    {
        match self {
            Format::Hdfs | Format::Find => b'\n',
            Format::Find0 => 0,
        }
    }

    /// Whether lines may end with a carriage return and a line feed.
    pub fn may_be_crlf(self) -> bool
        ensures { result ≡ may_be_crlf self }
    {
        match self {
            Format::Hdfs | Format::Find => true,
            Format::Find0 => false,
        }
    }
}
