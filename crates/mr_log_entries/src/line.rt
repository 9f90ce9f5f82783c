//! The lines of an entry.
use mr_ids::AttemptId;

/// What an attempt that won has handed in.
#[derive(Clone, Copy, Debug, PartialEq, Eq)]
pub enum Handed {
    /// One file: the number that its disk gave it, and its length in bytes.
    File { inode: u64, bytes: u64 },
    /// All that its folder holds, so many bytes in its files. The list of it has the id of the
    /// entry in its name.
    Folder { bytes: u64 },
}

/// What one line of an entry records.
#[derive(Clone, Copy, Debug, PartialEq, Eq)]
pub enum Line {
    /// The attempt was begun, in the boot that the entry names.
    Started(AttemptId),
    /// The attempt has succeeded: where it is the first of its task, it is the winner.
    Won { attempt: AttemptId, handed: Handed },
    /// The attempt failed, or was given up: it never wins. It counts where the job has a limit.
    Failed(AttemptId),
    /// The attempt was cut off, by the end of its boot or of a command that handed it in: it never
    /// wins, and does not count.
    Interrupted(AttemptId),
    /// The job was ended as failed.
    Unsuccessful,
    /// A held job is to be published.
    Publish,
    /// The job is published: the marker, and all that the winners handed in, have their visible
    /// names for good.
    Published,
}
