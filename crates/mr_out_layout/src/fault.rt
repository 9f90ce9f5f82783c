//! Why a directory is refused, or a call on it failed.
ghost use Rattle.std.specs.Prelude.{◌≡◌};
ghost use Rattle.mr_out_layout.specs.Faults.{IsRefusal, IsFailure, TellsError, IsPlaced, is_of_path, is_failure_of};
ghost use Rattle.mr_out_layout.specs.declared.fault.Fault.TheVariants.{NoMemory};

use crate::calls::absolute;
use std::alloc::{AllocError, AllocFailed, Global};
use std::fmt::{Display, Formatter, Write};
use std::{fmt, io};

/// Why a directory is refused, or a call on it failed.
#[derive(Debug, Drop)]
pub enum Fault {
    /// Memory was refused.
    NoMemory,
    /// This call failed on this path.
    Call {
        what: &'static str,
        path: String,
        error: io::Error,
    },
    /// What stands at this path is refused.
    Refused {
        path: String,
        why: Why,
    },
    /// Others held the lock for longer than was to be waited.
    Busy,
    /// The history has as many segments as it may have.
    Full,
}

/// Why what stands at a path is refused.
#[derive(Clone, Copy, Debug, PartialEq, Eq)]
pub enum Why {
    /// It has no job of `mrout`.
    NotAJob,
    /// Its job is told in another version, or with values out of range.
    OtherVersion,
    /// It was begun on another host.
    OtherHost,
    /// It is no name of `mrout`, or no regular file.
    Foreign,
    /// The line with this number is no record, and is not the end of what a command wrote.
    Damaged(usize),
    /// It is there already, and is no directory of `mrout`.
    There,
    /// It is there already, with a job of `mrout`.
    ThereAJob,
    /// It is there already, with a job of `mrout` that was begun with another value of this word, or without it.
    OtherWord(&'static str),
    /// There is no such directory.
    NoDirectory,
    /// It cannot end the names of part files.
    BadSuffix,
    /// It cannot be made there: the name has no last part.
    NoName,
    /// The file system gives no second name to a file.
    NoLinks,
    /// It is on a network disk of this kind.
    Network(&'static str),
    /// The file is not there.
    NoFile,
    /// It is no regular file, or it has another name too.
    NotAFile,
    /// It was written while it was synced. It is claimed; say `done` again when it is closed.
    StillWritten,
    /// The file that an attempt handed in is gone.
    Vanished,
    /// It is no attempt of this job, or was not started.
    NoAttempt,
    /// The job has no task of this number.
    NoTask,
    /// Its directory was published, and its history is removed.
    Forgotten,
    /// A sync of it failed, and it was not written anew yet.
    NotSynced,
    /// It was longer before.
    Shorter,
    /// The attempt was begun before the machine was started, or on another one: its file may have lost bytes.
    EarlierBoot,
}

impl Why {
    /// Whether a path is refused, and not a word.
    pub fn is_of_path(self) -> bool
        ensures { result ≡ is_of_path self }
    {
        match self {
            Why::BadSuffix | Why::NoAttempt | Why::NoTask | Why::EarlierBoot => false,
            _ => true,
        }
    }
}

impl Display for Why {
    fn fmt<W: Write>(&self, f: &mut Formatter<W>) -> fmt::Result {
        match self {
            Why::Damaged(line) => write!(f, "line {line} is damaged"),
            Why::Network(kind) => write!(f, "on a network disk ({kind}); use a local one"),
            Why::OtherWord(word) => write!(f, "there already, with a job of another {word}"),
            other => f.write_str(words(*other)),
        }
    }
}

fn words(why: Why) -> &'static str {
    match why {
        Why::NotAJob => "no directory of mrout",
        Why::OtherVersion => "of another version of mrout",
        Why::OtherHost => "of another host (see: mrout resume --here)",
        Why::Foreign => "foreign, not made by mrout; nothing was replaced",
        Why::Damaged(_) => "damaged",
        Why::There => "there already, and no directory of mrout",
        Why::ThereAJob | Why::OtherWord(_) => "there already, with a job of mrout",
        Why::NoDirectory => "no such directory",
        Why::BadSuffix =>
            "no suffix: a full stop, then letters, digits, full stops, hyphens, low lines",
        Why::NoName => "no name for a directory",
        Why::NoLinks => "the file system has no hard links",
        Why::Network(_) => "on a network disk",
        Why::NoFile => "no such file",
        Why::NotAFile => "no regular file with one name",
        Why::StillWritten => "still being written",
        Why::Vanished => "the file that was handed in is gone",
        Why::NoAttempt => "no attempt of this job",
        Why::NoTask => "no task of this job",
        Why::Forgotten => "its history is removed",
        Why::Shorter => "shorter than what was recorded",
        Why::NotSynced => "a sync of it failed (see: mrout resume)",
        Why::EarlierBoot =>
            "begun before this machine was started, so its file may have lost bytes; say fail, and begin another attempt",
    }
}

impl Display for Fault {
    fn fmt<W: Write>(&self, f: &mut Formatter<W>) -> fmt::Result {
        match self {
            Fault::NoMemory => f.write_str("no memory"),
            Fault::Call { what, path, error } => write!(f, "{path}: {what}: {error}"),
            Fault::Refused { path, why } => write!(f, "{path}: {why}"),
            Fault::Busy => f.write_str("busy: others hold the lock"),
            Fault::Full => f.write_str("full"),
        }
    }
}

impl From<AllocError> for Fault {
    ghost from_gives = { λ _ e. e ≡ NoMemory };

    fn from(_error: AllocError) -> Fault {
        Fault::NoMemory
    }
}

impl<T: Drop> From<AllocFailed<T>> for Fault {
    ghost from_gives = { λ _ e. e ≡ NoMemory };

    fn from(_error: AllocFailed<T>) -> Fault {
        Fault::NoMemory
    }
}

impl Fault {
    /// Whether this call failed.
    pub fn is_of(&self, call: &str) -> bool
        ensures { result ≡ is_failure_of call.now self.now }
    {
        match self {
            Fault::Call {
                what,
                path: _,
                error: _,
            } => *what == call,
            _ => false,
        }
    }

    /// The fault with its path told as an absolute one.
    pub fn placed(self, rt: &HostRuntime) -> Fault
        ensures { IsPlaced self result }
    {
        match self {
            Fault::Call { what, path, error } => match absolute(rt, &path) {
                Ok(path) => Fault::Call { what, path, error },
                Err(_) => Fault::NoMemory,
            },
            Fault::Refused { path, why } if why.is_of_path() => match absolute(rt, &path) {
                Ok(path) => Fault::Refused { path, why },
                Err(_) => Fault::NoMemory,
            },
            other => other,
        }
    }

    /// A call that failed on a path. An error that tells of refused memory is told as that.
    pub fn of_call(alloc: Global, what: &'static str, path: &str, error: io::Error) -> Fault
        ensures named { IsFailure what.now path.now result }
        ensures told { TellsError error result }
    {
        if error.kind() == io::ErrorKind::OutOfMemory {
            return Fault::NoMemory;
        }
        match String::from_str(alloc, path) {
            Ok(path) => Fault::Call { what, path, error },
            Err(_) => Fault::NoMemory,
        }
    }

    /// What stands at a path is refused.
    pub fn refused(alloc: Global, path: &str, why: Why) -> Fault
        ensures { IsRefusal path.now why result }
    {
        match String::from_str(alloc, path) {
            Ok(path) => Fault::Refused { path, why },
            Err(_) => Fault::NoMemory,
        }
    }
}
