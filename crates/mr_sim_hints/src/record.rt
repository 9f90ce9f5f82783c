//! What is wrong with a line of a segment that is no record.
use mr_ids::TaskKind;
use mr_script::{attempt, split_once};
use std::fmt;

/// What is told of a line of a segment that is no record: what is wrong with it, and what was expected. It is written as a line, without a line feed.
#[derive(Clone, Copy, Debug, PartialEq, Eq)]
pub struct RecordHint {
    pub trouble: RecordTrouble,
    // Whether the segment is of version 2.
    is_of_2: bool,
}

/// What is wrong with a line of a segment that is no record.
#[derive(Clone, Copy, Debug, PartialEq, Eq)]
pub enum RecordTrouble {
    /// The segment begins as a history file of Hadoop itself does.
    OfHadoop,
    /// It begins with a byte order mark.
    ByteOrderMark,
    /// It ends with a carriage return.
    CarriageReturn,
    /// In a segment of version 2 it is a reduce's record of version 1, which tells no length.
    NoBytes,
    /// In a segment of version 1 it tells a length, as a reduce's record of version 2 does.
    Bytes,
    /// It is spelled otherwise than a record.
    NoRecord,
}

// What a segment of version 2 begins with.
const VERSION_2: &[u8] = b"{\"version\":2}";

impl RecordHint {
    /// What is to be told of this line, which has this number in its segment, from 1; `first` is the segment's first line.
    pub fn of(line: &[u8], number: usize, first: &[u8]) -> RecordHint {
        let is_of_2 = first == VERSION_2;
        let trouble = if number == 1 && is_of_hadoop(line) {
            RecordTrouble::OfHadoop
        } else if line.starts_with(b"\xef\xbb\xbf") {
            RecordTrouble::ByteOrderMark
        } else if line.ends_with(b"\r") {
            RecordTrouble::CarriageReturn
        } else if is_of_2 {
            trouble_where(tells_no_length(line), RecordTrouble::NoBytes)
        } else {
            trouble_where(tells_length(line), RecordTrouble::Bytes)
        };
        RecordHint { trouble, is_of_2 }
    }
}

// This trouble, where it is so.
fn trouble_where(is_so: bool, trouble: RecordTrouble) -> RecordTrouble {
    if is_so {
        trouble
    } else {
        RecordTrouble::NoRecord
    }
}

// Whether a history file of Hadoop begins so: of its second and third versions, or of its first.
fn is_of_hadoop(line: &[u8]) -> bool {
    line.starts_with(b"Avro-") || line.starts_with(b"Meta VERSION=")
}

// Whether it is a reduce's record of version 1.
fn tells_no_length(line: &[u8]) -> bool {
    match behind_attempt(line) {
        Some(rest) => rest == b",\"event\":\"reduce\"}".as_slice(),
        None => false,
    }
}

// Whether it tells a length behind a reduce's attempt.
fn tells_length(line: &[u8]) -> bool {
    match behind_attempt(line) {
        Some(rest) => rest.starts_with(b",\"bytes\":"),
        None => false,
    }
}

// What stands behind a reduce's attempt and its quote, where the line begins with one.
fn behind_attempt(line: &[u8]) -> Option<&[u8]> {
    let named = line.strip_prefix(b"{\"attempt\":\"".as_slice())?;
    let (name, rest) = split_once(named, b'"')?;
    let attempt = attempt(name)?;
    if attempt.task().kind == TaskKind::Reduce {
        Some(rest)
    } else {
        None
    }
}

impl fmt::Display for RecordTrouble {
    fn fmt<W: fmt::Write>(&self, f: &mut fmt::Formatter<W>) -> fmt::Result {
        f.write_str(match self {
            RecordTrouble::OfHadoop =>
                "this is a history file of Hadoop itself (.jhist), which is not read here: ",
            RecordTrouble::ByteOrderMark => "it begins with a byte order mark: ",
            RecordTrouble::CarriageReturn => "the line ends with a carriage return: ",
            RecordTrouble::NoBytes => "the key \"bytes\" is missing, which version 2 has: ",
            RecordTrouble::Bytes =>
                "it has the key \"bytes\", which version 1 lacks (version 2 begins with the line {\"version\":2}): ",
            RecordTrouble::NoRecord => "",
        })
    }
}

impl fmt::Display for RecordHint {
    fn fmt<W: fmt::Write>(&self, f: &mut fmt::Formatter<W>) -> fmt::Result {
        let trouble = self.trouble;
        write!(f, "{trouble}expected a record as compact JSON, as ")?;
        f.write_str(if self.is_of_2 {
            "{\"attempt\":\"attempt_200707121733_0003_r_000000_0\",\"bytes\":8,\"event\":\"reduce\"}"
        } else {
            "{\"attempt\":\"attempt_200707121733_0003_r_000000_0\",\"event\":\"reduce\"}"
        })
    }
}
