//! The words of `history`.
use crate::names::JSON;
use crate::table::Word;

/// What `history` does, in a line.
pub const HISTORY: &str = "Prints the records of one segment of a job history";

/// What the help of `history` says behind its words.
pub const HISTORY_HELP: &str = "\
Reads the bytes of one segment from standard input: records as compact JSON, one a line. A segment
of version 2 begins with {\"version\":2}, and tells the length of each reduce's part file.
Writes a line for each record of a whole line, in order:
  version 2                        the segment is of version 2 (of version 1 there is no such line)
  started A node N                 the attempt A was launched on node N
  map A node N incarnation I       the map attempt A succeeded, its output lies on node N
  reduce A [bytes B]               the reduce attempt A succeeded, in version 2 with a part file of B bytes
  failed A                         the attempt A failed
  unsuccessful                     the job failed
and last `torn B`: the B bytes behind the last line feed, which are no record.

Example:
  {\"attempt\":\"attempt_200707121733_0003_r_000000_0\",\"event\":\"reduce\"}
prints
  reduce attempt_200707121733_0003_r_000000_0
  torn 0
With --json it prints each record as it is in the segment, and last how many bytes are torn:
  {\"attempt\":\"attempt_200707121733_0003_r_000000_0\",\"event\":\"reduce\"}
  {\"torn\":0,\"version\":1}";

const JSON_SHOWN: &str = "Prints lines of JSON in place of the rest";

const WORDS: &[Word] = &[Word {
    name: JSON,
    help: JSON_SHOWN,
    ..Word::FLAG
}];

/// The words of `history`.
pub fn history_words() -> &'static [Word] {
    WORDS
}
