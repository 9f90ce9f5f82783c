//! The words of `seq`.
/// What `seq` does, in a line.
pub const SEQ: &str = "Runs a job sequentially and prints its part files";

/// What the help of `seq` says behind its words.
pub const SEQ_HELP: &str = "\
Reads a job text from standard input, one JSON object with these keys:
  id        the job's identifier
  job       wordcount, maxbykey or lineindex
  reduces   how many reduces there are, 1 to 1000
  splits    a list of at most 1000 texts, whose lines are the job's input
  nodes     how many nodes there are, 1 to 64 (1 where there is no such key)
  limit     how many failed attempts of a task fail the job, 1 to 100 (4 where there is no such key)
  faults    a list of at most 100 faults (none where there is no such key): {\"after\":E,\"node\":N} restarts node N
            after E events, {\"after\":E,\"master\":B} crashes the master and keeps B bytes of its unflushed history,
            {\"after\":E,\"expire\":N} has the newest master give node N up
  v2from    from which generation of the master on history is of version 2, 1 to 1000 (1 where there is no such key)
All keys are tested in this order, and the first bad one is told; `seq` uses the first four, `play` all but `faults`,
`threads` all.
Writes for each reduce a line with the name and the length of its part file, and then the file.

Example:
  {\"id\":\"job_200707121733_0003\",\"job\":\"wordcount\",\"reduces\":2,\"splits\":[\"a b a\"]}
prints (with a tab between a word and its count)
  == part-r-00000 4
  b 1
  == part-r-00001 4
  a 2";
