//! A run over streams that fail.
use mr_sim::{Command, Ending, Refusal, Remarks, SimFault, run, run_streams};
use std::io;
use std::io::{Error, ErrorKind, Read, Write};
use std::process::Abort;
use std::rt::Clock;
use std::sync::Wait;
use std::thread::Threads;

const HELLO: &[u8] = b"setup\n\
write attempt_200707121733_0003_r_000000_0 hello\n\
commit attempt_200707121733_0003_r_000000_0\n\
commitjob\n";

const HELLO_TEXT: &[u8] = b"out/\nout/_SUCCESS 0\nout/part-r-00000 6\n";

/// Gives a few bytes at a time, and answers an error at one of the reads.
#[derive(Drop)]
struct FaultyReader<'a> {
    bytes: &'a [u8],
    piece: usize,
    good: u32,
}

impl Read for FaultyReader<'_> {
    fn read(&mut self, buf: &mut [u8]) -> io::Result<usize> {
        if self.good == 0 {
            return Err(Error::from(ErrorKind::Other));
        }
        self.good -= 1;
        let room = buf.len().min(self.piece);
        let mut bytes = self.bytes;
        let n = bytes.read(&mut buf[..room])?;
        self.bytes = bytes;
        Ok(n)
    }
}

/// Takes a few bytes at a time into a fixed place, and answers an error from one of the writes on. Its flush may fail.
#[derive(Drop)]
struct FaultyWriter {
    taken: [u8; 512],
    len: usize,
    piece: usize,
    good: u32,
    flushes: bool,
}

impl FaultyWriter {
    fn new(piece: usize, good: u32) -> FaultyWriter {
        FaultyWriter {
            taken: [0; 512],
            len: 0,
            piece,
            good,
            flushes: true,
        }
    }

    fn take(&mut self, bytes: &[u8]) {
        for byte in bytes {
            if self.len < 512 {
                self.taken[self.len] = *byte;
                self.len += 1;
            }
        }
    }

    /// Whether these are the bytes that were taken.
    fn took(&self, text: &[u8]) -> bool {
        match self.taken.get(..self.len) {
            Some(taken) => taken == text,
            None => false,
        }
    }
}

impl Write for FaultyWriter {
    fn write(&mut self, buf: &[u8]) -> io::Result<usize> {
        if self.good == 0 {
            return Err(Error::from(ErrorKind::Other));
        }
        self.good -= 1;
        let n = buf.len().min(self.piece);
        self.take(&buf[..n]);
        Ok(n)
    }

    fn flush(&mut self) -> io::Result<()> {
        if self.flushes {
            Ok(())
        } else {
            Err(Error::from(ErrorKind::Other))
        }
    }
}

// What a run of the committer over these streams comes to.
fn ran<H: AllocGlobal + Eprint + Clock + Threads + Wait + Sync, R: Read>(
    rt: &H,
    input: &mut R,
    output: &mut FaultyWriter,
) -> Result<Remarks, Refusal> {
    run(rt, &Command::Committer, input, output)
}

// The fault of a run, if it failed.
fn fault_of(ran: &Result<Remarks, Refusal>) -> Option<SimFault> {
    match ran {
        Ok(_) => None,
        Err(refusal) => Some(refusal.fault),
    }
}

// Whether it is done, and all is as expected.
fn is_met(ran: &Result<Remarks, Refusal>) -> bool {
    match ran {
        Ok(remarks) => remarks.met,
        Err(_) => false,
    }
}

// Whether a run of which so many reads succeed is done. Else it failed for its reads, and nothing is written.
fn is_read<H: AllocGlobal + Eprint + Clock + Threads + Wait + Sync + Abort>(
    rt: &H,
    good: u32,
) -> bool {
    let mut input = FaultyReader {
        bytes: HELLO,
        piece: 3,
        good,
    };
    let mut output = FaultyWriter::new(3, 1000);
    let ran = ran(rt, &mut input, &mut output);
    let fault = fault_of(&ran);
    let met = is_met(&ran);
    drop(ran);
    confirm!(*rt; fault == None || fault == Some(SimFault::Read), &fault);
    let want: &[u8] = if met { HELLO_TEXT } else { b"" };
    confirm!(*rt; output.took(want));
    fault.is_none()
}

// A read that fails is answered at once, and nothing is written.
fn each_read_fails<H: AllocGlobal + Eprint + Clock + Threads + Wait + Sync + Abort>(rt: &H) {
    let mut whole = 0u32;
    for good in 0..60 {
        if is_read(rt, good) {
            whole = whole.saturating_add(1);
        }
    }
    // 109 bytes take 37 reads of 3 bytes, and one that finds the end.
    confirm!(*rt; whole == 22, &whole);
}

// Whether a run of which so many writes succeed is done. Else it failed for its writes.
fn is_written<H: AllocGlobal + Eprint + Clock + Threads + Wait + Sync + Abort>(
    rt: &H,
    good: u32,
) -> bool {
    let mut input = HELLO;
    let mut output = FaultyWriter::new(3, good);
    let ran = ran(rt, &mut input, &mut output);
    let fault = fault_of(&ran);
    drop(ran);
    confirm!(*rt; fault == None || fault == Some(SimFault::Write), &fault);
    // What was taken is the text's beginning: nothing is lost between, nothing doubled.
    let taken = output.len.min(HELLO_TEXT.len());
    confirm!(*rt; output.took(&HELLO_TEXT[..taken]));
    fault.is_none()
}

// So is a write that fails.
fn each_write_fails<H: AllocGlobal + Eprint + Clock + Threads + Wait + Sync + Abort>(rt: &H) {
    let mut whole = 0u32;
    for good in 0..20 {
        if is_written(rt, good) {
            whole = whole.saturating_add(1);
        }
    }
    // 39 bytes take 13 writes of 3 bytes.
    confirm!(*rt; whole == 7, &whole);
}

#[test]
fn each_stream_fails(rt: HostRuntime) {
    each_read_fails(&rt);
    each_write_fails(&rt);
}

// A flush that fails is a failed write.
#[test]
fn failed_flush_is_answered(rt: HostRuntime) {
    let mut input = HELLO;
    let mut output = FaultyWriter::new(512, 1000);
    output.flushes = false;
    let ran = ran(&rt, &mut input, &mut output);
    let fault = fault_of(&ran);
    drop(ran);
    confirm!(rt; fault == Some(SimFault::Write), &fault);
    confirm!(rt; output.took(HELLO_TEXT));
}

// The same without a handle. Then with one, and with the remarks of the run.
#[test]
fn runs_over_streams(rt: HostRuntime) {
    let mut input = HELLO;
    let mut output = FaultyWriter::new(512, 1000);
    run_streams(rt.alloc(), Command::Committer, &mut input, &mut output).expect(&rt, "a fault");
    confirm!(rt; output.took(HELLO_TEXT));
}

#[test]
fn runs_with_remarks(rt: HostRuntime) {
    let mut input = HELLO;
    let mut output = FaultyWriter::new(512, 1000);
    let remarks = ran(&rt, &mut input, &mut output).expect(&rt, "a fault");
    let ending = remarks.ending();
    drop(remarks);
    confirm!(rt; ending == Ending::Done);
    confirm!(rt; output.took(HELLO_TEXT));
}
