//! Lines of a stream, one at a time, and text that is sent at once.
ghost use Rattle.std.specs.Prelude.{◌≡◌, ◌≢◌, ◌<◌, ◌≤◌, ◌^◌, OnOk, IfOk, IfErr, IfSome, IfNone, length};
ghost use Rattle.std.specs.Io.KnownBytes.{Appends};
ghost use Rattle.mr_pipe.specs.Stream.{GivesLine};
ghost use Rattle.mr_pipe.specs.declared.fault.PipeFault.TheVariants.{Write};
ghost use Rattle.mr_pipe.specs.inner.Reading.{TakesFeed};

use crate::fault::PipeFault;
use std::alloc::Global;
use std::io;
use std::io::{BufRead, Read, Write};

/// Reads the next line into `line`, without its line feed, and tells whether there was one. What stands behind the last line feed is none.
#[tactic(auto, using(crate::proofs::Feeds::gives_line))]
pub fn next_line<R: BufRead>(reader: &mut R, line: &mut Vec<u8>) -> Result<bool, PipeFault>
    ensures { IfOk result (λ some. GivesLine some line.new.items (R.remaining reader.old) (R.remaining reader.new)) }
{
    line.clear();
    match reader.read_until(b'\n', line) {
        Ok(_) => Ok(take_line_feed(line)),
        Err(error) => Err(read_fault(&error)),
    }
}

// Takes the line feed off the end, and tells whether there was one.
fn take_line_feed(line: &mut Vec<u8>) -> bool
    ensures { TakesFeed line.old.items line.new.items result }
{
    let ends = matches!(line.last(), Some(b'\n'));
    if ends {
        line.pop();
    }
    ends
}

// Why a read failed.
fn read_fault(error: &io::Error) -> PipeFault
    ensures { result ≢ Write }
{
    match error.kind() {
        io::ErrorKind::OutOfMemory => PipeFault::NoMemory,
        _ => PipeFault::Read,
    }
}

// Most bytes of an input that is read whole.
const MOST_BYTES: usize = 1 << 24;

// Most calls of the reader, interrupted ones with them.
const MOST_READS: u32 = 1 << 25;

/// All that the reader has, if that is at most 16,777,216 bytes; else none. An interrupted read is tried again.
///
/// `Read`: a read failed, or the input did not end within 33,554,432 reads. `NoMemory`: memory was refused.
pub fn read_all<R: Read>(alloc: Global, reader: &mut R) -> Result<Option<Vec<u8>>, PipeFault>
    ensures all { IfOk result (λ read. IfSome read (λ bytes. IfSome (R.remaining reader.old) (λ all. bytes.items ≡ all))) }
    ensures limit { IfOk result (λ read. IfSome read (λ bytes. length bytes.items ≤ 2 ^ 24)) }
    ensures long { IfOk result (λ read. IfNone read (IfSome (R.remaining reader.old) (λ all. 2 ^ 24 < length all))) }
    ensures kinds { IfErr result (λ fault. fault ≢ Write) }
{
    let mut bytes = Vec::new(alloc);
    let mut chunk = [0u8; 4096];
    for _ in 0..MOST_READS {
        match reader.read(&mut chunk) {
            Ok(0) => return Ok(Some(bytes)),
            Ok(n) => {
                if bytes.len() + n > MOST_BYTES {
                    return Ok(None);
                }
                bytes.extend_from_slice(&chunk[..n])?;
            }
            Err(error) => {
                if error.kind() != io::ErrorKind::Interrupted {
                    return Err(read_fault(&error));
                }
            }
        }
    }
    Err(PipeFault::Read)
}

/// Writes a text, and flushes it, so that whoever waits for it at a pipe has it.
pub fn send<W: Write>(writer: &mut W, text: &[u8]) -> Result<(), PipeFault>
    ensures { OnOk result (Appends (W.contents writer.old) (W.contents writer.new) text.now) }
{
    match writer.write_all(text) {
        Ok(()) => match writer.flush() {
            Ok(()) => Ok(()),
            Err(_) => Err(PipeFault::Write),
        },
        Err(_) => Err(PipeFault::Write),
    }
}
