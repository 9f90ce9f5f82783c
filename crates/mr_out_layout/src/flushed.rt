//! How far the history is known to be durable, and in which boot of the machine that was learned.
//!
//! A command that synced the history writes a note of its end: the boot, the segment's file, its length, and when it was
//! changed last. The note itself is never synced. Behind a power cut the boot is another one, and in a copy the file is:
//! then the note counts for nothing. So it never claims more than is durable, and an end that it tells needs no sync.
ghost use Rattle.std.specs.Prelude.{◌≡◌, ◌++◌, codes, IfOk, IfErr, IfSome};
ghost use Rattle.std.specs.String.{string_bytes};
ghost use Rattle.std.specs.Fs.{metadata_len};
ghost use Rattle.mr_ids.specs.Text.{numeral};
ghost use Rattle.mr_out_layout.specs.Layout.{IsPlain};
ghost use Rattle.mr_out_layout.specs.Notes.{IsNoteOf, unknown_note};

use crate::fault::Fault;
use crate::job::{first_line, told};
use crate::lines::is_text;
use std::alloc::{AllocError, Global};
use std::fs::{Metadata, OpenOptions};
use std::io;
use std::io::Write;
use std::os::unix::fs::MetadataExt;

const NOTE: &str = "_mrout/flushed";

// The name of the note in the folder of `mrout`.
const NAME: &str = "flushed";

// The number of this boot of the machine, which no other has.
const BOOT: &str = "/proc/sys/kernel/random/boot_id";

/// The number of this boot of the machine, where the system tells one.
pub fn boot_of(rt: &HostRuntime) -> Result<Option<String>, Fault>
    ensures plain { IfOk result (λ boot. IfSome boot (λ text. IsPlain (string_bytes text))) }
    ensures failed { IfErr result (λ fault. fault ≡ Fault.NoMemory) }
{
    first_line(rt, BOOT)
}

/// The note of an end that is durable. It has the same length for every end, so that one is written over another. Which
/// file it is of, and when that was changed, no clause of std says.
#[tactic(auto, using(crate::proofs::Fronts::noted))]
pub fn note_of(alloc: Global, boot: &str, end: &Metadata) -> Result<String, AllocError>
    ensures { IfOk result (λ text. IsNoteOf boot.now (metadata_len end.now) (string_bytes text)) }
{
    let (seconds, nanos) = (end.ctime(), end.ctime_nsec());
    let changed = format!(in alloc; "{seconds:020} {nanos:09}\n")?;
    let text = text_of(alloc, boot, end.dev(), end.ino(), end.len(), &changed)?;
    Ok(text)
}

fn text_of(
    alloc: Global,
    boot: &str,
    disk: u64,
    file: u64,
    len: u64,
    changed: &str,
) -> Result<String, AllocError>
    ensures { IfOk result (λ text. string_bytes text
        ≡ boot.now ++ (codes " " ++ (numeral 20 disk ++ (codes " " ++ (numeral 20 file ++ (codes " " ++ (numeral 20 len ++ (codes " " ++ changed.now)))))))) }
{
    let text = format!(in alloc; "{boot} {disk:020} {file:020} {len:020} {changed}")?;
    Ok(text)
}

/// The note of an end of which a sync failed: nothing is known of it.
pub fn note_of_failure(alloc: Global, boot: &str) -> Result<String, AllocError>
    ensures { IfOk result (λ text. string_bytes text ≡ unknown_note boot.now) }
{
    format!(in alloc;
        "{boot} 00000000000000000000 00000000000000000000 00000000000000000000 00000000000000000000 000000000\n"
    )
}

/// What the note that was written last tells of an end.
#[derive(Clone, Copy, Debug, PartialEq, Eq)]
pub enum Noted {
    /// It is this end, and it is durable.
    Durable,
    /// The same file was longer: somebody cut it.
    Longer,
    /// Nothing.
    Nothing,
}

/// What the note that was written last tells of the end that has this note. What was written, no clause of std says.
pub fn read_note(rt: &HostRuntime, note: &str) -> Result<Noted, Fault>
    ensures failed { IfErr result (λ fault. fault ≡ Fault.NoMemory) }
{
    match told(rt, NOTE)? {
        Some(bytes) => Ok(noted_by(&bytes, note)),
        None => Ok(Noted::Nothing),
    }
}

// What a note tells of the end that has this one.
fn noted_by(told: &[u8], note: &str) -> Noted
    ensures durable { result ≡ Noted.Durable → told.now ≡ note.now }
    ensures same { told.now ≡ note.now → result ≡ Noted.Durable }
{
    if is_text(told, note) {
        return Noted::Durable;
    }
    match str::from_utf8(told) {
        Ok(text) if is_longer(text, note) => Noted::Longer,
        _ => Noted::Nothing,
    }
}

// Both notes are of one boot and one file, and the first one of a greater length. (All lengths have as many digits.)
fn is_longer(before: &str, now: &str) -> bool {
    let mut before = before.split(' ');
    let mut now = now.split(' ');
    for _ in 0..3 {
        if before.next() != now.next() {
            return false;
        }
    }
    match (before.next(), now.next()) {
        (Some(before), Some(now)) => before > now,
        _ => false,
    }
}

/// Writes the note over the one before, in this folder of `mrout`. What a write left, and why it failed, no clause of std says.
pub fn write_note(rt: &HostRuntime, home: &str, note: &str) -> io::Result<()> {
    let path = format!(in rt.alloc(); "{home}/{NAME}")?;
    let mut file = OpenOptions::new()
        .write(true)
        .create(true)
        .open(rt, path.as_str())?;
    file.write_all(note.as_bytes())
}
