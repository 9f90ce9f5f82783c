//! What is said of a calm that ended otherwise than its line asks. It goes to standard error, and no clause speaks of it.
ghost use Rattle.std.specs.Prelude.{◌≡◌};

use crate::calm::{most_of, stop_of};
use crate::player::Player;
use itoa::Buffer;
use mr_master_model::Phase;
use mr_script::{Until, event_word};
use std::alloc::AllocError;

/// How a calm ended.
#[derive(Clone, Copy, Debug, PartialEq, Eq)]
enum CalmEnd {
    /// An event of the name that it was to stop before would be next.
    BeforeName,
    /// Its master was never started.
    NeverStarted,
    /// Its master had told the outcome.
    Ended,
    /// Its master had stopped.
    Stopped,
    /// Its master was not alive any more.
    NotAlive,
    /// Nothing was left to do.
    Idle,
    /// It had made its most events.
    Most,
}

impl CalmEnd {
    // Whether it is as the line asks, where it made so many events: where a name was told, before it; else of a master that was there, and not cut off.
    // A master that had stopped before, or was not alive, lets it make none.
    fn is_as_asked(self, until: Until, made: u64) -> bool {
        match self {
            CalmEnd::BeforeName => true,
            CalmEnd::NeverStarted | CalmEnd::Most => false,
            CalmEnd::Stopped | CalmEnd::NotAlive => made > 0 && stop_of(until).is_none(),
            CalmEnd::Ended | CalmEnd::Idle => stop_of(until).is_none(),
        }
    }

    // What the master of this generation did, or what the calm did.
    fn put(self, out: &mut Vec<u8>, k: u32) -> Result<(), AllocError> {
        match self {
            CalmEnd::NeverStarted => put_master(out, k, b"never started"),
            CalmEnd::Ended => put_master(out, k, b"told the outcome"),
            CalmEnd::Stopped => put_master(out, k, b"has stopped"),
            CalmEnd::NotAlive => put_master(out, k, b"is not alive"),
            CalmEnd::Most => out.extend_from_slice(b"it made 10000 events"),
            CalmEnd::BeforeName | CalmEnd::Idle => out.extend_from_slice(b"nothing is left to do"),
        }
    }
}

impl Player {
    /// Notes how the calm of a line ended, where that is not as the line asks. `before` is how many events there were before it.
    pub(crate) fn note_calm(
        &mut self,
        line: usize,
        k: u32,
        until: Until,
        before: usize,
    ) -> Result<(), AllocError>
        ensures { self.new ≡ record self.old { notes = self.new.notes } }
    {
        let made = self.world.journal().len().saturating_sub(before) as u64;
        let end = self.calm_end(k, until, made)?;
        if end.is_as_asked(until, made) {
            return Ok(());
        }
        put_note(&mut self.notes, line, k, until, end)?;
        Ok(())
    }

    // How the calm ended that made so many events. It looks for a name only where its last event was followed by such a look.
    fn calm_end(&self, k: u32, until: Until, made: u64) -> Result<CalmEnd, AllocError> {
        match self.world.phase(k) {
            None if k > self.world.newest() => return Ok(CalmEnd::NeverStarted),
            None => return Ok(CalmEnd::NotAlive),
            Some(Phase::Ended) => return Ok(CalmEnd::Ended),
            Some(Phase::Stopped) => return Ok(CalmEnd::Stopped),
            Some(_) => {}
        }
        if made >= most_of(until) {
            return Ok(CalmEnd::Most);
        }
        match self.coming(k)? {
            Some(coming) if coming.stops_at(stop_of(until)) => Ok(CalmEnd::BeforeName),
            _ => Ok(CalmEnd::Idle),
        }
    }
}

// A line for standard error.
fn put_note(
    out: &mut Vec<u8>,
    line: usize,
    k: u32,
    until: Until,
    end: CalmEnd,
) -> Result<(), AllocError> {
    let mut buffer = Buffer::new();
    out.extend_from_slice(b"mrsim: line ")?;
    out.extend_from_slice(buffer.format(line).as_bytes())?;
    out.extend_from_slice(b": calm ended")?;
    if let Some(name) = stop_of(until) {
        out.extend_from_slice(b" without ")?;
        out.extend_from_slice(event_word(name))?;
    }
    out.extend_from_slice(b": ")?;
    end.put(out, k)?;
    if end == CalmEnd::Most && until == Until::Most {
        put_master_word(out, b"; calm ", k, b" all makes more")?;
    }
    out.extend_from_slice(b"\n")
}

fn put_master(out: &mut Vec<u8>, k: u32, did: &[u8]) -> Result<(), AllocError> {
    put_master_word(out, b"master ", k, b" ")?;
    out.extend_from_slice(did)
}

// A master's generation between words.
fn put_master_word(
    out: &mut Vec<u8>,
    before: &[u8],
    k: u32,
    behind: &[u8],
) -> Result<(), AllocError> {
    let mut buffer = Buffer::new();
    out.extend_from_slice(before)?;
    out.extend_from_slice(buffer.format(k).as_bytes())?;
    out.extend_from_slice(behind)
}
