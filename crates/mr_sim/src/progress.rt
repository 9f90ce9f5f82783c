//! How far an exploration is, and how long it took.
use mr_explore::Watch;
use std::rt::Clock;
use std::time::Instant;

/// Tells it on standard error, where that is asked for. What can't be told is dropped.
#[derive(Drop)]
pub(crate) struct OnStandardError<'a, H: Eprint + Clock> {
    /// The handle.
    pub(crate) rt: &'a H,
    /// When it began, if the clock could be read.
    pub(crate) began: Option<Instant>,
    /// Whether it is asked for.
    pub(crate) is_asked: bool,
}

impl<'a, H: Eprint + Clock> OnStandardError<'a, H> {
    /// It begins now.
    pub(crate) fn new(rt: &'a H, is_asked: bool) -> OnStandardError<'a, H> {
        OnStandardError {
            rt,
            began: Instant::now(rt).ok(),
            is_asked,
        }
    }
}

impl<H: Eprint + Clock> Watch for OnStandardError<'_, H> {
    fn tell(&self, runs: u64, ends: usize) {
        if self.is_asked {
            let _ = eprintln!(self.rt; "mrsim: {runs} runs, {ends} ends");
        }
    }

    /// Where the clock can't be read, they have.
    fn have_passed(&self, seconds: u64) -> bool {
        match self.began {
            Some(began) => match began.elapsed(self.rt) {
                Ok(passed) => passed.as_secs() >= seconds,
                Err(_) => true,
            },
            None => true,
        }
    }
}
