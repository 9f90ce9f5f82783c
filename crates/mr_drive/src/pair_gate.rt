//! A gate that holds the first map work until the second has entered.
use mr_ids::TaskKind;
use mr_user::{Gate, GateFault};
use std::sync::atomic::{AtomicU64, Ordering};
use std::thread;
use std::time::{Clock, Duration};

// How many looks yield. Those after them sleep.
const YIELDS: u64 = 1_000;

/// Holds the first map work until the second has entered.
#[derive(Drop)]
pub struct PairGate<'a, R> {
    clock: &'a R,
    entered: AtomicU64,
    limit: u64,
}

impl<'a, R: Clock> PairGate<'a, R> {
    /// A gate that looks at most `limit` times. Between looks it yields, and after the first of them sleeps a little.
    pub fn new(clock: &'a R, limit: u64) -> PairGate<'a, R> {
        PairGate {
            clock,
            entered: AtomicU64::new(0),
            limit,
        }
    }
}

impl<R: Clock> Gate for PairGate<'_, R> {
    fn enter(&self, kind: TaskKind) -> Result<(), GateFault> {
        if kind == TaskKind::Reduce || self.entered.fetch_add(1, Ordering::SeqCst) > 0 {
            return Ok(());
        }
        for look in 0..self.limit {
            if self.entered.load(Ordering::SeqCst) > 1 {
                return Ok(());
            }
            if look < YIELDS {
                thread::yield_now();
            } else {
                thread::sleep(self.clock, Duration::from_micros(20));
            }
        }
        Err(GateFault::Spent)
    }
}
