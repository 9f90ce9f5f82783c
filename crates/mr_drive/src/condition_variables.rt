//! Who sleeps, and whom to wake: what happens gives few threads something to do.
use std::alloc::{AllocError, Global};
use std::sync::Condvar;
use std::{array, mem};

// How many condition variables there are. Seats whose numbers are equal modulo this share one.
const CONDITIONS: usize = 8;

/// Whom what happened may give something to do, beside the thread that made it.
#[derive(Clone, Copy, Debug, PartialEq, Eq)]
pub(crate) enum Call {
    Nobody,
    /// The thread of the seat of this number.
    Seat(u32),
    Everyone,
}

impl Call {
    /// Whom one of the two calls; everyone where they call two threads.
    pub(crate) fn or(self, other: Call) -> Call {
        match (self, other) {
            (Call::Nobody, call) | (call, Call::Nobody) => call,
            (Call::Seat(seat), Call::Seat(same)) if seat == same => self,
            _ => Call::Everyone,
        }
    }
}

/// Who sleeps, by the seats' numbers, and who is to be woken. It lies under the lock.
#[derive(Drop)]
pub(crate) struct Sleepers {
    asleep: Vec<bool>,
    call: Call,
}

impl Sleepers {
    pub(crate) fn new(alloc: Global, threads: u32) -> Result<Sleepers, AllocError> {
        let mut asleep = Vec::new(alloc);
        for _ in 0..threads {
            asleep.push(false)?;
        }
        Ok(Sleepers {
            asleep,
            call: Call::Nobody,
        })
    }

    /// Calls someone, who is to be woken once the lock is given back.
    pub(crate) fn call(&mut self, call: Call) {
        self.call = self.call.or(call);
    }

    /// A thread is awake.
    pub(crate) fn wakes(&mut self, seat: u32) {
        self.set(seat as usize, false);
    }

    /// A thread falls asleep: whom it wakes before. Where all sleep, that is everyone, and each looks once more.
    pub(crate) fn falls_asleep(&mut self, seat: u32) -> Call {
        self.set(seat as usize, true);
        if self.asleep.iter().all(|asleep| *asleep) {
            self.call(Call::Everyone);
        }
        let call = self.take_call();
        self.set(seat as usize, true);
        call
    }

    /// Whom to wake. They count as awake from now on.
    pub(crate) fn take_call(&mut self) -> Call {
        let call = mem::replace(&mut self.call, Call::Nobody);
        match call {
            Call::Nobody => {}
            Call::Seat(seat) => self.set(seat as usize, false),
            Call::Everyone => {
                for seat in 0..self.asleep.len() {
                    self.set(seat, false);
                }
            }
        }
        call
    }

    fn set(&mut self, seat: usize, sleeps: bool) {
        if let Some(asleep) = self.asleep.get_mut(seat) {
            *asleep = sleeps;
        }
    }
}

/// The condition variables on which threads wait.
#[derive(Drop)]
pub(crate) struct ConditionVariables {
    all: [Condvar; CONDITIONS],
}

impl ConditionVariables {
    pub(crate) fn new() -> ConditionVariables {
        ConditionVariables {
            all: array::from_fn(|_| Condvar::new()),
        }
    }

    /// That of a seat.
    pub(crate) fn of(&self, seat: u32) -> &Condvar {
        &self.all[seat as usize % CONDITIONS]
    }

    /// Wakes who is called.
    pub(crate) fn notify(&self, call: Call) {
        match call {
            Call::Nobody => {}
            Call::Seat(seat) => self.of(seat).notify_all(),
            Call::Everyone => {
                for condition in &self.all {
                    condition.notify_all();
                }
            }
        }
    }
}
