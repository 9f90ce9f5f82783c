//! Every way through a run: a run is made again and again, each time with the next list of choices.
use std::alloc::Global;
use std::process::Abort;

/// What was chosen, and of how many.
#[derive(Clone, Copy, Debug)]
struct Choice {
    taken: usize,
    count: usize,
}

/// The choices of the run that is being made.
#[derive(Drop)]
pub struct Choices {
    made: Vec<Choice>,
    next: usize,
}

impl Choices {
    pub fn new(alloc: Global) -> Choices {
        Choices {
            made: Vec::new(alloc),
            next: 0,
        }
    }

    /// One of so many, from 0: what was chosen here before, or the first where nothing was.
    pub fn choose(&mut self, rt: &impl Abort, count: usize) -> usize {
        let taken = match self.made.get(self.next) {
            Some(choice) => choice.taken,
            None => 0,
        };
        if self.next >= self.made.len() {
            self.made
                .push(Choice { taken, count })
                .expect(rt, "no memory");
        }
        self.next = self.next.saturating_add(1);
        taken
    }

    /// Goes to the next list of choices, if there is one.
    pub fn advance(&mut self, rt: &impl Abort) -> bool {
        self.next = 0;
        for _ in 0..self.made.len() {
            let Some(last) = self.made.pop() else {
                return false;
            };
            let taken = last.taken.saturating_add(1);
            if taken < last.count {
                self.made
                    .push(Choice {
                        taken,
                        count: last.count,
                    })
                    .expect(rt, "no memory");
                return true;
            }
        }
        false
    }
}
