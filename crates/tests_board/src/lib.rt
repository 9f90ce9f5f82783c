//! Tests of what stands on a world: the board (several seats, works that are done outside it), the laws of what its calls answer, jobs
//! that threads run, a run that is explored, and what a player holds.
#![tactic(auto)]

// Ends the test where the condition is not so, and tells it, and at which value. It is a call where `assert!` is a branch. What stands
// below learns nothing of it: where that needs the fact, `assert!` stands.
macro_rules! confirm {
    ($rt:expr; $condition:expr) => {
        crate::confirm::is_so(&$rt, $condition, stringify!($condition))
    };
    ($rt:expr; $condition:expr, $at:expr) => {
        crate::confirm::is_so_at(&$rt, $condition, stringify!($condition), $at)
    };
}

#[cfg(test)]
mod closes;
#[cfg(test)]
mod confirm;
#[cfg(test)]
mod drives;
#[cfg(test)]
mod ends;
#[cfg(test)]
mod fixtures;
#[cfg(test)]
mod laws;
#[cfg(test)]
mod players;
#[cfg(test)]
mod runs;
#[cfg(test)]
mod works;
