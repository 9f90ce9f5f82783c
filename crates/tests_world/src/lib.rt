//! Tests of masters, and of the world, by journals that are written by hand.
#![tactic(auto)]

// Ends the test where the condition is not so, and tells it, and at which value. It is a call where `assert!` is a branch. What stands
// below learns nothing of it: where that needs the fact, `assert!` stands.
macro_rules! confirm {
    ($rt:expr; $condition:expr) => {
        crate::confirm::is_so($rt, $condition, stringify!($condition))
    };
    ($rt:expr; $condition:expr, $at:expr) => {
        crate::confirm::is_so_at($rt, $condition, stringify!($condition), $at)
    };
}

// Ends the test where the two differ, and tells both.
macro_rules! confirm_eq {
    ($rt:expr; $left:expr, $right:expr) => {
        crate::confirm::are_same($rt, &$left, &$right, stringify!($left))
    };
}

#[cfg(test)]
mod again;
#[cfg(test)]
mod answers;
#[cfg(test)]
mod committing;
#[cfg(test)]
mod confirm;
#[cfg(test)]
mod events;
#[cfg(test)]
mod fixtures;
#[cfg(test)]
mod hearing;
#[cfg(test)]
mod leaving;
#[cfg(test)]
mod limits;
#[cfg(test)]
mod masters;
#[cfg(test)]
mod opening;
#[cfg(test)]
mod readings;
#[cfg(test)]
mod recovering;
#[cfg(test)]
mod refusals;
#[cfg(test)]
mod refusing;
#[cfg(test)]
mod sent;
#[cfg(test)]
mod stopping;
#[cfg(test)]
mod texts;
#[cfg(test)]
mod told;
