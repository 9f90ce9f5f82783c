//! The examples of the guides and of the crates' own pages, run. `tools/guides` compares them with the pages, line by line.
#![tactic(auto)]

// Ends the test where the condition is not so, and tells it, and at which value. It is a call where `assert!` is a branch. What stands
// below learns nothing of it: where that needs the fact, `assert!` stands.
macro_rules! confirm {
    ($rt:expr; $condition:expr) => {
        crate::confirm::is_so($rt, $condition, stringify!($condition))
    };
    ($rt:expr; $condition:expr, $at:expr) => {
        crate::confirm::is_so_at($rt, $condition, stringify!($condition), $at)
    };
}

// Ends the test where the two differ, and tells both.
macro_rules! confirm_eq {
    ($rt:expr; $left:expr, $right:expr) => {
        crate::confirm::are_same($rt, &$left, &$right, stringify!($left))
    };
}

#[cfg(test)]
mod begin;
#[cfg(test)]
mod confirm;
#[cfg(test)]
mod stores;
#[cfg(test)]
mod tests;
#[cfg(test)]
mod worlds;
