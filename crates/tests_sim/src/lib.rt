//! Tests of the simulator as a library: streams that fail, texts that no run of the program prints, and hints. What the program
//! prints is tried by `tools/hostile`.
#![tactic(auto)]

// Ends the test where the condition is not so, and tells it, and at which value. It is a call where `assert!` is a branch. What stands
// below learns nothing of it: where that needs the fact, `assert!` stands.
macro_rules! confirm {
    ($rt:expr; $condition:expr) => {
        crate::confirm::is_so(&$rt, $condition, stringify!($condition))
    };
    ($rt:expr; $condition:expr, $at:expr) => {
        crate::confirm::is_so_at(&$rt, $condition, stringify!($condition), $at)
    };
}

#[cfg(test)]
mod confirm;
#[cfg(test)]
mod hints;
#[cfg(test)]
mod streams;
#[cfg(test)]
mod texts;
