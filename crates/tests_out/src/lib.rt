//! Tests of the commands of an output directory, over a disk in memory: kills and power cuts at every call.
#![tactic(auto)]

// Ends the test where the condition is not so, and tells it. It is a call where `assert!` is a branch.
macro_rules! confirm {
    ($rt:expr; $condition:expr) => {
        crate::confirm::is_so($rt, $condition, stringify!($condition))
    };
}

#[cfg(test)]
mod attempts;
#[cfg(test)]
mod choices;
#[cfg(test)]
mod confirm;
#[cfg(test)]
mod disk;
#[cfg(test)]
mod held;
#[cfg(test)]
mod run;
#[cfg(test)]
mod stops;
