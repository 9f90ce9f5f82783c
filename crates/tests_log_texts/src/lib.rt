//! Tests of the texts of an output directory's log: entries as they are written and read, against
//! texts that are worked out by hand.
#![tactic(auto)]

// Ends the test where the two differ, and tells both.
macro_rules! confirm_eq {
    ($rt:expr; $left:expr, $right:expr) => {
        crate::confirm::are_same($rt, &$left, &$right, stringify!($left))
    };
}

#[cfg(test)]
mod confirm;
#[cfg(test)]
mod entries;
#[cfg(test)]
mod fixtures;
#[cfg(test)]
mod layout;
