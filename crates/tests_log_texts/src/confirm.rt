//! What `confirm_eq!` calls.

use std::fmt::Debug;
use std::process::Abort;

/// Ends the test where the two differ, and tells both. The first has this text.
pub fn are_same<T: PartialEq + Debug>(rt: &impl Abort, left: &T, right: &T, text: &str) {
    let told = if *left == *right {
        Ok(())
    } else {
        Err((left, right))
    };
    told.expect(rt, text)
}
