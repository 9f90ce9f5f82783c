//! What `confirm!` and `confirm_eq!` call.

use std::fmt::Debug;
use std::process::Abort;

/// Ends the test where the condition with this text is not so.
pub fn is_so(rt: &impl Abort, condition: bool, text: &str) {
    condition.then_some(()).expect(rt, text)
}

/// Ends the test where the condition with this text is not so of this value.
pub fn is_so_at<R: Debug>(rt: &impl Abort, condition: bool, text: &str, at: &R) {
    let told = if condition { Ok(()) } else { Err(at) };
    told.expect(rt, text)
}

/// Ends the test where the two differ, and tells both. The first has this text.
pub fn are_same<T: PartialEq + Debug>(rt: &impl Abort, left: &T, right: &T, text: &str) {
    is_so_at(rt, *left == *right, text, &(left, right))
}
