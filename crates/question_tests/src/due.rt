//! What was found is what is due. A comparison is dear to prove for what it prints, so it stands in a function of its own.
use std::fmt::Debug;
use std::process::Abort;

// What was found is what is due.
pub(crate) fn is_due<T: Copy + PartialEq + Debug>(rt: &impl Abort, found: T, due: T) {
    assert_eq!(rt; found, due);
}
