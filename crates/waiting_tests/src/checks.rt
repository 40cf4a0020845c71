//! What tests say of values: in functions of their own, so that the proofs of tests are short.
use std::fmt::Debug;
use std::process::Abort;

/// The two are the same.
pub(crate) fn same<T: PartialEq + Debug>(rt: &impl Abort, found: &T, due: &T) {
    assert_eq!(rt; *found, *due);
}

/// This is so.
pub(crate) fn holds(rt: &impl Abort, it: bool) {
    assert!(rt; it);
}
