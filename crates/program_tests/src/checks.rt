//! What tests say of values: in functions of their own, so that the proofs of tests are short.
use std::alloc::Global;
use std::fmt::{Debug, Display};
use std::process::Abort;

/// The two are the same.
pub(crate) fn same<T: PartialEq + Debug>(rt: &impl Abort, found: &T, due: &T) {
    assert_eq!(rt; *found, *due);
}

/// This is so.
pub(crate) fn holds(rt: &impl Abort, it: bool) {
    assert!(rt; it);
}

/// It is told in these words.
pub(crate) fn is_told<T: Display>(rt: &impl Abort, alloc: Global, it: &T, due: &str) {
    let told = format!(in alloc; "{it}").expect(rt, "memory");
    same(rt, &told.as_str(), &due);
}
