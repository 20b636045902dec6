//! Assertions, and what adds to a list, each a function of its own, so that the proof of a test has one step for it.
use std::fmt::Debug;
use std::process::Abort;

/// The text is the one that is wanted.
pub(crate) fn same_text(test: &impl Abort, found: &str, wanted: &str) {
    assert_eq!(test; found, wanted);
}

/// The value is the one that is wanted.
pub(crate) fn same<T: PartialEq + Debug>(test: &impl Abort, found: &T, wanted: &T) {
    assert_eq!(test; *found, *wanted);
}

/// It is so, of what is named.
pub(crate) fn holds(test: &impl Abort, is_so: bool, of: &str) {
    assert!(test; is_so, "of {of:?}");
}

/// Adds what was made.
pub(crate) fn push<T: Drop>(test: &impl Abort, list: &mut Vec<T>, made: T) {
    list.push(made).expect(test, "memory");
}
