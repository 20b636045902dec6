//! Assertions, each a function of its own, so that the proof of a test has one step for it.
use std::process::Abort;

/// The text of what is named is the one that is wanted.
pub(crate) fn same_text(test: &impl Abort, found: &str, wanted: &str, of: &str) {
    assert_eq!(test; found, wanted, "of {of:?}");
}

/// It is so, of what is named.
pub(crate) fn holds(test: &impl Abort, is_so: bool, of: &str) {
    assert!(test; is_so, "of {of:?}");
}
