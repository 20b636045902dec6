//! An assertion, as a function of its own, so that the proof of what asserts has one step for it.
use std::process::Abort;

/// It is so. Else this is said.
pub(crate) fn holds(rt: &impl Abort, is_so: bool, else_says: &'static str) {
    assert!(rt; is_so, "{else_says}");
}
