//! Assertions, each a function of its own, so that the proof of a test has one step for it.
use dict_catalogue::Kept;
use dict_desk::Fault;
use std::alloc::Global;
use std::process::Abort;
use store_fixtures::told;

/// The text of what is named is the one that is wanted.
pub(crate) fn same_text(test: &impl Abort, found: &str, wanted: &str, of: &str) {
    assert_eq!(test; found, wanted, "of {of:?}");
}

/// The reply, or the fault's number, is the one that is wanted.
pub(crate) fn same_reply(
    test: &impl Abort,
    alloc: Global,
    answer: Result<Kept, Fault>,
    wanted: &str,
    of: &str,
) {
    let found = told(alloc, &answer).expect(test, "memory");
    same_text(test, found.as_str(), wanted, of);
}

/// It is so, of what is named.
pub(crate) fn holds(test: &impl Abort, is_so: bool, of: &str) {
    assert!(test; is_so, "of {of:?}");
}
