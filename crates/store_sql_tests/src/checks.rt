//! Assertions, each a function of its own, so that the proof of a test has one step for it.
ghost use Rattle.std.specs.Prelude.{IsTrue};

use std::process::Abort;

/// The text is the one that is wanted.
pub(crate) fn same_text(test: &impl Abort, found: &str, wanted: &str) {
    assert_eq!(test; found, wanted);
}

/// It is so, of what is named.
pub(crate) fn holds(test: &impl Abort, is_so: bool, of: &str)
    ensures { IsTrue is_so }
{
    assert!(test; is_so, "of {of:?}");
}
