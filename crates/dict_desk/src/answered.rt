// How a command that was prepared is answered.

use crate::fault::Fault;
use dict_catalogue::Kept;
use dict_index::EditionRefusal;

/// What came of an install whose files were noted and read before.
#[derive(Debug, Drop)]
pub enum Answered {
    /// The edition that the files say was installed, or wasn't: the command's own answer.
    Done(Result<Kept, Fault>),
    /// The files say no edition: the first test that they don't pass, at the line with this number, from 1, where it is a test of a
    /// line. Nothing has changed.
    Refused {
        refusal: EditionRefusal,
        line: Option<usize>,
    },
}
