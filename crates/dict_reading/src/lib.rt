//! Reads an edition from dictd's two files in slices of lines, so that what else waits has its turn between two of them.
//!
//! All tests of a line are those of `dict_index::read_edition`, by which each line is tested; and what the lines say together is
//! what that says of the two files whole.
#![tactic(auto)]

mod columns;
mod gathered;
mod line;
mod places;
mod reader;
mod reading;
mod title;

pub use places::EntryPlace;
pub use reader::{EditionReader, SLICE_LINES, SLICE_OCTETS};
pub use reading::{ReadLine, Reading};
