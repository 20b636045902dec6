//! Characters, blanks, lines, names and the numbers of an index, as every layer of dictcat sees them.
#![tactic(auto)]

mod blanks;
mod characters;
mod digits;
mod lines;
mod names;
mod number_laws;
mod number_reading;
mod number_writing;

pub use blanks::{without_blanks_at_ends, without_leading_blanks};
pub use characters::{has_control, is_blank, is_blank_octet, is_control, is_control_octet};
pub use digits::MAX_DIGITS;
pub use lines::{TextLines, text_lines};
pub use names::{MAX_TITLE, is_name, is_request_id, is_title};
pub use number_laws::one_spelling;
pub use number_reading::{NumberFault, read_number};
pub use number_writing::write_number;
