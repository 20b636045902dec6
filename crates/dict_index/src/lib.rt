//! Reads a pair of files in dictd's form, an index and a text, into an edition, or tells the first test that
//! they don't pass.
#![tactic(auto)]

mod columns;
mod edition;
mod entry;
mod fault;
mod gather;
mod laws;
mod limits;
mod line;
mod reading;
mod title;
mod whole;

pub use columns::{Columns, columns_of, cut_at};
pub use edition::Edition;
pub use entry::Entry;
pub use fault::{EditionRefusal, IndexFault};
pub use laws::{
    distinct_law, lawful_headwords, one_meaning, three_columns, well_formed_editions,
    worked_edition,
};
pub use limits::{MAX_LINES, MAX_TEXT, entry_key, is_edition_text, is_shown};
pub use line::cut_out;
pub use reading::read_edition;
pub use title::{is_title, refused, title_of, without_key_line};
pub use whole::whole_refusal;
