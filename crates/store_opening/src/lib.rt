//! Opening of a catalogue file: it is read whole, and nothing is written.
#![tactic(auto)]

mod editions;
mod laws;
mod layout;
mod mark_records;
mod mark_table;
mod opening;
mod records;
mod rowids;
mod strays;
mod texts;

pub use laws::{held_is_marked, one_is_held};
pub use opening::read_catalogue;
