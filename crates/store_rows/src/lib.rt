//! The records of the tables, and the catalogue that they stand for; a file in parts, and an index as it is stored.
#![tactic(auto)]

mod apart;
mod columns;
mod entries;
mod fault;
mod file;
mod items;
mod joiner;
mod lawful;
mod laws;
mod line_laws;
mod marks;
mod part_laws;
mod reader;
mod reading;
mod replies;
mod titles;
mod writing;
mod written;

pub use apart::{IdReader, RowidReader};
pub use fault::RowsFault;
pub use file::{PART_SIZE, part};
pub use items::number_in;
pub use joiner::{Joiner, Refused};
pub use laws::{
    empty_records, one_catalogue, ordered_records, records_after, records_by_number,
    taken_in_order, worked_records,
};
pub use line_laws::{stored_indexes, stored_lines};
pub use part_laws::parts_laws;
pub use reader::Reader;
pub use reading::{StoredColumns, read_line};
pub use replies::verb_in;
pub use writing::write_line;
pub use written::{KNOWN_VERSION, item_row, kept_row, mark_row, member_row, signed_numbers};
