//! The tables of a file, each read row by row: what its rows tell, or why it isn't read.
#![tactic(auto)]

mod census;
mod editions;
mod entries;
mod fault;
mod files;
mod index;
mod indexing;
mod indexing_reader;
mod scan;
mod tables;
mod takers;

pub use census::{EditionTable, test_rows};
pub use editions::{test_editions, test_headers, test_parts};
pub use entries::{read_filed_entries, read_old_entries, read_plain_entries, read_shown_entries};
pub use fault::{ReadingFault, fault_of_read, fault_of_rows, fault_of_store};
pub use files::{INDEX_FILE, TEXT_FILE, read_file};
pub use index::read_index;
pub use indexing::EditionIndex;
pub use indexing_reader::IndexingReader;
pub use scan::{Taker, take_all};
pub use tables::{read_replies, test_ids, test_rowids};
