//! The catalogue that one file holds, in the tables of its database: which it is, whether there is room for them, and what is asked of one edition of it.
//!
//! What a query finds, how much of it and under which headwords, an index tells that is in memory (`store_search`). The database is asked for an edition's info and the parts of its text alone. After a call there are the parts of texts that the caller keeps.
#![tactic(auto)]

mod answering;
mod fault;
mod files;
mod found;
mod indexes;
mod lookup_laws;
mod lookups;
mod numbers;
mod order_laws;
mod parts;
mod record;
mod room;
mod texts;

pub use answering::{count_under, find_under, heads_under};
pub use fault::{fault_of, fault_of_read};
pub use files::{
    file_laws, files_after, files_more, files_once, files_tell, same_under_versions, worked_files,
};
pub use indexes::Indexes;
pub use lookup_laws::held_laws;
pub use lookups::{count, find, heads, info};
pub use numbers::{let_go_of_gone, make_indexes};
pub use order_laws::read_in_order;
pub use room::{has_part_room, has_place};
pub use texts::{MAX_OCTETS, MAX_TEXTS, PartKey, TextParts};
