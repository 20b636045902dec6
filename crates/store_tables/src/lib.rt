//! The tables of the store and the records of their rows: what they are, whether a schema that is found has the tables or leaves room for
//! them, and how they are made inside a transaction, which is committed.
#![tactic(auto)]

pub mod commit;
pub mod create;
pub mod database_laws;
mod found;
mod headers;
mod keyed;
mod keyed_records;
pub mod laws;
mod names;
mod records;
mod room;
mod tables;
pub mod transaction;

pub use found::{
    find_table, has_table, is_column, is_mark, is_only_key, is_only_plain_order, is_plain,
    is_unshared,
};
pub use headers::HeaderRecord;
pub use keyed::KeyedTable;
pub use keyed_records::{KeyedEntry, OldEntry};
pub use names::{is_name_used, is_own_name_used, lacks_counting_table};
pub use records::{EditionRecord, EntryRecord, ItemRecord, KeptRecord, Mark, Member, StoredRow};
pub use room::{has_room, is_name_referred, is_own_index_name_used, is_own_name_referred};
pub use tables::StoreTable;
