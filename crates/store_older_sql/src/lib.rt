//! The statements over tables of older schemas, which are read and dropped, and made no more.
#![tactic(auto)]

mod drop;
mod editions;
mod entries;
mod found;
mod inside;
mod keyed_laws;
mod keyed_old;
mod migration_laws;
mod migration_old;
mod scan;
mod shown;

pub use drop::{drop_keyed_table, drop_table};
pub use editions::{drop_old_edition, editions_inside};
pub use entries::{EntryForm, drop_entry};
pub use found::has_keyed_table;
pub use inside::entries_inside;
pub use keyed_laws::{keyed_definition_laws, rowid_law};
pub use keyed_old::{has_old_entry, read_old_by_rowid, read_old_rows_of};
pub use migration_laws::{dropped_laws, form_law, names_laws, old_definition_laws};
pub use migration_old::old_entries_inside;
pub use scan::{read_shown_by_rowid, read_shown_rows_of};
pub use shown::shown_entries_inside;
