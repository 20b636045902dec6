//! The rules of the catalogue: what a command does, or why it is refused.
//!
//! A catalogue is a list of items in order: databases, each with a current edition and perhaps a former one, and
//! virtual databases, which list names of databases. Commands install editions, take them back, retire items, and
//! put and place virtual ones. This crate decides them over a catalogue's summary, without any store.
#![tactic(auto)]

mod commands;
mod copies;
mod effects;
mod fault;
mod laws;
mod lookups;
mod planning;
mod refusing;
mod reply;
mod summary;

pub use commands::Command;
pub use fault::{CommandRefusal, PlanFault};
pub use laws::{after_laws, step_law, summary_laws, well_formed_laws};
pub use lookups::{is_among, is_known, names_regular};
pub use planning::{PlannedChange, edition_numbers, plan};
pub use refusing::{MAX_ACCEPTED, MAX_ITEMS, MAX_MEMBERS};
pub use reply::{Kept, Verb};
pub use summary::{Item, StoredTitle, Summary};
