//! From the tables of an older version to those of the known one, in one transaction, and the empty ones made.
#![tactic(auto)]

mod dropping;
mod editions;
mod files;
mod heading;
mod index;
mod laws;
mod lines;
mod making;
mod marking;
mod migrating;
mod older;

pub use laws::{migrated_holds, stopped_migration};
pub use making::create;
pub use migrating::migrate;
