//! What lookups ask of an edition, in memory: which entries a query finds, and what is shown of them.
#![tactic(auto)]

mod builder;
mod edition;
mod entries;
mod found;
mod index;
mod laws;
mod making;
mod same;
mod shown;

pub use builder::IndexBuilder;
pub use edition::making_of_edition;
pub use found::{Counted, Found};
pub use index::{Index, IndexedEntry};
pub use laws::{edition_laws, selection_law};
pub use making::IndexMaking;
