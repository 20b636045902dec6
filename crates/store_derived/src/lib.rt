//! Which entries a query looks at, and lists in one piece of memory.
#![tactic(auto)]

mod laws;
mod lists;
mod numbers;
mod search;
mod spans;
mod texts;

pub use laws::{range_law, search_laws};
pub use lists::PlaceLists;
pub use search::{Selection, is_kept, is_tested, select};
pub use spans::{Span, Spans};
pub use texts::Texts;
