//! What is found in an edition, and how many rows the statements hand over for it.

use dict_desk::{Lookup, PlainDesk, What};
use dict_match::{Strategy, key_of};
use sqlite::Alter;
use std::alloc::Global;
use std::process::Abort;
use store_desk::Desk;
use store_fixtures::Rows;

/// What is found in an edition, up to so many rows.
pub(crate) fn found<L: Lookup>(
    rt: &impl Abort,
    alloc: Global,
    desk: &mut L,
    number: u64,
    strategy: Strategy,
    text: &str,
    most: usize,
) -> Rows {
    let query = key_of(alloc, text).expect(rt, "memory");
    let mut rows = Rows::new(alloc, most);
    desk.find(number, strategy, &query, What::Entries, &mut rows)
        .expect(rt, "rows");
    rows
}

/// A desk that may tell how many rows its statements have handed over.
pub(crate) trait Counted {
    fn taken(&self) -> Option<u64>;
}

impl Counted for PlainDesk {
    fn taken(&self) -> Option<u64> {
        None
    }
}

impl<S: Alter + Drop> Counted for Desk<S> {
    fn taken(&self) -> Option<u64> {
        Some(self.rows_taken())
    }
}

/// How many rows were handed over between two counts, both of one desk.
pub(crate) fn taken_between(before: Option<u64>, after: Option<u64>) -> Option<u64> {
    match (before, after) {
        (Some(before), Some(after)) => Some(after.saturating_sub(before)),
        _ => None,
    }
}
