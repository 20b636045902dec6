//! The desk: what a catalogue is asked and told through.
#![tactic(auto)]

mod answered;
mod counted;
mod edition;
mod entries;
mod fault;
mod keeper;
mod laws;
mod lookup;
mod plain;
mod preparing;
mod replies;
mod sink;

pub use answered::Answered;
pub use fault::Fault;
pub use keeper::{Halted, Keeper, apply_all};
pub use laws::{worked_definitions, worked_matches};
pub use lookup::{End, Lookup, What};
pub use plain::PlainDesk;
pub use preparing::Preparer;
pub use sink::{Demand, Row, RowSink};
