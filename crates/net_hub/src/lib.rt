//! Many connections over one catalogue, without sockets: which are open, and what each gets.
#![tactic(auto)]

mod connection_table;
mod exchange;
mod fault;
mod hub;
mod incoming;
mod kind;
mod laws;

pub use connection_table::MAX_OPEN;
pub use fault::HubFault;
pub use hub::{Event, Hub};
pub use incoming::Out;
pub use kind::Kind;
pub use laws::{
    acknowledged_is_left, one_served, same_by_turns, same_for_both, undisturbed_or_not,
};
