//! Two listening sockets and their connections in one thread, in rounds: what comes goes to a hub, and what the hub puts is
//! sent.
#![tactic(auto)]

mod binding;
mod connections;
mod driver;
mod event_loop;
mod fault;
mod laws;
mod listening;
mod serving;
mod sockets;
mod turning;

pub use binding::{Network, System, bind_both};
pub use driver::Driver;
pub use event_loop::EventLoop;
pub use fault::{AddressFault, BindFault};
pub use laws::{accepting_laws, first_laws};
pub use serving::{RoundsEnd, pace, serve};
pub use sockets::{Sockets, SystemSockets};
