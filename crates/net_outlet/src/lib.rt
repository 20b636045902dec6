//! What a connection sends and receives: octets wait for a peer, and any transport carries them.
#![tactic(auto)]

mod calls;
mod outlet;
mod queue;
mod trail;
mod transport;

pub use calls::{Received, Sent, has_moved, received_by, sent_by};
pub use outlet::{Beginning, Outlet};
pub use queue::{MAX_WAITING, Queue};
pub use trail::Trail;
pub use transport::{Socket, Transport};
