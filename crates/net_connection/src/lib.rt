//! One connection: what comes goes to a hub, and what the hub puts is sent.
#![tactic(auto)]

mod connection;
mod delivering;
mod held;
mod opening;
mod stage;

pub use connection::Connection;
pub use held::PIECE;
pub use opening::{Opening, greet_by_hub, hand_by_hub};
pub use stage::Stage;
