// Why an event is refused.
ghost use Rattle.std.specs.Prelude.{◌≡◌};
ghost use Rattle.net_hub.specs.Books.{hub_fault_number};

use thiserror::Error;

/// Why an event is refused. Then nothing has changed, and nothing was put.
#[derive(Clone, Copy, Debug, PartialEq, Eq, Error)]
pub enum HubFault {
    /// Of octets or an end: the connection isn't open. Of an opening: its id isn't above each earlier one.
    #[error("no such connection")]
    UnknownConnection,
    /// Of an opening: 64 connections are open.
    #[error("too many connections")]
    TooMany,
    /// The hub's own growth was refused.
    #[error("out of memory")]
    Memory,
}

impl HubFault {
    /// The fault's number, as users see it.
    pub fn number(self) -> u8
        ensures { result ≡ hub_fault_number self }
    {
        match self {
            HubFault::UnknownConnection => 50,
            HubFault::TooMany => 51,
            HubFault::Memory => 52,
        }
    }
}
