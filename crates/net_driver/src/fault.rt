// Why a driver can't be made.

use std::alloc::AllocError;
use std::io;
use thiserror::Error;

/// Why there is no driver with sockets bound to two addresses.
#[derive(Debug, Drop, Error)]
pub enum BindFault {
    /// No socket can be bound to the address for readers.
    #[error("cannot listen for readers: {0}")]
    Dict(AddressFault),
    /// None can be bound to that for editors, and one was to that for readers.
    #[error("cannot listen for editors: {0}")]
    Http(AddressFault),
    /// Sockets can't be waited for.
    #[error("cannot wait for sockets: {0}")]
    Wait(io::Error),
    /// A growth was refused.
    #[error("out of memory")]
    Memory,
}

/// Why no socket is bound to an address.
#[derive(Debug, Drop, Error)]
pub enum AddressFault {
    /// The text is no IP address and port.
    #[error("no IP address and port")]
    Unread,
    /// The system refuses it.
    #[error("{0}")]
    Unbound(io::Error),
}

impl From<AllocError> for BindFault {
    ghost use Rattle.std.specs.Prelude.{◌≡◌};
    ghost use Rattle.net_driver.specs.declared.fault.BindFault.TheVariants.{Memory};

    ghost from_gives = { λ _ gives. gives ≡ Memory };

    fn from(_: AllocError) -> BindFault {
        BindFault::Memory
    }
}
