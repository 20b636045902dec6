// Why a call of a desk fails.
ghost use Rattle.std.specs.Prelude.{◌≡◌};
ghost use Rattle.dict_desk.specs.Faults.{fault_number, fault_name, is_failure};

use dict_catalogue::CommandRefusal;
use std::alloc::{AllocError, AllocFailed};
use thiserror::Error;

/// Why a call of a desk didn't do what it was asked. A refusal is the catalogue's answer to a command; the others are
/// failures, and say nothing of what was asked.
#[derive(Clone, Copy, Debug, PartialEq, Eq, Error)]
pub enum Fault {
    /// The catalogue refuses the command. Nothing has changed.
    #[error("the command is refused")]
    Refused(CommandRefusal),
    /// A growth was refused before anything was committed. Nothing has changed, and the desk goes on.
    #[error("out of memory")]
    Memory,
    /// The store failed. The desk is closed; once it is opened anew, the command is there whole or not at all.
    #[error("the store failed")]
    Disk,
    /// The store failed earlier, and the desk is closed. Nothing has changed.
    #[error("the store is closed")]
    Closed,
    /// At an opening: there is no readable mark of this product. At a creation: one of its table names is in use.
    #[error("this is no catalogue")]
    NotACatalogue,
    /// At an opening: the mark is there, and no catalogue stands for the tables.
    #[error("the catalogue is damaged")]
    Damaged,
    /// At an opening: the mark's version is above the one that this program knows.
    #[error("the catalogue is of a newer version")]
    NewerSchema,
}

impl Fault {
    /// The fault's number, as users see it: 20 to 32 for a refusal, 40 to 45 for a failure.
    pub fn number(self) -> u8
        ensures { result ≡ fault_number self }
    {
        match self {
            Fault::Refused(refusal) => refusal.number(),
            Fault::Memory => 40,
            Fault::Disk => 41,
            Fault::Closed => 42,
            Fault::NotACatalogue => 43,
            Fault::Damaged => 44,
            Fault::NewerSchema => 45,
        }
    }

    /// Whether it is a failure, with a number from 40 on. A refusal is none.
    pub fn is_failure(self) -> bool
        ensures { result ≡ is_failure self }
    {
        !matches!(self, Fault::Refused(_))
    }

    /// The fault's name, as users see it.
    pub fn name(self) -> &'static str
        ensures { result.now ≡ fault_name self }
    {
        match self {
            Fault::Refused(refusal) => refusal.name(),
            Fault::Memory => "Memory",
            Fault::Disk => "Disk",
            Fault::Closed => "Closed",
            Fault::NotACatalogue => "NotACatalogue",
            Fault::Damaged => "Damaged",
            Fault::NewerSchema => "NewerSchema",
        }
    }
}

impl From<AllocError> for Fault {
    ghost use Rattle.dict_desk.specs.declared.fault.Fault.TheVariants.{Memory};

    ghost from_gives = { λ _ fault. fault ≡ Memory };

    fn from(_: AllocError) -> Self {
        Fault::Memory
    }
}

impl<T: Drop> From<AllocFailed<T>> for Fault {
    ghost use Rattle.dict_desk.specs.declared.fault.Fault.TheVariants.{Memory};

    ghost from_gives = { λ _ fault. fault ≡ Memory };

    fn from(_: AllocFailed<T>) -> Self {
        Fault::Memory
    }
}
