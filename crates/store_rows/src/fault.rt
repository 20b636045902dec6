// Why records stand for no catalogue.
ghost use Rattle.std.specs.Prelude.{◌≡◌};

use std::alloc::{AllocError, AllocFailed};
use thiserror::Error;

/// Why no summary is read.
#[derive(Clone, Copy, Debug, PartialEq, Eq, Error)]
pub enum RowsFault {
    /// The records stand for no catalogue.
    #[error("the tables are damaged")]
    Damaged,
    /// A growth was refused.
    #[error("out of memory")]
    Memory,
}

impl From<AllocError> for RowsFault {
    ghost use Rattle.store_rows.specs.declared.fault.RowsFault.TheVariants.{Memory};

    ghost from_gives = { λ _ fault. fault ≡ Memory };

    fn from(_: AllocError) -> Self {
        RowsFault::Memory
    }
}

impl<T: Drop> From<AllocFailed<T>> for RowsFault {
    ghost use Rattle.store_rows.specs.declared.fault.RowsFault.TheVariants.{Memory};

    ghost from_gives = { λ _ fault. fault ≡ Memory };

    fn from(_: AllocFailed<T>) -> Self {
        RowsFault::Memory
    }
}
