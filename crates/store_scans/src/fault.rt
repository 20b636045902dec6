// Why a file isn't read.
ghost use Rattle.std.specs.Prelude.{◌≡◌};
ghost use Rattle.store_scans.specs.Reading.{fault_of_store, reading_fault_of, fault_of_rows};

use sqlite::{Error, ErrorCode};
use store_rows::RowsFault;
use store_sql::records::ReadError;

/// Why the tables of a file aren't read.
#[derive(Clone, Copy, Debug, PartialEq, Eq)]
pub enum ReadingFault {
    /// They stand for no catalogue.
    Damaged,
    /// A growth was refused.
    Memory,
    /// The store failed.
    Disk,
}

/// The fault that an error of the store is.
pub fn fault_of_store(error: Error) -> ReadingFault
    ensures { result ≡ fault_of_store error }
{
    match error {
        Error::SqliteFailure(ErrorCode::OutOfMemory) => ReadingFault::Memory,
        _ => ReadingFault::Disk,
    }
}

/// The fault that an error of a reading is.
pub fn fault_of_read(error: ReadError) -> ReadingFault
    ensures { result ≡ reading_fault_of error }
{
    match error {
        ReadError::NoRecord => ReadingFault::Damaged,
        ReadError::Store(error) => fault_of_store(error),
    }
}

/// The fault that a fault of the records is.
pub fn fault_of_rows(fault: RowsFault) -> ReadingFault
    ensures { result ≡ fault_of_rows fault }
{
    match fault {
        RowsFault::Damaged => ReadingFault::Damaged,
        RowsFault::Memory => ReadingFault::Memory,
    }
}
