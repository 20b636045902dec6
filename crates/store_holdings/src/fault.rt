// The fault that an error of a statement, or of a read, is.
ghost use Rattle.std.specs.Prelude.{◌≡◌};
ghost use Rattle.store_holdings.specs.Faults.{fault_of, fault_of_read, IsOfStore};

use dict_desk::Fault;
use sqlite::{Error, ErrorCode};
use store_sql::records::ReadError;

/// The fault of a statement before the commit: refused memory, or the store failed.
pub fn fault_of(error: Error) -> Fault
    ensures { result ≡ fault_of error }
{
    match error {
        Error::SqliteFailure(ErrorCode::OutOfMemory) => Fault::Memory,
        _ => Fault::Disk,
    }
}

/// The fault of a read before the commit. Where a row is no record, the store has not given what was written.
pub fn fault_of_read(error: ReadError) -> Fault
    ensures is { result ≡ fault_of_read error }
    ensures kind { IsOfStore result }
{
    match error {
        ReadError::NoRecord => Fault::Disk,
        ReadError::Store(error) => fault_of(error),
    }
}
