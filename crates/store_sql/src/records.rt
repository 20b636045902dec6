//! The records of the tables, read from rows.

ghost use Rattle.std.specs.Prelude.{◌≡◌, ◌≢◌, ◌<◌, ◌↔◌, IsTrue, List, length, IfOk, IfErr, OnOk};
ghost use Rattle.sqlite.specs.declared.error.ErrorCode.TheVariants.{OutOfMemory as Refused};
ghost use Rattle.sqlite.specs.declared.types.Value.{Value as SqlValue};
ghost use Rattle.sqlite.specs.declared.types.Value.TheVariants.{Int};
ghost use Rattle.sqlite.specs.Order.{column};
ghost use Rattle.store_sql.specs.Encodings.{stored_mark, stored_item, stored_member, stored_edition, stored_entry, stored_kept, stored_number};
ghost use Rattle.store_sql.specs.Columns.{Content, HasColumns, mark_columns, item_columns, member_columns, edition_columns, entry_columns, kept_columns, number_columns};
ghost use Rattle.store_sql.specs.Reads.{FailsToDecode};

use sqlite::types::FromSql;
use sqlite::{Error, ErrorCode, Row};
use std::alloc::{AllocError, AllocFailed};
use store_tables::{EditionRecord, EntryRecord, ItemRecord, KeptRecord, Mark, Member, StoredRow};

/// Why records were not read.
#[derive(Debug, Drop, thiserror::Error)]
pub enum ReadError {
    /// A row stands for no record of its table: a value is of another kind, or a text isn't UTF-8.
    #[error("a row stands for no record")]
    NoRecord,
    /// The store failed, the limit on steps was met, or memory was refused.
    #[error("{0}")]
    Store(Error),
}

impl From<Error> for ReadError {
    ghost use Rattle.std.specs.Prelude.{◌≡◌};
    ghost use Rattle.store_sql.specs.declared.records.ReadError.TheVariants.{Store};

    ghost from_gives = { λ given e. e ≡ Store given };

    fn from(error: Error) -> ReadError {
        ReadError::Store(error)
    }
}

impl From<AllocError> for ReadError {
    ghost use Rattle.std.specs.Prelude.{◌≡◌};
    ghost use Rattle.sqlite.specs.declared.error.Error.TheVariants.{SqliteFailure};
    ghost use Rattle.sqlite.specs.declared.error.ErrorCode.TheVariants.{OutOfMemory};
    ghost use Rattle.store_sql.specs.declared.records.ReadError.TheVariants.{Store};

    ghost from_gives = { λ _ e. e ≡ Store (SqliteFailure OutOfMemory) };

    fn from(_: AllocError) -> ReadError {
        ReadError::Store(Error::SqliteFailure(ErrorCode::OutOfMemory))
    }
}

impl<T: Drop> From<AllocFailed<T>> for ReadError {
    ghost use Rattle.std.specs.Prelude.{◌≡◌};
    ghost use Rattle.sqlite.specs.declared.error.Error.TheVariants.{SqliteFailure};
    ghost use Rattle.sqlite.specs.declared.error.ErrorCode.TheVariants.{OutOfMemory};
    ghost use Rattle.store_sql.specs.declared.records.ReadError.TheVariants.{Store};

    ghost from_gives = { λ _ e. e ≡ Store (SqliteFailure OutOfMemory) };

    fn from(_: AllocFailed<T>) -> ReadError {
        ReadError::Store(Error::SqliteFailure(ErrorCode::OutOfMemory))
    }
}

/// The number of an edition, read without its texts.
#[derive(Clone, Copy, Debug, PartialEq, Eq)]
pub struct EditionNumber {
    pub number: i64,
}

/// A record that is read from a row: the rowid, and then the columns in their order.
pub trait Record: Sized {
    // The row that it stands in, and what each column of such a row holds.
    ghost stored: { Self → List SqlValue };

    ghost columns: { List Content };

    /// The record, or that the row is none: a column doesn't hold what the record has there, or there are fewer or more of them.
    fn from_row(row: &Row) -> Result<Self, ReadError>
        ensures read { IfOk result (λ r. row.now ≡ stored r) }
        ensures lawful { OnOk result (HasColumns columns row.now) }
        ensures refused { IfErr result (FailsToDecode columns row.now) };

    /// The rowid of the row that it stands in.
    fn rowid(&self) -> i64
        ensures { column (stored self.now) 0 ≡ Int result };
}

// Whether memory was refused.
fn is_refused(error: &Error) -> bool
    ensures { IsTrue result ↔ error.now ≡ Error.SqliteFailure Refused }
{
    matches!(error, Error::SqliteFailure(ErrorCode::OutOfMemory))
}

// What stands in a column, or that something else does.
pub(crate) fn cell<T: FromSql>(row: &Row, at: usize) -> Result<T, ReadError>
    requires { at < length row.now }
    ensures ok { IfOk result (λ x. T.FromSql.reads_as (column row.now at) x) }
    ensures other { IfErr result (λ e. e ≡ ReadError.NoRecord → ¬ T.FromSql.is_readable (column row.now at)) }
    ensures refused { IfErr result (λ e. e ≢ ReadError.NoRecord → e ≡ ReadError.Store (Error.SqliteFailure Refused)) }
{
    match row.get(at) {
        Ok(x) => Ok(x),
        Err(error) => {
            if is_refused(&error) {
                return Err(ReadError::Store(error));
            }
            Err(ReadError::NoRecord)
        }
    }
}

impl Record for StoredRow<Mark<String>> {
    ghost stored = { stored_mark };

    ghost columns = { mark_columns };

    fn from_row(row: &Row) -> Result<Self, ReadError> {
        if row.column_count() != 5 {
            return Err(ReadError::NoRecord);
        }
        Ok(StoredRow {
            rowid: cell(row, 0)?,
            value: Mark {
                id: cell(row, 1)?,
                magic: cell(row, 2)?,
                version: cell(row, 3)?,
                installs: cell(row, 4)?,
            },
        })
    }

    fn rowid(&self) -> i64 {
        self.rowid
    }
}

impl Record for StoredRow<ItemRecord<String>> {
    ghost stored = { stored_item };

    ghost columns = { item_columns };

    fn from_row(row: &Row) -> Result<Self, ReadError> {
        if row.column_count() != 7 {
            return Err(ReadError::NoRecord);
        }
        Ok(StoredRow {
            rowid: cell(row, 0)?,
            value: ItemRecord {
                place: cell(row, 1)?,
                name: cell(row, 2)?,
                kind: cell(row, 3)?,
                title: cell(row, 4)?,
                current: cell(row, 5)?,
                former: cell(row, 6)?,
            },
        })
    }

    fn rowid(&self) -> i64 {
        self.rowid
    }
}

impl Record for StoredRow<Member<String>> {
    ghost stored = { stored_member };

    ghost columns = { member_columns };

    fn from_row(row: &Row) -> Result<Self, ReadError> {
        if row.column_count() != 4 {
            return Err(ReadError::NoRecord);
        }
        Ok(StoredRow {
            rowid: cell(row, 0)?,
            value: Member {
                owner: cell(row, 1)?,
                ord: cell(row, 2)?,
                name: cell(row, 3)?,
            },
        })
    }

    fn rowid(&self) -> i64 {
        self.rowid
    }
}

impl Record for StoredRow<EditionRecord<String, Vec<u8>>> {
    ghost stored = { stored_edition };

    ghost columns = { edition_columns };

    fn from_row(row: &Row) -> Result<Self, ReadError> {
        if row.column_count() != 6 {
            return Err(ReadError::NoRecord);
        }
        Ok(StoredRow {
            rowid: cell(row, 0)?,
            value: EditionRecord {
                number: cell(row, 1)?,
                owner: cell(row, 2)?,
                title: cell(row, 3)?,
                info: cell(row, 4)?,
                body: cell(row, 5)?,
            },
        })
    }

    fn rowid(&self) -> i64 {
        self.rowid
    }
}

impl Record for StoredRow<EntryRecord<String>> {
    ghost stored = { stored_entry };

    ghost columns = { entry_columns };

    fn from_row(row: &Row) -> Result<Self, ReadError> {
        if row.column_count() != 6 {
            return Err(ReadError::NoRecord);
        }
        Ok(StoredRow {
            rowid: cell(row, 0)?,
            value: EntryRecord {
                edition: cell(row, 1)?,
                ord: cell(row, 2)?,
                headword: cell(row, 3)?,
                start: cell(row, 4)?,
                length: cell(row, 5)?,
            },
        })
    }

    fn rowid(&self) -> i64 {
        self.rowid
    }
}

impl Record for StoredRow<KeptRecord<String>> {
    ghost stored = { stored_kept };

    ghost columns = { kept_columns };

    fn from_row(row: &Row) -> Result<Self, ReadError> {
        if row.column_count() != 6 {
            return Err(ReadError::NoRecord);
        }
        Ok(StoredRow {
            rowid: cell(row, 0)?,
            value: KeptRecord {
                id: cell(row, 1)?,
                number: cell(row, 2)?,
                verb: cell(row, 3)?,
                name: cell(row, 4)?,
                edition: cell(row, 5)?,
            },
        })
    }

    fn rowid(&self) -> i64 {
        self.rowid
    }
}

impl Record for StoredRow<EditionNumber> {
    ghost stored = { stored_number };

    ghost columns = { number_columns };

    fn from_row(row: &Row) -> Result<Self, ReadError> {
        if row.column_count() != 2 {
            return Err(ReadError::NoRecord);
        }
        let rowid = cell(row, 0)?;
        let number = cell(row, 1)?;
        Ok(StoredRow {
            rowid,
            value: EditionNumber { number },
        })
    }

    fn rowid(&self) -> i64 {
        self.rowid
    }
}
