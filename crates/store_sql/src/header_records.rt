//! The row that a header is read from.

ghost use Rattle.store_sql.specs.HeaderRecords.{header_columns, stored_header};

use crate::records::{ReadError, Record, cell};
use sqlite::Row;
use store_tables::HeaderRecord;

/// A header beside the rowid of the row that it stands in.
#[derive(Debug, PartialEq, Eq, Drop)]
pub struct StoredHeader {
    /// The rowid.
    pub rowid: i64,
    /// The header.
    pub value: HeaderRecord<String>,
}

impl Record for StoredHeader {
    ghost stored = { stored_header };

    ghost columns = { header_columns };

    fn from_row(row: &Row) -> Result<Self, ReadError> {
        if row.column_count() != 5 {
            return Err(ReadError::NoRecord);
        }
        Ok(StoredHeader {
            rowid: cell(row, 0)?,
            value: HeaderRecord {
                number: cell(row, 1)?,
                owner: cell(row, 2)?,
                title: cell(row, 3)?,
                info: cell(row, 4)?,
            },
        })
    }

    fn rowid(&self) -> i64 {
        self.rowid
    }
}
