//! A part of a file, and the row that it is read from.

ghost use Rattle.store_sql.specs.PartRecords.{part_columns, stored_part};

use crate::records::{ReadError, Record, cell};
use sqlite::Row;

/// A part of a file of an edition, over the type of its octets: `&[u8]` where it is written, `Vec<u8>` where it was read.
#[derive(Debug, PartialEq, Eq, Drop)]
pub struct Part<B> {
    /// The number of the edition.
    pub edition: i64,
    /// Which of its files: 0 for the index, 1 for the text.
    pub file: i64,
    /// The number of the part, from 0.
    pub number: i64,
    /// The octets that it has of the file.
    pub octets: B,
}

/// A part beside the rowid of the row that it stands in.
#[derive(Debug, PartialEq, Eq, Drop)]
pub struct StoredPart {
    /// The rowid.
    pub rowid: i64,
    /// The part.
    pub part: Part<Vec<u8>>,
}

impl Record for StoredPart {
    ghost stored = { stored_part };

    ghost columns = { part_columns };

    fn from_row(row: &Row) -> Result<Self, ReadError> {
        if row.column_count() != 5 {
            return Err(ReadError::NoRecord);
        }
        Ok(StoredPart {
            rowid: cell(row, 0)?,
            part: Part {
                edition: cell(row, 1)?,
                file: cell(row, 2)?,
                number: cell(row, 3)?,
                octets: cell(row, 4)?,
            },
        })
    }

    fn rowid(&self) -> i64 {
        self.rowid
    }
}
