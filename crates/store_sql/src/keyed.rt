//! The records of entries with keys, read from rows.

ghost use Rattle.std.specs.Prelude.{◌≡◌, ◌∷◌, drop, length, IfOk, IfErr, OnOk};
ghost use Rattle.sqlite.specs.Order.{column};
ghost use Rattle.store_tables.specs.KeyedRecords.{owned_keyed_entry, owned_old_entry};
ghost use Rattle.store_sql.specs.Columns.{HasColumns};
ghost use Rattle.store_sql.specs.Reads.{FailsToDecode};
ghost use Rattle.store_sql.specs.Keyed.{keyed_entry_row, keyed_entry_cells, keyed_entry_columns, old_entry_row, old_entry_cells, old_entry_columns, stored_keyed_entry, stored_old_entry};

use crate::records::{ReadError, Record, cell};
use sqlite::Row;
use store_tables::{KeyedEntry, OldEntry, StoredRow};

// What stands behind the rowid, or that it is no entry.
fn keyed_entry(row: &Row) -> Result<KeyedEntry<String, Vec<u8>>, ReadError>
    requires { length row.now ≡ 9 }
    ensures read { IfOk result (λ e. row.now ≡ column row.now 0 ∷ keyed_entry_row (owned_keyed_entry e)) }
    ensures lawful { OnOk result (HasColumns keyed_entry_cells (drop 1 row.now)) }
    ensures refused { IfErr result (FailsToDecode keyed_entry_columns row.now) }
{
    Ok(KeyedEntry {
        edition: cell(row, 1)?,
        ord: cell(row, 2)?,
        headword: cell(row, 3)?,
        start: cell(row, 4)?,
        length: cell(row, 5)?,
        key: cell(row, 6)?,
        reversed: cell(row, 7)?,
        shown: cell(row, 8)?,
    })
}

impl Record for StoredRow<KeyedEntry<String, Vec<u8>>> {
    ghost stored = { stored_keyed_entry };

    ghost columns = { keyed_entry_columns };

    fn from_row(row: &Row) -> Result<Self, ReadError> {
        if row.column_count() != 9 {
            return Err(ReadError::NoRecord);
        }
        let rowid = cell(row, 0)?;
        let value = keyed_entry(row)?;
        Ok(StoredRow { rowid, value })
    }

    fn rowid(&self) -> i64 {
        self.rowid
    }
}

// What stands behind the rowid, or that it is no entry of schemas 2 and 3.
fn old_entry(row: &Row) -> Result<OldEntry<String, Vec<u8>>, ReadError>
    requires { length row.now ≡ 8 }
    ensures read { IfOk result (λ e. row.now ≡ column row.now 0 ∷ old_entry_row (owned_old_entry e)) }
    ensures lawful { OnOk result (HasColumns old_entry_cells (drop 1 row.now)) }
    ensures refused { IfErr result (FailsToDecode old_entry_columns row.now) }
{
    Ok(OldEntry {
        edition: cell(row, 1)?,
        ord: cell(row, 2)?,
        headword: cell(row, 3)?,
        start: cell(row, 4)?,
        length: cell(row, 5)?,
        key: cell(row, 6)?,
        reversed: cell(row, 7)?,
    })
}

impl Record for StoredRow<OldEntry<String, Vec<u8>>> {
    ghost stored = { stored_old_entry };

    ghost columns = { old_entry_columns };

    fn from_row(row: &Row) -> Result<Self, ReadError> {
        if row.column_count() != 8 {
            return Err(ReadError::NoRecord);
        }
        let rowid = cell(row, 0)?;
        let value = old_entry(row)?;
        Ok(StoredRow { rowid, value })
    }

    fn rowid(&self) -> i64 {
        self.rowid
    }
}
