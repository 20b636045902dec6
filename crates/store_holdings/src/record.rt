// What the database has of one edition: its info, and a part of its text.
ghost use Rattle.std.specs.Prelude.{◌≡◌, ◌<◌, ◌-◌, ◌^◌, ℕ, pos, [], List, length, slice_index_or, String, string_bytes, false, Some, option_map, IfOk, IsErr, OnOk};
ghost use Rattle.std.specs.declared.alloc.Global.{Global};
ghost use Rattle.sqlite.specs.State.{HasCleanDisk};
ghost use Rattle.sqlite.specs.Held.{state};
ghost use Rattle.store_tables.specs.Effects.{Has, WhileOpen};
ghost use Rattle.store_sql.specs.HeaderTable.{header};
ghost use Rattle.store_sql.specs.PartTable.{part as part_table};
ghost use Rattle.store_sql.specs.declared.part_records.StoredPart.{StoredPart as AStoredPart};
ghost use Rattle.store_rows.specs.Parts.{parts_of};
ghost use Rattle.dict_index.specs.Edition.{ReadEdition};
ghost use Rattle.store_holdings.specs.HeldTexts.{HoldsText};
ghost use Rattle.store_holdings.specs.Searches.{HoldsOne, number_in_column, ReadsStore, IsReadFrom, FailsToReadUnder};
ghost use Rattle.store_holdings.specs.Taken.{more_taken};

use crate::fault::fault_of_read;
use dict_desk::Fault;
use sqlite::{Alter, Connection};
use std::alloc::Global;
use store_sql::infos::infos_numbered;
use store_sql::part_one::parts_numbered;
use store_sql::part_records::StoredPart;

// Which of the files of an edition is its text.
const TEXT: i64 = 1;

// The number as a column has it. A number that no column can have is no edition's, nor is the one that stands for it.
pub(crate) fn column_number(number: u64) -> i64
    ensures { result ≡ pos (number_in_column number) }
{
    if number > i64::MAX as u64 {
        return 0;
    }
    number as i64
}

// The last of them.
fn last_info(infos: &mut Vec<String>) -> Option<String>
    ensures { (d : String Global) → 0 < length infos.old.items → result ≡ Some (slice_index_or infos.old.items (length infos.old.items - 1) d) }
{
    infos.pop()
}

// What the edition of this number says of its database, if there is one. Each row that is handed over is counted; no part of
// the edition's text is read.
pub(crate) fn info_of_number<S: Alter>(
    alloc: Global,
    conn: &mut Connection<S>,
    number: u64,
    rows_taken: &mut u64,
) -> Result<Option<String>, Fault>
    requires { WhileOpen (state S.Store conn.old) (Has header) }
    ensures value { HasCleanDisk (state S.Store conn.new) → IfOk result (λ found. (reading : ReadEdition) → HoldsOne (state S.Store conn.old).now number reading → option_map string_bytes found ≡ Some reading.info) }
    ensures taken { HasCleanDisk (state S.Store conn.new) → (reading : ReadEdition) → HoldsOne (state S.Store conn.old).now number reading → OnOk result (rows_taken.new ≡ more_taken rows_taken.old 1) }
    ensures reads { ReadsStore S.Store (IsReadFrom S.Store) (FailsToReadUnder S.Store number) conn.old conn.new result }
    ensures shut { HasCleanDisk (state S.Store conn.new) → (state S.Store conn.old).is_open ≡ false → IsErr result }
{
    match infos_numbered(alloc, conn, column_number(number)) {
        Ok(mut infos) => {
            *rows_taken = rows_taken.saturating_add(infos.as_slice().len() as u64);
            Ok(last_info(&mut infos))
        }
        Err(error) => Err(fault_of_read(error)),
    }
}

// The octets of the last of the parts, and none where there is no part.
fn last_octets(alloc: Global, parts: &mut Vec<StoredPart>) -> Vec<u8>
    ensures none { parts.old.items ≡ [] → result.items ≡ [] }
    ensures last { (d : AStoredPart) → 0 < length parts.old.items → result.items ≡ (slice_index_or parts.old.items (length parts.old.items - 1) d).part.octets.items }
{
    match parts.pop() {
        Some(stored) => {
            let last = stored.part;
            last.octets
        }
        None => Vec::new(alloc),
    }
}

// A part of the text of the edition of this number, which has no octets where there is no such part. Each row that is
// handed over is counted.
pub(crate) fn read_part<S: Alter>(
    alloc: Global,
    conn: &mut Connection<S>,
    number: u64,
    part: u64,
    rows_taken: &mut u64,
) -> Result<Vec<u8>, Fault>
    requires table { WhileOpen (state S.Store conn.old) (Has part_table) }
    requires few { part < 2 ^ 63 }
    ensures value { HasCleanDisk (state S.Store conn.new) → IfOk result (λ octets. (text : List ℕ) → HoldsText (state S.Store conn.old).now number text → octets.items ≡ slice_index_or (parts_of text) part []) }
    ensures taken { HasCleanDisk (state S.Store conn.new) → (text : List ℕ) → HoldsText (state S.Store conn.old).now number text → part < length (parts_of text) → OnOk result (rows_taken.new ≡ more_taken rows_taken.old 1) }
    ensures counted { OnOk result ((read : ℕ) × (rows_taken.new ≡ more_taken rows_taken.old read)) }
    ensures reads { ReadsStore S.Store (IsReadFrom S.Store) (FailsToReadUnder S.Store number) conn.old conn.new result }
{
    match parts_numbered(alloc, conn, column_number(number), TEXT, part as i64) {
        Ok(mut parts) => {
            *rows_taken = rows_taken.saturating_add(parts.as_slice().len() as u64);
            Ok(last_octets(alloc, &mut parts))
        }
        Err(error) => Err(fault_of_read(error)),
    }
}
