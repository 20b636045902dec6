// The record of an edition with its text, as each layout has it.
ghost use Rattle.std.specs.Prelude.{◌≡◌, [], ◌∷◌, codes, IfOk, IfErr, OnOk};
ghost use Rattle.sqlite.specs.State.{HasCleanDisk};
ghost use Rattle.sqlite.specs.Held.{state};
ghost use Rattle.store_tables.specs.Tables.{edition as edition_table};
ghost use Rattle.store_tables.specs.Records.{header_of};
ghost use Rattle.store_tables.specs.Typed.{owned_edition, owned_header};
ghost use Rattle.store_sql.specs.HeaderRecords.{header_columns, stored_header};
ghost use Rattle.store_sql.specs.HeaderTable.{header as header_table};
ghost use Rattle.store_sql.specs.PartTable.{part};
ghost use Rattle.store_sql.specs.Columns.{edition_columns};
ghost use Rattle.store_tables.specs.Effects.{Has, WhileOpen, equals_number};
ghost use Rattle.store_sql.specs.Encodings.{stored_edition};
ghost use Rattle.store_sql.specs.Reads.{IsSelection};
ghost use Rattle.store_rows.specs.Versions.{Parted};
ghost use Rattle.store_scans.specs.Reading.{Same, OnlyReads, IsExcusedReading};
ghost use Rattle.store_opening.specs.Layouts.{layout_in};
ghost use Rattle.store_opening.specs.Opens.{HasTablesOf, HasRecord, HasWholeRecord, HasNoEdition, IsNotOne};

use crate::layout::TableLayout;
use sqlite::{Alter, Connection};
use std::alloc::Global;
use store_scans::{ReadingFault, TEXT_FILE, fault_of_read, read_file};
use store_sql::header_one::headers_numbered;
use store_sql::header_records::StoredHeader;
use store_sql::read::editions_numbered;
use store_tables::{EditionRecord, HeaderRecord, StoredRow};

/// The one edition of this number.
fn edition_numbered<S: Alter>(
    alloc: Global,
    conn: &mut Connection<S>,
    number: i64,
) -> Result<StoredRow<EditionRecord<String, Vec<u8>>>, ReadingFault>
    requires { WhileOpen (state S.Store conn.old) (Has edition_table) }
    ensures reads { OnlyReads (state S.Store conn.old) (state S.Store conn.new) }
    ensures failed { HasCleanDisk (state S.Store conn.new) → IfErr result (IsExcusedReading (state S.Store conn.old) (state S.Store conn.new)) }
    ensures same { HasCleanDisk (state S.Store conn.new) → OnOk result (Same (state S.Store conn.old) (state S.Store conn.new)) }
    ensures one { HasCleanDisk (state S.Store conn.new) → IfOk result (λ row. IsSelection (codes "edition") (equals_number 1 number) (1 ∷ []) (state S.Store conn.old).now (stored_edition row ∷ [])) }
    ensures damaged { HasCleanDisk (state S.Store conn.new) → IfErr result (λ fault. fault ≡ ReadingFault.Damaged → IsNotOne stored_edition edition_columns (state S.Store conn.old).now number) }
{
    let mut all = match editions_numbered(alloc, conn, number) {
        Ok(all) => all,
        Err(error) => return Err(fault_of_read(error)),
    };
    if all.len() != 1 {
        drop(all);
        return Err(ReadingFault::Damaged);
    }
    let one = all.remove(0);
    drop(all);
    Ok(one)
}

/// The one header of this number.
fn header_numbered<S: Alter>(
    alloc: Global,
    conn: &mut Connection<S>,
    number: i64,
) -> Result<StoredHeader, ReadingFault>
    requires { WhileOpen (state S.Store conn.old) (Has header_table) }
    ensures reads { OnlyReads (state S.Store conn.old) (state S.Store conn.new) }
    ensures failed { HasCleanDisk (state S.Store conn.new) → IfErr result (IsExcusedReading (state S.Store conn.old) (state S.Store conn.new)) }
    ensures same { HasCleanDisk (state S.Store conn.new) → OnOk result (Same (state S.Store conn.old) (state S.Store conn.new)) }
    ensures one { HasCleanDisk (state S.Store conn.new) → IfOk result (λ row. IsSelection (codes "edition") (equals_number 1 number) (1 ∷ []) (state S.Store conn.old).now (stored_header row ∷ [])) }
    ensures damaged { HasCleanDisk (state S.Store conn.new) → IfErr result (λ fault. fault ≡ ReadingFault.Damaged → IsNotOne stored_header header_columns (state S.Store conn.old).now number) }
{
    let mut headers = match headers_numbered(alloc, conn, number) {
        Ok(headers) => headers,
        Err(error) => return Err(fault_of_read(error)),
    };
    if headers.len() != 1 {
        drop(headers);
        return Err(ReadingFault::Damaged);
    }
    let one = headers.remove(0);
    drop(headers);
    Ok(one)
}

// The edition of this header with this text.
fn with_text(header: HeaderRecord<String>, body: Vec<u8>) -> EditionRecord<String, Vec<u8>>
    ensures header { header_of (owned_edition result) ≡ owned_header header }
    ensures text { (owned_edition result).body ≡ body.items }
{
    let HeaderRecord {
        number,
        owner,
        title,
        info,
    } = header;
    EditionRecord {
        number,
        owner,
        title,
        info,
        body,
    }
}

// The one edition of this number, with the text that stands beside what is said of it.
fn whole_edition<S: Alter>(
    alloc: Global,
    conn: &mut Connection<S>,
    number: i64,
) -> Result<EditionRecord<String, Vec<u8>>, ReadingFault>
    requires { WhileOpen (state S.Store conn.old) (Has edition_table) }
    ensures reads { OnlyReads (state S.Store conn.old) (state S.Store conn.new) }
    ensures failed { HasCleanDisk (state S.Store conn.new) → IfErr result (IsExcusedReading (state S.Store conn.old) (state S.Store conn.new)) }
    ensures same { HasCleanDisk (state S.Store conn.new) → OnOk result (Same (state S.Store conn.old) (state S.Store conn.new)) }
    ensures one { HasCleanDisk (state S.Store conn.new) → IfOk result (λ edition. HasWholeRecord (state S.Store conn.old).now number (owned_edition edition)) }
    ensures damaged { HasCleanDisk (state S.Store conn.new) → IfErr result (λ fault. fault ≡ ReadingFault.Damaged → IsNotOne stored_edition edition_columns (state S.Store conn.old).now number) }
{
    let row = edition_numbered(alloc, conn, number)?;
    Ok(row.value)
}

// The one edition of this number, with the text that stands in parts.
fn parted_edition<S: Alter>(
    alloc: Global,
    conn: &mut Connection<S>,
    number: i64,
) -> Result<EditionRecord<String, Vec<u8>>, ReadingFault>
    requires headers { WhileOpen (state S.Store conn.old) (Has header_table) }
    requires parts { WhileOpen (state S.Store conn.old) (Has part) }
    ensures reads { OnlyReads (state S.Store conn.old) (state S.Store conn.new) }
    ensures failed { HasCleanDisk (state S.Store conn.new) → IfErr result (IsExcusedReading (state S.Store conn.old) (state S.Store conn.new)) }
    ensures same { HasCleanDisk (state S.Store conn.new) → OnOk result (Same (state S.Store conn.old) (state S.Store conn.new)) }
    ensures one { HasCleanDisk (state S.Store conn.new) → IfOk result (λ edition. HasRecord Parted (state S.Store conn.old).now number (owned_edition edition)) }
    ensures damaged { HasCleanDisk (state S.Store conn.new) → IfErr result (λ fault. fault ≡ ReadingFault.Damaged → HasNoEdition Parted (state S.Store conn.old).now number) }
{
    let row = header_numbered(alloc, conn, number)?;
    let body = match read_file(alloc, conn, number, TEXT_FILE) {
        Ok(body) => body,
        Err(fault) => {
            drop(row);
            return Err(fault);
        }
    };
    Ok(with_text(row.value, body))
}

/// The one edition of this number, with its text.
pub(crate) fn read_edition<S: Alter>(
    alloc: Global,
    conn: &mut Connection<S>,
    layout: TableLayout,
    number: i64,
) -> Result<EditionRecord<String, Vec<u8>>, ReadingFault>
    requires { WhileOpen (state S.Store conn.old) (HasTablesOf (layout_in layout)) }
    ensures reads { OnlyReads (state S.Store conn.old) (state S.Store conn.new) }
    ensures failed { HasCleanDisk (state S.Store conn.new) → IfErr result (IsExcusedReading (state S.Store conn.old) (state S.Store conn.new)) }
    ensures same { HasCleanDisk (state S.Store conn.new) → OnOk result (Same (state S.Store conn.old) (state S.Store conn.new)) }
    ensures one { HasCleanDisk (state S.Store conn.new) → IfOk result (λ edition. HasRecord (layout_in layout) (state S.Store conn.old).now number (owned_edition edition)) }
    ensures damaged { HasCleanDisk (state S.Store conn.new) → IfErr result (λ fault. fault ≡ ReadingFault.Damaged → HasNoEdition (layout_in layout) (state S.Store conn.old).now number) }
{
    match layout {
        TableLayout::Plain => whole_edition(alloc, conn, number),
        TableLayout::Keyed => whole_edition(alloc, conn, number),
        TableLayout::Shown => whole_edition(alloc, conn, number),
        TableLayout::Parted => parted_edition(alloc, conn, number),
    }
}
