// A file is opened.
ghost use Rattle.std.specs.Prelude.{◌≡◌, ◌<◌, ◌≤◌, ◌↔◌, ℕ, ℤ, pos, false, IsTrue, map, codes, [], ◌∷◌, IfOk, IfErr, IfSome, IfNone, OnOk, Err};
ghost use Rattle.sqlite.specs.State.{HasCleanDisk, Survives};
ghost use Rattle.sqlite.specs.Held.{state};
ghost use Rattle.store_tables.specs.Typed.{owned_mark};
ghost use Rattle.store_sql.specs.Encodings.{stored_mark};
ghost use Rattle.store_sql.specs.Reads.{IsListing};
ghost use Rattle.dict_catalogue.specs.Steps.{Catalogue, summary_of};
ghost use Rattle.dict_catalogue.specs.Views.{summary_shown};
ghost use Rattle.store_holdings.specs.Holds.{Holds, Rests};
ghost use Rattle.store_scans.specs.Reading.{Same, OnlyReads, IsOfOpening, IsExcusedReading, HasFailedToRead, fault_told};
ghost use Rattle.store_opening.specs.Indexed.{IsHeldIndexed};
ghost use Rattle.store_opening.specs.Opens.{HoldsNone, HoldsNoneAs, HasMark, HasKnownMark, IsMarked, mark_of_version};
ghost use Rattle.store_rows.specs.Versions.{known, IsVersion};

use crate::layout::has_layout;
use crate::mark_records::marks;
use crate::mark_table::has_mark_table;
use crate::records::read_records;
use crate::rowids::test_other_rowids;
use dict_catalogue::Summary;
use dict_desk::Fault;
use sqlite::{Alter, Connection};
use std::alloc::Global;
use store_holdings::{Indexes, fault_of};
use store_rows::{KNOWN_VERSION, number_in};
use store_scans::ReadingFault;
use store_sql::records::ReadError;
use store_tables::{Mark, StoredRow};

/// The summary of the catalogue that the tables hold, indexes of its editions, and the numbers of orphans, where these are the records of the mark, which is of this version. Editions are read first: what
/// is read before them leaves less room for their texts.
fn read_tables<S: Alter>(
    alloc: Global,
    conn: &mut Connection<S>,
    version: u64,
    marks: &[StoredRow<Mark<String>>],
) -> Result<(Summary, Indexes, Vec<u64>), ReadingFault>
    ensures reads { OnlyReads (state S.Store conn.old) (state S.Store conn.new) }
    ensures failed { HasCleanDisk (state S.Store conn.new) → IfErr result (IsExcusedReading (state S.Store conn.old) (state S.Store conn.new)) }
    ensures same { HasCleanDisk (state S.Store conn.new) → OnOk result (Same (state S.Store conn.old) (state S.Store conn.new)) }
    ensures holds { HasCleanDisk (state S.Store conn.new) → IfOk result (λ read. IsListing (codes "mark") (1 ∷ []) (state S.Store conn.old).now (map stored_mark marks.now) → (M : Catalogue) × Holds version (state S.Store conn.old).now M × (summary_of M ≡ summary_shown read.0) × IsHeldIndexed version (state S.Store conn.old).now M read.1) }
    ensures damaged { HasCleanDisk (state S.Store conn.new) → IfErr result (λ fault. fault ≡ ReadingFault.Damaged → IsListing (codes "mark") (1 ∷ []) (state S.Store conn.old).now (map stored_mark marks.now) → HoldsNoneAs version (state S.Store conn.old).now) }
{
    if !has_layout(conn.schema(), version) {
        return Err(ReadingFault::Damaged);
    }
    let read = read_records(alloc, conn, version, marks)?;
    if let Err(fault) = test_other_rowids(alloc, conn, version) {
        drop(read);
        return Err(fault);
    }
    Ok(read)
}

fn is_one(found: &i64) -> bool
    ensures { IsTrue result ↔ (found.now ≡ pos 1) }
{
    *found == 1
}

/// The version that a mark tells.
fn version_in(mark: &Mark<String>) -> Option<u64>
    ensures told { IfSome result (λ version. (owned_mark mark.now ≡ mark_of_version version mark.now.installs) × (1 ≤ version)) }
    ensures none { IfNone result ((version : ℕ) (installs : ℤ) → owned_mark mark.now ≡ mark_of_version version installs → 1 ≤ version → ⊥) }
{
    if !is_one(&mark.id) || mark.magic.as_str() != "dictcat" {
        return None;
    }
    let version = number_in(&mark.version)?;
    if version == 0 {
        return None;
    }
    Some(version)
}

/// The version that a readable mark tells.
fn version_of(marks: &[StoredRow<Mark<String>>]) -> Option<u64>
    ensures told { IfSome result (λ version. IsMarked marks.now version) }
    ensures none { IfNone result ((version : ℕ) → IsMarked marks.now version → ⊥) }
{
    if marks.len() != 1 {
        return None;
    }
    version_in(&marks[0].value)
}

/// The version that the mark tells, and its records, where it is readable and of a version that is known.
fn read_mark<S: Alter>(
    alloc: Global,
    conn: &mut Connection<S>,
) -> Result<(u64, Vec<StoredRow<Mark<String>>>), Fault>
    ensures reads { OnlyReads (state S.Store conn.old) (state S.Store conn.new) }
    ensures failed { HasCleanDisk (state S.Store conn.new) → result ≡ Err Fault.Disk → HasFailedToRead (state S.Store conn.old) (state S.Store conn.new) }
    ensures same { HasCleanDisk (state S.Store conn.new) → OnOk result (Same (state S.Store conn.old) (state S.Store conn.new) × IsTrue (state S.Store conn.new).is_open) }
    ensures marked { HasCleanDisk (state S.Store conn.new) → IfOk result (λ found. IsListing (codes "mark") (1 ∷ []) (state S.Store conn.old).now (map stored_mark found.1.items) × HasMark (state S.Store conn.old).now found.0) }
    ensures known { IfOk result (λ found. IsVersion found.0) }
    ensures newer { HasCleanDisk (state S.Store conn.new) → result ≡ Err Fault.NewerSchema → (version : ℕ) × HasMark (state S.Store conn.old).now version × (known < version) }
    ensures none { HasCleanDisk (state S.Store conn.new) → result ≡ Err Fault.NotACatalogue → (version : ℕ) → HasMark (state S.Store conn.old).now version → ⊥ }
    ensures sound { result ≡ Err Fault.Damaged → ⊥ }
    ensures kinds { IfErr result IsOfOpening }
{
    if !has_mark_table(conn.schema()) {
        return Err(Fault::NotACatalogue);
    }
    let marks = match marks(alloc, conn) {
        Ok(marks) => marks,
        Err(ReadError::NoRecord) => return Err(Fault::NotACatalogue),
        Err(ReadError::Store(error)) => return Err(fault_of(error)),
    };
    let version = match version_of(&marks) {
        Some(version) => version,
        None => {
            drop(marks);
            return Err(Fault::NotACatalogue);
        }
    };
    if version > KNOWN_VERSION {
        drop(marks);
        return Err(Fault::NewerSchema);
    }
    Ok((version, marks))
}

/// The fault as it is told.
fn told(fault: ReadingFault) -> Fault
    ensures is { result ≡ fault_told fault }
    ensures kind { IsOfOpening result }
{
    match fault {
        ReadingFault::Damaged => Fault::Damaged,
        ReadingFault::Memory => Fault::Memory,
        ReadingFault::Disk => Fault::Disk,
    }
}

/// Reads a file whole, and gives its version, the summary of the catalogue that it holds, an index of each of its editions, current
/// and former, under the edition's number, and the numbers of orphans: of parts of files that are of no edition of the catalogue, which a
/// file may have from version 6 on. Each such number that an edition can have is there at least once. Nothing is written. Beside the indexes it takes memory by the largest edition, and not by
/// their sum.
///
/// `NotACatalogue` tells that there is no readable mark, `NewerSchema` that the mark is of a version above the known one,
/// and `Damaged` that the mark is readable and of a known version, and the tables that this version has hold no catalogue, or a foreign
/// key of another table names one of them, or, in a file of an older version, the names of the tables that come with the last one
/// are in use by others: they are tested in this order. `Memory` tells that a growth was refused, and `Disk` that the disk failed, or that the limit on steps was met.
pub fn read_catalogue<S: Alter>(
    alloc: Global,
    conn: &mut Connection<S>,
) -> Result<(u64, Summary, Indexes, Vec<u64>), Fault>
    requires { conn.old.in_transaction ≡ false }
    ensures rests { HasCleanDisk (state S.Store conn.new) → IfOk result (λ found. (M : Catalogue) × Rests found.0 (state S.Store conn.new) M × (summary_of M ≡ summary_shown found.1) × IsHeldIndexed found.0 (state S.Store conn.new).committed M found.2) }
    ensures known { IfOk result (λ found. IsVersion found.0) }
    ensures damaged { HasCleanDisk (state S.Store conn.new) → result ≡ Err Fault.Damaged → HasKnownMark (state S.Store conn.old).now × HoldsNone (state S.Store conn.old).now }
    ensures newer { HasCleanDisk (state S.Store conn.new) → result ≡ Err Fault.NewerSchema → (version : ℕ) × HasMark (state S.Store conn.old).now version × (known < version) }
    ensures none { HasCleanDisk (state S.Store conn.new) → result ≡ Err Fault.NotACatalogue → (version : ℕ) → HasMark (state S.Store conn.old).now version → ⊥ }
    ensures lives { HasCleanDisk (state S.Store conn.new) → IsTrue (state S.Store conn.new).is_open → IsTrue (state S.Store conn.old).is_open }
    ensures kinds { IfErr result IsOfOpening }
    ensures failed { HasCleanDisk (state S.Store conn.new) → result ≡ Err Fault.Disk → HasFailedToRead (state S.Store conn.old) (state S.Store conn.new) }
    ensures now { HasCleanDisk (state S.Store conn.new) → IsTrue (state S.Store conn.new).is_open → (state S.Store conn.new).now ≡ (state S.Store conn.old).now }
    ensures committed { HasCleanDisk (state S.Store conn.new) → IsTrue (state S.Store conn.new).is_open → (state S.Store conn.new).committed ≡ (state S.Store conn.old).committed }
    ensures autocommit { (state S.Store conn.new).in_transaction ≡ false }
    ensures survives { Survives (state S.Store conn.old) (state S.Store conn.new) (λ _. ⊥) }
{
    if !conn.is_autocommit() {
        return Err(Fault::Disk);
    }
    let (version, marks) = read_mark(alloc, conn)?;
    let read = read_tables(alloc, conn, version, &marks);
    drop(marks);
    match read {
        Ok((summary, indexes, orphans)) => Ok((version, summary, indexes, orphans)),
        Err(fault) => Err(told(fault)),
    }
}
