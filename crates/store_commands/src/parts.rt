// One bounded part of a filing, filed by one commit.
ghost use Rattle.std.specs.Prelude.{◌≡◌, ◌≢◌, ◌+◌, ◌≤◌, ◌<◌, ℕ, List, true, false, IsTrue, Some, IfErr, IfOk, IfSome, OnErr, OnOk, length};
ghost use Rattle.sqlite.specs.Disk.{MoreFaults};
ghost use Rattle.sqlite.specs.Effect.{IsDatabase};
ghost use Rattle.sqlite.specs.State.{HasCleanDisk, Survives, is_disk_error};
ghost use Rattle.sqlite.specs.Held.{state};
ghost use Rattle.store_tables.specs.Effects.{WhileOpen};
ghost use Rattle.store_sql.specs.Statements.{Statement};
ghost use Rattle.dict_catalogue.specs.Views.{summary_shown};
ghost use Rattle.store_holdings.specs.Committed.{IsCommitted, IsTreesOf};
ghost use Rattle.store_commands.specs.KeptRecords.{IsUsable};
ghost use Rattle.store_commands.specs.Answers.{HoldsBy};
ghost use Rattle.store_commands.specs.Committed.{IsOfStore, StaysCommitted};
ghost use Rattle.store_commands.specs.Marking.{Remains, FailsToCommitRun};
ghost use Rattle.store_commands.specs.Filing.{parts_of_files, parts_of_filing, IsDrawnUp, AreAllPartsFiled, HasSameRows, IsFiledSoFar, fault_filed, AreOfSomePart};
ghost use Rattle.store_commands.specs.FiledParts.{FailsAmong, FailsToFile, FilesUpTo, WritesUpTo};
ghost use Rattle.store_commands.specs.Left.{IsLess, filing_left};
ghost use Rattle.store_commands.specs.Writes.{CommitsNothing};

use crate::editions::add_files;
use crate::files::{EditionFiles, add_parts};
use crate::filing::Filing;
use dict_catalogue::Summary;
use dict_desk::Fault;
use sqlite::{Alter, Connection, Error, ErrorCode};
use store_tables::commit::commit;
use store_tables::transaction::OpenTransaction;

// So many parts are filed at a time: 512 KiB.
const PARTS: usize = 32;

// How many are filed behind the next part, of so many, of which some are.
fn part_end(filed: usize, all: usize) -> usize
    requires { filed ≤ all }
    ensures within { (filed ≤ result) × (result ≤ all) }
    ensures more { filed < all → filed < result }
{
    if all - filed <= PARTS {
        return all;
    }
    filed + PARTS
}

impl Filing {
    // Its files.
    fn files(&self) -> EditionFiles<'_>
        ensures parts { parts_of_files result ≡ parts_of_filing self.now }
        ensures number { result.number ≡ self.now.number }
    {
        EditionFiles {
            number: self.number,
            index: &self.index,
            text: &self.text,
        }
    }

    /// Whether all parts are filed.
    pub fn is_whole(&self) -> bool
        ensures whole { IsTrue result → AreAllPartsFiled self.now }
        ensures rest { result ≡ false → self.now.is_begun ≡ true → self.now.parts_filed < length (parts_of_filing self.now) }
    {
        self.is_begun && self.files().part_count() <= self.parts_filed
    }
}

/// The fault that an error of a part is told as, if it isn't that a statement was refused.
pub(crate) fn fault_filed(error: Error) -> Option<Fault>
    ensures is { result ≡ fault_filed error }
    ensures kind { IfSome result IsOfStore }
    ensures disk { result ≡ Some Fault.Disk → is_disk_error error ≡ true }
{
    match error {
        Error::SqliteFailure(ErrorCode::OutOfMemory) => Some(Fault::Memory),
        Error::SqliteFailure(ErrorCode::SystemIoFailure) => Some(Fault::Disk),
        Error::SqliteFailure(ErrorCode::DatabaseCorrupt) => Some(Fault::Disk),
        Error::SqliteFailure(ErrorCode::DiskFull) => Some(Fault::Disk),
        _ => None,
    }
}

// Files the next parts; before the first ones what stands under the number is taken out. It answers how many are filed then.
fn write_parts<S: Alter, T: OpenTransaction<S>>(tx: &mut T, filing: &Filing) -> Result<usize, Error>
    requires drawn { IsDrawnUp filing.now }
    requires rest { filing.now.is_begun ≡ true → filing.now.parts_filed < length (parts_of_filing filing.now) }
    requires usable { WhileOpen (state S.Store (T.held tx.old)) IsUsable }
    ensures same_reference { T.reference tx.new ≡ T.reference tx.old }
    ensures wrote { IfOk result (λ to. WritesUpTo S.Store filing.now to (T.held tx.old) (T.held tx.new)) }
    ensures lives { HasCleanDisk (state S.Store (T.held tx.new)) → OnOk result (IsTrue (state S.Store (T.held tx.old)).is_open) }
    ensures sound { HasCleanDisk (state S.Store (T.held tx.new)) → OnOk result (IsDatabase (state S.Store (T.held tx.new)).now) }
    ensures inside { HasCleanDisk (state S.Store (T.held tx.new)) → OnOk result ((state S.Store (T.held tx.new)).in_transaction ≡ true) }
    ensures failed { IfErr result (FailsAmong S.Store (AreOfSomePart filing.now) (T.held tx.old) (T.held tx.new)) }
    ensures spares { CommitsNothing S.Store (T.held tx.old) (T.held tx.new) }
{
    let files = filing.files();
    let all = files.part_count();
    if filing.is_begun {
        let to = part_end(filing.parts_filed, all);
        add_parts(tx, &files, filing.parts_filed, to)?;
        return Ok(to);
    }
    let to = part_end(0, all);
    add_files(tx, &files, to)?;
    Ok(to)
}

// Files the next parts by one commit. It answers how many are filed then.
fn commit_parts<S: Alter>(conn: &mut Connection<S>, filing: &Filing) -> Result<usize, Option<Fault>>
    requires autocommit { conn.old.in_transaction ≡ false }
    requires drawn { IsDrawnUp filing.now }
    requires rest { filing.now.is_begun ≡ true → filing.now.parts_filed < length (parts_of_filing filing.now) }
    requires usable { WhileOpen (state S.Store conn.old) IsUsable }
    ensures made { HasCleanDisk (state S.Store conn.new) → IfOk result (λ to. IsCommitted (λ db. IsTrue (state S.Store conn.old).is_open × FilesUpTo filing.now to (state S.Store conn.old).now db) (state S.Store conn.new)) }
    ensures more { IfOk result (λ to. filing.now.is_begun ≡ true → filing.now.parts_filed < to) }
    ensures stays { HasCleanDisk (state S.Store conn.new) → OnErr result (StaysCommitted (state S.Store conn.old) (state S.Store conn.new)) }
    ensures lives { HasCleanDisk (state S.Store conn.new) → IsTrue (state S.Store conn.new).is_open → IsTrue (state S.Store conn.old).is_open }
    ensures failed { HasCleanDisk (state S.Store conn.new) → IfErr result (λ why. (statements : List Statement) × AreOfSomePart filing.now statements × FailsToCommitRun S.Store statements conn.old conn.new why) }
    ensures faulted { HasCleanDisk (state S.Store conn.new) → IfErr result (λ why. why ≡ Some Fault.Disk → MoreFaults (state S.Store conn.old).faults (state S.Store conn.new).faults) }
    ensures kinds { IfErr result (λ why. IfSome why IsOfStore) }
    ensures autocommit { (state S.Store conn.new).in_transaction ≡ false }
    ensures crash { Survives (state S.Store conn.old) (state S.Store conn.new) (IsTreesOf (λ db. IsTrue (state S.Store conn.old).is_open × (to : ℕ) × FilesUpTo filing.now to (state S.Store conn.old).now db)) }
{
    let mut tx = conn.transaction();
    let filed = match write_parts(&mut tx, filing) {
        Ok(filed) => filed,
        Err(error) => return Err(fault_filed(error)),
    };
    match commit(tx) {
        Ok(()) => Ok(filed),
        Err(error) => Err(fault_filed(error)),
    }
}

// Whether another number than this is the one that the next edition gets.
fn is_other_number(summary: &Summary, number: u64) -> bool
    ensures other { IsTrue result → number ≢ (summary_shown summary.now).installs + 1 }
    ensures next { result ≡ false → number ≡ (summary_shown summary.now).installs + 1 }
{
    number <= summary.installs || number - summary.installs != 1
}

/// Files the next part of an edition that is to come over this summary, by one commit, under the number that the edition gets; before the first
/// part what stands under that number, of no edition, is taken out. It answers whether there is more: less is left than was. Each catalogue of
/// this summary that was held is held still, and a stop leaves no other: the parts are of no edition yet.
///
/// At an error what was committed is so still, and as much is filed as was. `Memory` tells that a growth was refused, `Disk` that the disk failed.
/// None tells that it can't be filed: all of it is, another number than the filing's is the next of the summary, a statement was refused, or the
/// store was shut before.
pub fn file_part<S: Alter>(
    conn: &mut Connection<S>,
    summary: &Summary,
    filing: &mut Filing,
) -> Result<bool, Option<Fault>>
    requires drawn { IsDrawnUp filing.old }
    requires autocommit { conn.old.in_transaction ≡ false }
    requires holds { HoldsBy (summary_shown summary.now) (state S.Store conn.old) }
    requires filed { IsFiledSoFar filing.old (state S.Store conn.old) }
    ensures rows { HasSameRows filing.old filing.new }
    ensures drawn { IsDrawnUp filing.new }
    ensures next { OnOk result (filing.new.number ≡ (summary_shown summary.now).installs + 1) }
    ensures made { HasCleanDisk (state S.Store conn.new) → OnOk result (IsCommitted (Remains (summary_shown summary.now) (state S.Store conn.old).committed) (state S.Store conn.new)) }
    ensures filed { OnOk result (IsFiledSoFar filing.new (state S.Store conn.new)) }
    ensures begun { OnOk result (filing.new.is_begun ≡ true) }
    ensures fewer { OnOk result (IsLess (filing_left filing.new) (filing_left filing.old)) }
    ensures whole { IfOk result (λ more. more ≡ false → AreAllPartsFiled filing.new) }
    ensures same { OnErr result (filing.new ≡ filing.old) }
    ensures stays { HasCleanDisk (state S.Store conn.new) → OnErr result (StaysCommitted (state S.Store conn.old) (state S.Store conn.new)) }
    ensures lives { HasCleanDisk (state S.Store conn.new) → IsTrue (state S.Store conn.new).is_open → IsTrue (state S.Store conn.old).is_open }
    ensures failed { HasCleanDisk (state S.Store conn.new) → IfErr result (FailsToFile S.Store ((summary_shown summary.now).installs + 1) filing.old conn.old conn.new) }
    ensures faulted { HasCleanDisk (state S.Store conn.new) → IfErr result (λ why. why ≡ Some Fault.Disk → MoreFaults (state S.Store conn.old).faults (state S.Store conn.new).faults) }
    ensures kinds { IfErr result (λ why. IfSome why IsOfStore) }
    ensures autocommit { (state S.Store conn.new).in_transaction ≡ false }
    ensures crash { Survives (state S.Store conn.old) (state S.Store conn.new) (λ trees. IsTrue (state S.Store conn.old).is_open × IsTreesOf (Remains (summary_shown summary.now) (state S.Store conn.old).committed) trees) }
{
    if filing.is_whole() || is_other_number(summary, filing.number) {
        return Err(None);
    }
    let filed = match commit_parts(conn, filing) {
        Ok(filed) => filed,
        Err(why) => return Err(why),
    };
    filing.is_begun = true;
    filing.parts_filed = filed;
    Ok(!filing.is_whole())
}
