// A desk over files that is closed.
ghost use Rattle.std.specs.Prelude.{◌≡◌, false, ◌⊎◌, List, Option, IsTrue, IfOk, IfErr, OnOk};
ghost use Rattle.sqlite.specs.Files.{file_state, over_files};
ghost use Rattle.sqlite.specs.FileStore.{view, faults, recovers, is_shielded};
ghost use Rattle.sqlite.specs.Held.{AreDatabases, state};
ghost use Rattle.sqlite.specs.State.{HasCleanDisk};
ghost use Rattle.sqlite.specs.View.{IsClean, IsQuiet};
ghost use Rattle.sqlite.specs.WalReads.{AreClean};
ghost use Rattle.dict_catalogue.specs.Steps.{Catalogue};
ghost use Rattle.store_holdings.specs.Holds.{IsLeft};
ghost use Rattle.store_desk.specs.Closed.{HoldTreesAlone, HoldsAlone, IsUncopied, StoreLeaves};
ghost use Rattle.sqlite.specs.Effect.{Database};
ghost use Rattle.store_desk.specs.Desk.{HasBeside, IsOneOf, KeepsBeside, LeavesOneOf, Shows, is_closed};
ghost use Rattle.store_holdings.specs.Faults.{fault_of};

use crate::adopting::is_whole;
use crate::desk::Desk;
use crate::last::LastCall;
use crate::laws::committed_may_stay;
use dict_desk::Fault;
use sqlite::{Alter, Connection, Error, ErrorCode, FileStore, Files};
use sqlite_disk::Disk;

// What is told where the log couldn't be copied.
fn fault_of_copy(error: &Error) -> Fault
    ensures value { result ≡ fault_of error.now }
    ensures kinds { (result ≡ Fault.Memory) ⊎ (result ≡ Fault.Disk) }
{
    match error {
        Error::SqliteFailure(ErrorCode::OutOfMemory) => Fault::Memory,
        _ => Fault::Disk,
    }
}

// The connection of a desk, and whether the desk is closed. Of one that isn't, what is committed holds what was shown.
pub(crate) fn let_go<S: Alter + Drop>(desk: Desk<S>) -> (Connection<S>, bool)
    ensures same { result.0 ≡ desk.conn }
    ensures closed { result.1 ≡ is_closed desk.last }
    ensures holds { is_closed desk.last ≡ false → HasCleanDisk (state S.Store desk.conn) → IsTrue (state S.Store desk.conn).is_open → (M : Catalogue) → Shows S.Store desk M
        → IsLeft M (state S.Store desk.conn).committed.trees }
    ensures beside { HasCleanDisk (state S.Store desk.conn) → IsTrue (state S.Store desk.conn).is_open → (db : Database) → KeepsBeside S.Store desk db → HasBeside db (state S.Store desk.conn).committed.trees }
{
    let is_closed = desk.last == LastCall::Closed;
    is_whole(&desk.conn);
    committed_may_stay(&desk.conn);
    (desk.only_connection(), is_closed)
}

// The same of a desk over two files.
pub(crate) fn let_go_of_files<D: Disk + Drop>(
    desk: Desk<FileStore<D>>,
) -> (Connection<FileStore<D>>, bool)
    ensures same { result.0 ≡ desk.conn }
    ensures closed { result.1 ≡ is_closed desk.last }
    ensures holds { is_closed desk.last ≡ false → HasCleanDisk (file_state desk.conn) → IsTrue (file_state desk.conn).is_open → (M : Catalogue) → Shows over_files desk M
        → IsLeft M (file_state desk.conn).committed.trees }
    ensures beside { HasCleanDisk (file_state desk.conn) → IsTrue (file_state desk.conn).is_open → (db : Database) → KeepsBeside over_files desk db → HasBeside db (file_state desk.conn).committed.trees }
{
    let_go(desk)
}

// The store of a connection over two files, which is let go of: what wasn't committed is undone.
pub(crate) fn store_of<D: Disk + Drop>(conn: Connection<FileStore<D>>) -> FileStore<D>
    ensures numbered { IsClean (view result) → IsTrue (view result).is_numbered }
    ensures sound { IsClean (view result) → AreDatabases (recovers result) }
    ensures quiet { IsQuiet view faults recovers is_shielded conn.store result }
{
    conn.into_store()
}

impl<D: Disk + Drop> Desk<FileStore<D>> {
    /// Closes a desk over two files: what was committed is copied from the log into the database file, which then holds the
    /// catalogue alone, without its log, and the tables of others that were kept.
    ///
    /// At a fault it isn't, and the store is handed back: the catalogue stands in the file and its log together. `Memory`: a
    /// growth was refused. `Disk`: the store failed, now or in an earlier call.
    pub fn close(self) -> Result<Files<D>, (FileStore<D>, Fault)>
        ensures alone { IfOk result (λ files. AreClean D.Disk files.log files.db → (M : Catalogue) → Shows over_files self M → HoldsAlone D.Disk files M) }
        ensures beside { IfOk result (λ files. AreClean D.Disk files.log files.db → (db : Database) → KeepsBeside over_files self db → HoldTreesAlone D.Disk files (HasBeside db)) }
        ensures clean { IfOk result (λ files. AreClean D.Disk files.log files.db → HasCleanDisk (file_state self.conn)) }
        ensures open { OnOk result (is_closed self.last ≡ false) }
        ensures left { IfErr result (λ left. (ms : List (Option Catalogue)) → LeavesOneOf over_files self ms → StoreLeaves left.0 (IsOneOf ms)) }
        ensures kept { IfErr result (λ left. (db : Database) → KeepsBeside over_files self db → StoreLeaves left.0 (HasBeside db)) }
        ensures doubted { IfErr result (λ left. IsClean (view left.0) → HasCleanDisk (file_state self.conn)) }
        ensures failed { IfErr result (λ left. IsClean (view left.0) → IsUncopied self left.0 left.1) }
        ensures kinds { IfErr result (λ left. (left.1 ≡ Fault.Memory) ⊎ (left.1 ≡ Fault.Disk)) }
    {
        let (conn, is_closed) = let_go_of_files(self);
        if is_closed {
            return Err((store_of(conn), Fault::Disk));
        }
        match conn.close_files() {
            Ok(files) => Ok(files),
            Err((error, store)) => Err((store, fault_of_copy(&error))),
        }
    }
}
