// A desk over files that are opened, and over what a stop left of them.
ghost use Rattle.std.specs.Prelude.{◌≡◌, ◌⊎◌, ℕ, false, List, [], ◌∷◌, codes, Option, Some, IfOk, IfErr, IsErrAnd, IsTrue};
ghost use Rattle.sqlite.specs.Effect.{Database};
ghost use Rattle.sqlite.specs.State.{HasCleanDisk};
ghost use Rattle.sqlite.specs.Files.{HoldsDatabase, file_state, over_files};
ghost use Rattle.sqlite.specs.FileStore as store;
ghost use Rattle.sqlite.specs.FileStore.{view, recovers};
ghost use Rattle.sqlite.specs.Recovery.{Image};
ghost use Rattle.sqlite.specs.Tree.{Trees};
ghost use Rattle.sqlite_pool.specs.Stored.{is_summed};
ghost use Rattle.sqlite_store.specs.declared.store.FileStore.{FileStore};
ghost use Rattle.sqlite.specs.WalFiles.{image_at};
ghost use Rattle.dict_catalogue.specs.Steps.{Catalogue, CommandRequest};
ghost use Rattle.store_holdings.specs.Holds.{IsLeft, Rests};
ghost use Rattle.store_desk.specs.Adopted.{IsAdopted};
ghost use Rattle.store_desk.specs.Desk.{KeepsBeside, Shows, LeavesOneOf};
ghost use Rattle.store_desk.specs.Promise.{HoldsFront};
ghost use Rattle.store_opening.specs.Reading.{IsOfOpening};
ghost use Rattle.store_desk.specs.Reopened.{IsAdoptedFrom, IsIn, HoldsFrontIn, IsLetGo, IsOpenedOver, IsReopened, IsRestarted, LeavesFront, ShowsFront, ShowsOneOf};
ghost use Rattle.store_desk.specs.Unopened.{fault_of_files, IsHandedBack, IsSealed, IsUnopened, IsUnopenedOver, IsUnreopened, IsUnrestarted};
ghost use Rattle.store_rows.specs.Versions.{known};

use crate::closing::{let_go_of_files, store_of};
use crate::desk::Desk;
use dict_desk::Fault;
use sqlite::{Connection, Error, ErrorCode, FileFrom, FileStore, Files, Leftover, Options, Start};
use sqlite_disk::{Crash, Disk};
use std::alloc::Global;

/// What is handed back where no desk was opened.
#[derive(Drop)]
pub enum Unopened<D: Disk + Drop> {
    /// No connection was opened, and this is left of the files, where they were opened.
    Files(Option<Leftover<D>>),
    /// Two files, of which a sync has failed: what was written to them may be lost with no further error, so they are not opened again.
    Spent(Files<D>),
    /// The connection, in no transaction, whose database is none of a catalogue, or couldn't be read.
    Database(Connection<FileStore<D>>),
}

/// The fault that tells that no connection was opened: `Memory` where memory was refused, else `NotACatalogue`.
pub fn fault_of_files(error: &Error) -> Fault
    ensures value { result ≡ fault_of_files error.now }
    ensures kinds { (result ≡ Fault.Memory) ⊎ (result ≡ Fault.NotACatalogue) }
    ensures kind { IsOfOpening result }
{
    match error {
        Error::SqliteFailure(ErrorCode::OutOfMemory) => Fault::Memory,
        _ => Fault::NotACatalogue,
    }
}

// A desk over the database that two files were opened as, with its indexes. Where it is none of a catalogue, or can't be read, it is handed
// back.
fn adopt_files<D: Disk + Drop>(
    alloc: Global,
    conn: Connection<FileStore<D>>,
) -> Result<Desk<FileStore<D>>, (Unopened<D>, Fault)>
    requires { conn.in_transaction ≡ false }
    ensures adopted { IfOk result (λ desk. IsAdopted over_files conn desk × (HasCleanDisk (file_state desk.conn) → (M : Catalogue) → IsLeft M (file_state conn).committed.trees → Shows over_files desk M)) }
    ensures rejected { IfErr result (λ left. IsHandedBack conn left.0 left.1) }
{
    match Desk::adopt(alloc, conn, true) {
        Ok(desk) => Ok(desk),
        Err((conn, fault)) => Err((Unopened::Database(conn), fault)),
    }
}

// A desk over two files, of which the last commit is recovered.
fn open_over<D: Disk + Drop>(
    alloc: Global,
    files: Files<D>,
    options: Options,
) -> Result<Desk<FileStore<D>>, (Unopened<D>, Fault)>
    requires log { IsTrue (D.Disk.is_usable files.log) }
    requires db { IsTrue (D.Disk.is_usable files.db) }
    ensures opened { IfOk result (IsOpenedOver files) }
    ensures unopened { IfErr result (λ left. IsUnopenedOver files left.0 left.1) }
{
    let conn = match Connection::open_files(alloc, files, options) {
        Ok(conn) => conn,
        Err((error, left)) => {
            return Err((Unopened::Files(Some(left)), fault_of_files(&error)));
        }
    };
    adopt_files(alloc, conn)
}

impl<S: Start> Desk<FileStore<FileFrom<S>>> {
    /// A desk over the files at a path, of which the last commit is recovered. It takes what `Connection::open_from` takes, and
    /// `S` stands for the octets that the files hold.
    ///
    /// Where no connection is opened, the fault is `Memory` for memory and else `NotACatalogue`: the error of `sqlite` tells why. It
    /// refuses `:memory:`, which names no file. The others are those of `adopt`. At each fault a stop leaves what the files hold.
    pub fn open_from(
        rt: &HostRuntime,
        path: &str,
        new_has_sums: bool,
        start: S,
    ) -> Result<Desk<FileStore<FileFrom<S>>>, (Unopened<FileFrom<S>>, Fault)>
        ensures adopted { IfOk result (IsAdoptedFrom (image_at S.Start)) }
        ensures rests { IfOk result (λ desk. HasCleanDisk (file_state desk.conn) → (M : Catalogue) × Rests known (file_state desk.conn) M × Shows over_files desk M) }
        ensures shows { IfOk result (λ desk. HasCleanDisk (file_state desk.conn) → (M : Catalogue) → IsIn M (image_at S.Start) → Shows over_files desk M) }
        ensures only { IfOk result (λ desk. (M : Catalogue) → Shows over_files desk M → LeavesOneOf over_files desk (Some M ∷ [])) }
        ensures unopened { IfErr result (λ left. IsUnopened (image_at S.Start) left.0 left.1) }
        ensures memory { path.now ≡ codes ":memory:" → IsErrAnd result (λ left. left.1 ≡ Fault.NotACatalogue) }
    {
        let conn = match Connection::open_from(rt, path, new_has_sums, start) {
            Ok(conn) => conn,
            Err((error, left)) => return Err((Unopened::Files(left), fault_of_files(&error))),
        };
        adopt_files(rt.alloc(), conn)
    }
}

// The two files of a desk, which is closed.
fn files_of<D: Disk + Drop>(desk: Desk<FileStore<D>>) -> Files<D>
    ensures { IsLetGo desk.conn result }
{
    let (conn, _) = let_go_of_files(desk);
    store_of(conn).close()
}

impl<D: Disk + Drop> Desk<FileStore<D>> {
    /// Closes a desk, and opens its two files again, of which the last commit is recovered: for a desk whose store failed. The
    /// files are never let go of. The catalogue that is shown is one of those that a stop could have left of the desk.
    ///
    /// Where a sync of a file has failed, the fault is `Disk`. Where no connection is opened, it is `Memory` for memory and else
    /// `NotACatalogue`, since the disk failed or a file has its greatest length. The others are those of `adopt`. At each fault a stop
    /// leaves of what is handed back what it could leave of the desk.
    pub fn reopen(self, options: Options) -> Result<Desk<FileStore<D>>, (Unopened<D>, Fault)>
        ensures reopened { IfOk result (IsReopened self) }
        ensures follows { IfOk result (λ desk. HasCleanDisk (file_state desk.conn) → (ms : List (Option Catalogue)) → LeavesOneOf over_files self ms → ∥ ShowsOneOf over_files desk ms ∥₁) }
        ensures beside { IfOk result (λ desk. (db : Database) → KeepsBeside over_files self db → KeepsBeside over_files desk db) }
        ensures unopened { IfErr result (λ left. IsUnreopened self left.0 left.1) }
    {
        let alloc = self.alloc;
        let files = files_of(self);
        if !files.may_be_used() {
            return Err((Unopened::Spent(files), Fault::Disk));
        }
        open_over(alloc, files, options)
    }
}

impl<D: Crash + Drop> Desk<FileStore<D>> {
    /// Stops the desk, and opens it again over what its two files hold after the stop: for runs that span a stop.
    ///
    /// What wasn't committed is lost. Where no connection is opened, the fault is `Memory` for memory and else `NotACatalogue`, since
    /// the disk failed or a file has its greatest length; the others are those of `adopt`. At each fault a stop leaves of what is handed
    /// back what it could leave of the desk.
    pub fn restart(self, options: Options) -> Result<Desk<FileStore<D>>, (Unopened<D>, Fault)>
        ensures shows { IfOk result (λ desk. HasCleanDisk (file_state desk.conn) → (before : Catalogue) (requests : List CommandRequest) (answered : ℕ) → LeavesFront over_files self before requests answered → ∥ ShowsFront over_files desk before requests answered ∥₁) }
        ensures restarted { IfOk result (IsRestarted self) }
        ensures follows { IfOk result (λ desk. HasCleanDisk (file_state desk.conn) → (ms : List (Option Catalogue)) → LeavesOneOf over_files self ms → ∥ ShowsOneOf over_files desk ms ∥₁) }
        ensures beside { IfOk result (λ desk. (db : Database) → KeepsBeside over_files self db → KeepsBeside over_files desk db) }
        ensures only { IfOk result (λ desk. (M : Catalogue) → Shows over_files desk M → LeavesOneOf over_files desk (Some M ∷ [])) }
        ensures unopened { IfErr result (λ left. IsUnrestarted self left.0 left.1) }
    {
        let alloc = self.alloc;
        let mut files = files_of(self);
        files.log.crash();
        files.db.crash();
        open_over(alloc, files, options)
    }
}

/// What a stop leaves of two files is opened as the catalogue after a front of some commands, where each of the trees that the
/// stop may leave stands for such a catalogue, as `apply_to_file` promises. It is said of a store as a connection gives it back.
///
/// It does nothing. Its clause is the law.
pub fn stopped_files<D: Disk>()
    ensures { (it : FileStore D D.Disk) (before : Catalogue) (requests : List CommandRequest) (answered : ℕ) (left : Image) → IsTrue (view it).is_numbered →
        ((trees : Trees) → recovers it trees → HoldsFront before requests answered trees) → (store.state it).may_leave left → ∥ HoldsFrontIn before requests answered left ∥₁ }
{}

/// In octets of files whose pages end in no sums, no page waits for its sum: what is told of octets where none does is told of those too.
///
/// It does nothing. Its clause is the law.
pub fn files_without_sums()
    ensures { (image : Image) → ((db : Trees) (held : HoldsDatabase image db) → is_summed held.0 ≡ false) → IsSealed image }
{}
