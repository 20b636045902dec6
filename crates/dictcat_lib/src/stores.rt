// The databases of files.
ghost use Rattle.std.specs.Prelude.{◌≡◌, false, IfOk, IfErr};
ghost use Rattle.dictcat_lib.specs.DeskOpener.{IsNotOpened, TellsUnhad, TellsUnopened};
ghost use Rattle.dictcat_lib.specs.Files.{IsOpenedFrom, IsPutAway};

use crate::cached::open_cached;
use crate::left::{Left, hold};
use crate::opener::FileOpener;
use app_words::ProgramFault;
use dict_desk::Fault as DeskFault;
use sqlite::{Connection, FileStore};
use sqlite_disk::Disk;
use store_desk::{Unopened, fault_of_files};

// Opens the file with this path, which has to be there, or may be `made`: then each of its pages ends in a sum. It is done once: `start` is taken
// for it. The number for its log is kept. Where `sqlite` doesn't open it, `held` is what that left of it.
pub(crate) fn open_file<'w, D: Disk + Drop, O: FileOpener<D>>(
    rt: &HostRuntime,
    path: &'w str,
    made: bool,
    start: &mut Option<O>,
    number: &mut u64,
    held: &mut Option<Left<D>>,
) -> Result<Connection<FileStore<D>>, ProgramFault<'w>>
    ensures opened { IfOk result (IsOpenedFrom O.image) }
    ensures autocommit { IfOk result (λ conn. conn.in_transaction ≡ false) }
    ensures unopened { IfErr result (IsNotOpened O.image O.refuses path.entry.now made start.old start.new held.old held.new) }
{
    let Some(opener) = start.take() else {
        return Err(ProgramFault::CannotRead(path));
    };
    let (files, first) = match opener.files(rt, path, made) {
        Ok(had) => had,
        Err(fault) => return Err(told_unhad(path, fault)),
    };
    *number = first;
    match open_cached(rt, path, files, first) {
        Ok(conn) => Ok(conn),
        Err((error, rest)) => {
            let fault = fault_of_files(&error);
            drop(error);
            hold(held, Left::Unopened(Unopened::Files(Some(rest))));
            Err(told_unhad(path, fault))
        }
    }
}

// What is told of files that can't be had.
fn told_unhad<'w>(path: &'w str, fault: DeskFault) -> ProgramFault<'w>
    ensures { TellsUnhad path.entry.now fault result }
{
    match fault {
        DeskFault::Memory => ProgramFault::Memory,
        _ => ProgramFault::CannotRead(path),
    }
}

// What is told of files that aren't opened, where this is left of them.
pub(crate) fn told_unopened<'w, D: Disk + Drop>(
    path: &'w str,
    left: &Unopened<D>,
    fault: DeskFault,
) -> ProgramFault<'w>
    ensures { TellsUnopened path.entry.now left.now fault result }
{
    match left {
        Unopened::Files(_) => told_unhad(path, fault),
        Unopened::Spent(_) | Unopened::Database(_) => ProgramFault::from(fault),
    }
}

// Closes a file, so that what was committed stands in it alone. Where that fails, it stands in its log too.
pub(crate) fn close_file<D: Disk + Drop>(conn: Connection<FileStore<D>>) -> Left<D>
    ensures { IsPutAway conn result }
{
    match conn.close_files() {
        Ok(files) => Left::Closed(files),
        Err((error, store)) => {
            drop(error);
            Left::Uncopied(store)
        }
    }
}
