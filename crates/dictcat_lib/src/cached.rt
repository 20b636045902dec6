// Files at a path, opened with a cache of their size.
ghost use Rattle.std.specs.Prelude.{codes, ◌≡◌, ◌≢◌, ◌⊎◌, ◌≤◌, true, false, IsTrue, IfOk, IfErr};
ghost use Rattle.sqlite.specs.Files.{FailsToOpenFiles, Finds, IsBlankAs, IsCleanLeft, IsOpened, LeavesFiles, file_state, image_of};
ghost use Rattle.sqlite.specs.FileStore.{view};
ghost use Rattle.sqlite.specs.Held.{IsNew};
ghost use Rattle.sqlite.specs.Opening.{is_open_error};
ghost use Rattle.sqlite.specs.State.{HasCleanDisk};
ghost use Rattle.sqlite_std_file.specs.File.{IsFresh, file_is_usable};

use sqlite::{Connection, Error, ErrorCode, FileFrom, FileStore, Files, Leftover, Options, Start};
use sqlite_disk::Disk;
use sqlite_std_file::OpenError;
use std::fs;
use std::hash::{BuildHasher, RandomState};
use std::io::ErrorKind;

const NO_MEMORY: Error = Error::SqliteFailure(ErrorCode::OutOfMemory);

const CANNOT_OPEN: Error = Error::SqliteFailure(ErrorCode::CannotOpen);

// The octets of a page of a file that `create` makes.
const PAGE_SIZE: u64 = 4_096;

// How many pages a cache has at least, as `sqlite` has it: 8 MB.
const FEWEST_PAGES: usize = 2_000;

// And at most: 79 MB, into which the file of the largest edition goes. A cache is taken whole.
const MOST_PAGES: usize = 19_200;

// So many pages of changes stand in the log, 1 MiB, before it is copied into the file, which takes some milliseconds: a reader waits for it.
const LOG_PAGES: usize = 256;

// How many pages a cache has, for a file of so many octets: as many as the file, within the bounds. Page n has the place n modulo that
// number, and an opening goes through all pages again and again: two pages with one place drive each other out each time. Where more
// than half of a file's pages would do so, it has the fewest.
fn cache_pages(octets: u64) -> usize
    ensures least { 2000 ≤ result }
    ensures most { result ≤ 19200 }
{
    let pages = (octets / PAGE_SIZE) as usize;
    if pages > MOST_PAGES + MOST_PAGES / 3 {
        return FEWEST_PAGES;
    }
    pages.clamp(FEWEST_PAGES, MOST_PAGES)
}

// How many octets the file at this path has: none where it isn't there, or can't be asked.
pub(crate) fn octets_at(rt: &HostRuntime, path: &str) -> u64 {
    match fs::metadata(rt, path) {
        Ok(found) => found.len(),
        Err(_) => 0,
    }
}

// A random number for a log, of which the log makes its salts; none where the system gives none.
pub(crate) fn log_number(rt: &HostRuntime) -> Option<u64> {
    let state = RandomState::new(rt).ok()?;
    Some(state.hash_one(&0u8))
}

// A further number for the log of the same files, which are opened again: as random as this one, and another. Nothing is asked of the system for
// it, so that no opening again fails for want of it.
pub(crate) fn next_number(number: u64) -> u64
    ensures { result ≢ number }
{
    number.wrapping_add(1)
}

// How the files at this path are opened: with a cache of the size that the file has now, a short log, and this number for it.
pub(crate) fn options(rt: &HostRuntime, path: &str, number: u64) -> Options
    ensures cache { (2000 ≤ result.cache_pages) × (result.cache_pages ≤ 19200) }
    ensures log { result.checkpoint_frames ≡ 256 }
    ensures number { result.seed ≡ number }
{
    Options {
        cache_pages: cache_pages(octets_at(rt, path)),
        checkpoint_frames: LOG_PAGES,
        ..Options::new(number)
    }
}

// The two files at this path, which are made where they aren't there. It refuses `:memory:` and a URI, which name no file.
pub(crate) fn open_pair<S: Start>(
    rt: &HostRuntime,
    path: &str,
    start: S,
) -> Result<Files<FileFrom<S>>, Error>
    ensures memory { path.now ≡ codes ":memory:" → result ≡ Err (Error.SqliteFailure ErrorCode.CannotOpen) }
    ensures named { IfErr result (λ e. IsTrue (is_open_error e)) }
    ensures usable { IfOk result (λ files. IsTrue (file_is_usable S.Start files.log) × IsTrue (file_is_usable S.Start files.db)) }
    ensures fresh { IfOk result (λ files. IsFresh true files.log × IsFresh false files.db) }
    ensures kind { IfErr result (λ e. (e ≡ Error.SqliteFailure ErrorCode.CannotOpen) ⊎ ((e ≡ Error.SqliteFailure ErrorCode.OutOfMemory) ⊎ (e ≡ Error.SqliteFailure ErrorCode.DatabaseBusy))) }
{
    if path == ":memory:" || path.starts_with("file:") {
        return Err(CANNOT_OPEN);
    }
    match sqlite_std_file::open(rt, path, start) {
        Ok(files) => Ok(files),
        Err(OpenError::OutOfMemory) => Err(NO_MEMORY),
        Err(OpenError::Busy) => Err(Error::SqliteFailure(ErrorCode::DatabaseBusy)),
        Err(OpenError::Io(error)) if error.kind() == ErrorKind::OutOfMemory => Err(NO_MEMORY),
        Err(_) => Err(CANNOT_OPEN),
    }
}

// As `Connection::open_files_with` does, whose clauses these are, but with a cache of the size that the file at this path has, and this number for
// the log: then each page of new files ends in a sum. No clock is given, since no statement reads CURRENT_TIMESTAMP.
pub(crate) fn open_cached<D: Disk + Drop>(
    rt: &HostRuntime,
    path: &str,
    files: Files<D>,
    number: u64,
) -> Result<Connection<FileStore<D>>, (Error, Leftover<D>)>
    requires log { IsTrue (D.Disk.is_usable files.log) }
    requires db { IsTrue (D.Disk.is_usable files.db) }
    ensures named { IfErr result (λ e. IsTrue (is_open_error e.0)) }
    ensures opened { IfOk result (λ c. HasCleanDisk (file_state c) → IsOpened c) }
    ensures found { IfOk result (λ c. HasCleanDisk (file_state c) → Finds files c) }
    ensures sums { IfOk result (λ c. HasCleanDisk (file_state c) → IsBlankAs true (image_of D.Disk files) → (view c.store).has_sums ≡ true) }
    ensures fresh { IfOk result IsNew }
    ensures cause { IfErr result (λ e. IsCleanLeft e.1 → FailsToOpenFiles files e.1 e.0) }
    ensures unharmed { IfErr result (λ e. IsCleanLeft e.1 → LeavesFiles files e.1) }
{
    let options = options(rt, path, number);
    Connection::open_files_with(rt.alloc(), files, options, true)
}
