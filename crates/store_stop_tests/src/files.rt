//! Databases in two files, and their desks.
use dict_desk::Fault;
use sqlite::{Alter, Connection, FileStore, Files, Options};
use sqlite_disk::{Crash, Disk};
use std::alloc::Global;
use store_desk::Desk;

/// What two files have.
#[derive(Drop)]
pub(crate) struct Octets {
    pub(crate) log: Vec<u8>,
    pub(crate) db: Vec<u8>,
}

/// Few pages are kept in memory, so that a command reads others.
pub(crate) fn options() -> Options {
    let mut options = Options::new(1);
    options.cache_pages = 8;
    options
}

/// The two files of a database, as it leaves them; or the log is written into the other one first, where that can be.
pub(crate) fn closed<D: Disk + Drop>(conn: Connection<FileStore<D>>, is_whole: bool) -> Files<D> {
    if !is_whole {
        return conn.into_store().close();
    }
    match conn.close_files() {
        Ok(files) => files,
        Err((_, store)) => store.close(),
    }
}

/// The database in two files, or the files where it can't be opened.
pub(crate) fn opened<D: Disk + Drop>(
    alloc: Global,
    files: Files<D>,
) -> Result<Connection<FileStore<D>>, Files<D>> {
    if !files.may_be_used() {
        return Err(files);
    }
    match Connection::open_files(alloc, files, options()) {
        Ok(conn) => Ok(conn),
        Err((_, left)) => Err(left.into_files()),
    }
}

/// The desk of a database that is made, or of one that is found. Where a transaction is open, the connection is handed back as it is.
pub(crate) fn desk_over<S: Alter + Drop>(
    alloc: Global,
    conn: Connection<S>,
    is_new: bool,
) -> Result<Desk<S>, (Connection<S>, Fault)> {
    if !conn.is_autocommit() {
        return Err((conn, Fault::Closed));
    }
    if is_new {
        Desk::create(alloc, conn)
    } else {
        Desk::adopt(alloc, conn, false)
    }
}

/// What a crash of the machine leaves of two files. They may be used again.
pub(crate) fn crashed<D: Crash + Drop>(files: Files<D>) -> Files<D> {
    let mut files = files;
    files.log.crash();
    files.db.crash();
    files
}
