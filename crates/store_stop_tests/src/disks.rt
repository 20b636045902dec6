//! A catalogue on two disks, of which one fails. What holds it is any store, but where the two disks are opened.
ghost use Rattle.std.specs.Prelude.{◌≡◌, ⊤, false, IfOk, MatchResult};
ghost use Rattle.sqlite.specs.State.{HasCleanDisk};
ghost use Rattle.sqlite.specs.Files.{file_state, over_files};
ghost use Rattle.sqlite.specs.Held.{state};
ghost use Rattle.store_desk.specs.Desk.{KeepsBeside, Shows, LeavesOneOf, is_closed};
ghost use Rattle.net_serving.specs.Serving.{Follows, IsNew, IsNone};

use crate::files::{desk_over, options};
use app_words::{ProgramFault, StoreFault};
use dict_desk::Keeper;
use net_serving::DeskOpener;
use sqlite::{Alter, Connection, FileStore};
use sqlite_disk::{Crash, Disk};
use std::alloc::Global;
use store_desk::{Desk, Unopened};

// The desk of the catalogue in the database of another.
fn adopt<S: Alter + Drop>(alloc: Global, desk: Desk<S>) -> Result<Desk<S>, ProgramFault<'static>>
    ensures answers { IfOk result (λ desk. is_closed desk.last ≡ false) }
    ensures opened { MatchResult result
        (IsNew (Shows S.Store) (LeavesOneOf S.Store) (λ desk. HasCleanDisk (state S.Store desk.conn)) (λ _. ⊤))
        (IsNone (λ _. ⊤)) }
{
    match Desk::adopt(alloc, desk.into_connection(), false) {
        Ok(desk) => Ok(desk),
        Err((_, fault)) => Err(ProgramFault::from(fault)),
    }
}

/// What a store stands on, that stops and starts again.
pub(crate) trait Machine<K: Keeper> {
    /// The desk over what a stop leaves of the store of another.
    fn restart(&mut self, desk: K) -> Result<K, ProgramFault<'static>>
        ensures opened { MatchResult result (IsNew K.shows K.leaves_one_of K.is_trusted (λ _. ⊤)) (IsNone (λ _. ⊤)) }
        ensures answers { IfOk result (λ desk. K.is_closed desk ≡ false) }
        ensures follows { IfOk result (Follows K.shows K.leaves_one_of K.keeps_beside K.is_trusted desk) };
}

/// A machine with two disks.
#[derive(Drop)]
pub(crate) struct TwoDisks;

impl<D: Crash + Drop> Machine<Desk<FileStore<D>>> for TwoDisks {
    fn restart(
        &mut self,
        desk: Desk<FileStore<D>>,
    ) -> Result<Desk<FileStore<D>>, ProgramFault<'static>> {
        restart(desk)
    }
}

/// The disks go where no desk was opened, by way of their own type.
pub(crate) fn let_go<D: Disk + Drop>(left: Unopened<D>) {
    match left {
        Unopened::Spent(_files) => {}
        Unopened::Database(conn) => match conn.close_files() {
            Ok(_files) => {}
            Err((_, store)) => {
                let _files = store.close();
            }
        },
        Unopened::Files(Some(left)) => {
            let _files = left.into_files();
        }
        Unopened::Files(None) => {}
    }
}

// The desk over what a stop leaves of the disks of another.
fn restart<D: Crash + Drop>(
    desk: Desk<FileStore<D>>,
) -> Result<Desk<FileStore<D>>, ProgramFault<'static>>
    ensures opened { MatchResult result
        (IsNew (Shows over_files) (LeavesOneOf over_files) (λ desk. HasCleanDisk (file_state desk.conn)) (λ _. ⊤))
        (IsNone (λ _. ⊤)) }
    ensures answers { IfOk result (λ desk. is_closed desk.last ≡ false) }
    ensures follows { IfOk result (Follows (Shows over_files) (LeavesOneOf over_files) (KeepsBeside over_files) (λ desk. HasCleanDisk (file_state desk.conn)) desk) }
{
    match desk.restart(options()) {
        Ok(desk) => Ok(desk),
        Err((left, fault)) => {
            let_go(left);
            Err(ProgramFault::from(fault))
        }
    }
}

/// The desk that was closed last, if there is one.
struct Closed<S: Alter + Drop> {
    desk: Option<Desk<S>>,
}

// It is written out, so that a caller doesn't prove again how a desk is let go of.
impl<S: Alter + Drop> Drop for Closed<S> {
    fn drop(self) {
        let Closed { desk } = self;
        drop(desk);
    }
}

/// The catalogue on a machine, and how often it was opened again.
#[derive(Drop)]
pub(crate) struct Held<S: Alter + Drop, M: Drop> {
    alloc: Global,
    machine: M,
    closed: Closed<S>,
    pub(crate) reopened: u64,
}

impl<S: Alter + Drop, M: Drop> Held<S, M> {
    /// A new catalogue in this database. Where it can't be made, there is none to open.
    pub(crate) fn new(alloc: Global, machine: M, conn: Connection<S>) -> Held<S, M> {
        Held {
            alloc,
            machine,
            closed: Closed {
                desk: desk_over(alloc, conn, true).ok(),
            },
            reopened: 0,
        }
    }
}

impl<S: Alter + Drop, M: Machine<Desk<S>> + Drop> DeskOpener<Desk<S>> for Held<S, M> {
    ghost use Rattle.std.specs.Prelude.{None, MatchOption, ⊤};
    ghost use Rattle.sqlite.specs.State.{HasCleanDisk};
    ghost use Rattle.sqlite.specs.Held.{state};
    ghost use Rattle.store_desk.specs.Desk.{Shows, is_closed};

    ghost history = { λ _. None };

    ghost is_opened = { λ _ _. ⊤ };

    ghost is_unopened = { λ _ _ _ _. ⊤ };

    ghost is_unreopened = { λ _ _ _ _. ⊤ };

    ghost is_safe = { λ one. MatchOption one.closed.desk ⊤ (λ desk. HasCleanDisk (state S.Store desk.conn)) };

    ghost holds_alone = { λ one shown. MatchOption one.closed.desk ⊥ (λ desk. Shows S.Store desk shown) };

    ghost still_leaves = { λ _ _ _. ⊤ };

    ghost still_keeps = { λ _ _. ⊤ };

    ghost is_uncopied = { λ _ _ _. ⊤ };

    fn open<'w>(&mut self, _path: &'w str) -> Result<Desk<S>, ProgramFault<'w>> {
        match self.closed.desk.take() {
            Some(desk) => adopt(self.alloc, desk),
            None => Err(ProgramFault::Store(StoreFault::Closed)),
        }
    }

    fn open_for_command<'w>(&mut self, path: &'w str) -> Result<Desk<S>, ProgramFault<'w>> {
        self.open(path)
    }

    /// What a stop leaves of the store is opened.
    fn reopen<'w>(&mut self, _path: &'w str, desk: Desk<S>) -> Result<Desk<S>, ProgramFault<'w>> {
        self.reopened = self.reopened.saturating_add(1);
        self.machine.restart(desk)
    }

    /// The desk is kept as it is.
    fn close(&mut self, desk: Desk<S>) -> Result<(), ProgramFault<'static>> {
        self.closed = Closed { desk: Some(desk) };
        Ok(())
    }
}
