// An edition that may come: it is read, filed, and its index is made.
ghost use Rattle.std.specs.Prelude.{◌≡◌, ◌≢◌, ◌+◌, ℕ, true, false, IsTrue, IfErr, IfNone, IfOk, IfSome, OnErr, OnOk, Some, map};
ghost use Rattle.sqlite.specs.Disk.{MoreFaults};
ghost use Rattle.sqlite.specs.State.{HasCleanDisk, Survives};
ghost use Rattle.sqlite.specs.Held.{state};
ghost use Rattle.dict_index.specs.Edition.{ReadEdition};
ghost use Rattle.dict_index.specs.Meaning.{IsReadEdition};
ghost use Rattle.store_holdings.specs.Indexes.{entries_under};
ghost use Rattle.store_search.specs.Entries.{entry_of};
ghost use Rattle.dict_catalogue.specs.Views.{summary_shown};
ghost use Rattle.store_holdings.specs.Committed.{IsCommitted, IsTreesOf};
ghost use Rattle.store_commands.specs.Committed.{IsOfStore, StaysCommitted};
ghost use Rattle.store_commands.specs.Answers.{HoldsBy};
ghost use Rattle.store_commands.specs.Changes.{IsInRange};
ghost use Rattle.store_commands.specs.Filing.{IsDrawnUp, IsFiledSoFar, AreAllPartsFiled, HasSameRows};
ghost use Rattle.store_commands.specs.Finishing.{IsFinished};
ghost use Rattle.store_commands.specs.Installs.{IsInstallOf, IsReadInstall};
ghost use Rattle.store_commands.specs.Left.{IsLess};
ghost use Rattle.store_commands.specs.Marking.{Remains};
ghost use Rattle.store_desk.specs.Coming.{IsIndexOfInstall};
ghost use Rattle.store_desk.specs.Indexed.{HasPutIfSome};
ghost use Rattle.store_desk.specs.Left.{both_left, coming_left};

use crate::making::{IndexPart, make_part, take_whole};
use dict_catalogue::Summary;
use dict_desk::Fault;
use sqlite::{Alter, Connection};
use std::alloc::Global;
use std::marker::Model;
use store_commands::{Applied, ReadInstall, apply_read, file_part};
use store_holdings::Indexes;
use store_search::IndexBuilder;

/// An install of whose edition all is read, and the index in memory of that, as far as it is made. Contracts see what is filed.
pub(crate) struct Coming {
    install: ReadInstall,
    index: IndexPart,
}

// It is written out, so that what owns one doesn't prove again how each part is dropped.
impl Drop for Coming {
    fn drop(self) {
        let Coming {
            install: _,
            index: _,
        } = self;
    }
}

impl Model for Coming {
    ghost use Rattle.store_commands.specs.Installs.{IsReadInstall};
    ghost use Rattle.store_desk.specs.Left.{ComingState, index_left};

    ghost Value = { ComingState };

    ghost use Rattle.store_desk.specs.Coming.{IsIndexOfInstall};

    ghost view = { λ coming. record { filing = coming.install.filing; index = index_left coming.index } };

    ghost invariant = { λ coming. IsReadInstall coming.install × IsIndexOfInstall coming.install coming.index };
}

impl Coming {
    /// An install, of whose index nothing is made.
    pub(crate) fn of(alloc: Global, install: ReadInstall) -> Coming
        requires { IsReadInstall install }
        ensures { result.filing ≡ install.filing }
    {
        Coming {
            install,
            index: IndexPart::Entries(IndexBuilder::new(alloc)),
        }
    }

    /// What `file_part` does with the filing.
    pub(crate) fn file<S: Alter>(
        &mut self,
        conn: &mut Connection<S>,
        summary: &Summary,
    ) -> Result<bool, Option<Fault>>
        requires autocommit { conn.old.in_transaction ≡ false }
        requires holds { HoldsBy (summary_shown summary.now) (state S.Store conn.old) }
        requires filed { IsFiledSoFar self.old.filing (state S.Store conn.old) }
        ensures rows { HasSameRows self.old.filing self.new.filing }
        ensures drawn { IsDrawnUp self.new.filing }
        ensures next { OnOk result (self.new.filing.number ≡ (summary_shown summary.now).installs + 1) }
        ensures made { HasCleanDisk (state S.Store conn.new) → OnOk result (IsCommitted (Remains (summary_shown summary.now) (state S.Store conn.old).committed) (state S.Store conn.new)) }
        ensures filed { OnOk result (IsFiledSoFar self.new.filing (state S.Store conn.new)) }
        ensures fewer { OnOk result (IsLess (coming_left (Some self.new)) (coming_left (Some self.old))) }
        ensures whole { IfOk result (λ more. more ≡ false → AreAllPartsFiled self.new.filing) }
        ensures stays { HasCleanDisk (state S.Store conn.new) → OnErr result (StaysCommitted (state S.Store conn.old) (state S.Store conn.new)) }
        ensures lives { HasCleanDisk (state S.Store conn.new) → IsTrue (state S.Store conn.new).is_open → IsTrue (state S.Store conn.old).is_open }
        ensures faulted { HasCleanDisk (state S.Store conn.new) → IfErr result (λ why. why ≡ Some Fault.Disk → MoreFaults (state S.Store conn.old).faults (state S.Store conn.new).faults) }
        ensures kinds { IfErr result (λ why. IfSome why IsOfStore) }
        ensures autocommit { (state S.Store conn.new).in_transaction ≡ false }
        ensures crash { Survives (state S.Store conn.old) (state S.Store conn.new) (λ trees. IsTrue (state S.Store conn.old).is_open × IsTreesOf (Remains (summary_shown summary.now) (state S.Store conn.old).committed) trees) }
    {
        file_part(conn, summary, &mut self.install.filing)
    }

    /// Whether all of its parts are filed.
    pub(crate) fn is_filed(&self) -> bool
        ensures { IsTrue result → AreAllPartsFiled self.now.filing }
    {
        self.install.filing.is_whole()
    }

    /// The number under which parts of it may stand.
    pub(crate) fn number_filed(&self) -> Option<u64> {
        self.install.filing.number_filed()
    }

    /// Makes the next part of the index. Whether there was one.
    pub(crate) fn make(&mut self) -> bool
        ensures same { self.new.filing ≡ self.old.filing }
        ensures fewer { IsTrue result → IsLess (both_left self.new.index) (both_left self.old.index) }
    {
        make_part(&self.install, &mut self.index)
    }

    /// Finishes the install of what was prepared, where it is of this name and these files, all of it is filed, and its index is whole: that is put under the
    /// number that the edition gets. None, and nothing is written: it isn't so; or `apply_read` tells that it can't be finished.
    pub(crate) fn finish<S: Alter>(
        &mut self,
        alloc: Global,
        conn: &mut Connection<S>,
        summary: &Summary,
        indexes: &mut Indexes,
        number: u64,
        request: &AskedInstall<'_>,
    ) -> Option<Result<Applied, Fault>>
        requires autocommit { conn.old.in_transaction ≡ false }
        requires filed { IsFiledSoFar self.old.filing (state S.Store conn.old) }
        requires holds { HoldsBy (summary_shown summary.now) (state S.Store conn.old) }
        requires range { IsInRange (summary_shown summary.now) }
        ensures same { self.new.filing ≡ self.old.filing }
        ensures begun { IfSome result (λ _. self.old.filing.is_begun ≡ true) }
        ensures finished { IfSome result (λ outcome. (reading : ReadEdition) × IsReadEdition request.now.index.now request.now.text.now reading
            × IsFinished S.Store (summary_shown summary.now) request.now.id.now request.now.name.now reading conn.old conn.new outcome × HasPutIfSome number (Some (map entry_of reading.lines)) indexes.old indexes.new) }
        ensures settled { HasCleanDisk (state S.Store conn.new) → IsTrue (state S.Store conn.new).is_open → IfSome result (λ _. (state S.Store conn.new).now ≡ (state S.Store conn.new).committed) }
        ensures others { (q : ℕ) → q ≢ number → entries_under q indexes.new ≡ entries_under q indexes.old }
        ensures stays { HasCleanDisk (state S.Store conn.new) → IfNone result (StaysCommitted (state S.Store conn.old) (state S.Store conn.new)) }
        ensures ended { conn.new.in_transaction ≡ false }
        ensures survives { IfNone result (Survives (state S.Store conn.old) (state S.Store conn.new) (λ _. ⊥)) }
    {
        if !self.is_filed() {
            return None;
        }
        if put_index(&self.install, &mut self.index, indexes, number, request) {
            return apply_read(alloc, conn, summary, request.id, &self.install);
        }
        None
    }
}

/// An install as it is asked: under which id, and by which name and files.
#[derive(Clone, Copy)]
pub(crate) struct AskedInstall<'a> {
    pub(crate) id: &'a str,
    pub(crate) name: &'a str,
    pub(crate) index: &'a [u8],
    pub(crate) text: &'a [u8],
}

// Puts the index under a number, where the install is of this name and these files, and all its entries are taken. Whether it was put.
fn put_index(
    install: &ReadInstall,
    index: &mut IndexPart,
    indexes: &mut Indexes,
    number: u64,
    request: &AskedInstall<'_>,
) -> bool
    requires { IsIndexOfInstall install.now index.old }
    ensures index { IsIndexOfInstall install.now index.new }
    ensures is_of { IsTrue result → IsInstallOf request.now.name.now request.now.index.now request.now.text.now install.now }
    ensures put { IsTrue result → (reading : ReadEdition) → IsReadEdition install.now.came.items install.now.filing.text.items reading → HasPutIfSome number (Some (map entry_of reading.lines)) indexes.old indexes.new }
    ensures others { (q : ℕ) → q ≢ number → entries_under q indexes.new ≡ entries_under q indexes.old }
{
    if !install.is_of(request.name, request.index, request.text) {
        return false;
    }
    let Some(whole) = take_whole(install, index) else {
        return false;
    };
    match indexes.put(number, whole) {
        Ok(()) => true,
        Err(_) => false,
    }
}
