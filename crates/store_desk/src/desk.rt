// A desk over one database.
ghost use Rattle.std.specs.Prelude.{◌≡◌, ◌≢◌, ◌∷◌, [], Some, None, false, IfOk, IfErr};
ghost use Rattle.sqlite.specs.State.{HasCleanDisk, Survives};
ghost use Rattle.sqlite.specs.Held.{state};
ghost use Rattle.dict_catalogue.specs.Steps.{Catalogue, empty_catalogue, summary_of};
ghost use Rattle.dict_catalogue.specs.Views.{summary_shown};
ghost use Rattle.dict_catalogue.specs.WellFormed.{IsWellFormed};
ghost use Rattle.dict_desk.specs.Faults.{is_disk};
ghost use Rattle.store_holdings.specs.Holds.{Holds, Rests, IsLeftAs, HasPlace};
ghost use Rattle.store_holdings.specs.Writing.{StaysCommitted, IsOfCreation};
ghost use Rattle.store_migration.specs.Making.{creation, CreationFailsToEnd};
ghost use Rattle.store_holdings.specs.Committed.{IsTreesOf};
ghost use Rattle.store_migration.specs.Spared.{SparesOthers};
ghost use Rattle.store_commands.specs.Changes.{IsInRange};
ghost use Rattle.store_commands.specs.Answers.{HoldsBy};
ghost use Rattle.sqlite.specs.Effect.{Database};
ghost use Rattle.store_desk.specs.Desk.{KeepsBeside, Shows, LeavesOneOf, is_closed};
ghost use Rattle.store_desk.specs.Over.{ConnectionKeepsBeside};
ghost use Rattle.store_desk.specs.Indexed.{AreHeldCut};
ghost use Rattle.store_rows.specs.Versions.{known};

use crate::adopting::is_whole;
use crate::coming::Coming;
use crate::last::LastCall;
use crate::laws::committed_may_stay;
use crate::orphans::Orphans;
use dict_catalogue::Summary;
use dict_desk::Fault;
use sqlite::{Alter, Connection};
use std::alloc::Global;
use std::marker::Model;
use store_commands::Draft;
use store_holdings::{Indexes, TextParts};
use store_migration::create;

/// A desk over one database: the connection to it, the summary of the catalogue that it holds, and an index of each of its editions,
/// current and former, which counts and finds. The texts of editions from which entries were handed out last are kept in memory, up to
/// `store_holdings::MAX_OCTETS`. Parts of an edition that may come are committed under the number that it gets, of which no edition is: none of them
/// is shown before the edition is installed.
pub struct Desk<S: Alter + Drop> {
    pub(crate) alloc: Global,
    pub(crate) conn: Connection<S>,
    pub(crate) summary: Summary,
    pub(crate) last: LastCall,
    // The indexes of the editions by their numbers.
    pub(crate) indexes: Indexes,
    // The texts of editions that lookups keep. Those of a database stay as a command changes another one.
    pub(crate) texts: TextParts,
    // The entries that lookups have looked at, and the rows that their statements have handed over. No answer rests on it.
    pub(crate) rows_taken: u64,
    // What is read of an install that may come.
    pub(crate) draft: Option<Draft>,
    // What is prepared of it, once it is read: parts of it are filed.
    pub(crate) filing: Option<Coming>,
    // Whether an install may have left a long log. No answer rests on it.
    pub(crate) is_log_long: bool,
    // The numbers under which there may be parts of no edition. No answer rests on it.
    pub(crate) orphans: Orphans,
}

// It is written out, so that what owns one doesn't prove again how each part is dropped.
impl<S: Alter + Drop> Drop for Desk<S> {
    fn drop(self) {
        let Desk {
            alloc: _,
            conn: _,
            summary: _,
            last: _,
            indexes: _,
            texts: _,
            rows_taken: _,
            draft: _,
            filing: _,
            is_log_long: _,
            orphans: _,
        } = self;
    }
}

impl<S: Alter + Drop> Model for Desk<S> {
    ghost use Rattle.dict_catalogue.specs.Views.{summary_shown};
    ghost use Rattle.std.specs.Coded.{codes};
    ghost use Rattle.sqlite.specs.Held.{held_code};
    ghost use Rattle.store_desk.specs.Desk.{DeskState, IsAtRest};
    ghost use Rattle.store_desk.specs.Left.{counted};
    ghost use Rattle.store_desk.specs.KeptParts.{KeepsTexts};

    ghost Value = { DeskState S };

    ghost coded = { Prim.hlevel (codes, held_code S.code) };

    ghost view = { λ d. record { conn = d.conn; summary = summary_shown d.summary; last = d.last; indexes = d.indexes; texts = d.texts; counts = counted d.rows_taken d.is_log_long d.orphans d.draft d.filing } };

    ghost invariant = { λ d. IsAtRest S.Store d.last (summary_shown d.summary) d.filing d.conn × KeepsTexts d.last (summary_shown d.summary) d.texts };
}

impl<S: Alter + Drop> Desk<S> {
    // The desk over a database at rest that holds a catalogue of this summary, of whose editions these are the indexes. Under the numbers of
    // `orphans` there may be parts of no edition.
    pub(crate) fn over(
        alloc: Global,
        conn: Connection<S>,
        summary: Summary,
        indexes: Indexes,
        orphans: Vec<u64>,
    ) -> Desk<S>
        requires autocommit { conn.in_transaction ≡ false }
        requires limit { conn.step_limit ≡ None }
        requires range { IsInRange (summary_shown summary) }
        requires holds { HoldsBy (summary_shown summary) (state S.Store conn) }
        ensures is { result ≡ record { conn = conn; summary = summary_shown summary; last = LastCall.Fine; indexes = indexes; texts = []; counts = record { taken = 0; left = result.counts.left; filed = false } } }
        ensures shows { (M : Catalogue) → summary_shown summary ≡ summary_of M → IsWellFormed M → (HasCleanDisk (state S.Store conn) → Rests known (state S.Store conn) M) → (HasCleanDisk (state S.Store conn) → AreHeldCut (state S.Store conn).committed M indexes) → Shows S.Store result M }
    {
        Desk {
            alloc,
            conn,
            summary,
            last: LastCall::Fine,
            indexes,
            texts: TextParts::new(alloc),
            rows_taken: 0,
            draft: None,
            filing: None,
            is_log_long: false,
            orphans: Orphans::of(orphans),
        }
    }

    /// A desk over a database in which the tables of the empty catalogue are made by one commit. The tables of others stay as they are.
    ///
    /// At a fault the connection is handed back. `NotACatalogue`: there is no place for the tables. `Memory`: a growth was
    /// refused before the commit. After both all is as it was. `Disk`: the store failed. No other fault comes. The connection's limit on
    /// steps is taken away.
    pub fn create(alloc: Global, conn: Connection<S>) -> Result<Desk<S>, (Connection<S>, Fault)>
        requires { conn.in_transaction ≡ false }
        ensures shows { IfOk result (λ desk. Shows S.Store desk empty_catalogue) }
        ensures rests { IfOk result (λ desk. HasCleanDisk (state S.Store desk.conn) → Rests known (state S.Store desk.conn) empty_catalogue) }
        ensures open { IfOk result (λ desk. (desk.last ≡ LastCall.Fine) × (desk.conn.in_transaction ≡ false)) }
        ensures only { IfOk result (λ desk. LeavesOneOf S.Store desk (Some empty_catalogue ∷ [])) }
        ensures made { IfOk result (λ desk. Survives (state S.Store (record conn { step_limit = None })) (state S.Store desk.conn) (IsLeftAs known empty_catalogue)) }
        ensures place { IfOk result (λ desk. HasPlace (state S.Store conn).now.schema) }
        ensures others { IfOk result (λ desk. HasCleanDisk (state S.Store desk.conn) → SparesOthers (state S.Store conn).now (state S.Store desk.conn).now) }
        ensures beside { IfOk result (λ desk. Survives (state S.Store (record conn { step_limit = None })) (state S.Store desk.conn) (IsTreesOf (SparesOthers (state S.Store conn).now))) }
        ensures keeps { IfOk result (λ desk. (db : Database) → ConnectionKeepsBeside S.Store conn db → KeepsBeside S.Store desk db) }
        ensures beside_left { IfErr result (λ left. Survives (state S.Store (record conn { step_limit = None })) (state S.Store left.0) (IsTreesOf (SparesOthers (state S.Store conn).now))) }
        ensures handed { IfErr result (λ left. left.0.in_transaction ≡ false) }
        ensures no_place { IfErr result (λ left. left.1 ≡ Fault.NotACatalogue → (HasPlace (state S.Store conn).now.schema → ⊥) × (left.0 ≡ record conn { step_limit = None })) }
        ensures crash { IfErr result (λ left. Survives (state S.Store (record conn { step_limit = None })) (state S.Store left.0) (IsLeftAs known empty_catalogue)) }
        ensures adds_none { IfErr result (λ left. is_disk left.1 ≡ false → Survives (state S.Store (record conn { step_limit = None })) (state S.Store left.0) (λ _. ⊥)) }
        ensures stays { IfErr result (λ left. HasCleanDisk (state S.Store left.0) → StaysCommitted (state S.Store conn) (state S.Store left.0)) }
        ensures failed { IfErr result (λ left. HasCleanDisk (state S.Store left.0) → left.1 ≢ Fault.NotACatalogue → CreationFailsToEnd S.Store (creation known) (λ db. Holds known db empty_catalogue) (record conn { step_limit = None }) left.0 left.1) }
        ensures kinds { IfErr result (λ left. IsOfCreation left.1) }
    {
        is_whole(&conn);
        committed_may_stay(&conn);
        conn.is_autocommit();
        let mut conn = conn;
        conn.set_step_limit(None);
        match create(&mut conn) {
            Ok(()) => Ok(Desk::over(
                alloc,
                conn,
                Summary::new(alloc),
                Indexes::new(alloc),
                Vec::new(alloc),
            )),
            Err(fault) => Err((conn, fault)),
        }
    }

    /// Whether the store failed in an earlier call, so that each call answers `Closed`.
    pub fn is_closed(&self) -> bool
        ensures { result ≡ is_closed self.now.last }
    {
        self.last == LastCall::Closed
    }

    /// How many entries this desk's lookups have looked at, and how many rows their statements have handed over, since it was opened, up to
    /// the greatest number of its type, where it stays. No answer rests on it: it tells what lookups cost, and each lookup says how many
    /// more there are behind it at least.
    pub fn rows_taken(&self) -> u64
        ensures { result ≡ self.now.counts.taken }
    {
        self.rows_taken
    }

    // The connection of a desk, of which nothing else is left.
    pub(crate) fn only_connection(self) -> Connection<S>
        ensures same { result ≡ self.conn }
        ensures autocommit { result.in_transaction ≡ false }
    {
        let Desk {
            alloc: _,
            conn,
            summary: _,
            last: _,
            indexes: _,
            texts: _,
            rows_taken: _,
            draft: _,
            filing: _,
            is_log_long: _,
            orphans: _,
        } = self;
        conn
    }

    /// The connection, as the desk left it, in no transaction.
    pub fn into_connection(self) -> Connection<S>
        ensures same { result ≡ self.conn }
        ensures autocommit { result.in_transaction ≡ false }
    {
        self.only_connection()
    }
}
