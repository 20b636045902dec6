//! The table `entry` of each schema: dropped, inside an open transaction.

ghost use Rattle.std.specs.Prelude.{◌≡◌, codes, IfErr, OnOk};
ghost use Rattle.sqlite.specs.State.{HasCleanDisk, Survives};
ghost use Rattle.sqlite.specs.Held.{state};
ghost use Rattle.store_older_sql.specs.Drops.{Drops, FailsToDrop};
ghost use Rattle.store_tables.specs.Effects.{Has, WhileOpen};
ghost use Rattle.store_older_sql.specs.Entries.{entry_table_of};

use sqlite::{Alter, Error};
use store_tables::transaction::OpenTransaction;

/// Which columns the entries have.
#[derive(Clone, Copy, Debug, PartialEq, Eq)]
pub enum EntryForm {
    /// Schema 1: none of what is derived.
    Plain,
    /// Schemas 2 and 3: the key of each headword, read in either direction.
    Keyed,
    /// Schema 4: beside those, the headword that replies show.
    Shown,
}

/// Drops the entries of this form with their rows and all their indexes. It answers the count that `sqlite` reports.
pub fn drop_entry<S: Alter, T: OpenTransaction<S>>(
    tx: &mut T,
    _form: EntryForm,
) -> Result<usize, Error>
    requires { WhileOpen (state S.Store (T.held tx.old)) (Has (entry_table_of _form)) }
    ensures same_reference { T.reference tx.new ≡ T.reference tx.old }
    ensures dropped { HasCleanDisk (state S.Store (T.held tx.new)) → OnOk result (Drops (codes "entry") (state S.Store (T.held tx.old)) (state S.Store (T.held tx.new))) }
    ensures failed { HasCleanDisk (state S.Store (T.held tx.new)) → IfErr result (FailsToDrop (codes "entry") (state S.Store (T.held tx.old)) (state S.Store (T.held tx.new))) }
    ensures survives { Survives (state S.Store (T.held tx.old)) (state S.Store (T.held tx.new)) (λ _. ⊥) }
{
    tx.execute("DROP TABLE entry", &[])
}
