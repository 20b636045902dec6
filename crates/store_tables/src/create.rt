//! The tables are made, inside an open transaction.

ghost use Rattle.std.specs.Prelude.{◌≡◌, IfErr, OnOk};
ghost use Rattle.sqlite.specs.State.{HasCleanDisk, Survives};
ghost use Rattle.sqlite.specs.Held.{state};
ghost use Rattle.store_tables.specs.Tables.{table_of};
ghost use Rattle.store_tables.specs.Effects.{WhileOpen};
ghost use Rattle.store_tables.specs.Creates.{IsFree, Makes, FailsToMake, create_text};

use crate::tables::StoreTable;
use crate::transaction::OpenTransaction;
use sqlite::{Alter, Error};

fn text_of(table: StoreTable) -> &'static str
    ensures { result.now ≡ create_text table }
{
    match table {
        StoreTable::Mark => {
            "CREATE TABLE mark (id INTEGER NOT NULL PRIMARY KEY, magic TEXT NOT NULL, version INTEGER NOT NULL, installs INTEGER NOT NULL) STRICT"
        }
        StoreTable::Item => {
            "CREATE TABLE item (place INTEGER NOT NULL PRIMARY KEY, name TEXT NOT NULL UNIQUE, kind INTEGER NOT NULL, title TEXT, current INTEGER, former INTEGER) STRICT"
        }
        StoreTable::Member => {
            "CREATE TABLE member (owner TEXT NOT NULL, ord INTEGER NOT NULL, name TEXT NOT NULL, PRIMARY KEY (owner, ord), UNIQUE (owner, name)) STRICT"
        }
        StoreTable::Edition => {
            "CREATE TABLE edition (number INTEGER NOT NULL PRIMARY KEY, owner TEXT NOT NULL, title TEXT NOT NULL, info TEXT NOT NULL, body BLOB NOT NULL) STRICT"
        }
        StoreTable::Entry => {
            "CREATE TABLE entry (edition INTEGER NOT NULL, ord INTEGER NOT NULL, headword TEXT NOT NULL, start INTEGER NOT NULL, length INTEGER NOT NULL, PRIMARY KEY (edition, ord)) STRICT"
        }
        StoreTable::Kept => {
            "CREATE TABLE kept (id TEXT NOT NULL PRIMARY KEY, number INTEGER NOT NULL UNIQUE, verb TEXT NOT NULL, name TEXT NOT NULL, edition INTEGER) STRICT"
        }
    }
}

/// Makes the table with the indexes of its keys. It answers the count that `sqlite` reports.
pub fn create_table<S: Alter, T: OpenTransaction<S>>(
    tx: &mut T,
    table: StoreTable,
) -> Result<usize, Error>
    requires { WhileOpen (state S.Store (T.held tx.old)) (λ db. IsFree db.schema (table_of table 0).name) }
    ensures same_reference { T.reference tx.new ≡ T.reference tx.old }
    ensures made { HasCleanDisk (state S.Store (T.held tx.new)) → OnOk result (Makes (table_of table 0) (state S.Store (T.held tx.old)) (state S.Store (T.held tx.new))) }
    ensures failed { HasCleanDisk (state S.Store (T.held tx.new)) → IfErr result (FailsToMake (table_of table 0) (state S.Store (T.held tx.old)) (state S.Store (T.held tx.new))) }
    ensures survives { Survives (state S.Store (T.held tx.old)) (state S.Store (T.held tx.new)) (λ _. ⊥) }
{
    tx.execute(text_of(table), &[])
}
