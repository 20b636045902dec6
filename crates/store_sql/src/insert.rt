//! One more record in a table, inside an open transaction.

ghost use Rattle.std.specs.Prelude.{◌≡◌, codes, IfErr, OnOk};
ghost use Rattle.sqlite.specs.State.{HasCleanDisk, Survives};
ghost use Rattle.sqlite.specs.Held.{state};
ghost use Rattle.store_tables.specs.Tables.{mark, item, member, edition, kept};
ghost use Rattle.store_tables.specs.Typed.{lent_mark, lent_item, lent_member, lent_kept};
ghost use Rattle.store_sql.specs.Encodings.{mark_row, item_row, member_row, kept_row};
ghost use Rattle.store_tables.specs.Effects.{Has, WhileOpen};
ghost use Rattle.store_sql.specs.Inserts.{Inserts, FailsToInsert};

use sqlite::{Alter, Error, params};
use store_tables::transaction::OpenTransaction;
use store_tables::{ItemRecord, KeptRecord, Mark, Member};

/// Inserts the mark. It answers the count of written rows that `sqlite` reports.
pub fn insert_mark<S: Alter, T: OpenTransaction<S>>(
    tx: &mut T,
    given: &Mark<&str>,
) -> Result<usize, Error>
    requires { WhileOpen (state S.Store (T.held tx.old)) (Has mark) }
    ensures same_reference { T.reference tx.new ≡ T.reference tx.old }
    ensures added { HasCleanDisk (state S.Store (T.held tx.new)) → OnOk result (Inserts (codes "mark") (mark_row (lent_mark given.now)) (state S.Store (T.held tx.old)) (state S.Store (T.held tx.new))) }
    ensures failed { HasCleanDisk (state S.Store (T.held tx.new)) → IfErr result (FailsToInsert (codes "mark") (mark_row (lent_mark given.now)) (state S.Store (T.held tx.old)) (state S.Store (T.held tx.new))) }
    ensures survives { Survives (state S.Store (T.held tx.old)) (state S.Store (T.held tx.new)) (λ _. ⊥) }
{
    let id = given.id;
    let version = given.version;
    let installs = given.installs;
    tx.execute(
        "INSERT INTO mark (id, magic, version, installs) VALUES (?1, ?2, ?3, ?4)",
        params![id, given.magic, version, installs],
    )
}

/// Inserts an item of the list of databases. It answers the count of written rows that `sqlite` reports.
pub fn insert_item<S: Alter, T: OpenTransaction<S>>(
    tx: &mut T,
    given: &ItemRecord<&str>,
) -> Result<usize, Error>
    requires { WhileOpen (state S.Store (T.held tx.old)) (Has item) }
    ensures same_reference { T.reference tx.new ≡ T.reference tx.old }
    ensures added { HasCleanDisk (state S.Store (T.held tx.new)) → OnOk result (Inserts (codes "item") (item_row (lent_item given.now)) (state S.Store (T.held tx.old)) (state S.Store (T.held tx.new))) }
    ensures failed { HasCleanDisk (state S.Store (T.held tx.new)) → IfErr result (FailsToInsert (codes "item") (item_row (lent_item given.now)) (state S.Store (T.held tx.old)) (state S.Store (T.held tx.new))) }
    ensures survives { Survives (state S.Store (T.held tx.old)) (state S.Store (T.held tx.new)) (λ _. ⊥) }
{
    let place = given.place;
    let kind = given.kind;
    tx.execute(
        "INSERT INTO item (place, name, kind, title, current, former) VALUES (?1, ?2, ?3, ?4, ?5, ?6)",
        params![
            place,
            given.name,
            kind,
            given.title,
            given.current,
            given.former
        ],
    )
}

/// Inserts a member of a virtual item. It answers the count of written rows that `sqlite` reports.
pub fn insert_member<S: Alter, T: OpenTransaction<S>>(
    tx: &mut T,
    given: &Member<&str>,
) -> Result<usize, Error>
    requires { WhileOpen (state S.Store (T.held tx.old)) (Has member) }
    ensures same_reference { T.reference tx.new ≡ T.reference tx.old }
    ensures added { HasCleanDisk (state S.Store (T.held tx.new)) → OnOk result (Inserts (codes "member") (member_row (lent_member given.now)) (state S.Store (T.held tx.old)) (state S.Store (T.held tx.new))) }
    ensures failed { HasCleanDisk (state S.Store (T.held tx.new)) → IfErr result (FailsToInsert (codes "member") (member_row (lent_member given.now)) (state S.Store (T.held tx.old)) (state S.Store (T.held tx.new))) }
    ensures survives { Survives (state S.Store (T.held tx.old)) (state S.Store (T.held tx.new)) (λ _. ⊥) }
{
    let ord = given.ord;
    tx.execute(
        "INSERT INTO member (owner, ord, name) VALUES (?1, ?2, ?3)",
        params![given.owner, ord, given.name],
    )
}

/// Inserts a reply that is kept for its id. It answers the count of written rows that `sqlite` reports.
pub fn insert_kept<S: Alter, T: OpenTransaction<S>>(
    tx: &mut T,
    given: &KeptRecord<&str>,
) -> Result<usize, Error>
    requires { WhileOpen (state S.Store (T.held tx.old)) (Has kept) }
    ensures same_reference { T.reference tx.new ≡ T.reference tx.old }
    ensures added { HasCleanDisk (state S.Store (T.held tx.new)) → OnOk result (Inserts (codes "kept") (kept_row (lent_kept given.now)) (state S.Store (T.held tx.old)) (state S.Store (T.held tx.new))) }
    ensures failed { HasCleanDisk (state S.Store (T.held tx.new)) → IfErr result (FailsToInsert (codes "kept") (kept_row (lent_kept given.now)) (state S.Store (T.held tx.old)) (state S.Store (T.held tx.new))) }
    ensures survives { Survives (state S.Store (T.held tx.old)) (state S.Store (T.held tx.new)) (λ _. ⊥) }
{
    let number = given.number;
    tx.execute(
        "INSERT INTO kept (id, number, verb, name, edition) VALUES (?1, ?2, ?3, ?4, ?5)",
        params![given.id, number, given.verb, given.name, given.edition],
    )
}
