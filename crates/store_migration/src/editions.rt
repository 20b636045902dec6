// The editions of an older version, one after the other: the files of each are put in as parts, and its header is kept.
ghost use Rattle.std.specs.Prelude.{◌≡◌, ◌≢◌, ◌∷◌, [], length, map, true, IfOk, IfErr, OnOk};
ghost use Rattle.sqlite.specs.Held.{state};
ghost use Rattle.sqlite.specs.State.{HasCleanDisk, IsUnchanged, KeepsCommit, Survives};
ghost use Rattle.store_tables.specs.Records.{header_of};
ghost use Rattle.store_tables.specs.Typed.{owned_edition, owned_header};
ghost use Rattle.store_tables.specs.Tables.{edition as edition_table};
ghost use Rattle.store_tables.specs.Effects.{Has, WhileOpen};
ghost use Rattle.store_migration.specs.Failing.{MigrationFailsInside};
ghost use Rattle.store_migration.specs.FailurePlaces.{InEdition, InEditions, InRecord};
ghost use Rattle.store_migration.specs.Steps.{AreParted, HasThree, IsEditionOf, IsPartedOne};

use crate::files::{EditionFiles, put_files};
use crate::index::read_index;
use crate::older::Older;
use sqlite::Alter;
use std::alloc::Global;
use store_older_sql::editions_inside;
use store_sql::records::ReadError;
use store_tables::transaction::OpenTransaction;
use store_tables::{EditionRecord, HeaderRecord, StoredRow};

// The only one of these rows. `NoRecord` tells that there is none, or more.
fn only_one(
    mut editions: Vec<StoredRow<EditionRecord<String, Vec<u8>>>>,
) -> Result<StoredRow<EditionRecord<String, Vec<u8>>>, ReadError>
    ensures one { IfOk result (λ row. editions.items ≡ row ∷ []) }
    ensures none { IfErr result (λ e. (e ≡ ReadError.NoRecord) × (length editions.items ≢ 1)) }
{
    if editions.len() != 1 {
        return Err(ReadError::NoRecord);
    }
    Ok(editions.remove(0))
}

// The record of the edition of a number, with its text. `NoRecord` tells that not just one row has the number, or that it is no record.
fn read_record<S: Alter, T: OpenTransaction<S>>(
    alloc: Global,
    tx: &mut T,
    number: i64,
) -> Result<EditionRecord<String, Vec<u8>>, ReadError>
    requires { WhileOpen (state S.Store (T.held tx.old)) (Has edition_table) }
    ensures same_reference { T.reference tx.new ≡ T.reference tx.old }
    ensures edition { HasCleanDisk (state S.Store (T.held tx.new)) → IfOk result (λ edition. IsEditionOf number (state S.Store (T.held tx.old)).now (owned_edition edition) × IsUnchanged (state S.Store (T.held tx.old)) (state S.Store (T.held tx.new))) }
    ensures failed { HasCleanDisk (state S.Store (T.held tx.new)) → IfErr result (MigrationFailsInside S.Store (InRecord number) (T.held tx.old) (T.held tx.new)) }
    ensures keeps { HasCleanDisk (state S.Store (T.held tx.new)) → KeepsCommit (state S.Store (T.held tx.old)) (state S.Store (T.held tx.new)) }
    ensures survives { Survives (state S.Store (T.held tx.old)) (state S.Store (T.held tx.new)) (λ _. ⊥) }
{
    let editions = editions_inside(alloc, tx, number)?;
    let row = only_one(editions)?;
    let StoredRow { rowid: _, value } = row;
    Ok(value)
}

// The edition without its text.
fn without_text(edition: EditionRecord<String, Vec<u8>>) -> HeaderRecord<String>
    ensures { owned_header result ≡ header_of (owned_edition edition) }
{
    let EditionRecord {
        number,
        owner,
        title,
        info,
        body: _,
    } = edition;
    HeaderRecord {
        number,
        owner,
        title,
        info,
    }
}

// Puts the files of the edition of a number in. It answers its header. The entries are let go of before the text is read: each by
// itself takes more memory than what is made of it.
fn part_edition<S: Alter, T: OpenTransaction<S>>(
    alloc: Global,
    tx: &mut T,
    layout: Older,
    number: i64,
) -> Result<HeaderRecord<String>, ReadError>
    requires { WhileOpen (state S.Store (T.held tx.old)) (HasThree layout) }
    ensures same_reference { T.reference tx.new ≡ T.reference tx.old }
    ensures parted { HasCleanDisk (state S.Store (T.held tx.new)) → IfOk result (λ header. IsPartedOne layout number (owned_header header) (state S.Store (T.held tx.old)).now (state S.Store (T.held tx.new)).now) }
    ensures inside { HasCleanDisk (state S.Store (T.held tx.new)) → OnOk result ((state S.Store (T.held tx.old)).in_transaction ≡ true → (state S.Store (T.held tx.new)).in_transaction ≡ true) }
    ensures failed { HasCleanDisk (state S.Store (T.held tx.new)) → IfErr result (MigrationFailsInside S.Store (InEdition layout number) (T.held tx.old) (T.held tx.new)) }
    ensures keeps { HasCleanDisk (state S.Store (T.held tx.new)) → KeepsCommit (state S.Store (T.held tx.old)) (state S.Store (T.held tx.new)) }
    ensures survives { Survives (state S.Store (T.held tx.old)) (state S.Store (T.held tx.new)) (λ _. ⊥) }
{
    let index = read_index(alloc, tx, layout, number)?;
    let edition = read_record(alloc, tx, number)?;
    let files = EditionFiles {
        number,
        index: &index,
        text: &edition.body,
    };
    put_files(tx, &files)?;
    Ok(without_text(edition))
}

/// Puts the files of these editions in, one after the other. It answers their headers, in the same order. It holds one edition
/// with its text at a time.
pub(crate) fn part_editions<S: Alter, T: OpenTransaction<S>>(
    alloc: Global,
    tx: &mut T,
    layout: Older,
    numbers: &[i64],
) -> Result<Vec<HeaderRecord<String>>, ReadError>
    requires { WhileOpen (state S.Store (T.held tx.old)) (HasThree layout) }
    ensures same_reference { T.reference tx.new ≡ T.reference tx.old }
    ensures parted { HasCleanDisk (state S.Store (T.held tx.new)) → IfOk result (λ headers. AreParted layout numbers.now (map owned_header headers.items) (state S.Store (T.held tx.old)).now (state S.Store (T.held tx.new)).now) }
    ensures inside { HasCleanDisk (state S.Store (T.held tx.new)) → OnOk result ((state S.Store (T.held tx.old)).in_transaction ≡ true → (state S.Store (T.held tx.new)).in_transaction ≡ true) }
    ensures failed { HasCleanDisk (state S.Store (T.held tx.new)) → IfErr result (MigrationFailsInside S.Store (InEditions layout numbers.now) (T.held tx.old) (T.held tx.new)) }
    ensures keeps { HasCleanDisk (state S.Store (T.held tx.new)) → KeepsCommit (state S.Store (T.held tx.old)) (state S.Store (T.held tx.new)) }
    ensures survives { Survives (state S.Store (T.held tx.old)) (state S.Store (T.held tx.new)) (λ _. ⊥) }
{
    let mut headers = Vec::new(alloc);
    'each: for number in numbers {
        let header = part_edition(alloc, tx, layout, *number)?;
        headers.push(header)?;
    }
    Ok(headers)
}
