// The two files of an edition, put in as parts.
ghost use Rattle.std.specs.Prelude.{◌≡◌, ◌≤◌, ◌<◌, [], codes, length, map, true, slice_index_or, IfErr, OnOk};
ghost use Rattle.sqlite.specs.Held.{state};
ghost use Rattle.sqlite.specs.State.{HasCleanDisk, KeepsCommit, Survives};
ghost use Rattle.store_rows.specs.Parts.{parts_of};
ghost use Rattle.store_sql.specs.PartRecords.{lent_part, part_row};
ghost use Rattle.store_sql.specs.PartTable.{part as part_table};
ghost use Rattle.store_tables.specs.Added.{AreAdded};
ghost use Rattle.store_tables.specs.Effects.{Has, WhileOpen};
ghost use Rattle.store_sql.specs.declared.records.ReadError.TheVariants.{Store};
ghost use Rattle.store_rows.specs.FileParts.{part_at};
ghost use Rattle.store_migration.specs.Failing.{MigrationFailsInside};
ghost use Rattle.store_migration.specs.FailurePlaces.{Putting};
ghost use Rattle.store_migration.specs.Written.{parts_in};

use sqlite::{Alter, Error};
use store_rows::{PART_SIZE, part};
use store_sql::part_records::Part;
use store_sql::part_statements::insert_part;
use store_tables::transaction::OpenTransaction;

// An index has file 0 of its edition, and a text file 1.
const INDEX: i64 = 0;

const TEXT: i64 = 1;

// How many parts a file has.
fn part_count(octets: &[u8]) -> usize
    ensures count { result ≡ length (parts_of octets.now) }
    ensures few { result ≤ 1125899906842624 }
{
    octets.len().div_ceil(PART_SIZE)
}

// The part of this number of a file of an edition.
fn part_of(edition: i64, file: i64, octets: &[u8], number: usize) -> Part<&[u8]>
    requires { number < length (parts_of octets.now) }
    ensures { lent_part result ≡ part_at edition file number (slice_index_or (parts_of octets.now) number []) }
{
    part_count(octets);
    let Some(found) = part(octets, number) else {
        unreachable!();
    };
    Part {
        edition,
        file,
        number: number as i64,
        octets: found,
    }
}

/// The files of an edition under its number.
#[derive(Clone, Copy)]
pub(crate) struct EditionFiles<'a> {
    pub(crate) number: i64,
    pub(crate) index: &'a [u8],
    pub(crate) text: &'a [u8],
}

impl<'a> EditionFiles<'a> {
    // How many parts both files have.
    fn part_count(&self) -> usize
        ensures { result ≡ length (parts_in self.now) }
    {
        part_count(self.index) + part_count(self.text)
    }

    // The part at a place: those of the index come first.
    fn part(&self, place: usize) -> Part<&'a [u8]>
        requires { place < length (parts_in self.now) }
        ensures { lent_part result ≡ slice_index_or (parts_in self.now) place (lent_part result) }
    {
        let before = part_count(self.index);
        part_count(self.text);
        if place < before {
            part_of(self.number, INDEX, self.index, place)
        } else {
            part_of(self.number, TEXT, self.text, place - before)
        }
    }
}

/// Puts the parts of both files in.
pub(crate) fn put_files<S: Alter, T: OpenTransaction<S>>(
    tx: &mut T,
    files: &EditionFiles<'_>,
) -> Result<(), Error>
    requires { WhileOpen (state S.Store (T.held tx.old)) (Has part_table) }
    ensures same_reference { T.reference tx.new ≡ T.reference tx.old }
    ensures added { HasCleanDisk (state S.Store (T.held tx.new)) → OnOk result (AreAdded (codes "dictcat_part") (map part_row (parts_in files.now)) (state S.Store (T.held tx.old)).now (state S.Store (T.held tx.new)).now) }
    ensures inside { HasCleanDisk (state S.Store (T.held tx.new)) → OnOk result ((state S.Store (T.held tx.old)).in_transaction ≡ true → (state S.Store (T.held tx.new)).in_transaction ≡ true) }
    ensures failed { HasCleanDisk (state S.Store (T.held tx.new)) → IfErr result (λ e. MigrationFailsInside S.Store (Putting (codes "dictcat_part") (map part_row (parts_in files.now))) (T.held tx.old) (T.held tx.new) (Store e)) }
    ensures keeps { HasCleanDisk (state S.Store (T.held tx.new)) → KeepsCommit (state S.Store (T.held tx.old)) (state S.Store (T.held tx.new)) }
    ensures survives { Survives (state S.Store (T.held tx.old)) (state S.Store (T.held tx.new)) (λ _. ⊥) }
{
    let count = files.part_count();
    'each: for place in 0..count {
        let given = files.part(place);
        insert_part(tx, &given)?;
    }
    Ok(())
}
