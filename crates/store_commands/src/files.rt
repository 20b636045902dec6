// The two files that an edition is kept in, and their parts.
ghost use Rattle.std.specs.Prelude.{◌≡◌, ◌≤◌, ◌<◌, [], IfErr, IfOk, OnOk, length, map, pos, slice_index_or, slice_range};
ghost use Rattle.std.specs.List.{AllByRecursion};
ghost use Rattle.sqlite.specs.Held.{state};
ghost use Rattle.store_tables.specs.Effects.{WhileOpen};
ghost use Rattle.dict_index.specs.Views.{line_of};
ghost use Rattle.store_rows.specs.Stored.{stored_index, IsStorable as IsStorableLine};
ghost use Rattle.store_rows.specs.Parts.{parts_of};
ghost use Rattle.store_sql.specs.PartRecords.{lent_part};
ghost use Rattle.store_rows.specs.FileParts.{part_at};
ghost use Rattle.store_commands.specs.KeptRecords.{IsUsable, FitsColumn};
ghost use Rattle.store_commands.specs.Statements.{adding_part};
ghost use Rattle.store_commands.specs.Changes.{with_more_parts, index_by};
ghost use Rattle.store_commands.specs.Filing.{parts_of_files};
ghost use Rattle.store_commands.specs.Writes.{WroteStatements, FailsToWrite, CommitsNothing};

use dict_catalogue::Command;
use dict_index::{Edition, Entry};
use sqlite::{Alter, Error};
use std::alloc::{AllocError, Global};
use store_rows::{PART_SIZE, part, write_line};
use store_sql::part_records::Part;
use store_sql::part_statements::insert_part;
use store_tables::transaction::OpenTransaction;

// An index has file 0 of its edition, and a text file 1.
const INDEX: i64 = 0;

const TEXT: i64 = 1;

// The lines of entries, one behind the other.
fn lines_of(alloc: Global, entries: &[Entry]) -> Result<Vec<u8>, AllocError>
    requires { AllByRecursion (λ entry. IsStorableLine (line_of entry)) entries.now }
    ensures { IfOk result (λ octets. octets.items ≡ stored_index (map line_of entries.now)) }
{
    let mut octets = Vec::new(alloc);
    'each: for entry in entries {
        write_line(
            entry.headword,
            entry.offset as u64,
            entry.size as u64,
            entry.shown,
            &mut octets,
        )?;
    }
    Ok(octets)
}

/// The octets of an edition's index. The only error is want of memory.
pub(crate) fn index_of(alloc: Global, edition: &Edition) -> Result<Vec<u8>, AllocError>
    ensures { IfOk result (λ octets. octets.items ≡ stored_index edition.now.lines) }
{
    edition.is_well_formed();
    let _text = edition.text();
    lines_of(alloc, edition.entries())
}

/// The octets of the index of the edition that the command installs; none where it installs none. The only error is want of memory.
pub(crate) fn installed_index(alloc: Global, command: &Command) -> Result<Vec<u8>, AllocError>
    ensures { IfOk result (λ octets. octets.items ≡ index_by command.now) }
{
    match command {
        Command::Install { edition, .. } => index_of(alloc, edition),
        Command::Rollback { .. }
        | Command::Retire { .. }
        | Command::PutVirtual { .. }
        | Command::Place { .. } => Ok(Vec::new(alloc)),
    }
}

// How many parts a file has.
fn part_count(octets: &[u8]) -> usize
    ensures count { result ≡ length (parts_of octets.now) }
    ensures few { result ≤ 1125899906842624 }
{
    octets.len().div_ceil(PART_SIZE)
}

// The part of this number of a file of an edition.
fn part_of(edition: u64, file: i64, octets: &[u8], number: usize) -> Part<&[u8]>
    requires edition { FitsColumn edition }
    requires number { number < length (parts_of octets.now) }
    ensures { lent_part result ≡ part_at (pos edition) file number (slice_index_or (parts_of octets.now) number []) }
{
    part_count(octets);
    let Some(found) = part(octets, number) else {
        unreachable!();
    };
    Part {
        edition: edition as i64,
        file,
        number: number as i64,
        octets: found,
    }
}

/// The files of an edition under its number.
#[derive(Clone, Copy)]
pub(crate) struct EditionFiles<'a> {
    pub(crate) number: u64,
    pub(crate) index: &'a [u8],
    pub(crate) text: &'a [u8],
}

impl<'a> EditionFiles<'a> {
    /// How many parts both files have.
    pub(crate) fn part_count(&self) -> usize
        ensures { result ≡ length (parts_of_files self.now) }
    {
        part_count(self.index) + part_count(self.text)
    }

    /// The part at a place: those of the index come first.
    fn part(&self, place: usize) -> Part<&'a [u8]>
        requires number { FitsColumn self.now.number }
        requires place { place < length (parts_of_files self.now) }
        ensures { lent_part result ≡ slice_index_or (parts_of_files self.now) place (lent_part result) }
    {
        let before = part_count(self.index);
        part_count(self.text);
        if place < before {
            part_of(self.number, INDEX, self.index, place)
        } else {
            part_of(self.number, TEXT, self.text, place - before)
        }
    }
}

/// Adds the parts of the files of an edition from one place up to another.
pub(crate) fn add_parts<S: Alter, T: OpenTransaction<S>>(
    tx: &mut T,
    files: &EditionFiles<'_>,
    from: usize,
    to: usize,
) -> Result<(), Error>
    requires number { FitsColumn files.now.number }
    requires ordered { from ≤ to }
    requires within { to ≤ length (parts_of_files files.now) }
    requires usable { WhileOpen (state S.Store (T.held tx.old)) IsUsable }
    ensures same_reference { T.reference tx.new ≡ T.reference tx.old }
    ensures wrote { OnOk result (WroteStatements S.Store (map adding_part (slice_range (parts_of_files files.now) from to)) (with_more_parts (slice_range (parts_of_files files.now) from to)) (T.held tx.old) (T.held tx.new)) }
    ensures usable { OnOk result (WhileOpen (state S.Store (T.held tx.new)) IsUsable) }
    ensures failed { IfErr result (FailsToWrite S.Store (map adding_part (slice_range (parts_of_files files.now) from to)) (T.held tx.old) (T.held tx.new)) }
    ensures spares { CommitsNothing S.Store (T.held tx.old) (T.held tx.new) }
{
    for done in 0..to - from {
        let given = files.part(from + done);
        insert_part(tx, &given)?;
    }
    Ok(())
}
