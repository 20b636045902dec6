// The editions that go, and the one that is installed.
ghost use Rattle.std.specs.Prelude.{◌≡◌, ◌≤◌, ◌<◌, true, false, [], ◌∷◌, None, IsTrue, IfErr, IfOk, IfSome, OnOk, Option, flat_map, length, map, option_copied, option_map, slice_range};
ghost use Rattle.sqlite.specs.Effect.{IsDatabase};
ghost use Rattle.sqlite.specs.State.{HasCleanDisk};
ghost use Rattle.sqlite.specs.Held.{state};
ghost use Rattle.store_tables.specs.Effects.{WhileOpen};
ghost use Rattle.store_tables.specs.Records.{header_of};
ghost use Rattle.store_tables.specs.Typed.{lent_header};
ghost use Rattle.dict_index.specs.Edition.{ReadEdition};
ghost use Rattle.store_rows.specs.After.{Installed, installed_editions};
ghost use Rattle.store_rows.specs.Written.{edition_record};
ghost use Rattle.store_commands.specs.KeptRecords.{IsUsable, FitsColumn, AreStorable};
ghost use Rattle.store_commands.specs.Statements.{taking, taking_parts, parts_anew, filing_of, adding_edition};
ghost use Rattle.store_commands.specs.Changes.{without_parts, with_parts_anew, without_editions, with_more_editions, with_files, installed_header, installed_by, index_by};
ghost use Rattle.store_commands.specs.Filing.{parts_of_files};
ghost use Rattle.store_commands.specs.Orphans.{TakesOut};
ghost use Rattle.store_commands.specs.Writes.{WroteStatements, FailsToWrite, CommitsNothing};

use crate::files::{EditionFiles, add_parts};
use dict_catalogue::Command;
use sqlite::{Alter, Error};
use store_sql::header_statements::{delete_header, insert_header};
use store_sql::part_statements::{delete_parts, delete_parts_from};
use store_tables::HeaderRecord;
use store_tables::transaction::OpenTransaction;

// A statement has all rows that it takes out in memory, so a text goes 128 parts, which are 2 MiB, at a time, and then an index does. Each of
// these is a file, 1 the text and 0 the index, and the number from which on its parts go, the last ones first.
pub(crate) const LAST_PARTS: &[(i64, i64)] = &[
    (1, 3968),
    (1, 3840),
    (1, 3712),
    (1, 3584),
    (1, 3456),
    (1, 3328),
    (1, 3200),
    (1, 3072),
    (1, 2944),
    (1, 2816),
    (1, 2688),
    (1, 2560),
    (1, 2432),
    (1, 2304),
    (1, 2176),
    (1, 2048),
    (1, 1920),
    (1, 1792),
    (1, 1664),
    (1, 1536),
    (1, 1408),
    (1, 1280),
    (1, 1152),
    (1, 1024),
    (1, 896),
    (1, 768),
    (1, 640),
    (1, 512),
    (1, 384),
    (1, 256),
    (1, 128),
    (1, 0),
    (0, 896),
    (0, 768),
    (0, 640),
    (0, 512),
    (0, 384),
    (0, 256),
    (0, 128),
];

// Whether so many parts are enough at a time. None are where no count is given.
fn are_enough(taken: usize, enough: Option<usize>) -> bool
    requires { IfSome enough (λ least. 0 < least) }
    ensures some { IsTrue result → 0 < taken }
    ensures none { enough ≡ None → result ≡ false }
{
    match enough {
        Some(least) => taken >= least,
        None => false,
    }
}

/// Takes out the parts of a file of this number from one of these bounds on after the other, until they are enough, as far as the store tells; or
/// all parts of the number. Whether there may be more.
pub(crate) fn take_slice<S: Alter, T: OpenTransaction<S>>(
    tx: &mut T,
    number: u64,
    bounds: &[(i64, i64)],
    enough: Option<usize>,
) -> Result<bool, Error>
    requires number { FitsColumn number }
    requires enough { IfSome enough (λ least. 0 < least) }
    requires usable { WhileOpen (state S.Store (T.held tx.old)) IsUsable }
    ensures same_reference { T.reference tx.new ≡ T.reference tx.old }
    ensures taken { IfOk result (λ more. TakesOut S.Store number bounds.now more (T.held tx.old) (T.held tx.new)) }
    ensures all { IfOk result (λ more. more ≡ false → WroteStatements S.Store (taking_parts number bounds.now) (without_parts (number ∷ [])) (T.held tx.old) (T.held tx.new)) }
    ensures whole { enough ≡ None → IfOk result (λ more. more ≡ false) }
    ensures usable { OnOk result (WhileOpen (state S.Store (T.held tx.new)) IsUsable) }
    ensures lives { HasCleanDisk (state S.Store (T.held tx.new)) → OnOk result (IsTrue (state S.Store (T.held tx.old)).is_open) }
    ensures sound { HasCleanDisk (state S.Store (T.held tx.new)) → OnOk result (IsDatabase (state S.Store (T.held tx.new)).now) }
    ensures inside { HasCleanDisk (state S.Store (T.held tx.new)) → OnOk result ((state S.Store (T.held tx.new)).in_transaction ≡ true) }
    ensures failed { IfErr result (FailsToWrite S.Store (taking_parts number bounds.now) (T.held tx.old) (T.held tx.new)) }
    ensures spares { CommitsNothing S.Store (T.held tx.old) (T.held tx.new) }
{
    let mut all = 0usize;
    'each: for (file, from) in bounds {
        let taken = delete_parts_from(tx, number as i64, *file, *from)?;
        all = all.saturating_add(taken);
        if are_enough(all, enough) {
            return Ok(true);
        }
    }
    delete_parts(tx, number as i64)?;
    Ok(false)
}

/// Takes out the parts of this number: those of a file from each of these on, one after the other, and then the rest.
pub(crate) fn take_parts<S: Alter, T: OpenTransaction<S>>(
    tx: &mut T,
    number: u64,
    parts: &[(i64, i64)],
) -> Result<(), Error>
    requires number { FitsColumn number }
    requires usable { WhileOpen (state S.Store (T.held tx.old)) IsUsable }
    ensures same_reference { T.reference tx.new ≡ T.reference tx.old }
    ensures wrote { OnOk result (WroteStatements S.Store (taking_parts number parts.now) (without_parts (number ∷ [])) (T.held tx.old) (T.held tx.new)) }
    ensures usable { OnOk result (WhileOpen (state S.Store (T.held tx.new)) IsUsable) }
    ensures failed { IfErr result (FailsToWrite S.Store (taking_parts number parts.now) (T.held tx.old) (T.held tx.new)) }
    ensures spares { CommitsNothing S.Store (T.held tx.old) (T.held tx.new) }
{
    take_slice(tx, number, parts, None)?;
    Ok(())
}

// Takes out the record of the edition of this number. Its parts are left, of no edition then.
fn take_edition<S: Alter, T: OpenTransaction<S>>(tx: &mut T, number: u64) -> Result<(), Error>
    requires number { FitsColumn number }
    requires usable { WhileOpen (state S.Store (T.held tx.old)) IsUsable }
    ensures same_reference { T.reference tx.new ≡ T.reference tx.old }
    ensures wrote { OnOk result (WroteStatements S.Store (taking number) (without_editions (number ∷ [])) (T.held tx.old) (T.held tx.new)) }
    ensures usable { OnOk result (WhileOpen (state S.Store (T.held tx.new)) IsUsable) }
    ensures failed { IfErr result (FailsToWrite S.Store (taking number) (T.held tx.old) (T.held tx.new)) }
    ensures spares { CommitsNothing S.Store (T.held tx.old) (T.held tx.new) }
{
    delete_header(tx, number as i64)?;
    Ok(())
}

/// Takes out the records of the editions of these numbers. Their parts are left, of no edition then.
pub(crate) fn take_editions<S: Alter, T: OpenTransaction<S>>(
    tx: &mut T,
    gone: &[u64],
) -> Result<(), Error>
    requires numbers { AreStorable gone.now }
    requires usable { WhileOpen (state S.Store (T.held tx.old)) IsUsable }
    ensures same_reference { T.reference tx.new ≡ T.reference tx.old }
    ensures wrote { OnOk result (WroteStatements S.Store (flat_map taking gone.now) (without_editions gone.now) (T.held tx.old) (T.held tx.new)) }
    ensures usable { OnOk result (WhileOpen (state S.Store (T.held tx.new)) IsUsable) }
    ensures failed { IfErr result (FailsToWrite S.Store (flat_map taking gone.now) (T.held tx.old) (T.held tx.new)) }
    ensures spares { CommitsNothing S.Store (T.held tx.old) (T.held tx.new) }
{
    'each: for number in gone {
        take_edition(tx, *number)?;
    }
    Ok(())
}

/// The record of an edition of this owner under its number, without its text.
pub(crate) fn header_row<'a>(
    owner: &'a str,
    number: u64,
    title: &'a str,
    info: &'a str,
) -> HeaderRecord<&'a str>
    requires { FitsColumn number }
    ensures { (reading : ReadEdition) → reading.title ≡ title.now → reading.info ≡ info.now → lent_header result ≡ header_of (edition_record owner.now number reading) }
{
    HeaderRecord {
        number: number as i64,
        owner,
        title,
        info,
    }
}

/// The record of the edition that the command installs, if it installs one, under its number.
pub(crate) fn installed_header<'a>(
    number: u64,
    command: &Command<'a>,
) -> Option<HeaderRecord<&'a str>>
    requires { FitsColumn number }
    ensures { installed_header (installed_by number command.now) ≡ option_map lent_header result }
{
    match command {
        Command::Install { name, edition } => {
            Some(header_row(name, number, edition.title(), edition.info()))
        }
        Command::Rollback { .. }
        | Command::Retire { .. }
        | Command::PutVirtual { .. }
        | Command::Place { .. } => None,
    }
}

/// Adds the record of the edition that is installed, if there is one.
pub(crate) fn add_header<S: Alter, T: OpenTransaction<S>>(
    tx: &mut T,
    header: Option<&HeaderRecord<&str>>,
) -> Result<(), Error>
    requires usable { WhileOpen (state S.Store (T.held tx.old)) IsUsable }
    ensures same_reference { T.reference tx.new ≡ T.reference tx.old }
    ensures wrote { (edition : Option Installed) → installed_header edition ≡ option_map lent_header (option_copied header.entry) → OnOk result (WroteStatements S.Store (map adding_edition (installed_editions edition)) (with_more_editions (installed_editions edition)) (T.held tx.old) (T.held tx.new)) }
    ensures usable { OnOk result (WhileOpen (state S.Store (T.held tx.new)) IsUsable) }
    ensures failed { (edition : Option Installed) → installed_header edition ≡ option_map lent_header (option_copied header.entry) → IfErr result (FailsToWrite S.Store (map adding_edition (installed_editions edition)) (T.held tx.old) (T.held tx.new)) }
    ensures spares { CommitsNothing S.Store (T.held tx.old) (T.held tx.new) }
{
    let Some(row) = header else {
        return Ok(());
    };
    insert_header(tx, row)?;
    Ok(())
}

/// Adds the first parts of the files of an edition, so many, in place of what parts stand under its number.
pub(crate) fn add_files<S: Alter, T: OpenTransaction<S>>(
    tx: &mut T,
    files: &EditionFiles<'_>,
    to: usize,
) -> Result<(), Error>
    requires number { FitsColumn files.now.number }
    requires within { to ≤ length (parts_of_files files.now) }
    requires usable { WhileOpen (state S.Store (T.held tx.old)) IsUsable }
    ensures same_reference { T.reference tx.new ≡ T.reference tx.old }
    ensures wrote { OnOk result (WroteStatements S.Store (parts_anew files.now.number (slice_range (parts_of_files files.now) 0 to)) (with_parts_anew files.now.number (slice_range (parts_of_files files.now) 0 to)) (T.held tx.old) (T.held tx.new)) }
    ensures usable { OnOk result (WhileOpen (state S.Store (T.held tx.new)) IsUsable) }
    ensures failed { IfErr result (FailsToWrite S.Store (parts_anew files.now.number (slice_range (parts_of_files files.now) 0 to)) (T.held tx.old) (T.held tx.new)) }
    ensures spares { CommitsNothing S.Store (T.held tx.old) (T.held tx.new) }
{
    take_parts(tx, files.number, LAST_PARTS)?;
    add_parts(tx, files, 0, to)
}

/// Adds all parts of the edition that the command installs, if it installs one, under its number, where its index is these octets.
pub(crate) fn add_installed<S: Alter, T: OpenTransaction<S>>(
    tx: &mut T,
    number: u64,
    command: &Command,
    index: &[u8],
) -> Result<(), Error>
    requires number { FitsColumn number }
    requires index { index.now ≡ index_by command.now }
    requires usable { WhileOpen (state S.Store (T.held tx.old)) IsUsable }
    ensures same_reference { T.reference tx.new ≡ T.reference tx.old }
    ensures wrote { OnOk result (WroteStatements S.Store (filing_of (installed_by number command.now)) (with_files (installed_by number command.now)) (T.held tx.old) (T.held tx.new)) }
    ensures usable { OnOk result (WhileOpen (state S.Store (T.held tx.new)) IsUsable) }
    ensures failed { IfErr result (FailsToWrite S.Store (filing_of (installed_by number command.now)) (T.held tx.old) (T.held tx.new)) }
    ensures spares { CommitsNothing S.Store (T.held tx.old) (T.held tx.new) }
{
    match command {
        Command::Install { edition, .. } => {
            let files = EditionFiles {
                number,
                index,
                text: edition.text(),
            };
            add_files(tx, &files, files.part_count())
        }
        Command::Rollback { .. }
        | Command::Retire { .. }
        | Command::PutVirtual { .. }
        | Command::Place { .. } => Ok(()),
    }
}
