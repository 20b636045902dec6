// All that one command writes, inside an open transaction.
ghost use Rattle.std.specs.Prelude.{◌≡◌, true, OnOk, Option, IfSome, map, option_copied, option_map, IfErr};
ghost use Rattle.std.specs.List.{AllByRecursion};
ghost use Rattle.sqlite.specs.Effect.{IsDatabase};
ghost use Rattle.sqlite.specs.State.{HasCleanDisk};
ghost use Rattle.sqlite.specs.Held.{state};
ghost use Rattle.store_tables.specs.Effects.{WhileOpen};
ghost use Rattle.dict_catalogue.specs.Items.{numbers_of};
ghost use Rattle.dict_catalogue.specs.Views.{item_shown, kept_shown};
ghost use Rattle.store_tables.specs.Typed.{lent_header};
ghost use Rattle.store_rows.specs.After.{Installed};
ghost use Rattle.store_rows.specs.Versions.{known};
ghost use Rattle.store_holdings.specs.AllTables.{all_after};
ghost use Rattle.store_commands.specs.KeptRecords.{IsUsable, FitsColumn, AreStorable};
ghost use Rattle.store_commands.specs.Statements.{summary_anew, replying, finishing, statements_of};
ghost use Rattle.store_commands.specs.Changes.{with_mark, with_items, with_members, with_reply, finished, installed_header, index_by, change_with, change_by, IsWritable};
ghost use Rattle.store_commands.specs.Writes.{WroteStatements, FailsToWrite, CommitsNothing};

use crate::editions::{add_header, add_installed, installed_header, take_editions};
use crate::small::{write_items, write_mark, write_members};
use dict_catalogue::{Command, Kept, PlannedChange, Summary};
use sqlite::{Alter, Error};
use store_rows::kept_row;
use store_sql::insert::insert_kept;
use store_tables::HeaderRecord;
use store_tables::transaction::OpenTransaction;

/// Writes the mark, the items and the members of a summary anew.
pub(crate) fn write_summary<S: Alter, T: OpenTransaction<S>>(
    tx: &mut T,
    summary: &Summary,
) -> Result<(), Error>
    requires installs { FitsColumn summary.now.installs }
    requires numbers { AllByRecursion (λ item. AreStorable (numbers_of (item_shown item))) summary.now.items.items }
    requires usable { WhileOpen (state S.Store (T.held tx.old)) IsUsable }
    ensures same_reference { T.reference tx.new ≡ T.reference tx.old }
    ensures wrote { OnOk result (WroteStatements S.Store (summary_anew known summary.now.installs (map item_shown summary.now.items.items)) (λ all. with_members (map item_shown summary.now.items.items) (with_items (map item_shown summary.now.items.items) (with_mark summary.now.installs all))) (T.held tx.old) (T.held tx.new)) }
    ensures usable { OnOk result (WhileOpen (state S.Store (T.held tx.new)) IsUsable) }
    ensures failed { IfErr result (FailsToWrite S.Store (summary_anew known summary.now.installs (map item_shown summary.now.items.items)) (T.held tx.old) (T.held tx.new)) }
    ensures spares { CommitsNothing S.Store (T.held tx.old) (T.held tx.new) }
{
    if let Err(error) = write_mark(tx, summary.installs) {
        return Err(error);
    }
    if let Err(error) = write_items(tx, &summary.items) {
        return Err(error);
    }
    write_members(tx, &summary.items)
}

/// Adds the reply that is kept for an id. It comes last, so it tells that the database is sound.
pub(crate) fn add_reply<S: Alter, T: OpenTransaction<S>>(
    tx: &mut T,
    id: &str,
    reply: &Kept,
) -> Result<(), Error>
    requires number { FitsColumn reply.now.number }
    requires edition { IfSome reply.now.edition FitsColumn }
    requires usable { WhileOpen (state S.Store (T.held tx.old)) IsUsable }
    ensures same_reference { T.reference tx.new ≡ T.reference tx.old }
    ensures wrote { OnOk result (WroteStatements S.Store (replying (record { id = id.now; reply = kept_shown reply.now })) (with_reply (record { id = id.now; reply = kept_shown reply.now })) (T.held tx.old) (T.held tx.new)) }
    ensures sound { HasCleanDisk (state S.Store (T.held tx.new)) → OnOk result (IsDatabase (state S.Store (T.held tx.new)).now) }
    ensures inside { HasCleanDisk (state S.Store (T.held tx.new)) → OnOk result ((state S.Store (T.held tx.new)).in_transaction ≡ true) }
    ensures failed { IfErr result (FailsToWrite S.Store (replying (record { id = id.now; reply = kept_shown reply.now })) (T.held tx.old) (T.held tx.new)) }
    ensures spares { CommitsNothing S.Store (T.held tx.old) (T.held tx.new) }
{
    let row = kept_row(id, reply);
    insert_kept(tx, &row)?;
    Ok(())
}

/// Writes what a planned command does behind the parts of its edition, whose record this is, if it installs one: the summary, the editions
/// that go, the record, and the reply for the id of its request.
pub(crate) fn write_rest<S: Alter, T: OpenTransaction<S>>(
    tx: &mut T,
    id: &str,
    change: &PlannedChange,
    header: Option<&HeaderRecord<&str>>,
) -> Result<(), Error>
    requires writable { IsWritable change.now }
    requires usable { WhileOpen (state S.Store (T.held tx.old)) IsUsable }
    ensures same_reference { T.reference tx.new ≡ T.reference tx.old }
    ensures wrote { (edition : Option Installed) → installed_header edition ≡ option_map lent_header (option_copied header.entry) → OnOk result (WroteStatements S.Store (finishing known (change_with id.now edition change.now)) (finished (change_with id.now edition change.now)) (T.held tx.old) (T.held tx.new)) }
    ensures sound { HasCleanDisk (state S.Store (T.held tx.new)) → OnOk result (IsDatabase (state S.Store (T.held tx.new)).now) }
    ensures inside { HasCleanDisk (state S.Store (T.held tx.new)) → OnOk result ((state S.Store (T.held tx.new)).in_transaction ≡ true) }
    ensures failed { (edition : Option Installed) → installed_header edition ≡ option_map lent_header (option_copied header.entry) → IfErr result (FailsToWrite S.Store (finishing known (change_with id.now edition change.now)) (T.held tx.old) (T.held tx.new)) }
    ensures spares { CommitsNothing S.Store (T.held tx.old) (T.held tx.new) }
{
    if let Err(error) = write_summary(tx, &change.summary) {
        return Err(error);
    }
    if let Err(error) = take_editions(tx, &change.gone) {
        return Err(error);
    }
    if let Err(error) = add_header(tx, header) {
        return Err(error);
    }
    add_reply(tx, id, &change.kept)
}

/// Writes all that a planned command does, where the index of the edition that it installs is these octets, and its reply for the
/// id of its request.
pub(crate) fn write_all<S: Alter, T: OpenTransaction<S>>(
    tx: &mut T,
    id: &str,
    command: &Command,
    change: &PlannedChange,
    index: &[u8],
) -> Result<(), Error>
    requires writable { IsWritable change.now }
    requires index { index.now ≡ index_by command.now }
    requires usable { WhileOpen (state S.Store (T.held tx.old)) IsUsable }
    ensures same_reference { T.reference tx.new ≡ T.reference tx.old }
    ensures wrote { OnOk result (WroteStatements S.Store (statements_of known (change_by id.now command.now change.now)) (all_after known (change_by id.now command.now change.now)) (T.held tx.old) (T.held tx.new)) }
    ensures sound { HasCleanDisk (state S.Store (T.held tx.new)) → OnOk result (IsDatabase (state S.Store (T.held tx.new)).now) }
    ensures inside { HasCleanDisk (state S.Store (T.held tx.new)) → OnOk result ((state S.Store (T.held tx.new)).in_transaction ≡ true) }
    ensures failed { IfErr result (FailsToWrite S.Store (statements_of known (change_by id.now command.now change.now)) (T.held tx.old) (T.held tx.new)) }
    ensures spares { CommitsNothing S.Store (T.held tx.old) (T.held tx.new) }
{
    if let Err(error) = add_installed(tx, change.summary.installs, command, index) {
        return Err(error);
    }
    let header = installed_header(change.summary.installs, command);
    write_rest(tx, id, change, header.as_ref())
}
