// The small tables, which are written anew where they change.
ghost use Rattle.std.specs.Prelude.{◌≡◌, true, IfErr, OnOk, map};
ghost use Rattle.std.specs.List.{AllByRecursion};
ghost use Rattle.sqlite.specs.Effect.{IsDatabase};
ghost use Rattle.sqlite.specs.State.{HasCleanDisk};
ghost use Rattle.sqlite.specs.Held.{state};
ghost use Rattle.store_tables.specs.Effects.{WhileOpen};
ghost use Rattle.dict_catalogue.specs.Items.{name_of, members_of, numbers_of};
ghost use Rattle.dict_catalogue.specs.Views.{item_shown, texts_shown};
ghost use Rattle.store_rows.specs.Written.{numbered, item_record, member_record};
ghost use Rattle.store_rows.specs.After.{all_members};
ghost use Rattle.store_rows.specs.Versions.{known};
ghost use Rattle.store_commands.specs.KeptRecords.{IsUsable, FitsColumn, AreStorable};
ghost use Rattle.store_commands.specs.Statements.{adding_item, adding_member, mark_anew, items_anew, members_anew};
ghost use Rattle.store_commands.specs.Changes.{with_mark, with_items, with_members, with_more_items, with_more_members};
ghost use Rattle.store_commands.specs.Writes.{WroteStatements, FailsToWrite, CommitsNothing};

use dict_catalogue::Item;
use sqlite::{Alter, Error};
use store_rows::{KNOWN_VERSION, item_row, mark_row, member_row};
use store_sql::delete::clear_table;
use store_sql::insert::{insert_item, insert_mark, insert_member};
use store_tables::StoreTable;
use store_tables::transaction::OpenTransaction;

/// Writes the mark anew, with the count of installs.
pub(crate) fn write_mark<S: Alter, T: OpenTransaction<S>>(
    tx: &mut T,
    installs: u64,
) -> Result<(), Error>
    requires storable { FitsColumn installs }
    requires usable { WhileOpen (state S.Store (T.held tx.old)) IsUsable }
    ensures same_reference { T.reference tx.new ≡ T.reference tx.old }
    ensures wrote { OnOk result (WroteStatements S.Store (mark_anew known installs) (with_mark installs) (T.held tx.old) (T.held tx.new)) }
    ensures sound { HasCleanDisk (state S.Store (T.held tx.new)) → OnOk result (IsDatabase (state S.Store (T.held tx.new)).now) }
    ensures inside { HasCleanDisk (state S.Store (T.held tx.new)) → OnOk result ((state S.Store (T.held tx.new)).in_transaction ≡ true) }
    ensures usable { OnOk result (WhileOpen (state S.Store (T.held tx.new)) IsUsable) }
    ensures failed { IfErr result (FailsToWrite S.Store (mark_anew known installs) (T.held tx.old) (T.held tx.new)) }
    ensures spares { CommitsNothing S.Store (T.held tx.old) (T.held tx.new) }
{
    clear_table(tx, StoreTable::Mark)?;
    let mark = mark_row(KNOWN_VERSION, installs);
    insert_mark(tx, &mark)?;
    Ok(())
}

// Adds the records of items, each at its place.
fn add_items<S: Alter, T: OpenTransaction<S>>(tx: &mut T, items: &[Item]) -> Result<(), Error>
    requires numbers { AllByRecursion (λ item. AreStorable (numbers_of (item_shown item))) items.now }
    requires usable { WhileOpen (state S.Store (T.held tx.old)) IsUsable }
    ensures same_reference { T.reference tx.new ≡ T.reference tx.old }
    ensures wrote { OnOk result (WroteStatements S.Store (map adding_item (numbered item_record 0 (map item_shown items.now))) (with_more_items (numbered item_record 0 (map item_shown items.now))) (T.held tx.old) (T.held tx.new)) }
    ensures usable { OnOk result (WhileOpen (state S.Store (T.held tx.new)) IsUsable) }
    ensures failed { IfErr result (FailsToWrite S.Store (map adding_item (numbered item_record 0 (map item_shown items.now))) (T.held tx.old) (T.held tx.new)) }
    ensures spares { CommitsNothing S.Store (T.held tx.old) (T.held tx.new) }
{
    for (place, item) in items.iter().enumerate() {
        let row = item_row(place as u64, item);
        insert_item(tx, &row)?;
    }
    Ok(())
}

/// Writes the items anew, in their order.
pub(crate) fn write_items<S: Alter, T: OpenTransaction<S>>(
    tx: &mut T,
    items: &[Item],
) -> Result<(), Error>
    requires numbers { AllByRecursion (λ item. AreStorable (numbers_of (item_shown item))) items.now }
    requires usable { WhileOpen (state S.Store (T.held tx.old)) IsUsable }
    ensures same_reference { T.reference tx.new ≡ T.reference tx.old }
    ensures wrote { OnOk result (WroteStatements S.Store (items_anew (map item_shown items.now)) (with_items (map item_shown items.now)) (T.held tx.old) (T.held tx.new)) }
    ensures usable { OnOk result (WhileOpen (state S.Store (T.held tx.new)) IsUsable) }
    ensures failed { IfErr result (FailsToWrite S.Store (items_anew (map item_shown items.now)) (T.held tx.old) (T.held tx.new)) }
    ensures spares { CommitsNothing S.Store (T.held tx.old) (T.held tx.new) }
{
    clear_table(tx, StoreTable::Item)?;
    add_items(tx, items)
}

// Adds the records of the members of this owner, each at its place.
fn add_members<S: Alter, T: OpenTransaction<S>>(
    tx: &mut T,
    owner: &str,
    members: &[String],
) -> Result<(), Error>
    requires usable { WhileOpen (state S.Store (T.held tx.old)) IsUsable }
    ensures same_reference { T.reference tx.new ≡ T.reference tx.old }
    ensures wrote { OnOk result (WroteStatements S.Store (map adding_member (numbered (member_record owner.now) 0 (texts_shown members.now))) (with_more_members (numbered (member_record owner.now) 0 (texts_shown members.now))) (T.held tx.old) (T.held tx.new)) }
    ensures usable { OnOk result (WhileOpen (state S.Store (T.held tx.new)) IsUsable) }
    ensures failed { IfErr result (FailsToWrite S.Store (map adding_member (numbered (member_record owner.now) 0 (texts_shown members.now))) (T.held tx.old) (T.held tx.new)) }
    ensures spares { CommitsNothing S.Store (T.held tx.old) (T.held tx.new) }
{
    for (ord, name) in members.iter().enumerate() {
        let row = member_row(owner, ord as u64, name);
        insert_member(tx, &row)?;
    }
    Ok(())
}

// Adds the records of the item's members; a regular item has none.
fn add_members_of<S: Alter, T: OpenTransaction<S>>(tx: &mut T, item: &Item) -> Result<(), Error>
    requires usable { WhileOpen (state S.Store (T.held tx.old)) IsUsable }
    ensures same_reference { T.reference tx.new ≡ T.reference tx.old }
    ensures wrote { OnOk result (WroteStatements S.Store (map adding_member (numbered (member_record (name_of (item_shown item.now))) 0 (members_of (item_shown item.now)))) (with_more_members (numbered (member_record (name_of (item_shown item.now))) 0 (members_of (item_shown item.now)))) (T.held tx.old) (T.held tx.new)) }
    ensures usable { OnOk result (WhileOpen (state S.Store (T.held tx.new)) IsUsable) }
    ensures failed { IfErr result (FailsToWrite S.Store (map adding_member (numbered (member_record (name_of (item_shown item.now))) 0 (members_of (item_shown item.now)))) (T.held tx.old) (T.held tx.new)) }
    ensures spares { CommitsNothing S.Store (T.held tx.old) (T.held tx.new) }
{
    match item {
        Item::Regular { .. } => Ok(()),
        Item::Virtual { name, members, .. } => add_members(tx, name, members),
    }
}

// Adds the records of the members of all items, owner after owner.
fn add_all_members<S: Alter, T: OpenTransaction<S>>(tx: &mut T, items: &[Item]) -> Result<(), Error>
    requires usable { WhileOpen (state S.Store (T.held tx.old)) IsUsable }
    ensures same_reference { T.reference tx.new ≡ T.reference tx.old }
    ensures wrote { OnOk result (WroteStatements S.Store (map adding_member (all_members (map item_shown items.now))) (with_more_members (all_members (map item_shown items.now))) (T.held tx.old) (T.held tx.new)) }
    ensures usable { OnOk result (WhileOpen (state S.Store (T.held tx.new)) IsUsable) }
    ensures failed { IfErr result (FailsToWrite S.Store (map adding_member (all_members (map item_shown items.now))) (T.held tx.old) (T.held tx.new)) }
    ensures spares { CommitsNothing S.Store (T.held tx.old) (T.held tx.new) }
{
    'each: for item in items {
        add_members_of(tx, item)?;
    }
    Ok(())
}

/// Writes the members of all items anew, owner after owner.
pub(crate) fn write_members<S: Alter, T: OpenTransaction<S>>(
    tx: &mut T,
    items: &[Item],
) -> Result<(), Error>
    requires usable { WhileOpen (state S.Store (T.held tx.old)) IsUsable }
    ensures same_reference { T.reference tx.new ≡ T.reference tx.old }
    ensures wrote { OnOk result (WroteStatements S.Store (members_anew (map item_shown items.now)) (with_members (map item_shown items.now)) (T.held tx.old) (T.held tx.new)) }
    ensures usable { OnOk result (WhileOpen (state S.Store (T.held tx.new)) IsUsable) }
    ensures failed { IfErr result (FailsToWrite S.Store (members_anew (map item_shown items.now)) (T.held tx.old) (T.held tx.new)) }
    ensures spares { CommitsNothing S.Store (T.held tx.old) (T.held tx.new) }
{
    clear_table(tx, StoreTable::Member)?;
    add_all_members(tx, items)
}
