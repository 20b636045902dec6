// Parts of no edition, taken out some at a time.
ghost use Rattle.std.specs.Prelude.{◌≡◌, ◌≢◌, ◌<◌, true, false, IsTrue, Some, IfErr, IfOk, IfSome, OnErr, OnOk};
ghost use Rattle.std.specs.List.{AllByRecursion};
ghost use Rattle.sqlite.specs.Disk.{MoreFaults};
ghost use Rattle.sqlite.specs.State.{HasCleanDisk, Survives};
ghost use Rattle.sqlite.specs.Held.{state};
ghost use Rattle.store_tables.specs.Effects.{WhileOpen};
ghost use Rattle.dict_catalogue.specs.Items.{numbers_of};
ghost use Rattle.dict_catalogue.specs.Views.{item_shown, summary_shown};
ghost use Rattle.store_commands.specs.KeptRecords.{IsUsable, FitsColumn};
ghost use Rattle.store_holdings.specs.Committed.{IsCommitted, IsTreesOf};
ghost use Rattle.store_commands.specs.Committed.{IsOfStore, StaysCommitted};
ghost use Rattle.store_commands.specs.Answers.{HoldsBy};
ghost use Rattle.store_commands.specs.Marking.{Remains};
ghost use Rattle.store_commands.specs.Orphans.{LosesParts, HasNoParts, FailsToTakeOut, FailsToTakeOrphans, rows_left_under};

use crate::editions::{LAST_PARTS, take_slice};
use crate::parts::fault_filed;
use dict_catalogue::{Item, Summary};
use dict_desk::Fault;
use sqlite::{Alter, Connection};
use store_tables::commit::commit;

// One commit takes out so many parts at least, where there are as many, and 128 more at most.
const ENOUGH: usize = 64;

// Whether the item has an edition of this number.
fn item_has(item: &Item, number: u64) -> bool
    ensures { result ≡ false → AllByRecursion (λ one. one ≢ number) (numbers_of (item_shown item.now)) }
{
    match item {
        Item::Regular {
            current,
            former,
            ..
        } => match former {
            Some(former) => current.number == number || former.number == number,
            None => current.number == number,
        },
        Item::Virtual { .. } => false,
    }
}

// Whether one of the items has one.
fn has_number(items: &[Item], number: u64) -> bool
    ensures { result ≡ false → AllByRecursion (λ item. AllByRecursion (λ one. one ≢ number) (numbers_of (item_shown item))) items.now }
{
    for item in items {
        if item_has(item, number) {
            return true;
        }
    }
    false
}

// Takes out a slice of the parts of this number by one commit.
fn commit_slice<S: Alter>(conn: &mut Connection<S>, number: u64) -> Result<bool, Option<Fault>>
    requires autocommit { conn.old.in_transaction ≡ false }
    requires number { FitsColumn number }
    requires usable { WhileOpen (state S.Store conn.old) IsUsable }
    ensures made { HasCleanDisk (state S.Store conn.new) → OnOk result (IsCommitted (λ db. IsTrue (state S.Store conn.old).is_open × LosesParts number (state S.Store conn.old).now db) (state S.Store conn.new)) }
    ensures fewer { HasCleanDisk (state S.Store conn.new) → IfOk result (λ more. more ≡ true → rows_left_under number (state S.Store conn.new).committed < rows_left_under number (state S.Store conn.old).now) }
    ensures cleared { HasCleanDisk (state S.Store conn.new) → IfOk result (λ more. more ≡ false → HasNoParts number (state S.Store conn.new).committed) }
    ensures stays { HasCleanDisk (state S.Store conn.new) → OnErr result (StaysCommitted (state S.Store conn.old) (state S.Store conn.new)) }
    ensures lives { HasCleanDisk (state S.Store conn.new) → IsTrue (state S.Store conn.new).is_open → IsTrue (state S.Store conn.old).is_open }
    ensures failed { HasCleanDisk (state S.Store conn.new) → IfErr result (FailsToTakeOut S.Store number conn.old conn.new) }
    ensures faulted { HasCleanDisk (state S.Store conn.new) → IfErr result (λ why. why ≡ Some Fault.Disk → MoreFaults (state S.Store conn.old).faults (state S.Store conn.new).faults) }
    ensures kinds { IfErr result (λ why. IfSome why IsOfStore) }
    ensures autocommit { (state S.Store conn.new).in_transaction ≡ false }
    ensures crash { Survives (state S.Store conn.old) (state S.Store conn.new) (IsTreesOf (λ db. IsTrue (state S.Store conn.old).is_open × LosesParts number (state S.Store conn.old).now db)) }
{
    let mut tx = conn.transaction();
    let more = match take_slice(&mut tx, number, LAST_PARTS, Some(ENOUGH)) {
        Ok(more) => more,
        Err(error) => return Err(fault_filed(error)),
    };
    match commit(tx) {
        Ok(()) => Ok(more),
        Err(error) => Err(fault_filed(error)),
    }
}

/// Takes out some parts of this number by one commit, where no edition of the summary has it: parts of an edition that went, or of one that
/// never came. From its last part on a text goes some 128 parts, which are 2 MiB, at a time, and then an index does: a commit takes 64 to 191,
/// where there are as many. It answers whether there may be more, and fewer are left then than before; else none is left. Each catalogue of this summary that was held is held
/// still, and a stop leaves no other.
///
/// At an error what was committed is so still. `Memory` tells that a growth was refused, `Disk` that the disk failed. None tells that a
/// statement was refused, that the store was shut before, that an edition has the number, or that no column holds it.
pub fn take_orphans<S: Alter>(
    conn: &mut Connection<S>,
    summary: &Summary,
    number: u64,
) -> Result<bool, Option<Fault>>
    requires autocommit { conn.old.in_transaction ≡ false }
    requires holds { HoldsBy (summary_shown summary.now) (state S.Store conn.old) }
    ensures made { HasCleanDisk (state S.Store conn.new) → OnOk result (IsCommitted (Remains (summary_shown summary.now) (state S.Store conn.old).committed) (state S.Store conn.new)) }
    ensures fewer { HasCleanDisk (state S.Store conn.new) → IfOk result (λ more. more ≡ true → rows_left_under number (state S.Store conn.new).committed < rows_left_under number (state S.Store conn.old).committed) }
    ensures cleared { HasCleanDisk (state S.Store conn.new) → IfOk result (λ more. more ≡ false → HasNoParts number (state S.Store conn.new).committed) }
    ensures stays { HasCleanDisk (state S.Store conn.new) → OnErr result (StaysCommitted (state S.Store conn.old) (state S.Store conn.new)) }
    ensures lives { HasCleanDisk (state S.Store conn.new) → IsTrue (state S.Store conn.new).is_open → IsTrue (state S.Store conn.old).is_open }
    ensures failed { HasCleanDisk (state S.Store conn.new) → IfErr result (FailsToTakeOrphans S.Store number conn.old conn.new) }
    ensures faulted { HasCleanDisk (state S.Store conn.new) → IfErr result (λ why. why ≡ Some Fault.Disk → MoreFaults (state S.Store conn.old).faults (state S.Store conn.new).faults) }
    ensures kinds { IfErr result (λ why. IfSome why IsOfStore) }
    ensures autocommit { (state S.Store conn.new).in_transaction ≡ false }
    ensures crash { Survives (state S.Store conn.old) (state S.Store conn.new) (λ trees. IsTrue (state S.Store conn.old).is_open × IsTreesOf (Remains (summary_shown summary.now) (state S.Store conn.old).committed) trees) }
{
    if number > i64::MAX as u64 || has_number(&summary.items, number) {
        return Err(None);
    }
    commit_slice(conn, number)
}
