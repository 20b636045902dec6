// The records of a scan, taken one after another.
ghost use Rattle.std.specs.Prelude.{◌≡◌, true, false, List, [], ◌∷◌, ◌++◌, map, IfErr, OnOk, Ok};
ghost use Rattle.sqlite.specs.State.{HasCleanDisk, Survives};
ghost use Rattle.sqlite.specs.Order.{Row as SqlRow};
ghost use Rattle.sqlite.specs.Held.{state};
ghost use Rattle.store_scans.specs.Cursors.{Cursor, CursorHasGiven, IsScannedToEnd};
ghost use Rattle.store_scans.specs.Reading.{Same, StaysUnlessShut, IsExcusedReading};
ghost use Rattle.store_scans.specs.Scans.{TakesSo, TakesAll, IsWrong};

use crate::fault::{ReadingFault, fault_of_read, fault_of_rows};
use sqlite::{Alter, Rows};
use std::alloc::Global;
use store_rows::RowsFault;
use store_sql::records::Record;
use store_sql::stream::next_record;

/// What takes records, one after another.
pub trait Taker<R> {
    // from the first state these records were taken, which left the second
    ghost takes: { Self → List R → Self → Type 0 };

    // from this state the last of these records isn't taken
    ghost refuses: { Self → List R → Type 0 };

    /// Takes a record.
    fn take(&mut self, alloc: Global, next: R) -> Result<(), RowsFault>
        ensures taken { OnOk result ((first : Self) (given : List R) → takes first given self.old → takes first (given ++ next ∷ []) self.new) }
        ensures refused { IfErr result (λ fault. fault ≡ RowsFault.Damaged → (first : Self) (given : List R) → takes first given self.old → refuses first (given ++ next ∷ [])) };

    ghost none: { (taker : Self) → takes taker [] taker };
}

// Takes the next record, and tells whether there was one.
fn take_next<S: Alter, R: Record + Drop, T: Taker<R>>(
    alloc: Global,
    rows: &mut Rows<'_, S>,
    taker: &mut T,
) -> Result<bool, ReadingFault>
    ensures same_reference { rows.new.conn.ghost_name ≡ rows.old.conn.ghost_name }
    ensures mode { rows.old.conn.now.in_transaction ≡ false → rows.new.conn.now.in_transaction ≡ false }
    ensures survives { Survives (state S.Store rows.old.conn.now) (state S.Store rows.new.conn.now) (λ _. ⊥) }
    ensures failed { HasCleanDisk (state S.Store rows.new.conn.now) → IfErr result (λ fault. (what : Cursor) (given : List SqlRow) → CursorHasGiven S.Store what rows.old.conn.now given → IsExcusedReading (state S.Store rows.old.conn.now) (state S.Store rows.new.conn.now) fault) }
    ensures stays { HasCleanDisk (state S.Store rows.new.conn.now) → (what : Cursor) (given : List SqlRow) → CursorHasGiven S.Store what rows.old.conn.now given → StaysUnlessShut (state S.Store rows.old.conn.now) (state S.Store rows.new.conn.now) }
    ensures same { HasCleanDisk (state S.Store rows.new.conn.now) → OnOk result (Same (state S.Store rows.old.conn.now) (state S.Store rows.new.conn.now)) }
    ensures more { HasCleanDisk (state S.Store rows.new.conn.now) → result ≡ Ok true → (what : Cursor) (first : T) (given : List R) → TakesSo S.Store R.Record.stored T.takes what first given rows.old.conn.now taker.old →
        (record' : R) × TakesSo S.Store R.Record.stored T.takes what first (given ++ record' ∷ []) rows.new.conn.now taker.new }
    ensures whole { HasCleanDisk (state S.Store rows.new.conn.now) → result ≡ Ok false → (what : Cursor) (first : T) (given : List R) → TakesSo S.Store R.Record.stored T.takes what first given rows.old.conn.now taker.old →
        IsScannedToEnd what (state S.Store rows.old.conn.now).now (map R.Record.stored given) × T.takes first given taker.new }
    ensures damaged { HasCleanDisk (state S.Store rows.new.conn.now) → IfErr result (λ fault. fault ≡ ReadingFault.Damaged → (what : Cursor) (first : T) (given : List R) → TakesSo S.Store R.Record.stored T.takes what first given rows.old.conn.now taker.old →
        IsWrong R.Record.stored R.Record.columns T.refuses what (state S.Store rows.old.conn.now).now first) }
{
    let record = match next_record::<S, R>(rows) {
        Ok(record) => record,
        Err(error) => return Err(fault_of_read(error)),
    };
    let Some(record) = record else {
        return Ok(false);
    };
    match taker.take(alloc, record) {
        Ok(()) => Ok(true),
        Err(fault) => Err(fault_of_rows(fault)),
    }
}

/// Takes all records of a scan that was begun.
pub fn take_all<S: Alter, R: Record + Drop, T: Taker<R>>(
    alloc: Global,
    rows: &mut Rows<'_, S>,
    taker: &mut T,
) -> Result<(), ReadingFault>
    ensures same_reference { rows.new.conn.ghost_name ≡ rows.old.conn.ghost_name }
    ensures mode { rows.old.conn.now.in_transaction ≡ false → rows.new.conn.now.in_transaction ≡ false }
    ensures survives { Survives (state S.Store rows.old.conn.now) (state S.Store rows.new.conn.now) (λ _. ⊥) }
    ensures failed { HasCleanDisk (state S.Store rows.new.conn.now) → IfErr result (λ fault. (what : Cursor) → CursorHasGiven S.Store what rows.old.conn.now [] → IsExcusedReading (state S.Store rows.old.conn.now) (state S.Store rows.new.conn.now) fault) }
    ensures stays { HasCleanDisk (state S.Store rows.new.conn.now) → (what : Cursor) → CursorHasGiven S.Store what rows.old.conn.now [] → StaysUnlessShut (state S.Store rows.old.conn.now) (state S.Store rows.new.conn.now) }
    ensures same { HasCleanDisk (state S.Store rows.new.conn.now) → OnOk result (Same (state S.Store rows.old.conn.now) (state S.Store rows.new.conn.now)) }
    ensures whole { HasCleanDisk (state S.Store rows.new.conn.now) → OnOk result ((what : Cursor) → CursorHasGiven S.Store what rows.old.conn.now [] → TakesAll R.Record.stored T.takes what (state S.Store rows.old.conn.now).now taker.old taker.new) }
    ensures damaged { HasCleanDisk (state S.Store rows.new.conn.now) → IfErr result (λ fault. fault ≡ ReadingFault.Damaged → (what : Cursor) → CursorHasGiven S.Store what rows.old.conn.now [] → IsWrong R.Record.stored R.Record.columns T.refuses what (state S.Store rows.old.conn.now).now taker.old) }
{
    'rows: for _turn in 0..u64::MAX {
        if !take_next::<S, R, T>(alloc, rows, taker)? {
            return Ok(());
        }
    }
    Err(ReadingFault::Disk)
}
