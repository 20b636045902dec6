// The files of an edition, each read part by part.
ghost use Rattle.std.specs.Prelude.{◌≡◌, IfOk, IfErr, OnOk};
ghost use Rattle.sqlite.specs.State.{HasCleanDisk};
ghost use Rattle.sqlite.specs.Held.{state};
ghost use Rattle.store_tables.specs.Effects.{Has, WhileOpen};
ghost use Rattle.store_sql.specs.PartRecords.{part_columns, stored_part};
ghost use Rattle.store_sql.specs.PartTable.{part};
ghost use Rattle.store_scans.specs.Cursors.Cursor.{PartsOf};
ghost use Rattle.store_scans.specs.Files.{HasFile, HasNoFile, TakesParts, RefusesParts};
ghost use Rattle.store_scans.specs.Reading.{Same, OnlyReads, IsExcusedReading};
ghost use Rattle.store_scans.specs.Scans.{TakesAll, IsWrong};
ghost use Rattle.store_scans.specs.TakerLaws.{no_parts};

use crate::fault::{ReadingFault, fault_of_store};
use crate::scan::{Taker, take_all};
use sqlite::{Alter, Connection};
use std::alloc::Global;
use store_rows::{Joiner, Refused, RowsFault, number_in};
use store_sql::part_records::StoredPart;
use store_sql::part_scan::read_parts_of;

/// The file of an edition that its index is.
pub const INDEX_FILE: i64 = 0;

/// The file of an edition that its text is.
pub const TEXT_FILE: i64 = 1;

// The fault that a refusal of a part is.
fn fault_of_part(refused: Refused) -> RowsFault
    ensures { (result ≡ RowsFault.Damaged → refused ≡ Refused.Wrong) }
{
    match refused {
        Refused::Wrong => RowsFault::Damaged,
        Refused::Memory => RowsFault::Memory,
    }
}

/// The parts of a file, in the order of their numbers, which come from 0 on.
impl Taker<StoredPart> for Joiner {
    ghost takes = { TakesParts };

    ghost refuses = { RefusesParts };

    fn take(&mut self, _: Global, next: StoredPart) -> Result<(), RowsFault> {
        let Some(number) = number_in(&next.part.number) else {
            return Err(RowsFault::Damaged);
        };
        match self.push(number, &next.part.octets) {
            Ok(()) => Ok(()),
            Err(refused) => Err(fault_of_part(refused)),
        }
    }

    ghost none = { no_parts };
}

// Joins the parts of this file of the edition to what was joined.
fn join_parts<S: Alter>(
    alloc: Global,
    conn: &mut Connection<S>,
    number: i64,
    file: i64,
    joiner: &mut Joiner,
) -> Result<(), ReadingFault>
    requires { WhileOpen (state S.Store conn.old) (Has part) }
    ensures reads { OnlyReads (state S.Store conn.old) (state S.Store conn.new) }
    ensures failed { HasCleanDisk (state S.Store conn.new) → IfErr result (IsExcusedReading (state S.Store conn.old) (state S.Store conn.new)) }
    ensures same { HasCleanDisk (state S.Store conn.new) → OnOk result (Same (state S.Store conn.old) (state S.Store conn.new)) }
    ensures whole { HasCleanDisk (state S.Store conn.new) → OnOk result (TakesAll stored_part TakesParts (PartsOf number file) (state S.Store conn.old).now joiner.old joiner.new) }
    ensures damaged { HasCleanDisk (state S.Store conn.new) → IfErr result (λ fault. fault ≡ ReadingFault.Damaged → IsWrong stored_part part_columns RefusesParts (PartsOf number file) (state S.Store conn.old).now joiner.old) }
{
    let mut rows = match read_parts_of(conn, number, file) {
        Ok(rows) => rows,
        Err(error) => return Err(fault_of_store(error)),
    };
    take_all::<S, StoredPart, Joiner>(alloc, &mut rows, joiner)
}

/// The octets of this file of the edition, which has this number. An edition without parts of it has none.
///
/// `Damaged` tells that its parts are those of no octets: one is missing before the last, or has another size than a part has there.
pub fn read_file<S: Alter>(
    alloc: Global,
    conn: &mut Connection<S>,
    number: i64,
    file: i64,
) -> Result<Vec<u8>, ReadingFault>
    requires { WhileOpen (state S.Store conn.old) (Has part) }
    ensures reads { OnlyReads (state S.Store conn.old) (state S.Store conn.new) }
    ensures failed { HasCleanDisk (state S.Store conn.new) → IfErr result (IsExcusedReading (state S.Store conn.old) (state S.Store conn.new)) }
    ensures same { HasCleanDisk (state S.Store conn.new) → OnOk result (Same (state S.Store conn.old) (state S.Store conn.new)) }
    ensures whole { HasCleanDisk (state S.Store conn.new) → IfOk result (λ octets. HasFile (state S.Store conn.old).now number file octets.items) }
    ensures damaged { HasCleanDisk (state S.Store conn.new) → IfErr result (λ fault. fault ≡ ReadingFault.Damaged → HasNoFile (state S.Store conn.old).now number file) }
{
    let mut joiner = Joiner::new(alloc);
    join_parts(alloc, conn, number, file, &mut joiner)?;
    Ok(joiner.into_bytes())
}
