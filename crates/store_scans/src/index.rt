// The index of an edition, read line by line.
ghost use Rattle.std.specs.Prelude.{◌≡◌, ◌++◌, ℕ, pos, List, map, IfErr, OnOk};
ghost use Rattle.std.specs.List.{AllByRecursion};
ghost use Rattle.dict_index.specs.Line.{Line};
ghost use Rattle.store_rows.specs.Stored.{IsStorable, stored_index};
ghost use Rattle.store_tables.specs.Records.{EntryRecord as AnEntry};
ghost use Rattle.store_scans.specs.Entries.{AreNextTaken, IsStoredIndexOf, IsWrongIndex};
ghost use Rattle.store_scans.specs.IndexingReader.{AreLinesAdded};
ghost use Rattle.store_scans.specs.Indexing.{indexed_of};

use crate::indexing_reader::IndexingReader;
use std::alloc::Global;
use store_rows::{RowsFault, number_in, read_line};

// Takes the lines of the edition that was taken last, and adds their entries to the index in memory.
fn read_lines(alloc: Global, octets: &[u8], reader: &mut IndexingReader) -> Result<(), RowsFault>
    ensures read { OnOk result ((lines : List Line) × AllByRecursion IsStorable lines × (octets.now ≡ stored_index lines) × AreLinesAdded reader.old reader.new lines) }
    ensures damaged { IfErr result (λ fault. fault ≡ RowsFault.Damaged → IsWrongIndex reader.old.reader octets.now) }
{
    let mut rest = octets;
    'lines: while !rest.is_empty() {
        let Some((line, behind)) = read_line(rest) else {
            return Err(RowsFault::Damaged);
        };
        reader.line(alloc, &line)?;
        rest = behind;
    }
    Ok(())
}

/// Takes the entries of the edition that was taken last, which has this number, from the octets of its index, and adds them to the
/// index in memory.
///
/// `Damaged` tells that they are no lines as they are stored, or such as no edition has.
pub fn read_index(
    alloc: Global,
    number: i64,
    octets: &[u8],
    reader: &mut IndexingReader,
) -> Result<(), RowsFault>
    ensures read { OnOk result ((all : List AnEntry) × IsStoredIndexOf number octets.now all × AreNextTaken number reader.old.reader reader.new.reader all × (reader.new.index ≡ reader.old.index ++ map indexed_of all)) }
    ensures damaged { IfErr result (λ fault. fault ≡ RowsFault.Damaged → (n : ℕ) → number ≡ pos n → IsWrongIndex reader.old.reader octets.now) }
{
    let Some(_number) = number_in(&number) else {
        return Err(RowsFault::Damaged);
    };
    read_lines(alloc, octets, reader)
}
