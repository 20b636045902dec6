// The text of an entry, out of the parts of the text of its edition: those that are kept, and the others in the database.
ghost use Rattle.std.specs.Prelude.{◌≡◌, ◌<◌, ◌≤◌, ◌+◌, ◌-◌, ◌^◌, ◌++◌, ℕ, [], List, length, take, drop, slice_index_or, IfOk, OnOk};
ghost use Rattle.std.specs.Map.{lookup, remove_entry};
ghost use Rattle.sqlite.specs.State.{HasCleanDisk};
ghost use Rattle.sqlite.specs.Held.{state};
ghost use Rattle.store_tables.specs.Effects.{Has, WhileOpen};
ghost use Rattle.store_sql.specs.PartTable.{part as part_table};
ghost use Rattle.store_rows.specs.Parts.{parts_of};
ghost use Rattle.store_holdings.specs.HeldTexts.{HoldsText};
ghost use Rattle.store_holdings.specs.KeptTexts.{same_key};
ghost use Rattle.store_holdings.specs.Searches.{ReadsStore, FailsToReadUnder};
ghost use Rattle.store_holdings.specs.CutTexts.{HasText, MayKeep, IsAtMostRead, FailsToFind, KeepsParts};
ghost use Rattle.store_holdings.specs.Taken.{more_taken, rows_read_for};

use crate::record::read_part;
use crate::texts::TextParts;
use dict_desk::Fault;
use sqlite::{Alter, Connection};
use std::alloc::{AllocError, Global};
use store_rows::PART_SIZE;

// Keeps a part of a text under the number of its edition and its own, where the first is that of an install. A refused growth
// leaves it unkept.
fn keep(texts: &mut TextParts, installs: u64, number: u64, part: u64, octets: Vec<u8>)
    ensures { MayKeep installs (number, part) octets.items texts.old texts.new }
{
    if number > installs {
        return;
    }
    let _put = texts.put((number, part), octets);
}

// A part of the text of the edition of a number, which has no octets where there is no such part: the one that is kept, which
// is taken out, or else the one that is read.
fn take_part<S: Alter>(
    alloc: Global,
    conn: &mut Connection<S>,
    texts: &mut TextParts,
    number: u64,
    part: u64,
    rows_taken: &mut u64,
) -> Result<Vec<u8>, Fault>
    requires table { WhileOpen (state S.Store conn.old) (Has part_table) }
    requires few { part < 2 ^ 63 }
    ensures value { HasCleanDisk (state S.Store conn.new) → (text : List ℕ) → HasText (state S.Store conn.old) number text texts.old → IfOk result (λ octets. octets.items ≡ slice_index_or (parts_of text) part []) }
    ensures left { texts.new ≡ remove_entry (same_key (number, part)) texts.old }
    ensures taken { HasCleanDisk (state S.Store conn.new) → (text : List ℕ) → HoldsText (state S.Store conn.old).now number text → part < length (parts_of text) → OnOk result (rows_taken.new ≡ more_taken rows_taken.old (rows_read_for (lookup (same_key (number, part)) texts.old))) }
    ensures counted { OnOk result ((read : ℕ) × (rows_taken.new ≡ more_taken rows_taken.old read)) }
    ensures reads { ReadsStore S.Store (IsAtMostRead S.Store) (FailsToReadUnder S.Store number) conn.old conn.new result }
{
    let _taken = *rows_taken;
    if let Some(octets) = texts.take((number, part)) {
        return Ok(octets);
    }
    read_part(alloc, conn, number, part, rows_taken)
}

// What octets have from a place on, so many at most.
fn front(octets: &[u8], start: usize, most: usize) -> &[u8]
    ensures { result.now ≡ take most (drop start octets.now) }
{
    let rest = &octets[start.min(octets.len())..];
    &rest[..most.min(rest.len())]
}

// Appends what octets have from a place on, so many at most.
fn put_front(octets: &[u8], start: usize, most: usize, to: &mut Vec<u8>) -> Result<(), AllocError>
    ensures put { OnOk result (to.new.items ≡ to.old.items ++ take most (drop start octets.now)) }
{
    to.extend_from_slice(front(octets, start, most))
}

// Appends what a part of the text of the edition of a number has from a place of the text on, so many octets at most: none where
// the text ends before. The part is kept from then on.
fn put_part<S: Alter>(
    alloc: Global,
    conn: &mut Connection<S>,
    texts: &mut TextParts,
    installs: u64,
    number: u64,
    place: u64,
    most: usize,
    to: &mut Vec<u8>,
    rows_taken: &mut u64,
) -> Result<(), Fault>
    requires { WhileOpen (state S.Store conn.old) (Has part_table) }
    ensures put { HasCleanDisk (state S.Store conn.new) → (text : List ℕ) → HasText (state S.Store conn.old) number text texts.old → OnOk result (to.new.items ≡ to.old.items ++ take (length to.new.items - length to.old.items) (drop place text)) }
    ensures ended { HasCleanDisk (state S.Store conn.new) → (text : List ℕ) → HasText (state S.Store conn.old) number text texts.old → 1 ≤ most → OnOk result (length to.new.items ≡ length to.old.items → length text ≤ place) }
    ensures more { OnOk result (length to.old.items ≤ length to.new.items) }
    ensures most { OnOk result (length to.new.items ≤ length to.old.items + most) }
    ensures counted { OnOk result ((read : ℕ) × (rows_taken.new ≡ more_taken rows_taken.old read)) }
    ensures reads { ReadsStore S.Store (IsAtMostRead S.Store) (FailsToFind S.Store number) conn.old conn.new result }
    ensures keeps { KeepsParts S.Store installs number conn.old conn.new texts.old texts.new }
{
    let part = place / PART_SIZE as u64;
    match take_part(alloc, conn, texts, number, part, rows_taken) {
        Ok(octets) => {
            let front = (place % PART_SIZE as u64) as usize;
            let Ok(()) = put_front(octets.as_slice(), front, most, to) else {
                return Err(Fault::Memory);
            };
            keep(texts, installs, number, part, octets);
            Ok(())
        }
        Err(fault) => Err(fault),
    }
}

// What an interval cuts out of the text of the edition of a number, as far as the text goes. It asks only for the parts in which
// this lies, and for one more where the text ends before; they are kept from then on.
//
// `Memory` tells that a growth was refused, and `Disk` that the store failed, or that the limit on steps was met.
pub(crate) fn body<S: Alter>(
    alloc: Global,
    conn: &mut Connection<S>,
    texts: &mut TextParts,
    installs: u64,
    number: u64,
    start: usize,
    size: usize,
    rows_taken: &mut u64,
) -> Result<Vec<u8>, Fault>
    requires { WhileOpen (state S.Store conn.old) (Has part_table) }
    ensures value { HasCleanDisk (state S.Store conn.new) → (text : List ℕ) → length text < 64 ^ 6 → HasText (state S.Store conn.old) number text texts.old → IfOk result (λ octets. octets.items ≡ take size (drop start text)) }
    ensures counted { OnOk result ((read : ℕ) × (rows_taken.new ≡ more_taken rows_taken.old read)) }
    ensures reads { ReadsStore S.Store (IsAtMostRead S.Store) (FailsToFind S.Store number) conn.old conn.new result }
    ensures keeps { KeepsParts S.Store installs number conn.old conn.new texts.old texts.new }
{
    let _taken = *rows_taken;
    let Ok(mut octets) = Vec::with_capacity(alloc, size) else {
        return Err(Fault::Memory);
    };
    'parts: while octets.len() < size {
        let done = octets.len();
        let Some(place) = start.checked_add(done) else {
            return Ok(octets);
        };
        let most = size - done;
        put_part(
            alloc,
            conn,
            texts,
            installs,
            number,
            place as u64,
            most,
            &mut octets,
            rows_taken,
        )?;
        if octets.len() == done {
            return Ok(octets);
        }
    }
    Ok(octets)
}
