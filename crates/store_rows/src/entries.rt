// The record of an entry.
ghost use Rattle.std.specs.Prelude.{◌<◌, length, OnOk, IfErr};
ghost use Rattle.store_tables.specs.Records.{shown_as};
ghost use Rattle.store_tables.specs.Typed.{owned_entry};
ghost use Rattle.store_rows.specs.Given.{OnDamage, IsEntry, IsNoEntry, IsLawfulLine, line_with};

use crate::fault::RowsFault;
use crate::items::{is_number, number_of};
use dict_index::{cut_out, entry_key, is_edition_text, is_shown};
use std::alloc::Global;
use store_tables::EntryRecord;

/// Whether a line's interval lies within the text, and its headword, what is shown and its body are lawful. Else it is `Damaged`.
pub(crate) fn test_line(
    alloc: Global,
    text: &[u8],
    headword: &str,
    offset: u64,
    size: u64,
    shown: &str,
) -> Result<(), RowsFault>
    ensures is { OnOk result (IsLawfulLine text.now (line_with headword.now offset size shown.now)) }
    ensures damaged { IfErr result (λ fault. OnDamage fault (IsLawfulLine text.now (line_with headword.now offset size shown.now) → ⊥)) }
{
    let Some(body) = cut_out(text, offset, size) else {
        return Err(RowsFault::Damaged);
    };
    if !is_edition_text(body) {
        return Err(RowsFault::Damaged);
    }
    if !is_shown(shown) {
        return Err(RowsFault::Damaged);
    }
    let Some(_) = entry_key(alloc, headword)? else {
        return Err(RowsFault::Damaged);
    };
    Ok(())
}

/// Whether a record is that of an entry at this place of this edition, of which this is shown: its interval lies within the
/// text, and its headword, what is shown and its body are lawful. Else it is `Damaged`.
pub(crate) fn test_entry(
    alloc: Global,
    number: u64,
    ord: u64,
    text: &[u8],
    row: &EntryRecord<String>,
    shown: &str,
) -> Result<(), RowsFault>
    ensures is { OnOk result (IsEntry number ord text.now (shown_as (owned_entry row.now) shown.now)) }
    ensures damaged { IfErr result (λ fault. OnDamage fault (IsNoEntry number ord text.now (shown_as (owned_entry row.now) shown.now))) }
{
    if !is_number(number, &row.edition) || !is_number(ord, &row.ord) {
        return Err(RowsFault::Damaged);
    }
    let start = number_of(&row.start)?;
    let size = number_of(&row.length)?;
    test_line(alloc, text, row.headword.as_str(), start, size, shown)
}
