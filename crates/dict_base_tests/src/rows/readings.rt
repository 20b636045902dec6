//! What records stand for, taken one by one, as an opening takes them.

use super::records::{EditionRows, Rows, owned};
use dict_catalogue::Summary;
use std::alloc::Global;
use std::process::Abort;
use store_rows::{Reader, RowsFault};
use store_tables::EditionRecord;

/// A reader that has taken what comes first.
pub(crate) fn begin(alloc: Global, rows: &Rows) -> Result<Reader, RowsFault> {
    Reader::begin(alloc, 1, &rows.marks, &rows.items, &rows.members)
}

fn copied(
    rt: &impl Abort,
    alloc: Global,
    row: &EditionRecord<String, Vec<u8>>,
) -> EditionRecord<String, Vec<u8>> {
    EditionRecord {
        number: row.number,
        owner: owned(rt, alloc, row.owner.as_str()),
        title: owned(rt, alloc, row.title.as_str()),
        info: owned(rt, alloc, row.info.as_str()),
        body: Vec::from_slice(alloc, row.body.as_slice()).expect(rt, "memory"),
    }
}

fn read_edition(
    rt: &impl Abort,
    alloc: Global,
    reader: &mut Reader,
    rows: &EditionRows,
) -> Result<(), RowsFault> {
    reader.edition(copied(rt, alloc, &rows.edition.value))?;
    for row in &rows.entries {
        reader.entry(alloc, &row.value, row.value.headword.as_str())?;
    }
    Ok(())
}

/// Takes the kept replies, one by one.
pub(crate) fn read_replies(reader: &mut Reader, rows: &Rows) -> Result<(), RowsFault> {
    for row in &rows.kept {
        reader.kept(&row.value)?;
    }
    Ok(())
}

/// Takes the editions and the kept replies, one by one.
fn read_rows(
    rt: &impl Abort,
    alloc: Global,
    reader: &mut Reader,
    rows: &Rows,
) -> Result<(), RowsFault> {
    for edition in &rows.editions {
        read_edition(rt, alloc, reader, edition)?;
    }
    read_replies(reader, rows)
}

/// The catalogue for which the records stand, whose ids come once.
pub(crate) fn summary_of(
    rt: &impl Abort,
    alloc: Global,
    rows: &Rows,
) -> Result<Summary, RowsFault> {
    let mut reader = begin(alloc, rows)?;
    read_rows(rt, alloc, &mut reader, rows)?;
    reader.finish()
}
