//! What is read of each table.

use crate::checks::{holds, same_text};
use crate::rest::told_rest;
use crate::texts::told_read;
use sqlite::{Alter, Connection, Error, Rows};
use std::alloc::Global;
use std::process::Abort;
use store_sql::read::{editions_numbered, items, kept_replies_of, members};
use store_sql::records::{EditionNumber, ReadError};
use store_sql::stream::{
    next_record, read_by_rowid, read_edition_numbers, read_entries_of, read_kept_replies,
};
use store_tables::{EntryRecord, KeptRecord, Mark, StoreTable, StoredRow, has_table};

// What is read as a list, and what row by row.
#[derive(Clone, Copy)]
enum Wanted {
    Items,
    Members,
    EditionsNumbered(i64),
    KeptRepliesOf(&'static str),
    Streamed(Stream),
}

#[derive(Clone, Copy)]
enum Stream {
    Marks,
    EditionNumbers,
    EntriesOf(i64),
    KeptReplies,
    KeptPastAFault,
}

const MARKS: &str =
    "[StoredRow { rowid: 1, value: Mark { id: 1, magic: \"dictcat\", version: 2, installs: 8 } }, \
     StoredRow { rowid: 2, value: Mark { id: 2, magic: \"\", version: 9223372036854775807, installs: -1 } }]";

const ITEMS: &str =
    "[StoredRow { rowid: 0, value: ItemRecord { place: 0, name: \"gem\", kind: 0, title: None, current: Some(9223372036854775807), former: None } }, \
     StoredRow { rowid: 1, value: ItemRecord { place: 1, name: \"all\", kind: 1, title: Some(\"It's \\\"all\\\"\"), current: None, former: None } }]";

const MEMBERS: &str =
    "[StoredRow { rowid: 3, value: Member { owner: \"a\", ord: 0, name: \"gem\" } }, \
     StoredRow { rowid: 2, value: Member { owner: \"a\", ord: 1, name: \"ore\" } }, \
     StoredRow { rowid: 1, value: Member { owner: \"b\", ord: 0, name: \"gem\" } }]";

const SECOND: &str =
    "[StoredRow { rowid: 2, value: EditionRecord { number: 2, owner: \"owner\", title: \"title\", info: \"it's \\\"quoted\\\"\\u{1}\\t\\n\", body: [0, 255, 39, 34] } }]";

const NUMBERS: &str = "[StoredRow { rowid: 2, value: EditionNumber { number: 2 } }, \
     StoredRow { rowid: 3, value: EditionNumber { number: 3 } }]";

const OF_FIRST: &str =
    "[StoredRow { rowid: 3, value: EntryRecord { edition: 1, ord: 0, headword: \"\", start: 0, length: 9223372036854775807 } }, \
     StoredRow { rowid: 2, value: EntryRecord { edition: 1, ord: 1, headword: \"opal\", start: 1, length: 9223372036854775807 } }]";

const REPLIES: &str =
    "[StoredRow { rowid: 2, value: KeptRecord { id: \"it's\", number: 1, verb: \"install\", name: \"gem\", edition: None } }, \
     StoredRow { rowid: 1, value: KeptRecord { id: \"r2\", number: 2, verb: \"install\", name: \"gem\", edition: Some(9223372036854775807) } }, \
     StoredRow { rowid: 3, value: KeptRecord { id: \"r3\", number: 3, verb: \"retire\", name: \"gem\", edition: None } }, \
     StoredRow { rowid: 4, value: KeptRecord { id: \"r4\", number: 4, verb: \"retire\", name: \"ore\", edition: None } }]";

const REPLIES_PAST_FIRST: &str =
    "[StoredRow { rowid: 1, value: KeptRecord { id: \"r2\", number: 2, verb: \"install\", name: \"gem\", edition: Some(9223372036854775807) } }, \
     StoredRow { rowid: 3, value: KeptRecord { id: \"r3\", number: 3, verb: \"retire\", name: \"gem\", edition: None } }, \
     StoredRow { rowid: 4, value: KeptRecord { id: \"r4\", number: 4, verb: \"retire\", name: \"ore\", edition: None } }]";

const SECOND_REPLY: &str =
    "[StoredRow { rowid: 1, value: KeptRecord { id: \"r2\", number: 2, verb: \"install\", name: \"gem\", edition: Some(9223372036854775807) } }]";

// What is read, and its records as text. Marks have every number of 64 bits. Items come in the order of their places, with a title or an edition or none; members by owner and then in their order; editions in the order of their numbers, and texts may be empty, and have quote signs and control characters; entries of an edition in their order; kept replies in the order of their numbers.
static READS: [(Wanted, &str); 11] = [
    (Wanted::Streamed(Stream::Marks), MARKS),
    (Wanted::Items, ITEMS),
    (Wanted::Members, MEMBERS),
    (Wanted::EditionsNumbered(1), "[]"),
    (Wanted::EditionsNumbered(2), SECOND),
    (Wanted::Streamed(Stream::EditionNumbers), NUMBERS),
    (Wanted::Streamed(Stream::EntriesOf(1)), OF_FIRST),
    (Wanted::Streamed(Stream::KeptReplies), REPLIES),
    (Wanted::KeptRepliesOf("r2"), SECOND_REPLY),
    (Wanted::KeptRepliesOf("R2"), "[]"),
    (Wanted::Streamed(Stream::KeptPastAFault), REPLIES_PAST_FIRST),
];

// The text of the kept replies behind the first, which is refused where a mark is asked for.
fn told_past_a_fault<S: Alter>(rt: &impl Abort, alloc: Global, rows: &mut Rows<'_, S>) -> String {
    let next: Result<Option<StoredRow<Mark<String>>>, ReadError> = next_record(rows);
    let is_refused = matches!(&next, Err(ReadError::NoRecord));
    drop(next);
    holds(rt, is_refused, "another record");
    told_rest::<S, StoredRow<KeptRecord<String>>>(rt, alloc, rows)
}

fn begin<'a, S: Alter>(
    rt: &impl Abort,
    conn: &'a mut Connection<S>,
    stream: Stream,
) -> Result<Rows<'a, S>, Error> {
    let schema = conn.schema();
    holds(rt, has_table(schema, StoreTable::Mark), "mark");
    holds(rt, has_table(schema, StoreTable::Edition), "edition");
    holds(rt, has_table(schema, StoreTable::Entry), "entry");
    holds(rt, has_table(schema, StoreTable::Kept), "kept");
    match stream {
        Stream::Marks => read_by_rowid(conn, StoreTable::Mark),
        Stream::EditionNumbers => read_edition_numbers(conn),
        Stream::EntriesOf(edition) => read_entries_of(conn, edition),
        Stream::KeptReplies | Stream::KeptPastAFault => read_kept_replies(conn),
    }
}

fn told_of<S: Alter>(
    rt: &impl Abort,
    alloc: Global,
    rows: &mut Rows<'_, S>,
    stream: Stream,
) -> String {
    match stream {
        Stream::Marks => told_rest::<S, StoredRow<Mark<String>>>(rt, alloc, rows),
        Stream::EditionNumbers => told_rest::<S, StoredRow<EditionNumber>>(rt, alloc, rows),
        Stream::EntriesOf(_) => told_rest::<S, StoredRow<EntryRecord<String>>>(rt, alloc, rows),
        Stream::KeptReplies => told_rest::<S, StoredRow<KeptRecord<String>>>(rt, alloc, rows),
        Stream::KeptPastAFault => told_past_a_fault(rt, alloc, rows),
    }
}

fn read_stream<S: Alter>(
    rt: &impl Abort,
    alloc: Global,
    conn: &mut Connection<S>,
    stream: Stream,
) -> String {
    let mut rows = begin(rt, conn, stream).expect(rt, "rows");
    let told = told_of(rt, alloc, &mut rows, stream);
    drop(rows);
    told
}

// What is wanted, as text.
fn read<S: Alter>(
    rt: &impl Abort,
    alloc: Global,
    conn: &mut Connection<S>,
    wanted: Wanted,
) -> String {
    let schema = conn.schema();
    holds(rt, has_table(schema, StoreTable::Item), "item");
    holds(rt, has_table(schema, StoreTable::Member), "member");
    holds(rt, has_table(schema, StoreTable::Edition), "edition");
    holds(rt, has_table(schema, StoreTable::Kept), "kept");
    match wanted {
        Wanted::Items => told_read(rt, alloc, items(alloc, conn)),
        Wanted::Members => told_read(rt, alloc, members(alloc, conn)),
        Wanted::EditionsNumbered(number) => told_read(
            rt,
            alloc,
            editions_numbered(alloc, conn, number),
        ),
        Wanted::KeptRepliesOf(id) => told_read(rt, alloc, kept_replies_of(alloc, conn, id)),
        Wanted::Streamed(stream) => read_stream(rt, alloc, conn, stream),
    }
}

/// What each table has. A row that is asked for as another record is refused, and those behind it are read.
pub(crate) fn look<S: Alter>(rt: &impl Abort, alloc: Global, conn: &mut Connection<S>) {
    for (wanted, expected) in &READS {
        let text = read(rt, alloc, conn, *wanted);
        same_text(rt, text.as_str(), *expected);
    }
}
