// What takes the records of the tables.
ghost use Rattle.store_scans.specs.Takers.{takes_rowids, refuses_rowids, takes_replies, refuses_replies, takes_ids, refuses_ids};
ghost use Rattle.store_scans.specs.TakerLaws.{no_rowids, no_replies, no_ids};

use crate::scan::Taker;
use std::alloc::Global;
use store_rows::{IdReader, Reader, RowidReader, RowsFault};
use store_sql::records::Record;
use store_tables::{KeptRecord, StoredRow};

/// The rowids of a table, which come in their order, are to be apart.
impl<R: Record + Drop> Taker<R> for RowidReader {
    ghost takes = { takes_rowids R.stored };

    ghost refuses = { refuses_rowids R.stored };

    fn take(&mut self, _: Global, next: R) -> Result<(), RowsFault> {
        self.rowid(next.rowid())
    }

    ghost none = { no_rowids R.stored };
}

/// The kept replies, in the order of their numbers.
impl Taker<StoredRow<KeptRecord<String>>> for Reader {
    ghost takes = { takes_replies };

    ghost refuses = { refuses_replies };

    fn take(&mut self, _: Global, next: StoredRow<KeptRecord<String>>) -> Result<(), RowsFault> {
        self.kept(&next.value)
    }

    ghost none = { no_replies };
}

/// The ids of the kept replies, which come in their order, are to be apart.
impl Taker<StoredRow<KeptRecord<String>>> for IdReader {
    ghost takes = { takes_ids };

    ghost refuses = { refuses_ids };

    fn take(&mut self, _: Global, next: StoredRow<KeptRecord<String>>) -> Result<(), RowsFault> {
        self.id(next.value.id)
    }

    ghost none = { no_ids };
}
