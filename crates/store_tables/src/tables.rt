//! The tables of the store by name.

ghost use Rattle.std.specs.Prelude.{◌≡◌};
ghost use Rattle.store_tables.specs.Tables.{table_of};

/// A table of the store.
#[derive(Clone, Copy, Debug, PartialEq, Eq)]
pub enum StoreTable {
    Mark,
    Item,
    Member,
    Edition,
    Entry,
    Kept,
}

impl StoreTable {
    /// The name of the table.
    pub fn name(self) -> &'static str
        ensures { result.now ≡ (table_of self 0).name }
    {
        match self {
            StoreTable::Mark => "mark",
            StoreTable::Item => "item",
            StoreTable::Member => "member",
            StoreTable::Edition => "edition",
            StoreTable::Entry => "entry",
            StoreTable::Kept => "kept",
        }
    }
}
