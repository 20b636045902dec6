//! The tables of what older versions derived of headwords, by name.

ghost use Rattle.std.specs.Prelude.{◌≡◌};
ghost use Rattle.store_tables.specs.Keyed.{keyed_table_of};

/// A table of what is derived of headwords.
#[derive(Clone, Copy, Debug, PartialEq, Eq)]
pub enum KeyedTable {
    /// The entries of the editions, with the key of each headword, read in either direction.
    Entry,
    /// The words of the keys.
    Word,
    /// The runs of three octets of the keys.
    Gram,
}

impl KeyedTable {
    /// The name of the table.
    pub fn name(self) -> &'static str
        ensures { result.now ≡ (keyed_table_of self 0).name }
    {
        match self {
            KeyedTable::Entry => "entry",
            KeyedTable::Word => "word",
            KeyedTable::Gram => "gram",
        }
    }
}
