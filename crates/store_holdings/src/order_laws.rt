// What holds of records that are read in the order of a key.
ghost use Rattle.std.specs.Prelude.{◌≡◌, ◌≤ℤ◌, [], ◌∷◌, ℤ, List, codes, map, String};
ghost use Rattle.std.specs.declared.alloc.Global.{Global};
ghost use Rattle.sqlite.specs.Effect.{Database};
ghost use Rattle.store_tables.specs.declared.records.StoredRow.{StoredRow};
ghost use Rattle.store_tables.specs.declared.records.ItemRecord.{ItemRecord};
ghost use Rattle.store_tables.specs.declared.records.Member.{Member};
ghost use Rattle.store_tables.specs.declared.records.EntryRecord.{EntryRecord};
ghost use Rattle.store_tables.specs.declared.records.KeptRecord.{KeptRecord};
ghost use Rattle.store_tables.specs.Effects.{equals_number};
ghost use Rattle.store_sql.specs.Encodings.{stored_item, stored_member, stored_entry, stored_kept};
ghost use Rattle.store_sql.specs.Reads.{IsListing, IsSelection};
ghost use Rattle.store_rows.specs.Given.{items_given, members_given, entries_given, kept_given};
ghost use Rattle.store_rows.specs.Order.{InOrder};

/// The records of rows that were read in the order of their key are in the order that the meaning of the tables asks for.
///
/// It does nothing. Its clauses are the law.
pub fn read_in_order()
    ensures items { (db : Database) (rows : List (StoredRow (ItemRecord (String Global)))) → IsListing (codes "item") (1 ∷ []) db (map stored_item rows) → InOrder (λ a b. a.place ≤ℤ b.place) (items_given rows) }
    ensures members { (db : Database) (rows : List (StoredRow (Member (String Global)))) → IsListing (codes "member") (1 ∷ 2 ∷ []) db (map stored_member rows) → InOrder (λ a b. a.owner ≡ b.owner → a.ord ≤ℤ b.ord) (members_given rows) }
    ensures entries { (db : Database) (number : ℤ) (rows : List (StoredRow (EntryRecord (String Global)))) → IsSelection (codes "entry") (equals_number 1 number) (2 ∷ []) db (map stored_entry rows) → InOrder (λ a b. a.ord ≤ℤ b.ord) (entries_given rows) }
    ensures kept { (db : Database) (rows : List (StoredRow (KeptRecord (String Global)))) → IsListing (codes "kept") (2 ∷ []) db (map stored_kept rows) → InOrder (λ a b. a.number ≤ℤ b.number) (kept_given rows) }
{}
