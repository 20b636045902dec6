// What holds of lookups over a database that holds a catalogue.
ghost use Rattle.std.specs.Prelude.{◌≡◌, ℕ, List, map};
ghost use Rattle.sqlite.specs.Effect.{Database};
ghost use Rattle.dict_index.specs.Edition.{Edition, ReadEdition, edition_of};
ghost use Rattle.dict_catalogue.specs.Steps.{Catalogue};
ghost use Rattle.dict_desk.specs.Shown.{HasEdition};
ghost use Rattle.store_rows.specs.Versions.{layout_of, known};
ghost use Rattle.store_holdings.specs.Holds.{HasLayout, Holds};
ghost use Rattle.store_holdings.specs.HeldTexts.{HoldsText};
ghost use Rattle.store_search.specs.Entries.{entry_of};
ghost use Rattle.store_holdings.specs.Searches.{HasLookupTables, HoldsOne, IsEditionReadable};
ghost use Rattle.store_holdings.specs.CutTexts.{Cuts};

/// A database of the known version has the tables that lookups read. Where it holds a catalogue, it has the header and the text of
/// each edition of it under its number, and the lines of the edition's index cut its entries out of that text, the one text that
/// stands there; and whatever stands under a number can be read, so that a lookup fails by refused memory, by the limit on steps or by the store alone.
///
/// It does nothing. Its clauses are the law.
pub fn held_laws()
    ensures tables { (db : Database) → HasLayout (layout_of known) db.schema → HasLookupTables db }
    ensures one { (db : Database) (M : Catalogue) (number : ℕ) (edition : Edition) → Holds known db M → HasEdition M number edition → (reading : ReadEdition) × HoldsOne db number reading × (edition ≡ edition_of reading) × HoldsText db number reading.text × Cuts (map entry_of reading.lines) edition reading.text }
    ensures once { (db : Database) (number : ℕ) (x y : List ℕ) → HoldsText db number x → HoldsText db number y → x ≡ y }
    ensures readable { (db : Database) (M : Catalogue) (number : ℕ) → Holds known db M → IsEditionReadable db number }
{}
