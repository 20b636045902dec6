//! What is found among the entries of an index, as the edition's database answers it.
ghost use Rattle.std.specs.Prelude.{◌≡◌, ◌↔◌, IsTrue, List, ℕ, length, map};
ghost use Rattle.dict_match.specs.declared.strategy.Strategy.{Strategy};
ghost use Rattle.dict_index.specs.Edition.{ReadEdition, edition_of};
ghost use Rattle.store_derived.specs.Search.{Rows, SelectsKey};
ghost use Rattle.dict_index.specs.Found.{found, headwords as each_headword, found_rows, headword_rows};
ghost use Rattle.store_search.specs.Entries.{entry_of, row_in, headword_row};
ghost use Rattle.store_pieces.specs.Selected.{is_selected};
ghost use Rattle.store_search.specs.Found.{found_entries, found_headwords};

/// What is found among the entries that the lines of an edition make is what the edition's database answers.
///
/// It does nothing. Its clauses are the law.
pub fn edition_laws()
    ensures rows { (strategy : Strategy) (query : List ℕ) (reading : ReadEdition) → map (row_in reading.text) (found_entries strategy query (map entry_of reading.lines)) ≡ found_rows strategy query (edition_of reading) }
    ensures headwords { (strategy : Strategy) (query : List ℕ) (reading : ReadEdition) → map headword_row (found_headwords strategy query (map entry_of reading.lines)) ≡ headword_rows strategy query (edition_of reading) }
    ensures entries_counted { (strategy : Strategy) (query : List ℕ) (reading : ReadEdition) → length (found_entries strategy query (map entry_of reading.lines)) ≡ length (found strategy query (edition_of reading)) }
    ensures headwords_counted { (strategy : Strategy) (query : List ℕ) (reading : ReadEdition) → length (found_headwords strategy query (map entry_of reading.lines)) ≡ length (each_headword (found strategy query (edition_of reading))) }
{}

/// The test of a selection tells which keys it selects.
///
/// It does nothing. Its clause is the law.
pub fn selection_law()
    ensures { (rows : Rows) (k : List ℕ) → IsTrue (is_selected rows k) ↔ SelectsKey rows k }
{}
