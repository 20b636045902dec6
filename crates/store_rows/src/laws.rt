// What holds of all tables.
ghost use Rattle.std.specs.Prelude.{◌≡◌, ◌≤ℤ◌, ◌++◌, ◌∷◌, [], ℕ, ℤ, Bool, List, None, false, IsTrue, IsPermutation};
ghost use Rattle.std.specs.List.{AllByRecursion};
ghost use Rattle.store_tables.specs.Records.{EditionRecord, EntryRecord};
ghost use Rattle.dict_index.specs.Edition.{Edition as AnEdition};
ghost use Rattle.dict_text.specs.Names.{is_request_id};
ghost use Rattle.dict_catalogue.specs.Commands.{Command};
ghost use Rattle.dict_catalogue.specs.Tests.{refusal_of};
ghost use Rattle.store_rows.specs.Written.{mark_record};
ghost use Rattle.store_rows.specs.Worked.{worked_tables, commanded_catalogue};
ghost use Rattle.store_rows.specs.After.{TableChange, IsTableChange, tables_after};
ghost use Rattle.dict_catalogue.specs.Steps.{Catalogue, empty_catalogue, holdings, kept_under, with_effect};
ghost use Rattle.store_rows.specs.Tables.{Tables, editions_numbered, entries_of};
ghost use Rattle.store_rows.specs.Stands.{Stands};
ghost use Rattle.dict_catalogue.specs.WellFormed.{IsEachOnce, IsLawfulCommand};
ghost use Rattle.store_rows.specs.Apart.{HasTakenIds, HasTakenRowids};
ghost use Rattle.store_rows.specs.declared.apart.IdReader.{IdReader};
ghost use Rattle.store_rows.specs.declared.apart.RowidReader.{RowidReader};
ghost use Rattle.store_rows.specs.Order.{InOrder, HaveSame, AreOrdered, is_of, editions_of_numbers, entries_of_numbers};

/// Tables stand for one catalogue at most.
///
/// It does nothing. Its clause is the law.
pub fn one_catalogue()
    ensures { (version : ℕ) (tables : Tables) (M N : Catalogue) → Stands version tables M → Stands version tables N → M ≡ N }
{}

/// The same records, read in the order of their keys, stand for the same catalogue.
///
/// It does nothing. Its clause is the law.
pub fn ordered_records()
    ensures { (version : ℕ) (old new : Tables) (M : Catalogue) → HaveSame old new → AreOrdered new → Stands version old M → Stands version new M }
{}

/// The editions of some numbers, and those of one more, are together those of all these numbers, and so are their entries;
/// they are the whole table where each record has one of the numbers.
///
/// It does nothing. Its clauses are the law.
pub fn records_by_number()
    ensures editions { (numbers : List ℤ) (number : ℤ) (all read part : List EditionRecord) → is_of numbers number ≡ false → IsPermutation (editions_of_numbers numbers all) read → IsPermutation (editions_numbered number all) part → IsPermutation (editions_of_numbers (numbers ++ number ∷ []) all) (read ++ part) }
    ensures entries { (numbers : List ℤ) (number : ℤ) (all read part : List EntryRecord) → is_of numbers number ≡ false → IsPermutation (entries_of_numbers numbers all) read → IsPermutation (entries_of number all) part → IsPermutation (entries_of_numbers (numbers ++ number ∷ []) all) (read ++ part) }
    ensures all_editions { (numbers : List ℤ) (all : List EditionRecord) → AllByRecursion (λ row. IsTrue (is_of numbers row.number)) all → editions_of_numbers numbers all ≡ all }
    ensures all_entries { (numbers : List ℤ) (all : List EntryRecord) → AllByRecursion (λ row. IsTrue (is_of numbers row.edition)) all → entries_of_numbers numbers all ≡ all }
{}

/// Ids that were taken in an order, whichever it is, are each there once, and rowids that were taken in theirs are apart.
///
/// It does nothing. Its clauses are the law.
pub fn taken_in_order()
    ensures ids { (leq : List ℕ → List ℕ → Bool) → ((a b : List ℕ) → IsTrue (leq a b) → IsTrue (leq b a) → a ≡ b) → (ids : IdReader) (taken : List (List ℕ)) → HasTakenIds ids taken → InOrder (λ a b. IsTrue (leq a b)) taken → IsEachOnce taken }
    ensures rowids { (rowids : RowidReader) (taken : List ℤ) → HasTakenRowids rowids taken → InOrder (λ a b. a ≤ℤ b) taken → InOrder (λ a b. a ≡ b → ⊥) taken }
{}

/// Where tables stand for a catalogue, the records that a command changes stand for the catalogue after it: what is written
/// is the mark, the items and the members anew, the records of an installed edition, and the reply, and the records of
/// editions that go are taken away.
///
/// It does nothing. Its clause is the law.
pub fn records_after()
    ensures { (version : ℕ) (old : Tables) (M : Catalogue) (id : List ℕ) (command : Command AnEdition) (change : TableChange) → Stands version old M → IsLawfulCommand command → IsTrue (is_request_id id) → kept_under M.kept id ≡ None → refusal_of (holdings M) command ≡ None →
        IsTableChange M id command change → Stands version (tables_after version change old) (with_effect M id command) }
{}

/// The records of the empty catalogue, which are a mark alone.
///
/// It does nothing. Its clause is the law.
pub fn empty_records()
    ensures { (version : ℕ) → Stands version (record { marks = mark_record version 0 ∷ []; items = []; members = []; editions = []; entries = []; kept = [] }) empty_catalogue }
{}

/// A small catalogue with the databases `ore` and `gem` and the virtual database `all`, and the records that stand for it.
///
/// It does nothing. Its clause is the example, from the definitions alone.
pub fn worked_records()
    ensures { Stands 1 worked_tables commanded_catalogue }
{}
