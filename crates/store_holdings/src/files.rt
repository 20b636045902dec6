// What holds of the files of all editions.
ghost use Rattle.std.specs.Prelude.{◌≡◌, ◌++◌, ℕ, ℤ, pos, true, List, filter, flat_map, IsPermutation};
ghost use Rattle.std.specs.List.{AllByRecursion};
ghost use Rattle.sqlite.specs.Effect.{Database};
ghost use Rattle.store_tables.specs.Records.{EditionRecord, EntryRecord, Part};
ghost use Rattle.dict_index.specs.Edition.{Edition as AnEdition};
ghost use Rattle.dict_index.specs.WellFormed.{IsWellFormedEdition};
ghost use Rattle.dict_catalogue.specs.Commands.{Command};
ghost use Rattle.dict_catalogue.specs.Items.{Stored};
ghost use Rattle.dict_catalogue.specs.Steps.{Catalogue, with_effect};
ghost use Rattle.store_rows.specs.Stored.{IsStorable, stored_index};
ghost use Rattle.store_rows.specs.After.{TableChange, IsTableChange, tables_after};
ghost use Rattle.store_rows.specs.Stands.{HoldsEdition, Stands, has_number};
ghost use Rattle.store_rows.specs.Versions.{known, Parted};
ghost use Rattle.store_rows.specs.Tables.{Tables, same_number, editions_numbered};
ghost use Rattle.store_rows.specs.Taken.{with_edition};
ghost use Rattle.store_rows.specs.Whole.{with_entries};
ghost use Rattle.store_rows.specs.Worked.{worked_tables};
ghost use Rattle.store_holdings.specs.AllTables.{with_derived, as_version, all_after, orphans_after, HasNoneOf, HasNewNumber};
ghost use Rattle.store_holdings.specs.Files.{all_parts, edition_parts, parts_under};
ghost use Rattle.store_rows.specs.FileParts.{file_parts};
ghost use Rattle.store_holdings.specs.Holds.{AreOrphans};
ghost use Rattle.store_sql.specs.Readings.{KeepsAll};
ghost use Rattle.store_holdings.specs.Told.{HaveSameFiles};
ghost use Rattle.store_holdings.specs.Worked.{worked_parts};

/// Records that stand for a catalogue stand for it under the mark of another version.
///
/// It does nothing. Its clause is the law.
pub fn same_under_versions()
    ensures { (old new : ℕ) (tables : Tables) (M : Catalogue) → Stands old tables M → Stands new (as_version new tables) M }
{}

/// The parts of a number are those of the editions that have it, whatever orphans are beside them.
///
/// It does nothing. Its clauses are the law.
pub fn files_once()
    ensures once { (t : Tables) (number : ℤ) → filter (λ (p : Part). same_number p.edition number) (all_parts t) ≡ flat_map (edition_parts t.entries) (editions_numbered number t.editions) }
    ensures beside { (version : ℕ) (M : Catalogue) (orphans : List Part) (t : Tables) (number : ℤ) → AreOrphans version M orphans → has_number M.items number ≡ true →
        filter (λ (p : Part). same_number p.edition number) (orphans ++ all_parts t) ≡ filter (λ (p : Part). same_number p.edition number) (all_parts t) }
{}

/// The parts of an edition by their file; that of one file they are the parts, in whatever order they stand; and what the tables
/// have of an edition that they hold.
///
/// It does nothing. Its clauses are the law.
pub fn file_laws()
    ensures index { (edition : ℤ) (index text : List ℕ) → filter (λ (p : Part). same_number p.file (pos 0)) (parts_under edition index text) ≡ file_parts edition (pos 0) index }
    ensures text { (edition : ℤ) (index text : List ℕ) → filter (λ (p : Part). same_number p.file (pos 1)) (parts_under edition index text) ≡ file_parts edition (pos 1) text }
    ensures one { (edition file : ℤ) (x y : List ℕ) → IsPermutation (file_parts edition file x) (file_parts edition file y) → x ≡ y }
    ensures storable { (t : Tables) (owner : List ℕ) (stored : Stored AnEdition) (h : HoldsEdition t owner stored) → IsWellFormedEdition stored.content → AllByRecursion IsStorable h.reading.lines }
    ensures held { (t : Tables) (owner : List ℕ) (stored : Stored AnEdition) (h : HoldsEdition t owner stored) →
        filter (λ (p : Part). same_number p.edition (pos stored.number)) (all_parts t) ≡ parts_under (pos stored.number) (stored_index h.reading.lines) h.reading.text }
{}

/// A database that has what a command makes of all records, with the parts of their files before and orphans, has the records after the
/// command with the parts of their files, and orphans: those there were and the parts of the editions that went. No edition after the
/// command has the number of one of these. The number of the edition that is installed is new.
///
/// It does nothing. Its clauses are the law.
pub fn files_after()
    ensures after { (version : ℕ) (change : TableChange) (orphans : List Part) (old : Tables) (db : Database) → HasNewNumber change.edition old → KeepsAll Parted db (all_after version change (with_derived orphans old)) →
        KeepsAll Parted db (with_derived (orphans_after change orphans old) (tables_after version change old)) }
    ensures orphans { (version : ℕ) (old : Tables) (M : Catalogue) (id : List ℕ) (command : Command AnEdition) (change : TableChange) (orphans : List Part) → Stands version old M → IsTableChange M id command change → AreOrphans known M orphans →
        AreOrphans known (with_effect M id command) (orphans_after change orphans old) }
    ensures new { (version : ℕ) (old : Tables) (M : Catalogue) (id : List ℕ) (command : Command AnEdition) (change : TableChange) → Stands version old M → IsTableChange M id command change → HasNewNumber change.edition old }
{}

/// The parts of one edition more, of a new number, come behind those of the others.
///
/// It does nothing. Its clause is the law.
pub fn files_more()
    ensures { (t : Tables) (e : EditionRecord) (es : List EntryRecord) → HasNoneOf e.number t → AllByRecursion (λ (row : EntryRecord). row.edition ≡ e.number) es → all_parts (with_entries (with_edition t e) es) ≡ all_parts t ++ edition_parts es e }
{}

/// Records with the same headers and the same parts of files stand for one catalogue at most, whatever orphans are beside them.
///
/// It does nothing. Its clause is the law.
pub fn files_tell()
    ensures { (version : ℕ) (beside_old beside_new : List Part) (old new : Tables) (M N : Catalogue) → HaveSameFiles beside_old beside_new old new → AreOrphans version M beside_old → AreOrphans version N beside_new → Stands version old M → Stands version new N → M ≡ N }
{}

/// The parts of the files of a small catalogue with the databases `ore` and `gem`.
///
/// It does nothing. Its clause is the example, from the definitions alone.
pub fn worked_files()
    ensures { all_parts worked_tables ≡ worked_parts }
{}
