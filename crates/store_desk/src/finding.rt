// What a query finds in an edition.
ghost use Rattle.std.specs.Prelude.{◌≡◌, ℕ, IsTrue, List, Ok, Some};
ghost use Rattle.sqlite.specs.State.{HasCleanDisk};
ghost use Rattle.sqlite.specs.Held.{state};
ghost use Rattle.dict_index.specs.Edition.{Edition};
ghost use Rattle.dict_index.specs.Found.{Row as ShownRow};
ghost use Rattle.dict_desk.specs.Shown.{rows_given, count_of};
ghost use Rattle.dict_desk.specs.Handing.{Hands};
ghost use Rattle.store_tables.specs.Effects.{WhileOpen};
ghost use Rattle.store_search.specs.Entries.{Indexed};
ghost use Rattle.store_holdings.specs.HeldTexts.{HoldsText};
ghost use Rattle.store_holdings.specs.Indexes.{entries_under};
ghost use Rattle.store_holdings.specs.Searches.{HasLookupTables, ReadsStore};
ghost use Rattle.store_holdings.specs.Taken.{LooksAt};
ghost use Rattle.store_holdings.specs.CutTexts.{Cuts, IsIndexOf, ArePartsOf, IsAtMostRead, FailsToFind, KeepsParts};

use dict_desk::{End, Fault, RowSink, What};
use dict_match::{Key, Strategy};
use sqlite::{Alter, Connection};
use std::alloc::Global;
use store_holdings::{Indexes, TextParts, find_under, heads_under};

// Hands out the entries of the edition under a number that the query finds, or the headwords shown of them, by the index that stands
// under the number. For headwords the database isn't asked.
pub(crate) fn hand_rows<S: Alter, T: RowSink>(
    alloc: Global,
    conn: &mut Connection<S>,
    texts: &mut TextParts,
    installs: u64,
    indexes: &mut Indexes,
    number: u64,
    strategy: Strategy,
    query: &Key,
    what: What,
    sink: &mut T,
    rows_taken: &mut u64,
) -> Result<End, Fault>
    requires { WhileOpen (state S.Store conn.old) HasLookupTables }
    ensures value { HasCleanDisk (state S.Store conn.new) → (index : List Indexed) (edition : Edition) (text : List ℕ) → entries_under number indexes.old ≡ Some index → Cuts index edition text → ArePartsOf number text texts.old → (IsTrue (state S.Store conn.old).is_open → HoldsText (state S.Store conn.old).now number text) → Hands T.takes T.stops sink.old sink.new (rows_given what strategy query.now edition) result }
    ensures looks { (index : List Indexed) (edition : Edition) → entries_under number indexes.old ≡ Some index → IsIndexOf index edition → result ≡ Ok End.All → LooksAt rows_taken.old rows_taken.new (count_of What.Entries strategy query.now edition) }
    ensures handed { (rows : List ShownRow) × Hands T.takes T.stops sink.old sink.new rows result }
    ensures reads { ReadsStore S.Store (IsAtMostRead S.Store) (FailsToFind S.Store number) conn.old conn.new result }
    ensures keeps { KeepsParts S.Store installs number conn.old conn.new texts.old texts.new }
    ensures indexes { indexes.new ≡ indexes.old }
{
    match what {
        What::Entries => find_under(
            alloc, conn, texts, installs, indexes, number, strategy, query, sink, rows_taken,
        ),
        What::Headwords => {
            heads_under(alloc, indexes, number, strategy, query, sink, rows_taken)
        }
    }
}
