// What is asked of an edition, answered by the index that stands under its number.
ghost use Rattle.std.specs.Prelude.{◌≡◌, ℕ, List, None, Ok, Some, IsTrue, IfOk, IfErr, OnOk};
ghost use Rattle.sqlite.specs.State.{HasCleanDisk};
ghost use Rattle.sqlite.specs.Held.{state};
ghost use Rattle.store_tables.specs.Effects.{WhileOpen};
ghost use Rattle.dict_index.specs.Edition.{Edition};
ghost use Rattle.dict_index.specs.Found.{Row as ShownRow, found_rows, headword_rows};
ghost use Rattle.dict_desk.specs.Shown.{count_of};
ghost use Rattle.dict_desk.specs.Handing.{Hands};
ghost use Rattle.store_holdings.specs.Indexes.{entries_under};
ghost use Rattle.store_search.specs.Entries.{Indexed};
ghost use Rattle.store_holdings.specs.HeldTexts.{HoldsText};
ghost use Rattle.store_holdings.specs.Taken.{LooksAt};
ghost use Rattle.store_holdings.specs.CutTexts.{Cuts, IsIndexOf, ArePartsOf, IsAtMostRead, FailsToFind, KeepsParts};
ghost use Rattle.store_holdings.specs.Searches.{HasLookupTables, ReadsStore};

use crate::indexes::Indexes;
use crate::lookups::{count, find, heads};
use crate::texts::TextParts;
use dict_desk::{End, Fault, RowSink, What};
use dict_match::{Key, Strategy};
use sqlite::{Alter, Connection};
use std::alloc::Global;

/// How many entries of the edition under a number the query finds, or how many headwords are shown of them: none where no index
/// stands under the number. The only fault is `Memory`: a growth was refused. The indexes stay as they are.
pub fn count_under(
    alloc: Global,
    indexes: &mut Indexes,
    number: u64,
    strategy: Strategy,
    query: &Key,
    what: What,
    rows_taken: &mut u64,
) -> Result<u64, Fault>
    ensures value { IfOk result (λ count. (index : List Indexed) (edition : Edition) → entries_under number indexes.old ≡ Some index → IsIndexOf index edition → count ≡ count_of what strategy query.now edition) }
    ensures looks { (index : List Indexed) (edition : Edition) → entries_under number indexes.old ≡ Some index → IsIndexOf index edition → OnOk result (LooksAt rows_taken.old rows_taken.new (count_of What.Entries strategy query.now edition)) }
    ensures none { entries_under number indexes.old ≡ None → result ≡ Ok 0 }
    ensures kinds { IfErr result (λ fault. fault ≡ Fault.Memory) }
    ensures indexes { indexes.new ≡ indexes.old }
{
    match indexes.take(number)? {
        Some(index) => {
            let counted = count(alloc, &index, strategy, query, what, rows_taken);
            indexes.put_back(number, index);
            counted
        }
        None => Ok(0),
    }
}

/// Hands out the headwords shown of the entries of the edition under a number that the query finds, each once. Of a number without
/// an index nothing is told. The only fault is `Memory`: a growth was refused. The indexes stay as they are.
pub fn heads_under<T: RowSink>(
    alloc: Global,
    indexes: &mut Indexes,
    number: u64,
    strategy: Strategy,
    query: &Key,
    sink: &mut T,
    rows_taken: &mut u64,
) -> Result<End, Fault>
    ensures value { (index : List Indexed) (edition : Edition) → entries_under number indexes.old ≡ Some index → IsIndexOf index edition → Hands T.takes T.stops sink.old sink.new (headword_rows strategy query.now edition) result }
    ensures looks { (index : List Indexed) (edition : Edition) → entries_under number indexes.old ≡ Some index → IsIndexOf index edition → OnOk result (LooksAt rows_taken.old rows_taken.new (count_of What.Entries strategy query.now edition)) }
    ensures none { entries_under number indexes.old ≡ None → (result ≡ Ok End.All) × (sink.new ≡ sink.old) }
    ensures handed { (rows : List ShownRow) × Hands T.takes T.stops sink.old sink.new rows result }
    ensures kinds { IfErr result (λ fault. fault ≡ Fault.Memory) }
    ensures indexes { indexes.new ≡ indexes.old }
{
    match indexes.take(number)? {
        Some(index) => {
            let end = heads(alloc, &index, strategy, query, sink, rows_taken);
            indexes.put_back(number, index);
            end
        }
        None => Ok(End::All),
    }
}

/// Hands out the entries of the edition under a number that the query finds, as `find` does by the index that stands under it. Of a
/// number without an index nothing is told. The indexes stay as they are.
///
/// `Memory` tells that a growth was refused, `Disk` that the store failed, or that the limit on steps was met. The database
/// stays as it is.
pub fn find_under<S: Alter, T: RowSink>(
    alloc: Global,
    conn: &mut Connection<S>,
    texts: &mut TextParts,
    installs: u64,
    indexes: &mut Indexes,
    number: u64,
    strategy: Strategy,
    query: &Key,
    sink: &mut T,
    rows_taken: &mut u64,
) -> Result<End, Fault>
    requires { WhileOpen (state S.Store conn.old) HasLookupTables }
    ensures value { HasCleanDisk (state S.Store conn.new) → (index : List Indexed) (edition : Edition) (text : List ℕ) → entries_under number indexes.old ≡ Some index → Cuts index edition text → ArePartsOf number text texts.old → (IsTrue (state S.Store conn.old).is_open → HoldsText (state S.Store conn.old).now number text) → Hands T.takes T.stops sink.old sink.new (found_rows strategy query.now edition) result }
    ensures looks { (index : List Indexed) (edition : Edition) → entries_under number indexes.old ≡ Some index → IsIndexOf index edition → result ≡ Ok End.All → LooksAt rows_taken.old rows_taken.new (count_of What.Entries strategy query.now edition) }
    ensures none { entries_under number indexes.old ≡ None → (result ≡ Ok End.All) × (sink.new ≡ sink.old) × (conn.new ≡ conn.old) }
    ensures handed { (rows : List ShownRow) × Hands T.takes T.stops sink.old sink.new rows result }
    ensures reads { ReadsStore S.Store (IsAtMostRead S.Store) (FailsToFind S.Store number) conn.old conn.new result }
    ensures keeps { KeepsParts S.Store installs number conn.old conn.new texts.old texts.new }
    ensures indexes { indexes.new ≡ indexes.old }
{
    match indexes.take(number)? {
        Some(index) => {
            let end = find(
                alloc, conn, texts, installs, number, &index, strategy, query, sink, rows_taken,
            );
            indexes.put_back(number, index);
            end
        }
        None => Ok(End::All),
    }
}
