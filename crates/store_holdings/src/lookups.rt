// What is asked of an edition.
ghost use Rattle.std.specs.Prelude.{◌≡◌, ◌+◌, ◌≤◌, ℕ, false, List, IsTrue, Ok, IfOk, IfErr, IsErr, OnOk, OnErr};
ghost use Rattle.sqlite.specs.State.{HasCleanDisk};
ghost use Rattle.sqlite.specs.Held.{state};
ghost use Rattle.store_tables.specs.Effects.{WhileOpen};
ghost use Rattle.dict_index.specs.Edition.{Edition, ReadEdition, edition_of};
ghost use Rattle.dict_index.specs.Found.{Row as ShownRow, found_rows, headword_rows, info_rows};
ghost use Rattle.dict_desk.specs.Shown.{count_of};
ghost use Rattle.dict_desk.specs.Handing.{Hands};
ghost use Rattle.store_search.specs.Found.{count_selected};
ghost use Rattle.store_holdings.specs.HeldTexts.{HoldsText};
ghost use Rattle.store_holdings.specs.Searches.{HasLookupTables, HoldsOne, ReadsStore, IsReadFrom, FailsToReadUnder};
ghost use Rattle.store_holdings.specs.CutTexts.{Cuts, IsIndexOf, ArePartsOf, IsAtMostRead, FailsToFind, KeepsParts};
ghost use Rattle.store_holdings.specs.Taken.{more_taken, LooksAt};

use crate::found::{hand_found, hand_headwords};
use crate::record::info_of_number;
use crate::texts::TextParts;
use dict_desk::{Demand, End, Fault, Row, RowSink, What};
use dict_match::{Key, Strategy};
use sqlite::{Alter, Connection};
use std::alloc::{AllocError, Global};
use store_derived::is_tested;
use store_search::{Counted, Index, edition_laws};

/// Hands one row to the sink, which shows nothing: what the edition's database says of itself. It counts the rows that
/// its statement hands over. Of a number that no edition has nothing is told. The edition's text isn't read.
///
/// `Memory` tells that a growth was refused, `Disk` that the store failed, or that the limit on steps was met. The database
/// stays as it is.
pub fn info<S: Alter, T: RowSink>(
    alloc: Global,
    conn: &mut Connection<S>,
    number: u64,
    sink: &mut T,
    rows_taken: &mut u64,
) -> Result<End, Fault>
    requires { WhileOpen (state S.Store conn.old) HasLookupTables }
    ensures value { HasCleanDisk (state S.Store conn.new) → (reading : ReadEdition) → HoldsOne (state S.Store conn.old).now number reading → Hands T.takes T.stops sink.old sink.new (info_rows (edition_of reading)) result }
    ensures taken { HasCleanDisk (state S.Store conn.new) → (reading : ReadEdition) → HoldsOne (state S.Store conn.old).now number reading → OnOk result (rows_taken.new ≡ more_taken rows_taken.old 1) }
    ensures handed { (rows : List ShownRow) × Hands T.takes T.stops sink.old sink.new rows result }
    ensures reads { ReadsStore S.Store (IsReadFrom S.Store) (FailsToReadUnder S.Store number) conn.old conn.new result }
    ensures shut { HasCleanDisk (state S.Store conn.new) → (state S.Store conn.old).is_open ≡ false → IsErr result × (sink.new ≡ sink.old) }
{
    let Some(info) = info_of_number(alloc, conn, number, rows_taken)? else {
        return Ok(End::All);
    };
    let row = Row {
        shown: "",
        text: info.as_bytes(),
    };
    match sink.take(row) {
        Demand::More => Ok(End::All),
        Demand::Stop => Ok(End::Stopped),
    }
}

/// Hands the entries of the edition that the query finds by the strategy to the sink, in the order of the index, each as
/// a row of what is shown of it and its text. It counts the entries that it looks at, and the rows that its statements hand over, one
/// for each part of a text that is read: where the sink stops and the strategy tests no entry, those entries that were handed out.
///
/// What is found the index tells, which is the edition's. The text of each entry is cut out of the parts in which it lies: those that
/// are kept under the number of the edition and their own, and the others, which are read, and kept from then on, unless a growth is
/// refused, which is no fault. What is kept under other numbers was so before. A number above the count of installs is no edition's, and
/// nothing is kept under it. Where nothing is found, no part is asked for.
///
/// `Memory` tells that a growth was refused, `Disk` that the store failed, or that the limit on steps was met. The database
/// stays as it is.
pub fn find<S: Alter, T: RowSink>(
    alloc: Global,
    conn: &mut Connection<S>,
    texts: &mut TextParts,
    installs: u64,
    number: u64,
    index: &Index,
    strategy: Strategy,
    query: &Key,
    sink: &mut T,
    rows_taken: &mut u64,
) -> Result<End, Fault>
    requires { WhileOpen (state S.Store conn.old) HasLookupTables }
    ensures value { HasCleanDisk (state S.Store conn.new) → (edition : Edition) (text : List ℕ) → Cuts index.now edition text → ArePartsOf number text texts.old → (IsTrue (state S.Store conn.old).is_open → HoldsText (state S.Store conn.old).now number text) → Hands T.takes T.stops sink.old sink.new (found_rows strategy query.now edition) result }
    ensures handed { (rows : List ShownRow) × Hands T.takes T.stops sink.old sink.new rows result }
    ensures taken { result ≡ Ok End.All → (read : ℕ) × (rows_taken.new ≡ more_taken rows_taken.old (count_selected strategy query.now index.now + read)) }
    ensures looks { (edition : Edition) → IsIndexOf index.now edition → result ≡ Ok End.All → LooksAt rows_taken.old rows_taken.new (count_of What.Entries strategy query.now edition) }
    ensures reads { ReadsStore S.Store (IsAtMostRead S.Store) (FailsToFind S.Store number) conn.old conn.new result }
    ensures keeps { KeepsParts S.Store installs number conn.old conn.new texts.old texts.new }
{
    edition_laws();
    let found = index.find(alloc, strategy, query.as_bytes())?;
    let selected = found.looked_at as u64;
    let places = found.places.as_slice();
    let mut handed = 0;
    match hand_found(
        alloc,
        conn,
        texts,
        installs,
        number,
        index,
        places,
        sink,
        &mut handed,
        rows_taken,
    ) {
        Ok(end) => {
            let looked = looked_at(strategy, end, selected, handed);
            *rows_taken = rows_taken.saturating_add(looked);
            Ok(end)
        }
        Err(fault) => Err(fault),
    }
}

// How many entries were looked at. Where the sink has stopped, that is as many as were handed out, if the strategy tests none before.
fn looked_at(strategy: Strategy, end: End, selected: u64, handed: u64) -> u64
    ensures { end ≡ End.All → result ≡ selected }
{
    match end {
        End::All => selected,
        End::Stopped if is_tested(strategy) => selected,
        End::Stopped => handed,
    }
}

/// Hands the headwords shown of the entries that the query finds by the strategy to the sink, each once, in the order in which
/// they first stand among these, as rows with the empty text, where this is the index of an edition. It counts the entries that the
/// index looks at. The only fault is `Memory`: a growth was refused, and nothing was handed out.
pub fn heads<T: RowSink>(
    alloc: Global,
    index: &Index,
    strategy: Strategy,
    query: &Key,
    sink: &mut T,
    rows_taken: &mut u64,
) -> Result<End, Fault>
    ensures value { (edition : Edition) → IsIndexOf index.now edition → Hands T.takes T.stops sink.old sink.new (headword_rows strategy query.now edition) result }
    ensures handed { (rows : List ShownRow) × Hands T.takes T.stops sink.old sink.new rows result }
    ensures taken { OnOk result (rows_taken.new ≡ more_taken rows_taken.old (count_selected strategy query.now index.now)) }
    ensures looks { (edition : Edition) → IsIndexOf index.now edition → OnOk result (LooksAt rows_taken.old rows_taken.new (count_of What.Entries strategy query.now edition)) }
    ensures kinds { IfErr result (λ fault. fault ≡ Fault.Memory) }
    ensures refused { OnErr result (sink.new ≡ sink.old) }
{
    edition_laws();
    let found = index.find_headwords(alloc, strategy, query.as_bytes())?;
    *rows_taken = rows_taken.saturating_add(found.looked_at as u64);
    Ok(hand_headwords(index, found.places.as_slice(), sink))
}

// How many entries the query finds, or how many headwords are shown of them, and how many entries were looked at.
fn counted(
    alloc: Global,
    index: &Index,
    strategy: Strategy,
    query: &[u8],
    what: What,
) -> Result<Counted, AllocError>
    ensures count { IfOk result (λ counted. (edition : Edition) → IsIndexOf index.now edition → counted.count ≡ count_of what strategy query.now edition) }
    ensures looked_at { IfOk result (λ counted. counted.looked_at ≡ count_selected strategy query.now index.now) }
    ensures fewer { IfOk result (λ counted. (edition : Edition) → IsIndexOf index.now edition → count_of What.Entries strategy query.now edition ≤ counted.looked_at) }
{
    edition_laws();
    match what {
        What::Entries => index.count_entries(alloc, strategy, query),
        What::Headwords => index.count_headwords(alloc, strategy, query),
    }
}

/// How many entries the query finds by the strategy, or how many headwords are shown of them, where this is the index of an edition.
/// It counts the entries that the index looks at. The only fault is `Memory`: a growth was refused.
pub fn count(
    alloc: Global,
    index: &Index,
    strategy: Strategy,
    query: &Key,
    what: What,
    rows_taken: &mut u64,
) -> Result<u64, Fault>
    ensures value { IfOk result (λ count. (edition : Edition) → IsIndexOf index.now edition → count ≡ count_of what strategy query.now edition) }
    ensures taken { OnOk result (rows_taken.new ≡ more_taken rows_taken.old (count_selected strategy query.now index.now)) }
    ensures looks { (edition : Edition) → IsIndexOf index.now edition → OnOk result (LooksAt rows_taken.old rows_taken.new (count_of What.Entries strategy query.now edition)) }
    ensures kinds { IfErr result (λ fault. fault ≡ Fault.Memory) }
{
    let counted = counted(alloc, index, strategy, query.as_bytes(), what)?;
    *rows_taken = rows_taken.saturating_add(counted.looked_at as u64);
    Ok(counted.count as u64)
}
