// What finds entries in a catalogue.
ghost use Rattle.std.specs.Prelude.{◌≡◌, ℕ, Bool, true, false, List, Option, Contains, IsOk, IfOk, Ok, Err, ⊤};
ghost use Rattle.dict_index.specs.Edition.{Edition};
ghost use Rattle.dict_catalogue.specs.Steps.{Catalogue, summary_of};
ghost use Rattle.dict_catalogue.specs.Views.{summary_shown};
ghost use Rattle.dict_catalogue.specs.WellFormed.{IsWellFormed};
ghost use Rattle.dict_index.specs.Found.{Row, info_rows};
ghost use Rattle.dict_desk.specs.Shown.{HasEdition, rows_given, count_of};
ghost use Rattle.dict_desk.specs.Handing.{Hands};
ghost use Rattle.dict_desk.specs.Keeping.{KeepsCatalogue};
ghost use Rattle.dict_desk.specs.declared.fault.Fault.{Fault as Failure};

use crate::fault::Fault;
use crate::sink::RowSink;
use dict_catalogue::Summary;
use dict_match::{Key, Strategy};

/// How a lookup that didn't fail ended.
#[derive(Clone, Copy, Debug, PartialEq, Eq)]
pub enum End {
    /// All rows were handed out.
    All,
    /// The sink stopped.
    Stopped,
}

/// What is counted, or handed out, of the entries that are found.
#[derive(Clone, Copy, Debug, PartialEq, Eq)]
pub enum What {
    /// The entries.
    Entries,
    /// The headwords shown of them, each once.
    Headwords,
}

/// Finds entries in the editions of a catalogue, and changes nothing of it.
///
/// An edition is asked by its number, which the summary names. Of the number of no edition nothing is told.
pub trait Lookup {
    // It shows this catalogue.
    ghost shows: { Self → Catalogue → Type 0 };

    // Whatever a stop now leaves is one of these: a catalogue, which is shown where it is opened again, or a state that
    // stands for none.
    ghost leaves_one_of: { Self → List (Option Catalogue) → Type 0 };

    // What may stand beside the catalogue in what keeps it, and isn't its own.
    ghost Beside: { Type 0 };

    // Whatever a stop now leaves has this beside the catalogue.
    ghost keeps_beside: { Self → Beside → Type 0 };

    // What it stands on has returned what was written to it.
    ghost is_trusted: { Self → Type 0 };

    // Between two of its states it has counted so many looks at least: at entries, and at what was read of its store.
    ghost looks_at: { Self → Self → ℕ → Type 0 };

    // Between two of its states nothing was written to its store, and of a command that may come as much is prepared as was.
    ghost only_reads: { Self → Self → Type 0 } = { λ _ _. ⊤ };

    // Its store failed, and it answers no more.
    ghost is_closed: { Self → Bool };

    // Its last call by `&mut self` answered a fault from 40 on, or one before did, behind which commands were only prepared.
    ghost has_failed: { Self → Bool };

    // Between two of its states a call that changes no catalogue failed by this fault, for a cause that this names.
    ghost gives_way: { Self → Self → Failure → Type 0 };

    /// The catalogue without its entries and its kept replies. No memory is taken; the only fault is `Closed`.
    fn summary(&self) -> Result<&Summary, Fault>
        ensures value { (M : Catalogue) → shows self.now M → IfOk result (λ summary. summary_shown summary.now ≡ summary_of M) }
        ensures open { is_closed self.now ≡ false → IsOk result }
        ensures closed { is_closed self.now ≡ true → result ≡ Err Fault.Closed };

    /// Hands one row to the sink, which shows nothing: what the edition's database says of itself.
    fn info<T: RowSink>(&mut self, number: u64, sink: &mut T) -> Result<End, Fault>
        ensures value { is_trusted self.new → (M : Catalogue) (edition : Edition) → shows self.old M → HasEdition M number edition → Hands T.takes T.stops sink.old sink.new (info_rows edition) result }
        ensures looks { is_trusted self.new → (M : Catalogue) (edition : Edition) → shows self.old M → HasEdition M number edition → result ≡ Ok End.All → looks_at self.old self.new 1 }
        ensures handed { (rows : List Row) × Hands T.takes T.stops sink.old sink.new rows result }
        ensures keeps { KeepsCatalogue shows leaves_one_of keeps_beside is_trusted has_failed is_closed gives_way false self.old self.new result }
        ensures reads { only_reads self.old self.new };

    /// How many entries of the edition the query finds by the strategy, or how many headwords are shown of them.
    fn count(
        &mut self,
        number: u64,
        strategy: Strategy,
        query: &Key,
        what: What,
    ) -> Result<u64, Fault>
        ensures value { is_trusted self.new → (M : Catalogue) (edition : Edition) → shows self.old M → HasEdition M number edition → IfOk result (λ count. count ≡ count_of what strategy query.now edition) }
        ensures looks { is_trusted self.new → (M : Catalogue) (edition : Edition) → shows self.old M → HasEdition M number edition → (count : ℕ) → result ≡ Ok count → looks_at self.old self.new (count_of What.Entries strategy query.now edition) }
        ensures keeps { KeepsCatalogue shows leaves_one_of keeps_beside is_trusted has_failed is_closed gives_way false self.old self.new result }
        ensures reads { only_reads self.old self.new };

    /// Hands the entries of the edition that the query finds by the strategy to the sink, in the order of the index,
    /// each as a row of what is shown of it and its text; or the headwords shown of them, each once, in the order in
    /// which they first stand among these, as rows with the empty text.
    fn find<T: RowSink>(
        &mut self,
        number: u64,
        strategy: Strategy,
        query: &Key,
        what: What,
        sink: &mut T,
    ) -> Result<End, Fault>
        ensures value { is_trusted self.new → (M : Catalogue) (edition : Edition) → shows self.old M → HasEdition M number edition → Hands T.takes T.stops sink.old sink.new (rows_given what strategy query.now edition) result }
        ensures looks { is_trusted self.new → (M : Catalogue) (edition : Edition) → shows self.old M → HasEdition M number edition → result ≡ Ok End.All → looks_at self.old self.new (count_of What.Entries strategy query.now edition) }
        ensures handed { (rows : List Row) × Hands T.takes T.stops sink.old sink.new rows result }
        ensures keeps { KeepsCatalogue shows leaves_one_of keeps_beside is_trusted has_failed is_closed gives_way false self.old self.new result }
        ensures reads { only_reads self.old self.new };

    // A catalogue that is shown keeps all limits and rules.
    ghost well_formed: { (s : Self) (M : Catalogue) → shows s M → IsWellFormed M };

    // What is one of these is one of any that have these among them.
    ghost wider: { (s : Self) (ms ns : List (Option Catalogue)) → ((m : Option Catalogue) → Contains ms m → Contains ns m) → leaves_one_of s ms → leaves_one_of s ns };

    // Where the last call didn't fail, it is open.
    ghost still_open: { (s : Self) → has_failed s ≡ false → is_closed s ≡ false };
}
