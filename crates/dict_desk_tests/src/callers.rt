// Callers of any desk, which compose its calls.
ghost use Rattle.std.specs.Prelude.{◌≡◌, ◌∷◌, true, List, Option, Some, is_some};
ghost use Rattle.dict_text.specs.Names.{is_request_id};
ghost use Rattle.dict_index.specs.Edition.{Edition};
ghost use Rattle.dict_catalogue.specs.Steps.{Catalogue, kept_under, step};
ghost use Rattle.dict_catalogue.specs.Views.{command_meant};
ghost use Rattle.dict_index.specs.Found.{found_rows};
ghost use Rattle.dict_desk.specs.Shown.{HasEdition};
ghost use Rattle.dict_desk.specs.Handing.{Hands};
ghost use Rattle.dict_desk.specs.Applying.{Applies, Leaves};

use dict_catalogue::{Command, Kept};
use dict_desk::{End, Fault, Keeper, Lookup, RowSink, What};
use dict_match::{Key, Strategy};

/// Counts, and hands out where there is something.
pub(crate) fn count_and_find<L: Lookup, T: RowSink>(
    desk: &mut L,
    number: u64,
    strategy: Strategy,
    query: &Key,
    sink: &mut T,
) -> Result<End, Fault>
    ensures value { L.is_trusted desk.new → (M : Catalogue) (edition : Edition) → L.shows desk.old M → HasEdition M number edition → Hands T.takes T.stops sink.old sink.new (found_rows strategy query.now edition) result }
    ensures shows { L.is_trusted desk.new → (M : Catalogue) → L.shows desk.old M → L.shows desk.new M }
    ensures leaves { (ms : List (Option Catalogue)) → L.leaves_one_of desk.old ms → L.leaves_one_of desk.new ms }
{
    let count = desk.count(number, strategy, query, What::Entries)?;
    if count == 0 {
        return Ok(End::All);
    }
    desk.find(number, strategy, query, What::Entries, sink)
}

/// Asks whether an id is kept, and applies the command if it isn't.
pub(crate) fn kept_or_applied<K: Keeper>(
    desk: &mut K,
    id: &str,
    command: &Command,
) -> Result<Kept, Fault>
    ensures value { K.is_trusted desk.new → (M : Catalogue) → K.shows desk.old M → is_request_id id.now ≡ true → Applies (K.shows desk.new) M (step M id.now (command_meant command.now)) result }
    ensures leaves { K.is_trusted desk.new → (M : Catalogue) → K.shows desk.old M → Leaves (K.leaves_one_of desk.old) (K.leaves_one_of desk.new) (is_some (kept_under M.kept id.now)) (step M id.now (command_meant command.now)).catalogue result }
    ensures any { K.is_trusted desk.new → (M : Catalogue) (ms : List (Option Catalogue)) → K.shows desk.old M → K.leaves_one_of desk.old ms → K.leaves_one_of desk.new (Some (step M id.now (command_meant command.now)).catalogue ∷ ms) }
{
    match desk.kept(id) {
        Ok(Some(kept)) => Ok(kept),
        Ok(None) => desk.apply(id, command),
        Err(fault) => Err(fault),
    }
}
