// What holds of every catalogue's summary.
ghost use Rattle.dict_catalogue.specs.Steps.{Catalogue, holdings, kept_under, summary_of, with_effect};
ghost use Rattle.dict_catalogue.specs.WellFormed.{IsWellFormed};
ghost use Rattle.std.specs.Prelude.{◌≡◌, List, ℕ, None, IsTrue};
ghost use Rattle.sqlite.specs.Effect.{Database};
ghost use Rattle.dict_text.specs.Names.{is_request_id};
ghost use Rattle.dict_index.specs.Edition.{Edition};
ghost use Rattle.dict_catalogue.specs.Commands.{Command};
ghost use Rattle.dict_catalogue.specs.Tests.{refusal_of};
ghost use Rattle.dict_catalogue.specs.WellFormed.{IsLawfulCommand};
ghost use Rattle.store_rows.specs.After.{TableChange, IsTableChange};
ghost use Rattle.store_rows.specs.Versions.{known};
ghost use Rattle.store_holdings.specs.AllTables.{all_after};
ghost use Rattle.store_holdings.specs.Holds.{Holds};
ghost use Rattle.store_commands.specs.KeptRecords.{TurnsRecords};
ghost use Rattle.store_commands.specs.Changes.{IsInRange};

/// The summary of a well formed catalogue has its editions' numbers in range, so commands can be applied over it.
///
/// It does nothing. Its clause is the law.
pub fn summaries_in_range()
    ensures { (M : Catalogue) → IsWellFormed M → IsInRange (summary_of M) }
{}

/// A command that makes of all records what `all_after` says leaves a database that holds the catalogue after it, with the parts of
/// its files, and those of editions that went as orphans.
///
/// It does nothing. Its clause is the law.
pub fn command_holds()
    ensures { (change : TableChange) (M : Catalogue) (id : List ℕ) (command : Command Edition) (old new : Database) → TurnsRecords (all_after known change) old new → Holds known old M → IsLawfulCommand command → IsTrue (is_request_id id) → kept_under M.kept id ≡ None → refusal_of (holdings M) command ≡ None
        → IsTableChange M id command change → Holds known new (with_effect M id command) }
{}
