// The indexes of a desk: where it is opened, and over a command.
ghost use Rattle.std.specs.Prelude.{◌≡◌, ℕ, true, OnOk, OnErr};
ghost use Rattle.dict_catalogue.specs.Commands.{verb_of};
ghost use Rattle.dict_catalogue.specs.Views.{command_meant};
ghost use Rattle.dict_catalogue.specs.WellFormed.{is_install};
ghost use Rattle.store_holdings.specs.Indexes.{entries_under};
ghost use Rattle.store_desk.specs.Indexed.{index_coming, HasLetGoIndexes, HasPutIfSome, HasSettled};

use dict_catalogue::{Command, Item};
use dict_desk::Fault;
use std::alloc::{AllocError, Global};
use store_commands::Applied;
use store_holdings::{Indexes, let_go_of_gone, make_indexes};
use store_search::making_of_edition;

// Puts the index of the edition that a command installs, if it installs one, under the number that the edition gets: it is made when it
// is asked for.
pub(crate) fn put_coming(
    alloc: Global,
    indexes: &mut Indexes,
    number: u64,
    command: &Command,
) -> Result<(), AllocError>
    ensures put { OnOk result (HasPutIfSome number (index_coming command.now) indexes.old indexes.new) }
    ensures refused { OnErr result ((q : ℕ) → entries_under q indexes.new ≡ entries_under q indexes.old) }
    ensures asked { OnErr result (is_install (verb_of (command_meant command.now)) ≡ true) }
{
    match command {
        Command::Install { edition, .. } => {
            let making = making_of_edition(alloc, edition)?;
            indexes.put_unmade(number, making)
        }
        Command::Rollback { .. }
        | Command::Retire { .. }
        | Command::PutVirtual { .. }
        | Command::Place { .. } => Ok(()),
    }
}

// Makes the indexes of all editions of these items if it is to be so, as far as there is memory.
pub(crate) fn index_if(indexed: bool, indexes: &mut Indexes, items: &[Item])
    ensures { indexes.new ≡ indexes.old }
{
    if indexed {
        make_indexes(indexes, items);
    }
}

// Where the command acted, the indexes of the editions that went are let go of, and where it didn't, the one that was to come.
pub(crate) fn settle(
    indexes: &mut Indexes,
    before: &[Item],
    number: u64,
    outcome: &Result<Applied, Fault>,
)
    ensures settled { HasSettled number outcome.now indexes.old indexes.new }
    ensures gone { HasLetGoIndexes before.now number outcome.now indexes.new }
{
    match outcome {
        Ok(Applied::Done(_, after)) => {
            let_go_of_gone(indexes, before, &after.items);
        }
        Ok(Applied::Repeated(_)) | Err(_) => indexes.let_go(number),
    }
}
