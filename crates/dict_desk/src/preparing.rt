// A keeper that prepares a command before it comes.
ghost use Rattle.std.specs.Prelude.{◌≡◌, ◌↔◌, ◌||◌, Bool, true, false, List, Option, Result, IfErr, OnOk, Ok, Err, None, is_some, ⊤};
ghost use Rattle.dict_index.specs.Edition.{ReadEdition, edition_of};
ghost use Rattle.dict_index.specs.Meaning.{IsReadEdition, IsFault};
ghost use Rattle.dict_catalogue.specs.Commands.{install};
ghost use Rattle.dict_catalogue.specs.Steps.{Catalogue, kept_under, step};
ghost use Rattle.dict_catalogue.specs.Views.{command_meant};
ghost use Rattle.dict_desk.specs.Applying.{Applies, Leaves};
ghost use Rattle.dict_desk.specs.Faults.{IsOfCommand, IsOfLookup, is_disk, is_failure, has_closed_by, has_failed_by};
ghost use Rattle.dict_desk.specs.declared.fault.Fault.{Fault as Failure};
ghost use Rattle.dict_desk.specs.Expected.{Expected, of_command, of_files};
ghost use Rattle.dict_desk.specs.Answering.{IfDone, IfLetGo, IfRefused};
ghost use Rattle.dict_desk.specs.Keeping.{KeepsCatalogue};

use crate::answered::Answered;
use crate::fault::Fault;
use crate::keeper::Keeper;
use crate::plain::PlainDesk;
use dict_catalogue::Command;

/// Prepares a command that may come, so that it takes less time once it does.
///
/// Nothing that is shown changes by it, nor which catalogues a stop may leave; and what was prepared changes no answer. A command
/// that was expected need not come, and another one may.
pub trait Preparer: Keeper {
    // Between two of its states it was told of this. What foresees commands tells by it what that was.
    ghost expects: { Self → Expected → Self → Type 0 };

    // Between two of its states it was asked to prepare a part of what it was told of last, and answered so. What holds a command
    // back tells by it that there is more of it to prepare.
    ghost prepares: { Self → Result Bool Failure → Self → Type 0 };

    // Between two of its states it let go of what it was told of, and of all that was prepared of it.
    ghost forgets: { Self → Self → Type 0 } = { λ _ _. ⊤ };

    // Between two of its states a call that prepares failed by this fault, for a cause that this names.
    ghost fails_to_prepare: { Self → Self → Failure → Type 0 };

    /// Notes a command that may come next, in place of what was noted before. Of an edition that comes in files, `expect_install` is
    /// told.
    fn expect(&mut self, command: &Command) -> Result<(), Fault>
        ensures told { expects self.old (of_command (command_meant command.now)) self.new }
        ensures keeps { KeepsCatalogue Self.shows Self.leaves_one_of Self.keeps_beside Self.is_trusted Self.has_failed Self.is_closed fails_to_prepare (Self.has_failed self.old) self.old self.new result };

    /// Notes an install that may come next by its name and its two files, an index and a text, in place of what was noted before.
    /// The files are read later, as a part of what is prepared.
    fn expect_install(&mut self, name: &str, index: &[u8], text: &[u8]) -> Result<(), Fault>
        ensures told { expects self.old (of_files name.now index.now text.now) self.new }
        ensures keeps { KeepsCatalogue Self.shows Self.leaves_one_of Self.keeps_beside Self.is_trusted Self.has_failed Self.is_closed fails_to_prepare (Self.has_failed self.old) self.old self.new result };

    /// Prepares a bounded part of what was noted last. Whether there is more to prepare.
    fn prepare(&mut self) -> Result<bool, Fault>
        ensures prepared { prepares self.old result self.new }
        ensures keeps { KeepsCatalogue Self.shows Self.leaves_one_of Self.keeps_beside Self.is_trusted Self.has_failed Self.is_closed fails_to_prepare (Self.has_failed self.old) self.old self.new result };

    /// Answers an install under the id of its request, where just this name and these two files were noted last, and are read: once all
    /// of it is prepared the command is applied as ever, and files that say no edition are refused. None, and what was prepared is let
    /// go of: nothing is known of the install, which may be read and applied as if nothing had been prepared.
    fn answer_prepared(
        &mut self,
        id: &str,
        name: &str,
        index: &[u8],
        text: &[u8],
    ) -> Result<Option<Answered>, Fault>
        // it was done or not: the one edition that these files say, under this name and this id, with all that holds of `apply`
        ensures done { IfDone result (λ outcome. (reading : ReadEdition) × IsReadEdition index.now text.now reading × Self.applies self.old (record { id = id.now; command = install name.now (edition_of reading) }) outcome self.new) }
        ensures value { Self.is_trusted self.new → (M : Catalogue) → Self.shows self.old M → IfDone result (λ outcome. (reading : ReadEdition) → IsReadEdition index.now text.now reading → Applies (Self.shows self.new) M (step M id.now (install name.now (edition_of reading))) outcome) }
        ensures left { Self.is_trusted self.new → (M : Catalogue) → Self.shows self.old M → IfDone result (λ outcome. (reading : ReadEdition) → IsReadEdition index.now text.now reading → Leaves (Self.leaves_one_of self.old) (Self.leaves_one_of self.new) (is_some (kept_under M.kept id.now)) (step M id.now (install name.now (edition_of reading))).catalogue outcome) }
        ensures spares { (ms : List (Option Catalogue)) → Self.leaves_one_of self.old ms → IfDone result (λ outcome. IfErr outcome (λ fault. is_disk fault ≡ false → Self.leaves_one_of self.new ms)) }
        ensures kinds_done { IfDone result (λ outcome. IfErr outcome IsOfCommand) }
        ensures caused_done { Self.is_trusted self.new → IfDone result (λ outcome. (reading : ReadEdition) → IsReadEdition index.now text.now reading → IfErr outcome (λ fault. is_failure fault ≡ true → Self.fails_to_apply self.old (record { id = id.now; command = install name.now (edition_of reading) }) self.new fault)) }
        ensures failed_done { IfDone result (λ outcome. Self.has_failed self.new ≡ has_failed_by outcome) }
        ensures closes_done { IfDone result (λ outcome. Self.is_closed self.new ≡ (Self.is_closed self.old || has_closed_by outcome)) }
        ensures closed_done { IfDone result (λ outcome. (outcome ≡ Err Fault.Closed) ↔ (Self.is_closed self.old ≡ true)) }
        // it was refused: by the first test that these files don't pass, and nothing was done
        ensures refused { IfRefused result (λ refusal line. IsFault index.now text.now refusal line × (self.new ≡ self.old)) }
        // what was prepared is let go of, by all that holds of `forget`
        ensures gone { result ≡ Ok None → forgets self.old self.new }
        ensures shows { Self.is_trusted self.new → (M : Catalogue) → Self.shows self.old M → IfLetGo result (λ _. Self.shows self.new M) }
        ensures leaves { (ms : List (Option Catalogue)) → Self.leaves_one_of self.old ms → IfLetGo result (λ _. Self.leaves_one_of self.new ms) }
        ensures kinds { IfErr result IsOfLookup }
        ensures caused { Self.is_trusted self.new → IfErr result (fails_to_prepare self.old self.new) }
        ensures failed { IfLetGo result (λ gone. Self.has_failed self.new ≡ (Self.has_failed self.old || has_failed_by gone)) }
        ensures closes { IfLetGo result (λ gone. Self.is_closed self.new ≡ (Self.is_closed self.old || has_closed_by gone)) }
        // always
        ensures trust { Self.is_trusted self.new → Self.is_trusted self.old }
        ensures beside { (beside : Self.Beside) → Self.keeps_beside self.old beside → Self.keeps_beside self.new beside }
        ensures closed { (result ≡ Err Fault.Closed) ↔ (Self.is_closed self.old ≡ true) };

    /// Lets go of what was noted last, and of what was prepared of it.
    fn forget(&mut self) -> Result<(), Fault>
        ensures gone { OnOk result (forgets self.old self.new) }
        ensures keeps { KeepsCatalogue Self.shows Self.leaves_one_of Self.keeps_beside Self.is_trusted Self.has_failed Self.is_closed fails_to_prepare (Self.has_failed self.old) self.old self.new result };
}

/// A catalogue in memory prepares nothing.
impl Preparer for PlainDesk {
    ghost expects = { λ old _ new. new ≡ old };

    ghost prepares = { λ old result new. (result ≡ Ok false) × (new ≡ old) };

    ghost fails_to_prepare = { λ _ _ _. ⊥ };

    fn expect(&mut self, _command: &Command) -> Result<(), Fault> {
        Ok(())
    }

    fn expect_install(&mut self, _name: &str, _index: &[u8], _text: &[u8]) -> Result<(), Fault> {
        Ok(())
    }

    fn prepare(&mut self) -> Result<bool, Fault> {
        Ok(false)
    }

    fn answer_prepared(
        &mut self,
        _id: &str,
        _name: &str,
        _index: &[u8],
        _text: &[u8],
    ) -> Result<Option<Answered>, Fault> {
        Ok(None)
    }

    fn forget(&mut self) -> Result<(), Fault> {
        Ok(())
    }
}
