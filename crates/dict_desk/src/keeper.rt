// What keeps a catalogue.
ghost use Rattle.std.specs.Prelude.{◌≡◌, ◌↔◌, ◌≤◌, ◌<◌, true, false, ◌||◌, List, Option, Result, IfOk, IfErr, OnOk, Err, is_some, option_map, length, vec_len, ⊤};
ghost use Rattle.dict_catalogue.specs.Steps.{Catalogue, CommandRequest, kept_under, step};
ghost use Rattle.dict_catalogue.specs.declared.reply.Kept.{Kept as Reply};
ghost use Rattle.dict_catalogue.specs.Views.{command_meant, kept_shown};
ghost use Rattle.dict_desk.specs.Applying.{Applies, Leaves};
ghost use Rattle.dict_desk.specs.Faults.{IsOfLookup, IsOfCommand, is_disk, is_failure, has_failed_by, has_closed_by};
ghost use Rattle.dict_desk.specs.Keeping.{KeepsCatalogue};
ghost use Rattle.dict_desk.specs.Requests.{requests_meant};
ghost use Rattle.dict_desk.specs.AllApplied.{settled_answer, AllAnswered, HaltsAt, AreApplied, HasHalted};
ghost use Rattle.dict_desk.specs.declared.fault.Fault.{Fault as Failure};

use crate::fault::Fault;
use crate::lookup::Lookup;
use dict_catalogue::{Command, CommandRefusal, Kept};
use std::alloc::Global;
use thiserror::Error;

/// Keeps a catalogue, and changes it by commands.
pub trait Keeper: Lookup {
    // Between two of its states a command was applied under the id of its request, and answered so. What applies commands in turn
    // tells by it which of them were.
    ghost applies: { Self → CommandRequest → Result Reply Failure → Self → Type 0 } = { λ _ _ _ _. ⊤ };

    // Between two of its states a command under the id of its request failed by this fault, for a cause that this names.
    ghost fails_to_apply: { Self → CommandRequest → Self → Failure → Type 0 };

    /// The reply that is kept under the id of a request, if there is one.
    fn kept(&mut self, id: &str) -> Result<Option<Kept>, Fault>
        ensures value { Self.is_trusted self.new → (M : Catalogue) → Self.shows self.old M → IfOk result (λ reply. option_map kept_shown reply ≡ kept_under M.kept id.now) }
        ensures keeps { KeepsCatalogue Self.shows Self.leaves_one_of Self.keeps_beside Self.is_trusted Self.has_failed Self.is_closed Self.gives_way false self.old self.new result }
        ensures reads { Self.only_reads self.old self.new };

    /// Applies a command under the id of its request: the whole of it, or nothing.
    ///
    /// An unlawful id is refused; an id that is kept answers its reply again, and changes nothing, whatever the
    /// command; else the command's own tests decide. At `Ok` the command has done its effect, and its reply is kept.
    fn apply(&mut self, id: &str, command: &Command) -> Result<Kept, Fault>
        ensures applied { applies self.old (record { id = id.now; command = command_meant command.now }) result self.new }
        ensures value { Self.is_trusted self.new → (M : Catalogue) → Self.shows self.old M → Applies (Self.shows self.new) M (step M id.now (command_meant command.now)) result }
        ensures trust { Self.is_trusted self.new → Self.is_trusted self.old }
        ensures beside { (beside : Self.Beside) → Self.keeps_beside self.old beside → Self.keeps_beside self.new beside }
        ensures leaves { Self.is_trusted self.new → (M : Catalogue) → Self.shows self.old M → Leaves (Self.leaves_one_of self.old) (Self.leaves_one_of self.new) (is_some (kept_under M.kept id.now)) (step M id.now (command_meant command.now)).catalogue result }
        ensures spares { (ms : List (Option Catalogue)) → Self.leaves_one_of self.old ms → IfErr result (λ fault. is_disk fault ≡ false → Self.leaves_one_of self.new ms) }
        ensures kinds { IfErr result IsOfCommand }
        ensures caused { Self.is_trusted self.new → IfErr result (λ fault. is_failure fault ≡ true → fails_to_apply self.old (record { id = id.now; command = command_meant command.now }) self.new fault) }
        ensures failed { Self.has_failed self.new ≡ has_failed_by result }
        ensures closes { Self.is_closed self.new ≡ (Self.is_closed self.old || has_closed_by result) }
        ensures closed { (result ≡ Err Fault.Closed) ↔ (Self.is_closed self.old ≡ true) };
}

/// The failure that ended a list of commands.
#[derive(Clone, Copy, Debug, PartialEq, Eq, Error)]
#[error("a command failed, and those behind it were not tried")]
pub struct Halted {
    /// How many commands were answered before it. What they did stands.
    pub stand: usize,
    /// The failure, which is no refusal.
    pub fault: Fault,
}

// An answer that lets the next command have its turn, or the failure that doesn't.
fn settled(answer: Result<Kept, Fault>) -> Result<Result<Kept, CommandRefusal>, Fault>
    ensures { result ≡ settled_answer answer }
{
    match answer {
        Ok(kept) => Ok(Ok(kept)),
        Err(Fault::Refused(refusal)) => Ok(Err(refusal)),
        Err(fault) => Err(fault),
    }
}

/// Applies commands one after another, each under the id of its request, and tells what each was answered.
///
/// A refusal doesn't stop it. The first failure does: then it tells how many commands were answered before, refused ones among
/// them, which stand, and the failure, which is that of the command behind them. Where that is `Disk`, the command that failed is there whole or not at all once the desk is
/// opened anew. The list of the answers has its room before the first command is applied, so no memory is wanting for
/// it once one is.
pub fn apply_all<K: Keeper>(
    alloc: Global,
    desk: &mut K,
    requests: &[(&str, Command)],
) -> Result<Vec<Result<Kept, CommandRefusal>>, Halted>
    ensures value { K.is_trusted desk.new → (M : Catalogue) → K.shows desk.old M → IfOk result (λ outcomes. AllAnswered (K.shows desk.new) (K.leaves_one_of desk.old) (K.leaves_one_of desk.new) M (requests_meant requests.now) outcomes.items) }
    ensures halted { K.is_trusted desk.new → (M : Catalogue) → K.shows desk.old M → IfErr result (λ halted. HaltsAt (K.shows desk.new) (K.leaves_one_of desk.old) (K.leaves_one_of desk.new) M (requests_meant requests.now) halted.stand halted.fault) }
    ensures called { IfOk result (λ outcomes. AreApplied K.applies desk.old (requests_meant requests.now) outcomes.items desk.new) }
    ensures failed { IfErr result (λ halted. HasHalted K.applies desk.old (requests_meant requests.now) halted.stand halted.fault desk.new) }
    ensures trust { K.is_trusted desk.new → K.is_trusted desk.old }
    ensures beside { (beside : K.Beside) → K.keeps_beside desk.old beside → K.keeps_beside desk.new beside }
    ensures counted { IfOk result (λ outcomes. vec_len outcomes ≡ length requests.now) }
    ensures within { IfErr result (λ halted. halted.stand ≤ length requests.now) }
    ensures spares { (ms : List (Option Catalogue)) → K.leaves_one_of desk.old ms → IfErr result (λ halted. halted.stand ≡ 0 → is_disk halted.fault ≡ false → K.leaves_one_of desk.new ms) }
    ensures kinds { IfErr result (λ halted. IsOfLookup halted.fault) }
    ensures open { OnOk result (0 < length requests.now → K.has_failed desk.new ≡ false) }
    ensures closes { IfErr result (λ halted. K.is_closed desk.new ≡ (K.is_closed desk.old || is_disk halted.fault)) }
    ensures closed { IfErr result (λ halted. halted.fault ≡ Fault.Closed → (K.is_closed desk.old ≡ true) × (halted.stand ≡ 0)) }
    ensures never { K.is_closed desk.old ≡ true → OnOk result (length requests.now ≡ 0) }
{
    let Ok(mut outcomes) = Vec::with_capacity(alloc, requests.len()) else {
        return Err(Halted {
            stand: 0,
            fault: Fault::Memory,
        });
    };
    for request in requests {
        match settled(desk.apply(request.0, &request.1)) {
            Ok(outcome) => outcomes.push_reserved(outcome),
            Err(fault) => {
                return Err(Halted {
                    stand: outcomes.len(),
                    fault,
                });
            }
        }
    }
    Ok(outcomes)
}
