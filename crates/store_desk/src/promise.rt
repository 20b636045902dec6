// What is promised of commands that are applied to a file.
ghost use Rattle.std.specs.Prelude.{◌≡◌, ◌≤◌, ◌<◌, ◌||◌, true, false, List, Option, IfOk, IfErr, OnOk, map, length, vec_len};
ghost use Rattle.sqlite.specs.State.{HasCleanDisk};
ghost use Rattle.sqlite.specs.Held.{state};
ghost use Rattle.dict_catalogue.specs.Steps.{Catalogue, after};
ghost use Rattle.dict_desk.specs.AllApplied.{reply_shown, replies, AreApplied, HasHalted};
ghost use Rattle.dict_desk.specs.Faults.{IsOfLookup, is_disk};
ghost use Rattle.dict_desk.specs.Requests.{requests_meant};
ghost use Rattle.store_desk.specs.Desk.{LeavesOneOf, is_closed, has_failed};
ghost use Rattle.store_desk.specs.Causes.{IsAppliedTo};
ghost use Rattle.store_desk.specs.Promise.{KeepsAlone, KeepsFront, KeepsAt};

use crate::desk::Desk;
use dict_catalogue::{Command, CommandRefusal, Kept};
use dict_desk::{Fault, Halted, apply_all};
use sqlite::Alter;
use std::alloc::Global;

/// Applies commands to a file one after another, each under the id of its request, and tells what each was answered.
///
/// Wherever it is stopped, and however the store fails: what is left on the disk holds the catalogue after a front of the
/// commands, and no other; this front has every command that was answered, and at most one more. A refusal doesn't stop it; the first failure does.
///
/// `Memory`: a growth was refused. The commands that were answered stand, no other does, and the desk goes on. `Disk`: the store
/// failed, and the desk is closed; the command that failed may be there too, whole. `Closed`: the desk was so before, and no
/// command was tried. No other fault comes.
pub fn apply_to_file<S: Alter + Drop>(
    alloc: Global,
    desk: &mut Desk<S>,
    requests: &[(&str, Command)],
) -> Result<Vec<Result<Kept, CommandRefusal>>, Halted>
    ensures answered { IfOk result (λ outcomes. KeepsFront S.Store desk.old desk.new (requests_meant requests.now) (vec_len outcomes)) }
    ensures halted { IfErr result (λ halted. KeepsFront S.Store desk.old desk.new (requests_meant requests.now) halted.stand) }
    ensures called { IfOk result (λ outcomes. AreApplied (IsAppliedTo S.Store) desk.old (requests_meant requests.now) outcomes.items desk.new) }
    ensures failed { IfErr result (λ halted. HasHalted (IsAppliedTo S.Store) desk.old (requests_meant requests.now) halted.stand halted.fault desk.new) }
    ensures told { IfOk result (λ outcomes. HasCleanDisk (state S.Store desk.new.conn) → (M : Catalogue) → KeepsAlone S.Store desk.old M → map reply_shown outcomes.items ≡ replies M (requests_meant requests.now)) }
    ensures goes_on { IfOk result (λ outcomes. HasCleanDisk (state S.Store desk.new.conn) → (M : Catalogue) → KeepsAlone S.Store desk.old M → KeepsAlone S.Store desk.new (after M (requests_meant requests.now))) }
    ensures stands { IfErr result (λ halted. HasCleanDisk (state S.Store desk.new.conn) → (M : Catalogue) → KeepsAlone S.Store desk.old M → KeepsAt S.Store desk.new M (requests_meant requests.now) halted.stand halted.fault) }
    ensures spares { (ms : List (Option Catalogue)) → LeavesOneOf S.Store desk.old ms → IfErr result (λ halted. halted.stand ≡ 0 → is_disk halted.fault ≡ false → LeavesOneOf S.Store desk.new ms) }
    ensures kinds { IfErr result (λ halted. IsOfLookup halted.fault) }
    ensures open { OnOk result (0 < length requests.now → has_failed desk.new.last ≡ false) }
    ensures closes { IfErr result (λ halted. is_closed desk.new.last ≡ (is_closed desk.old.last || is_disk halted.fault)) }
    ensures closed { IfErr result (λ halted. halted.fault ≡ Fault.Closed → (is_closed desk.old.last ≡ true) × (halted.stand ≡ 0)) }
    ensures counted { IfOk result (λ outcomes. vec_len outcomes ≡ length requests.now) }
    ensures within { IfErr result (λ halted. halted.stand ≤ length requests.now) }
{
    apply_all(alloc, desk, requests)
}
