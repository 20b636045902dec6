// What a command does is decided from the summary alone, before anything is written.
ghost use Rattle.std.specs.Prelude.{IfOk, IfErr};
ghost use Rattle.dict_catalogue.specs.Views.{summary_shown, command_shown, IsChange};
ghost use Rattle.store_commands.specs.Changes.{IsWritable, IsInRange};
ghost use Rattle.store_commands.specs.Decided.{IsDeclined, LiesWithin};

use dict_catalogue::{Command, PlanFault, PlannedChange, Summary, plan};
use dict_desk::Fault;
use std::alloc::Global;

/// What the command does over this summary, or the refusal of the first of its tests that fails. Its numbers can be
/// written. `Memory` is answered only where a growth was refused.
pub(crate) fn decide(
    alloc: Global,
    summary: &Summary,
    command: &Command,
) -> Result<PlannedChange, Fault>
    requires { IsInRange (summary_shown summary.now) }
    ensures planned { IfOk result (IsChange (summary_shown summary.now) (command_shown command.now)) }
    ensures writable { IfOk result (λ change. IsWritable change × IsInRange (summary_shown change.summary)) }
    ensures declined { IfErr result (IsDeclined (summary_shown summary.now) (command_shown command.now)) }
{
    match plan(alloc, summary, command) {
        Ok(change) => Ok(change),
        Err(PlanFault::Refused(refusal)) => Err(Fault::Refused(refusal)),
        Err(PlanFault::Memory) => Err(Fault::Memory),
    }
}

/// Each entry of an edition that is installed lies within its text, which is short enough for its index.
///
/// It does nothing. Its clause is what holds of every command.
pub(crate) fn lies_within(command: &Command)
    ensures { LiesWithin command.now }
{
    if let Command::Install { edition, .. } = command {
        edition.entries();
        edition.text();
    }
}
