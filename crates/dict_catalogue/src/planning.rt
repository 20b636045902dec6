// What a command makes of a summary.
ghost use Rattle.std.specs.Prelude.{◌≡◌, ◌++◌, ◌+◌, ◌<◌, ◌≤◌, ◌==◌, not, IfOk, IsTrue, List, None, OnOk, MatchResult, map, filter, ℕ};
ghost use Rattle.std.specs.List.{list_any};
ghost use Rattle.dict_catalogue.specs.Items.{numbers_of, edition_numbers};
ghost use Rattle.dict_catalogue.specs.Effects.{editions_gone, installs_after, edition_told};
ghost use Rattle.dict_text.specs.Names.{is_request_id};
ghost use Rattle.dict_catalogue.specs.Steps.{Catalogue, summary_of, kept_under, step};
ghost use Rattle.dict_catalogue.specs.Views.{item_shown, summary_shown, command_shown, command_meant, IsEffect, IsChange, IsFaultOf, IsPlanOf};

use crate::commands::Command;
use crate::effects::items_after;
use crate::fault::PlanFault;
use crate::lookups::current_number;
use crate::refusing::refusal_of;
use crate::reply::Kept;
use crate::summary::{Item, Summary};
use std::alloc::{AllocError, Global};

/// What an accepted command does.
#[derive(Debug, Drop)]
pub struct PlannedChange {
    /// The summary after the command.
    pub summary: Summary,
    /// The numbers of the editions that were there before and are not after.
    pub gone: Vec<u64>,
    /// The reply to be kept.
    pub kept: Kept,
}

/// What the command does to a catalogue with this summary: the summary after it, the editions that go and the
/// reply to be kept, or the refusal of the first of its tests that fails. `Memory` is answered only where a growth
/// was refused. Nothing is changed.
///
/// The request's id is not among what is planned: a caller has refused an unlawful id (`dict_text::is_request_id`) and
/// answered a kept one before. Over every catalogue with this summary the plan then is what the command does there.
pub fn plan(alloc: Global, summary: &Summary, command: &Command) -> Result<PlannedChange, PlanFault>
    ensures over_summary { MatchResult result (IsChange (summary_shown summary.now) (command_shown command.now)) (IsFaultOf (summary_shown summary.now) (command_shown command.now)) }
    ensures over_catalogue { (M : Catalogue) (id : List ℕ) → summary_of M ≡ summary_shown summary.now → IsTrue (is_request_id id) → kept_under M.kept id ≡ None → IsPlanOf M (step M id (command_meant command.now)) result }
{
    plan_over(alloc, summary, command)
}

fn plan_over(
    alloc: Global,
    summary: &Summary,
    command: &Command,
) -> Result<PlannedChange, PlanFault>
    ensures { MatchResult result (IsChange (summary_shown summary.now) (command_shown command.now)) (IsFaultOf (summary_shown summary.now) (command_shown command.now)) }
{
    match refusal_of(summary, command) {
        Some(refusal) => Err(PlanFault::Refused(refusal)),
        None => Ok(change_by(alloc, summary, command)?),
    }
}

/// What the command does where none of its tests fails.
fn change_by(
    alloc: Global,
    summary: &Summary,
    command: &Command,
) -> Result<PlannedChange, AllocError>
    requires { summary.now.accepted < 9223372036854775807 }
    ensures { IfOk result (IsEffect (summary_shown summary.now) (command_shown command.now)) }
{
    let items = items_after(alloc, &summary.items, command, summary.installs + 1)?;
    let gone = editions_gone(alloc, &summary.items, &items)?;
    let accepted = summary.accepted + 1;
    let kept = Kept {
        number: accepted,
        verb: command.verb(),
        name: String::from_str(alloc, command.target())?,
        edition: edition_told(command, &items),
    };
    let installs = installs_after(command, summary.installs);
    Ok(PlannedChange {
        summary: Summary {
            items,
            installs,
            accepted,
        },
        gone,
        kept,
    })
}

/// How many installs are accepted after the command.
fn installs_after(command: &Command, installs: u64) -> u64
    requires { installs < 9223372036854775807 }
    ensures after { result ≡ installs_after (command_shown command.now) installs }
    ensures within { result ≤ installs + 1 }
{
    match command {
        Command::Install { .. } => installs + 1,
        Command::Rollback { .. }
        | Command::Retire { .. }
        | Command::PutVirtual { .. }
        | Command::Place { .. } => installs,
    }
}

/// The edition that the reply tells: the current one after an install or a rollback.
fn edition_told(command: &Command, after: &[Item]) -> Option<u64>
    ensures { result ≡ edition_told (command_shown command.now) (map item_shown after.now) }
{
    match command {
        Command::Install { name, .. } => current_number(after, name),
        Command::Rollback { name } => current_number(after, name),
        Command::Retire { .. } | Command::PutVirtual { .. } | Command::Place { .. } => None,
    }
}

/// The numbers of the editions that were there before and are not after.
fn editions_gone(alloc: Global, before: &[Item], after: &[Item]) -> Result<Vec<u64>, AllocError>
    ensures { IfOk result (λ gone. gone.items ≡ editions_gone (map item_shown before.now) (map item_shown after.now)) }
{
    let numbers_before = edition_numbers(alloc, before)?;
    let numbers_after = edition_numbers(alloc, after)?;
    numbers_not_in(alloc, &numbers_before, &numbers_after)
}

fn numbers_not_in(alloc: Global, before: &[u64], after: &[u64]) -> Result<Vec<u64>, AllocError>
    ensures { IfOk result (λ gone. gone.items ≡ filter (λ number. not (list_any (λ one. one == number) after.now)) before.now) }
{
    let mut gone = Vec::new(alloc);
    for number in before {
        if !after.contains(number) {
            gone.push(*number)?;
        }
    }
    Ok(gone)
}

/// The numbers of all editions, in the order of the items.
pub fn edition_numbers(alloc: Global, items: &[Item]) -> Result<Vec<u64>, AllocError>
    ensures { IfOk result (λ numbers. numbers.items ≡ edition_numbers (map item_shown items.now)) }
{
    let mut numbers = Vec::new(alloc);
    for item in items {
        push_numbers(&mut numbers, item)?;
    }
    Ok(numbers)
}

fn push_numbers(numbers: &mut Vec<u64>, item: &Item) -> Result<(), AllocError>
    ensures { OnOk result (numbers.new.items ≡ numbers.old.items ++ numbers_of (item_shown item.now)) }
{
    if let Item::Regular {
        current,
        former,
        ..
    } = item
    {
        numbers.push(current.number)?;
        if let Some(former) = former {
            numbers.push(former.number)?;
        }
    }
    Ok(())
}
