// The tests that a command has to pass, in order.
ghost use Rattle.std.specs.Prelude.{◌≡◌, ◌<◌, map, IfNone, []};
ghost use Rattle.dict_catalogue.specs.Items.{is_among};
ghost use Rattle.dict_catalogue.specs.Tests.{has_turn, has_member_count, has_room, first_failing, member_tests, install_tests, rollback_tests, retire_tests, put_virtual_tests, place_tests, refusal_of};
ghost use Rattle.dict_catalogue.specs.Views.{item_shown, summary_shown, names_shown, command_shown};

use crate::commands::Command;
use crate::fault::CommandRefusal;
use crate::lookups::{is_known, is_listed, names_former, names_regular, names_virtual};
use crate::summary::{Item, Summary};
use dict_text::{is_name, is_title};

/// The most items of a catalogue.
pub const MAX_ITEMS: usize = 64;

/// The most members of a virtual item.
pub const MAX_MEMBERS: usize = 64;

/// The most commands that a catalogue accepts.
pub const MAX_ACCEPTED: u64 = 9_223_372_036_854_775_807;

/// Why the command is refused: the first of its tests that fails, if one does. No memory is taken.
pub fn refusal_of(summary: &Summary, command: &Command) -> Option<CommandRefusal>
    ensures first { result ≡ refusal_of (summary_shown summary.now) (command_shown command.now) }
    ensures turn { IfNone result (summary.now.accepted < 9223372036854775807) }
{
    match command {
        Command::Install { name, .. } => install_refusal(summary, name),
        Command::Rollback { name } => rollback_refusal(summary, name),
        Command::Retire { name } => retire_refusal(summary, name),
        Command::PutVirtual {
            name,
            title,
            members,
        } => put_virtual_refusal(summary, name, title, members),
        Command::Place { name, place } => place_refusal(summary, name, *place),
    }
}

fn has_turn(summary: &Summary) -> bool
    ensures { result ≡ has_turn (summary_shown summary.now) }
{
    summary.accepted < MAX_ACCEPTED
}

fn has_room(summary: &Summary, name: &str) -> bool
    ensures { result ≡ has_room (summary_shown summary.now) name.now }
{
    (is_known(&summary.items, name) || summary.items.len() < MAX_ITEMS) && has_turn(summary)
}

fn install_refusal(summary: &Summary, name: &str) -> Option<CommandRefusal>
    ensures first { result ≡ first_failing (install_tests (summary_shown summary.now) name.now) }
    ensures turn { IfNone result (summary.now.accepted < 9223372036854775807) }
{
    if !is_name(name) {
        Some(CommandRefusal::BadName)
    } else if names_virtual(&summary.items, name) {
        Some(CommandRefusal::IsVirtual)
    } else if !has_room(summary, name) {
        Some(CommandRefusal::CatalogueFull)
    } else {
        None
    }
}

fn rollback_refusal(summary: &Summary, name: &str) -> Option<CommandRefusal>
    ensures first { result ≡ first_failing (rollback_tests (summary_shown summary.now) name.now) }
    ensures turn { IfNone result (summary.now.accepted < 9223372036854775807) }
{
    if !is_name(name) {
        Some(CommandRefusal::BadName)
    } else if !is_known(&summary.items, name) {
        Some(CommandRefusal::Unknown)
    } else if names_virtual(&summary.items, name) {
        Some(CommandRefusal::IsVirtual)
    } else if !names_former(&summary.items, name) {
        Some(CommandRefusal::NoFormer)
    } else if !has_turn(summary) {
        Some(CommandRefusal::CatalogueFull)
    } else {
        None
    }
}

fn retire_refusal(summary: &Summary, name: &str) -> Option<CommandRefusal>
    ensures first { result ≡ first_failing (retire_tests (summary_shown summary.now) name.now) }
    ensures turn { IfNone result (summary.now.accepted < 9223372036854775807) }
{
    if !is_name(name) {
        Some(CommandRefusal::BadName)
    } else if !is_known(&summary.items, name) {
        Some(CommandRefusal::Unknown)
    } else if is_listed(&summary.items, name) {
        Some(CommandRefusal::Listed)
    } else if !has_turn(summary) {
        Some(CommandRefusal::CatalogueFull)
    } else {
        None
    }
}

fn put_virtual_refusal(
    summary: &Summary,
    name: &str,
    title: &str,
    members: &[&str],
) -> Option<CommandRefusal>
    ensures first { result ≡ first_failing (put_virtual_tests (summary_shown summary.now) name.now title.now (names_shown members.now)) }
    ensures turn { IfNone result (summary.now.accepted < 9223372036854775807) }
{
    if !is_name(name) {
        return Some(CommandRefusal::BadName);
    }
    if names_regular(&summary.items, name) {
        return Some(CommandRefusal::IsRegular);
    }
    if !is_title(title) {
        return Some(CommandRefusal::BadTitle);
    }
    if !has_member_count(members) {
        return Some(CommandRefusal::MemberCount);
    }
    if let Some(refusal) = member_refusal(&summary.items, members) {
        return Some(refusal);
    }
    if !has_room(summary, name) {
        return Some(CommandRefusal::CatalogueFull);
    }
    None
}

fn has_member_count(members: &[&str]) -> bool
    ensures { result ≡ has_member_count (names_shown members.now) }
{
    1 <= members.len() && members.len() <= MAX_MEMBERS
}

/// Each member in order has to name a regular item, and to be none of the earlier ones.
fn member_refusal(items: &[Item], members: &[&str]) -> Option<CommandRefusal>
    ensures { result ≡ first_failing (member_tests (map item_shown items.now) [] (names_shown members.now)) }
{
    for (index, member) in members.iter().enumerate() {
        if !names_regular(items, member) {
            return Some(CommandRefusal::BadMember);
        }
        if is_among(&members[..index], member) {
            return Some(CommandRefusal::MemberTwice);
        }
    }
    None
}

fn is_among(names: &[&str], name: &str) -> bool
    ensures { result ≡ is_among (names_shown names.now) name.now }
{
    for one in names {
        if *one == name {
            return true;
        }
    }
    false
}

fn place_refusal(summary: &Summary, name: &str, place: u64) -> Option<CommandRefusal>
    ensures first { result ≡ first_failing (place_tests (summary_shown summary.now) name.now place) }
    ensures turn { IfNone result (summary.now.accepted < 9223372036854775807) }
{
    if !is_name(name) {
        Some(CommandRefusal::BadName)
    } else if !is_known(&summary.items, name) {
        Some(CommandRefusal::Unknown)
    } else if place >= summary.items.len() as u64 {
        Some(CommandRefusal::BadPlace)
    } else if !has_turn(summary) {
        Some(CommandRefusal::CatalogueFull)
    } else {
        None
    }
}
