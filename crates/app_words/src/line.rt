// The command line, as it is declared.
ghost use Rattle.std.specs.Prelude.{◌≡◌, IfOk, false, map};
ghost use Rattle.clap.specs.Simple.{App, with_rule, with_subcommand};
ghost use Rattle.clap.specs.Walk.{Rule, rule_of};
ghost use Rattle.app_words.specs.Line.{word_rule, several, number, setting, count, leaf, alone, required, command_line, with_all, reading_shapes, change_shapes, grouping, placing, arrangements, Reads};

use crate::help;
use crate::version::VERSION;
use clap::{Arg, Command};
use std::alloc::{AllocError, Global};

// A word that has to be there.
fn word<'w>(alloc: Global, id: &'w str, help: &'w str) -> Arg<'w>
    ensures rule { rule_of result ≡ word_rule id.entry.now }
    ensures local { result.global ≡ false }
{
    Arg::new(alloc, id).required(true).help(help)
}

// A word that has to be there once or more.
fn several<'w>(alloc: Global, id: &'w str, help: &'w str) -> Arg<'w>
    ensures rule { rule_of result ≡ several id.entry.now }
    ensures local { result.global ≡ false }
{
    word(alloc, id, help).num_args(1..)
}

// A word that has to be there, and be a number of 32 bits.
fn number<'w>(alloc: Global, id: &'w str, help: &'w str) -> Arg<'w>
    ensures rule { rule_of result ≡ number id.entry.now }
    ensures local { result.global ≡ false }
{
    word(alloc, id, help).value_parser(clap::value_parser!(u32))
}

// A value that has to be there, behind two hyphens and its name.
fn setting<'w>(alloc: Global, id: &'w str, value: &'w str, help: &'w str) -> Arg<'w>
    ensures rule { rule_of result ≡ setting id.entry.now }
    ensures local { result.global ≡ false }
{
    word(alloc, id, help).long(id).value_name(value)
}

// A number of 32 bits that is not 0, behind two hyphens and its name.
fn count<'w>(alloc: Global, id: &'w str, value: &'w str, help: &'w str) -> Arg<'w>
    ensures rule { rule_of result ≡ count id.entry.now }
    ensures local { result.global ≡ false }
{
    let numbers = clap::value_parser!(u32).range(1..);
    Arg::new(alloc, id)
        .long(id)
        .value_name(value)
        .value_parser(numbers)
        .help(help)
}

// Both values, or the first failure. They may be any, so that it isn't proved for each caller how a command is let go of.
fn both<A: Drop, B: Drop>(
    one: Result<A, AllocError>,
    other: Result<B, AllocError>,
) -> Result<(A, B), AllocError>
    ensures { IfOk result (λ both. (one ≡ Ok both.0) × (other ≡ Ok both.1)) }
{
    let one = one?;
    let other = other?;
    Ok((one, other))
}

// Adds an argument to a command, if that was made.
fn with_arg<'w>(
    line: Result<Command<'w>, AllocError>,
    arg: Arg<'w>,
) -> Result<Command<'w>, AllocError>
    ensures { (app : App) (rule : Rule) → IfOk line.entry (Reads app) → rule_of arg.entry ≡ rule → arg.entry.global ≡ false → IfOk result (Reads (with_rule app rule)) }
{
    let parts = both(line, Ok(arg))?;
    parts.0.arg(parts.1)
}

// Adds a subcommand to a command, if both were made.
fn with_command<'w>(
    line: Result<Command<'w>, AllocError>,
    added: Result<Command<'w>, AllocError>,
) -> Result<Command<'w>, AllocError>
    ensures { (app sub : App) → IfOk line.entry (Reads app) → IfOk added.entry (Reads sub) → IfOk result (Reads (with_subcommand app sub.top)) }
{
    let parts = both(line, added)?;
    parts.0.subcommand(parts.1)
}

// A subcommand that takes these words, each with its help. Its own help says what it does, and the other text below its words.
fn leaf<'w>(
    alloc: Global,
    name: &'w str,
    says: (&'w str, &'w str),
    words: &[(&'w str, &'w str)],
) -> Result<Command<'w>, AllocError>
    ensures { IfOk result (Reads (alone (leaf name.entry.now (map (λ one. one.0.now) words.now)))) }
{
    let mut line = Ok(Command::new(alloc, name).about(says.0).after_help(says.1));
    for (id, help) in words {
        line = with_arg(line, word(alloc, *id, *help));
    }
    line
}

const FILE: (&str, &str) = ("FILE", "The catalogue's file");

const NAME: (&str, &str) = ("NAME", "The database's name");

const ID: (&str, &str) = (
    "ID",
    "The request's id: 1 to 64 letters, digits and hyphens; the same for a retry, and a new one for a new request",
);

const TITLE: (&str, &str) = ("TITLE", "The title that a client is shown");

const INDEX: (&str, &str) = ("INDEX", "The database's index file");

const DICT: (&str, &str) = ("DICT", "The database's text file");

// The command line that the program reads.
pub(crate) fn command_line<'w>(alloc: Global) -> Result<Command<'w>, AllocError>
    ensures { IfOk result (Reads command_line) }
{
    let line = Command::new(alloc, "dictcat")
        .about(help::DICTCAT.0)
        .after_help(help::DICTCAT.1)
        .version(VERSION)
        .subcommand_required(true);
    let line = with_changes(alloc, with_readings(alloc, Ok(line)));
    with_server(alloc, with_arrangements(alloc, line))
}

// Adds a subcommand that takes these words, each with its help.
fn with_leaf<'w>(
    alloc: Global,
    line: Result<Command<'w>, AllocError>,
    name: &'w str,
    says: (&'w str, &'w str),
    words: &[(&'w str, &'w str)],
) -> Result<Command<'w>, AllocError>
    ensures { (app : App) → IfOk line.entry (Reads app) → IfOk result (Reads (with_subcommand app (leaf name.entry.now (map (λ one. one.0.now) words.now)))) }
{
    with_command(line, leaf(alloc, name, says, words))
}

// Adds what makes or reads a file, or serves a session.
fn with_readings<'w>(
    alloc: Global,
    line: Result<Command<'w>, AllocError>,
) -> Result<Command<'w>, AllocError>
    ensures { IfOk line.entry (Reads (alone required)) → IfOk result (Reads (with_all (alone required) reading_shapes)) }
{
    let line = with_leaf(alloc, line, "plain", help::PLAIN, &[NAME, INDEX, DICT]);
    let line = with_leaf(alloc, line, "create", help::CREATE, &[FILE]);
    let line = with_leaf(alloc, line, "list", help::LIST, &[FILE]);
    let line = with_leaf(alloc, line, "audit", help::AUDIT, &[FILE]);
    with_leaf(alloc, line, "session", help::SESSION, &[FILE])
}

// Adds what changes the databases of a catalogue.
fn with_changes<'w>(
    alloc: Global,
    line: Result<Command<'w>, AllocError>,
) -> Result<Command<'w>, AllocError>
    ensures { IfOk line.entry (Reads (with_all (alone required) reading_shapes)) → IfOk result (Reads (with_all (with_all (alone required) reading_shapes) change_shapes)) }
{
    let words = &[FILE, NAME, ID, INDEX, DICT];
    let line = with_leaf(alloc, line, "install", help::INSTALL, words);
    let line = with_leaf(alloc, line, "rollback", help::ROLLBACK, &[FILE, NAME, ID]);
    with_leaf(alloc, line, "retire", help::RETIRE, &[FILE, NAME, ID])
}

// Adds what puts databases into a group.
fn with_group<'w>(
    alloc: Global,
    line: Result<Command<'w>, AllocError>,
) -> Result<Command<'w>, AllocError>
    ensures { (app : App) → IfOk line.entry (Reads app) → IfOk result (Reads (with_subcommand app grouping)) }
{
    let group = leaf(alloc, "virtual", help::VIRTUAL, &[FILE, NAME, ID, TITLE]);
    let member = several(alloc, "MEMBER", "A database that is searched by it");
    with_command(line, with_arg(group, member))
}

// Adds what puts a database at a place.
fn with_place<'w>(
    alloc: Global,
    line: Result<Command<'w>, AllocError>,
) -> Result<Command<'w>, AllocError>
    ensures { (app : App) → IfOk line.entry (Reads app) → IfOk result (Reads (with_subcommand app placing)) }
{
    let place = leaf(alloc, "place", help::PLACE, &[FILE, NAME, ID]);
    with_command(
        line,
        with_arg(place, number(alloc, "PLACE", "The place, from 0")),
    )
}

// Adds what groups and orders the databases of a catalogue.
fn with_arrangements<'w>(
    alloc: Global,
    line: Result<Command<'w>, AllocError>,
) -> Result<Command<'w>, AllocError>
    ensures { IfOk line.entry (Reads (with_all (with_all (alone required) reading_shapes) change_shapes)) → IfOk result (Reads (with_all (with_all (with_all (alone required) reading_shapes) change_shapes) arrangements)) }
{
    with_place(alloc, with_group(alloc, line))
}

// Adds what serves a catalogue.
fn with_server<'w>(
    alloc: Global,
    line: Result<Command<'w>, AllocError>,
) -> Result<Command<'w>, AllocError>
    ensures { IfOk line.entry (Reads (with_all (with_all (with_all (alone required) reading_shapes) change_shapes) arrangements)) → IfOk result (Reads command_line) }
{
    let server = leaf(alloc, "serve", help::SERVE, &[FILE]);
    let help = "The address for readers, as 127.0.0.1:2628";
    let server = with_arg(server, setting(alloc, "dict", "ADDR", help));
    let help = "The address for editors, as 127.0.0.1:8628";
    let server = with_arg(server, setting(alloc, "http", "ADDR", help));
    let help = "Ends after so many rounds; else it goes on";
    let server = with_arg(server, count(alloc, "rounds", "N", help));
    with_command(line, server)
}
