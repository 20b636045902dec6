// What task words ask for.
ghost use Rattle.std.specs.Prelude.{◌≡◌, IfOk, IfErr, map, option_map, option_and_then, codes};
ghost use Rattle.clap.specs.Values.{kind_of};
ghost use Rattle.clap.specs.Walk.{rows_of, all_of, first_of, one_of};
ghost use Rattle.clap.specs.Simple.{subcommand_rows_of};
ghost use Rattle.clap.specs.Matches.{found_of};
ghost use Rattle.app_words.specs.Line.{command_line, Reads};
ghost use Rattle.app_words.specs.Asked.{AskForTask, Fails, task_shown, change_shown, found_asked, asked_by, plain_asked, change_asked, install_asked, virtual_asked, place_asked, serve_asked, number_in, words_shown};

use crate::line::command_line;
use crate::task::{ItemChange, Task};
use clap::error::ErrorKind;
use clap::{ArgMatches, Command, Error};
use std::alloc::{AllocError, Global};
use std::convert::AsStr;

/// What the words ask for, of which the first is the program's name.
pub fn read_words<'w, W: AsStr>(alloc: Global, words: &'w [W]) -> Result<Task<'w>, Error>
    ensures ok { IfOk result (AskForTask (map W.text words.entry.now)) }
    ensures err { IfErr result (λ error. Fails (map W.text words.entry.now) (kind_of error)) }
{
    let mut line = command_line(alloc)?;
    let asked = read_by(alloc, &mut line, words);
    drop(line);
    asked
}

// The same, by the command line that the program reads.
fn read_by<'w, W: AsStr>(
    alloc: Global,
    line: &mut Command<'w>,
    words: &'w [W],
) -> Result<Task<'w>, Error>
    requires { Reads command_line line.old }
    ensures ok { IfOk result (AskForTask (map W.text words.entry.now)) }
    ensures err { IfErr result (λ error. Fails (map W.text words.entry.now) (kind_of error)) }
{
    let matches = line.try_get_matches_from_mut(words)?;
    let asked = task_of(alloc, &matches);
    drop(matches);
    let asked = asked?;
    match asked {
        Some(task) => Ok(task),
        None => Err(line.error(ErrorKind::MissingSubcommand, "a subcommand is required")?),
    }
}

// What the subcommand that was used asks for.
fn task_of<'w>(alloc: Global, matches: &ArgMatches<'w>) -> Result<Option<Task<'w>>, AllocError>
    ensures { IfOk result (λ task. option_map task_shown task ≡ found_asked (subcommand_rows_of matches.now)) }
{
    let Some((name, found)) = matches.subcommand() else {
        return Ok(None);
    };
    let mut members = members_of(alloc, found)?;
    let task = task_by(name, found, &mut members);
    drop(members);
    Ok(task)
}

// The values of the argument MEMBER, where it is there.
fn members_of<'w>(alloc: Global, found: &ArgMatches<'w>) -> Result<Option<Vec<&'w str>>, AllocError>
    ensures { IfOk result (λ members. option_map (λ each. words_shown each.items) members ≡ all_of (codes "MEMBER") (rows_of (found_of found.now))) }
{
    match found.get_strs("MEMBER") {
        Some(members) => Ok(Some(members.to_vec(alloc)?)),
        None => Ok(None),
    }
}

// What a subcommand of this name asks for, by its words, of which these are the members.
fn task_by<'w>(
    name: &str,
    found: &ArgMatches<'w>,
    members: &mut Option<Vec<&'w str>>,
) -> Option<Task<'w>>
    requires { option_map (λ each. words_shown each.items) members.old ≡ all_of (codes "MEMBER") (rows_of (found_of found.now)) }
    ensures { option_map task_shown result ≡ asked_by name.now (rows_of (found_of found.now)) }
{
    match name {
        "plain" => plain_task(found),
        "create" => Some(Task::Create {
            file: file_of(found)?,
        }),
        "list" => Some(Task::List {
            file: file_of(found)?,
        }),
        "audit" => Some(Task::Audit {
            file: file_of(found)?,
        }),
        "session" => Some(Task::Session {
            file: file_of(found)?,
        }),
        "install" => change_task(found, install_of(found)),
        "rollback" => change_task(found, Some(ItemChange::Rollback)),
        "retire" => change_task(found, Some(ItemChange::Retire)),
        "virtual" => change_task(found, virtual_of(found, members.take())),
        "place" => change_task(found, place_of(found)),
        "serve" => serve_task(found),
        _ => None,
    }
}

// What the words of a session over one database in lists ask for.
fn plain_task<'w>(found: &ArgMatches<'w>) -> Option<Task<'w>>
    ensures { option_map task_shown result ≡ plain_asked (rows_of (found_of found.now)) }
{
    Some(Task::Plain {
        name: value_of(found, "NAME")?,
        index: value_of(found, "INDEX")?,
        text: value_of(found, "DICT")?,
    })
}

// The files of an edition that is to be installed.
fn install_of<'w>(found: &ArgMatches<'w>) -> Option<ItemChange<'w>>
    ensures { option_map change_shown result ≡ install_asked (rows_of (found_of found.now)) }
{
    Some(ItemChange::Install {
        index: value_of(found, "INDEX")?,
        text: value_of(found, "DICT")?,
    })
}

// The title of a virtual item, with its members.
fn virtual_of<'w>(found: &ArgMatches<'w>, members: Option<Vec<&'w str>>) -> Option<ItemChange<'w>>
    requires { option_map (λ each. words_shown each.items) members ≡ all_of (codes "MEMBER") (rows_of (found_of found.now)) }
    ensures { option_map change_shown result ≡ virtual_asked (rows_of (found_of found.now)) }
{
    Some(ItemChange::Virtual {
        title: value_of(found, "TITLE")?,
        members: members?,
    })
}

// The place that an item is put at.
fn place_of<'w>(found: &ArgMatches<'w>) -> Option<ItemChange<'w>>
    ensures { option_map change_shown result ≡ place_asked (rows_of (found_of found.now)) }
{
    Some(ItemChange::Place {
        place: number_of(found, "PLACE")?,
    })
}

// The number that is the value of the argument with this name.
fn number_of(found: &ArgMatches<'_>, id: &str) -> Option<u32>
    ensures { result ≡ option_and_then number_in (one_of id.now (rows_of (found_of found.now))) }
{
    found.get_one(id)
}

// What the words of a change ask for.
fn change_task<'w>(found: &ArgMatches<'w>, change: Option<ItemChange<'w>>) -> Option<Task<'w>>
    ensures { option_map task_shown result ≡ change_asked (rows_of (found_of found.now)) (option_map change_shown change.entry) }
{
    let file = file_of(found)?;
    let name = value_of(found, "NAME")?;
    let id = value_of(found, "ID")?;
    let change = change?;
    Some(Task::Change {
        file,
        name,
        id,
        change,
    })
}

// What the words of a server ask for.
fn serve_task<'w>(found: &ArgMatches<'w>) -> Option<Task<'w>>
    ensures { option_map task_shown result ≡ serve_asked (rows_of (found_of found.now)) }
{
    Some(Task::Serve {
        file: file_of(found)?,
        dict: value_of(found, "dict")?,
        http: value_of(found, "http")?,
        rounds: number_of(found, "rounds"),
    })
}

// The path of the file.
fn file_of<'w>(found: &ArgMatches<'w>) -> Option<&'w str>
    ensures { option_map (λ value. value.now) result ≡ first_of (codes "FILE") (rows_of (found_of found.now)) }
{
    value_of(found, "FILE")
}

// The value of the argument with this name.
fn value_of<'w>(found: &ArgMatches<'w>, id: &str) -> Option<&'w str>
    ensures { option_map (λ value. value.now) result ≡ first_of id.now (rows_of (found_of found.now)) }
{
    found.get_str(id)
}
