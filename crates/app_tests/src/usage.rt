//! Words that ask for help or the version, and words that aren't well.
use super::fixtures::{ROOM, Row, compare, run, same_outcome, taken};
use crate::checks::{holds, same_text};
use app_commands::refuse_words;
use app_words::VERSION;
use clap::Command;
use clap::error::ErrorKind;
use dict_proto::LimitedSink;
use std::alloc::{AllocError, Global};
use std::io;
use std::process::Abort;

const HELP: &str = "A DICT server (RFC 2229) whose answers are proved

Usage: dictcat <COMMAND>

Commands:
  plain     Runs a DICT session on standard input and output over one database
  create    Makes an empty catalogue in FILE
  list      Lists the items of a catalogue
  audit     Reads a catalogue whole, and tells whether it is sound
  session   Runs a DICT session on standard input and output over a catalogue
  install   Makes an edition the current one of a database
  rollback  Swaps the current and the former edition of a database
  retire    Takes a database out of the catalogue
  virtual   Makes a virtual database, or changes one
  place     Puts a database at another place in the order
  serve     Serves a catalogue to readers over DICT, and takes requests of editors over HTTP
  help      Print this message or the help of the given subcommand(s)

Options:
  -h, --help     Print help
  -V, --version  Print version

Example:
  dictcat create words.db
  dictcat install words.db gem r1 gem.index gem.dict
  dictcat session words.db

Statuses:
  0  done
  1  refused, and nothing is changed
  2  the words can't be made out
  3  a file, its catalogue, an address, an output or a session failed
  4  memory ran out
";

const PLACE_HELP: &str = "Puts a database at another place in the order

Usage: dictcat place <FILE> <NAME> <ID> <PLACE>

Arguments:
  <FILE>   The catalogue's file
  <NAME>   The database's name
  <ID>     The request's id: 1 to 64 letters, digits and hyphens; the same for a retry, and a new one for a new request
  <PLACE>  The place, from 0

Options:
  -h, --help  Print help

Example:
  dictcat place words.db all r5 0
prints
  {\"edition\":null,\"name\":\"all\",\"number\":5,\"verb\":\"place\"}

Statuses:
  0  placed; or ID was used before, and its reply is printed again
  1  refused, and nothing is changed
  2  the words can't be made out
  3  FILE can't be read or is no sound catalogue, or the disk or the output failed
  4  memory ran out
After 3 and 4 the same command with the same ID is answered or done.
";

const SERVE_HELP: &str =
    "Serves a catalogue to readers over DICT, and takes requests of editors over HTTP

Usage: dictcat serve [OPTIONS] --dict <ADDR> --http <ADDR> <FILE>

Arguments:
  <FILE>  The catalogue's file

Options:
      --dict <ADDR>  The address for readers, as 127.0.0.1:2628
      --http <ADDR>  The address for editors, as 127.0.0.1:8628
      --rounds <N>   Ends after so many rounds; else it goes on
  -h, --help         Print help

Example:
  dictcat serve words.db --dict 127.0.0.1:2628 --http 127.0.0.1:8628
prints the two addresses:
  dict 127.0.0.1:2628
  http 127.0.0.1:8628

Statuses:
  0  all rounds of --rounds are done
  2  the words can't be made out
  3  FILE can't be read or is no sound catalogue, an address can't be bound, or the output failed
  4  memory ran out
";

static WORDS: [Row; 9] = [
    (&["--help"], "", 0, HELP, ""),
    (&["help"], "", 0, HELP, ""),
    (&["help", "place"], "", 0, PLACE_HELP, ""),
    (&["serve", "--help"], "", 0, SERVE_HELP, ""),
    (
        &[],
        "",
        2,
        "",
        "error: 'dictcat' requires a subcommand but one was not provided\n  [subcommands: plain, create, list, audit, session, install, rollback, retire, virtual, place, serve, help]\n\nUsage: dictcat <COMMAND>\n\nFor more information, try '--help'.\n",
    ),
    (
        &["nosuch"],
        "",
        2,
        "",
        "error: unrecognized subcommand 'nosuch'\n\nUsage: dictcat <COMMAND>\n\nFor more information, try '--help'.\n",
    ),
    (
        &["plain", "gem"],
        "",
        2,
        "",
        "error: the following required arguments were not provided:\n  <INDEX>\n  <DICT>\n\nUsage: dictcat plain <NAME> <INDEX> <DICT>\n\nFor more information, try '--help'.\n",
    ),
    (
        &["plain", "gem", "a", "b", "c"],
        "",
        2,
        "",
        "error: unexpected argument 'c' found\n\nUsage: dictcat plain <NAME> <INDEX> <DICT>\n\nFor more information, try '--help'.\n",
    ),
    (
        &["plain", "-x", "a", "b"],
        "",
        2,
        "",
        "error: unexpected argument '-x' found\n\n  tip: to pass '-x' as a value, use '-- -x'\n\nUsage: dictcat plain <NAME> <INDEX> <DICT>\n\nFor more information, try '--help'.\n",
    ),
];

pub(crate) fn shows_help_and_tells_mistakes(test: &impl Abort, rt: &HostRuntime) {
    compare(test, rt, "", &WORDS);
}

static NAMES: [&str; 11] = [
    "plain", "create", "list", "audit", "session", "install", "rollback", "retire", "virtual",
    "place", "serve",
];

pub(crate) fn tells_the_version(test: &impl Abort, rt: &HostRuntime) {
    let due = format!(in rt.alloc(); "dictcat {VERSION}\n").expect(test, "memory");
    let words = ["--version"];
    let found = run(test, rt, "", &words, "", ROOM);
    same_outcome(test, &words, &found, 0, due.as_str(), "");
}

// Whether the help of a subcommand has an example and the statuses.
fn has_example(test: &impl Abort, rt: &HostRuntime, name: &str) -> bool {
    let example = format!(in rt.alloc(); "dictcat {name} ").expect(test, "memory");
    let (status, shown, _) = run(test, rt, "", &[name, "--help"], "", ROOM);
    let (_, below) = shown
        .as_str()
        .split_once("\nExample:\n")
        .unwrap_or(("", ""));
    status == 0 && below.contains(example.as_str()) && below.contains("\n  4  memory ran out\n")
}

pub(crate) fn each_help_has_an_example_and_the_statuses(test: &impl Abort, rt: &HostRuntime) {
    for name in &NAMES {
        holds(test, has_example(test, rt, name), name);
    }
}

// Whether words that can't be had for this reason end with this status, and this is told.
fn is_refused(
    test: &impl Abort,
    rt: &HostRuntime,
    kind: io::ErrorKind,
    status: u8,
    told: &str,
) -> bool {
    let mut faults = LimitedSink::new(rt.alloc(), 1000).expect(test, "memory");
    let ended = refuse_words(&io::Error::from(kind), &mut faults);
    let said = taken(test, rt.alloc(), &faults);
    ended == status && said.as_str() == told
}

const NOT_TEXT: &str =
    "error: invalid UTF-8 was detected in one or more arguments\n\nUsage: dictcat <COMMAND>\n\nFor more information, try '--help'.\n";

// A program with subcommands.
fn line(alloc: Global) -> Result<Command<'static>, AllocError> {
    Command::new(alloc, "dictcat")
        .subcommand_required(true)
        .subcommand(Command::new(alloc, "plain"))
}

// What clap says of words that are no texts.
fn said_by_clap(test: &impl Abort, alloc: Global) -> String {
    let message = "invalid UTF-8 was detected in one or more arguments";
    let error = line(alloc)
        .expect(test, "memory")
        .error(ErrorKind::InvalidValue, message)
        .expect(test, "memory");
    error.to_string(alloc).expect(test, "memory")
}

pub(crate) fn refuses_words_that_are_no_texts(test: &impl Abort, rt: &HostRuntime) {
    holds(
        test,
        is_refused(test, rt, io::ErrorKind::OutOfMemory, 4, "fault 40 Memory\n"),
        "memory",
    );
    holds(
        test,
        is_refused(test, rt, io::ErrorKind::InvalidData, 2, NOT_TEXT),
        NOT_TEXT,
    );
    same_text(test, said_by_clap(test, rt.alloc()).as_str(), NOT_TEXT);
}
