// What help says of a command: what it does, and below its words an example and what its statuses mean.

pub(crate) const DICTCAT: (&str, &str) = (
    "A DICT server (RFC 2229) whose answers are proved",
    "\
Example:
  dictcat create words.db
  dictcat install words.db gem r1 gem.index gem.dict
  dictcat session words.db

Statuses:
  0  done
  1  refused, and nothing is changed
  2  the words can't be made out
  3  a file, its catalogue, an address, an output or a session failed
  4  memory ran out",
);

pub(crate) const PLAIN: (&str, &str) = (
    "Runs a DICT session on standard input and output over one database",
    "\
Example:
  printf 'DEFINE gem opal\\r\\nQUIT\\r\\n' | dictcat plain gem gem.index gem.dict

Statuses:
  0  the session has ended
  1  the two files or NAME are refused
  2  the words can't be made out
  3  a file can't be read, or the session ended by a fault
  4  memory ran out",
);

pub(crate) const CREATE: (&str, &str) = (
    "Makes an empty catalogue in FILE",
    "\
Example:
  dictcat create words.db

Statuses:
  0  the catalogue is made; nothing is printed
  2  the words can't be made out
  3  FILE can't be opened or made, is a catalogue already, or the disk failed
  4  memory ran out",
);

pub(crate) const LIST: (&str, &str) = (
    "Lists the items of a catalogue",
    "\
Example:
  dictcat list words.db
prints for a database its place, name, current and former edition and title,
and for a virtual one its members:
  0 gem regular 2 1 \"Gems\"
  1 ore regular 3 - \"Ores\"
  2 all virtual gem,ore \"All\"

Statuses:
  0  all items are printed
  2  the words can't be made out
  3  FILE can't be read or is no sound catalogue, or the output failed
  4  memory ran out",
);

pub(crate) const AUDIT: (&str, &str) = (
    "Reads a catalogue whole, and tells whether it is sound",
    "\
Example:
  dictcat audit words.db

Statuses:
  0  FILE is sound, which is printed
  2  the words can't be made out
  3  FILE can't be read or is no sound catalogue, or the output failed
  4  memory ran out",
);

pub(crate) const SESSION: (&str, &str) = (
    "Runs a DICT session on standard input and output over a catalogue",
    "\
Example:
  printf 'DEFINE gem opal\\r\\nQUIT\\r\\n' | dictcat session words.db

Statuses:
  0  the session has ended
  2  the words can't be made out
  3  FILE can't be read or is no sound catalogue, or the session ended by a fault
  4  memory ran out",
);

pub(crate) const INSTALL: (&str, &str) = (
    "Makes an edition the current one of a database",
    "\
Example:
  dictcat install words.db gem r1 gem.index gem.dict
prints
  {\"edition\":1,\"name\":\"gem\",\"number\":1,\"verb\":\"install\"}

Statuses:
  0  installed; or ID was used before, and its reply is printed again
  1  the two files or the request are refused, and nothing is changed
  2  the words can't be made out
  3  a file can't be read, FILE is no sound catalogue, or the disk or the output failed
  4  memory ran out
After 3 and 4 the same command with the same ID is answered or done.",
);

pub(crate) const ROLLBACK: (&str, &str) = (
    "Swaps the current and the former edition of a database",
    "\
Example:
  dictcat rollback words.db gem r2
prints the edition that is current again:
  {\"edition\":1,\"name\":\"gem\",\"number\":3,\"verb\":\"rollback\"}

Statuses:
  0  rolled back; or ID was used before, and its reply is printed again
  1  refused, and nothing is changed
  2  the words can't be made out
  3  FILE can't be read or is no sound catalogue, or the disk or the output failed
  4  memory ran out
After 3 and 4 the same command with the same ID is answered or done.",
);

pub(crate) const RETIRE: (&str, &str) = (
    "Takes a database out of the catalogue",
    "\
Example:
  dictcat retire words.db gem r3
prints
  {\"edition\":null,\"name\":\"gem\",\"number\":4,\"verb\":\"retire\"}

Statuses:
  0  retired; or ID was used before, and its reply is printed again
  1  refused, and nothing is changed
  2  the words can't be made out
  3  FILE can't be read or is no sound catalogue, or the disk or the output failed
  4  memory ran out
After 3 and 4 the same command with the same ID is answered or done.",
);

pub(crate) const VIRTUAL: (&str, &str) = (
    "Makes a virtual database, or changes one",
    "\
Example:
  dictcat virtual words.db all r4 'All of them' gem ore
prints
  {\"edition\":null,\"name\":\"all\",\"number\":4,\"verb\":\"virtual\"}

Statuses:
  0  made or changed; or ID was used before, and its reply is printed again
  1  refused, and nothing is changed
  2  the words can't be made out
  3  FILE can't be read or is no sound catalogue, or the disk or the output failed
  4  memory ran out
After 3 and 4 the same command with the same ID is answered or done.",
);

pub(crate) const PLACE: (&str, &str) = (
    "Puts a database at another place in the order",
    "\
Example:
  dictcat place words.db all r5 0
prints
  {\"edition\":null,\"name\":\"all\",\"number\":5,\"verb\":\"place\"}

Statuses:
  0  placed; or ID was used before, and its reply is printed again
  1  refused, and nothing is changed
  2  the words can't be made out
  3  FILE can't be read or is no sound catalogue, or the disk or the output failed
  4  memory ran out
After 3 and 4 the same command with the same ID is answered or done.",
);

pub(crate) const SERVE: (&str, &str) = (
    "Serves a catalogue to readers over DICT, and takes requests of editors over HTTP",
    "\
Example:
  dictcat serve words.db --dict 127.0.0.1:2628 --http 127.0.0.1:8628
prints the two addresses:
  dict 127.0.0.1:2628
  http 127.0.0.1:8628

Statuses:
  0  all rounds of --rounds are done
  2  the words can't be made out
  3  FILE can't be read or is no sound catalogue, an address can't be bound, or the output failed
  4  memory ran out",
);
