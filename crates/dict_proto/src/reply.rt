// The replies, and how they are put.
ghost use Rattle.std.specs.Prelude.{◌≡◌, ℕ, List, ◌++◌, codes, decimal, map};
ghost use Rattle.std.specs.List.{flat_map};
ghost use Rattle.dict_proto.specs.declared.reply.Reply.{Reply};
ghost use Rattle.dict_proto.specs.Streams.{Puts};
ghost use Rattle.dict_proto.specs.Text.{block, crlf};
ghost use Rattle.dict_proto.specs.ReplyLines.{AreShortLines, IsWithinLimits};
ghost use Rattle.dict_proto.specs.Replies.{reply_octets, banner_octets, definition_octets, definition_line, list_row, list_line_octets, list_end_octets, help_octets, server_information_octets};

use crate::part::{ReplyPart, put_parts};
use crate::sink::{Sink, SinkFault};
use crate::text::{put_text, stuffing};

/// A reply, or a part of one (RFC 2229, sections 3.1 to 3.9). A long answer is put part by part:
///
/// - to a DEFINE that finds something, `DefinitionCount`, each `Definition`, `Done`;
/// - to a MATCH that finds something, `MatchCount`, a `ListLine` for each headword, `ListEnd`, `Done`;
/// - to SHOW DB, `DatabaseCount`, a `ListLine` for each database, `ListEnd`, `Done`, or `NoDatabases`;
/// - to SHOW STRAT, `StrategyCount`, a `ListLine` for each strategy, `ListEnd`, `Done`;
/// - to SHOW INFO, `InfoHeading`, an `InfoText` or a list (`ListLine`, `ListEnd`), `Done`;
/// - to SHOW SERVER and to HELP, `ServerInformation` or `Help`, `Done`.
#[derive(Clone, Copy, Debug, PartialEq, Eq)]
pub enum Reply<'a> {
    /// 220, a connection's greeting: the host's name and the connection's number.
    Banner {
        host: &'a str,
        connection: u64,
    },
    /// 150: how many definitions follow.
    DefinitionCount(u64),
    /// 151: one definition, with its text.
    Definition {
        headword: &'a str,
        name: &'a str,
        title: &'a str,
        body: &'a [u8],
    },
    /// 152: how many matches follow.
    MatchCount(u64),
    /// 110: how many databases there are; a list of them follows.
    DatabaseCount(u64),
    /// 111: how many strategies there are; a list of them follows.
    StrategyCount(u64),
    /// A line of a list: a name, and a headword or a title between quote signs.
    ListLine {
        name: &'a str,
        text: &'a str,
    },
    /// The end of a list: a line of one period.
    ListEnd,
    /// 112: what a database says of itself follows, as a text or as a list.
    InfoHeading,
    /// What a database says of itself, as a text.
    InfoText(&'a [u8]),
    /// 113: the command lines, as a text.
    Help,
    /// 114: the server's host and how many databases it has, as a text.
    ServerInformation {
        host: &'a str,
        count: u64,
    },
    /// 210, the answer to STATUS: how many databases there are.
    Status(u64),
    /// 250.
    Done,
    /// 221, the answer to QUIT.
    Closing,
    /// 420: no reply could be made.
    Unavailable,
    /// 500: the line is no command.
    NotRecognized,
    /// 501: the line can't be cut into words, or the command doesn't go with its parameters.
    IllegalParameters,
    /// 502: the command is left out.
    NotImplemented,
    /// 550: no such database.
    InvalidDatabase,
    /// 551: no such strategy.
    InvalidStrategy,
    /// 552: nothing was found.
    NoMatch,
    /// 554: there are no databases.
    NoDatabases,
}

/// Puts the reply. It takes no memory, and is Ok wherever the sink did not fail; where it failed, a front of the
/// reply's octets was put.
pub fn write_reply<K: Sink>(sink: &mut K, reply: &Reply) -> Result<(), SinkFault>
    ensures { Puts result (K.stream sink.old) (K.stream sink.new) (reply_octets reply.now) }
{
    match *reply {
        Reply::Banner { host, connection } => put_banner(sink, host, connection),
        Reply::DefinitionCount(count) => put_count(sink, b"150", count, b"definitions retrieved"),
        Reply::Definition {
            headword,
            name,
            title,
            body,
        } => put_definition(sink, headword, name, title, body),
        Reply::MatchCount(count) => put_count(sink, b"152", count, b"matches found"),
        Reply::DatabaseCount(count) => put_count(sink, b"110", count, b"databases present"),
        Reply::StrategyCount(count) => put_count(sink, b"111", count, b"strategies available"),
        Reply::ListLine { name, text } => put_list_line(sink, name, text),
        Reply::ListEnd => sink.put(b".\r\n"),
        Reply::InfoHeading => sink.put(b"112 database information\r\n"),
        Reply::InfoText(text) => put_text(sink, text),
        Reply::Help => put_help(sink),
        Reply::ServerInformation { host, count } => put_server_information(sink, host, count),
        Reply::Status(count) => put_count(sink, b"210", count, b"databases"),
        Reply::Done => sink.put(b"250 ok\r\n"),
        Reply::Closing => sink.put(b"221 closing connection\r\n"),
        Reply::Unavailable => sink.put(b"420 server temporarily unavailable\r\n"),
        Reply::NotRecognized => sink.put(b"500 command not recognized\r\n"),
        Reply::IllegalParameters => sink.put(b"501 illegal parameters\r\n"),
        Reply::NotImplemented => sink.put(b"502 command not implemented\r\n"),
        Reply::InvalidDatabase => sink.put(b"550 invalid database\r\n"),
        Reply::InvalidStrategy => sink.put(b"551 invalid strategy\r\n"),
        Reply::NoMatch => sink.put(b"552 no match\r\n"),
        Reply::NoDatabases => sink.put(b"554 no databases present\r\n"),
    }
}

fn put_banner<K: Sink>(sink: &mut K, host: &str, connection: u64) -> Result<(), SinkFault>
    ensures { Puts result (K.stream sink.old) (K.stream sink.new)
        (banner_octets host.now connection) }
{
    put_parts(
        sink,
        &[
            ReplyPart::Octets(b"220 "),
            ReplyPart::Octets(host.as_bytes()),
            ReplyPart::Octets(b" dictcat ready <"),
            ReplyPart::Number(connection),
            ReplyPart::Octets(b"@"),
            ReplyPart::Octets(host.as_bytes()),
            ReplyPart::Octets(b">\r\n"),
        ],
    )
}

// Puts a line that tells how many there are: its code, the number, and of what.
fn put_count<'a, K: Sink>(
    sink: &mut K,
    code: &'a [u8],
    count: u64,
    what: &'a [u8],
) -> Result<(), SinkFault>
    ensures { Puts result (K.stream sink.old) (K.stream sink.new)
        (code.now ++ (codes " " ++ (decimal count ++ (codes " " ++ (what.now ++ crlf))))) }
{
    put_parts(
        sink,
        &[
            ReplyPart::Octets(code),
            ReplyPart::Octets(b" "),
            ReplyPart::Number(count),
            ReplyPart::Octets(b" "),
            ReplyPart::Octets(what),
            ReplyPart::Octets(b"\r\n"),
        ],
    )
}

fn put_definition<'a, K: Sink>(
    sink: &mut K,
    headword: &'a str,
    name: &'a str,
    title: &'a str,
    body: &'a [u8],
) -> Result<(), SinkFault>
    ensures { Puts result (K.stream sink.old) (K.stream sink.new)
        (definition_octets headword.now name.now title.now body.now) }
{
    put_definition_line(sink, headword, name, title)?;
    put_text(sink, body)
}

fn put_definition_line<'a, K: Sink>(
    sink: &mut K,
    headword: &'a str,
    name: &'a str,
    title: &'a str,
) -> Result<(), SinkFault>
    ensures { Puts result (K.stream sink.old) (K.stream sink.new)
        (definition_line headword.now name.now title.now) }
{
    put_parts(
        sink,
        &[
            ReplyPart::Octets(b"151 "),
            ReplyPart::Quoted(headword),
            ReplyPart::Octets(b" "),
            ReplyPart::Octets(name.as_bytes()),
            ReplyPart::Octets(b" "),
            ReplyPart::Quoted(title),
            ReplyPart::Octets(b"\r\n"),
        ],
    )
}

fn put_list_line<'a, K: Sink>(sink: &mut K, name: &'a str, text: &'a str) -> Result<(), SinkFault>
    ensures { Puts result (K.stream sink.old) (K.stream sink.new)
        (list_line_octets name.now text.now) }
{
    put_parts(
        sink,
        &[
            ReplyPart::Octets(stuffing(name.as_bytes())),
            ReplyPart::Octets(name.as_bytes()),
            ReplyPart::Octets(b" "),
            ReplyPart::Quoted(text),
            ReplyPart::Octets(b"\r\n"),
        ],
    )
}

fn put_help<K: Sink>(sink: &mut K) -> Result<(), SinkFault>
    ensures { Puts result (K.stream sink.old) (K.stream sink.new) help_octets }
{
    put_parts(
        sink,
        &[
            ReplyPart::Octets(b"113 help text\r\n"),
            ReplyPart::Octets(b"DEFINE database word\r\n"),
            ReplyPart::Octets(b"MATCH database strategy word\r\n"),
            ReplyPart::Octets(b"SHOW DB\r\n"),
            ReplyPart::Octets(b"SHOW STRAT\r\n"),
            ReplyPart::Octets(b"SHOW INFO database\r\n"),
            ReplyPart::Octets(b"SHOW SERVER\r\n"),
            ReplyPart::Octets(b"CLIENT text\r\n"),
            ReplyPart::Octets(b"STATUS\r\n"),
            ReplyPart::Octets(b"HELP\r\n"),
            ReplyPart::Octets(b"QUIT\r\n"),
            ReplyPart::Octets(b".\r\n"),
        ],
    )
}

fn put_server_information<K: Sink>(
    sink: &mut K,
    host: &str,
    databases: u64,
) -> Result<(), SinkFault>
    ensures { Puts result (K.stream sink.old) (K.stream sink.new)
        (server_information_octets host.now databases) }
{
    put_parts(
        sink,
        &[
            ReplyPart::Octets(b"114 server information\r\n"),
            ReplyPart::Octets(b"dictcat on "),
            ReplyPart::Octets(host.as_bytes()),
            ReplyPart::Octets(b"\r\ndatabases "),
            ReplyPart::Number(databases),
            ReplyPart::Octets(b"\r\n.\r\n"),
        ],
    )
}

/// A law of lists: a `ListLine` for each row, and then `ListEnd`, are one text (RFC 2229, section 2.4.3) whose lines
/// are the rows: the name, a space, and the headword or the title between quote signs.
pub fn list_is_a_block()
    ensures { (rows : List (List ℕ × List ℕ))
        → flat_map (λ row. list_line_octets row.0 row.1) rows ++ list_end_octets
        ≡ block (map (λ row. list_row row.0 row.1) rows) }
{}

/// A law of replies: where host, headword, name, title and text keep their limits (253, 255, 32, 200 octets, and
/// 1,021 for each line of a definition or an info; 255 for the headword or the title in a line of a list; none of them
/// with a CR), a reply is lines, each ended by CR LF, without another CR and of at most 1,024 octets, their CR LF
/// counted.
pub fn reply_lines_are_short()
    ensures { (reply : Reply) → IsWithinLimits reply → AreShortLines (reply_octets reply) }
{}
