// The answer to one line.
ghost use Rattle.std.specs.Prelude.{◌≡◌, ◌≢◌, ◌&&◌, ℕ, List, Bool, true, false, Err, IfOk, OnOk, is_some};
ghost use Rattle.dict_proto.specs.Streams.{Stream, Puts};
ghost use Rattle.dict_proto.specs.Meaning.{Meaning};
ghost use Rattle.dict_proto.specs.Told.{Tells, requested};
ghost use Rattle.dict_catalogue.specs.Steps.{Catalogue};
ghost use Rattle.dict_proto.specs.Replies.{reply_octets};
ghost use Rattle.dict_desk.specs.Asked.{strategy_of};
ghost use Rattle.dict_session.specs.Answers.{answer_to, counted_rows, define_answer, match_answer, names_databases, AnswerNeed, need_of, ends_session, may_be_unavailable};
ghost use Rattle.dict_session.specs.Desks.{Condition, across, Stays};
ghost use Rattle.dict_session.specs.Places.{asked_in, HoldsAsked};
ghost use Rattle.dict_session.specs.Ending.{Finishes, PutsAnswer, PutsLine};
ghost use Rattle.dict_session.specs.Through.{LooksWhere, looks_up};

use crate::asked::{Asked, asked_places};
use crate::found::put_found;
use crate::query::Query;
use crate::show::{put_databases, put_help, put_info, put_server, put_status, put_strategies};
use crate::step::{Course, LineAnswer, PutFault};
use dict_desk::{Fault, Lookup, What};
use dict_match::{Strategy, key_of};
use dict_proto::{LineFault, Reply, Request, Sink, SinkFault, write_reply};
use std::alloc::Global;

// Puts the answer to what a line asks, and tells whether the session goes on. Where memory was refused, or the desk
// failed before the answer's first octet, 420 is put in its place.
pub(crate) fn answer_line<L: Lookup, K: Sink>(
    alloc: Global,
    desk: &mut L,
    host: &str,
    asked: Result<Request, LineFault>,
    sink: &mut K,
) -> Course
    ensures value { L.is_trusted desk.new → (M : Catalogue) → L.shows desk.old M → (meaning : Meaning) → Tells asked meaning
        → Finishes (answer_to M host.now) (across L.has_failed L.is_closed desk.old desk.new) result (K.stream sink.old) (K.stream sink.new) meaning }
    ensures desk { Stays L.shows L.leaves_one_of L.keeps_beside L.is_trusted L.is_closed desk.old desk.new }
    ensures looks { (M : Catalogue) → L.shows desk.old M → (meaning : Meaning) → Tells asked meaning → looks_up M meaning ≡ false → desk.new ≡ desk.old }
    ensures breaks { result ≡ Course.DeskFailed → (M : Catalogue) → L.shows desk.old M → (meaning : Meaning) → Tells asked meaning → looks_up M meaning ≡ true }
{
    match asked {
        Ok(request) => answer_request(alloc, desk, host, &request, sink),
        Err(fault) => answer_fault(fault, sink),
    }
}

// Puts the answer to a line that is no command.
fn answer_fault<K: Sink>(fault: LineFault, sink: &mut K) -> Course
    ensures value { (M : Catalogue) (host : List ℕ) (desk : Condition) (meaning : Meaning) → Tells (Err fault) meaning
        → Finishes (answer_to M host) desk result (K.stream sink.old) (K.stream sink.new) meaning }
    ensures whole { result ≢ Course.DeskFailed }
{
    match fault {
        LineFault::NotRecognized => put_line(&Reply::NotRecognized, sink),
        LineFault::IllegalParameters => put_line(&Reply::IllegalParameters, sink),
        LineFault::NotImplemented => put_line(&Reply::NotImplemented, sink),
        LineFault::Memory => put_line(&Reply::Unavailable, sink),
    }
}

// Puts a reply after which the session goes on.
pub(crate) fn put_line<K: Sink>(reply: &Reply, sink: &mut K) -> Course
    ensures { PutsLine result (K.stream sink.old) (K.stream sink.new) (reply_octets reply.now) }
{
    match write_reply(sink, reply) {
        Ok(()) => Course::More,
        Err(_) => Course::SinkFailed,
    }
}

// Puts the answer to a request, and tells whether the session goes on.
fn answer_request<L: Lookup, K: Sink>(
    alloc: Global,
    desk: &mut L,
    host: &str,
    request: &Request,
    sink: &mut K,
) -> Course
    ensures value { L.is_trusted desk.new → (M : Catalogue) → L.shows desk.old M
        → Finishes (answer_to M host.now) (across L.has_failed L.is_closed desk.old desk.new) result (K.stream sink.old) (K.stream sink.new) (requested request.now) }
    ensures desk { Stays L.shows L.leaves_one_of L.keeps_beside L.is_trusted L.is_closed desk.old desk.new }
    ensures looks { (M : Catalogue) → L.shows desk.old M → looks_up M (requested request.now) ≡ false → desk.new ≡ desk.old }
    ensures breaks { result ≡ Course.DeskFailed → (M : Catalogue) → L.shows desk.old M → looks_up M (requested request.now) ≡ true }
{
    match put_answer(alloc, desk, host, request, sink) {
        Ok(LineAnswer::Whole) if is_quit(request) => Course::Quit,
        Ok(_) => Course::More,
        Err(PutFault::Sink) => Course::SinkFailed,
        Err(PutFault::Desk) => Course::DeskFailed,
    }
}

// Whether a QUIT is asked.
fn is_quit(request: &Request) -> bool
    ensures { result ≡ ends_session (requested request.now) }
{
    matches!(request, Request::Quit)
}

// Puts the answer to a request, or 420 where memory for it was refused, or the desk failed, before its first octet.
fn put_answer<L: Lookup, K: Sink>(
    alloc: Global,
    desk: &mut L,
    host: &str,
    request: &Request,
    sink: &mut K,
) -> Result<LineAnswer, PutFault>
    ensures value { L.is_trusted desk.new → (M : Catalogue) → L.shows desk.old M
        → PutsAnswer (L.has_failed desk.new) result (K.stream sink.old) (K.stream sink.new) (answer_to M host.now (requested request.now)) (need_of (requested request.now)) (may_be_unavailable (L.is_closed desk.old) (requested request.now)) }
    ensures desk { Stays L.shows L.leaves_one_of L.keeps_beside L.is_trusted L.is_closed desk.old desk.new }
    ensures looks { (M : Catalogue) → L.shows desk.old M → LooksWhere (looks_up M (requested request.now)) result desk.old desk.new }
{
    match request {
        Request::Define { database, word } => {
            put_define(alloc, desk, database.as_str(), word.as_str(), sink)
        }
        Request::Match {
            database,
            strategy,
            word,
        } => put_match(
            alloc,
            desk,
            database.as_str(),
            strategy.as_str(),
            word.as_str(),
            sink,
        ),
        Request::ShowDatabases => put_databases(desk, sink),
        Request::ShowStrategies => whole(put_strategies(sink)),
        Request::ShowServer => put_server(desk, host, sink),
        Request::ShowInfo { database } => put_info(desk, database.as_str(), sink),
        Request::Client => put_whole(&Reply::Done, sink),
        Request::Status => put_status(desk, sink),
        Request::Help => whole(put_help(sink)),
        Request::Quit => put_whole(&Reply::Closing, sink),
    }
}

// An answer that was put whole, or that the sink broke off.
pub(crate) fn whole(put: Result<(), SinkFault>) -> Result<LineAnswer, PutFault>
    ensures { (old new : Stream) (answer : List ℕ) (failed : Bool) (need : AnswerNeed) (may : Bool) → Puts put old new answer → PutsAnswer failed result old new answer need may }
{
    match put {
        Ok(()) => Ok(LineAnswer::Whole),
        Err(_) => Err(PutFault::Sink),
    }
}

pub(crate) fn put_whole<K: Sink>(reply: &Reply, sink: &mut K) -> Result<LineAnswer, PutFault>
    ensures { (failed : Bool) (need : AnswerNeed) (may : Bool) → PutsAnswer failed result (K.stream sink.old) (K.stream sink.new) (reply_octets reply.now) need may }
{
    match write_reply(sink, reply) {
        Ok(()) => Ok(LineAnswer::Whole),
        Err(_) => Err(PutFault::Sink),
    }
}

pub(crate) fn put_unavailable<K: Sink>(sink: &mut K) -> Result<LineAnswer, PutFault>
    ensures { (answer : List ℕ) (failed : Bool) (need : AnswerNeed) → PutsAnswer failed result (K.stream sink.old) (K.stream sink.new) answer need true }
{
    match write_reply(sink, &Reply::Unavailable) {
        Ok(()) => Ok(LineAnswer::Unavailable),
        Err(_) => Err(PutFault::Sink),
    }
}

// Which databases the word asks.
fn asked_of<L: Lookup>(desk: &L, word: &str) -> Result<Option<Asked>, Fault>
    ensures value { (M : Catalogue) → L.shows desk.now M → IfOk result (λ asked. HoldsAsked asked (asked_in M.items word.now)) }
    ensures open { OnOk result (L.is_closed desk.now ≡ false) }
{
    match desk.summary() {
        Ok(summary) => Ok(asked_places(&summary.items, word)),
        Err(fault) => Err(fault),
    }
}

// Puts the answer to DEFINE.
fn put_define<L: Lookup, K: Sink>(
    alloc: Global,
    desk: &mut L,
    name: &str,
    word: &str,
    sink: &mut K,
) -> Result<LineAnswer, PutFault>
    ensures value { L.is_trusted desk.new → (M : Catalogue) → L.shows desk.old M
        → PutsAnswer (L.has_failed desk.new) result (K.stream sink.old) (K.stream sink.new) (define_answer M name.now word.now) (counted_rows What.Entries) true }
    ensures desk { Stays L.shows L.leaves_one_of L.keeps_beside L.is_trusted L.is_closed desk.old desk.new }
    ensures looks { (M : Catalogue) → L.shows desk.old M → LooksWhere (names_databases M name.now) result desk.old desk.new }
{
    let asked = match asked_of(desk, name) {
        Ok(Some(asked)) => asked,
        Ok(None) => return put_whole(&Reply::InvalidDatabase, sink),
        Err(_) => return put_unavailable(sink),
    };
    let Ok(key) = key_of(alloc, word) else {
        return put_unavailable(sink);
    };
    let query = Query {
        what: What::Entries,
        strategy: Strategy::Exact,
        key,
    };
    put_found(desk, asked, &query, sink)
}

// The strategy that MATCH asks for by this name.
fn strategy_of(name: &str) -> Option<Strategy>
    ensures { result ≡ strategy_of name.now }
{
    if name == "." {
        Some(Strategy::Prefix)
    } else {
        Strategy::by_name(name)
    }
}

// Puts the answer to MATCH.
fn put_match<L: Lookup, K: Sink>(
    alloc: Global,
    desk: &mut L,
    name: &str,
    strategy: &str,
    word: &str,
    sink: &mut K,
) -> Result<LineAnswer, PutFault>
    ensures value { L.is_trusted desk.new → (M : Catalogue) → L.shows desk.old M
        → PutsAnswer (L.has_failed desk.new) result (K.stream sink.old) (K.stream sink.new) (match_answer M name.now strategy.now word.now) (counted_rows What.Headwords) true }
    ensures desk { Stays L.shows L.leaves_one_of L.keeps_beside L.is_trusted L.is_closed desk.old desk.new }
    ensures looks { (M : Catalogue) → L.shows desk.old M → LooksWhere (names_databases M name.now && is_some (strategy_of strategy.now)) result desk.old desk.new }
{
    let asked = match asked_of(desk, name) {
        Ok(Some(asked)) => asked,
        Ok(None) => return put_whole(&Reply::InvalidDatabase, sink),
        Err(_) => return put_unavailable(sink),
    };
    let Some(strategy) = strategy_of(strategy) else {
        return put_whole(&Reply::InvalidStrategy, sink);
    };
    let Ok(key) = key_of(alloc, word) else {
        return put_unavailable(sink);
    };
    let query = Query {
        what: What::Headwords,
        strategy,
        key,
    };
    put_found(desk, asked, &query, sink)
}
