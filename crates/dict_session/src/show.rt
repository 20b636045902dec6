// The answers to SHOW, STATUS and HELP.
ghost use Rattle.std.specs.Prelude.{◌≡◌, ◌++◌, Bool, map, true, false, find, length, option_map, IsOk, IfOk};
ghost use Rattle.std.specs.List.{flat_map};
ghost use Rattle.dict_proto.specs.Streams.{Puts};
ghost use Rattle.dict_index.specs.Edition.{Edition};
ghost use Rattle.dict_catalogue.specs.Steps.{Catalogue};
ghost use Rattle.dict_catalogue.specs.Items.{is_named};
ghost use Rattle.dict_catalogue.specs.Views.{item_shown, texts_shown};
ghost use Rattle.dict_desk.specs.Shown.{HasEdition};
ghost use Rattle.dict_proto.specs.Replies.{reply_octets, list_end_octets, done_octets, info_heading_octets, info_text_octets};
ghost use Rattle.dict_match.specs.StrategyText.{strategies};
ghost use Rattle.dict_session.specs.Answers.{no_rows, one_row};
ghost use Rattle.dict_session.specs.Desks.{Stays};
ghost use Rattle.dict_session.specs.Ending.{PutsAnswer};
ghost use Rattle.dict_session.specs.Rows.{shown_line, line_if_named, items_octets, members_octets};
ghost use Rattle.dict_session.specs.Through.{has_edition, LooksWhere};
ghost use Rattle.dict_session.specs.Shows.{databases_answer, strategies_answer, strategy_line, server_answer, info_answer, status_answer, help_answer};

use crate::answer::{put_unavailable, put_whole, whole};
use crate::asked::is_regular_named;
use crate::rows::InfoRow;
use crate::step::{LineAnswer, PutFault};
use dict_catalogue::Item;
use dict_desk::{End, Fault, Lookup};
use dict_match::Strategy;
use dict_proto::{Reply, Sink, SinkFault, write_reply};

// Puts the replies, one after the other.
fn put_replies<K: Sink>(replies: &[Reply], sink: &mut K) -> Result<(), SinkFault>
    ensures { Puts result (K.stream sink.old) (K.stream sink.new) (flat_map reply_octets replies.now) }
{
    for reply in replies {
        write_reply(sink, reply)?;
    }
    Ok(())
}

// Puts what ends a list.
pub(crate) fn put_list_end<K: Sink>(sink: &mut K) -> Result<(), SinkFault>
    ensures { Puts result (K.stream sink.old) (K.stream sink.new) (list_end_octets ++ done_octets) }
{
    put_replies(&[Reply::ListEnd, Reply::Done], sink)
}

// Puts the item's name and title as a line of a list.
fn put_item_line<K: Sink>(item: &Item, sink: &mut K) -> Result<(), SinkFault>
    ensures { Puts result (K.stream sink.old) (K.stream sink.new) (shown_line (item_shown item.now)) }
{
    let line = Reply::ListLine {
        name: item.name(),
        text: item.title(),
    };
    write_reply(sink, &line)
}

// Puts the lines of the items.
fn put_item_lines<K: Sink>(items: &[Item], sink: &mut K) -> Result<(), SinkFault>
    ensures { Puts result (K.stream sink.old) (K.stream sink.new) (flat_map shown_line (map item_shown items.now)) }
{
    for item in items {
        put_item_line(item, sink)?;
    }
    Ok(())
}

// Puts the answer to SHOW DB over these items.
fn put_items<K: Sink>(items: &[Item], sink: &mut K) -> Result<(), SinkFault>
    ensures { Puts result (K.stream sink.old) (K.stream sink.new) (items_octets (map item_shown items.now)) }
{
    let count = items.len() as u64;
    if count == 0 {
        return write_reply(sink, &Reply::NoDatabases);
    }
    write_reply(sink, &Reply::DatabaseCount(count))?;
    put_item_lines(items, sink)?;
    put_list_end(sink)
}

// Puts the answer to SHOW DB.
pub(crate) fn put_databases<L: Lookup, K: Sink>(
    desk: &L,
    sink: &mut K,
) -> Result<LineAnswer, PutFault>
    ensures { (M : Catalogue) → L.shows desk.now M → (failed : Bool) → PutsAnswer failed result (K.stream sink.old) (K.stream sink.new) (databases_answer M) no_rows (L.is_closed desk.now) }
{
    match desk.summary() {
        Ok(summary) => whole(put_items(&summary.items, sink)),
        Err(_) => put_unavailable(sink),
    }
}

// The line of a strategy in the answer to SHOW STRAT.
fn line_of(strategy: Strategy) -> Reply<'static>
    ensures { reply_octets result ≡ strategy_line strategy }
{
    Reply::ListLine {
        name: strategy.name(),
        text: strategy.title(),
    }
}

// Puts a line for each strategy.
fn put_strategy_lines<K: Sink>(sink: &mut K) -> Result<(), SinkFault>
    ensures { Puts result (K.stream sink.old) (K.stream sink.new) (flat_map strategy_line strategies) }
{
    for strategy in &Strategy::ALL {
        write_reply(sink, &line_of(*strategy))?;
    }
    Ok(())
}

// Puts the answer to SHOW STRAT.
pub(crate) fn put_strategies<K: Sink>(sink: &mut K) -> Result<(), SinkFault>
    ensures { Puts result (K.stream sink.old) (K.stream sink.new) strategies_answer }
{
    let count = Strategy::ALL.len() as u64;
    write_reply(sink, &Reply::StrategyCount(count))?;
    put_strategy_lines(sink)?;
    put_list_end(sink)
}

// Puts the answer to SHOW SERVER.
pub(crate) fn put_server<L: Lookup, K: Sink>(
    desk: &L,
    host: &str,
    sink: &mut K,
) -> Result<LineAnswer, PutFault>
    ensures { (M : Catalogue) → L.shows desk.now M → (failed : Bool) → PutsAnswer failed result (K.stream sink.old) (K.stream sink.new) (server_answer M host.now) no_rows (L.is_closed desk.now) }
{
    match count_items(desk) {
        Ok(count) => {
            let server = Reply::ServerInformation { host, count };
            whole(put_replies(&[server, Reply::Done], sink))
        }
        Err(_) => put_unavailable(sink),
    }
}

// Puts the lines of the regular items of this name.
fn put_named<K: Sink>(items: &[Item], name: &str, sink: &mut K) -> Result<(), SinkFault>
    ensures { Puts result (K.stream sink.old) (K.stream sink.new) (flat_map (line_if_named name.now) (map item_shown items.now)) }
{
    for item in items {
        put_if_named(item, name, sink)?;
    }
    Ok(())
}

fn put_if_named<K: Sink>(item: &Item, name: &str, sink: &mut K) -> Result<(), SinkFault>
    ensures { Puts result (K.stream sink.old) (K.stream sink.new) (line_if_named name.now (item_shown item.now)) }
{
    if is_regular_named(item, name) {
        put_item_line(item, sink)
    } else {
        Ok(())
    }
}

// Puts the lines of the regular items of these names.
fn put_member_lines<K: Sink>(
    items: &[Item],
    members: &[String],
    sink: &mut K,
) -> Result<(), SinkFault>
    ensures { Puts result (K.stream sink.old) (K.stream sink.new) (members_octets (map item_shown items.now) (texts_shown members.now)) }
{
    for member in members {
        put_named(items, member.as_str(), sink)?;
    }
    Ok(())
}

// Puts the answer to SHOW INFO about a virtual item with these members.
fn put_members<K: Sink>(items: &[Item], members: &[String], sink: &mut K) -> Result<(), SinkFault>
    ensures { Puts result (K.stream sink.old) (K.stream sink.new) (info_heading_octets ++ (members_octets (map item_shown items.now) (texts_shown members.now) ++ (list_end_octets ++ done_octets))) }
{
    write_reply(sink, &Reply::InfoHeading)?;
    put_member_lines(items, members, sink)?;
    put_list_end(sink)
}

// Puts the answer to SHOW INFO about a regular item whose current edition has this number, where nothing is put yet.
fn put_row<L: Lookup, K: Sink>(
    desk: &mut L,
    number: u64,
    row: &mut InfoRow<K>,
) -> Result<LineAnswer, PutFault>
    requires { row.old.has_begun ≡ false }
    ensures value { L.is_trusted desk.new → (M : Catalogue) (edition : Edition) → L.shows desk.old M → HasEdition M number edition
        → PutsAnswer (L.has_failed desk.new) result (K.stream row.old.sink.now) (K.stream row.new.sink.now) (info_heading_octets ++ (info_text_octets edition.info ++ done_octets)) one_row true }
    ensures same_reference { row.new.sink.ghost_name ≡ row.old.sink.ghost_name }
    ensures desk { Stays L.shows L.leaves_one_of L.keeps_beside L.is_trusted L.is_closed desk.old desk.new }
{
    match desk.info(number, row) {
        Ok(End::All) => put_whole(&Reply::Done, row.sink),
        Ok(End::Stopped) => Err(PutFault::Sink),
        Err(_) => {
            if row.has_begun {
                Err(PutFault::Desk)
            } else {
                put_unavailable(row.sink)
            }
        }
    }
}

// The same over a sink.
fn put_edition<L: Lookup, K: Sink>(
    desk: &mut L,
    number: u64,
    sink: &mut K,
) -> Result<LineAnswer, PutFault>
    ensures value { L.is_trusted desk.new → (M : Catalogue) (edition : Edition) → L.shows desk.old M → HasEdition M number edition
        → PutsAnswer (L.has_failed desk.new) result (K.stream sink.old) (K.stream sink.new) (info_heading_octets ++ (info_text_octets edition.info ++ done_octets)) one_row true }
    ensures desk { Stays L.shows L.leaves_one_of L.keeps_beside L.is_trusted L.is_closed desk.old desk.new }
{
    let mut row = InfoRow {
        sink,
        has_begun: false,
    };
    put_row(desk, number, &mut row)
}

// The first item of this name.
fn item_named<'i>(items: &'i [Item], name: &str) -> Option<&'i Item>
    ensures { option_map (λ item. item.now) result ≡ find (λ item. is_named name.now (item_shown item)) items.now }
{
    items.iter().find(|item| item.name() == name)
}

// How many items the desk has.
fn count_items<L: Lookup>(desk: &L) -> Result<u64, Fault>
    ensures value { (M : Catalogue) → L.shows desk.now M → IfOk result (λ count. count ≡ length M.items) }
    ensures open { L.is_closed desk.now ≡ false → IsOk result }
{
    match desk.summary() {
        Ok(summary) => {
            let items: &[Item] = &summary.items;
            Ok(items.len() as u64)
        }
        Err(fault) => Err(fault),
    }
}

// Puts the answer to SHOW INFO.
pub(crate) fn put_info<L: Lookup, K: Sink>(
    desk: &mut L,
    name: &str,
    sink: &mut K,
) -> Result<LineAnswer, PutFault>
    ensures value { L.is_trusted desk.new → (M : Catalogue) → L.shows desk.old M
        → PutsAnswer (L.has_failed desk.new) result (K.stream sink.old) (K.stream sink.new) (info_answer M name.now) one_row true }
    ensures desk { Stays L.shows L.leaves_one_of L.keeps_beside L.is_trusted L.is_closed desk.old desk.new }
    ensures looks { (M : Catalogue) → L.shows desk.old M → LooksWhere (has_edition (find (is_named name.now) M.items)) result desk.old desk.new }
{
    let Ok(summary) = desk.summary() else {
        return put_unavailable(sink);
    };
    let items: &[Item] = &summary.items;
    match item_named(items, name) {
        None => put_whole(&Reply::InvalidDatabase, sink),
        Some(Item::Virtual { members, .. }) => whole(put_members(items, members, sink)),
        Some(Item::Regular { current, .. }) => {
            let number = current.number;
            put_edition(desk, number, sink)
        }
    }
}

// Puts the answer to STATUS.
pub(crate) fn put_status<L: Lookup, K: Sink>(desk: &L, sink: &mut K) -> Result<LineAnswer, PutFault>
    ensures { (M : Catalogue) → L.shows desk.now M → (failed : Bool) → PutsAnswer failed result (K.stream sink.old) (K.stream sink.new) (status_answer M) no_rows (L.is_closed desk.now) }
{
    match count_items(desk) {
        Ok(count) => put_whole(&Reply::Status(count), sink),
        Err(_) => put_unavailable(sink),
    }
}

// Puts the answer to HELP.
pub(crate) fn put_help<K: Sink>(sink: &mut K) -> Result<(), SinkFault>
    ensures { Puts result (K.stream sink.old) (K.stream sink.new) help_answer }
{
    put_replies(&[Reply::Help, Reply::Done], sink)
}
