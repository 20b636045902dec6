// What is handed out, as text.
use dict_desk::{Demand, End, Fault, Lookup, PlainDesk, Row, RowSink, What};
use dict_match::{Key, Strategy, key_of};
use std::alloc::{AllocError, Global};
use std::process::Abort;

/// Collects rows, and stops at the last of so many.
#[derive(Drop)]
pub(crate) struct Rows {
    text: String,
    left: usize,
}

impl RowSink for Rows {
    ghost takes = { λ _ _ _. Unit {0} };

    ghost stops = { λ _ _ _. Unit {0} };

    fn take(&mut self, row: Row) -> Demand {
        self.left = self.left.saturating_sub(1);
        if push_row(&mut self.text, row).is_err() || self.left == 0 {
            Demand::Stop
        } else {
            Demand::More
        }
    }

    ghost none = { λ s. tt };

    ghost joined = { λ a b c rows more h k. tt };

    ghost stopped = { λ a b c rows more rest h k. tt };
}

fn push_row(text: &mut String, row: Row) -> Result<(), AllocError> {
    text.push_str(row.shown)?;
    text.push('=')?;
    text.push_str(str::from_utf8(row.text).unwrap_or("not UTF-8"))?;
    text.push(';')
}

/// Which rows are sought.
#[derive(Clone, Copy)]
pub(crate) enum Sought {
    Found,
    Heads,
    Info,
}

fn hand(
    desk: &mut PlainDesk,
    number: u64,
    sought: Sought,
    strategy: Strategy,
    query: &Key,
    rows: &mut Rows,
) -> Result<End, Fault> {
    match sought {
        Sought::Found => desk.find(number, strategy, query, What::Entries, rows),
        Sought::Heads => desk.find(number, strategy, query, What::Headwords, rows),
        Sought::Info => desk.info(number, rows),
    }
}

/// The rows that are handed out, at most so many, and `.` behind them where they are all, or `!` where the sink stopped.
pub(crate) fn hand_out(
    rt: &impl Abort,
    alloc: Global,
    desk: &mut PlainDesk,
    number: u64,
    sought: Sought,
    strategy: Strategy,
    query: &str,
    most: usize,
) -> String {
    let query = key_of(alloc, query).expect(rt, "memory");
    let mut rows = Rows {
        text: String::new(alloc),
        left: most,
    };
    let end = match hand(desk, number, sought, strategy, &query, &mut rows).expect(rt, "rows") {
        End::All => '.',
        End::Stopped => '!',
    };
    rows.text.push(end).expect(rt, "memory");
    rows.text
}

/// How many entries are found, and how many headwords.
pub(crate) fn counts(
    rt: &impl Abort,
    alloc: Global,
    desk: &mut PlainDesk,
    number: u64,
    strategy: Strategy,
    query: &str,
) -> (u64, u64) {
    let query = key_of(alloc, query).expect(rt, "memory");
    let entries = desk
        .count(number, strategy, &query, What::Entries)
        .expect(rt, "a count");
    let heads = desk
        .count(number, strategy, &query, What::Headwords)
        .expect(rt, "a count");
    (entries, heads)
}
