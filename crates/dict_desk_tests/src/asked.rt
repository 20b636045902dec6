// Commands as rows have them, and what is answered, as text.
use dict_catalogue::{Command, Item, Kept, Summary};
use dict_index::Edition;
use std::alloc::Global;
use std::process::Abort;

/// A command; an install has the edition that is given to it.
#[derive(Clone, Copy)]
pub(crate) enum Asked {
    Install(&'static str),
    Rollback(&'static str),
    Retire(&'static str),
    Put(&'static str, &'static str, &'static [&'static str]),
    Place(&'static str, u64),
}

impl Asked {
    /// The command, over this edition where it is an install.
    pub(crate) fn command<'a>(self, edition: &'a Edition<'a>) -> Command<'a> {
        match self {
            Asked::Install(name) => Command::Install { name, edition },
            Asked::Rollback(name) => Command::Rollback { name },
            Asked::Retire(name) => Command::Retire { name },
            Asked::Put(name, title, members) => Command::PutVirtual {
                name,
                title,
                members,
            },
            Asked::Place(name, place) => Command::Place { name, place },
        }
    }
}

/// Puts a number.
fn push_number(rt: &impl Abort, alloc: Global, text: &mut String, number: u64) {
    let digits = format!(in alloc; "{number}").expect(rt, "memory");
    text.push_str(digits.as_str()).expect(rt, "memory");
}

/// Puts a reply's number, verb and name, and its edition behind a `#`, if it has one.
pub(crate) fn push_kept(rt: &impl Abort, alloc: Global, text: &mut String, kept: &Kept) {
    push_number(rt, alloc, text, kept.number);
    let verb = kept.verb;
    let told = format!(in alloc; " {verb:?} ").expect(rt, "memory");
    text.push_str(told.as_str()).expect(rt, "memory");
    text.push_str(kept.name.as_str()).expect(rt, "memory");
    if let Some(number) = kept.edition {
        text.push_str(" #").expect(rt, "memory");
        push_number(rt, alloc, text, number);
    }
}

/// Puts a refusal's number and its name.
pub(crate) fn push_refusal(
    rt: &impl Abort,
    alloc: Global,
    text: &mut String,
    number: u8,
    name: &str,
) {
    push_number(rt, alloc, text, u64::from(number));
    text.push(' ').expect(rt, "memory");
    text.push_str(name).expect(rt, "memory");
}

/// Puts the numbers of the editions that go, each behind a `-`.
pub(crate) fn push_gone(rt: &impl Abort, alloc: Global, text: &mut String, gone: &[u64]) {
    for number in gone {
        text.push_str(" -").expect(rt, "memory");
        push_number(rt, alloc, text, *number);
    }
}

/// Puts an item: its name and title, and the numbers of its editions or its members.
fn push_item(rt: &impl Abort, alloc: Global, text: &mut String, item: &Item) {
    text.push_str(item.name()).expect(rt, "memory");
    text.push(' ').expect(rt, "memory");
    text.push_str(item.title()).expect(rt, "memory");
    match item {
        Item::Regular {
            current,
            former,
            ..
        } => {
            text.push(' ').expect(rt, "memory");
            push_number(rt, alloc, text, current.number);
            if let Some(former) = former {
                text.push('/').expect(rt, "memory");
                push_number(rt, alloc, text, former.number);
            }
        }
        Item::Virtual { members, .. } => {
            for member in members {
                text.push_str(" +").expect(rt, "memory");
                text.push_str(member.as_str()).expect(rt, "memory");
            }
        }
    }
    text.push_str("; ").expect(rt, "memory");
}

/// The items in order.
pub(crate) fn listed(rt: &impl Abort, alloc: Global, summary: &Summary) -> String {
    let mut text = String::new(alloc);
    for item in &summary.items {
        push_item(rt, alloc, &mut text, item);
    }
    text
}
