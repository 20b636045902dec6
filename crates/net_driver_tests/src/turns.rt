//! Turns of one connection to a peer in memory, by steps that are written down as data. One function owns a desk and a hub, and
//! one the connection.
use crate::checks::holds;
use crate::crowd::Crowd;
use crate::peer::{Peer, SILENT, Script};
use dict_fixtures::{PartsDesk, install_long};
use net_connection::{Connection, PIECE, Stage};
use net_hub::{Hub, Kind};
use std::alloc::Global;
use std::process::Abort;

/// A connection to a peer over a desk, and its steps.
#[derive(Clone, Copy)]
pub(crate) struct Talk {
    /// What fails where a step comes to something else.
    pub(crate) name: &'static str,
    pub(crate) kind: Kind,
    pub(crate) script: Script,
    /// Whether the desk has a long text.
    pub(crate) has_text: bool,
    /// By how many parts the desk prepares a command.
    pub(crate) parts: u32,
    pub(crate) steps: &'static [Step],
}

/// A reader's to a peer that sends nothing, without a step.
pub(crate) const READER: Talk = Talk {
    name: "",
    kind: Kind::Dict,
    script: SILENT,
    has_text: false,
    parts: 0,
    steps: &[],
};

/// One step, or what is so then.
#[derive(Clone, Copy)]
pub(crate) enum Step {
    /// So many turns.
    Turns(u32),
    /// One turn while the command of another connection's editor comes first.
    Meanwhile,
    /// So many turns, no more than this, in which it is held back, and one more.
    HeldBack(u32, u32),
    /// One turn, and then this stage, how many octets the peer took, and how many of its pieces were read.
    To(Stage, usize, usize),
    /// The stage.
    Is(Stage),
    /// How many octets the peer took.
    Taken(usize),
    /// How these begin.
    Begins(&'static [u8]),
    /// How many of the peer's pieces were read.
    Read(usize),
    /// How often the peer was asked to take octets.
    Calls(u32),
    /// The fewest octets that such a call handed over.
    Fewest(usize),
    /// How many octets wait.
    Waiting(usize),
    /// How often the desk let go of what it noted.
    Forgotten(u32),
}

// One turn, while another editor's command comes first or not.
fn turn(
    rooms: &Crowd,
    hub: &mut Hub,
    desk: &mut PartsDesk,
    one: &mut Connection<Peer>,
    is_behind: bool,
) {
    let mut room = [0u8; PIECE];
    if one.stage().is_open() {
        one.turn(rooms, hub, desk, &mut room, is_behind);
    } else {
        one.linger(&mut room);
    }
}

fn turns(
    rooms: &Crowd,
    hub: &mut Hub,
    desk: &mut PartsDesk,
    one: &mut Connection<Peer>,
    count: u32,
) {
    for _ in 0..count {
        turn(rooms, hub, desk, one, false);
    }
}

// How many turns it is held back, of so many at most. One more is made.
fn count_held(
    rooms: &Crowd,
    hub: &mut Hub,
    desk: &mut PartsDesk,
    one: &mut Connection<Peer>,
    most: u32,
) -> u32 {
    for held in 0..most {
        turn(rooms, hub, desk, one, false);
        if one.turns_held() == 0 {
            return held;
        }
    }
    u32::MAX
}

// Whether that is so.
fn is_so(desk: &PartsDesk, one: &Connection<Peer>, step: Step) -> bool {
    let peer = one.transport();
    match step {
        Step::Is(stage) => one.stage() == stage,
        Step::Taken(count) => peer.taken.len() == count,
        Step::Begins(octets) => peer.taken.starts_with(octets),
        Step::Read(count) => peer.read == count,
        Step::Calls(count) => peer.calls == count,
        Step::Fewest(count) => peer.fewest == count,
        Step::Waiting(count) => one.waiting_count() == count,
        Step::Forgotten(count) => desk.forgotten == count,
        _ => false,
    }
}

fn has_come_to(one: &Connection<Peer>, stage: Stage, taken: usize, read: usize) -> bool {
    let peer = one.transport();
    one.stage() == stage && peer.taken.len() == taken && peer.read == read
}

// Whether it comes as it is to come.
fn make(
    rooms: &Crowd,
    hub: &mut Hub,
    desk: &mut PartsDesk,
    one: &mut Connection<Peer>,
    step: Step,
) -> bool {
    match step {
        Step::Turns(count) => {
            turns(rooms, hub, desk, one, count);
            true
        }
        Step::Meanwhile => {
            turn(rooms, hub, desk, one, true);
            true
        }
        Step::HeldBack(count, most) => count_held(rooms, hub, desk, one, most) == count,
        Step::To(stage, taken, read) => {
            turn(rooms, hub, desk, one, false);
            has_come_to(one, stage, taken, read)
        }
        _ => is_so(desk, one, step),
    }
}

// Whether each step comes as it is to come, and the connection is the one that was opened.
fn make_all(
    rooms: &Crowd,
    hub: &mut Hub,
    desk: &mut PartsDesk,
    one: &mut Connection<Peer>,
    steps: &[Step],
) -> bool {
    for step in steps {
        if !make(rooms, hub, desk, one, *step) {
            return false;
        }
    }
    one.id() == 7
}

fn open(
    rt: &impl Abort,
    alloc: Global,
    rooms: &Crowd,
    hub: &mut Hub,
    desk: &mut PartsDesk,
    talk: Talk,
) {
    let peer = Peer::new(alloc, talk.script);
    let one = Connection::open(rooms, alloc, 7, talk.kind, peer, hub, desk);
    let mut one = one.expect(rt, "a connection");
    let is_made = make_all(rooms, hub, desk, &mut one, talk.steps);
    drop(one);
    holds(rt, is_made, talk.name);
}

fn open_over(rt: &impl Abort, alloc: Global, desk: &mut PartsDesk, talk: Talk) {
    if talk.has_text {
        install_long(alloc, desk).expect(rt, "an edition");
    }
    let mut hub = Hub::new(alloc, "localhost").expect(rt, "memory");
    let rooms = Crowd::empty(alloc);
    open(rt, alloc, &rooms, &mut hub, desk, talk);
    drop(rooms);
    drop(hub);
}

fn open_anew(rt: &impl Abort, alloc: Global, talk: Talk) {
    let mut desk = PartsDesk::new(alloc, talk.parts);
    open_over(rt, alloc, &mut desk, talk);
    drop(desk);
}

/// Each connection by itself makes its steps.
pub(crate) fn make_turns(rt: &impl Abort, alloc: Global, talks: &[Talk]) {
    for talk in talks {
        open_anew(rt, alloc, *talk);
    }
}
