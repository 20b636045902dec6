//! The runs, each in a new hub over a desk. One function owns a hub and one a desk; what is run stands in functions over any desk.

use super::failing::{meet_no_memory, meet_no_room, meet_no_store};
use super::files::{HOST, Row, gem_desk, install, play};
use super::hub::{come_and_go, one_piece, open_and_close, single_octets};
use super::together::serve_all;
use dict_desk::{PlainDesk, Preparer};
use dict_fixtures::FailingDesk;
use net_hub::Hub;
use std::alloc::Global;
use std::process::Abort;

/// What is done in a hub over a desk.
#[derive(Clone, Copy)]
pub(crate) enum Run {
    Rows(&'static [Row]),
    OpenAndClose,
    ComeAndGo,
    SingleOctets,
    OnePiece,
    NoMemory(&'static str, &'static str, &'static str),
    NoStore,
    NoRoom,
    Together,
}

fn run_one<K: Preparer>(rt: &impl Abort, alloc: Global, hub: &mut Hub, desk: &mut K, run: Run) {
    match run {
        Run::Rows(rows) => play(rt, alloc, hub, desk, rows),
        Run::OpenAndClose => open_and_close(rt, alloc, hub, desk),
        Run::ComeAndGo => come_and_go(rt, alloc, hub, desk),
        Run::SingleOctets => single_octets(rt, alloc, hub, desk),
        Run::OnePiece => one_piece(rt, alloc, hub, desk),
        Run::NoMemory(reader, editor, other) => {
            meet_no_memory(rt, alloc, hub, desk, (reader, editor, other));
        }
        Run::NoStore => meet_no_store(rt, alloc, hub, desk),
        Run::NoRoom => meet_no_room(rt, alloc, hub, desk),
        Run::Together => serve_all(rt, alloc, hub, desk),
    }
}

fn run_anew<K: Preparer>(rt: &impl Abort, alloc: Global, desk: &mut K, run: Run) {
    let mut hub = Hub::new(alloc, HOST).expect(rt, "memory");
    run_one(rt, alloc, &mut hub, desk, run);
}

// The same once `gem` was installed, where that is asked for.
fn run_after<K: Preparer>(rt: &impl Abort, alloc: Global, desk: &mut K, has_gem: bool, run: Run) {
    if has_gem {
        install(rt, alloc, desk);
    }
    run_anew(rt, alloc, desk, run);
}

/// A run over a desk in memory, which has `gem` or nothing.
pub(crate) fn over_memory(rt: &impl Abort, alloc: Global, has_gem: bool, run: Run) {
    let mut desk = PlainDesk::new(alloc);
    run_after(rt, alloc, &mut desk, has_gem, run);
}

/// A run over a desk that has `gem`, and fails after so many calls: for memory, or as a store does.
pub(crate) fn over_failing(rt: &impl Abort, alloc: Global, calls: u64, by_disk: bool, run: Run) {
    let mut desk = FailingDesk::new(gem_desk(rt, alloc), calls, by_disk);
    run_anew(rt, alloc, &mut desk, run);
}
