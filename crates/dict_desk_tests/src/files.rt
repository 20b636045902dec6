// Pairs of files.
use dict_catalogue::Command;
use dict_desk::{Keeper, PlainDesk};
use dict_fixtures::{GEM_INDEX, GEM_TEXT, ORE_INDEX, ORE_TEXT};
use dict_index::{Edition, read_edition};
use std::alloc::Global;
use std::process::Abort;

/// A name, an index and a text.
#[derive(Clone, Copy)]
pub(crate) struct Files(pub &'static str, pub &'static [u8], pub &'static [u8]);

/// The edition that the files say.
pub(crate) fn read(rt: &impl Abort, alloc: Global, files: Files) -> Edition<'static> {
    read_edition(alloc, files.1, files.2).expect(rt, "an edition")
}

/// Installs the edition under a name.
pub(crate) fn install(
    rt: &impl Abort,
    desk: &mut PlainDesk,
    id: &str,
    name: &str,
    edition: &Edition,
) {
    let command = Command::Install { name, edition };
    desk.apply(id, &command).expect(rt, "a reply");
}

/// The same for the edition that the files say.
pub(crate) fn install_files(
    rt: &impl Abort,
    alloc: Global,
    desk: &mut PlainDesk,
    id: &str,
    name: &str,
    files: Files,
) {
    let edition = read(rt, alloc, files);
    install(rt, desk, id, name, &edition);
}

pub(crate) const GEM: Files = Files("gem", GEM_INDEX, GEM_TEXT);

pub(crate) const ORE: Files = Files("ore", ORE_INDEX, ORE_TEXT);

// `a`, `a` followed by U+10FFFF, and `b`.
pub(crate) const EDGE: Files = Files(
    "edge",
    b"00-database-short\tA\tZ\na\tZ\tC\na\xf4\x8f\xbf\xbf\tZ\tC\nb\tZ\tC\n",
    b"00-database-short\n  Gems\nx\n",
);

pub(crate) const TELL: Files = Files(
    "tell",
    b"00-database-short\tA\tX\n00-database-info\tX\tX\n",
    b"00-database-short\nGems\n00-database-info\n.a\n\nb\n",
);

// Entries in another order than their headwords', with one headword twice.
pub(crate) const STONES: Files = Files(
    "stones",
    b"00-database-short\tA\tb\npearl\tb\tC\nopal\tb\tC\npearl\td\tC\nagate\tb\tC\n",
    b"00-database-short\n  Stones\nx\ny\n",
);
