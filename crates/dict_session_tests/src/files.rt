// Catalogues in memory.
use dict_catalogue::Command;
use dict_desk::Keeper;
use dict_fixtures::{GEM_INDEX, GEM_TEXT, ORE_INDEX, ORE_TEXT};
use dict_index::{Edition, read_edition};
use std::alloc::Global;
use std::process::Abort;

/// A name, an index and a text.
#[derive(Clone, Copy)]
pub(crate) struct Files(pub &'static str, pub &'static [u8], pub &'static [u8]);

pub(crate) const GEM: Files = Files("gem", GEM_INDEX, GEM_TEXT);

pub(crate) const ORE: Files = Files("ore", ORE_INDEX, ORE_TEXT);

/// Two headwords of which one is the other with the last character of all behind it, which is no letter.
pub(crate) const EDGE: Files = Files(
    "edge",
    b"00-database-short\tA\tZ\na\tZ\tC\na\xf4\x8f\xbf\xbf\tZ\tC\nb\tZ\tC\n",
    b"00-database-short\n  Gems\nx\n",
);

/// Headwords past ASCII, over one text: `ÉTÉ`, `Straße`, `ΣΑΣ`, `don’t`, `ŉ`, `İ`, `Ⱥ` and `हिन्दी`.
pub(crate) const ETE: Files = Files(
    "ete",
    b"00-database-short\tA\tZ\n\xc3\x89T\xc3\x89\tZ\tH\nStra\xc3\x9fe\tZ\tH\n\xce\xa3\xce\x91\xce\xa3\tZ\tH\ndon\xe2\x80\x99t\tZ\tH\n\xc5\x89\tZ\tH\n\xc4\xb0\tZ\tH\n\xc8\xba\tZ\tH\n\xe0\xa4\xb9\xe0\xa4\xbf\xe0\xa4\xa8\xe0\xa5\x8d\xe0\xa4\xa6\xe0\xa5\x80\tZ\tH\n",
    b"00-database-short\n  Mots\nsaison\n",
);

// Entries in another order than their headwords', with one headword twice, and what the database says of itself.
pub(crate) const STONES: Files = Files(
    "stones",
    b"00-database-short\tA\tb\n00-database-info\tf\tF\npearl\tb\tC\nopal\tb\tC\npearl\td\tC\nagate\tb\tC\n",
    b"00-database-short\n  Stones\nx\ny\n.x\ny\n",
);

/// Applies a command, and forgets its reply.
pub(crate) fn apply<K: Keeper>(rt: &impl Abort, desk: &mut K, id: &str, command: &Command) {
    drop(desk.apply(id, command).expect(rt, "a reply"));
}

// Installs an edition under the name, which is the request's id too.
fn install<K: Keeper>(rt: &impl Abort, desk: &mut K, name: &str, edition: &Edition) {
    let command = Command::Install { name, edition };
    apply(rt, desk, name, &command);
}

// Installs the edition that the files say.
fn install_files<K: Keeper>(rt: &impl Abort, alloc: Global, desk: &mut K, files: Files) {
    let edition = read_edition(alloc, files.1, files.2).expect(rt, "an edition");
    install(rt, desk, files.0, &edition);
    drop(edition);
}

/// Installs these databases in their order, and puts `all`, which lists `ore` and `gem`, where it is asked.
pub(crate) fn fill<K: Keeper>(
    rt: &impl Abort,
    alloc: Global,
    desk: &mut K,
    databases: &[Files],
    has_all: bool,
) {
    for files in databases {
        install_files(rt, alloc, desk, *files);
    }
    if has_all {
        let command = Command::PutVirtual {
            name: "all",
            title: "All",
            members: &["ore", "gem"],
        };
        apply(rt, desk, "put", &command);
    }
}
