//! Commands one after another: over catalogues in files, each list from nothing on, and over two files.
use super::fixtures::Row;

// A catalogue is made.
const CREATE: Row = (&["create", "FILE"], "", 0, "", "");

// The second command.
const INSTALL_GEM_NEXT: Row = (
    &["install", "FILE", "gem", "r2", "gem.index", "gem.dict"],
    "",
    0,
    "{\"edition\":2,\"name\":\"gem\",\"number\":2,\"verb\":\"install\"}\n",
    "",
);

// What is listed then.
const ORE_FIRST: Row = (
    &["list", "FILE"],
    "",
    0,
    "0 ore regular 1 - \"Ores\"\n1 gem regular 2 - \"Gems\"\n2 all virtual ore,gem \"All\"\n",
    "",
);

// The file is read whole.
const SOUND: Row = (&["audit", "FILE"], "", 0, "sound\n", "");

// The first command of two that fill a catalogue.
const INSTALL_ORE: Row = (
    &["install", "FILE", "ore", "r1", "ore.index", "ore.dict"],
    "",
    0,
    "{\"edition\":1,\"name\":\"ore\",\"number\":1,\"verb\":\"install\"}\n",
    "",
);

// The third.
const GROUP_BOTH: Row = (
    &["virtual", "FILE", "all", "r3", "All", "ore", "gem"],
    "",
    0,
    "{\"edition\":null,\"name\":\"all\",\"number\":3,\"verb\":\"virtual\"}\n",
    "",
);

// None is made where there is one.
const CREATE_AGAIN: Row = (&["create", "FILE"], "", 3, "", "fault 43 NotACatalogue\n");

// No item is listed.
const NOTHING_LISTED: Row = (&["list", "FILE"], "", 0, "", "");

// The first command of others.
const INSTALL_GEM: Row = (
    &["install", "FILE", "gem", "r1", "gem.index", "gem.dict"],
    "",
    0,
    "{\"edition\":1,\"name\":\"gem\",\"number\":1,\"verb\":\"install\"}\n",
    "",
);

// There is nothing to go back to.
const NO_FORMER: Row = (
    &["rollback", "FILE", "gem", "r5"],
    "",
    1,
    "",
    "refused 23 NoFormer\n",
);

// Two editions, of which the second is current.
const SECOND_CURRENT: Row = (&["list", "FILE"], "", 0, "0 gem regular 2 1 \"Gems\"\n", "");

// The same, once the second is put first.
const GEM_FIRST: Row = (
    &["list", "FILE"],
    "",
    0,
    "0 gem regular 2 - \"Gems\"\n1 ore regular 1 - \"Ores\"\n2 all virtual ore,gem \"All\"\n",
    "",
);

// A title with signs that are quoted.
const QUOTED: Row = (
    &["list", "FILE"],
    "",
    0,
    "0 ore regular 1 - \"Ores\"\n1 gem regular 2 - \"Gems\"\n2 all virtual gem \"\\\"A\\\" \\\\ 'b'\"\n",
    "",
);

/// A catalogue is made once, and has nothing at first.
pub(crate) static MADE: [Row; 3] = [
    CREATE,
    CREATE_AGAIN,
    (
        &["session", "FILE"],
        "STATUS\r\nSHOW DB\r\nQUIT\r\n",
        0,
        "220 localhost dictcat ready <1@localhost>\r\n210 0 databases\r\n554 no databases present\r\n221 closing connection\r\n",
        "",
    ),
];

/// Editions are installed and taken back.
pub(crate) static EDITIONS: [Row; 14] = [
    CREATE,
    NOTHING_LISTED,
    (
        &["rollback", "FILE", "gem", "r1"],
        "",
        1,
        "",
        "refused 21 Unknown\n",
    ),
    INSTALL_GEM,
    (&["list", "FILE"], "", 0, "0 gem regular 1 - \"Gems\"\n", ""),
    NO_FORMER,
    INSTALL_GEM_NEXT,
    (
        &["rollback", "FILE", "gem", "r3"],
        "",
        0,
        "{\"edition\":1,\"name\":\"gem\",\"number\":3,\"verb\":\"rollback\"}\n",
        "",
    ),
    (&["list", "FILE"], "", 0, "0 gem regular 1 2 \"Gems\"\n", ""),
    (
        &["rollback", "FILE", "gem", "r4"],
        "",
        0,
        "{\"edition\":2,\"name\":\"gem\",\"number\":4,\"verb\":\"rollback\"}\n",
        "",
    ),
    SECOND_CURRENT,
    CREATE_AGAIN,
    SECOND_CURRENT,
    SOUND,
];

/// An id that was accepted is answered again, and no file is read for it; one that was refused is free.
pub(crate) static KEPT: [Row; 9] = [
    CREATE,
    INSTALL_GEM,
    (
        &["install", "FILE", "ore", "r1", "ore.index", "ore.dict"],
        "",
        0,
        "{\"edition\":1,\"name\":\"gem\",\"number\":1,\"verb\":\"install\"}\n",
        "",
    ),
    (
        &["install", "FILE", "ore", "r1", "nosuch", "nosuch"],
        "",
        0,
        "{\"edition\":1,\"name\":\"gem\",\"number\":1,\"verb\":\"install\"}\n",
        "",
    ),
    NO_FORMER,
    (
        &["retire", "FILE", "gem", "r5"],
        "",
        0,
        "{\"edition\":null,\"name\":\"gem\",\"number\":2,\"verb\":\"retire\"}\n",
        "",
    ),
    (
        &["retire", "FILE", "gem", "r1"],
        "",
        0,
        "{\"edition\":1,\"name\":\"gem\",\"number\":1,\"verb\":\"install\"}\n",
        "",
    ),
    NOTHING_LISTED,
    SOUND,
];

/// Of several faults the first is told: FILE, INDEX, DICT, the edition, the command.
pub(crate) static FIRST_FAULTS: [Row; 9] = [
    CREATE,
    (
        &["install", "FILE", "9", "_", "nosuch", "empty"],
        "",
        3,
        "",
        "cannot read nosuch\n",
    ),
    (
        &["install", "FILE", "9", "_", "nosuch", "none"],
        "",
        3,
        "",
        "cannot read nosuch\n",
    ),
    (
        &["install", "FILE", "9", "_", "gem.index", "none"],
        "",
        3,
        "",
        "cannot read none\n",
    ),
    (
        &["install", "FILE", "9", "_", "gem.index", "empty"],
        "",
        1,
        "",
        "refused 4 Interval line 1\n",
    ),
    (
        &["install", "FILE", "9", "_", "empty", "empty"],
        "",
        1,
        "",
        "refused 10 NoTitle\n",
    ),
    (
        &["install", "FILE", "9", "_", "gem.index", "gem.dict"],
        "",
        1,
        "",
        "refused 31 BadRequestId\n",
    ),
    (
        &["rollback", "FILE", "9", "_"],
        "",
        1,
        "",
        "refused 31 BadRequestId\n",
    ),
    (
        &["retire", "--", "FILE", "-x", "r1"],
        "",
        1,
        "",
        "refused 20 BadName\n",
    ),
];

/// Databases are asked in their order, and put at other places.
pub(crate) static ORDER: [Row; 16] = [
    CREATE,
    INSTALL_ORE,
    INSTALL_GEM_NEXT,
    GROUP_BOTH,
    ORE_FIRST,
    (
        &["session", "FILE"],
        "DEFINE ! opal\r\nDEFINE all opal\r\nMATCH ! substring o\r\nMATCH * substring o\r\nSHOW DB\r\nSHOW INFO all\r\n",
        0,
        "220 localhost dictcat ready <1@localhost>\r\n150 1 definitions retrieved\r\n151 \"opal\" gem \"Gems\"\r\nopal\r\n  a stone\r\n.\r\n250 ok\r\n150 1 definitions retrieved\r\n151 \"opal\" gem \"Gems\"\r\nopal\r\n  a stone\r\n.\r\n250 ok\r\n152 1 matches found\r\nore \"iron\"\r\n.\r\n250 ok\r\n152 4 matches found\r\nore \"iron\"\r\ngem \"opal\"\r\ngem \"Fire Opal\"\r\ngem \"dot\"\r\n.\r\n250 ok\r\n110 3 databases present\r\nore \"Ores\"\r\ngem \"Gems\"\r\nall \"All\"\r\n.\r\n250 ok\r\n112 database information\r\nore \"Ores\"\r\ngem \"Gems\"\r\n.\r\n250 ok\r\n",
        "",
    ),
    (
        &["place", "FILE", "gem", "r4", "0"],
        "",
        0,
        "{\"edition\":null,\"name\":\"gem\",\"number\":4,\"verb\":\"place\"}\n",
        "",
    ),
    GEM_FIRST,
    (
        &["session", "FILE"],
        "MATCH ! substring o\r\nMATCH all substring o\r\nMATCH * substring o\r\n",
        0,
        "220 localhost dictcat ready <1@localhost>\r\n152 3 matches found\r\ngem \"opal\"\r\ngem \"Fire Opal\"\r\ngem \"dot\"\r\n.\r\n250 ok\r\n152 4 matches found\r\nore \"iron\"\r\ngem \"opal\"\r\ngem \"Fire Opal\"\r\ngem \"dot\"\r\n.\r\n250 ok\r\n152 4 matches found\r\ngem \"opal\"\r\ngem \"Fire Opal\"\r\ngem \"dot\"\r\nore \"iron\"\r\n.\r\n250 ok\r\n",
        "",
    ),
    (
        &["place", "FILE", "gem", "r5", "3"],
        "",
        1,
        "",
        "refused 30 BadPlace\n",
    ),
    (
        &["place", "FILE", "gem", "r5", "4294967295"],
        "",
        1,
        "",
        "refused 30 BadPlace\n",
    ),
    (
        &["place", "FILE", "gem", "r5", "4294967296"],
        "",
        2,
        "",
        "error: invalid value '4294967296' for '<PLACE>': 4294967296 is not in 0..=4294967295\n\nFor more information, try '--help'.\n",
    ),
    (
        &["place", "--", "FILE", "gem", "r5", "-1"],
        "",
        2,
        "",
        "error: invalid value '-1' for '<PLACE>': -1 is not in 0..=4294967295\n\nFor more information, try '--help'.\n",
    ),
    GEM_FIRST,
    (
        &["place", "FILE", "gem", "r5", "01"],
        "",
        0,
        "{\"edition\":null,\"name\":\"gem\",\"number\":5,\"verb\":\"place\"}\n",
        "",
    ),
    ORE_FIRST,
];

/// A title with quote signs, words that begin with a hyphen, and of two refusals the first.
pub(crate) static WORDS: [Row; 19] = [
    CREATE,
    INSTALL_ORE,
    INSTALL_GEM_NEXT,
    GROUP_BOTH,
    ORE_FIRST,
    (
        &["virtual", "FILE", "all", "r4", "\"A\" \\ 'b'", "gem"],
        "",
        0,
        "{\"edition\":null,\"name\":\"all\",\"number\":4,\"verb\":\"virtual\"}\n",
        "",
    ),
    QUOTED,
    (
        &["virtual", "FILE", "all", "_", "", "zz"],
        "",
        1,
        "",
        "refused 31 BadRequestId\n",
    ),
    (
        &["virtual", "--", "FILE", "-x", "r5", "", "zz"],
        "",
        1,
        "",
        "refused 20 BadName\n",
    ),
    (
        &["virtual", "FILE", "gem", "r5", "", "zz"],
        "",
        1,
        "",
        "refused 32 IsRegular\n",
    ),
    (
        &["virtual", "FILE", "all", "r5", " All", "zz"],
        "",
        1,
        "",
        "refused 29 BadTitle\n",
    ),
    (
        &["virtual", "FILE", "all", "r5", "All", "gem", "zz", "gem"],
        "",
        1,
        "",
        "refused 26 BadMember\n",
    ),
    (
        &["virtual", "FILE", "all", "r5", "All", "gem", "gem"],
        "",
        1,
        "",
        "refused 27 MemberTwice\n",
    ),
    (
        &["install", "FILE", "all", "r5", "ore.index", "ore.dict"],
        "",
        1,
        "",
        "refused 22 IsVirtual\n",
    ),
    (
        &["retire", "FILE", "gem", "r5"],
        "",
        1,
        "",
        "refused 24 Listed\n",
    ),
    (
        &["place", "--", "FILE", "-x", "r5", "9"],
        "",
        1,
        "",
        "refused 20 BadName\n",
    ),
    (
        &["place", "FILE", "tin", "r5", "9"],
        "",
        1,
        "",
        "refused 21 Unknown\n",
    ),
    QUOTED,
    (
        &["session", "FILE"],
        "SHOW DB\r\n",
        0,
        "220 localhost dictcat ready <1@localhost>\r\n110 3 databases present\r\nore \"Ores\"\r\ngem \"Gems\"\r\nall \"\\\"A\\\" \\\\ 'b'\"\r\n.\r\n250 ok\r\n",
        "",
    ),
];

/// A database that is listed stays, and without databases nothing is found.
pub(crate) static RETIRED: [Row; 10] = [
    CREATE,
    INSTALL_ORE,
    INSTALL_GEM_NEXT,
    GROUP_BOTH,
    ORE_FIRST,
    (
        &["retire", "FILE", "gem", "r4"],
        "",
        1,
        "",
        "refused 24 Listed\n",
    ),
    (
        &["retire", "FILE", "all", "r4"],
        "",
        0,
        "{\"edition\":null,\"name\":\"all\",\"number\":4,\"verb\":\"retire\"}\n",
        "",
    ),
    (
        &["retire", "FILE", "gem", "r5"],
        "",
        0,
        "{\"edition\":null,\"name\":\"gem\",\"number\":5,\"verb\":\"retire\"}\n",
        "",
    ),
    (
        &["retire", "FILE", "ore", "r6"],
        "",
        0,
        "{\"edition\":null,\"name\":\"ore\",\"number\":6,\"verb\":\"retire\"}\n",
        "",
    ),
    (
        &["session", "FILE"],
        "SHOW DB\r\nDEFINE * opal\r\n",
        0,
        "220 localhost dictcat ready <1@localhost>\r\n554 no databases present\r\n552 no match\r\n",
        "",
    ),
];

/// Of several faults of a server the first is told: the words, FILE, the address for readers, that for editors.
pub(crate) static UNSERVED: [Row; 5] = [
    (
        &[
            "serve",
            "FILE",
            "--dict",
            "127.0.0.1:0",
            "--http",
            "127.0.0.1:0",
            "--rounds",
            "0",
        ],
        "",
        2,
        "",
        "error: invalid value '0' for '--rounds <N>': 0 is not in 1..=4294967295\n\nFor more information, try '--help'.\n",
    ),
    CREATE,
    (
        &["serve", "FILE", "--dict", "localhost:0", "--http", "none"],
        "",
        3,
        "",
        "cannot bind localhost:0\n",
    ),
    (
        &["serve", "FILE", "--dict", "127.0.0.1:0", "--http", "none"],
        "",
        3,
        "",
        "cannot bind none\n",
    ),
    SOUND,
];

/// A session over two files, whose first fault is told: INDEX, DICT, the edition, the name.
pub(crate) static PLAIN: [Row; 6] = [
    (
        &["plain", "9", "nosuch", "none"],
        "",
        3,
        "",
        "cannot read nosuch\n",
    ),
    (
        &["plain", "9", "gem.index", "none"],
        "",
        3,
        "",
        "cannot read none\n",
    ),
    (
        &["plain", "9", "long.index", "gem.dict"],
        "",
        1,
        "",
        "refused 4 Interval line 4\n",
    ),
    (
        &["plain", "9", "empty", "empty"],
        "",
        1,
        "",
        "refused 10 NoTitle\n",
    ),
    (
        &["plain", "9", "gem.index", "gem.dict"],
        "",
        1,
        "",
        "refused 20 BadName\n",
    ),
    (
        &["plain", "gem", "gem.index", "gem.dict"],
        "DEFINE gem opal\r\n",
        0,
        "220 localhost dictcat ready <1@localhost>\r\n150 1 definitions retrieved\r\n151 \"opal\" gem \"Gems\"\r\nopal\r\n  a stone\r\n.\r\n250 ok\r\n",
        "",
    ),
];
