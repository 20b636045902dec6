//! Files of schemas 1 to 5, as statements: what `.dump` of stock `sqlite3` (3.40.1) writes of each, but for its PRAGMA and its transaction.

ghost use Rattle.std.specs.Prelude.{◌≡◌, map};

/// What files of schemas 1 to 4 share but for the row of `mark`: the databases `ore` and `gem`, and a list `all` of both.
pub const SHARED: &str =
    "CREATE TABLE mark (id INTEGER NOT NULL PRIMARY KEY, magic TEXT NOT NULL, version INTEGER NOT NULL, installs INTEGER NOT NULL) STRICT; \
     CREATE TABLE item (place INTEGER NOT NULL PRIMARY KEY, name TEXT NOT NULL UNIQUE, kind INTEGER NOT NULL, title TEXT, current INTEGER, former INTEGER) STRICT; \
     INSERT INTO item VALUES(0,'ore',0,NULL,1,NULL); \
     INSERT INTO item VALUES(1,'gem',0,NULL,2,NULL); \
     INSERT INTO item VALUES(2,'all',1,'All',NULL,NULL); \
     CREATE TABLE member (owner TEXT NOT NULL, ord INTEGER NOT NULL, name TEXT NOT NULL, PRIMARY KEY (owner, ord), UNIQUE (owner, name)) STRICT; \
     INSERT INTO member VALUES('all',0,'ore'); \
     INSERT INTO member VALUES('all',1,'gem'); \
     CREATE TABLE edition (number INTEGER NOT NULL PRIMARY KEY, owner TEXT NOT NULL, title TEXT NOT NULL, info TEXT NOT NULL, body BLOB NOT NULL) STRICT; \
     INSERT INTO edition VALUES(1,'ore','Ores','',X'30302d64617461626173652d73686f72740a4f7265730a69726f6e0a20206f72650a'); \
     INSERT INTO edition VALUES(2,'gem','Gems','',X'30302d64617461626173652d73686f72740a202047656d730a6f70616c0a2020612073746f6e650a2e646f740a'); \
     CREATE TABLE kept (id TEXT NOT NULL PRIMARY KEY, number INTEGER NOT NULL UNIQUE, verb TEXT NOT NULL, name TEXT NOT NULL, edition INTEGER) STRICT; \
     INSERT INTO kept VALUES('r1',1,'install','ore',1); \
     INSERT INTO kept VALUES('r2',2,'install','gem',2); \
     INSERT INTO kept VALUES('r3',3,'virtual','all',NULL)";

/// Their entries in schema 1.
pub const PLAIN: &str =
    "CREATE TABLE entry (edition INTEGER NOT NULL, ord INTEGER NOT NULL, headword TEXT NOT NULL, start INTEGER NOT NULL, length INTEGER NOT NULL, PRIMARY KEY (edition, ord)) STRICT; \
     INSERT INTO entry VALUES(1,0,'iron',23,11); \
     INSERT INTO entry VALUES(2,0,'opal',25,15); \
     INSERT INTO entry VALUES(2,1,'Fire Opal',25,15); \
     INSERT INTO entry VALUES(2,2,'dot',40,5)";

// Their entries in schemas 2 and 3, whose keys are the same in both versions of folding.
const KEYED: &str =
    "CREATE TABLE entry (edition INTEGER NOT NULL, ord INTEGER NOT NULL, headword TEXT NOT NULL, start INTEGER NOT NULL, length INTEGER NOT NULL, key BLOB NOT NULL, rkey BLOB NOT NULL, PRIMARY KEY (edition, ord)) STRICT; \
     INSERT INTO entry VALUES(1,0,'iron',23,11,X'69726f6e',X'6e6f7269'); \
     INSERT INTO entry VALUES(2,0,'opal',25,15,X'6f70616c',X'6c61706f'); \
     INSERT INTO entry VALUES(2,1,'Fire Opal',25,15,X'66697265206f70616c',X'6c61706f2065726966'); \
     INSERT INTO entry VALUES(2,2,'dot',40,5,X'646f74',X'746f64'); \
     CREATE TABLE word (edition INTEGER NOT NULL, word BLOB NOT NULL, ord INTEGER NOT NULL, PRIMARY KEY (edition, word, ord)) STRICT; \
     INSERT INTO word VALUES(1,X'69726f6e',0); \
     INSERT INTO word VALUES(2,X'6f70616c',0); \
     INSERT INTO word VALUES(2,X'66697265',1); \
     INSERT INTO word VALUES(2,X'6f70616c',1); \
     INSERT INTO word VALUES(2,X'646f74',2); \
     CREATE TABLE gram (edition INTEGER NOT NULL, gram BLOB NOT NULL, ord INTEGER NOT NULL, PRIMARY KEY (edition, gram, ord)) STRICT; \
     INSERT INTO gram VALUES(1,X'69726f',0); \
     INSERT INTO gram VALUES(1,X'726f6e',0); \
     INSERT INTO gram VALUES(2,X'6f7061',0); \
     INSERT INTO gram VALUES(2,X'70616c',0); \
     INSERT INTO gram VALUES(2,X'206f70',1); \
     INSERT INTO gram VALUES(2,X'65206f',1); \
     INSERT INTO gram VALUES(2,X'666972',1); \
     INSERT INTO gram VALUES(2,X'697265',1); \
     INSERT INTO gram VALUES(2,X'6f7061',1); \
     INSERT INTO gram VALUES(2,X'70616c',1); \
     INSERT INTO gram VALUES(2,X'726520',1); \
     INSERT INTO gram VALUES(2,X'646f74',2); \
     CREATE INDEX dictcat_entry_key ON entry (edition, key); \
     CREATE INDEX dictcat_entry_rkey ON entry (edition, rkey)";

// Their entries in schema 4, whose derived tables may hold anything: nobody looks at them.
const ENTRIES_SHOWN: &str =
    "CREATE TABLE entry (edition INTEGER NOT NULL, ord INTEGER NOT NULL, headword TEXT NOT NULL, start INTEGER NOT NULL, length INTEGER NOT NULL, key BLOB NOT NULL, rkey BLOB NOT NULL, shown TEXT NOT NULL, PRIMARY KEY (edition, ord)) STRICT;
     INSERT INTO entry VALUES(1,0,'iron',23,11,X'69726f6e',X'6e6f7269','iron'); \
     INSERT INTO entry VALUES(2,0,'opal',25,15,X'6f70616c',X'6c61706f','opal'); \
     INSERT INTO entry VALUES(2,1,'Fire Opal',25,15,X'66697265206f70616c',X'6c61706f2065726966','Fire Opal'); \
     INSERT INTO entry VALUES(2,2,'dot',40,5,X'646f74',X'746f64','dot'); \
     CREATE TABLE word (edition INTEGER NOT NULL, word BLOB NOT NULL, ord INTEGER NOT NULL, PRIMARY KEY (edition, word, ord)) STRICT; \
     INSERT INTO word VALUES(1,X'69726f6e',0); \
     INSERT INTO word VALUES(2,X'6f70616c',0); \
     CREATE TABLE gram (edition INTEGER NOT NULL, gram BLOB NOT NULL, ord INTEGER NOT NULL, PRIMARY KEY (edition, gram, ord)) STRICT; \
     INSERT INTO gram VALUES(1,X'69726f',0); \
     CREATE INDEX dictcat_entry_key ON entry (edition, key); \
     CREATE INDEX dictcat_entry_rkey ON entry (edition, rkey)";

/// A file of schemas 1 to 4, as its tables but for the entries, its mark, and its entries.
pub type Older = [&'static str; 3];

static OLDER: [Older; 4] = [
    [SHARED, "INSERT INTO mark VALUES(1,'dictcat',1,2)", PLAIN],
    [SHARED, "INSERT INTO mark VALUES(1,'dictcat',2,2)", KEYED],
    [SHARED, "INSERT INTO mark VALUES(1,'dictcat',3,2)", KEYED],
    [
        SHARED,
        "INSERT INTO mark VALUES(1,'dictcat',4,2)",
        ENTRIES_SHOWN,
    ],
];

/// The same catalogue in a file of each older schema.
pub fn older_files() -> &'static [Older]
    ensures { map (λ file. map (λ text. text.now) file) result.now ≡ map (λ file. map (λ text. text.now) file) OLDER }
{
    &OLDER
}

/// Schema 2, with keys by the first version of folding, in which letters past ASCII stay as they are: the database `ete`, whose headword is `ÉTÉ`.
pub const CAPITALS: &str =
    "CREATE TABLE mark (id INTEGER NOT NULL PRIMARY KEY, magic TEXT NOT NULL, version INTEGER NOT NULL, installs INTEGER NOT NULL) STRICT; \
     INSERT INTO mark VALUES(1,'dictcat',2,1); \
     CREATE TABLE item (place INTEGER NOT NULL PRIMARY KEY, name TEXT NOT NULL UNIQUE, kind INTEGER NOT NULL, title TEXT, current INTEGER, former INTEGER) STRICT; \
     INSERT INTO item VALUES(0,'ete',0,NULL,1,NULL); \
     CREATE TABLE member (owner TEXT NOT NULL, ord INTEGER NOT NULL, name TEXT NOT NULL, PRIMARY KEY (owner, ord), UNIQUE (owner, name)) STRICT; \
     CREATE TABLE edition (number INTEGER NOT NULL PRIMARY KEY, owner TEXT NOT NULL, title TEXT NOT NULL, info TEXT NOT NULL, body BLOB NOT NULL) STRICT; \
     INSERT INTO edition VALUES(1,'ete','Mots','',X'30302d64617461626173652d73686f72740a20204d6f74730a736169736f6e0a'); \
     CREATE TABLE kept (id TEXT NOT NULL PRIMARY KEY, number INTEGER NOT NULL UNIQUE, verb TEXT NOT NULL, name TEXT NOT NULL, edition INTEGER) STRICT; \
     INSERT INTO kept VALUES('r1',1,'install','ete',1); \
     CREATE TABLE entry (edition INTEGER NOT NULL, ord INTEGER NOT NULL, headword TEXT NOT NULL, start INTEGER NOT NULL, length INTEGER NOT NULL, key BLOB NOT NULL, rkey BLOB NOT NULL, PRIMARY KEY (edition, ord)) STRICT; \
     INSERT INTO entry VALUES(1,0,'ÉTÉ',25,7,X'c38974c389',X'89c37489c3'); \
     CREATE TABLE word (edition INTEGER NOT NULL, word BLOB NOT NULL, ord INTEGER NOT NULL, PRIMARY KEY (edition, word, ord)) STRICT; \
     INSERT INTO word VALUES(1,X'c38974c389',0); \
     CREATE TABLE gram (edition INTEGER NOT NULL, gram BLOB NOT NULL, ord INTEGER NOT NULL, PRIMARY KEY (edition, gram, ord)) STRICT; \
     INSERT INTO gram VALUES(1,X'74c389',0); \
     INSERT INTO gram VALUES(1,X'8974c3',0); \
     INSERT INTO gram VALUES(1,X'c38974',0); \
     CREATE INDEX dictcat_entry_key ON entry (edition, key); \
     CREATE INDEX dictcat_entry_rkey ON entry (edition, rkey)";

/// Schema 4: two editions of the database `gem`. Of the second's entries one shows another text than its headword, two have one headword, and some have letters of several octets.
pub const SHOWN: &str =
    "CREATE TABLE mark (id INTEGER NOT NULL PRIMARY KEY, magic TEXT NOT NULL, version INTEGER NOT NULL, installs INTEGER NOT NULL) STRICT; \
     INSERT INTO mark VALUES(1,'dictcat',4,2); \
     CREATE TABLE item (place INTEGER NOT NULL PRIMARY KEY, name TEXT NOT NULL UNIQUE, kind INTEGER NOT NULL, title TEXT, current INTEGER, former INTEGER) STRICT; \
     INSERT INTO item VALUES(0,'gem',0,NULL,2,1); \
     CREATE TABLE member (owner TEXT NOT NULL, ord INTEGER NOT NULL, name TEXT NOT NULL, PRIMARY KEY (owner, ord), UNIQUE (owner, name)) STRICT; \
     CREATE TABLE edition (number INTEGER NOT NULL PRIMARY KEY, owner TEXT NOT NULL, title TEXT NOT NULL, info TEXT NOT NULL, body BLOB NOT NULL) STRICT; \
     INSERT INTO edition VALUES(1,'gem','Gems','',X'30302d64617461626173652d73686f72740a202047656d730a6f70616c0a2020612073746f6e650a2e646f740a'); \
     INSERT INTO edition VALUES(2,'gem','Gems','About gems',X'302131213221332134213521362137213821392161216221'); \
     CREATE TABLE kept (id TEXT NOT NULL PRIMARY KEY, number INTEGER NOT NULL UNIQUE, verb TEXT NOT NULL, name TEXT NOT NULL, edition INTEGER) STRICT; \
     INSERT INTO kept VALUES('r1',1,'install','gem',1); \
     INSERT INTO kept VALUES('r2',2,'install','gem',2); \
     CREATE TABLE entry (edition INTEGER NOT NULL, ord INTEGER NOT NULL, headword TEXT NOT NULL, start INTEGER NOT NULL, length INTEGER NOT NULL, key BLOB NOT NULL, rkey BLOB NOT NULL, shown TEXT NOT NULL, PRIMARY KEY (edition, ord)) STRICT; \
     INSERT INTO entry VALUES(2,0,'opal',0,2,X'6f70616c',X'6c61706f','opal'); \
     INSERT INTO entry VALUES(2,1,'Fire Opal',2,2,X'66697265206f70616c',X'6c61706f2065726966','Opal, fire'); \
     INSERT INTO entry VALUES(2,2,'opal fire',4,2,X'6f70616c2066697265',X'65726966206c61706f','opal fire'); \
     INSERT INTO entry VALUES(2,3,'Été',6,2,X'c3a974c3a9',X'a9c374a9c3','Été'); \
     INSERT INTO entry VALUES(2,4,'abcd',8,2,X'61626364',X'64636261','abcd'); \
     INSERT INTO entry VALUES(2,5,'bcd abc',10,2,X'62636420616263',X'63626120646362','bcd abc'); \
     INSERT INTO entry VALUES(2,6,'opal',12,2,X'6f70616c',X'6c61706f','opal'); \
     INSERT INTO entry VALUES(2,7,'Straße',14,2,X'73747261737365',X'65737361727473','Straße'); \
     INSERT INTO entry VALUES(2,8,'a\u{3134a}',16,2,X'61f0b18d8a',X'8a8db1f061','a\u{3134a}'); \
     INSERT INTO entry VALUES(2,9,'c++',18,2,X'63',X'63','c++'); \
     INSERT INTO entry VALUES(2,10,'+ +',20,2,X'2b202b',X'2b202b','+ +'); \
     INSERT INTO entry VALUES(2,11,'a',22,2,X'61',X'61','a'); \
     INSERT INTO entry VALUES(1,0,'opal',25,15,X'6f70616c',X'6c61706f','opal'); \
     INSERT INTO entry VALUES(1,1,'Fire Opal',25,15,X'66697265206f70616c',X'6c61706f2065726966','Fire Opal'); \
     INSERT INTO entry VALUES(1,2,'dot',40,5,X'646f74',X'746f64','dot'); \
     CREATE TABLE word (edition INTEGER NOT NULL, word BLOB NOT NULL, ord INTEGER NOT NULL, PRIMARY KEY (edition, word, ord)) STRICT; \
     INSERT INTO word VALUES(2,X'6f70616c',0); \
     INSERT INTO word VALUES(2,X'66697265',1); \
     INSERT INTO word VALUES(2,X'6f70616c',1); \
     INSERT INTO word VALUES(2,X'66697265',2); \
     INSERT INTO word VALUES(2,X'6f70616c',2); \
     INSERT INTO word VALUES(2,X'c3a974c3a9',3); \
     INSERT INTO word VALUES(2,X'61626364',4); \
     INSERT INTO word VALUES(2,X'616263',5); \
     INSERT INTO word VALUES(2,X'626364',5); \
     INSERT INTO word VALUES(2,X'6f70616c',6); \
     INSERT INTO word VALUES(2,X'73747261737365',7); \
     INSERT INTO word VALUES(2,X'61f0b18d8a',8); \
     INSERT INTO word VALUES(2,X'63',9); \
     INSERT INTO word VALUES(2,X'2b',10); \
     INSERT INTO word VALUES(2,X'61',11); \
     INSERT INTO word VALUES(1,X'6f70616c',0); \
     INSERT INTO word VALUES(1,X'66697265',1); \
     INSERT INTO word VALUES(1,X'6f70616c',1); \
     INSERT INTO word VALUES(1,X'646f74',2); \
     CREATE TABLE gram (edition INTEGER NOT NULL, gram BLOB NOT NULL, ord INTEGER NOT NULL, PRIMARY KEY (edition, gram, ord)) STRICT; \
     INSERT INTO gram VALUES(2,X'6f7061',0); \
     INSERT INTO gram VALUES(2,X'70616c',0); \
     INSERT INTO gram VALUES(2,X'206f70',1); \
     INSERT INTO gram VALUES(2,X'65206f',1); \
     INSERT INTO gram VALUES(2,X'666972',1); \
     INSERT INTO gram VALUES(2,X'697265',1); \
     INSERT INTO gram VALUES(2,X'6f7061',1); \
     INSERT INTO gram VALUES(2,X'70616c',1); \
     INSERT INTO gram VALUES(2,X'726520',1); \
     INSERT INTO gram VALUES(2,X'206669',2); \
     INSERT INTO gram VALUES(2,X'616c20',2); \
     INSERT INTO gram VALUES(2,X'666972',2); \
     INSERT INTO gram VALUES(2,X'697265',2); \
     INSERT INTO gram VALUES(2,X'6c2066',2); \
     INSERT INTO gram VALUES(2,X'6f7061',2); \
     INSERT INTO gram VALUES(2,X'70616c',2); \
     INSERT INTO gram VALUES(2,X'74c3a9',3); \
     INSERT INTO gram VALUES(2,X'a974c3',3); \
     INSERT INTO gram VALUES(2,X'c3a974',3); \
     INSERT INTO gram VALUES(2,X'616263',4); \
     INSERT INTO gram VALUES(2,X'626364',4); \
     INSERT INTO gram VALUES(2,X'206162',5); \
     INSERT INTO gram VALUES(2,X'616263',5); \
     INSERT INTO gram VALUES(2,X'626364',5); \
     INSERT INTO gram VALUES(2,X'636420',5); \
     INSERT INTO gram VALUES(2,X'642061',5); \
     INSERT INTO gram VALUES(2,X'6f7061',6); \
     INSERT INTO gram VALUES(2,X'70616c',6); \
     INSERT INTO gram VALUES(2,X'617373',7); \
     INSERT INTO gram VALUES(2,X'726173',7); \
     INSERT INTO gram VALUES(2,X'737365',7); \
     INSERT INTO gram VALUES(2,X'737472',7); \
     INSERT INTO gram VALUES(2,X'747261',7); \
     INSERT INTO gram VALUES(2,X'61f0b1',8); \
     INSERT INTO gram VALUES(2,X'b18d8a',8); \
     INSERT INTO gram VALUES(2,X'f0b18d',8); \
     INSERT INTO gram VALUES(2,X'2b202b',10); \
     INSERT INTO gram VALUES(1,X'6f7061',0); \
     INSERT INTO gram VALUES(1,X'70616c',0); \
     INSERT INTO gram VALUES(1,X'206f70',1); \
     INSERT INTO gram VALUES(1,X'65206f',1); \
     INSERT INTO gram VALUES(1,X'666972',1); \
     INSERT INTO gram VALUES(1,X'697265',1); \
     INSERT INTO gram VALUES(1,X'6f7061',1); \
     INSERT INTO gram VALUES(1,X'70616c',1); \
     INSERT INTO gram VALUES(1,X'726520',1); \
     INSERT INTO gram VALUES(1,X'646f74',2); \
     CREATE INDEX dictcat_entry_key ON entry (edition, key); \
     CREATE INDEX dictcat_entry_rkey ON entry (edition, rkey)";

/// Schema 5: the same catalogue as that of schema 4.
pub const PARTED: &str =
    "CREATE TABLE mark (id INTEGER NOT NULL PRIMARY KEY, magic TEXT NOT NULL, version INTEGER NOT NULL, installs INTEGER NOT NULL) STRICT; \
     INSERT INTO mark VALUES(1,'dictcat',5,2); \
     CREATE TABLE item (place INTEGER NOT NULL PRIMARY KEY, name TEXT NOT NULL UNIQUE, kind INTEGER NOT NULL, title TEXT, current INTEGER, former INTEGER) STRICT; \
     INSERT INTO item VALUES(0,'gem',0,NULL,2,1); \
     CREATE TABLE member (owner TEXT NOT NULL, ord INTEGER NOT NULL, name TEXT NOT NULL, PRIMARY KEY (owner, ord), UNIQUE (owner, name)) STRICT; \
     CREATE TABLE kept (id TEXT NOT NULL PRIMARY KEY, number INTEGER NOT NULL UNIQUE, verb TEXT NOT NULL, name TEXT NOT NULL, edition INTEGER) STRICT; \
     INSERT INTO kept VALUES('r1',1,'install','gem',1); \
     INSERT INTO kept VALUES('r2',2,'install','gem',2); \
     CREATE TABLE edition (number INTEGER NOT NULL PRIMARY KEY, owner TEXT NOT NULL, title TEXT NOT NULL, info TEXT NOT NULL) STRICT; \
     INSERT INTO edition VALUES(1,'gem','Gems',''); \
     INSERT INTO edition VALUES(2,'gem','Gems','About gems'); \
     CREATE TABLE dictcat_part (edition INTEGER NOT NULL, file INTEGER NOT NULL, number INTEGER NOT NULL, octets BLOB NOT NULL, PRIMARY KEY (edition, file, number)) STRICT; \
     INSERT INTO dictcat_part VALUES(1,0,0,X'6f70616c095a09500a46697265204f70616c095a09500a646f74096f09460a'); \
     INSERT INTO dictcat_part VALUES(1,1,0,X'30302d64617461626173652d73686f72740a202047656d730a6f70616c0a2020612073746f6e650a2e646f740a'); \
     INSERT INTO dictcat_part VALUES(2,0,0,X'6f70616c094109430a46697265204f70616c09430943094f70616c2c20666972650a6f70616c2066697265094509430ac38974c3a9094709430a61626364094909430a62636420616263094b09430a6f70616c094d09430a53747261c39f65094f09430a61f0b18d8a095109430a632b2b095309430a2b202b095509430a61095709430a'); \
     INSERT INTO dictcat_part VALUES(2,1,0,X'302131213221332134213521362137213821392161216221')";
