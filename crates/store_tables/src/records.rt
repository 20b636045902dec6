//! One record for each table, over the type of its texts: `&str` where a record is written, `String` where it was read.

ghost use Rattle.std.specs.Prelude.{◌≡◌};
ghost use Rattle.store_tables.specs.Typed.{lent_mark, lent_item, lent_member, lent_edition, lent_entry, lent_kept, owned_mark, owned_item, owned_member, owned_edition, owned_entry, owned_kept};

/// A record beside the rowid of the row that it stands in.
#[derive(Debug, PartialEq, Eq, Drop)]
pub struct StoredRow<R> {
    pub rowid: i64,
    pub value: R,
}

/// What the file is, and how many installs it has seen. Its id is 1 where the product wrote it.
#[derive(Debug, PartialEq, Eq, Drop)]
pub struct Mark<T> {
    pub id: i64,
    pub magic: T,
    pub version: i64,
    pub installs: i64,
}

/// A database of the list: a regular one, of kind 0, has its current and perhaps its former edition, a virtual one, of kind 1, its title.
#[derive(Debug, PartialEq, Eq, Drop)]
pub struct ItemRecord<T> {
    pub place: i64,
    pub name: T,
    pub kind: i64,
    pub title: Option<T>,
    pub current: Option<i64>,
    pub former: Option<i64>,
}

/// A member of a virtual database.
#[derive(Debug, PartialEq, Eq, Drop)]
pub struct Member<T> {
    pub owner: T,
    pub ord: i64,
    pub name: T,
}

/// An edition, with the text that its entries are cut from: `&[u8]` where it is written, `Vec<u8>` where it was read.
#[derive(Debug, PartialEq, Eq, Drop)]
pub struct EditionRecord<T, B> {
    pub number: i64,
    pub owner: T,
    pub title: T,
    pub info: T,
    pub body: B,
}

/// A headword of an edition, and where its body stands in the edition's text.
#[derive(Debug, PartialEq, Eq, Drop)]
pub struct EntryRecord<T> {
    pub edition: i64,
    pub ord: i64,
    pub headword: T,
    pub start: i64,
    pub length: i64,
}

/// A reply that is kept for the id of its request.
#[derive(Debug, PartialEq, Eq, Drop)]
pub struct KeptRecord<T> {
    pub id: T,
    pub number: i64,
    pub verb: T,
    pub name: T,
    pub edition: Option<i64>,
}

impl Mark<String> {
    /// The same record, with its text lent.
    pub fn lend(&self) -> Mark<&str>
        ensures { lent_mark result ≡ owned_mark self.now }
    {
        Mark {
            id: self.id,
            magic: &self.magic,
            version: self.version,
            installs: self.installs,
        }
    }
}

impl ItemRecord<String> {
    /// The same record, with its texts lent.
    pub fn lend(&self) -> ItemRecord<&str>
        ensures { lent_item result ≡ owned_item self.now }
    {
        ItemRecord {
            place: self.place,
            name: &self.name,
            kind: self.kind,
            title: self.title.as_deref(),
            current: self.current,
            former: self.former,
        }
    }
}

impl Member<String> {
    /// The same record, with its texts lent.
    pub fn lend(&self) -> Member<&str>
        ensures { lent_member result ≡ owned_member self.now }
    {
        Member {
            owner: self.owner.as_str(),
            ord: self.ord,
            name: self.name.as_str(),
        }
    }
}

impl EditionRecord<String, Vec<u8>> {
    /// The same record, with its texts lent.
    pub fn lend(&self) -> EditionRecord<&str, &[u8]>
        ensures { lent_edition result ≡ owned_edition self.now }
    {
        EditionRecord {
            number: self.number,
            owner: &self.owner,
            title: &self.title,
            info: &self.info,
            body: &self.body,
        }
    }
}

impl EntryRecord<String> {
    /// The same record, with its text lent.
    pub fn lend(&self) -> EntryRecord<&str>
        ensures { lent_entry result ≡ owned_entry self.now }
    {
        EntryRecord {
            edition: self.edition,
            ord: self.ord,
            headword: &self.headword,
            start: self.start,
            length: self.length,
        }
    }
}

impl KeptRecord<String> {
    /// The same record, with its texts lent.
    pub fn lend(&self) -> KeptRecord<&str>
        ensures { lent_kept result ≡ owned_kept self.now }
    {
        KeptRecord {
            id: &self.id,
            number: self.number,
            verb: &self.verb,
            name: &self.name,
            edition: self.edition,
        }
    }
}
