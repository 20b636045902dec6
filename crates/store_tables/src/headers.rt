//! An edition without its text, over the type of its texts: `&str` where it is written, `String` where it was read.

ghost use Rattle.std.specs.Prelude.{◌≡◌};
ghost use Rattle.store_tables.specs.Typed.{lent_header, owned_header};

/// What is said of an edition, without its text.
#[derive(Debug, PartialEq, Eq, Drop)]
pub struct HeaderRecord<T> {
    pub number: i64,
    pub owner: T,
    pub title: T,
    pub info: T,
}

impl HeaderRecord<String> {
    /// The same, with its texts lent.
    pub fn lend(&self) -> HeaderRecord<&str>
        ensures { lent_header result ≡ owned_header self.now }
    {
        HeaderRecord {
            number: self.number,
            owner: &self.owner,
            title: &self.title,
            info: &self.info,
        }
    }
}
