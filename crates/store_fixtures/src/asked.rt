//! What editors ask of a desk, and what they are answered.

ghost use Rattle.std.specs.Prelude.{◌≡◌, map, slice_get, IsSomeAnd, IfOk, IfErr, decimal, string_bytes};
ghost use Rattle.dict_catalogue.specs.Views.{command_meant};
ghost use Rattle.dict_catalogue.specs.Refusals.{command_refusal_number};
ghost use Rattle.dict_desk.specs.Faults.{fault_number};
ghost use Rattle.dict_desk.specs.Requests.{requests_meant};
ghost use Rattle.store_fixtures.specs.Asked.{AreReadOf, command_asked, requests_asked, source_place};

use dict_catalogue::{Command, CommandRefusal, Kept};
use dict_desk::Fault;
use dict_fixtures::{GEM_INDEX, GEM_TEXT, ORE_INDEX, ORE_TEXT};
use dict_index::{Edition, IndexFault, read_edition};
use std::alloc::{AllocError, Global};

/// An edition.
#[derive(Clone, Copy)]
pub enum Source {
    /// Three entries, the first two with one body.
    Gems,
    /// One entry.
    Ores,
    /// One entry, whose headword is `ÉTÉ`.
    Words,
    /// Twelve entries, of which one shows another text than its headword, two have one headword, and some have letters of several octets.
    More,
    /// Two entries that show one text, and one that shows its headword.
    Alike,
}

// The index and the text of each.
static SOURCES: [(&[u8], &[u8]); 5] = [
    (GEM_INDEX, GEM_TEXT),
    (ORE_INDEX, ORE_TEXT),
    (
        b"00-database-short\tA\tZ\n\xc3\x89T\xc3\x89\tZ\tH\n",
        b"00-database-short\n  Mots\nsaison\n",
    ),
    (
        b"00-database-short\tA\tZ\n00-database-info\tx\tK\nopal\tZ\tC\nFire Opal\tb\tC\tOpal, fire\nopal fire\td\tC\n\xc3\x89t\xc3\xa9\tf\tC\nabcd\th\tC\nbcd abc\tj\tC\nopal\tl\tC\nStra\xc3\x9fe\tn\tC\na\xf0\xb1\x8d\x8a\tp\tC\nc++\tr\tC\n+ +\tt\tC\na\tv\tC\n",
        b"00-database-short\n  Gems\n0!1!2!3!4!5!6!7!8!9!a!b!About gems",
    ),
    (
        b"00-database-short\tA\tZ\nopal\tZ\tP\tOpal\nfire opal\tZ\tP\tOpal\ndot\to\tF\n",
        GEM_TEXT,
    ),
];

/// All editions, in that order.
#[derive(Drop)]
pub struct Editions {
    all: Vec<Edition<'static>>,
}

/// Reads them.
pub fn read_editions(alloc: Global) -> Result<Editions, IndexFault>
    ensures { IfOk result (λ editions. AreReadOf (map (λ source. (source.0.now, source.1.now)) SOURCES) editions.all.items) }
{
    let mut all = Vec::new(alloc);
    for (index, text) in &SOURCES {
        all.push(read_edition(alloc, *index, *text)?)?;
    }
    Ok(Editions { all })
}

/// A command.
#[derive(Clone, Copy)]
pub enum Asked {
    Install(&'static str, Source),
    Rollback(&'static str),
    Retire(&'static str),
    Put(&'static str, &'static str, &'static [&'static str]),
    Place(&'static str, u64),
}

impl Source {
    fn place(self) -> usize
        ensures { result ≡ source_place self }
    {
        match self {
            Source::Gems => 0,
            Source::Ores => 1,
            Source::Words => 2,
            Source::More => 3,
            Source::Alike => 4,
        }
    }

    /// The index and the text. None of a source that isn't listed, which there is none of.
    pub fn files(self) -> Option<(&'static [u8], &'static [u8])>
        ensures { IsSomeAnd result (λ files. IsSomeAnd (slice_get SOURCES (source_place self)) (λ source. (files.0.now ≡ source.0.now) × (files.1.now ≡ source.1.now))) }
    {
        SOURCES.get(self.place()).copied()
    }
}

impl Asked {
    /// The command. One that isn't lawful stands for an edition that isn't there.
    pub fn command<'a>(self, editions: &'a Editions) -> Command<'a>
        ensures { command_meant result ≡ command_asked editions.now.all.items self }
    {
        match self {
            Asked::Install(name, source) => match editions.all.get(source.place()) {
                Some(edition) => Command::Install { name, edition },
                None => Command::Retire { name: "" },
            },
            Asked::Rollback(name) => Command::Rollback { name },
            Asked::Retire(name) => Command::Retire { name },
            Asked::Put(name, title, members) => Command::PutVirtual {
                name,
                title,
                members,
            },
            Asked::Place(name, place) => Command::Place { name, place },
        }
    }
}

/// Commands, each with the id of its request.
pub fn requests<'a>(
    alloc: Global,
    editions: &'a Editions,
    asked: &[(&'static str, Asked)],
) -> Result<Vec<(&'a str, Command<'a>)>, AllocError>
    ensures { IfOk result (λ requests. requests_meant requests.items ≡ requests_asked editions.now.all.items asked.now) }
{
    let mut requests = Vec::new(alloc);
    for (id, one) in asked {
        requests.push((*id, one.command(editions)))?;
    }
    Ok(requests)
}

/// The reply's number, verb, name and edition.
pub(crate) fn told_reply(alloc: Global, kept: &Kept) -> Result<String, AllocError> {
    let number = kept.number;
    let verb = kept.verb;
    let name = kept.name.as_str();
    let edition = kept.edition;
    format!(in alloc; "{number} {verb:?} {name} {edition:?}")
}

/// The reply, or the fault's number.
pub fn told(alloc: Global, answer: &Result<Kept, Fault>) -> Result<String, AllocError>
    ensures { IfErr answer.now (λ fault. IfOk result (λ text. string_bytes text ≡ decimal (fault_number fault))) }
{
    match answer {
        Ok(kept) => told_reply(alloc, kept),
        Err(fault) => {
            let number = fault.number();
            format!(in alloc; "{number}")
        }
    }
}

/// The reply, or the refusal's number.
pub fn told_outcome(
    alloc: Global,
    outcome: &Result<Kept, CommandRefusal>,
) -> Result<String, AllocError>
    ensures { IfErr outcome.now (λ refusal. IfOk result (λ text. string_bytes text ≡ decimal (command_refusal_number refusal))) }
{
    match outcome {
        Ok(kept) => told_reply(alloc, kept),
        Err(refusal) => {
            let number = refusal.number();
            format!(in alloc; "{number}")
        }
    }
}
