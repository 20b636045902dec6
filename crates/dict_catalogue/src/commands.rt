// What an installer may ask of a catalogue.
ghost use Rattle.std.specs.Prelude.{◌≡◌};
ghost use Rattle.dict_catalogue.specs.Commands.{target, verb_of};
ghost use Rattle.dict_catalogue.specs.Views.{command_shown, command_meant};
ghost use Rattle.dict_catalogue.specs.WellFormed.{IsLawfulCommand};

use crate::reply::Verb;
use dict_index::Edition;

/// A command.
#[derive(Clone, Copy)]
pub enum Command<'a> {
    /// The edition becomes the current one of this name, the current one former, and an older former one is
    /// dropped. A new name goes last.
    Install {
        name: &'a str,
        edition: &'a Edition<'a>,
    },
    /// The current and the former edition are swapped.
    Rollback {
        name: &'a str,
    },
    /// The item is taken out, a regular one with its editions.
    Retire {
        name: &'a str,
    },
    /// A virtual item is added last, or one that is there gets this title and these members.
    PutVirtual {
        name: &'a str,
        title: &'a str,
        members: &'a [&'a str],
    },
    /// The item is taken out and put in at this place, from 0. The others keep their order.
    Place {
        name: &'a str,
        place: u64,
    },
}

impl<'a> Command<'a> {
    /// The name that the command is about.
    pub fn target(&self) -> &'a str
        ensures { result.now ≡ target (command_shown self.now) }
    {
        match *self {
            Command::Install { name, .. } => name,
            Command::Rollback { name } => name,
            Command::Retire { name } => name,
            Command::PutVirtual { name, .. } => name,
            Command::Place { name, .. } => name,
        }
    }

    /// What the command does, as its reply tells it.
    pub fn verb(&self) -> Verb
        ensures { result ≡ verb_of (command_shown self.now) }
    {
        match self {
            Command::Install { .. } => Verb::Install,
            Command::Rollback { .. } => Verb::Rollback,
            Command::Retire { .. } => Verb::Retire,
            Command::PutVirtual { .. } => Verb::Virtual,
            Command::Place { .. } => Verb::Place,
        }
    }
    /// An installed edition is well formed, and a virtual item's title is UTF-8, so a well formed catalogue stays so.
    ///
    /// It does nothing. Its clause is what holds of every command.
    pub fn is_lawful(&self)
        ensures { IsLawfulCommand (command_meant self.now) }
    {
        match self {
            Command::Install { edition, .. } => edition.is_well_formed(),
            Command::PutVirtual { title, .. } => {
                let _octets = title.as_bytes();
            }
            Command::Rollback { .. } | Command::Retire { .. } | Command::Place { .. } => {}
        }
    }
}
