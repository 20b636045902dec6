// The summary of a catalogue.
ghost use Rattle.std.specs.Prelude.{◌≤◌};

use std::alloc::Global;

/// An edition as a summary has it.
#[derive(Debug, Drop)]
pub struct StoredTitle {
    /// The edition's number: the n-th accepted install makes edition number n.
    pub number: u64,
    /// The edition's title.
    pub title: String,
}

/// An item of a catalogue.
#[derive(Debug, Drop)]
pub enum Item {
    /// A database with its current edition and perhaps a former one.
    Regular {
        name: String,
        current: StoredTitle,
        former: Option<StoredTitle>,
    },
    /// A list of regular databases under one name, in their order.
    Virtual {
        name: String,
        title: String,
        members: Vec<String>,
    },
}

/// A catalogue without its editions' entries and its kept replies.
#[derive(Debug, Drop)]
pub struct Summary {
    /// The items in order.
    pub items: Vec<Item>,
    /// How many installs were accepted.
    pub installs: u64,
    /// How many commands were accepted.
    pub accepted: u64,
    pub ghost installs_within: { installs ≤ accepted },
}

impl Item {
    ghost use Rattle.std.specs.Prelude.{◌≡◌};
    ghost use Rattle.dict_catalogue.specs.Items.{name_of};
    ghost use Rattle.dict_catalogue.specs.Views.{item_shown, title_of};

    /// The item's name.
    pub fn name(&self) -> &str
        ensures { result.now ≡ name_of (item_shown self.now) }
    {
        match self {
            Item::Regular { name, .. } => name.as_str(),
            Item::Virtual { name, .. } => name.as_str(),
        }
    }

    /// The item's title: of a database, its current edition's.
    pub fn title(&self) -> &str
        ensures { result.now ≡ title_of (item_shown self.now) }
    {
        match self {
            Item::Regular { current, .. } => current.title.as_str(),
            Item::Virtual { title, .. } => title.as_str(),
        }
    }
}

impl Summary {
    ghost use Rattle.std.specs.Prelude.{◌≡◌};
    ghost use Rattle.dict_catalogue.specs.Steps.{summary_of, empty_catalogue};
    ghost use Rattle.dict_catalogue.specs.Views.{summary_shown};

    /// The summary of the empty catalogue. No memory is taken.
    pub fn new(alloc: Global) -> Summary
        ensures { summary_shown result ≡ summary_of empty_catalogue }
    {
        Summary {
            items: Vec::new(alloc),
            installs: 0,
            accepted: 0,
        }
    }
}
