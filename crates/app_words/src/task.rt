// What the program can be asked for.

/// What the words of a command line ask for. Files are told by their paths.
#[derive(Drop)]
pub enum Task<'w> {
    /// A session on the standard streams over the database that an index and a text make, under a name.
    Plain {
        name: &'w str,
        index: &'w str,
        text: &'w str,
    },
    /// An empty catalogue, made in a file.
    Create {
        file: &'w str,
    },
    /// A list of the items of a file's catalogue.
    List {
        file: &'w str,
    },
    /// A test whether a file holds a catalogue.
    Audit {
        file: &'w str,
    },
    /// A session on the standard streams over a file's catalogue.
    Session {
        file: &'w str,
    },
    /// A change of a file's catalogue, about the item of this name, under the id of its request.
    Change {
        file: &'w str,
        name: &'w str,
        id: &'w str,
        change: ItemChange<'w>,
    },
    /// A server of a file's catalogue, at an address for readers and one for editors, for so many rounds or without end.
    Serve {
        file: &'w str,
        dict: &'w str,
        http: &'w str,
        rounds: Option<u32>,
    },
}

/// What is changed of the item.
#[derive(Drop)]
pub enum ItemChange<'w> {
    /// The edition that an index and a text make becomes the current one.
    Install {
        index: &'w str,
        text: &'w str,
    },
    /// The current and the former edition are swapped.
    Rollback,
    /// The item is taken out.
    Retire,
    /// A virtual item is put there, with this title and over these members, in order.
    Virtual {
        title: &'w str,
        members: Vec<&'w str>,
    },
    /// The item is put at this place, from 0.
    Place {
        place: u32,
    },
}
