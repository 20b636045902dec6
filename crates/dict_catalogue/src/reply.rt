// The reply to an accepted command.

/// What an accepted command did.
#[derive(Clone, Copy, Debug, PartialEq, Eq)]
pub enum Verb {
    Install,
    Rollback,
    Retire,
    Virtual,
    Place,
}

/// The reply to an accepted command, which is kept under the id of its request.
#[derive(Debug, Drop)]
pub struct Kept {
    /// How many commands were accepted, this one counted.
    pub number: u64,
    /// What the command did.
    pub verb: Verb,
    /// The name that it was about.
    pub name: String,
    /// The number of the current edition after an install or a rollback.
    pub edition: Option<u64>,
}
