// What a command is answered.
use dict_catalogue::{Kept, Summary};

/// What a command is answered that was not refused.
#[derive(Debug, Drop)]
pub enum Applied {
    /// The id was kept: the reply that is kept under it. Nothing has changed.
    Repeated(Kept),
    /// The command has done its effect, and its reply is kept: the reply, and the summary after it.
    Done(Kept, Summary),
}
