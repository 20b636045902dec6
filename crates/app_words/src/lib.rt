//! What the program is asked and what it says: the command line's words, faults, lines, statuses; what is done over a desk.
#![tactic(auto)]

mod changing;
mod fault;
mod files;
mod help;
mod installing;
mod line;
mod listing;
mod reading;
mod shown_listing;
mod task;
mod version;

pub use changing::change;
pub use fault::{ProgramFault, StoreFault};
pub use files::{InputFiles, OverFiles, ReadFault, read_file};
pub use installing::{InstallRequest, install};
pub use listing::put_list;
pub use reading::read_words;
pub use shown_listing::list;
pub use task::{ItemChange, Task};
pub use version::VERSION;
