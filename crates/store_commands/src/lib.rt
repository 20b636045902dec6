//! Editors' commands on the tables of one database, that of the parts of files among them: each by one transaction, the whole of it or nothing, and once.
#![tactic(auto)]

mod applied;
mod applying;
mod committing;
mod deciding;
mod draft;
mod editions;
mod ending;
mod files;
mod filing;
mod install;
mod laws;
mod marking;
mod orphans;
mod parts;
mod reads;
mod replies;
mod small;
mod titled;
mod writing;

pub use applied::Applied;
pub use applying::apply;
pub use draft::Draft;
pub use ending::apply_read;
pub use filing::Filing;
pub use laws::{command_holds, summaries_in_range};
pub use marking::write_mark_again;
pub use orphans::take_orphans;
pub use parts::file_part;
pub use reads::{ReadInstall, plan_draft};
pub use replies::kept_reply;
