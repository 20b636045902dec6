//! The catalogues in files over which the program dictcat does what it is asked for.
#![tactic(auto)]

mod cached;
mod desks;
mod files;
mod left;
mod opener;
mod running;
mod session;
mod stores;

pub use files::CatalogueFiles;
pub use opener::{FileOpener, SystemFiles};
pub use running::run_over;
