//! What the program dictcat does with the words that it is given, over any catalogues.
#![tactic(auto)]

mod catalogues;
mod laws;
mod plain;
mod program;
mod task;
mod work;

pub use catalogues::Catalogues;
pub use laws::status_laws;
pub use plain::run_plain;
pub use program::{command, refuse_words};
pub use task::perform;
