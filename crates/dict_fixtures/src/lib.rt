//! For tests: the databases of `examples/`, a desk that fails at a call, one that prepares, long texts.
#![tactic(auto)]

mod examples;
mod failing_desk;
mod files;
mod parts;

pub use examples::{GEM_INDEX, GEM_TEXT, ORE_INDEX, ORE_TEXT};
pub use failing_desk::FailingDesk;
pub use files::{install_long, install_short};
pub use parts::{HEAD, PartsDesk};
