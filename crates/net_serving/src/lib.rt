//! Serving the catalogue of one file over two sockets: where its store fails, the file is opened anew, and the open
//! connections go on.
#![tactic(auto)]

mod desks;
mod listening;
mod serving;

pub use desks::DeskOpener;
pub use listening::{HOST, ServerOptions};
pub use serving::{serve_catalogue, serve_rounds};
