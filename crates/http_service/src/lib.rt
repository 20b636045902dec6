//! Editors over HTTP: from the octets of one request to the octets of its answer, over any keeper of a catalogue.
//!
//! One request a connection (RFC 9112). What is answered, and what a request does to the catalogue, is one
//! definition: the first test of a table that applies, in the order of the table.
#![tactic(auto)]

mod actions;
mod answers;
mod bodies;
mod changing;
mod foreseeing;
mod items;
mod json_laws;
mod laws;
mod parts;
mod putting;
mod replies;
mod service;

pub use answers::Answer;
pub use bodies::{VirtualBody, read_json, read_place, read_virtual};
pub use http_request::{Need, Status, need};
pub use items::list_json;
pub use json_laws::one_body;
pub use laws::one_answer;
pub use putting::put_kept;
pub use replies::{refused_command_json, refused_edition_json};
pub use service::Service;
