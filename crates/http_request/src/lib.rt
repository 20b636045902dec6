//! The heads of editors' requests, and the paths that they ask for.
#![tactic(auto)]

mod fields;
mod finding;
mod kinds;
mod laws;
mod parsing;
mod route_kinds;
mod route_laws;
mod statuses;

pub use finding::Routes;
pub use kinds::{EditorRequest, Need, RequestReading, Values};
pub use laws::{one_answer, one_request};
pub use parsing::{need, read_request};
pub use route_kinds::{FoundRoute, Route};
pub use route_laws::one_route;
pub use statuses::Status;
