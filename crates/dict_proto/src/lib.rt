//! The protocol of DICT: what octets come from and go to, what a line asks, and the replies.
#![tactic(auto)]

mod command;
mod gathered;
mod limited;
mod line;
mod line_laws;
mod parameters;
mod part;
mod place;
mod quoted;
mod reply;
mod request;
mod sink;
mod source;
mod text;
mod word;
mod words;

pub use limited::LimitedSink;
pub use line::{MAX_LINE_OCTETS, parse_line};
pub use line_laws::{one_reading, worked_lines, worked_meanings};
pub use quoted::put_quoted;
pub use reply::{Reply, list_is_a_block, reply_lines_are_short, write_reply};
pub use request::{LineFault, Request};
pub use sink::{OverWrite, Sink, SinkFault, put_all};
pub use source::{OverRead, Source, SourceFault};
