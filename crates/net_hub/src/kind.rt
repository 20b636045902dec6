// Whom a connection serves.

/// Whom a connection serves.
#[derive(Clone, Copy, Debug, PartialEq, Eq)]
pub enum Kind {
    /// A reader, by a DICT session.
    Dict,
    /// An editor, by one HTTP request.
    Http,
}
