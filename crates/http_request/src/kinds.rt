// What is told of a request.
use crate::statuses::Status;

/// What to do with the octets of a request that have come.
#[derive(Clone, Copy, Debug, PartialEq, Eq)]
pub enum Need {
    /// Wait for more.
    More,
    /// The request is the first so many octets, head and body.
    Whole(usize),
    /// It is answered with this status, whatever follows.
    Refused(Status),
}

/// The values of the headers of one name.
#[derive(Clone, Copy, Debug)]
pub enum Values<'r> {
    /// No header has the name.
    Absent,
    /// One header has it, with this value.
    One(&'r [u8]),
    /// Several headers have it.
    Several,
}

/// A whole request. It borrows from the octets that it was read from.
#[derive(Clone, Copy, Debug)]
pub struct EditorRequest<'r> {
    pub method: &'r [u8],
    /// The target, as it stands in the head. Nothing in it is decoded.
    pub target: &'r str,
    /// The values of the headers `Request-Id`.
    pub ids: Values<'r>,
    pub body: &'r [u8],
    /// How many octets head and body have.
    pub len: usize,
}

/// The octets of a request that have come, as a request.
#[derive(Clone, Copy, Debug)]
pub enum RequestReading<'r> {
    /// The request isn't whole yet. Where its head is, it is once so many octets have come, head and body, and 0 is told else.
    More(usize),
    Whole(EditorRequest<'r>),
    /// It is answered with this status, whatever follows.
    Refused(Status),
}

// The body that the headers tell of.
#[derive(Clone, Copy, Debug)]
pub enum Framing {
    // So many octets.
    Body(usize),
    // None: the request is refused.
    Refused(Status),
}
