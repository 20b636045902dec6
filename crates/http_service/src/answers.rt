// The octets of answers.
ghost use Rattle.std.specs.Prelude.{◌≡◌, IfOk};
ghost use Rattle.http_request.specs.declared.statuses.Status.TheVariants as statuses;
ghost use Rattle.http_service.specs.Answers.{answer_octets, response_text, plain, with_body, not_allowed, unavailable_text};

use dict_proto::{Sink, SinkFault};
use http_request::{Route, Status};
use std::alloc::{AllocError, Global};

/// The octets of an answer, whole.
#[derive(Debug, Drop)]
pub enum Answer {
    /// An answer that is the same each time. It takes no memory.
    Fixed(&'static str),
    Made(Vec<u8>),
}

ghost use Rattle.dict_proto.specs.Streams.{Puts};

impl Answer {
    /// The octets.
    pub fn octets(&self) -> &[u8]
        ensures { result.now ≡ answer_octets self.now }
    {
        match self {
            Answer::Fixed(text) => text.as_bytes(),
            Answer::Made(octets) => octets.as_slice(),
        }
    }

    /// Puts the answer by one call of the sink.
    pub fn put<K: Sink>(&self, sink: &mut K) -> Result<(), SinkFault>
        ensures { Puts result (K.stream sink.old) (K.stream sink.new) (answer_octets self.now) }
    {
        sink.put(self.octets())
    }
}

/// The answer to what is not a request of the form that its route has.
pub fn bad_request() -> Answer
    ensures { answer_octets result ≡ response_text (plain statuses.BadRequest) }
{
    Answer::Fixed(
        "HTTP/1.1 400 Bad Request\r\nContent-Type: application/json\r\nContent-Length: 23\r\nConnection: close\r\n\r\n{\"error\":\"bad request\"}",
    )
}

/// The answer where no route has the path.
pub fn not_found() -> Answer
    ensures { answer_octets result ≡ response_text (plain statuses.NotFound) }
{
    Answer::Fixed(
        "HTTP/1.1 404 Not Found\r\nContent-Type: application/json\r\nContent-Length: 21\r\nConnection: close\r\n\r\n{\"error\":\"not found\"}",
    )
}

/// The answer to a body that would be too long.
pub fn too_large() -> Answer
    ensures { answer_octets result ≡ response_text (plain statuses.ContentTooLarge) }
{
    Answer::Fixed(
        "HTTP/1.1 413 Content Too Large\r\nContent-Type: application/json\r\nContent-Length: 21\r\nConnection: close\r\n\r\n{\"error\":\"too large\"}",
    )
}

/// The answer where memory was wanting or the store failed.
pub fn unavailable() -> Answer
    ensures { answer_octets result ≡ unavailable_text }
{
    Answer::Fixed(
        "HTTP/1.1 503 Service Unavailable\r\nContent-Type: application/json\r\nContent-Length: 23\r\nConnection: close\r\n\r\n{\"error\":\"unavailable\"}",
    )
}

/// The answer where the route hasn't the method.
pub fn method_not_allowed(route: Route) -> Answer
    ensures { answer_octets result ≡ response_text (not_allowed route) }
{
    match route {
        Route::Databases => Answer::Fixed(
            "HTTP/1.1 405 Method Not Allowed\r\nContent-Type: application/json\r\nContent-Length: 30\r\nAllow: GET\r\nConnection: close\r\n\r\n{\"error\":\"method not allowed\"}",
        ),
        Route::Database => Answer::Fixed(
            "HTTP/1.1 405 Method Not Allowed\r\nContent-Type: application/json\r\nContent-Length: 30\r\nAllow: PUT, DELETE\r\nConnection: close\r\n\r\n{\"error\":\"method not allowed\"}",
        ),
        Route::Rollback => Answer::Fixed(
            "HTTP/1.1 405 Method Not Allowed\r\nContent-Type: application/json\r\nContent-Length: 30\r\nAllow: POST\r\nConnection: close\r\n\r\n{\"error\":\"method not allowed\"}",
        ),
        Route::Place => Answer::Fixed(
            "HTTP/1.1 405 Method Not Allowed\r\nContent-Type: application/json\r\nContent-Length: 30\r\nAllow: POST\r\nConnection: close\r\n\r\n{\"error\":\"method not allowed\"}",
        ),
        Route::Virtual => Answer::Fixed(
            "HTTP/1.1 405 Method Not Allowed\r\nContent-Type: application/json\r\nContent-Length: 30\r\nAllow: PUT\r\nConnection: close\r\n\r\n{\"error\":\"method not allowed\"}",
        ),
    }
}

/// The answer with this status and body.
pub fn made(alloc: Global, status: Status, body: &[u8]) -> Result<Answer, AllocError>
    ensures { IfOk result (λ answer. answer_octets answer ≡ response_text (with_body status body.now)) }
{
    let code = status.code();
    let reason = status.reason();
    let len = body.len();
    let head = format!(in alloc;
        "HTTP/1.1 {code} {reason}\r\nContent-Type: application/json\r\nContent-Length: {len}\r\nConnection: close\r\n\r\n"
    )?;
    let mut octets = head.into_bytes();
    octets.extend_from_slice(body)?;
    Ok(Answer::Made(octets))
}
