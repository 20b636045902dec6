// The statuses of answers.
ghost use Rattle.std.specs.Prelude.{◌≡◌};
ghost use Rattle.http_request.specs.Statuses.{status_code, reason_phrase};

/// The status of an answer.
#[derive(Clone, Copy, Debug, PartialEq, Eq)]
pub enum Status {
    /// The request is answered.
    Ok,
    /// The request is not well formed.
    BadRequest,
    /// No route has the path.
    NotFound,
    /// The route hasn't the method.
    MethodNotAllowed,
    /// The catalogue refuses the command.
    Conflict,
    /// The body would be too long.
    ContentTooLarge,
    /// The edition is refused.
    UnprocessableContent,
    /// Memory was wanting, or the store failed.
    ServiceUnavailable,
}

impl Status {
    /// The status code.
    pub fn code(self) -> u16
        ensures { result ≡ status_code self }
    {
        match self {
            Status::Ok => 200,
            Status::BadRequest => 400,
            Status::NotFound => 404,
            Status::MethodNotAllowed => 405,
            Status::Conflict => 409,
            Status::ContentTooLarge => 413,
            Status::UnprocessableContent => 422,
            Status::ServiceUnavailable => 503,
        }
    }

    /// The words after the code.
    pub fn reason(self) -> &'static str
        ensures { result.now ≡ reason_phrase self }
    {
        match self {
            Status::Ok => "OK",
            Status::BadRequest => "Bad Request",
            Status::NotFound => "Not Found",
            Status::MethodNotAllowed => "Method Not Allowed",
            Status::Conflict => "Conflict",
            Status::ContentTooLarge => "Content Too Large",
            Status::UnprocessableContent => "Unprocessable Content",
            Status::ServiceUnavailable => "Service Unavailable",
        }
    }
}
