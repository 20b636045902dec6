// What a call of a session comes to.
ghost use Rattle.std.specs.Prelude.{◌≡◌};
ghost use Rattle.dict_session.specs.Ending.{step_at};

/// What a call came to.
#[derive(Clone, Copy, Debug, PartialEq, Eq)]
pub enum Step {
    /// Each whole line was answered, and the session goes on.
    More,
    /// A QUIT was answered, and nothing after it.
    Quit,
    /// The sink failed, and a front of the answers was put; or the desk did after an answer's first octet, and that answer was
    /// broken off.
    Broken,
}

// What a call came to, and what broke the session off.
#[derive(Clone, Copy, Debug, PartialEq, Eq)]
pub(crate) enum Course {
    More,
    Quit,
    SinkFailed,
    DeskFailed,
}

impl Course {
    pub(crate) fn step(self) -> Step
        ensures { result ≡ step_at self }
    {
        match self {
            Course::More => Step::More,
            Course::Quit => Step::Quit,
            Course::SinkFailed | Course::DeskFailed => Step::Broken,
        }
    }
}

// Whether a line got its answer, or the 420 line in its place.
#[derive(Clone, Copy, Debug, PartialEq, Eq)]
pub(crate) enum LineAnswer {
    Whole,
    Unavailable,
}

// What broke an answer off.
#[derive(Clone, Copy, Debug, PartialEq, Eq)]
pub(crate) enum PutFault {
    Sink,
    Desk,
}
