//! One DICT session: from the octets that a client sends to the octets that it is sent.
#![tactic(auto)]

ghost use Rattle.std.specs.Prelude.{◌≡◌, ◌⊎◌, ℕ, ◌<◌, ◌^◌, List, ◌++◌, Bool, IsTrue, Result};
ghost use Rattle.dict_proto.specs.Meaning.{Meaning};
ghost use Rattle.dict_session.specs.Lines.{AreLines, cut};
ghost use Rattle.dict_catalogue.specs.Steps.{Catalogue};
ghost use Rattle.dict_catalogue.specs.WellFormed.{IsWellFormed};
ghost use Rattle.dict_proto.specs.Replies.{banner_octets};
ghost use Rattle.dict_proto.specs.ReplyLines.{AreShortLines};
ghost use Rattle.dict_session.specs.Answers.{answer_to};
ghost use Rattle.dict_proto.specs.Streams.{StreamChange};
ghost use Rattle.dict_session.specs.Desks.{Condition};
ghost use Rattle.dict_session.specs.Limits.{is_host, PutsShort};
ghost use Rattle.dict_session.specs.Run.{Ends, lines_in};
ghost use Rattle.dict_session.specs.declared.session.run.SessionEnd.{SessionEnd as RunEnd};
ghost use Rattle.dict_session.specs.declared.session.run.SessionFault.{SessionFault as RunFault};
ghost use Rattle.dict_session.specs.Spoken.{Speaks, HasUnavailable, BreaksOff, answers, has_quit, session};

mod answer;
mod asked;
mod found;
mod host;
mod query;
mod rows;
mod session;
mod show;
mod step;

pub use host::is_host;
pub use session::Session;
pub use session::run::{SessionEnd, SessionFault, run};
pub use step::Step;

/// The lines of octets are these, and no others; and those of a front and a piece are the front's, and then those that end in
/// the piece.
pub fn one_cut()
    ensures found { (b : List ℕ) → AreLines b (cut b).lines (cut b).rest }
    ensures only { (b : List ℕ) (ls : List (List ℕ)) (rest : List ℕ) → AreLines b ls rest → (ls ≡ (cut b).lines) × (rest ≡ (cut b).rest) }
    ensures pieces { (front piece : List ℕ) → (cut (front ++ piece)).lines ≡ (cut front).lines ++ lines_in front piece }
{}

/// Where no answer gives way to the 420 line, what a session writes is the answers to its lines.
pub fn spoken_answers()
    ensures { (answer : Meaning → List ℕ) (closed : Bool) (ls : List (List ℕ)) → Speaks answer closed ls (answers answer ls) (has_quit ls) }
{}

/// What answers lines is the answers to them, octet for octet, or the 420 line stands in place of one of these; so what was
/// written where nothing gave way to it is the session.
pub fn spoken_or_unavailable()
    ensures answers { (answer : Meaning → List ℕ) (closed : Bool) (ls : List (List ℕ)) (o : List ℕ) (ended : Bool) → Speaks answer closed ls o ended
        → ((o ≡ answers answer ls) × (ended ≡ has_quit ls)) ⊎ HasUnavailable answer closed ls o }
    ensures session { (answer : Meaning → List ℕ) (closed : Bool) (greeting octets o : List ℕ) (ended : Bool) → Speaks answer closed (cut octets).lines o ended
        → (greeting ++ o ≡ session answer greeting octets) ⊎ HasUnavailable answer closed (cut octets).lines o }
{}

/// What the desk broke off is the front of what answers the lines.
pub fn broken_is_a_front()
    ensures { (answer : Meaning → List ℕ) (closed : Bool) (ls : List (List ℕ)) (o : List ℕ) → BreaksOff answer closed ls o
        → (more : List ℕ) × (ended : Bool) × Speaks answer closed ls (o ++ more) ended }
{}

/// Where the catalogue keeps its limits, and the host, no line of a session has more than 1,024 octets, its CR LF
/// counted, also where the 420 line stands in place of answers. What a run wrote, however it ended, is a front of such lines.
pub fn session_lines_are_short()
    ensures runs { (M : Catalogue) (host : List ℕ) (connection : ℕ) (desk : Condition) (end : Result RunEnd RunFault) (reader writer : StreamChange)
        → IsWellFormed M → IsTrue (is_host host) → connection < 2 ^ 64 → Ends M host connection desk end reader writer → PutsShort writer.old writer.new }
    ensures spoken { (M : Catalogue) (host : List ℕ) (connection : ℕ) (closed : Bool) (ls : List (List ℕ)) (o : List ℕ) (ended : Bool)
        → IsWellFormed M → IsTrue (is_host host) → connection < 2 ^ 64 → Speaks (answer_to M host) closed ls o ended
        → AreShortLines (banner_octets host connection ++ o) }
{}
